// The registers of a frame.
ghost use Rattle.std.specs.Prelude.{◌≡◌, ◌<◌, ℕ, List, map, slice_get};
ghost use Rattle.script_streams.specs.Replies.{PrintsReply, PrintsText, printing};
ghost use Rattle.address_space.specs.Source.{ExecutableView};
ghost use Rattle.image_replies.specs.CoreWords.{core_bytes};
ghost use Rattle.image_replies.specs.Threads.{register_name};
ghost use Rattle.memory_replies.specs.Answers.{AnswersWith};
ghost use Rattle.memory_replies.specs.Memory.{attached_view};
ghost use Rattle.unwind.specs.declared.faults.Stop as stops;
ghost use Rattle.frame_replies.specs.FrameRegisters as spec;
ghost use Rattle.frame_replies.specs.Walking as walks;
ghost use Rattle.frame_replies.specs.declared.process.UnwoundProcess as processes;

use crate::known::print_known;
use crate::process::{UnwoundExecutables, UnwoundProcess, chosen_for};
use crate::refused::print_no_memory;
use crate::walk::Walk;
use address_space::Attached;
use image_replies::CoreImage;
use memory_replies::Outcome;
use script_streams::{Output, Reply, print_no, print_ok};
use std::alloc::Global;
use thread_regs::Reg;
use unwind::Frame;

/// The name in the psABI of the register that a word of a thread's state holds.
fn register_name(word: usize) -> &'static str
    requires { word < 32 }
    ensures { result.now ≡ register_name word }
{
    Reg::of_word(word).name()
}

/// What is known of the register that a word of a thread's state holds.
fn register_at(frame: &Frame, word: usize) -> Option<u64>
    ensures { result ≡ spec.register_at frame.now word }
{
    if word == 0 {
        return Some(frame.pc);
    }
    frame.register(word as u64)
}

#[tactic(auto, unfolding(crate::specs::FrameRegisters::register_line))]
fn print_register<O: Output>(reply: &mut Reply<'_, O>, frame: &Frame, word: usize)
    requires { word < 32 }
    ensures { PrintsText (printing O.Output reply.old reply.new) (spec.register_line frame.now word) }
{
    reply.print(register_name(word).as_bytes());
    reply.print(b" ");
    print_known(reply, register_at(frame, word));
    reply.print(b"\n");
}

/// Prints a line for each register of a frame.
fn print_registers<O: Output>(reply: &mut Reply<'_, O>, frame: &Frame)
    ensures { PrintsText (printing O.Output reply.old reply.new) (spec.register_lines frame.now) }
{
    for word in 0..32 {
        print_register(reply, frame, word);
    }
}

/// The frame of that number, or `None` where fewer were found.
fn frame_at(walk: &Walk, index: u64) -> Option<Frame>
    ensures { result ≡ slice_get (walks.found walk.now.frames.items) index }
{
    let walked = walk.frames.get(index as usize)?;
    Some(walked.frame)
}

/// Prints the registers of a frame, if it is there. Says whether it is.
fn print_registers_of<O: Output>(reply: &mut Reply<'_, O>, frame: Option<Frame>) -> Outcome
    ensures { PrintsReply (printing O.Output reply.old reply.new) (AnswersWith result (spec.registers_of frame)) }
{
    match frame {
        Some(frame) => {
            print_registers(reply, &frame);
            print_ok(reply);
            Outcome::Done
        }
        None => {
            print_no(reply, b"NoFrame");
            Outcome::Refused
        }
    }
}

/// Prints what is known of the registers of a frame of a thread, all of whose frames a walk has found, by its number: `NAME h`, or
/// `NAME ?` for a register that is not known. A thread with fewer frames is answered by `no NoFrame`. Says what became of it.
pub fn print_walked_frame<O: Output>(reply: &mut Reply<'_, O>, walk: &Walk, frame: u64) -> Outcome
    ensures { (image : List ℕ) (executables : List ExecutableView) (thread : ℕ) (process : processes.UnwoundProcess) (stop : stops.Stop)
        → walks.IsWalkOf image executables thread process walk.now → walks.HasFound walk.now stop
        → PrintsReply (printing O.Output reply.old reply.new) (AnswersWith result (spec.frame_answer image executables thread frame)) }
{
    print_registers_of(reply, frame_at(walk, frame))
}

/// Prints what is known of the registers of a frame of a core's thread, by its number among those that [`crate::print_unwind`] tells,
/// as [`print_walked_frame`] does. A core with fewer threads is answered by `no NoThread`. Says what became of it.
pub fn print_frame<O: Output>(
    alloc: Global,
    reply: &mut Reply<'_, O>,
    core: &CoreImage<'_>,
    attached: &[Attached<'_>],
    thread: u64,
    frame: u64,
) -> Outcome
    ensures { PrintsReply (printing O.Output reply.old reply.new)
        (AnswersWith result (spec.frame_answer (core_bytes core.now) (map attached_view attached.now) thread frame)) }
{
    let Ok(chosen) = chosen_for(alloc, core, attached) else {
        return print_no_memory(reply);
    };
    let Ok(executables) = UnwoundExecutables::of(alloc, &chosen) else {
        return print_no_memory(reply);
    };
    let Ok(process) = UnwoundProcess::of(alloc, core, chosen, &executables) else {
        return print_no_memory(reply);
    };
    let Some(begun) = Walk::begin(alloc, core, thread) else {
        print_no(reply, b"NoThread");
        return Outcome::Refused;
    };
    let mut walk = begun;
    let image = core.elf().image();
    match walk.go_on(alloc, &process, image, image.len() as u64, &[]) {
        Ok(_) => print_walked_frame(reply, &walk, frame),
        // All bytes are at hand, so it is memory.
        Err(_) => print_no_memory(reply),
    }
}
