// The frames of a thread's stack.
ghost use Rattle.std.specs.Prelude.{◌≡◌, ◌++◌, ℕ, List, [], map, is_ok, if◌then◌else◌};
ghost use Rattle.script_streams.specs.Replies.{PrintsReply, PrintsText, printing};
ghost use Rattle.address_space.specs.Source.{ExecutableView};
ghost use Rattle.address_space.specs.SpaceWords.{space_of};
ghost use Rattle.image_replies.specs.CoreWords.{core_bytes};
ghost use Rattle.image_replies.specs.Lines.{numbered_lines};
ghost use Rattle.memory_replies.specs.Answers.{AnswersWith};
ghost use Rattle.memory_replies.specs.Memory.{attached_view};
ghost use Rattle.frame_replies.specs.FrameLines as spec;
ghost use Rattle.frame_replies.specs.FrameSources as sources;
ghost use Rattle.frame_replies.specs.FrameValues.{frame_view};
ghost use Rattle.frame_replies.specs.ProcessWords.{named_in};
ghost use Rattle.frame_replies.specs.Walking as walks;
ghost use Rattle.frame_replies.specs.declared.lines.Shown.TheVariants.{Stack};

use crate::known::print_known;
use crate::process::{UnwoundExecutables, UnwoundProcess, chosen_for};
use crate::refused::print_no_memory;
use crate::sources::print_source_lines;
use crate::stops::print_stop;
use crate::values::FrameAnswer;
use crate::walk::{Walk, WalkedFrame};
use address_space::Attached;
use image_replies::CoreImage;
use memory_replies::{Outcome, print_hex_word, print_place};
use script_streams::{Output, Reply, print_no, print_ok};
use std::alloc::{AllocError, Global};
use unwind::Stop;

/// What a frame's line shows beside its place.
#[derive(Clone, Copy, PartialEq, Eq)]
pub enum Shown {
    /// The stack pointer, and the return address register of frame 0.
    Stack,
    /// The source line.
    Source,
}

/// Prints where a frame is: `signal` at the code to which a signal handler returns, else `NAME+h` by the symbols of the executable that is
/// attached for the mapped file, or of its debug file, or `?`.
pub fn print_frame_place<O: Output>(reply: &mut Reply<'_, O>, frame: &FrameAnswer<'_>)
    ensures { PrintsText (printing O.Output reply.old reply.new) (spec.place_text (frame_view frame.now)) }
{
    if frame.signal {
        reply.print(b"signal");
    } else {
        print_place(reply, frame.function);
    }
}

/// Prints what is known of the return address register, after frame 0.
fn print_return<O: Output>(reply: &mut Reply<'_, O>, index: u64, frame: &FrameAnswer<'_>)
    ensures { PrintsText (printing O.Output reply.old reply.new) (spec.return_words index (frame_view frame.now)) }
{
    if index == 0 {
        reply.print(b" ra ");
        print_known(reply, frame.returns);
    }
}

/// Prints the line of a frame.
#[tactic(auto, unfolding(crate::specs::FrameLines::value_line))]
fn print_line<O: Output>(reply: &mut Reply<'_, O>, index: u64, frame: &FrameAnswer<'_>)
    ensures { PrintsText (printing O.Output reply.old reply.new) (spec.value_line index (frame_view frame.now)) }
{
    reply.print_decimal(u128::from(index));
    reply.print(b" ");
    print_hex_word(reply, frame.pc);
    print_frame_place(reply, frame);
    reply.print(b" sp ");
    print_known(reply, frame.stack);
    print_return(reply, index, frame);
    reply.print(b"\n");
}

/// Prints a line for each frame with its stack pointer, the first being number 0.
fn print_lines<O: Output>(
    reply: &mut Reply<'_, O>,
    process: &UnwoundProcess<'_, '_, '_>,
    frames: &[WalkedFrame],
)
    ensures { PrintsText (printing O.Output reply.old reply.new)
        (numbered_lines (walks.walked_line Stack (space_of process.now.space).files (named_in process.now.executables.now.images)) 0 frames.now) }
{
    for (index, walked) in frames.iter().enumerate() {
        print_line(reply, index as u64, &process.frame(walked));
    }
}

/// Prints a line for each frame, by what is shown. The error is that there is no memory, and then nothing is told.
fn print_shown<O: Output>(
    alloc: Global,
    reply: &mut Reply<'_, O>,
    process: &UnwoundProcess<'_, '_, '_>,
    frames: &[WalkedFrame],
    shown: Shown,
) -> Result<(), AllocError>
    ensures { PrintsText (printing O.Output reply.old reply.new)
        (if is_ok result then numbered_lines (walks.walked_line shown (space_of process.now.space).files (named_in process.now.executables.now.images)) 0 frames.now else []) }
{
    match shown {
        Shown::Stack => print_lines(reply, process, frames),
        Shown::Source => {
            let values = process.values(alloc, frames)?;
            let lines = process.sources(alloc, &values)?;
            print_source_lines(reply, &values, &lines);
        }
    }
    Ok(())
}

/// Prints the frames of a thread, all of which a walk has found, and why no other comes: `0 PC WHERE sp h ra h`, then
/// `I PC WHERE sp h` for each other, and `stop REASON`. WHERE is `signal` at the code to which a signal handler returns, else
/// `NAME+h` by the symbols of the executable that is attached for the mapped file, or of its debug file, or `?`. A value that is not known is `?`.
///
/// The address that is looked up for a frame is its pc if execution was there, else the one before it.
///
/// With [`Shown::Source`] each frame is `I PC WHERE FILE LINE`: the source line of that address, by the line tables of the executable or
/// of its debug file, or `? ?`.
pub fn print_walked<O: Output>(
    alloc: Global,
    reply: &mut Reply<'_, O>,
    process: &UnwoundProcess<'_, '_, '_>,
    walk: &Walk,
    stop: Stop,
    shown: Shown,
) -> Outcome
    ensures { (image : List ℕ) (executables : List ExecutableView) (thread : ℕ) → walks.IsWalkOf image executables thread process.now walk.now → walks.HasFound walk.now stop
        → PrintsReply (printing O.Output reply.old reply.new) (AnswersWith result (sources.shown_answer shown image executables thread)) }
{
    let Ok(()) = print_shown(alloc, reply, process, &walk.frames, shown) else {
        return print_no_memory(reply);
    };
    print_stop(reply, stop);
    print_ok(reply);
    Outcome::Done
}

/// Prints the frames of a core's thread by call frame information, by its number among the threads, as [`print_walked`] does. A core
/// with fewer threads is answered by `no NoThread`. Says what became of it.
pub fn print_unwind<O: Output>(
    alloc: Global,
    reply: &mut Reply<'_, O>,
    core: &CoreImage<'_>,
    attached: &[Attached<'_>],
    thread: u64,
    shown: Shown,
) -> Outcome
    ensures { PrintsReply (printing O.Output reply.old reply.new)
        (AnswersWith result (sources.shown_answer shown (core_bytes core.now) (map attached_view attached.now) thread)) }
{
    let Ok(chosen) = chosen_for(alloc, core, attached) else {
        return print_no_memory(reply);
    };
    let Ok(executables) = UnwoundExecutables::of(alloc, &chosen) else {
        return print_no_memory(reply);
    };
    let Ok(process) = UnwoundProcess::of(alloc, core, chosen, &executables) else {
        return print_no_memory(reply);
    };
    let Some(begun) = Walk::begin(alloc, core, thread) else {
        print_no(reply, b"NoThread");
        return Outcome::Refused;
    };
    let mut walk = begun;
    let image = core.elf().image();
    match walk.go_on(alloc, &process, image, image.len() as u64, &[]) {
        Ok(stop) => print_walked(alloc, reply, &process, &walk, stop, shown),
        // All bytes are at hand, so it is memory.
        Err(_) => print_no_memory(reply),
    }
}
