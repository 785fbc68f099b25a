// The frames of a thread's stack.
ghost use Rattle.std.specs.Prelude.{◌≡◌, ◌++◌, ℕ, List, IfOk, IfSome, None, length, map};
ghost use Rattle.std.specs.List.{flat_map};
ghost use Rattle.script_streams.specs.Replies.{PrintsReply, PrintsText, reply_of, printing};
ghost use Rattle.address_space.specs.Source.{ExecutableView, Space};
ghost use Rattle.address_space.specs.SpaceWords.{space_of};
ghost use Rattle.backtrace.specs.Chain.{chain, stop_of};
ghost use Rattle.backtrace.specs.FrameWords.{frames_left, stop_left};
ghost use Rattle.thread_regs.specs.ThreadWords.{thread_bytes};
ghost use Rattle.image_replies.specs.CoreWords.{core_bytes};
ghost use Rattle.memory_replies.specs.Answers.{AnswersWith};
ghost use Rattle.memory_replies.specs.Backtrace as spec;
ghost use Rattle.memory_replies.specs.Memory.{attached_view, mapped_files, memory_of};
ghost use Rattle.memory_replies.specs.FunctionWords.{places_by};
ghost use Rattle.memory_replies.specs.NamingWords.{named_file};
ghost use Rattle.memory_replies.specs.Naming.{named_files};
ghost use Rattle.memory_replies.specs.Stack.{HasFrames, IsWalked};
ghost use Rattle.thread_regs.specs.Register.{register_in};

use crate::attached::{space_and_images, space_with};
use crate::function_names::{FunctionNames, print_where};
use crate::laws::a_sound_front_names_the_files;
use crate::named_executable::NamedExecutable;
use crate::naming::named_executables;
use crate::outcome::Outcome;
use crate::window::Window;
use crate::words::print_hex_word;
use address_space::{AddressSpace, Attached};
use backtrace::{Frame, Frames, StackBytes, Stop};
use elf_view::a_sound_front_is_enough;
use image_replies::CoreImage;
use script_streams::{Output, Reply, print_no, print_ok};
use std::alloc::{AllocError, Global};
use thread_regs::{Reg, Thread, threads};

/// The address that is looked up for a frame: its pc in frame 0, and in others the address before it.
fn looked_up(frame: Frame) -> Option<u64>
    ensures { result ≡ spec.looked_up frame }
{
    if frame.index == 0 {
        Some(frame.pc)
    } else {
        frame.pc.checked_sub(1)
    }
}

/// Prints the value of the return address register, after frame 0.
fn print_return<O: Output>(reply: &mut Reply<'_, O>, ra: u64, frame: Frame)
    ensures { PrintsText (printing O.Output reply.old reply.new) (spec.return_words ra frame) }
{
    if frame.index == 0 {
        reply.print(b" ra ");
        reply.print_hexadecimal(u128::from(ra));
    }
}

/// Prints the line of a frame.
#[tactic(auto, unfolding(crate::specs::Backtrace::frame_line))]
fn print_frame<O: Output>(
    reply: &mut Reply<'_, O>,
    space: &AddressSpace<'_>,
    names: &FunctionNames<'_>,
    ra: u64,
    frame: Frame,
)
    ensures { PrintsText (printing O.Output reply.old reply.new)
        (spec.frame_line (places_by (space_of space.now).files names.now) ra frame) }
{
    reply.print_decimal(u128::from(frame.index));
    reply.print(b" ");
    print_hex_word(reply, frame.pc);
    print_where(reply, space, names, frame.pc, looked_up(frame));
    reply.print(b" fp ");
    reply.print_hexadecimal(u128::from(frame.fp));
    print_return(reply, ra, frame);
    reply.print(b"\n");
}

/// The name of a reason why frames end.
fn stop_name(stop: Stop) -> &'static [u8]
    ensures { result.now ≡ spec.stop_name stop }
{
    match stop {
        Stop::NotRising => b"NotRising",
        Stop::ZeroLink => b"ZeroLink",
        Stop::Misaligned => b"Misaligned",
        Stop::Unreadable => b"Unreadable",
        Stop::Limit => b"Limit",
    }
}

/// Prints why frames end.
fn print_stop<O: Output>(reply: &mut Reply<'_, O>, stop: Stop)
    ensures { PrintsText (printing O.Output reply.old reply.new) (spec.stop_line stop) }
{
    reply.print(b"stop ");
    reply.print(stop_name(stop));
    reply.print(b"\n");
}

/// Prints a line for each remaining frame, and why they end.
fn print_frames<O: Output>(
    reply: &mut Reply<'_, O>,
    space: &AddressSpace<'_>,
    names: &FunctionNames<'_>,
    ra: u64,
    frames: Frames<'_, '_>,
)
    ensures { PrintsText (printing O.Output reply.old reply.new)
        (flat_map (spec.frame_line (places_by (space_of space.now).files names.now) ra) (frames_left frames.entry)
        ++ spec.stop_line (stop_left frames.entry)) }
{
    let mut frames = frames;
    while let Some(frame) = frames.next() {
        print_frame(reply, space, names, ra, frame);
    }
    if let Some(stop) = frames.stop() {
        print_stop(reply, stop);
    }
}

/// The frames from a pc and a frame pointer on: those of the memory, or those that bytes of its stack show.
fn frames_from<'s, 'a>(
    space: &'s AddressSpace<'a>,
    stack: Option<&'s [u8]>,
    pc: u64,
    fp: u64,
) -> Frames<'s, 'a>
    ensures frames { (other : Space) → IsWalked stack.entry pc fp (space_of space.now) other → frames_left result ≡ chain (spec.words_of other) pc fp }
    ensures stop { (other : Space) → IsWalked stack.entry pc fp (space_of space.now) other → stop_left result ≡ stop_of (spec.words_of other) pc fp }
{
    match stack {
        Some(bytes) => {
            let first = fp.saturating_sub(16);
            Frames::in_stack(StackBytes { first, bytes }, pc, fp)
        }
        None => Frames::new(space, pc, fp),
    }
}

/// Prints the frames of a thread: those of the memory, or those that bytes of its stack show.
fn print_thread<O: Output>(
    reply: &mut Reply<'_, O>,
    space: &AddressSpace<'_>,
    names: &FunctionNames<'_>,
    stack: Option<&[u8]>,
    thread: Thread<'_>,
)
    ensures { (other : Space) → IsWalked stack.entry (register_in (thread_bytes thread.entry) 32) (register_in (thread_bytes thread.entry) 8) (space_of space.now) other
        → PrintsText (printing O.Output reply.old reply.new)
        (spec.thread_lines other (places_by (space_of space.now).files names.now)
        (thread_bytes thread.entry)) }
{
    let ra = thread.register(Reg::of_word(1));
    let pc = thread.register(Reg::of_word(0));
    let fp = thread.register(Reg::of_word(8));
    print_frames(reply, space, names, ra, frames_from(space, stack, pc, fp));
}

/// The bytes of the window, unless the core is the whole image.
fn stack_in<'w>(core: &CoreImage<'_>, window: Window<'w>) -> Option<&'w [u8]>
    ensures whole { result ≡ None → length (core_bytes core.now) ≡ window.entry.size }
    ensures part { IfSome result (λ bytes. bytes.now ≡ window.entry.bytes.now) }
    ensures short { IfSome result (λ bytes. ¬ (length (core_bytes core.now) ≡ window.entry.size)) }
{
    if core.elf().image().len() as u64 == window.size {
        None
    } else {
        Some(window.bytes)
    }
}

/// Prints the frames of a core's thread, by its number among the threads, in that memory, with the functions that these files
/// name. Returns the outcome.
fn print_thread_of<O: Output>(
    reply: &mut Reply<'_, O>,
    core: &CoreImage<'_>,
    window: Window<'_>,
    space: &AddressSpace<'_>,
    names: &FunctionNames<'_>,
    thread: u64,
) -> Outcome
    ensures { (image : List ℕ) (executables : List ExecutableView) → HasFrames (core_bytes core.now) window.entry.size window.entry.bytes.now thread image
        → space_of space.now ≡ memory_of (core_bytes core.now) executables
        → PrintsReply (printing O.Output reply.old reply.new)
        (AnswersWith result (spec.frames_answer image executables (places_by (mapped_files image) names.now) thread)) }
{
    a_sound_front_is_enough();
    a_sound_front_names_the_files();
    let Some(thread) = threads(core.notes()).thread(thread) else {
        print_no(reply, b"NoThread");
        return Outcome::Refused;
    };
    print_thread(reply, space, names, stack_in(core, window), thread);
    print_ok(reply);
    Outcome::Done
}

/// Prints the frames of a core's thread, by its number among the threads: `0 PC WHERE fp h ra h`, then `I PC WHERE fp h`
/// for each other, and `stop REASON`. WHERE is `NAME+h` by the symbols of the executable that is attached for the mapped
/// file, or `?`. A core with fewer threads is answered by `no NoThread`. Returns the outcome.
///
/// The core may be only the first bytes of an image. The reply is the same as for every image that starts with these bytes, and
/// whose frames the window determines (`has_frames`).
pub fn print_bt<O: Output>(
    alloc: Global,
    reply: &mut Reply<'_, O>,
    core: &CoreImage<'_>,
    window: Window<'_>,
    attached: &[Attached<'_>],
    thread: u64,
) -> Outcome
    ensures { (image : List ℕ) → HasFrames (core_bytes core.now) window.entry.size window.entry.bytes.now thread image → PrintsReply (printing O.Output reply.old reply.new)
        (AnswersWith result (spec.bt_answer image (map attached_view attached.now) thread)) }
{
    let Ok((space, images)) = space_and_images(alloc, core, attached) else {
        print_no(reply, b"OutOfMemory");
        return Outcome::OutOfMemory;
    };
    let names = FunctionNames::OfExecutables(images);
    print_thread_of(reply, core, window, &space, &names, thread)
}

/// The memory of a core with its executables, and these with their debug files. The error is that there is no memory.
fn space_and_named<'a>(
    alloc: Global,
    core: &CoreImage<'a>,
    attached: &[Attached<'a>],
    debugs: &[Attached<'a>],
) -> Result<(AddressSpace<'a>, Vec<NamedExecutable<'a>>), AllocError>
    ensures space { IfOk result (λ m. space_of m.0 ≡ memory_of (core_bytes core.now) (map attached_view attached.now)) }
    ensures named { IfOk result (λ m. map named_file m.1.items ≡ named_files (map attached_view attached.now) (map attached_view debugs.now)) }
{
    let space = space_with(alloc, core, attached)?;
    let named = named_executables(alloc, attached, debugs)?;
    Ok((space, named))
}

/// Like `print_bt`, but if a function's executable has no symbol for it, the debug file of the same path names the function, if
/// there is one.
pub fn print_bt_with_debugs<O: Output>(
    alloc: Global,
    reply: &mut Reply<'_, O>,
    core: &CoreImage<'_>,
    window: Window<'_>,
    attached: &[Attached<'_>],
    debugs: &[Attached<'_>],
    thread: u64,
) -> Outcome
    ensures { (image : List ℕ) → HasFrames (core_bytes core.now) window.entry.size window.entry.bytes.now thread image → PrintsReply (printing O.Output reply.old reply.new)
        (AnswersWith result (spec.bt_with_debugs image (map attached_view attached.now) (map attached_view debugs.now) thread)) }
{
    let Ok((space, named)) = space_and_named(alloc, core, attached, debugs) else {
        print_no(reply, b"OutOfMemory");
        return Outcome::OutOfMemory;
    };
    let names = FunctionNames::WithDebugFiles(named);
    print_thread_of(reply, core, window, &space, &names, thread)
}
