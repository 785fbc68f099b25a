// The threads of a core.
ghost use Rattle.std.specs.Prelude.{◌≡◌, Ok, option_map};
ghost use Rattle.core_notes.specs.FileWords.{file_view, files_bytes};
ghost use Rattle.elf_view.specs.ViewWords.{notes_of};
ghost use Rattle.elf_view.specs.declared.faults.Want.TheVariants.{Core};
ghost use Rattle.image_replies.specs.CoreWords.{core_bytes};
ghost use Rattle.script_streams.specs.Replies.{PrintsText, printing};
ghost use Rattle.thread_regs.specs.ThreadWords.{thread_bytes, threads_left};
ghost use Rattle.case_screens.specs.Core.{files_in, notes_read};
ghost use Rattle.case_screens.specs.Frames as spec;

use crate::frames::{frame_file, print_frames, print_place as print_frame_place};
use crate::reason::core_reason;
use crate::texts::{print_name, print_refused, print_rest_after};
use crate::told_notes::{pc_of, thread_count};
use core_notes::{FileMap, Files};
use frame_replies::{FrameAnswer, FramesAnswer};
use image_replies::{CoreFault, CoreImage};
use script_streams::{Output, Reply};
use thread_regs::{Thread, ThreadList, threads};

/// How many threads a screen shows at most.
pub const MOST_THREADS: usize = 256;

// Prints the threads that are shown, at most 256, and their frames, by the core and the frames that were found.
pub(crate) fn print_threads<O: Output>(
    reply: &mut Reply<'_, O>,
    core: &Result<CoreImage<'_>, CoreFault>,
    unwound: &[Option<FramesAnswer<'_>>],
)
    ensures { PrintsText (printing O.Output reply.old reply.new) (spec.threads_text (notes_read core.now) unwound.now) }
{
    match core {
        Ok(core) => print_shown(reply, core, unwound),
        Err(fault) => {
            let reason = core_reason(*fault);
            print_refused(reply, b"thread    ", &reason);
            print_refused(reply, b"frames    ", &reason);
        }
    }
}

fn print_shown<O: Output>(
    reply: &mut Reply<'_, O>,
    core: &CoreImage<'_>,
    unwound: &[Option<FramesAnswer<'_>>],
)
    ensures { PrintsText (printing O.Output reply.old reply.new) (spec.shown_threads (notes_of Core (core_bytes core.now)) unwound.now) }
{
    if unwound.is_empty() {
        reply.print(b"thread    the core has no thread\n");
        return;
    }
    let count = thread_count(core);
    let (shown, _) = unwound.split_at(unwound.len().min(MOST_THREADS));
    print_each(
        reply,
        core.notes().files(),
        count,
        threads(core.notes()),
        shown,
    );
    print_threads_rest(reply, count, unwound.len());
}

// Prints how many threads are not shown, if more than one is.
fn print_threads_rest<O: Output>(reply: &mut Reply<'_, O>, count: u64, unwound: usize)
    ensures { PrintsText (printing O.Output reply.old reply.new) (spec.threads_rest count unwound) }
{
    if unwound > 1 {
        print_rest_after(
            reply,
            b"thread    ",
            unwound.min(MOST_THREADS),
            count as usize,
        );
    }
}

// Prints as many threads as were unwound.
fn print_each<O: Output>(
    reply: &mut Reply<'_, O>,
    files: Option<Files<'_>>,
    count: u64,
    threads: ThreadList<'_>,
    unwound: &[Option<FramesAnswer<'_>>],
)
    ensures { PrintsText (printing O.Output reply.old reply.new) (spec.each_thread (files_in (option_map files_bytes files.entry)) count (threads_left threads.entry) unwound.now) }
{
    let mut rest = threads;
    for frames in unwound {
        let Some(thread) = rest.next() else {
            return;
        };
        print_thread(reply, files, count, &thread, frames);
    }
}

fn print_thread<O: Output>(
    reply: &mut Reply<'_, O>,
    files: Option<Files<'_>>,
    count: u64,
    thread: &Thread<'_>,
    frames: &Option<FramesAnswer<'_>>,
)
    ensures { PrintsText (printing O.Output reply.old reply.new) (spec.thread_text (files_in (option_map files_bytes files.entry)) count (thread_bytes thread.now) frames.now) }
{
    reply.print(b"thread    ");
    reply.print_signed(i64::from(thread.tid()));
    reply.print(b" (");
    reply.print_decimal(u128::from(count));
    reply.print(b" in all), pc ");
    reply.print_hexadecimal(u128::from(pc_of(thread)));
    print_place(reply, files, frames);
    reply.print(b"\n");
    print_frames(reply, files, frames);
}

// Prints the function and the file of a thread's pc, as far as they are known.
fn print_place<O: Output>(
    reply: &mut Reply<'_, O>,
    files: Option<Files<'_>>,
    frames: &Option<FramesAnswer<'_>>,
)
    ensures { PrintsText (printing O.Output reply.old reply.new) (spec.pc_place (files_in (option_map files_bytes files.entry)) frames.now) }
{
    if let Some(answer) = frames {
        print_first(reply, files, &answer.frames);
    }
}

fn print_first<O: Output>(
    reply: &mut Reply<'_, O>,
    files: Option<Files<'_>>,
    frames: &[FrameAnswer<'_>],
)
    ensures { PrintsText (printing O.Output reply.old reply.new) (spec.first_place (files_in (option_map files_bytes files.entry)) frames.now) }
{
    if let [frame, ..] = frames {
        print_function(reply, frame);
        print_file(reply, frame_file(files, frame));
    }
}

fn print_function<O: Output>(reply: &mut Reply<'_, O>, frame: &FrameAnswer<'_>)
    ensures { PrintsText (printing O.Output reply.old reply.new) (spec.in_function frame.now) }
{
    if frame.signal || frame.function.is_some() {
        reply.print(b" in ");
        print_frame_place(reply, frame, None);
    }
}

fn print_file<O: Output>(reply: &mut Reply<'_, O>, file: Option<FileMap<'_>>)
    ensures { PrintsText (printing O.Output reply.old reply.new) (spec.in_file (option_map file_view file.entry)) }
{
    if let Some(map) = file {
        reply.print(b" (");
        print_name(reply, map.name);
        reply.print(b")");
    }
}
