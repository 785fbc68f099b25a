// The process of a core.
ghost use Rattle.std.specs.Prelude.{◌≡◌};
ghost use Rattle.core_notes.specs.DescriptorWords.{psinfo_bytes};
ghost use Rattle.script_streams.specs.Replies.{PrintsText, printing};
ghost use Rattle.case_screens.specs.Core.{desc_in, notes_read};
ghost use Rattle.case_screens.specs.Process.{command_text, process_line, process_text};

use crate::texts::{print_plain, print_refused};
use crate::told_notes::process_of;
use core_notes::PsInfo;
use image_replies::{CoreFault, CoreImage};
use script_streams::{Output, Reply};

// Prints the process of a core, or why it is not shown.
pub(crate) fn print_process<O: Output>(
    reply: &mut Reply<'_, O>,
    core: &Result<CoreImage<'_>, CoreFault>,
)
    ensures { PrintsText (printing O.Output reply.old reply.new) (process_text (desc_in 3 (notes_read core.now))) }
{
    match process_of(core) {
        Ok(process) => print_known_process(reply, &process),
        Err(reason) => print_refused(reply, b"process   ", &reason),
    }
}

fn print_known_process<O: Output>(reply: &mut Reply<'_, O>, process: &PsInfo<'_>)
    ensures { PrintsText (printing O.Output reply.old reply.new) (process_line (psinfo_bytes process.now)) }
{
    reply.print(b"process   ");
    reply.print_signed(i64::from(process.pr_pid()));
    reply.print(b" (parent ");
    reply.print_signed(i64::from(process.pr_ppid()));
    reply.print(b"), user ");
    reply.print_decimal(u128::from(process.pr_uid()));
    reply.print(b", ");
    print_command(reply, process.pr_psargs(), process.pr_fname());
    reply.print(b"\n");
}

// Prints a command line; or the name, if that is empty.
fn print_command<O: Output>(reply: &mut Reply<'_, O>, words: &[u8], name: &[u8])
    ensures { PrintsText (printing O.Output reply.old reply.new) (command_text words.now name.now) }
{
    if words.is_empty() {
        print_plain(reply, name);
    } else {
        print_plain(reply, words);
    }
}
