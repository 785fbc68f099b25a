// The reply to `process`.
ghost use Rattle.std.specs.Prelude.{◌≡◌, ◌++◌, is_ok};
ghost use Rattle.std.specs.Option.{option_map};
ghost use Rattle.core_notes.specs.DescriptorWords.{psinfo_bytes};
ghost use Rattle.script_streams.specs.Replies.{PrintsText, printing, reply_of};
ghost use Rattle.image_replies.specs.Lines.{if_there};
ghost use Rattle.image_replies.specs.Process as spec;

use crate::core_image::CoreImage;
use crate::faults::print_core_fault;
use crate::words::print_labelled;
use core_notes::PsInfo;
use script_streams::{Output, Reply, print_no, print_ok};

/// Prints the state and the names of the process of a core, or the first of these that holds: the core or a typed note is
/// bad, it has no NT_PRPSINFO (`no Missing`). Returns whether they are printed; if not, the reply is `no REASON`.
pub fn print_process<O: Output>(reply: &mut Reply<'_, O>, image: &[u8]) -> bool
    ensures states { PrintsText (printing O.Output reply.old reply.new) (reply_of (spec.process_answer image.now)) }
    ensures done { result ≡ is_ok (spec.process_answer image.now) }
{
    match CoreImage::read(image) {
        Ok(core) => print_found(reply, core.notes().psinfo()),
        Err(fault) => {
            print_core_fault(reply, fault);
            false
        }
    }
}

/// Prints a process, if it is there. Returns whether it is.
fn print_found<O: Output>(reply: &mut Reply<'_, O>, process: Option<PsInfo<'_>>) -> bool
    ensures states { PrintsText (printing O.Output reply.old reply.new) (reply_of (if_there (option_map psinfo_bytes process.entry) spec.process_lines)) }
    ensures done { result ≡ is_ok (if_there (option_map psinfo_bytes process.entry) spec.process_lines) }
{
    match process {
        Some(process) => {
            print_process_lines(reply, &process);
            print_ok(reply);
            true
        }
        None => {
            print_no(reply, b"Missing");
            false
        }
    }
}

fn print_process_lines<O: Output>(reply: &mut Reply<'_, O>, process: &PsInfo<'_>)
    ensures { PrintsText (printing O.Output reply.old reply.new) (spec.process_lines (psinfo_bytes process.now)) }
{
    print_numbers(reply, process);
    print_owner(reply, process);
    print_state(reply, process);
    print_names(reply, process);
}

fn print_numbers<O: Output>(reply: &mut Reply<'_, O>, process: &PsInfo<'_>)
    ensures { PrintsText (printing O.Output reply.old reply.new) (spec.numbers_line (psinfo_bytes process.now)) }
{
    print_labelled(reply, b"pid ", process.pr_pid());
    print_labelled(reply, b" ppid ", process.pr_ppid());
    print_labelled(reply, b" pgrp ", process.pr_pgrp());
    print_labelled(reply, b" sid ", process.pr_sid());
    reply.print(b"\n");
}

fn print_owner<O: Output>(reply: &mut Reply<'_, O>, process: &PsInfo<'_>)
    ensures { PrintsText (printing O.Output reply.old reply.new) (spec.owner_line (psinfo_bytes process.now)) }
{
    reply.print(b"uid ");
    reply.print_decimal(u128::from(process.pr_uid()));
    reply.print(b" gid ");
    reply.print_decimal(u128::from(process.pr_gid()));
    reply.print(b"\n");
}

fn print_state<O: Output>(reply: &mut Reply<'_, O>, process: &PsInfo<'_>)
    ensures { PrintsText (printing O.Output reply.old reply.new) (spec.state_line (psinfo_bytes process.now)) }
{
    reply.print(b"state ");
    reply.print_decimal(u128::from(process.pr_state()));
    reply.print(b" ");
    reply.print_text(&[process.pr_sname()]);
    reply.print(b" zomb ");
    reply.print_decimal(u128::from(process.pr_zomb()));
    print_labelled(reply, b" nice ", i32::from(process.pr_nice()));
    reply.print(b" flag ");
    reply.print_hexadecimal(u128::from(process.pr_flag()));
    reply.print(b"\n");
}

fn print_names<O: Output>(reply: &mut Reply<'_, O>, process: &PsInfo<'_>)
    ensures { PrintsText (printing O.Output reply.old reply.new)
        (spec.name_line (psinfo_bytes process.now) ++ spec.words_line (psinfo_bytes process.now)) }
{
    reply.print(b"name ");
    reply.print_text(process.pr_fname());
    reply.print(b"\nargs ");
    reply.print_text(process.pr_psargs());
    reply.print(b"\n");
}
