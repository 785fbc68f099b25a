// The screen of a case.
ghost use Rattle.std.specs.Prelude.{◌≡◌, map};
ghost use Rattle.journal_layout.specs.Case.{case_of};
ghost use Rattle.script_streams.specs.Replies.{PrintsText, printing};
ghost use Rattle.case_screens.specs.Screen.{answers_text, core_text, cut_line, exec_text, head_text, header_text, info_answer, label_text, notes_line, pin_text, when_text};

use crate::answer::{CaseAnswers, CoreAnswers};
use crate::files::print_files;
use crate::process::print_process;
use crate::reason::elf_reason;
use crate::signal::print_signal_line;
use crate::texts::print_refused;
use crate::threads::print_threads;
use case_tables::{Zone, print_size, print_spaces, print_time_in, shown_length};
use core_checks::UnreadNotes;
use elf_view::{ElfFault, Header};
use journal_layout::Entry;
use script_streams::{Output, Reply};

// How wide the name of a case is, if it is not longer.
const NAME_WIDTH: usize = 36;

/// Prints one screen of a case, with its time in a zone: the known facts of it, of the cases of its archive, of its image, and of the frames and the build IDs
/// that were found.
pub fn print_case_screen<O: Output>(
    reply: &mut Reply<'_, O>,
    zone: Zone<'_>,
    case: &Entry,
    cases: &[Entry],
    answers: &CaseAnswers<'_, '_>,
)
    ensures is_screen { PrintsText (printing O.Output reply.old reply.new) (info_answer zone.entry (case_of case.now) (map case_of cases.now) answers.now) }
{
    print_head(reply, case);
    match answers {
        CaseAnswers::Core(answers) => print_core(reply, zone, case, cases, answers),
        CaseAnswers::Exec(header) => print_exec(reply, header),
    }
}

// Prints a case's name, number and size, and whether it is pinned.
fn print_head<O: Output>(reply: &mut Reply<'_, O>, case: &Entry)
    ensures { PrintsText (printing O.Output reply.old reply.new) (head_text (case_of case.now)) }
{
    reply.print_text(case.name.as_slice());
    print_spaces(
        reply,
        NAME_WIDTH.saturating_sub(shown_length(case.name.as_slice())),
    );
    reply.print(b"  case ");
    reply.print_decimal(u128::from(case.seq));
    reply.print(b", ");
    print_size(reply, case.length);
    print_pin(reply, case.pinned);
    print_label_of(reply, case.label.as_slice());
    reply.print(b"\n");
}

fn print_pin<O: Output>(reply: &mut Reply<'_, O>, pinned: bool)
    ensures { PrintsText (printing O.Output reply.old reply.new) (pin_text pinned) }
{
    if pinned {
        reply.print(b", pinned");
    } else {
        reply.print(b", not pinned");
    }
}

fn print_label_of<O: Output>(reply: &mut Reply<'_, O>, label: &[u8])
    ensures { PrintsText (printing O.Output reply.old reply.new) (label_text label.now) }
{
    if !label.is_empty() {
        reply.print(b", label ");
        reply.print_text(label);
    }
}

fn print_when<O: Output>(reply: &mut Reply<'_, O>, zone: Zone<'_>, time: u64)
    ensures { PrintsText (printing O.Output reply.old reply.new) (when_text zone.entry time) }
{
    reply.print(b"when      ");
    print_time_in(reply, zone, time);
    reply.print(b"\n");
}

// Prints how many bytes there are of a core, and how many its program headers want, if that is more.
fn print_cut<O: Output>(reply: &mut Reply<'_, O>, has: u64, whole: Option<u64>)
    ensures { PrintsText (printing O.Output reply.old reply.new) (cut_line has whole) }
{
    match whole {
        Some(whole) if has < whole => {
            reply.print(b"cut       ");
            print_size(reply, has);
            reply.print(b" of ");
            print_size(reply, whole);
            reply.print(b"\n");
        }
        _ => {}
    }
}

// Prints why notes of a core are not read, if some are not.
fn print_unread<O: Output>(reply: &mut Reply<'_, O>, unread: Option<UnreadNotes>)
    ensures { PrintsText (printing O.Output reply.old reply.new) (notes_line unread) }
{
    match unread {
        Some(UnreadNotes::Padded) => {
            reply.print(b"notes     padded to 8 bytes: only those padded to 4 are read\n");
        }
        Some(UnreadNotes::Linux) => {
            reply.print(b"notes     of threads are named LINUX: only those named CORE are read\n");
        }
        None => {}
    }
}

fn print_core<O: Output>(
    reply: &mut Reply<'_, O>,
    zone: Zone<'_>,
    case: &Entry,
    cases: &[Entry],
    answers: &CoreAnswers<'_, '_>,
)
    ensures { PrintsText (printing O.Output reply.old reply.new) (core_text zone.entry (case_of case.now) (map case_of cases.now) answers.now) }
{
    print_when(reply, zone, case.time);
    print_cut(reply, case.length, answers.whole);
    print_unread(reply, answers.unread);
    print_process(reply, &answers.core);
    print_signal_line(reply, case.signal, &answers.core);
    print_threads(reply, &answers.core, answers.unwound);
    print_files(reply, cases, &answers.core, answers.builds);
}

fn print_exec<O: Output>(reply: &mut Reply<'_, O>, header: &Result<Header, ElfFault>)
    ensures { PrintsText (printing O.Output reply.old reply.new) (exec_text header.now) }
{
    match header {
        Ok(header) => print_header(reply, header),
        Err(fault) => print_refused(reply, b"header    ", &elf_reason(*fault)),
    }
}

fn print_header<O: Output>(reply: &mut Reply<'_, O>, header: &Header)
    ensures { PrintsText (printing O.Output reply.old reply.new) (header_text header.now) }
{
    reply.print(b"header    type ");
    reply.print_decimal(u128::from(header.kind));
    reply.print(b", entry ");
    reply.print_hexadecimal(u128::from(header.entry));
    reply.print(b", flags ");
    reply.print_hexadecimal(u128::from(header.flags));
    reply.print(b", ");
    reply.print_decimal(u128::from(header.segments));
    reply.print(b" program headers\n");
}
