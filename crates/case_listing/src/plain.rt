// The reply to a line as people read it.
ghost use Rattle.case_listing.specs.Plain.{DeliversPlain};

use crate::case_words::{NamedLine, ask_case};
use crate::dump::deliver_dump;
use crate::send_plain;
use archive_files::{ArchivePath, Collected, Failure, ask};
use diagnostics::Onlooker;
use inspector_cli::SessionFault;
use script_lines::Question;
use script_streams::Output;
use std::fs::File;
use std::rt::Files;
use std::time::Clock;

/// Answers a line, and prints its reply for people; that of `dump` has the bytes as text too.
/// Without a question its second word names a case. The reply is held until the line is done.
///
/// # Errors
///
/// Those of `ask` and of `ask_case`. `WriteFailed` too if there is no memory to hold the reply: a front of it is printed.
pub fn ask_plain<R: AllocGlobal + Files<File = File> + Clock, O: Output, W: Onlooker>(
    rt: &R,
    place: ArchivePath<'_>,
    line: NamedLine<'_>,
    question: Option<Question>,
    output: &mut O,
    onlooker: &mut W,
) -> Result<(), Failure> {
    let mut reply = Collected::new(rt.alloc());
    let asked = match question {
        Some(question) => ask(rt, place, question, &mut reply, onlooker),
        None => ask_case(rt, place, line, &mut reply, onlooker),
    };
    if line.words.first().copied() == Some("dump") {
        return deliver_dump(reply.text(), asked, output);
    }
    deliver_plain(reply.text(), asked, output)
}

// Prints the reply of a line that ended so.
fn deliver_plain<O: Output>(
    text: &[u8],
    asked: Result<(), Failure>,
    output: &mut O,
) -> Result<(), Failure>
    ensures { DeliversPlain (O.taken output.old) (O.taken output.new) (O.failures output.old) (O.failures output.new) text.now asked result }
{
    match send_plain(text, output) {
        Ok(()) => asked,
        Err(_) => Err(Failure::Faulted(SessionFault::WriteFailed)),
    }
}
