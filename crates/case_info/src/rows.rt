// The rows of a line that asks an image, as JSON.
use crate::printing::{shown, write_json};
use archive_files::{ArchivePath, Collected, Failure, ask};
use case_listing::{NamedLine, ask_case};
use case_screens::{refusal_json, rows_json};
use command_words::rows_of;
use diagnostics::Onlooker;
use script_lines::Question;
use script_streams::Output;
use std::alloc::Global;
use std::fs::File;
use std::rt::Files;
use std::time::Clock;

/// Answers a line that asks an image, and prints its rows as JSON: an array of objects. If it is refused an object says why.
///
/// # Errors
///
/// `Refused` with `NoLine` if it is no such line. Those of `ask` of `archive_files`.
pub fn ask_rows<R: AllocGlobal + Files<File = File> + Clock, O: Output, W: Onlooker>(
    rt: &R,
    place: ArchivePath<'_>,
    line: NamedLine<'_>,
    question: Option<Question>,
    output: &mut O,
    onlooker: &mut W,
) -> Result<(), Failure> {
    let alloc = rt.alloc();
    let mut reply = Collected::new(alloc);
    let asked = match question {
        Some(question) => ask(rt, place, question, &mut reply, onlooker),
        None => ask_case(rt, place, line, &mut reply, onlooker),
    };
    let done = match asked {
        Ok(()) => print_rows(alloc, line.words, reply.text(), output),
        Err(Failure::Told) => print_refused(alloc, reply.text(), output),
        Err(failure) => Err(failure),
    };
    shown(alloc, true, done, output)
}

fn print_rows<O: Output>(
    alloc: Global,
    words: &[&str],
    text: &[u8],
    output: &mut O,
) -> Result<(), Failure> {
    let rows = text.strip_suffix(b"ok\n".as_slice()).unwrap_or(text);
    let name = words.first().copied().unwrap_or("");
    write_json(&rows_json(alloc, rows, rows_of(name))?, output)
}

// Prints why a line is refused, whose reply is `no` and the reason.
pub(crate) fn print_refused<O: Output>(
    alloc: Global,
    text: &[u8],
    output: &mut O,
) -> Result<(), Failure> {
    let reason = match text.strip_prefix(b"no ".as_slice()) {
        Some(reason) => reason.strip_suffix(b"\n".as_slice()).unwrap_or(reason),
        None => text,
    };
    write_json(&refusal_json(alloc, reason)?, output)?;
    Err(Failure::Told)
}
