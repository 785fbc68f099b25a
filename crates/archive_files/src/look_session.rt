// A session of lines that only look, over the archive in a file.
ghost use Rattle.std.specs.Prelude.{◌≡◌, List, ℕ, Err};
ghost use Rattle.script_lines.specs.Commands.{asked_by, question_said};
ghost use Rattle.script_lines.specs.Said.{said};
ghost use Rattle.script_streams.specs.Lines.{KeepsLine};
ghost use Rattle.archive_files.specs.Look.{AnswersLook, GivesLook, IsTakenAs, Refuses, RepliesTo, read_fault};

use crate::archive_path::ArchivePath;
use crate::asking::ask_looked;
use crate::failures::{Failure, Refusal, write_refusal};
use crate::looking::take_look;
use crate::over_disk::look_over;
use disk_model::Disk;
use inspector_cli::{Question, SessionFault};
use script_lines::{Command, Request, parse_line};
use script_streams::{Input, KeptLine, LineEnding, Output, ReadStop, Reply, ScriptBuffer};
use shared_disk::{Looked, SharedDisk, Unlocked};
use std::alloc::Global;
use std::fs::File;
use std::rt::Files;

/// Answers each line of a script that only looks as `ask` does, from a look of its own on, with executables chosen by build or by
/// path. Any other line is refused as `BadLine`, and no bytes follow a line. A refusal is the line's reply, and the session goes
/// on. Each reply is written before the next line is read. A fault of the archive at the start is reported instead of any reply.
pub fn look<R: AllocGlobal + Files<File = File>, I: Input, O: Output>(
    rt: &R,
    place: ArchivePath<'_>,
    by_build: bool,
    script: &mut I,
    output: &mut O,
) -> Result<(), Failure> {
    let looked = take_look(rt, place)?;
    look_over(rt.alloc(), looked.unlocked(Vec::new(rt.alloc())), 0).0?;
    drop(looked);
    let mut lines = LookLines::new();
    for _ in 0..u64::MAX {
        match lines.next(script, output)? {
            LookLine::End => return Ok(()),
            LookLine::Silence => {}
            LookLine::Refused(refusal) => refuse(refusal, output)?,
            LookLine::Ask(question) => {
                let question = question.choosing(by_build);
                answer_look(rt.alloc(), take_look(rt, place), question, output)?;
            }
        }
    }
    Ok(())
}

// The next step of such a session.
#[derive(Drop)]
pub(crate) enum LookLine {
    // Nothing: its lines have ended.
    End,
    // A line that has no reply.
    Silence,
    // A line that is refused, whatever the archive has.
    Refused(Refusal),
    // A question that only looks.
    Ask(Question),
}

// The lines of such a session.
#[derive(Drop)]
pub(crate) struct LookLines {
    buffer: ScriptBuffer,
    line: KeptLine,
    has_ended: bool,
}

impl LookLines {
    fn new() -> LookLines {
        LookLines {
            buffer: ScriptBuffer::new(),
            line: KeptLine::new(),
            has_ended: false,
        }
    }

    // The next line.
    fn next<I: Input, O: Output>(
        &mut self,
        script: &mut I,
        output: &mut O,
    ) -> Result<LookLine, Failure>
        ensures { GivesLook (I.remaining script.old) (I.remaining script.new) self.old self.new result }
    {
        if self.has_ended {
            return Ok(LookLine::End);
        }
        let mut reply = Reply::new(output);
        match self.buffer.next_line(script, &mut self.line, &mut reply) {
            Ok(LineEnding::Newline) => Ok(line_taken(&self.line)),
            Ok(LineEnding::EndOfInput) => {
                self.has_ended = true;
                Ok(line_taken(&self.line))
            }
            Ok(LineEnding::NothingLeft) => Ok(LookLine::End),
            Err(stop) => Err(Failure::Faulted(read_fault(stop))),
        }
    }
}

// The request of a line.
fn line_taken(line: &KeptLine) -> LookLine
    requires { (text : List ℕ) × KeepsLine text line.now }
    ensures { (text : List ℕ) → KeepsLine text line.now → IsTakenAs (said text) result }
{
    match parse_line(line) {
        Command::Part { .. } => LookLine::Refused(Refusal::BadLine),
        Command::Ask(question) => question_taken(question),
        Command::Plain(request) => request_taken(request),
    }
}

fn question_taken(question: Question) -> LookLine
    ensures { IsTakenAs (question_said question) result }
{
    if question.only_looks() {
        LookLine::Ask(question)
    } else {
        LookLine::Refused(Refusal::BadLine)
    }
}

fn request_taken(request: Request<'_>) -> LookLine
    ensures { IsTakenAs (asked_by request.entry) result }
{
    match request {
        Request::Silence => LookLine::Silence,
        Request::LineTooLong => LookLine::Refused(Refusal::LineTooLong),
        _ => LookLine::Refused(Refusal::BadLine),
    }
}

// Why the lines could not be read on.
fn read_fault(stop: ReadStop) -> SessionFault
    ensures { result ≡ read_fault stop }
{
    match stop {
        ReadStop::ReadFailed => SessionFault::ReadFailed,
        ReadStop::TooManyReads => SessionFault::TooManyReads,
    }
}

// Answers a line that only looks, from a look at its archive on. A refusal is its reply.
fn answer_look<S: SharedDisk + Drop, O: Output>(
    alloc: Global,
    looked: Result<Looked<S>, Refusal>,
    question: Question,
    output: &mut O,
) -> Result<(), Failure>
    ensures { AnswersLook S.SharedDisk ⟦<Unlocked<'static, S> as Disk>⟧ (question_said question) (O.taken output.old) (O.taken output.new) (O.failures output.old) (O.failures output.new) looked result }
{
    match ask_looked(alloc, looked, question, output) {
        Ok(()) => Ok(()),
        Err(failure) => go_on(failure, output),
    }
}

// Goes on after a line that failed, if its reply can be seen.
fn go_on<O: Output>(failure: Failure, output: &mut O) -> Result<(), Failure>
    ensures { RepliesTo (O.taken output.old) (O.taken output.new) (O.failures output.old) (O.failures output.new) (Err failure) result }
{
    match failure {
        Failure::Told => Ok(()),
        Failure::Refused(refusal) => refuse(refusal, output),
        Failure::Aside(refusal) => Err(Failure::Aside(refusal)),
        Failure::Faulted(fault) => Err(Failure::Faulted(fault)),
        Failure::Unwritten(kind) => Err(Failure::Unwritten(kind)),
        Failure::Stalled(seconds) => Err(Failure::Stalled(seconds)),
    }
}

// Prints that a line is refused.
fn refuse<O: Output>(refusal: Refusal, output: &mut O) -> Result<(), Failure>
    ensures { Refuses (O.taken output.old) (O.taken output.new) (O.failures output.old) (O.failures output.new) refusal result }
{
    match write_refusal(refusal, output) {
        Ok(()) => Ok(()),
        Err(_) => Err(Failure::Faulted(SessionFault::WriteFailed)),
    }
}
