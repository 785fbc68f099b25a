// The commands of a script, one after the other.
ghost use Rattle.std.specs.Prelude.{◌≡◌, true, false, ℕ, ◌<◌, List, length};
ghost use Rattle.script_streams.specs.Lines.{IsLine, KeepsLine};
ghost use Rattle.script_streams.specs.Reading.{Stops};
ghost use Rattle.script_streams.specs.Printing.{has_failed};
ghost use Rattle.intake.specs.Durable.{Durable};
ghost use Rattle.script_lines.specs.Said.{said, part_of};
ghost use Rattle.stream_names.specs.declared.naming.Naming.{Naming};
ghost use Rattle.script_streams.specs.Replies.{printing};
ghost use Rattle.case_queries.specs.Keeping.{AreKept};
ghost use Rattle.case_queries.specs.Seeing.{IsKept};
ghost use Rattle.inspector_cli.specs.Answering.{CommandEnds, Halts, ScriptEnds, PartAnswers, LastAnswers, reading};

use crate::answers::{answer_plain, answer_question};
use crate::parts::answer_part;
use archive_replies::print_outcome;
use case_queries::Images;
use disk_model::Disk;
use intake::{Archive, calls_lead_from_mark_to_mark};
use script_lines::{Command, parse_line};
use script_streams::{
    Input, KeptLine, LineEnding, Output, ReadStop, Reply, ScriptBuffer, print_no,
};
use std::alloc::Global;
use stream_names::Naming;

/// Why a script was not answered to its end.
#[derive(Clone, Copy)]
pub(crate) enum ScriptStop {
    /// It could not be read on.
    Read(ReadStop),
    /// The output has failed, so no reply can be seen.
    Unheard,
}

impl From<ReadStop> for ScriptStop {
    ghost use Rattle.inspector_cli.specs.declared.script.ScriptStop.TheVariants.{Read};

    ghost from_gives = { λ stop r. r ≡ Read stop };

    fn from(stop: ReadStop) -> Self {
        ScriptStop::Read(stop)
    }
}

// Answers all commands of a script, or those before the one at which it stopped.
pub(crate) fn answer_script<I: Input, O: Output, D: Disk>(
    alloc: Global,
    buffer: &mut ScriptBuffer,
    input: &mut I,
    reply: &mut Reply<'_, O>,
    archive: &mut Archive<D>,
    naming: &Naming,
) -> Result<(), ScriptStop>
    ensures answers { (before : List Durable) → ScriptEnds D.Disk naming.now
        (reading I.Input input.old input.new buffer.old buffer.new)
        (printing O.Output reply.old reply.new)
        (record { archive = archive.old; in_doubt = before }) archive.new result }
    ensures stops { Halts (I.failures input.old) (I.failures input.new) buffer.new result }
{
    calls_lead_from_mark_to_mark::<D>();
    let mut line = KeptLine::new();
    let mut images = Images { alloc, kept: None };
    let mut goes_on = true;
    while goes_on {
        goes_on = answer_command(
            &mut line,
            &mut images,
            buffer,
            input,
            reply,
            archive,
            naming,
        )?;
    }
    Ok(())
}

// Reads the next command and answers it, unless its reply could not be seen. Returns whether the script may continue.
fn answer_command<I: Input, O: Output, D: Disk>(
    line: &mut KeptLine,
    images: &mut Images,
    buffer: &mut ScriptBuffer,
    input: &mut I,
    reply: &mut Reply<'_, O>,
    archive: &mut Archive<D>,
    naming: &Naming,
) -> Result<bool, ScriptStop>
    requires kept { IsKept D.Disk archive.old images.old.kept }
    requires are_kept { AreKept D.Disk archive.old images.old.kept }
    ensures answers { CommandEnds D.Disk naming.now
        (reading I.Input input.old input.new buffer.old buffer.new)
        (printing O.Output reply.old reply.new)
        archive.old archive.new result }
    ensures unheard { has_failed reply.old ≡ true → archive.new ≡ archive.old }
    ensures kept { IsKept D.Disk archive.new images.new.kept }
    ensures are_kept { AreKept D.Disk archive.new images.new.kept }
    ensures stops { Halts (I.failures input.old) (I.failures input.new) buffer.new result }
{
    let ending = buffer.next_line(input, line, reply)?;
    if reply.has_failed() {
        return Err(ScriptStop::Unheard);
    }
    match ending {
        LineEnding::Newline => {
            let goes_on = answer_line(line, images, buffer, input, reply, archive, naming)?;
            Ok(goes_on)
        }
        LineEnding::EndOfInput => {
            answer_last(line, images, reply, archive, naming);
            Ok(false)
        }
        LineEnding::NothingLeft => Ok(false),
    }
}

// Answers a line, with the bytes after its newline. Returns whether they were all there.
fn answer_line<I: Input, O: Output, D: Disk>(
    line: &KeptLine,
    images: &mut Images,
    buffer: &mut ScriptBuffer,
    input: &mut I,
    reply: &mut Reply<'_, O>,
    archive: &mut Archive<D>,
    naming: &Naming,
) -> Result<bool, ReadStop>
    requires heard { has_failed reply.old ≡ false }
    requires line { (text : List ℕ) × KeepsLine text line.now }
    requires kept { IsKept D.Disk archive.old images.old.kept }
    requires are_kept { AreKept D.Disk archive.old images.old.kept }
    ensures answers { (text : List ℕ) → KeepsLine text line.now
        → PartAnswers D.Disk naming.now (reading I.Input input.old input.new buffer.old buffer.new)
        (printing O.Output reply.old reply.new)
        archive.old (said text) archive.new result }
    ensures stops { Stops (I.failures input.old) (I.failures input.new) buffer.new result }
    ensures kept { IsKept D.Disk archive.new images.new.kept }
    ensures are_kept { AreKept D.Disk archive.new images.new.kept }
{
    match parse_line(line) {
        Command::Part { slot, count } => {
            images.kept = None;
            answer_part(slot, count, buffer, input, reply, archive)
        }
        Command::Ask(question) => {
            let _ = answer_question(question.choosing(naming.by_build), images, reply, archive);
            Ok(true)
        }
        Command::Plain(request) => {
            images.kept = None;
            answer_plain(request, reply, archive, naming);
            Ok(true)
        }
    }
}

// Answers a last line that no newline ends: no bytes follow it.
fn answer_last<O: Output, D: Disk>(
    line: &KeptLine,
    images: &mut Images,
    reply: &mut Reply<'_, O>,
    archive: &mut Archive<D>,
    naming: &Naming,
)
    requires heard { has_failed reply.old ≡ false }
    requires line { (text : List ℕ) × KeepsLine text line.now }
    requires kept { IsKept D.Disk archive.old images.old.kept }
    requires are_kept { AreKept D.Disk archive.old images.old.kept }
    ensures answers { (text : List ℕ) → KeepsLine text line.now
        → LastAnswers D.Disk naming.now (printing O.Output reply.old reply.new) archive.old (said text) archive.new }
    ensures kept { IsKept D.Disk archive.new images.new.kept }
    ensures are_kept { AreKept D.Disk archive.new images.new.kept }
{
    match parse_line(line) {
        Command::Part { slot, count } => {
            images.kept = None;
            answer_cut(slot, count, reply, archive)
        }
        Command::Ask(question) => {
            let _ = answer_question(question.choosing(naming.by_build), images, reply, archive);
        }
        Command::Plain(request) => {
            images.kept = None;
            answer_plain(request, reply, archive, naming)
        }
    }
}

// Answers a part that no bytes follow.
fn answer_cut<O: Output, D: Disk>(
    slot: u8,
    count: u32,
    reply: &mut Reply<'_, O>,
    archive: &mut Archive<D>,
)
    ensures { (naming : Naming) → LastAnswers D.Disk naming (printing O.Output reply.old reply.new) archive.old (part_of slot count) archive.new }
{
    let verdict = archive.advance(slot, 0);
    if count == 0 {
        print_outcome(reply, verdict);
        return;
    }
    let _ = archive.abandon(slot);
    print_no(reply, b"Truncated");
}
