// One line, asked alone from the opening of its archive on.
ghost use Rattle.std.specs.Prelude.{◌≡◌, [], List, ℕ, false};
ghost use Rattle.intake.specs.Durable.{Durable};
ghost use Rattle.script_lines.specs.Commands.{question_said};
ghost use Rattle.script_lines.specs.Said.{said};
ghost use Rattle.script_streams.specs.Lines.{IsLine};
ghost use Rattle.stream_names.specs.declared.naming.Naming.{Naming};
ghost use Rattle.inspector_cli.specs.Asking.{AsksAlone, as_life, as_session, line_streams};
ghost use Rattle.inspector_cli.specs.Headline.{Headline};
ghost use Rattle.inspector_cli.specs.Life.{LifeEnds, RunsOver};
ghost use Rattle.inspector_cli.specs.Session.{SessionEnds};

use crate::answers::answer_question;
use crate::laws::a_session_is_crash_safe;
use crate::run::close_streams;
use crate::session::{LifeFault, SessionFault};
use case_queries::Images;
use disk_model::Disk;
use intake::{Archive, Settings, calls_lead_from_mark_to_mark, found_after_a_stop};
use script_lines::Question;
use script_streams::{Output, Reply};
use std::alloc::Global;

/// Opens the archive on a disk, answers one question, and hands the disk back. It says whether the question is done: if not, the
/// reply is `no REASON`. The rest is as `open_and_run` over a script of any line that says this question, crash safety with it.
///
/// # Errors
///
/// `Open` if the archive could not be opened: nothing is written then, and the output is not touched. `Session` with
/// `WriteFailed` if the output failed: it has a front of the reply.
pub fn open_and_ask<O: Output, D: Disk>(
    alloc: Global,
    disk: D,
    settings: Settings,
    question: Question,
    output: &mut O,
) -> (Result<bool, LifeFault>, D)
    ensures outcome { LifeEnds D.Disk settings.limit (line_streams [] result.0 (O.taken output.old) (O.taken output.new) (O.failures output.old) (O.failures output.new))
        disk result.0 result.1 (AsksAlone D.Disk (question_said question) (O.taken output.old) (O.taken output.new)) }
    ensures crash_safe { (naming : Naming) (line : List ℕ) → naming.by_build ≡ false → IsLine line → said line ≡ question_said question
        → let streams = line_streams line result.0 (O.taken output.old) (O.taken output.new) (O.failures output.old) (O.failures output.new) in LifeEnds D.Disk settings.limit streams disk (as_session result.0) result.1 (RunsOver D.Disk naming streams) }
    ensures headline { (naming : Naming) (line : List ℕ) → naming.by_build ≡ false → IsLine line → said line ≡ question_said question
        → Headline (Unit {0}) D.Disk naming (line_streams line result.0 (O.taken output.old) (O.taken output.new) (O.failures output.old) (O.failures output.new)) disk (as_session result.0) result.1 }
{
    a_session_is_crash_safe::<D>();
    open_then_ask(alloc, disk, settings, question, output)
}

// Opens the archive on a disk, answers one question, and hands the disk back.
fn open_then_ask<O: Output, D: Disk>(
    alloc: Global,
    disk: D,
    settings: Settings,
    question: Question,
    output: &mut O,
) -> (Result<bool, LifeFault>, D)
    ensures outcome { LifeEnds D.Disk settings.limit (line_streams [] result.0 (O.taken output.old) (O.taken output.new) (O.failures output.old) (O.failures output.new))
        disk result.0 result.1 (AsksAlone D.Disk (question_said question) (O.taken output.old) (O.taken output.new)) }
    ensures crash_safe { (naming : Naming) (line : List ℕ) → naming.by_build ≡ false → IsLine line → said line ≡ question_said question
        → let streams = line_streams line result.0 (O.taken output.old) (O.taken output.new) (O.failures output.old) (O.failures output.new) in LifeEnds D.Disk settings.limit streams disk (as_session result.0) result.1 (RunsOver D.Disk naming streams) }
{
    match Archive::open(alloc, disk, settings) {
        Ok(archive) => {
            let mut archive = archive;
            let asked = ask_alone(alloc, question, output, &mut archive);
            let disk = archive.close();
            match asked {
                Ok(is_done) => (Ok(is_done), disk),
                Err(fault) => (Err(LifeFault::Session(fault)), disk),
            }
        }
        Err((fault, disk)) => (Err(LifeFault::Open(fault)), disk),
    }
}

// A session of one question. Returns whether it is done; if not, it is refused.
fn ask_alone<O: Output, D: Disk>(
    alloc: Global,
    question: Question,
    output: &mut O,
    archive: &mut Archive<D>,
) -> Result<bool, SessionFault>
    ensures outcome { AsksAlone D.Disk (question_said question) (O.taken output.old) (O.taken output.new) result archive.old archive.new }
    ensures session { (naming : Naming) (line : List ℕ) (before : List Durable) → naming.by_build ≡ false → IsLine line → said line ≡ question_said question
        → SessionEnds D.Disk naming (line_streams line (as_life result) (O.taken output.old) (O.taken output.new) (O.failures output.old) (O.failures output.new))
        (record { archive = archive.old; in_doubt = before }) archive.new (as_session result) }
{
    calls_lead_from_mark_to_mark::<D>();
    found_after_a_stop::<D>();
    let mut images = Images { alloc, kept: None };
    let mut reply = Reply::new(output);
    let is_done = answer_question(question, &mut images, &mut reply, archive);
    close_streams(archive);
    let Ok(()) = reply.finish() else {
        return Err(SessionFault::WriteFailed);
    };
    Ok(is_done)
}
