// Commands that need no script: an image out of its archive, and one line with its reply.
ghost use Rattle.std.specs.Prelude.{◌≡◌, false, OnOk};
ghost use Rattle.script_lines.specs.Commands.{question_said};
ghost use Rattle.script_lines.specs.Said.{only_looks};
ghost use Rattle.archive_files.specs.Looking.{CopiesTaken, ExtractsTaken};
ghost use Rattle.archive_files.specs.OverDisks.{AnswersHeld};
ghost use Rattle.archive_files.specs.Told.{access_by};
ghost use Rattle.whole_files.specs.Whole.{IsWhole};

use crate::archive_path::ArchivePath;
use crate::archives::{Access, name_refusal, print_trouble, take_disk};
use crate::asking::ask_looked;
use crate::failures::{Failure, FileWord, Refusal};
use crate::held::Held;
use crate::looking::take_look;
use crate::over_disk::{CaseNumber, Unfinished, ask_over, copy_over};
use diagnostics::Onlooker;
use disk_model::{Disk, FileDisk, FileFault, OpenFile};
use inspector_cli::{Question, SessionFault};
use script_streams::{Output, WriteOutput};
use shared_disk::{SharedDisk, SharedFile, Unlocked};
use shown_progress::CountedOutput;
use std::fs::File;
use std::io::ErrorKind;
use std::rt::Files;
use std::time::Clock;
use whole_files::{NewFile, PartFile, begin, give_name, remove};

/// Writes the image of a case to the output, or to a new file, which is durable then.
pub fn extract<R: AllocGlobal + Files<File = File>, O: Output, W: Onlooker>(
    rt: &R,
    place: ArchivePath<'_>,
    case: &str,
    file: Option<&str>,
    output: &mut O,
    onlooker: &mut W,
) -> Result<(), Failure> {
    let Some(case) = CaseNumber::of(case.as_bytes()) else {
        return Err(Failure::Aside(Refusal::BadLine));
    };
    match file {
        None => extract_to(rt, place, case, output, onlooker),
        Some(path) => {
            let Ok(mut file) = PartFile::new(rt.alloc(), rt, path) else {
                return Err(Failure::Aside(Refusal::OutOfMemory));
            };
            extract_to_file(rt, place, case, &mut file, onlooker)
        }
    }
}

// The bytes that are written are known to be the image once the case is found again: the status says so.
fn extract_to<R: AllocGlobal + Files<File = File>, O: Output, W: Onlooker>(
    rt: &R,
    place: ArchivePath<'_>,
    case: CaseNumber,
    output: &mut O,
    onlooker: &mut W,
) -> Result<(), Failure>
    ensures { ExtractsTaken ⟦<SharedFile<OpenFile> as SharedDisk>⟧ ⟦<Unlocked<'static, SharedFile<OpenFile>> as Disk>⟧ case.seq (O.taken output.old) (O.failures output.old) result }
{
    match copy_counted(rt, place, case, output, onlooker) {
        Ok(()) => Ok(()),
        Err(unfinished) => Err(unfinished.failure),
    }
}

// Copies the image of a case to an output.
fn copy_counted<R: AllocGlobal + Files<File = File>, O: Output, W: Onlooker>(
    rt: &R,
    place: ArchivePath<'_>,
    case: CaseNumber,
    output: &mut O,
    onlooker: &mut W,
) -> Result<(), Unfinished>
    ensures { CopiesTaken ⟦<SharedFile<OpenFile> as SharedDisk>⟧ ⟦<Unlocked<'static, SharedFile<OpenFile>> as Disk>⟧ case.seq (O.taken output.old) (O.failures output.old) result }
{
    let looked = take_look(rt, place);
    onlooker.begin("extracts", None);
    let mut counted = CountedOutput::new(output, onlooker);
    let copied = copy_over(rt.alloc(), looked, case, &mut counted);
    onlooker.end();
    copied
}

// FILE has its name only once it is whole and synced, and the case was found again. Until then it is called FILE.part. The bytes that were
// written stay there, whatever failed later. If nothing was written, or the case is not known to have been there all the time,
// it is removed.
fn extract_to_file<'a, R: AllocGlobal + Files<File = File>, W: Onlooker>(
    rt: &R,
    place: ArchivePath<'_>,
    case: CaseNumber,
    file: &mut PartFile<'a, R>,
    onlooker: &mut W,
) -> Result<(), Failure>
    ensures whole { OnOk result (IsWhole false (⟦<PartFile<'a, R> as NewFile>⟧.facts file.new)) }
{
    begin(file).map_err(|fault| refused_file(fault))?;
    let writer = file.writer().map_err(|error| refused_file(error.into()))?;
    let mut output = WriteOutput::new(writer);
    let done = copy_counted(rt, place, case, &mut output, onlooker);
    let why = output.fault();
    match done {
        Ok(()) => {
            file.sync()
                .map_err(|error| Failure::Unwritten(error.kind()))?;
            let named = give_name(file);
            named.map_err(|fault| Failure::Aside(name_refusal(FileWord::NewFile, fault)))
        }
        Err(unfinished) => {
            if file.is_empty() || !unfinished.is_front {
                remove(file);
            }
            Err(told_why(unfinished.failure, why))
        }
    }
}

// FILE is refused.
fn refused_file(fault: FileFault) -> Failure {
    Failure::Aside(Refusal::File(FileWord::NewFile, fault))
}

// The failure, with the reason if it is that of a write.
fn told_why(failure: Failure, why: Option<ErrorKind>) -> Failure {
    match (failure, why) {
        (Failure::Faulted(SessionFault::WriteFailed), Some(kind)) => Failure::Unwritten(kind),
        (failure, _) => failure,
    }
}

/// Answers one question. If it only looks, others may change the archive while its images are read and its reply is written.
pub fn ask<R: AllocGlobal + Files<File = File> + Clock, O: Output, W: Onlooker>(
    rt: &R,
    place: ArchivePath<'_>,
    question: Question,
    output: &mut O,
    onlooker: &mut W,
) -> Result<(), Failure> {
    match access_of(&question) {
        Access::Looking => ask_looked(rt.alloc(), take_look(rt, place), question, output),
        Access::Changing => ask_locked(rt, place, question, output, onlooker),
    }
}

// Answers one question with the archive's lock, and writes its reply once the archive is let go.
fn ask_locked<R: AllocGlobal + Files<File = File> + Clock, O: Output, W: Onlooker>(
    rt: &R,
    place: ArchivePath<'_>,
    question: Question,
    output: &mut O,
    onlooker: &mut W,
) -> Result<(), Failure>
    ensures { AnswersHeld ⟦<FileDisk as Disk>⟧ (question_said question) (O.taken output.old) result }
{
    let disk = match take_disk(rt, place, Access::Changing, onlooker) {
        Ok(disk) => disk,
        Err(refusal) => return Err(Failure::Refused(refusal)),
    };
    let mut reply = Held::new(rt.alloc(), output);
    let (asked, disk) = ask_over(rt.alloc(), disk, question, &mut reply);
    print_trouble(&disk, onlooker);
    drop(disk);
    match reply.finish() {
        Ok(()) => asked,
        Err(_) => Err(Failure::Faulted(SessionFault::WriteFailed)),
    }
}

// A question that changes nothing needs no right to write the archive's file, and no lock while it is answered.
fn access_of(question: &Question) -> Access
    ensures { result ≡ access_by (only_looks (question_said question.now)) }
{
    if question.only_looks() {
        Access::Looking
    } else {
        Access::Changing
    }
}
