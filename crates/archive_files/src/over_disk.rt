// `run`, `ask` and `extract` over the archive on a disk.
ghost use Rattle.std.specs.Prelude.{◌≡◌, ◌^◌, ◌-◌, option_map, Err};
ghost use Rattle.script_lines.specs.Commands.{question_said};
ghost use Rattle.inspector_cli.specs.Session.{streams_of};
ghost use Rattle.archive_files.specs.Looking.{CopiesLooked, copy_ended};
ghost use Rattle.archive_files.specs.OverDisks.{RunsOnDisk, AnswersLine, LooksOnDisk};

use crate::failures::{Failure, Refusal};
use crate::looking::{unlocked_told, was_there};
use crate::outcomes::{ask_told, run_told};
use crate::unlocked_copies::copy_unlocked;
use crate::unlocked_faults::UnlockedFault;
use disk_model::Disk;
use inspector_cli::{Naming, Question, open_and_ask, open_and_run};
use intake::{Archive, Settings};
use script_streams::{Input, Output};
use script_words::parse_case_number;
use shared_disk::{Looked, SharedDisk, Unlocked};
use std::alloc::Global;

/// Opens the archive on a disk, runs a script over it, and hands the disk back.
pub fn run_over<D: Disk, I: Input, O: Output>(
    alloc: Global,
    disk: D,
    limit: u64,
    naming: &Naming,
    script: &mut I,
    output: &mut O,
) -> (Result<(), Failure>, D)
    ensures { RunsOnDisk D.Disk limit naming.now (streams_of I.Input O.Output script.old script.new output.old output.new) disk result.0 result.1 }
{
    let (ended, disk) = open_and_run(alloc, disk, Settings { limit }, naming, script, output);
    (run_told(ended), disk)
}

/// Opens the archive on a disk, answers one question over it, and hands the disk back. The reply says why a question is refused.
pub fn ask_over<D: Disk, O: Output>(
    alloc: Global,
    disk: D,
    question: Question,
    output: &mut O,
) -> (Result<(), Failure>, D)
    ensures { AnswersLine D.Disk (question_said question) (O.taken output.old) (O.taken output.new) (O.failures output.old) (O.failures output.new) disk result.0 result.1 }
{
    let (asked, disk) = open_and_ask(alloc, disk, Settings { limit: 0 }, question, output);
    (ask_told(asked), disk)
}

/// The number of a case, as a word has it. Whoever holds it can't change it.
#[derive(Clone, Copy)]
pub struct CaseNumber {
    seq: u32,
}

impl CaseNumber {
    ghost use Rattle.script_words.specs.Number.{number_within};

    /// The number that a word says, if it says one.
    pub fn of(word: &[u8]) -> Option<Self>
        ensures { option_map (λ number. number.seq) result ≡ number_within 1 (2 ^ 32 - 1) word.now }
    {
        let seq = parse_case_number(word)?;
        Some(CaseNumber { seq })
    }
}

/// A copy that did not come to its end.
#[derive(Drop)]
pub struct Unfinished {
    pub failure: Failure,
    /// The case is known to have been there all the time that it was read, or nothing was written.
    pub is_front: bool,
}

/// Copies the image of a case to an output, from a look at its archive on, while others may change the archive; or reports why there
/// was no look.
pub fn copy_over<S: SharedDisk + Drop, O: Output>(
    alloc: Global,
    looked: Result<Looked<S>, Refusal>,
    case: CaseNumber,
    output: &mut O,
) -> Result<(), Unfinished>
    ensures { CopiesLooked S.SharedDisk ⟦<Unlocked<'static, S> as Disk>⟧ case.seq (O.taken output.old) (O.taken output.new) (O.failures output.old) (O.failures output.new) looked result }
{
    match looked {
        Ok(looked) => match copy_unlocked(alloc, looked, case.seq, output) {
            Ok(()) => Ok(()),
            Err(fault) => Err(stopped_by(fault)),
        },
        Err(refusal) => Err(Unfinished {
            failure: Failure::Aside(refusal),
            is_front: true,
        }),
    }
}

// The copy that a fault ended.
fn stopped_by(fault: UnlockedFault) -> Unfinished
    ensures { Err result ≡ copy_ended (Err fault) }
{
    Unfinished {
        is_front: was_there(&fault),
        failure: unlocked_told(fault),
    }
}

/// Opens the archive on a disk to find its fault, and hands the disk back.
pub fn look_over<D: Disk>(alloc: Global, disk: D, limit: u64) -> (Result<(), Refusal>, D)
    ensures { LooksOnDisk D.Disk limit disk result.0 result.1 }
{
    match Archive::open(alloc, disk, Settings { limit }) {
        Ok(archive) => {
            let disk = archive.close();
            (Ok(()), disk)
        }
        Err((fault, disk)) => (Err(Refusal::Open(fault)), disk),
    }
}
