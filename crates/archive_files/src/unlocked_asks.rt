// One question, answered while others may change the archive.
ghost use Rattle.std.specs.Prelude.{◌≡◌, ℕ, List};
ghost use Rattle.script_lines.specs.Commands.{question_said};
ghost use Rattle.shared_disk.specs.Looks.{shared_of, under};
ghost use Rattle.archive_files.specs.UnlockedAsks.{AsksUnlocked, LeavesAllThere};

use crate::unlocked_faults::AskFault;
use crate::unlocked_places::{Places, Reads, find_cases, has_all};
use disk_model::Disk;
use inspector_cli::{Output, Question, open_and_ask};
use intake::{Settings, a_case_is_there_between, the_next_number_is_above};
use script_lines::Query;
use shared_disk::{Looked, SharedDisk, Unlocked};
use std::alloc::Global;

/// Answers one question, from a look at its archive on. The lock is not held while images are read and the reply is written. The archive
/// is looked at again at the end: if all cases that may have been read are there under their numbers, the reply is as if nobody had
/// changed the archive since the first look. It returns whether the question is done.
///
/// # Errors
///
/// `Open` if the archive could not be opened, and `Archive` if there is no memory for the places of the
/// cases: nothing was written. `Life` if the output failed. `Look` and `Reopen` if nobody could say whether
/// the cases are still there. `Gone` if one is not. The bytes that were written then are to be dropped.
pub fn ask_unlocked<S: SharedDisk + Drop, O: Output>(
    alloc: Global,
    looked: Looked<S>,
    question: Question,
    output: &mut O,
) -> Result<bool, AskFault>
    ensures { AsksUnlocked S.SharedDisk ⟦<Unlocked<'static, S> as Disk>⟧ (shared_of looked) (question_said question) (O.taken output.old) (O.taken output.new) (O.failures output.old) (O.failures output.new) result }
{
    the_next_number_is_above();
    a_case_is_there_between();
    let places = find_cases(alloc, looked.unlocked(Vec::new(alloc)), reads_of(&question))?;
    let Places { numbers, ranges } = places;
    let disk = looked.unlocked(ranges);
    let (asked, _) = open_and_ask(alloc, disk, Settings { limit: 0 }, question, output);
    match asked {
        Ok(is_done) => {
            stay(alloc, looked.into_shared(), &numbers)?;
            Ok(is_done)
        }
        Err(fault) => Err(AskFault::Life(fault)),
    }
}

/// Looks again, whether these cases are still there.
///
/// # Errors
///
/// `Look` and `Reopen` if nobody could say. `Gone` if one is not.
pub fn stay<S: SharedDisk + Drop>(alloc: Global, shared: S, numbers: &[u32]) -> Result<(), AskFault>
    ensures { LeavesAllThere S.SharedDisk ⟦<Unlocked<'static, S> as Disk>⟧ shared numbers.now result }
{
    let again = match Looked::look(alloc, shared) {
        Ok(again) => again,
        Err(fault) => return Err(AskFault::Look(fault)),
    };
    if has_all(alloc, again.unlocked(Vec::new(alloc)), numbers)? {
        Ok(())
    } else {
        Err(AskFault::Gone)
    }
}

fn reads_of(question: &Question) -> Reads {
    match question {
        Question::Inspect { seq, query } => match query {
            Query::Memory(_)
            | Query::ByBuild(_)
            | Query::SymbolByBuild { .. }
            | Query::Line { .. } => Reads::Memory { seq: *seq },
            Query::Image(_) | Query::Symbol { .. } => Reads::Image { seq: *seq },
        },
        Question::Call(_) => Reads::Nothing,
    }
}
