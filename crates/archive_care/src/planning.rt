// The plan of a copy, which is known before anything is written.
ghost use Rattle.std.specs.Prelude.{◌≡◌};
ghost use Rattle.journal_layout.specs.Live.{AreLive};
ghost use Rattle.archive_care.specs.Planning.{IsPlan};

use crate::CopyFault;
use crate::placing::placed;
use case_journal::Journal;
use journal_layout::{Entry, Shape};
use journal_snapshot::{Change, Measure, measured};
use std::alloc::Global;

/// The cases of a copy with their new places, and the bytes that their records take.
#[derive(Drop)]
pub(crate) struct Plan {
    pub(crate) entries: Vec<Entry>,
    pub(crate) measure: Measure,
}

/// Gives the cases of a journal their places in a new archive of this shape. Answers, in this order: `BadShape` if the shape is
/// outside its limits; `SpaceFull`; `OutOfMemory`; `JournalFull`.
pub(crate) fn plan_copy(alloc: Global, journal: &Journal, shape: Shape) -> Result<Plan, CopyFault>
    requires live { AreLive journal.now.standing.shape.data_blocks journal.now.standing.cases journal.now.standing.next }
    ensures { IsPlan shape journal.now.standing result }
{
    let Ok(_) = shape.length() else {
        return Err(CopyFault::BadShape);
    };
    let entries = placed(alloc, journal.entries(), shape.data_blocks)?;
    let Some(measure) = measured(&entries, &Change::Nothing, shape.half_length()) else {
        return Err(CopyFault::JournalFull);
    };
    Ok(Plan { entries, measure })
}
