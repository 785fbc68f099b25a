// The records of a copy.
ghost use Rattle.std.specs.Prelude.{◌≡◌, ◌+◌, ◌≤◌, IsTrue, IsOkUnless, OnOk, Some, Err, vec_capacity};
ghost use Rattle.disk_model.specs.Disk.{HasRisen};
ghost use Rattle.journal_layout.specs.Folding.{Folded};
ghost use Rattle.journal_layout.specs.Rewriting.{rewritten};
ghost use Rattle.journal_layout.specs.Standing.{Standing};
ghost use Rattle.journal_snapshot.specs.Filling.{Fills};
ghost use Rattle.journal_snapshot.specs.Halves.{IsWrittenAs};
ghost use Rattle.journal_snapshot.specs.Holding.{Holds};
ghost use Rattle.journal_snapshot.specs.Measuring.{IsMeasure};
ghost use Rattle.journal_snapshot.specs.declared.change.Change.TheVariants.{Nothing};

use crate::CopyFault;
use disk_model::Disk;
use journal_layout::Entry;
use journal_snapshot::{Change, Measure, Target, rewrite};

/// Writes the records of cases into the half that is not taken, and takes it. Answers `Target`.
pub(crate) fn write_cases<N: Disk>(
    onto: &mut N,
    target: Target,
    entries: &[Entry],
    measure: Measure,
    half: u64,
    buffer: &mut Vec<u8>,
) -> Result<(), CopyFault>
    requires measured { IsMeasure half Nothing entries.now (Some measure) }
    requires small { half ≤ 16777216 }
    requires in_half { target.start + half ≤ N.size onto.old }
    requires capacity { measure.largest ≤ vec_capacity buffer.old }
    ensures taken { (s : Standing) (f : Folded) → IsWrittenAs s f target Nothing entries.now
        → IsTrue (N.is_honest onto.old) → Holds N.Disk onto.old s → OnOk result (Holds N.Disk onto.new (rewritten s f)) }
    ensures fills { Fills N.Disk onto.old onto.new target.start half }
    ensures only { IsOkUnless result CopyFault.Target }
    ensures cause { result ≡ Err CopyFault.Target → HasRisen (N.failures onto.old) (N.failures onto.new) }
    ensures later { N.failures onto.old ≤ N.failures onto.new }
{
    match rewrite(onto, target, entries, &Change::Nothing, buffer) {
        Ok(()) => Ok(()),
        Err(_) => Err(CopyFault::Target),
    }
}
