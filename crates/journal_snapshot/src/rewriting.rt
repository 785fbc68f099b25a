// A journal that is written anew into its other half.
ghost use Rattle.std.specs.Prelude.{◌≡◌, ◌⊎◌, ◌+◌, ◌≤◌, length, vec_capacity, IsTrue, OnOk};
ghost use Rattle.disk_model.specs.Disk.{HasCause};
ghost use Rattle.disk_model.specs.Moments.{LeavesOnly};
ghost use Rattle.disk_model.specs.Places.{part};
ghost use Rattle.journal_layout.specs.Layout.{half_length};
ghost use Rattle.journal_layout.specs.Folding.{Folded};
ghost use Rattle.journal_layout.specs.Standing.{Standing};
ghost use Rattle.journal_layout.specs.Stands.{Stands};
ghost use Rattle.journal_layout.specs.Rewriting.{rewritten};
ghost use Rattle.journal_snapshot.specs.Changing.{IsOrdered};
ghost use Rattle.journal_snapshot.specs.Doubt.{DoubtsGate};
ghost use Rattle.journal_snapshot.specs.Filling.{Fills};
ghost use Rattle.journal_snapshot.specs.Holding.{Holds};
ghost use Rattle.journal_snapshot.specs.Writing.{written_added, AreAtMost};
ghost use Rattle.journal_snapshot.specs.Halves.{half_bytes, IsWrittenAs};

use crate::closing::close_half;
use crate::half::fill_half;
use crate::taking::take_half;
use crate::{Change, Target};
use disk_model::{Disk, DiskFault};
use journal_layout::Entry;

/// Writes the cases after a change into the half that is not taken, and takes it: closes that half's gate, writes its
/// header and records after it and makes them stable, and opens the gate. A crash at any moment leaves the old archive or
/// the new one. Memory: the buffer, which has room for each record.
pub fn rewrite<D: Disk>(
    disk: &mut D,
    target: Target,
    entries: &[Entry],
    change: &Change,
    buffer: &mut Vec<u8>,
) -> Result<(), DiskFault>
    requires order { IsOrdered change.now }
    requires small { AreAtMost 16777216 change.now entries.now }
    requires capacity { AreAtMost (vec_capacity buffer.old) change.now entries.now }
    requires small_added { length (written_added change.now) ≤ 16777216 }
    requires capacity_added { length (written_added change.now) ≤ vec_capacity buffer.old }
    requires in_half { target.start + 1 + length (half_bytes target change.now entries.now) ≤ D.size disk.old }
    ensures any_moment { (s : Standing) (f : Folded) → IsWrittenAs s f target change.now entries.now → IsTrue (D.is_honest disk.old)
        → Holds D.Disk disk.old s → LeavesOnly D.Disk disk.old disk.new (λ c. Stands c s ⊎ Stands c (rewritten s f)) }
    ensures taken { (s : Standing) (f : Folded) → IsWrittenAs s f target change.now entries.now → IsTrue (D.is_honest disk.old)
        → Holds D.Disk disk.old s → OnOk result (Holds D.Disk disk.new (rewritten s f)) }
    // Whenever it ends, only the gate of that half is in doubt, or, while it is closed, the bytes behind it.
    ensures doubt { (s : Standing) (f : Folded) → IsWrittenAs s f target change.now entries.now → IsTrue (D.is_honest disk.old)
        → Holds D.Disk disk.old s → DoubtsGate D.Disk disk.new s.shape target.start (target.start + half_length s.shape) }
    ensures fills { Fills D.Disk disk.old disk.new target.start (1 + length (half_bytes target change.now entries.now)) }
    // After the gate it writes exactly the header, the records and the next gate, with zeros where the layout has zeros.
    ensures written { IsTrue (D.is_honest disk.old) → OnOk result (part (D.seen disk.new) (target.start + 1) (length (half_bytes target change.now entries.now)) ≡ half_bytes target change.now entries.now) }
    ensures cause { HasCause (D.failures disk.old) (D.failures disk.new) result }
{
    close_half(disk, target.start)?;
    fill_half(disk, target, entries, change, buffer)?;
    take_half(disk, target.start)
}
