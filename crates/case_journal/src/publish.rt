// A record is published by two writes: its bytes after its closed gate, and then the gate.
ghost use Rattle.std.specs.Prelude.{◌≡◌, ◌⊎◌, ℕ, List, ◌+◌, ◌<◌, ◌≤◌, ◌∷◌, [], length, IsTrue, OnOk};
ghost use Rattle.disk_model.specs.Places.{overwritten, SameOutside};
ghost use Rattle.disk_model.specs.Disk.{HasCause, ChangedIn};
ghost use Rattle.disk_model.specs.Moments.{LeavesOnly, IsSettled};
ghost use Rattle.journal_layout.specs.Record.{Record};
ghost use Rattle.journal_layout.specs.Standing.{Standing, lengthened};
ghost use Rattle.journal_layout.specs.Stands.{Stands};
ghost use Rattle.journal_snapshot.specs.Holding.{Holds};
ghost use Rattle.case_journal.specs.Doubting.{DoubtsGates};
ghost use Rattle.case_journal.specs.Publishing.{Publishes};

use disk_model::{Disk, DiskFault, write_stable};
use journal_records::GATE_OPEN;

/// Publishes a record whose closed gate is at `gate`: writes the bytes after the gate and makes them stable, and then
/// opens the gate by a write of its own. On an honest disk a crash at any moment leaves bytes that encode the cases before
/// or after, whatever the disk encoded; once it has answered `Ok`, bytes that encode those after.
pub(crate) fn publish<D: Disk>(disk: &mut D, gate: u64, behind: &[u8]) -> Result<(), DiskFault>
    requires { gate + 1 + length behind.now ≤ D.size disk.old }
    ensures any_moment { (s : Standing) (r : Record) → Publishes s r gate behind.now
        → IsTrue (D.is_honest disk.old) → ((c : List ℕ) → D.may_leave disk.old c → Stands c s)
        → LeavesOnly D.Disk disk.old disk.new (λ c. Stands c s ⊎ Stands c (lengthened s r)) }
    ensures made { (s : Standing) (r : Record) → Publishes s r gate behind.now
        → IsTrue (D.is_honest disk.old) → ((c : List ℕ) → D.may_leave disk.old c → Stands c s)
        → OnOk result ((c : List ℕ) → D.may_leave disk.new c → Stands c (lengthened s r)) }
    // Whenever it ends, only the gate is in doubt, or the bytes behind it while it is closed.
    ensures doubts { (s : Standing) (r : Record) → Publishes s r gate behind.now
        → IsTrue (D.is_honest disk.old) → Holds D.Disk disk.old s → DoubtsGates D.Disk disk.new s.shape }
    ensures outside { IsTrue (D.is_honest disk.old)
        → LeavesOnly D.Disk disk.old disk.new (ChangedIn gate (1 + length behind.now) (D.may_leave disk.old)) }
    ensures stable { IsTrue (D.is_honest disk.old)
        → OnOk result (IsSettled D.Disk disk.new × (D.seen disk.new
        ≡ overwritten (overwritten (D.seen disk.old) (gate + 1) behind.now) gate (165 ∷ []))) }
    ensures others { IsTrue (D.is_honest disk.old)
        → SameOutside gate (1 + length behind.now) (D.seen disk.old) (D.seen disk.new) }
    ensures cause { HasCause (D.failures disk.old) (D.failures disk.new) result }
    ensures honesty { D.is_honest disk.new ≡ D.is_honest disk.old }
    ensures size { D.size disk.new ≡ D.size disk.old }
{
    write_stable(disk, gate + 1, behind)?;
    write_stable(disk, gate, &[GATE_OPEN])
}
