// The first step: the other half's gate is closed.
ghost use Rattle.std.specs.Prelude.{◌≡◌, ◌+◌, ◌≤◌, IsTrue, OnOk};
ghost use Rattle.disk_model.specs.Disk.{HasCause};
ghost use Rattle.disk_model.specs.Moments.{LeavesOnly};
ghost use Rattle.journal_layout.specs.Standing.{Standing};
ghost use Rattle.journal_layout.specs.Stands.{Stands};
ghost use Rattle.journal_layout.specs.Rewriting.{other_start};
ghost use Rattle.journal_snapshot.specs.Filling.{Fills};
ghost use Rattle.journal_snapshot.specs.Holding.{Holds, StandsInOtherHalf};

use disk_model::{Disk, DiskFault, write_stable};
use journal_records::GATE_OPEN;

/// Closes the gate of the half that starts at `start`, which is not the taken one: if it reads open, by one write that is
/// made stable, and otherwise by nothing. A crash meanwhile leaves bytes that encode the same archive as before.
pub(crate) fn close_half<D: Disk>(disk: &mut D, start: u64) -> Result<(), DiskFault>
    requires { start + 1 ≤ D.size disk.old }
    ensures any_moment { (s : Standing) → start ≡ other_start s → IsTrue (D.is_honest disk.old)
        → Holds D.Disk disk.old s → LeavesOnly D.Disk disk.old disk.new (λ c. Stands c s) }
    ensures closed { (s : Standing) → start ≡ other_start s → IsTrue (D.is_honest disk.old)
        → Holds D.Disk disk.old s → OnOk result (StandsInOtherHalf D.Disk disk.new s) }
    ensures holds { (s : Standing) → start ≡ other_start s → IsTrue (D.is_honest disk.old)
        → Holds D.Disk disk.old s → OnOk result (Holds D.Disk disk.new s) }
    ensures fills { Fills D.Disk disk.old disk.new start 1 }
    ensures cause { HasCause (D.failures disk.old) (D.failures disk.new) result }
{
    let mut gate = [0];
    disk.read_at(start, &mut gate)?;
    if gate[0] == GATE_OPEN {
        write_stable(disk, start, &[0])?;
    }
    Ok(())
}
