// The last step: the other half's gate is opened, and from then on its records count.
ghost use Rattle.std.specs.Prelude.{◌≡◌, ◌≢◌, ◌⊎◌, ◌+◌, ◌≤◌, ℕ, List, IsTrue, OnOk, Err};
ghost use Rattle.disk_model.specs.Disk.{HasCause};
ghost use Rattle.disk_model.specs.Moments.{LeavesOnly, IsSettled};
ghost use Rattle.journal_layout.specs.Folding.{Folded};
ghost use Rattle.journal_layout.specs.Standing.{Standing};
ghost use Rattle.journal_layout.specs.Stands.{Stands};
ghost use Rattle.journal_layout.specs.Rewriting.{other_start, rewritten};
ghost use Rattle.journal_snapshot.specs.Filling.{Fills};
ghost use Rattle.journal_snapshot.specs.Holding.{Holds, IsReady};

use disk_model::{Disk, DiskFault, write_stable};
use journal_records::GATE_OPEN;

/// Opens the gate of the half that starts at `start`, by one write that is made stable. If that half is ready, a crash
/// meanwhile leaves bytes that encode the old archive or that of the half, and after `Ok` the latter.
pub(crate) fn take_half<D: Disk>(disk: &mut D, start: u64) -> Result<(), DiskFault>
    requires { start + 1 ≤ D.size disk.old }
    ensures any_moment { (s : Standing) (f : Folded) → start ≡ other_start s → IsTrue (D.is_honest disk.old)
        → IsReady D.Disk disk.old s f
        → LeavesOnly D.Disk disk.old disk.new (λ c. Stands c s ⊎ Stands c (rewritten s f)) }
    ensures taken { (s : Standing) (f : Folded) → start ≡ other_start s → IsTrue (D.is_honest disk.old)
        → IsReady D.Disk disk.old s f → OnOk result (Holds D.Disk disk.new (rewritten s f)) }
    ensures fills { Fills D.Disk disk.old disk.new start 1 }
    ensures cause { HasCause (D.failures disk.old) (D.failures disk.new) result }
    ensures kind { result ≢ Err DiskFault.Read }
{
    write_stable(disk, start, &[GATE_OPEN])
}
