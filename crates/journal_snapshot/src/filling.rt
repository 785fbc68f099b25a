// Writes into a half whose gate is closed.
ghost use Rattle.std.specs.Prelude.{◌≡◌, ◌+◌, ◌≤◌, length, IsTrue, OnOk, IsOkUnless};
ghost use Rattle.disk_model.specs.Places.{part};
ghost use Rattle.disk_model.specs.Disk.{HasCause};
ghost use Rattle.journal_snapshot.specs.Filling.{Fills};

use disk_model::{Disk, DiskFault};

/// Writes all of `bytes` from place `at` on by one disk call, which makes nothing stable. Answers `Write` if the disk
/// failed.
pub(crate) fn fill<D: Disk>(disk: &mut D, at: u64, bytes: &[u8]) -> Result<(), DiskFault>
    requires { at + length bytes.now ≤ D.size disk.old }
    ensures fills { Fills D.Disk disk.old disk.new at (length bytes.now) }
    ensures there { IsTrue (D.is_honest disk.old)
        → OnOk result (part (D.seen disk.new) at (length bytes.now) ≡ bytes.now) }
    ensures cause { HasCause (D.failures disk.old) (D.failures disk.new) result }
    ensures kind { IsOkUnless result DiskFault.Write }
{
    disk.write_at(at, bytes)
}
