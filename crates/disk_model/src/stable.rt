// A write that is made stable: every change of an archive consists of such writes.
ghost use Rattle.std.specs.Prelude.{◌≡◌, ◌≢◌, ◌+◌, ◌≤◌, length, IsTrue, OnOk, Err};
ghost use Rattle.disk_model.specs.Places.{overwritten, SameOutside};
ghost use Rattle.disk_model.specs.Disk.{ChangedIn, HasCause};
ghost use Rattle.disk_model.specs.Moments.{LeavesOnly, IsSettled};

use crate::{Disk, DiskFault};

/// Writes all of `from` from place `at` on and makes it stable. Answers `Write` or `Sync` if the disk failed.
///
/// On an honest disk a crash at any moment of the call leaves bytes that a crash before it could have left, but with any
/// bytes in the range. After `Ok` a crash leaves the bytes that reads give, and these are as before except in the range.
pub fn write_stable<D: Disk>(disk: &mut D, at: u64, from: &[u8]) -> Result<(), DiskFault>
    requires { at + length from.now ≤ D.size disk.old }
    ensures any_moment { IsTrue (D.is_honest disk.old)
        → LeavesOnly D.Disk disk.old disk.new (ChangedIn at (length from.now) (D.may_leave disk.old)) }
    ensures stable { IsTrue (D.is_honest disk.old)
        → OnOk result (IsSettled D.Disk disk.new × (D.seen disk.new ≡ overwritten (D.seen disk.old) at from.now)) }
    ensures others { IsTrue (D.is_honest disk.old)
        → SameOutside at (length from.now) (D.seen disk.old) (D.seen disk.new) }
    ensures cause { HasCause (D.failures disk.old) (D.failures disk.new) result }
    ensures kind { result ≢ Err DiskFault.Read }
    ensures honesty { D.is_honest disk.new ≡ D.is_honest disk.old }
    ensures size { D.size disk.new ≡ D.size disk.old }
{
    disk.write_at(at, from)?;
    disk.sync()
}
