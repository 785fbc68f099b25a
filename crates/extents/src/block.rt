// A block's bytes on a disk.
ghost use Rattle.std.specs.Prelude.{◌≡◌, ◌+◌, ◌≤◌, ℕ, List, IsTrue, OnOk, IsOkUnless};
ghost use Rattle.disk_model.specs.Places.{part, overwritten, SameOutside};
ghost use Rattle.disk_model.specs.Disk.{Follows, Elapses, HasCause};

use disk_model::{Disk, DiskFault};

/// Reads the 4,096 bytes from place `at` of the disk on, which lie in it, into `block`. `Read`: the disk failed.
pub fn read_block<D: Disk>(disk: &mut D, at: u64, block: &mut [u8; 4096]) -> Result<(), DiskFault>
    requires { at + 4096 ≤ D.size disk.old }
    ensures bytes { OnOk result (IsTrue (D.is_honest disk.old) → block.new ≡ part (D.seen disk.old) at 4096) }
    ensures seen { IsTrue (D.is_honest disk.old) → D.seen disk.new ≡ D.seen disk.old }
    ensures crash { IsTrue (D.is_honest disk.old) → (c : List ℕ) → D.may_leave disk.new c
        → D.may_leave disk.old c }
    ensures time { Elapses D.clock D.may_leave D.left_since disk.old disk.new }
    ensures cause { HasCause (D.failures disk.old) (D.failures disk.new) result }
    ensures kind { IsOkUnless result DiskFault.Read }
    ensures honesty { D.is_honest disk.new ≡ D.is_honest disk.old }
    ensures size { D.size disk.new ≡ D.size disk.old }
{
    disk.read_at(at, block)
}

/// Writes `block` to the 4,096 bytes from place `at` of the disk on, which lie in it. `Write`: the disk failed, and these
/// bytes may read as any. No other byte is changed, and until a sync a crash may leave any bytes in their place.
pub fn write_block<D: Disk>(disk: &mut D, at: u64, block: &[u8; 4096]) -> Result<(), DiskFault>
    requires { at + 4096 ≤ D.size disk.old }
    ensures written { OnOk result (IsTrue (D.is_honest disk.old)
        → D.seen disk.new ≡ overwritten (D.seen disk.old) at block.now) }
    ensures others { IsTrue (D.is_honest disk.old)
        → SameOutside at 4096 (D.seen disk.old) (D.seen disk.new) }
    ensures crash { IsTrue (D.is_honest disk.old)
        → Follows (SameOutside at 4096) (D.may_leave disk.old) (D.may_leave disk.new) }
    ensures time { Elapses D.clock D.may_leave D.left_since disk.old disk.new }
    ensures cause { HasCause (D.failures disk.old) (D.failures disk.new) result }
    ensures kind { IsOkUnless result DiskFault.Write }
    ensures honesty { D.is_honest disk.new ≡ D.is_honest disk.old }
    ensures size { D.size disk.new ≡ D.size disk.old }
{
    disk.write_at(at, block)
}
