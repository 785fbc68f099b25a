// A disk that another one gathers writes for.
ghost use Rattle.std.specs.Prelude.{◌+◌, ◌≤◌, length, IsOkUnless};
ghost use Rattle.disk_model.specs.Backing.{IsFetched, IsPut};

use crate::{Disk, DiskFault};

/// A disk under another one (`Gathering`). On an honest one no read and no write takes a list away from those that a crash
/// may leave. After a write that succeeded a crash may leave any bytes in its range, until a sync succeeds.
pub trait Backing: Disk {
    /// Reads the bytes from place `at` on into all of `into`. Answers `Read` if the disk failed.
    fn fetch(&mut self, at: u64, into: &mut [u8]) -> Result<(), DiskFault>
        requires { at + length into.old ≤ Self.Disk.size self.old }
        ensures fetched { IsFetched Self.Disk result at (length into.old) into.new self.old self.new }
        ensures kind { IsOkUnless result DiskFault.Read };

    /// Writes all of `from` from place `at` on. Answers `Write` if the disk failed, and then the range may read as any
    /// bytes.
    fn put(&mut self, at: u64, from: &[u8]) -> Result<(), DiskFault>
        requires { at + length from.now ≤ Self.Disk.size self.old }
        ensures put { IsPut Self.Disk result at from.now self.old self.new }
        ensures kind { IsOkUnless result DiskFault.Write };
}
