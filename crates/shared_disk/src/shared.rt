// A disk that others change.
ghost use Rattle.std.specs.Prelude.{◌≡◌, ◌+◌, ◌^◌, ◌<◌, ◌≤◌, ℕ, Bool, List, length, IsTrue, OnOk, IsOkUnless};
ghost use Rattle.disk_model.specs.Places.{AreBytes, part};
ghost use Rattle.shared_disk.specs.Meanwhile.{AreHeld, EndsWith, IsHeld};

use disk_model::DiskFault;
use std::alloc::Global;
use thiserror::Error;

/// Why a disk could not be looked at.
#[derive(Clone, Copy, Debug, PartialEq, Eq, Error)]
pub enum LookFault {
    /// Another changes it, and the caller would not wait.
    #[error("another process has the disk")]
    Busy,
    /// It has no lock.
    #[error("the disk could not be locked")]
    Lock,
    /// It could not be read.
    #[error("the disk could not be read")]
    Read,
    /// There is no memory for the bytes that are seen of it.
    #[error("out of memory")]
    OutOfMemory,
}

/// A disk of fixed length that others change while it is read. They change it under a lock. A look sees the bytes of one moment, but
/// for bytes that no opening reads. Reads between two looks take no lock: each byte is one that the disk held at some moment from the
/// one look to the other. Its clauses on bytes hold of an honest disk.
pub trait SharedDisk {
    /// The length in bytes.
    ghost size: { Self → ℕ };

    /// Whether its clauses on bytes hold.
    ghost is_honest: { Self → Bool };

    /// The bytes that it held at the last look.
    ghost looked: { Self → List ℕ };

    /// The bytes that it holds at each moment from the last look to the next one, in order.
    ghost meanwhile: { Self → List (List ℕ) };

    /// The length in bytes. It never changes.
    fn length(&self) -> u64
        ensures { result ≡ size self.now };

    /// Reads the bytes from place `at` on into all of `into`, without the lock. Answers `Read` if the disk failed.
    fn read_between(&self, at: u64, into: &mut [u8]) -> Result<(), DiskFault>
        requires { at + length into.old ≤ size self.now }
        ensures bytes { OnOk result (IsTrue (is_honest self.now) → AreHeld (meanwhile self.now) at into.new) }
        ensures kind { IsOkUnless result DiskFault.Read };

    /// Reads the first bytes into all of `into`, as they were at one moment: the next interval begins. Answers `Busy`, `Lock`, `Read` or
    /// `OutOfMemory`.
    fn look(&mut self, alloc: Global, into: &mut [u8]) -> Result<(), LookFault>
        requires { length into.old ≤ size self.old }
        ensures bytes { OnOk result (IsTrue (is_honest self.old) → into.new ≡ part (looked self.new) 0 (length into.old)) }
        ensures next { OnOk result (IsTrue (is_honest self.old) → EndsWith (meanwhile self.old) (looked self.new)) }
        ensures honesty { is_honest self.new ≡ is_honest self.old }
        ensures size { size self.new ≡ size self.old };

    /// A place of the disk is a number of 64 bits.
    ghost addressed: { (d : Self) → size d < 2 ^ 64 };

    /// The bytes that it held at the last look are as long as the disk.
    ghost whole: { (d : Self) → IsTrue (is_honest d) → length (looked d) ≡ size d };

    /// The bytes that it holds until the next look are as long too.
    ghost lists: { (d : Self) (c : List ℕ) → IsTrue (is_honest d) → IsHeld (meanwhile d) c → length c ≡ size d };

    /// The numbers that it held at the last look are bytes.
    ghost looked_bytes: { (d : Self) → IsTrue (is_honest d) → AreBytes (looked d) };
}
