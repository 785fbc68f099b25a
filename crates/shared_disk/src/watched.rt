// A disk that others change.
ghost use Rattle.std.specs.Prelude.{◌≡◌, ◌+◌, ◌^◌, ◌<◌, ◌≤◌, ℕ, Bool, List, length, IsTrue, OnOk, IsOkUnless};
ghost use Rattle.disk_model.specs.Places.{AreBytes};
ghost use Rattle.shared_disk.specs.History.{moment};
ghost use Rattle.shared_disk.specs.Reading.{AreReadIn};

use disk_model::DiskFault;

/// A disk of fixed length that others change while it is read. Its contents are its moments, in order. Each byte of a read is one
/// that the disk held at a moment between the read's start and its end, and the next read starts where this one ended. So the bytes
/// of one read need not be of one moment. Its clauses on bytes hold of an honest disk.
pub trait WatchedDisk {
    /// The length in bytes.
    ghost size: { Self → ℕ };

    /// Whether its clauses on bytes hold.
    ghost is_honest: { Self → Bool };

    /// Its content, moment by moment, also at later moments.
    ghost moments: { Self → List (List ℕ) };

    /// The number of the moment at which the latest read ended.
    ghost reached: { Self → ℕ };

    /// The length in bytes. It never changes.
    fn length(&self) -> u64
        ensures { result ≡ size self.now };

    /// Reads the bytes from place `at` on into all of `into`. Answers `Read` if the disk failed.
    fn read_at(&mut self, at: u64, into: &mut [u8]) -> Result<(), DiskFault>
        requires { at + length into.old ≤ size self.old }
        ensures bytes { OnOk result (IsTrue (is_honest self.old) → AreReadIn (moments self.old) (reached self.old) (reached self.new) at into.new) }
        ensures kind { IsOkUnless result DiskFault.Read }
        ensures later { IsTrue (is_honest self.old) → reached self.old ≤ reached self.new }
        ensures moments { moments self.new ≡ moments self.old }
        ensures honesty { is_honest self.new ≡ is_honest self.old }
        ensures size { size self.new ≡ size self.old };

    /// A place of the disk is a number of 64 bits.
    ghost addressed: { (d : Self) → size d < 2 ^ 64 };

    /// The latest moment that a read reached is one of the disk's.
    ghost within: { (d : Self) → IsTrue (is_honest d) → reached d < length (moments d) };

    /// Each moment is as long as the disk.
    ghost whole: { (d : Self) (k : ℕ) → IsTrue (is_honest d) → k < length (moments d) → length (moment (moments d) k) ≡ size d };

    /// Each moment is bytes.
    ghost bytes: { (d : Self) (k : ℕ) → IsTrue (is_honest d) → k < length (moments d) → AreBytes (moment (moments d) k) };
}
