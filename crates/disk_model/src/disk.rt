// A disk: a row of bytes of fixed length that is read, written and synced.
//
// The model of a disk. As long as it is honest, a read gives the bytes that the latest write put there, and changes nothing, even
// if it fails. A write leaves its range open while it runs and after it: if the machine stops before a later sync has succeeded,
// any bytes may be in that range, and if the write failed a read may find any bytes in it at once. The rest of the disk is as it
// was. A sync that succeeds settles the bytes that reads give; one that fails settles nothing.
ghost use Rattle.std.specs.Prelude.{◌≡◌, ◌+◌, ◌^◌, ◌<◌, ◌≤◌, ℕ, Bool, List, length, IsTrue, OnOk, IsOkUnless};
ghost use Rattle.disk_model.specs.Places.{AreBytes, part, overwritten, SameOutside};
ghost use Rattle.disk_model.specs.Disk.{Follows, Only, Elapses, HasCause};

use thiserror::Error;

/// Why a disk call failed.
#[derive(Clone, Copy, Debug, PartialEq, Eq, Error)]
pub enum DiskFault {
    /// The bytes could not be read.
    #[error("the disk could not be read")]
    Read,
    /// The bytes could not be written. Their range may read as any bytes now.
    #[error("the disk could not be written")]
    Write,
    /// The written bytes could not be made stable.
    #[error("the disk could not be synced")]
    Sync,
}

/// A disk of fixed length. Its clauses about bytes and crashes hold
/// of an honest disk; on any other disk the calls are only total.
pub trait Disk {
    /// The length in bytes.
    ghost size: { Self → ℕ };

    /// The bytes that reads give.
    ghost seen: { Self → List ℕ };

    /// Whether the disk keeps to the disk model.
    ghost is_honest: { Self → Bool };

    /// How often the disk has failed: a call that answers a fault counts once. It stays at the highest number of 64 bits.
    ghost failures: { Self → ℕ };

    /// The moment: a number that never falls, and grows with each call that changes the bytes that a crash may leave.
    ghost clock: { Self → ℕ };

    /// The bytes that a crash may leave now.
    ghost may_leave: { Self → List ℕ → Type 0 };

    /// The bytes that a crash may have left at some moment from that one on, up to now.
    ghost left_since: { Self → ℕ → List ℕ → Type 0 };

    /// The length in bytes. It never changes.
    fn length(&self) -> u64
        ensures { result ≡ size self.now };

    /// Reads the bytes from place `at` on into all of `into`. Answers `Read` if the disk failed.
    fn read_at(&mut self, at: u64, into: &mut [u8]) -> Result<(), DiskFault>
        requires { at + length into.old ≤ size self.old }
        ensures bytes { OnOk result (IsTrue (is_honest self.old)
            → into.new ≡ part (seen self.old) at (length into.old)) }
        ensures seen { IsTrue (is_honest self.old) → seen self.new ≡ seen self.old }
        ensures crash { IsTrue (is_honest self.old) → (c : List ℕ) → may_leave self.new c
            → may_leave self.old c }
        ensures time { Elapses clock may_leave left_since self.old self.new }
        ensures cause { HasCause (failures self.old) (failures self.new) result }
        ensures kind { IsOkUnless result DiskFault.Read }
        ensures honesty { is_honest self.new ≡ is_honest self.old }
        ensures size { size self.new ≡ size self.old };

    /// Writes all of `from` from place `at` on. Answers `Write` if the disk failed, and then the range may read as
    /// any bytes. Until a sync, a crash may leave any bytes in the range.
    fn write_at(&mut self, at: u64, from: &[u8]) -> Result<(), DiskFault>
        requires { at + length from.now ≤ size self.old }
        ensures written { OnOk result (IsTrue (is_honest self.old)
            → seen self.new ≡ overwritten (seen self.old) at from.now) }
        ensures others { IsTrue (is_honest self.old)
            → SameOutside at (length from.now) (seen self.old) (seen self.new) }
        ensures crash { IsTrue (is_honest self.old)
            → Follows (SameOutside at (length from.now)) (may_leave self.old) (may_leave self.new) }
        ensures time { Elapses clock may_leave left_since self.old self.new }
        ensures cause { HasCause (failures self.old) (failures self.new) result }
        ensures kind { IsOkUnless result DiskFault.Write }
        ensures honesty { is_honest self.new ≡ is_honest self.old }
        ensures size { size self.new ≡ size self.old };

    /// Makes the written bytes stable: from then on a crash leaves the bytes that reads give. Answers `Sync` if the disk
    /// failed, and then nothing was made stable.
    fn sync(&mut self) -> Result<(), DiskFault>
        ensures durable { OnOk result (IsTrue (is_honest self.old)
            → Only (seen self.old) (may_leave self.new)) }
        ensures seen { IsTrue (is_honest self.old) → seen self.new ≡ seen self.old }
        ensures crash { IsTrue (is_honest self.old) → (c : List ℕ) → may_leave self.new c
            → may_leave self.old c }
        ensures time { Elapses clock may_leave left_since self.old self.new }
        ensures cause { HasCause (failures self.old) (failures self.new) result }
        ensures kind { IsOkUnless result DiskFault.Sync }
        ensures honesty { is_honest self.new ≡ is_honest self.old }
        ensures size { size self.new ≡ size self.old };

    /// A place of the disk is a number of 64 bits.
    ghost addressed: { (d : Self) → size d < 2 ^ 64 };

    /// Reads give as many bytes as the disk is long.
    ghost whole: { (d : Self) → IsTrue (is_honest d) → length (seen d) ≡ size d };

    /// Each outcome of a crash has as many bytes too.
    ghost sized: { (d : Self) (c : List ℕ) → IsTrue (is_honest d) → may_leave d c
        → length c ≡ size d };

    /// The numbers that reads give are bytes.
    ghost seen_bytes: { (d : Self) → IsTrue (is_honest d) → AreBytes (seen d) };

    /// The numbers that a crash leaves are bytes too.
    ghost left_bytes: { (d : Self) (c : List ℕ) → IsTrue (is_honest d) → may_leave d c
        → AreBytes c };

    /// A crash may leave the bytes that reads give.
    ghost seen_may_stay: { (d : Self) → IsTrue (is_honest d) → may_leave d (seen d) };

    /// This moment is one of those since an earlier one.
    ghost counts_now: { (d : Self) (t : ℕ) (c : List ℕ) → t ≤ clock d → may_leave d c
        → left_since d t c };

    /// Since this moment there is no other.
    ghost only_now: { (d : Self) (c : List ℕ) → left_since d (clock d) c → may_leave d c };
}
