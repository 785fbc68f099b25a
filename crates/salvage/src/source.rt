// A row of bytes that is only read.
ghost use Rattle.std.specs.Prelude.{◌≡◌, ◌+◌, ◌^◌, ◌<◌, ◌≤◌, ℕ, Bool, List, length, IsTrue, OnOk};
ghost use Rattle.disk_model.specs.Places.{AreBytes, part};

use disk_model::DiskFault;

/// A row of bytes of fixed length that is only read: no call of it writes. Its clauses about bytes hold of an honest one.
pub trait Source {
    /// The length in bytes.
    ghost size: { Self → ℕ };

    /// The bytes that reads give.
    ghost seen: { Self → List ℕ };

    /// Whether its clauses on bytes hold.
    ghost is_honest: { Self → Bool };

    /// The length in bytes.
    fn length(&self) -> u64
        ensures { result ≡ size self.now };

    /// Reads the bytes from place `at` on into all of `into`. Answers a fault if they could not be read.
    fn read_at(&self, at: u64, into: &mut [u8]) -> Result<(), DiskFault>
        requires { at + length into.old ≤ size self.now }
        ensures bytes { OnOk result (IsTrue (is_honest self.now) → into.new ≡ part (seen self.now) at (length into.old)) };

    /// A place of it is a number of 64 bits.
    ghost addressed: { (s : Self) → size s < 2 ^ 64 };

    /// Reads give as many bytes as it is long.
    ghost whole: { (s : Self) → IsTrue (is_honest s) → length (seen s) ≡ size s };

    /// The numbers that reads give are bytes.
    ghost seen_bytes: { (s : Self) → IsTrue (is_honest s) → AreBytes (seen s) };
}
