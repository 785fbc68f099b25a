// The calls on a file that is open.
ghost use Rattle.std.specs.Prelude.{◌≡◌, true, false, is_ok, is_some, OnOk, None, Some};
ghost use Rattle.disk_model.specs.Calls.{Call, read, wrote, synced};
ghost use Rattle.disk_model.specs.Holding.{regular, locked_if, unlocked, settled_if, counted_if, synced_if};
ghost use Rattle.disk_model.specs.declared.held_facts.HeldFacts.{HeldFacts};
ghost use Rattle.disk_model.specs.declared.held_facts.Hold.TheVariants.{Alone};

use crate::file_fault::FileFault;
use crate::held_facts::{HeldFacts, Hold};
use std::io;

/// A file that is open. Each method is one call of the operating system on it. A `requires` names
/// the calls that must come before, and a clause gives the known facts about the file after the
/// call. So code that reads and writes a file by these calls can't make them in another order.
pub trait HeldFile {
    /// The known facts about the file.
    ghost facts: { Self → HeldFacts };

    /// That this one call was made on the file, which was so before it and is so after it.
    ghost made: { Self → Call → Self → Type 0 };

    /// The known facts about the file. No call is made.
    fn known(&self) -> HeldFacts
        ensures { result ≡ facts self.now };

    /// Checks the kind of the file, and returns its length. A directory, which may be opened for reading, is refused as `Folder`, and any other
    /// file that is not regular as `Special`. Answers `Length` if the system doesn't give the length.
    fn look_at_kind(&mut self) -> Result<u64, FileFault>
        ensures regular { OnOk result (facts self.new ≡ regular (facts self.old)) };

    /// Takes the file's lock. If another has it, it waits or answers `Busy`. Answers `Lock` if the file has no lock here.
    fn lock(&mut self, hold: Hold, waits: bool) -> Result<(), FileFault>
        requires free { (facts self.old).lock ≡ None }
        ensures facts { facts self.new ≡ locked_if (is_ok result) hold (facts self.old) };

    /// Lets the lock go. It is not counted on any more, whatever is answered.
    fn unlock(&mut self) -> io::Result<()>
        ensures facts { facts self.new ≡ unlocked (facts self.old) };

    /// Makes durable the bytes that earlier processes left to be written. The first such sync may fail, to report a lost write that
    /// was not reported to any process; the second one decides.
    fn settle(&mut self) -> io::Result<()>
        requires locked { is_some (facts self.old).lock ≡ true }
        requires unsettled { (facts self.old).is_settled ≡ false }
        requires good { (facts self.old).has_failed_sync ≡ false }
        ensures facts { facts self.new ≡ settled_if (is_ok result) (facts self.old) };

    /// Reads the bytes from place `at` on into all of `into`.
    fn pread(&mut self, into: &mut [u8], at: u64) -> io::Result<()>
        requires locked { is_some (facts self.old).lock ≡ true }
        requires settled { (facts self.old).is_settled ≡ true }
        ensures facts { facts self.new ≡ counted_if (is_ok result) (facts self.old) }
        ensures made { made self.old (read at (is_ok result) into.new) self.new };

    /// Writes all of `from` from place `at` on.
    fn pwrite(&mut self, from: &[u8], at: u64) -> io::Result<()>
        requires alone { (facts self.old).lock ≡ Some Alone }
        requires settled { (facts self.old).is_settled ≡ true }
        ensures facts { facts self.new ≡ counted_if (is_ok result) (facts self.old) }
        ensures made { made self.old (wrote at (is_ok result) from.now) self.new };

    /// Makes the written bytes durable.
    fn sync(&mut self) -> io::Result<()>
        requires settled { (facts self.old).is_settled ≡ true }
        requires good { (facts self.old).has_failed_sync ≡ false }
        ensures facts { facts self.new ≡ synced_if (is_ok result) (facts self.old) }
        ensures made { made self.old (synced (is_ok result)) self.new };

    /// Reads the bytes from place `at` on into all of `into`, of a file that others may change meanwhile.
    fn peek(&self, into: &mut [u8], at: u64) -> io::Result<()>
        ensures made { made self.now (read at (is_ok result) into.new) self.now };
}
