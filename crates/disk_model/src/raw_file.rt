// A file that is open as a disk.
ghost use Rattle.std.specs.Prelude.{◌≡◌, ◌^◌, ◌<◌, [], ℕ, List, length, min, true, false, is_ok, is_some, Some, Err, OnOk, IfOk, IsOkUnless, ◌∷◌};
ghost use Rattle.std.proofs.lemmas.Bool.{false≢true};
ghost use Rattle.disk_model.specs.Disk.{HasCause, joined};
ghost use Rattle.disk_model.specs.Backing.{IsFetched, IsPut, IsSynced};
ghost use Rattle.disk_model.specs.Calls.{read, wrote, synced};
ghost use Rattle.disk_model.specs.Holding.{IsJustLocked, IsSettledFrom, synced_if, Made, WritesAgain};
ghost use Rattle.disk_model.specs.declared.held_facts.Hold.TheVariants.{Alone};

use crate::file_fault::FileFault;
use crate::held_facts::Hold;
use crate::held_file::HeldFile;
use crate::{Backing, Disk, DiskFault};
use diagnostics::after_failure;
use std::io;

// The bytes of one write of bytes that are written again.
const PIECE: usize = 65_536;

/// A regular file as a disk, of the length that it had when it was examined. The process holds its lock, and the bytes that earlier processes
/// wrote are durable, as far as the system reports. Each of its methods as a disk makes the one call on the file that it is named after, at
/// the place and with the bytes that it was given. A write is refused unless the lock is exclusive, and so is a sync after one that failed.
#[derive(Drop)]
pub struct RawFile<F: HeldFile> {
    file: F,
    length: u64,
    // How many calls were refused.
    refused: u64,
    ghost small: { length < 2 ^ 64 },
    ghost regular: { (F.facts file).is_regular ≡ true },
    ghost locked: { is_some (F.facts file).lock ≡ true },
    ghost settled: { (F.facts file).is_settled ≡ true },
}

impl<F: HeldFile + Drop> RawFile<F> {
    /// The disk in a file that was opened and locked, and no more. Its first sync
    /// may fail: then the system reported that a write was lost (`has_lost_writes`).
    ///
    /// # Errors
    ///
    /// `Folder` and `Special` if it is no regular file, `Length` if the
    /// system doesn't give its length, `Settle` if the second sync fails too.
    pub fn settled(file: F) -> Result<RawFile<F>, FileFault>
        requires locked { IsJustLocked (F.facts file) }
        ensures lock { IfOk result (λ d. (F.facts d.file).lock ≡ (F.facts file).lock) }
        ensures uncounted { IfOk result (λ d. ⟦<RawFile<F> as Disk>⟧.failures d ≡ 0) }
    {
        let mut file = file;
        let length = file.look_at_kind()?;
        settle(&mut file)?;
        Ok(RawFile::new(file, length))
    }

    /// Writes the first `length` bytes of the file again, as they read, and makes them durable. So the device has the
    /// bytes that reads give there, even if an earlier process failed to write them. Bytes that the device has already
    /// are overwritten by themselves. Answers `Settle` if a call fails, the lock is shared, or a sync failed before.
    pub fn write_again(self, length: u64) -> Result<RawFile<F>, FileFault>
        ensures again { IfOk result (λ d. WritesAgain F.made (min length self.length) self.file d.file) }
        ensures alone { IfOk result (λ d. (F.facts d.file).lock ≡ Some Alone) }
    {
        let mut disk = self;
        let known = disk.file.known();
        let Some(Hold::Alone) = known.lock else {
            return Err(FileFault::Settle);
        };
        if known.has_failed_sync {
            return Err(FileFault::Settle);
        }
        let front = length.min(disk.length);
        rewrite(&mut disk.file, front).map_err(|_| FileFault::Settle)?;
        Ok(disk)
    }
}

impl<F: HeldFile> RawFile<F> {
    /// The disk in a file that is settled, with no call refused yet.
    pub(crate) fn new(file: F, length: u64) -> RawFile<F>
        requires regular { (F.facts file).is_regular ≡ true }
        requires locked { is_some (F.facts file).lock ≡ true }
        requires settled { (F.facts file).is_settled ≡ true }
        ensures file { result.file ≡ file }
        ensures length { result.length ≡ length }
        ensures unrefused { result.refused ≡ 0 }
    {
        RawFile {
            file,
            length,
            refused: 0,
        }
    }

    /// The file.
    pub fn file(&self) -> &F
        ensures { result.now ≡ self.now.file }
    {
        &self.file
    }

    // Counts a call that is not made.
    fn refuse(&mut self, fault: DiskFault) -> Result<(), DiskFault>
        ensures fault { result ≡ Err fault }
        ensures cause { HasCause (joined (F.facts self.old.file).failures self.old.refused) (joined (F.facts self.new.file).failures self.new.refused) result }
        ensures length { self.new.length ≡ self.old.length }
    {
        self.refused = after_failure(self.refused);
        Err(fault)
    }
}

// Makes durable the bytes that an earlier process has left to be written. The first sync may report a lost write that the
// earlier process never saw synced: nothing was promised of it, so the second one decides.
fn settle<F: HeldFile>(file: &mut F) -> Result<(), FileFault>
    requires locked { IsJustLocked (F.facts file.old) }
    ensures settled { OnOk result (IsSettledFrom (F.facts file.old) (F.facts file.new)) }
{
    if let Ok(()) = file.settle() {
        return Ok(());
    }
    file.settle().map_err(|_| FileFault::Settle)?;
    Ok(())
}

// Writes the first bytes of the file over themselves, and makes them durable.
fn rewrite<F: HeldFile>(file: &mut F, length: u64) -> io::Result<()>
    requires alone { (F.facts file.old).lock ≡ Some Alone }
    requires settled { (F.facts file.old).is_settled ≡ true }
    requires good { (F.facts file.old).has_failed_sync ≡ false }
    ensures again { OnOk result (WritesAgain F.made length file.old file.new) }
    ensures facts { OnOk result (F.facts file.new ≡ synced_if true (F.facts file.old)) }
{
    let mut bytes = [0u8; PIECE];
    let mut at = 0u64;
    while at < length {
        let left = length - at;
        let size = if left < PIECE as u64 {
            left as usize
        } else {
            PIECE
        };
        rewrite_piece(file, &mut bytes[..size], at)?;
        at += size as u64;
    }
    file.sync()
}

// Writes the bytes from place `at` on over themselves, as many as the piece has.
fn rewrite_piece<F: HeldFile>(file: &mut F, piece: &mut [u8], at: u64) -> io::Result<()>
    requires alone { (F.facts file.old).lock ≡ Some Alone }
    requires settled { (F.facts file.old).is_settled ≡ true }
    ensures again { OnOk result ((bytes : List ℕ) × (length bytes ≡ length piece.old)
        × Made F.made (wrote at true bytes ∷ read at true bytes ∷ []) file.old file.new) }
    ensures facts { OnOk result (F.facts file.new ≡ F.facts file.old) }
{
    file.pread(piece, at)?;
    file.pwrite(piece, at)
}

impl<F: HeldFile> Disk for RawFile<F> {
    ghost size = { λ d. d.length };

    ghost seen = { λ d. [] };

    ghost is_honest = { λ d. false };

    ghost failures = { λ d. joined (F.facts d.file).failures d.refused };

    ghost clock = { λ d. 0 };

    ghost may_leave = { λ d c. ⊥ };

    ghost left_since = { λ d t c. ⊥ };

    ghost addressed = { λ d. d.small };

    ghost whole = { λ d honest. absurd (false≢true honest) };

    ghost sized = { λ d c honest left. absurd left };

    ghost seen_bytes = { λ d honest. absurd (false≢true honest) };

    ghost left_bytes = { λ d c honest left. absurd left };

    ghost seen_may_stay = { λ d honest. absurd (false≢true honest) };

    ghost counts_now = { λ d t c le left. left };

    ghost only_now = { λ d c left. left };

    fn length(&self) -> u64 {
        self.length
    }

    fn read_at(&mut self, at: u64, into: &mut [u8]) -> Result<(), DiskFault> {
        self.fetch(at, into)
    }

    fn write_at(&mut self, at: u64, from: &[u8]) -> Result<(), DiskFault> {
        self.put(at, from)
    }

    fn sync(&mut self) -> Result<(), DiskFault>
        ensures synced { IsSynced ⟦<RawFile<F> as Disk>⟧ result self.old self.new }
        ensures kind { IsOkUnless result DiskFault.Sync }
        ensures made { (F.facts self.old.file).has_failed_sync ≡ false → F.made self.old.file (synced (is_ok result)) self.new.file }
    {
        if self.file.known().has_failed_sync {
            return self.refuse(DiskFault::Sync);
        }
        match self.file.sync() {
            Ok(()) => Ok(()),
            Err(_) => Err(DiskFault::Sync),
        }
    }
}

impl<F: HeldFile> Backing for RawFile<F> {
    fn fetch(&mut self, at: u64, into: &mut [u8]) -> Result<(), DiskFault>
        ensures fetched { IsFetched ⟦<RawFile<F> as Disk>⟧ result at (length into.old) into.new self.old self.new }
        ensures kind { IsOkUnless result DiskFault.Read }
        ensures made { F.made self.old.file (read at (is_ok result) into.new) self.new.file }
    {
        match self.file.pread(into, at) {
            Ok(()) => Ok(()),
            Err(_) => Err(DiskFault::Read),
        }
    }

    fn put(&mut self, at: u64, from: &[u8]) -> Result<(), DiskFault>
        ensures put { IsPut ⟦<RawFile<F> as Disk>⟧ result at from.now self.old self.new }
        ensures kind { IsOkUnless result DiskFault.Write }
        ensures made { (F.facts self.old.file).lock ≡ Some Alone → F.made self.old.file (wrote at (is_ok result) from.now) self.new.file }
    {
        let Some(Hold::Alone) = self.file.known().lock else {
            return self.refuse(DiskFault::Write);
        };
        match self.file.pwrite(from, at) {
            Ok(()) => Ok(()),
            Err(_) => Err(DiskFault::Write),
        }
    }
}
