// A disk in memory. It keeps each write and each sync since it
// was made, so that the bytes that a crash may leave are known.
ghost use Rattle.std.specs.Prelude.{◌≡◌, ◌+◌, ◌^◌, ◌<◌, ◌≤◌, ℕ, Bool, true, false, List, length, IsTrue, IsOk, IfOk, OnOk, OnErr, IsOkUnless, replicate, vec_len, vec_capacity};
ghost use Rattle.disk_model.specs.Places.{AreBytes, part, overwritten, SameOutside};
ghost use Rattle.disk_model.specs.Disk.{Follows, Only, Elapses, HasCause};
ghost use Rattle.disk_model.specs.Notes.{held, stable, written, MayLeave, LeftSince, AllFit};
ghost use Rattle.disk_model.specs.Crash.{crashed};
ghost use Rattle.disk_model.specs.NoteLaws.{AllFit-prop, held_kept, shown_bytes, shown_stays, now_counts, now_alone};

use crate::crash::bytes_after_crash;
use crate::note::Note;
use crate::{Backing, Disk, DiskFault, Pick};
use diagnostics::after_failure;
use std::alloc::{AllocError, Global};

/// A disk in memory, honest. It makes room for its own notes before it changes a byte, so a write that finds no memory
/// answers `Write` and changes nothing, and a sync takes none.
#[derive(Drop)]
pub struct MemDisk {
    alloc: Global,
    // The bytes that it was made with.
    first: Vec<u8>,
    // The bytes that reads give.
    present: Vec<u8>,
    // The writes and syncs since it was made.
    notes: Vec<Note>,
    // Whether a write came since the last sync.
    unsynced: bool,
    // How often it found no memory.
    failures: u64,
    ghost small: { length first.items < 2 ^ 64 },
    ghost sized: { length present.items ≡ length first.items },
    ghost bytes: { AreBytes first.items },
    ghost fit: { AllFit (length first.items) notes.items } by { AllFit-prop (length first.items) notes.items },
    ghost shown: { present.items ≡ (held first.items notes.items).now },
    ghost settled: { unsynced ≡ false → (length (held first.items notes.items).since ≡ 0) × ((held first.items notes.items).synced ≡ present.items) },
    ghost room: { unsynced ≡ true → vec_len notes < vec_capacity notes },
}

impl MemDisk {
    ghost use Rattle.disk_model.specs.MemDisk.{held_by};

    /// A disk of `length` zeros.
    pub fn new(alloc: Global, length: u64) -> Result<MemDisk, AllocError>
        ensures zeros { IfOk result (λ d. ⟦<MemDisk as Disk>⟧.seen d ≡ replicate length 0) }
        ensures size { IfOk result (λ d. ⟦<MemDisk as Disk>⟧.size d ≡ length) }
        ensures honest { IfOk result (λ d. IsTrue (⟦<MemDisk as Disk>⟧.is_honest d)) }
        ensures held { IfOk result (λ d. held_by d ≡ stable (replicate length 0)) }
        ensures settled { IfOk result (λ d. Only (⟦<MemDisk as Disk>⟧.seen d)
            (⟦<MemDisk as Disk>⟧.may_leave d)) }
    {
        MemDisk::holding(alloc, vec![in alloc; 0u8; length as usize]?)
    }

    /// A disk of the bytes that a crash now leaves of this one: the last synced bytes, with the part of each write since
    /// then that `pick` selects, in order.
    pub fn after_crash(&self, pick: Pick) -> Result<MemDisk, AllocError>
        ensures leaves { IfOk result (λ d.
            ⟦<MemDisk as Disk>⟧.seen d ≡ crashed pick (held_by self.now)) }
        ensures allowed { IfOk result (λ d. ⟦<MemDisk as Disk>⟧.may_leave self.now
            (⟦<MemDisk as Disk>⟧.seen d)) }
        ensures size { IfOk result (λ d. ⟦<MemDisk as Disk>⟧.size d ≡
            ⟦<MemDisk as Disk>⟧.size self.now) }
        ensures honest { IfOk result (λ d. IsTrue (⟦<MemDisk as Disk>⟧.is_honest d)) }
        ensures held { IfOk result (λ d. held_by d ≡ stable (⟦<MemDisk as Disk>⟧.seen d)) }
        ensures settled { IfOk result (λ d. Only (⟦<MemDisk as Disk>⟧.seen d)
            (⟦<MemDisk as Disk>⟧.may_leave d)) }
    {
        let bytes = bytes_after_crash(self.alloc, &self.first, &self.notes, pick)?;
        MemDisk::holding(self.alloc, bytes)
    }

    // A disk of these bytes, all of them stable.
    fn holding(alloc: Global, bytes: Vec<u8>) -> Result<MemDisk, AllocError>
        ensures held { IfOk result (λ d. held_by d ≡ stable bytes.items) }
        ensures seen { IfOk result (λ d. ⟦<MemDisk as Disk>⟧.seen d ≡ bytes.items) }
        ensures size { IfOk result (λ d. ⟦<MemDisk as Disk>⟧.size d ≡ length bytes.items) }
    {
        Ok(MemDisk {
            alloc,
            first: Vec::from_slice(alloc, &bytes)?,
            present: bytes,
            notes: Vec::new(alloc),
            unsynced: false,
            failures: 0,
        })
    }

    /// The bytes that reads give.
    pub fn bytes(&self) -> &[u8]
        ensures seen { result.now ≡ ⟦<MemDisk as Disk>⟧.seen self.now }
        ensures held { result.now ≡ (held_by self.now).now }
    {
        self.present.as_slice()
    }
}

// Makes room for two notes more, and copies the bytes of the next write.
fn prepare_write(alloc: Global, notes: &mut Vec<Note>, from: &[u8]) -> Result<Vec<u8>, AllocError>
    ensures notes { notes.new.items ≡ notes.old.items }
    ensures len { vec_len notes.new ≡ vec_len notes.old }
    ensures room { OnOk result (vec_len notes.new + 2 ≤ vec_capacity notes.new) }
    ensures capacity { vec_capacity notes.old ≤ vec_capacity notes.new }
    ensures bytes { IfOk result (λ bytes. bytes.items ≡ from.now) }
{
    notes.reserve(2)?;
    Vec::from_slice(alloc, from)
}

// Replaces the bytes from place `at` on by these bytes.
pub(crate) fn overwrite(bytes: &mut [u8], at: usize, from: &[u8])
    requires { at + length from.now ≤ length bytes.old }
    ensures { bytes.new ≡ overwritten bytes.old at from.now }
{
    bytes[at..at + from.len()].copy_from_slice(from);
}

impl Disk for MemDisk {
    ghost use Rattle.disk_model.specs.MemDisk.{held_by};

    ghost size = { λ m. length m.first.items };

    ghost seen = { λ m. m.present.items };

    ghost is_honest = { λ m. true };

    ghost failures = { λ m. m.failures };

    ghost clock = { λ m. length m.notes.items };

    ghost may_leave = { λ m c. MayLeave (held m.first.items m.notes.items) c };

    ghost left_since = { λ m t c. LeftSince m.first.items m.notes.items t c };

    ghost addressed = { λ m. m.small };

    ghost whole = { λ m honest. m.sized };

    ghost sized = { λ m c honest left. (held_kept m.first.items m.notes.items m.bytes m.fit).left_length c left };

    ghost seen_bytes = { λ m honest. shown_bytes m.first.items m.notes.items m.present.items m.bytes m.fit m.shown };

    ghost left_bytes = { λ m c honest left. (held_kept m.first.items m.notes.items m.bytes m.fit).left_bytes c left };

    ghost seen_may_stay = { λ m honest. shown_stays m.first.items m.notes.items m.present.items m.bytes m.fit m.shown };

    ghost counts_now = { λ m t c le left. now_counts m.first.items m.notes.items t c le left };

    ghost only_now = { λ m c left. now_alone m.first.items m.notes.items c left };

    fn length(&self) -> u64 {
        self.first.len() as u64
    }

    /// Never fails.
    fn read_at(&mut self, at: u64, into: &mut [u8]) -> Result<(), DiskFault>
        requires { at + length into.old ≤ ⟦<MemDisk as Disk>⟧.size self.old }
        ensures succeeds { IsOk result }
        ensures held { held_by self.new ≡ held_by self.old }
        ensures bytes { OnOk result (IsTrue (⟦<MemDisk as Disk>⟧.is_honest self.old)
            → into.new ≡ part (⟦<MemDisk as Disk>⟧.seen self.old) at (length into.old)) }
        ensures seen { IsTrue (⟦<MemDisk as Disk>⟧.is_honest self.old)
            → ⟦<MemDisk as Disk>⟧.seen self.new ≡ ⟦<MemDisk as Disk>⟧.seen self.old }
        ensures crash { IsTrue (⟦<MemDisk as Disk>⟧.is_honest self.old) → (c : List ℕ)
            → ⟦<MemDisk as Disk>⟧.may_leave self.new c → ⟦<MemDisk as Disk>⟧.may_leave self.old c }
        ensures time { Elapses ⟦<MemDisk as Disk>⟧.clock ⟦<MemDisk as Disk>⟧.may_leave
            ⟦<MemDisk as Disk>⟧.left_since self.old self.new }
        ensures cause { HasCause (⟦<MemDisk as Disk>⟧.failures self.old)
            (⟦<MemDisk as Disk>⟧.failures self.new) result }
        ensures kind { IsOkUnless result DiskFault.Read }
        ensures honesty { ⟦<MemDisk as Disk>⟧.is_honest self.new ≡
            ⟦<MemDisk as Disk>⟧.is_honest self.old }
        ensures size { ⟦<MemDisk as Disk>⟧.size self.new ≡ ⟦<MemDisk as Disk>⟧.size self.old }
    {
        let start = at as usize;
        into.copy_from_slice(&self.present[start..start + into.len()]);
        Ok(())
    }

    /// Answers `Write` if it finds no memory for its notes, and then no byte has changed.
    fn write_at(&mut self, at: u64, from: &[u8]) -> Result<(), DiskFault>
        requires { at + length from.now ≤ ⟦<MemDisk as Disk>⟧.size self.old }
        ensures held { OnOk result (held_by self.new ≡ written (held_by self.old) at from.now) }
        ensures unchanged { OnErr result (held_by self.new ≡ held_by self.old) }
        ensures moves { OnOk result (⟦<MemDisk as Disk>⟧.clock self.old < ⟦<MemDisk as Disk>⟧.clock self.new) }
        ensures written { OnOk result (IsTrue (⟦<MemDisk as Disk>⟧.is_honest self.old)
            → ⟦<MemDisk as Disk>⟧.seen self.new ≡ overwritten
            (⟦<MemDisk as Disk>⟧.seen self.old) at from.now) }
        ensures others { IsTrue (⟦<MemDisk as Disk>⟧.is_honest self.old)
            → SameOutside at (length from.now) (⟦<MemDisk as Disk>⟧.seen self.old)
            (⟦<MemDisk as Disk>⟧.seen self.new) }
        ensures crash { IsTrue (⟦<MemDisk as Disk>⟧.is_honest self.old)
            → Follows (SameOutside at (length from.now)) (⟦<MemDisk as Disk>⟧.may_leave self.old)
            (⟦<MemDisk as Disk>⟧.may_leave self.new) }
        ensures time { Elapses ⟦<MemDisk as Disk>⟧.clock ⟦<MemDisk as Disk>⟧.may_leave
            ⟦<MemDisk as Disk>⟧.left_since self.old self.new }
        ensures cause { HasCause (⟦<MemDisk as Disk>⟧.failures self.old)
            (⟦<MemDisk as Disk>⟧.failures self.new) result }
        ensures kind { IsOkUnless result DiskFault.Write }
        ensures honesty { ⟦<MemDisk as Disk>⟧.is_honest self.new ≡
            ⟦<MemDisk as Disk>⟧.is_honest self.old }
        ensures size { ⟦<MemDisk as Disk>⟧.size self.new ≡ ⟦<MemDisk as Disk>⟧.size self.old }
    {
        let Ok(bytes) = prepare_write(self.alloc, &mut self.notes, from) else {
            self.failures = after_failure(self.failures);
            return Err(DiskFault::Write);
        };
        overwrite(&mut self.present, at as usize, from);
        self.notes.push_reserved(Note::Wrote(at, bytes));
        self.unsynced = true;
        Ok(())
    }

    /// Never fails, and takes no memory.
    fn sync(&mut self) -> Result<(), DiskFault>
        ensures succeeds { IsOk result }
        ensures held { held_by self.new ≡ stable (held_by self.old).now }
        ensures durable { OnOk result (IsTrue (⟦<MemDisk as Disk>⟧.is_honest self.old)
            → Only (⟦<MemDisk as Disk>⟧.seen self.old) (⟦<MemDisk as Disk>⟧.may_leave self.new)) }
        ensures seen { IsTrue (⟦<MemDisk as Disk>⟧.is_honest self.old)
            → ⟦<MemDisk as Disk>⟧.seen self.new ≡ ⟦<MemDisk as Disk>⟧.seen self.old }
        ensures crash { IsTrue (⟦<MemDisk as Disk>⟧.is_honest self.old) → (c : List ℕ)
            → ⟦<MemDisk as Disk>⟧.may_leave self.new c → ⟦<MemDisk as Disk>⟧.may_leave self.old c }
        ensures time { Elapses ⟦<MemDisk as Disk>⟧.clock ⟦<MemDisk as Disk>⟧.may_leave
            ⟦<MemDisk as Disk>⟧.left_since self.old self.new }
        ensures cause { HasCause (⟦<MemDisk as Disk>⟧.failures self.old)
            (⟦<MemDisk as Disk>⟧.failures self.new) result }
        ensures kind { IsOkUnless result DiskFault.Sync }
        ensures honesty { ⟦<MemDisk as Disk>⟧.is_honest self.new ≡
            ⟦<MemDisk as Disk>⟧.is_honest self.old }
        ensures size { ⟦<MemDisk as Disk>⟧.size self.new ≡ ⟦<MemDisk as Disk>⟧.size self.old }
    {
        if !self.unsynced {
            return Ok(());
        }
        self.notes.push_reserved(Note::Synced);
        self.unsynced = false;
        Ok(())
    }
}

impl Backing for MemDisk {
    fn fetch(&mut self, at: u64, into: &mut [u8]) -> Result<(), DiskFault> {
        self.read_at(at, into)
    }

    fn put(&mut self, at: u64, from: &[u8]) -> Result<(), DiskFault> {
        self.write_at(at, from)
    }
}
