// An open journal, and its appends.
ghost use Rattle.std.specs.Prelude.{◌≡◌, ◌+◌, ◌*◌, ◌<◌, ◌≤◌, ◌^◌, nat_lt, true, false, [], length, map, IsTrue, OnOk, IfErr, Err, option_map};
ghost use Rattle.journal_layout.specs.declared.entry.Entry.{Entry};
ghost use Rattle.disk_model.specs.Places.{SameOutside};
ghost use Rattle.disk_model.specs.Disk.{HasRisen};
ghost use Rattle.disk_model.specs.Keeping.{KeepsDisk};
ghost use Rattle.journal_layout.specs.Case.{case_of, numbered};
ghost use Rattle.journal_layout.specs.Record.{Record, Store, Drop, Pin, record_size, behind_gate};
ghost use Rattle.journal_layout.specs.Layout.{IsWithinLimits, disk_length, half_start, half_length};
ghost use Rattle.journal_layout.specs.Soundness.{case_numbered, Rise};
ghost use Rattle.journal_layout.specs.Standing.{store_of};
ghost use Rattle.journal_layout.specs.Rewriting.{fits};
ghost use Rattle.journal_snapshot.specs.Filling.{Fills};
ghost use Rattle.case_journal.specs.Journaled.{Journaled, halted, after_append};
ghost use Rattle.case_journal.specs.Keeping.{Keeps, LeavesEither, LeavesOutside};
ghost use Rattle.case_journal.specs.Append.{MayStore, MayFollow, StoreStep, AppendStep, IsStoreDiskFault, RefusalLeaves, StoreRefusalLeaves};
ghost use Rattle.case_journal.specs.Entering.{left, repinned, PutStep};
ghost use Rattle.case_journal.specs.Putting.{IsPut, BehindStep, DecidesFit, RunsAppend, written_at, written_long};
ghost use Rattle.case_journal.specs.Compacting.{PutLeaves};

use crate::JournalFault;
use crate::compacting::{JournalEnd, measure_snapshot};
use crate::live_entries::{LiveEntries, find_entry};
use crate::publish::publish;
use disk_model::Disk;
use journal_layout::{Entry, Half, Shape};
use journal_records::{PIN_SIZE, drop_record, drop_size, pin_record, store_record, store_size};
use journal_snapshot::Change;
use std::alloc::Global;
use std::marker::Model;

/// The journal of an open archive: its cases, the number of the next one, and the place of the next record. Contracts see
/// the content that it encodes.
#[derive(Drop)]
pub struct Journal {
    pub(crate) shape: Shape,
    // The half whose records count, and the fields of its header.
    pub(crate) half: Half,
    pub(crate) version: u32,
    pub(crate) generation: u64,
    // In the order of their numbers.
    pub(crate) entries: LiveEntries,
    // The number of the next case, at most 2^32.
    pub(crate) next: u64,
    // The bytes of the taken half's header and records.
    pub(crate) used: u64,
    // Whether a disk fault has stopped it.
    pub(crate) stopped: bool,
}

impl Model for Journal {
    ghost use Rattle.std.specs.Prelude.{map};
    ghost use Rattle.case_journal.specs.Journaled.{Journaled};
    ghost use Rattle.journal_layout.specs.Case.{case_of};
    ghost use Rattle.case_journal.specs.Kept.{IsKept};

    ghost Value = { Journaled };

    ghost view = { λ j. record {
      standing = record {
        shape = j.shape;
        half = j.half;
        version = j.version;
        generation = j.generation;
        cases = map case_of j.entries.entries;
        next = j.next;
        used = j.used;
      };
      stopped = j.stopped;
    } };

    ghost invariant = { λ j. IsKept j.shape j.version (map case_of j.entries.entries) j.next j.used };
}

impl Journal {
    /// The cases in the order of their numbers. After a disk fault they are those from before the failed call.
    pub fn entries(&self) -> &[Entry]
        ensures { map case_of result.now ≡ self.now.standing.cases }
    {
        self.entries.as_slice()
    }

    /// The case of this number, if it is live.
    pub fn entry(&self, seq: u32) -> Option<&Entry>
        ensures { option_map (λ (e : _). case_of e.now) result ≡ case_numbered seq self.now.standing.cases }
    {
        find_entry(self.entries.as_slice(), seq)
    }

    /// The number of the next case, at most 2^32.
    pub fn next_seq(&self) -> u64
        ensures value { result ≡ self.now.standing.next }
        ensures numbers { result ≤ 2 ^ 32 }
    {
        self.next
    }

    /// The bytes of the taken half's header and records.
    pub fn use_bytes(&self) -> u64
        ensures { result ≡ self.now.standing.used }
    {
        self.used
    }

    /// The shape of the archive.
    pub fn shape(&self) -> Shape
        ensures { result ≡ self.now.standing.shape }
    {
        self.shape
    }

    // Whether a record of `size` bytes, and the gate after it, fit after those that are there.
    pub(crate) fn fits(&self, size: u64) -> bool
        ensures in_half { result ≡ nat_lt (self.now.standing.used + size) (half_length self.now.standing.shape) }
        ensures small { result ≡ true → size ≤ 16777216 }
    {
        size < self.shape.half_length() - self.used
    }

    // Whether a case has room, after the records or in the other half. Its number is not looked at.
    fn check_fit(&self, entry: &Entry, size: u64) -> Result<(), JournalFault>
        requires size { size ≡ record_size (store_of self.now.standing (case_of entry.now)) }
        requires short { length entry.now.runs ≤ 2 ^ 52 }
        requires no_label { entry.now.label.items ≡ [] }
        ensures { DecidesFit self.now.standing (store_of self.now.standing (case_of entry.now)) result }
    {
        if !self.fits(size) {
            let change = Change::Store(0, entry);
            measure_snapshot(
                self.entries.as_slice(),
                self.shape,
                self.generation,
                &change,
            )?;
        }
        Ok(())
    }

    // Puts a record after those that are there, whatever record it is. Returns the place of the next one.
    pub(crate) fn put_behind<D: Disk>(
        &self,
        disk: &mut D,
        behind: &[u8],
    ) -> Result<JournalEnd, JournalFault>
        requires keeps { Keeps D.Disk disk.old self.now }
        requires runs { self.now.stopped ≡ false }
        requires in_half { self.now.standing.used + length behind.now + 1 ≤ half_length self.now.standing.shape }
        ensures step { BehindStep self.now.standing (length behind.now) result }
        ensures run { (r : Record) → IsPut self.now.standing r behind.now → RunsAppend D.Disk disk.old disk.new self.now.standing r }
        ensures kept { (r : Record) → IsPut self.now.standing r behind.now
            → OnOk result (Keeps D.Disk disk.new (after_append self.now r)) }
        ensures cause { result ≡ Err JournalFault.Disk → HasRisen (D.failures disk.old) (D.failures disk.new) }
    {
        let gate = self.shape.half_start(self.half) + self.used;
        publish(disk, gate, behind)?;
        Ok(JournalEnd {
            half: self.half,
            generation: self.generation,
            used: self.used + behind.len() as u64,
        })
    }

    // Puts the record of a case, or writes the journal anew with it. The case is not entered yet.
    fn put_store<D: Disk>(
        &self,
        disk: &mut D,
        seq: u32,
        entry: &Entry,
        size: u64,
    ) -> Result<JournalEnd, JournalFault>
        requires keeps { Keeps D.Disk disk.old self.now }
        requires runs { self.now.stopped ≡ false }
        requires number { seq ≡ self.now.standing.next }
        requires size { size ≡ record_size (Store (numbered seq (case_of entry.now))) }
        requires sound { MayFollow self.now.standing (Store (numbered seq (case_of entry.now))) }
        ensures step { PutStep self.now.standing (Store (numbered seq (case_of entry.now))) result }
        ensures run { RunsAppend D.Disk disk.old disk.new self.now.standing (Store (numbered seq (case_of entry.now))) }
        ensures kept { OnOk result (Keeps D.Disk disk.new (after_append self.now (Store (numbered seq (case_of entry.now))))) }
        ensures untouched { PutLeaves result disk.old disk.new }
        ensures cause { result ≡ Err JournalFault.Disk → HasRisen (D.failures disk.old) (D.failures disk.new) }
    {
        if !self.fits(size) {
            return self.put_snapshot(
                disk,
                &Change::Store(seq, entry),
                self.version,
                self.next + 1,
            );
        }
        let record = store_record(self.alloc(), seq, entry, size)?;
        self.put_behind(disk, &record)
    }

    // Puts the record of cases that end, or writes the journal anew without them. They are not left out yet.
    fn put_drop<D: Disk>(&self, disk: &mut D, seqs: &[u32]) -> Result<JournalEnd, JournalFault>
        requires keeps { Keeps D.Disk disk.old self.now }
        requires runs { self.now.stopped ≡ false }
        requires sound { MayFollow self.now.standing (Drop seqs.now) }
        ensures step { PutStep self.now.standing (Drop seqs.now) result }
        ensures run { RunsAppend D.Disk disk.old disk.new self.now.standing (Drop seqs.now) }
        ensures kept { OnOk result (Keeps D.Disk disk.new (after_append self.now (Drop seqs.now))) }
        ensures untouched { PutLeaves result disk.old disk.new }
        ensures cause { result ≡ Err JournalFault.Disk → HasRisen (D.failures disk.old) (D.failures disk.new) }
    {
        let size = drop_size(seqs);
        if !self.fits(size) {
            return self.put_snapshot(disk, &Change::Drop(seqs), self.version, self.next);
        }
        let record = drop_record(self.alloc(), seqs, size)?;
        self.put_behind(disk, &record)
    }

    // Puts the record of a pin, or writes the journal anew with it. The flag is not set yet. It takes no memory if the
    // record fits after the others.
    fn put_pin<D: Disk>(
        &self,
        disk: &mut D,
        seq: u32,
        flag: bool,
    ) -> Result<JournalEnd, JournalFault>
        requires keeps { Keeps D.Disk disk.old self.now }
        requires runs { self.now.stopped ≡ false }
        requires sound { MayFollow self.now.standing (Pin seq flag) }
        ensures step { PutStep self.now.standing (Pin seq flag) result }
        ensures never { result ≡ Err JournalFault.OutOfMemory → fits self.now.standing (Pin seq flag) ≡ false }
        ensures run { RunsAppend D.Disk disk.old disk.new self.now.standing (Pin seq flag) }
        ensures kept { OnOk result (Keeps D.Disk disk.new (after_append self.now (Pin seq flag))) }
        ensures untouched { PutLeaves result disk.old disk.new }
        ensures cause { result ≡ Err JournalFault.Disk → HasRisen (D.failures disk.old) (D.failures disk.new) }
    {
        if !self.fits(PIN_SIZE) {
            return self.put_snapshot(disk, &Change::Pin(seq, flag), self.version, self.next);
        }
        self.put_behind(disk, &pin_record(seq, flag))
    }

    /// Appends the Store record of a case, which gets the next number. A refusal returns the entry, and all
    /// but `Disk` leave the journal and the disk as they are. Answers, in this order: `Stopped`; `JournalFull`
    /// if neither the record nor the cases with it, written anew into the other half, have room;
    /// `NumbersSpent` if the next number is 2^32; `OutOfMemory`; `Disk`, after which the journal is stopped.
    pub fn append_store<D: Disk>(
        &mut self,
        disk: &mut D,
        entry: Entry,
    ) -> Result<u32, (JournalFault, Entry)>
        requires keeps { Keeps D.Disk disk.old self.old }
        requires storable { MayStore self.old.standing (case_of entry) }
        ensures step { StoreStep self.old (case_of entry) result self.new }
        ensures handed_back { IfErr result (λ e. e.1 ≡ entry) }
        // A refusal leaves the disk as it is, unless the disk failed.
        ensures untouched { StoreRefusalLeaves result disk.old disk.new }
        // Crash-safe at every moment: a crash since the start leaves bytes that encode the cases before or after.
        ensures any_moment { IsTrue (D.is_honest disk.old) → self.old.stopped ≡ false
            → LeavesEither D.Disk disk.old disk.new self.old.standing (store_of self.old.standing (case_of entry)) }
        // Then it leaves bytes that encode those that the journal shows, unless it is stopped.
        ensures keeps { Keeps D.Disk disk.new self.new }
        // No byte outside the two halves is changed.
        ensures outside { IsTrue (D.is_honest disk.old)
            → LeavesOutside D.Disk disk.old disk.new self.old.standing }
        ensures others { IsTrue (D.is_honest disk.old)
            → SameOutside 4096 (2 * half_length self.old.standing.shape) (D.seen disk.old) (D.seen disk.new) }
        // It writes only one of the two halves: after the records of the taken one, or in the other.
        ensures written { self.old.stopped ≡ false
            → Fills D.Disk disk.old disk.new (written_at self.old.standing (store_of self.old.standing (case_of entry))) (written_long self.old.standing (store_of self.old.standing (case_of entry))) }
        ensures disk { KeepsDisk D.Disk disk.old disk.new (IsStoreDiskFault result) }
    {
        if self.stopped {
            return Err((JournalFault::Stopped, entry));
        }
        let size = store_size(&entry);
        if let Err(fault) = self.check_fit(&entry, size) {
            return Err((fault, entry));
        }
        if self.next > u64::from(u32::MAX) {
            return Err((JournalFault::NumbersSpent, entry));
        }
        let seq = self.next as u32;
        let Ok(()) = self.entries.reserve() else {
            return Err((JournalFault::OutOfMemory, entry));
        };
        match self.put_store(disk, seq, &entry, size) {
            Ok(place) => {
                (self.half, self.generation, self.used) = (
                    place.half,
                    place.generation,
                    place.used,
                );
                self.next += 1;
                self.entries.push(Entry { seq, ..entry });
                Ok(seq)
            }
            Err(fault) => {
                self.note_fault(fault);
                Err((fault, entry))
            }
        }
    }

    /// Appends the Drop record of cases, which are then gone. All faults but `Disk` leave the journal and the disk as they
    /// are. Answers, in this order: `Stopped`; `JournalFull` if the record does not fit after the others and no
    /// generation is left for the other half; `OutOfMemory`; `Disk`, after which the journal is stopped.
    pub fn append_drop<D: Disk>(&mut self, disk: &mut D, seqs: &[u32]) -> Result<(), JournalFault>
        requires keeps { Keeps D.Disk disk.old self.old }
        requires droppable { MayFollow self.old.standing (Drop seqs.now) }
        ensures step { AppendStep self.old (Drop seqs.now) result self.new }
        // The cases that are left have room: the journal is full only if no generation is left.
        ensures generation { result ≡ Err JournalFault.JournalFull → IsTrue (D.is_honest disk.old)
            → self.old.standing.generation + 1 ≡ 2 ^ 64 }
        ensures untouched { RefusalLeaves result disk.old disk.new }
        ensures any_moment { IsTrue (D.is_honest disk.old) → self.old.stopped ≡ false
            → LeavesEither D.Disk disk.old disk.new self.old.standing (Drop seqs.now) }
        ensures keeps { Keeps D.Disk disk.new self.new }
        ensures outside { IsTrue (D.is_honest disk.old)
            → LeavesOutside D.Disk disk.old disk.new self.old.standing }
        ensures others { IsTrue (D.is_honest disk.old)
            → SameOutside 4096 (2 * half_length self.old.standing.shape) (D.seen disk.old) (D.seen disk.new) }
        // It writes only one of the two halves: after the records of the taken one, or in the other.
        ensures written { self.old.stopped ≡ false
            → Fills D.Disk disk.old disk.new (written_at self.old.standing (Drop seqs.now)) (written_long self.old.standing (Drop seqs.now)) }
        ensures disk { KeepsDisk D.Disk disk.old disk.new (result ≡ Err JournalFault.Disk) }
    {
        if self.stopped {
            return Err(JournalFault::Stopped);
        }
        match self.put_drop(disk, seqs) {
            Ok(place) => {
                self.move_to(place);
                self.leave_out(seqs);
                Ok(())
            }
            Err(fault) => {
                self.note_fault(fault);
                Err(fault)
            }
        }
    }

    /// Appends the Pin record of a live case, which is then pinned or not. All faults but `Disk` leave the journal and the
    /// disk as they are. Answers, in this order: `Stopped`; `JournalFull` if neither the record nor the cases, written anew into the
    /// other half, have room; `OutOfMemory`, only if the record does not fit after the others; `Disk`, after which
    /// the journal is stopped.
    pub fn append_pin<D: Disk>(
        &mut self,
        disk: &mut D,
        seq: u32,
        flag: bool,
    ) -> Result<(), JournalFault>
        requires keeps { Keeps D.Disk disk.old self.old }
        requires pinnable { MayFollow self.old.standing (Pin seq flag) }
        ensures step { AppendStep self.old (Pin seq flag) result self.new }
        // It takes no memory if the record fits after the others.
        ensures never { result ≡ Err JournalFault.OutOfMemory → fits self.old.standing (Pin seq flag) ≡ false }
        ensures untouched { RefusalLeaves result disk.old disk.new }
        ensures any_moment { IsTrue (D.is_honest disk.old) → self.old.stopped ≡ false
            → LeavesEither D.Disk disk.old disk.new self.old.standing (Pin seq flag) }
        ensures keeps { Keeps D.Disk disk.new self.new }
        ensures outside { IsTrue (D.is_honest disk.old)
            → LeavesOutside D.Disk disk.old disk.new self.old.standing }
        ensures others { IsTrue (D.is_honest disk.old)
            → SameOutside 4096 (2 * half_length self.old.standing.shape) (D.seen disk.old) (D.seen disk.new) }
        // It writes only one of the two halves: after the records of the taken one, or in the other.
        ensures written { self.old.stopped ≡ false
            → Fills D.Disk disk.old disk.new (written_at self.old.standing (Pin seq flag)) (written_long self.old.standing (Pin seq flag)) }
        ensures disk { KeepsDisk D.Disk disk.old disk.new (result ≡ Err JournalFault.Disk) }
    {
        if self.stopped {
            return Err(JournalFault::Stopped);
        }
        match self.put_pin(disk, seq, flag) {
            Ok(place) => {
                self.move_to(place);
                self.pin_entry(seq, flag);
                Ok(())
            }
            Err(fault) => {
                self.note_fault(fault);
                Err(fault)
            }
        }
    }

    // The allocator of the entries.
    pub(crate) fn alloc(&self) -> Global {
        self.entries.allocator()
    }

    // Leaves out the entries of these numbers, which rise.
    fn leave_out(&mut self, seqs: &[u32])
        requires { Rise 0 seqs.now }
        ensures { self.new ≡ left self.old seqs.now }
    {
        self.entries.leave_out(seqs);
    }

    // Sets the flag of the entry of this number.
    fn pin_entry(&mut self, seq: u32, flag: bool)
        ensures { self.new ≡ repinned self.old seq flag }
    {
        self.entries.set_pin(seq, flag);
    }
}
