// The archive: its cases, and the streams on their way into it.
ghost use Rattle.std.specs.Prelude.{◌≡◌, ◌<◌, ◌≤◌, ◌+◌, [], ◌∷◌, ℕ, List, length, OnOk, IfOk, Err, Some, map, IsTrue, false};
ghost use Rattle.std.specs.Str.{bytes_eq};
ghost use Rattle.disk_model.specs.Moments.{LeavesOnly, AddsOnly};
ghost use Rattle.intake.specs.Durable.{Durable, StandsFor, FindsAgain, durable_of, durable_part, without, flagged, labelled, upgraded};
ghost use Rattle.intake.specs.Guarding.{Leaves, MayBeStored, MayBeRetired};
ghost use Rattle.journal_layout.specs.Case.{Case};
ghost use Rattle.journal_layout.specs.Standing.{Standing};
ghost use Rattle.journal_layout.specs.Stands.{Stands};
ghost use Rattle.case_journal.specs.Append.{MayFollow};
ghost use Rattle.case_journal.specs.Doubting.{DoubtsGates};
ghost use Rattle.journal_layout.specs.Record.{Drop};
ghost use Rattle.case_journal.specs.Viewing.{ShowsOpening, FindsStanding};
ghost use Rattle.disk_model.specs.Disk.{HasRisen};
ghost use Rattle.intake.specs.Growth.{IsDiskFault};
ghost use Rattle.intake.specs.Ending.{EndsStreams};
ghost use Rattle.intake.specs.Names.{items_of, names_gone};
ghost use Rattle.journal_layout.specs.Soundness.{IsName, case_numbered};
ghost use Rattle.intake.specs.Front.{KeepsSuperblock};
ghost use Rattle.intake.specs.Untouched.{RefusalSpares};

use crate::ArchiveFault;
use crate::blocks::{append_case, grow, release, seal, stops};
use crate::buffer::Buffer;
use crate::dropping::{hold_listed, release_listed};
use crate::names::{
    copied, forget_name, forget_names, has_name, is_name_kept, keep_name, names_of,
};
use crate::opening::open_parts;
use crate::part::read_part;
use crate::ranges::{ByteRange, ranges_of};
use crate::reading::read_image;
use crate::retiring::decide_for;
use crate::slots::Slots;
use crate::space::Space;
use crate::stream::Stream;
use case_journal::Journal;
use disk_model::Disk;
use extents::{FreeMap, RunList};
use journal_layout::{Entry, Kind, Name, OpenFault};
use journal_records::NameKey;
use retention::{Decision, Policy, a_decision_is_one};
use std::alloc::Global;
use std::collections::BTreeSet;
use std::marker::Model;

/// How an archive is opened.
#[derive(Clone, Copy, Debug, PartialEq, Eq)]
pub struct Settings {
    /// The most bytes that an image may have.
    pub limit: u64,
}

/// An open archive over a disk: its cases, and the streams on their way into it. Contracts see it as the disk, the
/// content of its journal and the streams by slot.
#[derive(Drop)]
pub struct Archive<D: Disk> {
    disk: D,
    journal: Journal,
    alloc: Global,
    settings: Settings,
    // The names of the cases and of the open streams.
    names: BTreeSet<NameKey>,
    // The data blocks that no case and no stream has.
    free: FreeMap,
    slots: Slots,
    // Whether a disk fault has stopped it.
    stopped: bool,
}

impl<D: Disk> Model for Archive<D> {
    ghost use Rattle.intake.specs.Parts.{Parts};

    ghost Value = { Parts D };

    ghost use Rattle.intake.specs.Names.{IsConsistent};

    ghost view = { λ a. record {
      disk = a.disk;
      journal = a.journal;
      limit = a.settings.limit;
      streams = a.slots;
      stopped = a.stopped;
    } };

    ghost invariant = { λ a. IsConsistent D.Disk a.disk a.journal a.settings.limit a.free a.slots a.stopped a.names };
}

impl<D: Disk> Archive<D> {
    ghost use Rattle.intake.specs.Parts.{Parts, StreamParts, state_of, contents_of};
    ghost use Rattle.intake.specs.State.{ArchiveState, StreamFacts};
    ghost use Rattle.intake.specs.Step.{RoomReply, FreeReply, VersionReply, DropStep, IsLastGeneration};
    ghost use Rattle.intake.specs.Contents.{DropBytes};
    ghost use Rattle.intake.specs.Opened.{CaseReply, CasesReply};
    ghost use Rattle.intake.specs.Calls.{OpenCall, BeginCall, AdvanceCall, FinishCall, AbandonCall, PinCall, LabelCall, UpgradeCall, DeleteCall, RetireCall, RetireForCall, ImageCall, CloseCall, Changes};
    ghost use Rattle.intake.specs.Part.{PartCall};
    ghost use Rattle.intake.specs.Ranges.{RangesReply};
    ghost use Rattle.intake.specs.Retiring.{NameReply};
    ghost use Rattle.intake.specs.Room.{LendsRoom, room_of, FitsFree};
    ghost use Rattle.intake.specs.Needs.{lacks_record_room};
    ghost use Rattle.intake.specs.Slots.{stream_at};
    ghost use Rattle.std.specs.Borrow.{sem};

    /// Opens the archive on a disk; no stream is open. A refusal hands the disk back: the first check of the layout that
    /// fails, or `Disk`, or `OutOfMemory`.
    pub fn open(alloc: Global, disk: D, settings: Settings) -> Result<Archive<D>, (OpenFault, D)>
        ensures { OpenCall D.Disk settings.limit disk result }
    {
        let mut disk = disk;
        match open_parts(alloc, &mut disk) {
            Ok((opened, slots)) => Ok(Archive {
                disk,
                journal: opened.journal,
                alloc,
                settings,
                names: opened.names,
                free: opened.free,
                slots,
                stopped: false,
            }),
            Err(fault) => Err((fault, disk)),
        }
    }

    /// The cases, in the order of their numbers. Answers `Stopped` alone.
    pub fn cases(&self) -> Result<&[Entry], ArchiveFault>
        ensures { CasesReply self.now result }
    {
        if self.stopped {
            return Err(ArchiveFault::Stopped);
        }
        Ok(self.journal.entries())
    }

    /// The case of a number, without its image. Answers `Stopped`; `NoCase`.
    pub fn case(&self, seq: u32) -> Result<&Entry, ArchiveFault>
        ensures { CaseReply self.now seq result }
    {
        if self.stopped {
            return Err(ArchiveFault::Stopped);
        }
        match self.journal.entry(seq) {
            Some(entry) => Ok(entry),
            None => Err(ArchiveFault::NoCase),
        }
    }

    /// How many data blocks are free, and how many there are. Answers `Stopped` alone.
    pub fn free_blocks(&self) -> Result<Space, ArchiveFault>
        ensures { FreeReply (state_of self.now) result }
    {
        if self.stopped {
            return Err(ArchiveFault::Stopped);
        }
        Ok(Space {
            free: self.free.free(),
            data_blocks: self.journal.shape().data_blocks,
        })
    }

    /// Begins a stream with no bytes in a slot. Answers, in this order: `Stopped`; `BadSlot`; `SlotBusy`; `NameTaken`;
    /// `OutOfMemory`. A refusal changes nothing.
    pub fn begin(
        &mut self,
        slot: u8,
        kind: Kind,
        name: Name,
        pid: u32,
        signal: u32,
        time: u64,
    ) -> Result<(), ArchiveFault>
        requires name { IsName name.items }
        ensures { BeginCall D.Disk self.old slot
            (record {
              origin = record { kind = kind; name = name.items; pid = pid; signal = signal; time = time };
              len = 0;
              blocks = [];
            }) result self.new }
    {
        if self.stopped {
            return Err(ArchiveFault::Stopped);
        }
        if slot > 7 {
            return Err(ArchiveFault::BadSlot);
        }
        if self.slots.is_open(slot) {
            return Err(ArchiveFault::SlotBusy);
        }
        if has_name(&self.names, &name) {
            return Err(ArchiveFault::NameTaken);
        }
        let block = Buffer::zeros(self.alloc)?;
        keep_name(&mut self.names, &name)?;
        self.slots.put(
            slot,
            Stream {
                kind,
                name,
                pid,
                signal,
                time,
                length: 0,
                runs: RunList::new(self.alloc),
            },
            block,
        );
        Ok(())
    }

    /// Gives the caller the free part of the block that the stream in a slot fills, which is at least one byte; after a
    /// refusal the slice is empty. Answers, in this order: `Stopped`; `NoStream`.
    pub fn room(&mut self, slot: u8) -> (Result<(), ArchiveFault>, &mut [u8])
        ensures* writes_back { sem 𝓛 (LendsRoom D.row D.Disk self.entry slot result) }
        ensures reply { RoomReply (state_of self.old) slot result.0 }
        ensures lent { result.1.now ≡ room_of self.old slot result.0 }
        ensures never_empty { OnOk result.0 (0 < length result.1.now) }
        ensures fits { OnOk result.0 (FitsFree (stream_at self.old.streams slot)
            (length result.1.now)) }
    {
        self.slots.lend(self.stopped, slot)
    }

    /// Takes the first `n` bytes of the free part as they are. A block that is full is written, and the free part is
    /// zeros again. Answers, in this order: `Stopped`; `NoStream`; `TooLong` if the image would pass the limit;
    /// `SpaceFull` if a block is full and none is free; `OutOfMemory`; `Disk`. All but the first two drop the stream.
    pub fn advance(&mut self, slot: u8, n: usize) -> Result<(), ArchiveFault>
        requires { FitsFree (stream_at self.old.streams slot) n }
        ensures { AdvanceCall D.Disk self.old slot n result self.new }
    {
        if self.stopped {
            return Err(ArchiveFault::Stopped);
        }
        let Some((mut stream, mut block)) = self.slots.take(self.alloc, slot) else {
            return Err(ArchiveFault::NoStream);
        };
        let shape = self.journal.shape();
        let limit = self.settings.limit;
        let grown = grow(
            &mut self.disk,
            shape,
            limit,
            &mut self.free,
            &mut stream,
            &mut block,
            n,
        );
        if let Err(fault) = grown {
            forget_name(&mut self.names, &stream.name);
            release(&mut self.free, stream.runs);
            self.stopped = end_streams(fault, &mut self.slots);
            return Err(fault);
        }
        self.slots.put(slot, stream, block);
        Ok(())
    }

    /// Makes the stream in a slot the last case, and answers its number. Bytes that fill no block are written to one with
    /// zeros after them, all is made stable, and then the case's record is appended. Answers, in this order: `Stopped`;
    /// `NoStream`; `SpaceFull`; `OutOfMemory`; `Disk`; `JournalFull` if neither the record nor the cases with this one,
    /// written anew, have room; `NumbersSpent`; `OutOfMemory`; `Disk`. All but the first two drop the stream.
    pub fn finish(&mut self, slot: u8) -> Result<u32, ArchiveFault>
        ensures { FinishCall D.Disk self.old slot result self.new }
    {
        if self.stopped {
            return Err(ArchiveFault::Stopped);
        }
        let Some((mut stream, mut block)) = self.slots.take(self.alloc, slot) else {
            return Err(ArchiveFault::NoStream);
        };
        let shape = self.journal.shape();
        let sealed = seal(
            &mut self.disk,
            shape,
            &mut self.free,
            &mut stream,
            &mut block,
        );
        if let Err(fault) = sealed {
            forget_name(&mut self.names, &stream.name);
            release(&mut self.free, stream.runs);
            self.stopped = end_streams(fault, &mut self.slots);
            return Err(fault);
        }
        let entry = stream.into_entry();
        match append_case(
            &mut self.journal,
            &mut self.disk,
            &mut self.names,
            &mut self.free,
            entry,
        ) {
            Ok(seq) => Ok(seq),
            Err(fault) => {
                self.stopped = end_streams(fault, &mut self.slots);
                Err(fault)
            }
        }
    }

    /// Whether the record of the case that the stream in a slot becomes has no room in the journal, if its image lies in one run of
    /// blocks more than the stream has: after the records that are there, or after the cases that are written anew. So `finish` may be
    /// refused as `JournalFull`; if it has, `finish` is refused so only if no generation is left. False if no stream is there.
    pub fn lacks_record_room(&self, slot: u8) -> bool
        ensures { result ≡ lacks_record_room (state_of self.now) slot }
    {
        match self.slots.longest_record(slot) {
            Some(size) => !self.journal.has_room(size),
            None => false,
        }
    }

    /// Drops the stream in a slot. Answers, in this order: `Stopped`; `NoStream`.
    pub fn abandon(&mut self, slot: u8) -> Result<(), ArchiveFault>
        ensures { AbandonCall D.Disk self.old slot result self.new }
    {
        if self.stopped {
            return Err(ArchiveFault::Stopped);
        }
        let Some((dropped, _)) = self.slots.take(self.alloc, slot) else {
            return Err(ArchiveFault::NoStream);
        };
        forget_name(&mut self.names, &dropped.name);
        release(&mut self.free, dropped.runs);
        Ok(())
    }

    /// Pins a case, which keeps it from deletion, or unpins it; nothing is written if the flag is set so already. Answers,
    /// in this order: `Stopped`; `NoCase`; `JournalFull`; `OutOfMemory`, only if the journal is written anew; `Disk`. All
    /// but the last change nothing.
    pub fn pin(&mut self, seq: u32, flag: bool) -> Result<(), ArchiveFault>
        ensures { PinCall D.Disk self.old seq flag result self.new }
    {
        if self.stopped {
            return Err(ArchiveFault::Stopped);
        }
        let Some(entry) = self.journal.entry(seq) else {
            return Err(ArchiveFault::NoCase);
        };
        if entry.pinned == flag {
            return Ok(());
        }
        let Err(fault) = self.journal.append_pin(&mut self.disk, seq, flag) else {
            return Ok(());
        };
        let fault = ArchiveFault::from(fault);
        self.stopped = end_streams(fault, &mut self.slots);
        Err(fault)
    }

    /// Gives a case a label; nothing is written if it has that label already. Answers, in this order: `Stopped`;
    /// `NoCase`; `OldVersion` if the archive has version 1 of the layout, which keeps no labels; `JournalFull`;
    /// `OutOfMemory`; `Disk`. All but the last change nothing.
    pub fn label(&mut self, seq: u32, text: &[u8]) -> Result<(), ArchiveFault>
        requires short { length text.now ≤ 64 }
        ensures { LabelCall D.Disk self.old seq text.now result self.new }
    {
        if self.stopped {
            return Err(ArchiveFault::Stopped);
        }
        let Some(entry) = self.journal.entry(seq) else {
            return Err(ArchiveFault::NoCase);
        };
        if self.journal.version() == 1 {
            return Err(ArchiveFault::OldVersion);
        }
        if has_label(entry, text) {
            return Ok(());
        }
        let Err(fault) = self.journal.append_label(&mut self.disk, seq, text) else {
            return Ok(());
        };
        let fault = ArchiveFault::from(fault);
        self.stopped = end_streams(fault, &mut self.slots);
        Err(fault)
    }

    /// The version of the archive's layout: 1, or 2, which keeps labels. Answers `Stopped` alone.
    pub fn version(&self) -> Result<u32, ArchiveFault>
        ensures { VersionReply (state_of self.now) result }
    {
        if self.stopped {
            return Err(ArchiveFault::Stopped);
        }
        Ok(self.journal.version())
    }

    /// Writes the cases anew in version 2 of the layout, which keeps labels; no case has one yet. On an archive of version 2
    /// nothing is written. Answers, in this order: `Stopped`; `JournalFull` if the cases, written anew, have no room, or
    /// no generation is left for them; `OutOfMemory`; `Disk`. All but the last change nothing.
    pub fn upgrade(&mut self) -> Result<(), ArchiveFault>
        ensures { UpgradeCall D.Disk self.old result self.new }
    {
        if self.stopped {
            return Err(ArchiveFault::Stopped);
        }
        let Err(fault) = self.journal.upgrade(&mut self.disk) else {
            return Ok(());
        };
        let fault = ArchiveFault::from(fault);
        self.stopped = end_streams(fault, &mut self.slots);
        Err(fault)
    }

    // Drops the cases of these numbers and names, which may be dropped. Answers, in this order: `JournalFull`; `OutOfMemory`; `Disk`.
    fn drop_cases(&mut self, seqs: &[u32], names: &[Name]) -> Result<(), ArchiveFault>
        requires names { map items_of names.now ≡ names_gone seqs.now self.old.journal.standing.cases }
        requires runs { self.old.stopped ≡ false }
        requires may { MayFollow self.old.journal.standing (Drop seqs.now) }
        ensures step { DropStep (state_of self.old) seqs.now result (state_of self.new) }
        ensures bytes { IsTrue (D.is_honest self.old.disk)
            → DropBytes (state_of self.old) (contents_of D.seen self.old) seqs.now result
            (contents_of D.seen self.new) }
        ensures changes { Changes (Unit {0}) D.Disk self.old result self.new
            (λ x. x ≡ without (durable_of D.seen self.old) seqs.now) }
        ensures full { IsTrue (D.is_honest self.old.disk) → result ≡ Err ArchiveFault.JournalFull
            → IsLastGeneration (state_of self.old) }
        ensures untouched { RefusalSpares result self.old.disk self.new.disk }
        ensures superblock { KeepsSuperblock D.Disk self.old.disk self.new.disk }
    {
        release_listed(&mut self.free, &self.journal, seqs);
        let Err(fault) = self.journal.append_drop(&mut self.disk, seqs) else {
            forget_names(&mut self.names, names);
            return Ok(());
        };
        hold_listed(&mut self.free, &self.journal, seqs);
        let fault = ArchiveFault::from(fault);
        self.stopped = end_streams(fault, &mut self.slots);
        Err(fault)
    }

    /// Drops a case that is not pinned; its blocks are free then. Answers, in this order: `Stopped`; `NoCase`; `Pinned`;
    /// `JournalFull`, on an honest disk only if no generation is left for writing the journal anew; `OutOfMemory`; `Disk`.
    /// All but the last change nothing.
    pub fn delete(&mut self, seq: u32) -> Result<(), ArchiveFault>
        ensures { DeleteCall D.Disk self.old seq result self.new }
    {
        if self.stopped {
            return Err(ArchiveFault::Stopped);
        }
        let Some(entry) = self.journal.entry(seq) else {
            return Err(ArchiveFault::NoCase);
        };
        if entry.pinned {
            return Err(ArchiveFault::Pinned);
        }
        let name = copied(&entry.name);
        self.drop_cases(&[seq], &[name])
    }

    /// Drops the cases that the rule drops under this policy, and returns the rule's decision; nothing is written if it drops
    /// no case. Answers, in this order: `Stopped`; `OutOfMemory`; `JournalFull`, as a deletion does; `OutOfMemory`; `Disk`. All
    /// but the last change nothing.
    pub fn retire(&mut self, policy: &Policy) -> Result<Decision, ArchiveFault>
        ensures { RetireCall D.Disk self.old policy.now result self.new }
    {
        if self.stopped {
            return Err(ArchiveFault::Stopped);
        }
        let decision = decide_for(self.alloc, self.journal.entries(), policy)?;
        if decision.dropped.is_empty() {
            return Ok(decision);
        }
        let seqs = decision.dropped.as_slice();
        let names = names_of(self.alloc, self.journal.entries(), seqs)?;
        self.drop_cases(seqs, &names)?;
        Ok(decision)
    }

    // Whether a case that stays under this policy has the name. Answers `Stopped`; `OutOfMemory`.
    fn keeps_name(&self, policy: &Policy, name: &Name) -> Result<bool, ArchiveFault>
        ensures { NameReply (state_of self.now) policy.now name.now.items result }
    {
        if self.stopped {
            return Err(ArchiveFault::Stopped);
        }
        let decision = decide_for(self.alloc, self.journal.entries(), policy)?;
        let seqs = decision.dropped.as_slice();
        Ok(is_name_kept(self.journal.entries(), seqs, name))
    }

    /// Drops the cases that the rule drops under this policy, as `retire` does, to make room for a stream of this name.
    /// If a case that stays has the name, no such stream can begin: nothing is done, and there is no answer.
    pub fn retire_for(
        &mut self,
        policy: &Policy,
        name: &Name,
    ) -> Option<Result<Decision, ArchiveFault>>
        ensures { RetireForCall D.Disk self.old policy.now name.now.items result self.new }
    {
        a_decision_is_one();
        let _ = &self.disk;
        let is_kept = match self.keeps_name(policy, name) {
            Ok(is_kept) => is_kept,
            Err(fault) => return Some(Err(fault)),
        };
        if is_kept {
            return None;
        }
        Some(self.retire(policy))
    }

    /// The allocator that it takes memory from.
    pub fn allocator(&self) -> Global {
        self.alloc
    }

    /// Whether a disk fault has stopped it. Unless one has, a disk
    /// that a crash leaves now encodes the cases that it shows.
    pub fn is_stopped(&self) -> bool
        ensures value { result ≡ self.now.stopped }
        ensures stands { result ≡ false → IsTrue (D.is_honest self.now.disk) → (c : List ℕ) → D.may_leave self.now.disk c
            → StandsFor c (durable_of D.seen self.now) }
        // Stopped or not, and so wherever a life of it ends: all that reads give and the device may not have is in gates that a settling writes
        // again, or is read by no opening.
        ensures doubts { IsTrue (D.is_honest self.now.disk) → DoubtsGates D.Disk self.now.disk self.now.journal.standing.shape }
    {
        self.stopped
    }

    /// The bytes of a case's image. Their memory is taken before the first read of the disk, and each run of blocks is read
    /// at once. Answers, in this order: `Stopped`; `NoCase`; `OutOfMemory`; `Disk`. All but the last change nothing.
    pub fn image(&mut self, seq: u32) -> Result<Vec<u8>, ArchiveFault>
        ensures { ImageCall D.Disk self.old seq result self.new }
    {
        if self.stopped {
            return Err(ArchiveFault::Stopped);
        }
        let Some(stored) = self.journal.entry(seq) else {
            return Err(ArchiveFault::NoCase);
        };
        let shape = self.journal.shape();
        match read_image(self.alloc, &mut self.disk, shape, stored) {
            Ok(image) => Ok(image),
            Err(fault) => {
                self.stopped = end_streams(fault, &mut self.slots);
                Err(fault)
            }
        }
    }

    /// Reads the bytes of a case's image from place `at` on into all of `into`. It takes no memory. Answers, in this order:
    /// `Stopped`; `NoCase`; `Disk`. All but the last change nothing.
    pub fn image_part(&mut self, seq: u32, at: u64, into: &mut [u8]) -> Result<(), ArchiveFault>
        requires { (c : Case) → case_numbered seq (state_of self.old).cases ≡ Some c → at + length into.old ≤ c.len }
        ensures { PartCall D.Disk self.old seq at (length into.old) result into.new self.new }
    {
        if self.stopped {
            return Err(ArchiveFault::Stopped);
        }
        let Some(stored) = self.journal.entry(seq) else {
            return Err(ArchiveFault::NoCase);
        };
        let shape = self.journal.shape();
        match read_part(&mut self.disk, shape, stored.runs.runs(), at, into) {
            Ok(()) => Ok(()),
            Err(fault) => {
                self.stopped = end_streams(fault, &mut self.slots);
                Err(fault)
            }
        }
    }

    /// The ranges of the disk that have the bytes of a case's image, in order: so they can be read piece by piece once the archive
    /// is closed, as long as nothing is written to the disk. Answers, in this order: `Stopped`; `NoCase`; `OutOfMemory`.
    pub fn image_ranges(&self, seq: u32) -> Result<Vec<ByteRange>, ArchiveFault>
        ensures { RangesReply D.Disk self.now seq result }
    {
        if self.stopped {
            return Err(ArchiveFault::Stopped);
        }
        let Some(stored) = self.journal.entry(seq) else {
            return Err(ArchiveFault::NoCase);
        };
        let shape = self.journal.shape();
        let ranges = ranges_of(self.alloc, shape, stored.runs.runs(), stored.length)?;
        Ok(ranges)
    }

    /// Lets the disk go. Unless a disk fault has stopped the archive, opening it again finds the cases that it showed.
    pub fn close(self) -> D
        ensures { CloseCall D.Disk self result }
    {
        let Archive { disk, .. } = self;
        disk
    }
}

// Whether the case has this label.
fn has_label(entry: &Entry, text: &[u8]) -> bool
    ensures { result ≡ bytes_eq entry.now.label.items text.now }
{
    entry.label.as_slice() == text
}

// After a refusal: a disk fault closes all streams and stops the archive.
fn end_streams(fault: ArchiveFault, slots: &mut Slots) -> bool
    ensures { EndsStreams fault slots.old result slots.new }
{
    let stopped = stops(fault);
    if stopped {
        slots.close_all();
    }
    stopped
}
