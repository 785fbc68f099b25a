// Blocks of an image, as they are written.
ghost use Rattle.std.specs.Prelude.{◌≡◌, ◌≢◌, ◌+◌, ◌*◌, ◌%◌, ◌/◌, ◌<◌, ◌≤◌, ◌++◌, ◌∷◌, ◌^◌, [], length, IsTrue, OnOk, OnErr, ℕ};
ghost use Rattle.disk_model.specs.Places.{overwritten, SameOutside};
ghost use Rattle.extents.specs.FreeSet.{free_count};
ghost use Rattle.journal_layout.specs.Layout.{IsWithinLimits, disk_length, half_length};
ghost use Rattle.case_journal.specs.Journaled.{Journaled};
ghost use Rattle.disk_model.specs.Moments.{LeavesOnly, IsSettled};
ghost use Rattle.disk_model.specs.Keeping.{KeepsDisk};
ghost use Rattle.intake.specs.Durable.{durable_in};
ghost use Rattle.intake.specs.Guarding.{Guards, LeavesCases, UsesNoFreeBlock, LeavesStored};
ghost use Rattle.intake.specs.Live.{case_uses};
ghost use Rattle.journal_layout.specs.Rewriting.{appended};
ghost use Rattle.journal_layout.specs.Standing.{store_of};
ghost use Rattle.std.specs.Prelude.{false};
ghost use Rattle.intake.specs.Balance.{AreFree, AreHeld, Balances};
ghost use Rattle.intake.specs.Blocks.{block_start, block_bytes};
ghost use Rattle.intake.specs.Growth.{DiskReply, BlockReply, IsDiskFault, ChangesFree, Adds, AddsLowest, Grows, GrowsBytes, NeedsBlock, stops_at};
ghost use Rattle.case_journal.specs.Append.{MayStore};
ghost use Rattle.journal_layout.specs.Case.{case_of};
ghost use Rattle.intake.specs.Closing.{ClosesStream, ClosesBytes, ClosesPadded, Appends, GivesBack};
ghost use Rattle.intake.specs.Sound.{IsFine};
ghost use Rattle.intake.specs.StreamView.{parts_of};
ghost use Rattle.intake.specs.Names.{GivesNameBack};
ghost use Rattle.intake.specs.Untouched.{RefusalSpares};

use crate::ArchiveFault;
use crate::buffer::Buffer;
use crate::names::forget_name;
use crate::stream::Stream;
use case_journal::{Journal, data_blocks_keep};
use disk_model::Disk;
use extents::{FreeMap, RunList};
use journal_layout::{BLOCK, Entry, Shape};
use journal_records::NameKey;
use std::collections::BTreeSet;

/// Where a data block begins on the disk, in bytes.
fn block_start(shape: Shape, block: u32) -> u64
    requires limits { IsWithinLimits shape }
    requires within { block < shape.data_blocks }
    ensures { result ≡ block_start shape block }
{
    shape.data_start() + BLOCK * u64::from(block)
}

// Writes a data block. Answers `Disk` alone.
fn write_data<D: Disk>(
    disk: &mut D,
    shape: Shape,
    block: u32,
    bytes: &[u8],
) -> Result<(), ArchiveFault>
    requires limits { IsWithinLimits shape }
    requires within { block < shape.data_blocks }
    requires disk { D.size disk.old ≡ disk_length shape }
    requires bytes { length bytes.now ≡ 4096 }
    ensures reply { DiskReply result }
    ensures written { IsTrue (D.is_honest disk.old) → OnOk result (D.seen disk.new
        ≡ overwritten (D.seen disk.old) (block_start shape block) bytes.now) }
    ensures others { IsTrue (D.is_honest disk.old)
        → SameOutside (block_start shape block) 4096 (D.seen disk.old) (D.seen disk.new) }
    ensures rests { (j : Journaled) → j.standing.shape ≡ shape → case_uses j.standing.cases block ≡ 0
        → Guards D.Disk disk.old j → LeavesCases D.Disk disk.old disk.new j }
    ensures disk { KeepsDisk D.Disk disk.old disk.new (IsDiskFault result) }
{
    data_blocks_keep();
    disk.write_at(block_start(shape, block), bytes)?;
    Ok(())
}

/// Gives the lowest free block to an image and writes it. Answers `SpaceFull` if no block is free, then `OutOfMemory`,
/// then `Disk`. Whatever the answer, the free blocks and the image's blocks together stay the same.
pub(crate) fn add_block<D: Disk>(
    disk: &mut D,
    shape: Shape,
    free: &mut FreeMap,
    runs: &mut RunList,
    bytes: &[u8],
) -> Result<(), ArchiveFault>
    requires limits { IsWithinLimits shape }
    requires disk { D.size disk.old ≡ disk_length shape }
    requires map { length free.old ≡ shape.data_blocks }
    requires bytes { length bytes.now ≡ 4096 }
    ensures reply { BlockReply (free_count free.old) result }
    ensures balance { Balances free.old runs.old free.new runs.new }
    ensures more { OnOk result (length runs.new ≡ length runs.old + 1) }
    ensures lowest { OnOk result (AddsLowest free.old runs.old runs.new) }
    ensures untouched { RefusalSpares result disk.old disk.new }
    ensures added { IsTrue (D.is_honest disk.old)
        → OnOk result (Adds shape free.old runs.old runs.new bytes.now (D.seen disk.old) (D.seen disk.new)) }
    ensures others { IsTrue (D.is_honest disk.old)
        → ChangesFree shape free.old (D.seen disk.old) (D.seen disk.new) }
    ensures rests { (j : Journaled) → j.standing.shape ≡ shape → UsesNoFreeBlock free.old j
        → Guards D.Disk disk.old j → LeavesCases D.Disk disk.old disk.new j }
    ensures disk { KeepsDisk D.Disk disk.old disk.new (IsDiskFault result) }
{
    let Some(run) = free.take(1) else {
        return Err(ArchiveFault::SpaceFull);
    };
    let Ok(()) = runs.append(run) else {
        free.give_back(&[run]);
        return Err(ArchiveFault::OutOfMemory);
    };
    write_data(disk, shape, run.start, bytes)
}

/// Whether a fault stops the archive: a disk fault does.
pub(crate) fn stops(fault: ArchiveFault) -> bool
    ensures { result ≡ stops_at fault }
{
    matches!(fault, ArchiveFault::Disk)
}

/// Takes the first `n` bytes of the free part of a stream's block, and writes the block if it is full.
pub(crate) fn grow<D: Disk>(
    disk: &mut D,
    shape: Shape,
    limit: u64,
    free: &mut FreeMap,
    stream: &mut Stream,
    block: &mut Buffer,
    n: usize,
) -> Result<(), ArchiveFault>
    requires limits { IsWithinLimits shape }
    requires disk { D.size disk.old ≡ disk_length shape }
    requires map { length free.old ≡ shape.data_blocks }
    requires fine { IsFine limit (parts_of block.old stream.old) }
    requires held { AreHeld free.old stream.old.runs }
    requires room { stream.old.length % 4096 + n ≤ 4096 }
    ensures step { Grows (free_count free.old) limit (parts_of block.old stream.old) n result
        (parts_of block.new stream.new) }
    ensures small { OnOk result (stream.old.length + n < 2 ^ 64) }
    ensures lowest { OnOk result (NeedsBlock stream.old.length n → AddsLowest free.old stream.old.runs stream.new.runs) }
    ensures untouched { RefusalSpares result disk.old disk.new }
    // Bytes that fill no block leave the disk as it is.
    ensures idle { OnOk result ((NeedsBlock stream.old.length n → ⊥) → disk.new ≡ disk.old) }
    ensures name { stream.new.name ≡ stream.old.name }
    ensures balance { Balances free.old stream.old.runs free.new stream.new.runs }
    ensures bytes { IsTrue (D.is_honest disk.old) → OnOk result (GrowsBytes shape (parts_of block.old stream.old) n
        (parts_of block.new stream.new) (D.seen disk.old) (D.seen disk.new)) }
    ensures others { IsTrue (D.is_honest disk.old)
        → ChangesFree shape free.old (D.seen disk.old) (D.seen disk.new) }
    ensures rests { (j : Journaled) → j.standing.shape ≡ shape → UsesNoFreeBlock free.old j
        → Guards D.Disk disk.old j → LeavesCases D.Disk disk.old disk.new j }
    ensures disk { KeepsDisk D.Disk disk.old disk.new (IsDiskFault result) }
{
    if n as u64 > limit - stream.length {
        return Err(ArchiveFault::TooLong);
    }
    if n == 0 || (stream.length % 4096) as usize + n < 4096 {
        stream.length += n as u64;
        return Ok(());
    }
    add_block(disk, shape, free, &mut stream.runs, block.bytes())?;
    block.clear_from(0);
    stream.length += n as u64;
    Ok(())
}

/// Writes the last block of a stream if it is part-filled, with zeros after its bytes, and makes all bytes that were
/// written stable.
pub(crate) fn seal<D: Disk>(
    disk: &mut D,
    shape: Shape,
    free: &mut FreeMap,
    stream: &mut Stream,
    block: &mut Buffer,
) -> Result<(), ArchiveFault>
    requires limits { IsWithinLimits shape }
    requires disk { D.size disk.old ≡ disk_length shape }
    requires map { length free.old ≡ shape.data_blocks }
    requires block { length block.old ≡ 4096 }
    requires filled { length stream.old.runs ≡ stream.old.length / 4096 }
    requires held { AreHeld free.old stream.old.runs }
    ensures step { ClosesStream (free_count free.old) (parts_of block.old stream.old) result
        (parts_of block.new stream.new) }
    ensures lowest { OnOk result ((stream.old.length % 4096 ≢ 0) → AddsLowest free.old stream.old.runs stream.new.runs) }
    ensures name { stream.new.name ≡ stream.old.name }
    ensures balance { Balances free.old stream.old.runs free.new stream.new.runs }
    ensures bytes { IsTrue (D.is_honest disk.old) → OnOk result (ClosesBytes shape (parts_of block.old stream.old)
        stream.new.runs (D.seen disk.old) (D.seen disk.new)) }
    ensures padded { IsTrue (D.is_honest disk.old) → OnOk result (ClosesPadded shape (parts_of block.old stream.old)
        stream.new.runs (D.seen disk.old) (D.seen disk.new)) }
    ensures untouched { RefusalSpares result disk.old disk.new }
    ensures others { IsTrue (D.is_honest disk.old)
        → ChangesFree shape free.old (D.seen disk.old) (D.seen disk.new) }
    ensures rests { (j : Journaled) → j.standing.shape ≡ shape → UsesNoFreeBlock free.old j
        → Guards D.Disk disk.old j → LeavesCases D.Disk disk.old disk.new j }
    ensures settled { IsTrue (D.is_honest disk.old) → OnOk result (IsSettled D.Disk disk.new) }
    ensures disk { KeepsDisk D.Disk disk.old disk.new (IsDiskFault result) }
{
    let used = (stream.length % 4096) as usize;
    if used == 0 {
        return make_stable(disk);
    }
    block.clear_from(used);
    add_block(disk, shape, free, &mut stream.runs, block.bytes())?;
    make_stable(disk)
}

// Makes all that was written stable. Answers `Disk` alone.
fn make_stable<D: Disk>(disk: &mut D) -> Result<(), ArchiveFault>
    ensures reply { DiskReply result }
    ensures seen { IsTrue (D.is_honest disk.old) → D.seen disk.new ≡ D.seen disk.old }
    ensures rests { (j : Journaled) → Guards D.Disk disk.old j → LeavesCases D.Disk disk.old disk.new j }
    // From then on a crash leaves exactly the bytes that reads give.
    ensures settled { IsTrue (D.is_honest disk.old) → OnOk result (IsSettled D.Disk disk.new) }
    ensures disk { KeepsDisk D.Disk disk.old disk.new (IsDiskFault result) }
{
    disk.sync()?;
    Ok(())
}

/// Appends the record of a case, which gets the next number. A refusal gives its blocks back and forgets its name.
pub(crate) fn append_case<D: Disk>(
    journal: &mut Journal,
    disk: &mut D,
    names: &mut BTreeSet<NameKey>,
    free: &mut FreeMap,
    entry: Entry,
) -> Result<u32, ArchiveFault>
    requires guards { Guards D.Disk disk.old journal.old }
    requires runs { journal.old.stopped ≡ false }
    requires settled { IsTrue (D.is_honest disk.old) → IsSettled D.Disk disk.old }
    requires storable { MayStore journal.old.standing (case_of entry) }
    requires held { AreHeld free.old entry.runs }
    ensures step { Appends journal.old (case_of entry) result journal.new }
    ensures names { GivesNameBack result entry.name.items names.old names.new }
    ensures free { GivesBack result free.old entry.runs free.new }
    ensures guards { Guards D.Disk disk.new journal.new }
    // Crash-safe at every moment: a crash leaves bytes that encode the cases before or after, if the disk was met.
    ensures any_moment { IsTrue (D.is_honest disk.old) → LeavesOnly D.Disk disk.old disk.new
        (LeavesStored result (durable_in (D.seen disk.old) journal.old.standing) (durable_in (D.seen disk.old) (appended journal.old.standing (store_of journal.old.standing (case_of entry))))) }
    ensures outside { IsTrue (D.is_honest disk.old)
        → SameOutside 4096 (2 * half_length journal.old.standing.shape) (D.seen disk.old) (D.seen disk.new) }
    // A refusal leaves the disk as it is, unless the disk failed.
    ensures spared { RefusalSpares result disk.old disk.new }
    ensures disk { KeepsDisk D.Disk disk.old disk.new (IsDiskFault result) }
{
    match journal.append_store(disk, entry) {
        Ok(seq) => Ok(seq),
        Err((fault, entry)) => {
            forget_name(names, &entry.name);
            release(free, entry.runs);
            Err(ArchiveFault::from(fault))
        }
    }
}

/// Gives the blocks of an image that is dropped back.
pub(crate) fn release(free: &mut FreeMap, runs: RunList)
    requires { AreHeld free.old runs }
    ensures { Balances free.old runs free.new [] }
{
    free.give_back(runs.runs());
}

/// Marks the blocks of an image as used.
pub(crate) fn hold(free: &mut FreeMap, runs: &RunList)
    requires { AreFree free.old runs.now }
    ensures { Balances free.old [] free.new runs.now }
{
    for run in runs.runs() {
        free.mark_used(*run).unwrap();
    }
}
