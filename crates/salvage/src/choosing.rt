// The choice of the cases that are copied, of those that records store, if not all go with one another.
ghost use Rattle.std.specs.Prelude.{◌≡◌, false, true, IsTrue};
ghost use Rattle.extents.specs.Runs.{blocks_of, run_blocks};
ghost use Rattle.journal_layout.specs.Case.{case_of};
ghost use Rattle.salvage.specs.Contests.{AreUsed, StayUsed, is_used};
ghost use Rattle.salvage.specs.Reads.{IsAmong, StayFrom, StayRead};

use crate::cases::{has_case, is_same_image};
use crate::records::{Fate, Read, Scan, Span};
use case_journal::Journal;
use extents::Run;
use journal_layout::Name;
use std::alloc::{AllocError, Global};
use std::collections::{BTreeMap, BTreeSet};

// The bytes of a half's header, of a Next record and of the closed gate behind that.
const AROUND: usize = 49;

// The cases in the order in which they are chosen.
#[derive(Clone, Copy, PartialEq, Eq)]
enum Rank {
    // It stands before the first fault, and no record that reads deletes it.
    Stands,
    // No record that reads deletes it.
    Lives,
    // One does.
    Deleted,
}

// The reads that are chosen already.
#[derive(Drop)]
struct Chosen {
    // Which read has a number.
    numbers: BTreeMap<u32, usize>,
    names: BTreeSet<Name>,
    blocks: Blocks,
    // The bytes that are left for records.
    left: usize,
}

/// Which data blocks are used.
#[derive(Drop)]
pub(crate) struct Blocks {
    used: Vec<bool>,
}

impl Blocks {
    /// None of so many.
    pub(crate) fn new(alloc: Global, count: u32) -> Result<Blocks, AllocError> {
        let used = vec![in alloc; false; count as usize]?;
        Ok(Blocks { used })
    }

    // Whether a block is used, or does not exist.
    fn is_used(&self, block: usize) -> bool
        ensures { result ≡ is_used self.now.used.items block }
    {
        match self.used.get(block) {
            Some(used) => *used,
            None => true,
        }
    }

    // Whether a block of a run is used, or does not exist.
    fn has_of(&self, run: Run) -> bool
        ensures { result ≡ false → AreUsed self.now.used.items false (run_blocks run) }
    {
        let start = run.start as usize;
        for block in start..start + run.count as usize {
            if self.is_used(block) {
                return true;
            }
        }
        false
    }

    /// Whether a block of these runs is used, or does not exist.
    pub(crate) fn has_any(&self, runs: &[Run]) -> bool
        ensures { result ≡ false → AreUsed self.now.used.items false (blocks_of runs.now) }
    {
        for run in runs {
            if self.has_of(*run) {
                return true;
            }
        }
        false
    }

    /// Uses the blocks of these runs.
    pub(crate) fn take(&mut self, runs: &[Run])
        ensures used { AreUsed self.new.used.items true (blocks_of runs.now) }
        ensures stay { StayUsed self.old.used.items self.new.used.items }
    {
        for run in runs {
            use_run(&mut self.used, *run);
        }
    }
}

// Marks the blocks of a run.
fn use_run(used: &mut Vec<bool>, run: Run)
    ensures used { AreUsed used.new.items true (run_blocks run) }
    ensures stay { StayUsed used.old.items used.new.items }
{
    let end = used.len().min(run.start as usize + run.count as usize);
    for block in run.start as usize..end {
        used[block] = true;
    }
}

// The bytes of the records that say a case.
fn size_of(read: &Read) -> usize {
    let store = read.place.end.saturating_sub(read.place.start);
    match read.label {
        Some(label) => store.saturating_add(label.end.saturating_sub(label.start)),
        None => store,
    }
}

/// The bytes of a half with the records of the cases that are copied, and with one of the next number.
pub(crate) fn size_chosen(reads: &[Read]) -> usize {
    let mut size = AROUND;
    for read in reads {
        if read.fate == Fate::Copied {
            size = size.saturating_add(size_of(read));
        }
    }
    size
}

impl Chosen {
    // The fate of a case, after those that were chosen before it.
    fn fate_of(&self, reads: &[Read], read: &Read) -> Fate {
        if let Some(other) = self.numbers.get(&read.entry.seq) {
            return match reads.get(*other) {
                Some(other) if is_same_image(&other.entry, &read.entry) => Fate::Same,
                _ => Fate::Number,
            };
        }
        if self.names.contains(&read.entry.name) {
            return Fate::Name;
        }
        if self.blocks.has_any(read.entry.runs.runs()) {
            return Fate::Block;
        }
        if size_of(read) > self.left {
            return Fate::Room;
        }
        Fate::Copied
    }

    // Takes a case that is copied.
    fn take(&mut self, index: usize, read: &Read) -> Result<(), AllocError> {
        self.numbers.insert(read.entry.seq, index)?;
        self.names.insert(read.entry.name.clone()?)?;
        self.blocks.take(read.entry.runs.runs());
        self.left = self.left.saturating_sub(size_of(read));
        Ok(())
    }
}

// The rank of a case.
fn rank_of(read: &Read, scan: &Scan, first: &Journal) -> Rank {
    if scan.deleting(read.entry.seq).is_some() {
        return Rank::Deleted;
    }
    if has_case(first, &read.entry) {
        return Rank::Stands;
    }
    Rank::Lives
}

/// Whether one of the reads before it in the list has the same case.
pub(crate) fn is_again(before: &[Read], read: &Read) -> bool
    ensures { IsTrue result → IsAmong before.now (case_of read.now.entry) }
{
    for back in 0..before.len() {
        let other = &before[before.len() - 1 - back];
        if other.entry.seq != read.entry.seq {
            return false;
        }
        if is_same_image(&read.entry, &other.entry) {
            return true;
        }
    }
    false
}

// Reports the fate of a case, if it has this rank.
fn choose_one(
    chosen: &mut Chosen,
    scan: &mut Scan,
    first: &Journal,
    rank: Rank,
    index: usize,
) -> Result<(), AllocError>
    ensures drops { scan.new.drops ≡ scan.old.drops }
    ensures dropped { scan.new.dropped ≡ scan.old.dropped }
    ensures stay { StayRead scan.old.reads.items scan.new.reads.items }
    ensures from { StayFrom scan.old.reads.items scan.new.reads.items }
{
    if index >= scan.reads.len() {
        return Ok(());
    }
    let read = &scan.reads[index];
    if rank_of(read, scan, first) != rank || is_again(&scan.reads[..index], read) {
        return Ok(());
    }
    let fate = chosen.fate_of(&scan.reads, read);
    if fate == Fate::Copied {
        chosen.take(index, read)?;
    }
    scan.reads[index].fate = fate;
    Ok(())
}

// Chooses among the cases of a rank, the later numbers first.
fn choose_of(
    chosen: &mut Chosen,
    scan: &mut Scan,
    first: &Journal,
    rank: Rank,
) -> Result<(), AllocError>
    ensures drops { scan.new.drops ≡ scan.old.drops }
    ensures dropped { scan.new.dropped ≡ scan.old.dropped }
    ensures stay { StayRead scan.old.reads.items scan.new.reads.items }
    ensures from { StayFrom scan.old.reads.items scan.new.reads.items }
{
    for index in 0..scan.reads.len() {
        choose_one(chosen, scan, first, rank, index)?;
    }
    Ok(())
}

// The later numbers come first, and of one number the records of the taken half.
fn order_of(read: &Read, taken: Span) -> (u32, bool, usize) {
    let is_other = read.place.start < taken.start || taken.end <= read.place.start;
    (u32::MAX - read.entry.seq, is_other, read.place.start)
}

/// Chooses which cases are copied into a half of so many bytes: first those that stand before the first fault and that no record
/// which reads deletes, then the others that none deletes, then those that are deleted. The later numbers come first. A case gives way
/// to those that were chosen before it if it has the number, the name or a block of one. `taken` are the records of the taken half that
/// stand.
pub(crate) fn choose(
    alloc: Global,
    scan: &mut Scan,
    first: &Journal,
    taken: Span,
    half: usize,
) -> Result<(), AllocError>
    ensures drops { scan.new.drops ≡ scan.old.drops }
    ensures dropped { scan.new.dropped ≡ scan.old.dropped }
    ensures stay { StayRead scan.old.reads.items scan.new.reads.items }
    ensures from { StayFrom scan.old.reads.items scan.new.reads.items }
{
    let mut chosen = Chosen {
        numbers: BTreeMap::new(alloc),
        names: BTreeSet::new(alloc),
        blocks: Blocks::new(alloc, first.shape().data_blocks)?,
        left: half.saturating_sub(AROUND),
    };
    scan.reads
        .sort_unstable_by_key(|read| order_of(read, taken));
    choose_of(&mut chosen, scan, first, Rank::Stands)?;
    choose_of(&mut chosen, scan, first, Rank::Lives)?;
    choose_of(&mut chosen, scan, first, Rank::Deleted)
}
