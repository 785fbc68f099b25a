// Cases, each with a place for its image.
ghost use Rattle.std.specs.Prelude.{◌≡◌, ◌+◌, ◌≤◌, ◌++◌, ◌∷◌, [], IfOk, OnOk, map};
ghost use Rattle.std.specs.List.{range_with_len};
ghost use Rattle.journal_layout.specs.Case.{case_of};
ghost use Rattle.journal_layout.specs.Soundness.{blocks_for};
ghost use Rattle.archive_care.specs.Placing.{AreWhole, IsPlaced, moved};

use crate::CopyFault;
use extents::{Run, RunList};
use journal_layout::{BLOCK, Entry, Label, Name};
use std::alloc::{AllocError, Global};

// The blocks that so many bytes need.
fn blocks_for(length: u64) -> u64
    ensures { result ≡ blocks_for length }
{
    length / BLOCK + u64::from(length % BLOCK > 0)
}

// One run, or none if it has no blocks.
fn one_run(alloc: Global, start: u32, count: u32) -> Result<RunList, AllocError>
    requires { start + count ≤ 16777216 }
    ensures { IfOk result (λ runs. runs ≡ range_with_len start count) }
{
    let mut runs = RunList::new(alloc);
    if count > 0 {
        runs.append(Run { start, count })?;
    }
    Ok(runs)
}

// The same case, with its image in the blocks of one run.
fn placed_at(alloc: Global, entry: &Entry, start: u32, count: u32) -> Result<Entry, AllocError>
    requires { start + count ≤ 16777216 }
    ensures { IfOk result (λ e. case_of e ≡ moved (range_with_len start count) (case_of entry.now)) }
{
    let runs = one_run(alloc, start, count)?;
    Ok(Entry {
        seq: entry.seq,
        kind: entry.kind,
        name: Name::try_from(entry.name.as_slice()).unwrap(),
        pid: entry.pid,
        signal: entry.signal,
        time: entry.time,
        pinned: entry.pinned,
        length: entry.length,
        runs,
        label: Label::try_from(entry.label.as_slice()).unwrap(),
    })
}

// Adds the same case, with its image in the blocks of one run.
fn add_placed(
    alloc: Global,
    placed: &mut Vec<Entry>,
    entry: &Entry,
    start: u32,
    count: u32,
) -> Result<(), AllocError>
    requires { start + count ≤ 16777216 }
    ensures { OnOk result (map case_of placed.new.items ≡ map case_of placed.old.items ++ moved (range_with_len start count) (case_of entry.now) ∷ []) }
{
    placed.push(placed_at(alloc, entry, start, count)?)?;
    Ok(())
}

/// The same cases, each with its image in one run of blocks right after the one before it, from the first data block on. Answers
/// `SpaceFull` if they take more than `data_blocks` blocks; `OutOfMemory`.
pub(crate) fn placed(
    alloc: Global,
    entries: &[Entry],
    data_blocks: u32,
) -> Result<Vec<Entry>, CopyFault>
    requires whole { AreWhole entries.now }
    requires limit { data_blocks ≤ 16777216 }
    ensures { IsPlaced data_blocks (map case_of entries.now) result }
{
    let mut placed = Vec::new(alloc);
    let mut start: u32 = 0;
    for entry in entries {
        let count = blocks_for(entry.length);
        if u64::from(data_blocks - start) < count {
            return Err(CopyFault::SpaceFull);
        }
        add_placed(alloc, &mut placed, entry, start, count as u32)?;
        start += count as u32;
    }
    Ok(placed)
}
