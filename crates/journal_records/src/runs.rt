// The runs of a Store record.
ghost use Rattle.std.specs.Prelude.{◌≡◌, ℕ, ◌+◌, ◌*◌, ◌^◌, ◌<◌, ◌≤◌, List, length};
ghost use Rattle.std.specs.Bool.{OnTrue};
ghost use Rattle.journal_layout.specs.Layout.{field};
ghost use Rattle.journal_layout.specs.Reading.{run_count_at};
ghost use Rattle.journal_layout.specs.Checks.{is_adjoining};
ghost use Rattle.journal_records.specs.Taken.{Accounts, TakesRun, TakesRuns};

use crate::{damaged, u32_at};
use extents::{FreeMap, Run, RunList};
use journal_layout::{Field, OpenFault};
use std::alloc::Global;

// The run at `place`.
fn run_at(rest: &[u8], place: usize) -> Run
    requires { place + 8 ≤ length rest.now }
    ensures { result ≡ record { start = field rest.now place 4; count = field rest.now (place + 4) 4 } }
{
    Run {
        start: u32_at(rest, place),
        count: u32_at(rest, place + 4),
    }
}

// Whether the run before ends where the run begins.
fn is_adjoining(end: Option<u32>, run: Run) -> bool
    ensures { result ≡ is_adjoining end run }
{
    match end {
        Some(end) => end == run.start,
        None => false,
    }
}

// Marks the blocks of a run after one that ends at `end`, unless there is something wrong with it.
fn take_run(free: &mut FreeMap, end: Option<u32>, run: Run) -> bool
    ensures taken { (used : List ℕ) → Accounts used free.old → TakesRun used free.old end run result free.new }
    ensures within { OnTrue result ((1 ≤ run.count) × (run.start + run.count ≤ length free.old)) }
    ensures size { length free.new ≡ length free.old }
{
    if run.count == 0 || is_adjoining(end, run) {
        return false;
    }
    match free.mark_used(run) {
        Ok(()) => true,
        Err(_) => false,
    }
}

/// The blocks of a Store record's runs, and how many they are. They are in use from here on.
pub(crate) fn read_runs(
    alloc: Global,
    free: &mut FreeMap,
    rest: &[u8],
    at: u64,
) -> Result<(RunList, u64), OpenFault>
    requires in_half { 48 + 8 * run_count_at rest.now ≤ length rest.now }
    requires disk { at + length rest.now ≤ 2 ^ 63 }
    requires limit { length free.old ≤ 16777216 }
    ensures taken { (used : List ℕ) → Accounts used free.old → TakesRuns at rest.now used free.old result free.new }
    ensures size { length free.new ≡ length free.old }
{
    let mut list = RunList::new(alloc);
    let mut blocks = 0;
    let mut end = None;
    for index in 0..u32_at(rest, 40) as usize {
        let place = 48 + 8 * index;
        let run = run_at(rest, place);
        if !take_run(free, end, run) {
            return Err(damaged(at, Field::Run, place));
        }
        let Ok(()) = list.append(run) else {
            return Err(OpenFault::OutOfMemory);
        };
        blocks += u64::from(run.count);
        end = Some(run.start + run.count);
    }
    Ok((list, blocks))
}
