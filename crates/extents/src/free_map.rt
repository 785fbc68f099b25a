// Which blocks are free, one bit for each block, and which words of these bits have a free one.
ghost use Rattle.std.specs.Prelude.{◌≡◌, ◌+◌, ◌≤◌, true, IfOk, length, replicate};
ghost use Rattle.extents.specs.FreeSet.{free_count, AllFree, AllUsed, Marks, TakesOrNone, AreUsed, without, with_blocks, with_runs, IsLowest, IsStretch};
ghost use Rattle.extents.specs.Runs.{run_blocks};

use crate::Run;
use crate::levels::{clear_bits, first_not_zero, free_at_start, set_bits};
use std::alloc::{AllocError, Global};
use std::marker::Model;
use thiserror::Error;

/// Why a run of blocks could not be marked as used.
#[derive(Clone, Copy, Debug, PartialEq, Eq, Error)]
pub enum UseFault {
    /// The run goes past the last block.
    #[error("the run goes past the last block")]
    OutOfRange,
    /// A block of the run is in use already.
    #[error("a block of the run is in use")]
    InUse,
}

/// The free blocks among an archive's data blocks. Contracts see it
/// as a list of flags, one for each block, true if the block is free.
#[derive(Drop)]
pub struct FreeMap {
    // A bit for each block, the lowest bit of the first word first, set if the block is free. The last word's bits past
    // the last block are not set.
    words: Vec<u64>,
    // The second level: a bit for each of the words, set if the word has a free block.
    groups: Vec<u64>,
    // The number of blocks.
    blocks: u32,
    // The number of free ones.
    free: u32,
    // No block of the groups before this one is free.
    first: usize,
}

impl Model for FreeMap {
    ghost use Rattle.std.specs.Prelude.{List, Bool};

    ghost Value = { List Bool };

    ghost use Rattle.extents.specs.FreeWords.{flags_of, IsMap};

    ghost view = { λ map. flags_of map.words.items map.blocks };

    ghost invariant = { λ map. IsMap map.words.items map.groups.items map.blocks map.free map.first };
}

impl FreeMap {
    /// A map of `count` blocks, at most 16,777,216 and all of them free. No other call takes memory.
    /// `AllocError`: there was no memory for it.
    pub fn new(alloc: Global, count: u32) -> Result<FreeMap, AllocError>
        requires { count ≤ 16777216 }
        ensures { IfOk result (λ flags. flags ≡ replicate count true) }
    {
        let words = vec![in alloc; 0; (count as usize + 63) / 64]?;
        let groups = vec![in alloc; 0; (words.len() + 63) / 64]?;
        let mut map = FreeMap {
            words,
            groups,
            blocks: count,
            free: 0,
            first: 0,
        };
        map.free_run(Run { start: 0, count });
        Ok(map)
    }

    /// Marks the blocks of `run`, of which there is at least one, as used. `OutOfRange`: the run goes past the last block.
    /// `InUse`: it does not, and some block of it is not free. After either the map is as it was.
    pub fn mark_used(&mut self, run: Run) -> Result<(), UseFault>
        requires { 1 ≤ run.count }
        ensures { Marks self.old run result self.new }
    {
        if u64::from(run.start) + u64::from(run.count) > u64::from(self.blocks) {
            return Err(UseFault::OutOfRange);
        }
        if self.stretch(run.start, run.count) < run.count {
            return Err(UseFault::InUse);
        }
        self.use_run(run);
        Ok(())
    }

    /// Takes up to `want` blocks, at least one: from the lowest free block on, as many as are free without a gap. `None`:
    /// no block is free.
    pub fn take(&mut self, want: u32) -> Option<Run>
        requires { 1 ≤ want }
        ensures { TakesOrNone self.old want result self.new }
    {
        let start = self.lowest()?;
        let count = self.stretch(start, want);
        let run = Run { start, count };
        self.use_run(run);
        Some(run)
    }

    /// Gives back the blocks of these runs, each of at least one block. All these blocks are blocks of the map, different
    /// from each other and not free.
    pub fn give_back(&mut self, runs: &[Run])
        requires { AreUsed self.old runs.now }
        ensures { self.new ≡ with_runs self.old runs.now }
    {
        for run in runs {
            self.free_run(*run);
        }
    }

    /// The number of free blocks.
    pub fn free(&self) -> u32
        ensures { result ≡ free_count self.now }
    {
        let FreeMap { free, .. } = self;
        *free
    }

    // The lowest free block: the second level shows the first word that has one. The next search starts at the group where
    // this one ended.
    fn lowest(&mut self) -> Option<u32>
        ensures same { self.new ≡ self.old }
        ensures lowest { IsLowest self.old result }
    {
        let group = first_not_zero(&self.groups, self.first);
        self.first = group;
        if group == self.groups.len() {
            return None;
        }
        let place = group * 64 + self.groups[group].trailing_zeros() as usize;
        Some(place as u32 * 64 + self.words[place].trailing_zeros())
    }

    // How many blocks from `start` on are free without a gap, up to `want`.
    fn stretch(&self, start: u32, want: u32) -> u32
        requires { start ≤ length self.now }
        ensures { IsStretch self.now start want result }
    {
        let count = want.min(self.blocks - start);
        free_at_start(&self.words, Run { start, count })
    }

    // Marks the blocks of a run as used, all of which are free.
    fn use_run(&mut self, run: Run)
        requires within { run.start + run.count ≤ length self.old }
        requires free { AllFree self.old run }
        ensures { self.new ≡ without self.old run }
    {
        clear_bits(&mut self.words, &mut self.groups, run);
        self.free -= run.count;
    }

    // Frees the blocks of a run, none of which is free.
    fn free_run(&mut self, run: Run)
        requires within { run.start + run.count ≤ length self.old }
        requires used { AllUsed self.old run }
        ensures { self.new ≡ with_blocks self.old (run_blocks run) }
    {
        set_bits(&mut self.words, &mut self.groups, run);
        self.free += run.count;
        self.first = self.first.min((run.start / 4096) as usize);
    }
}
