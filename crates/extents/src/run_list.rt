// A list of blocks, kept as the shortest list of runs.
ghost use Rattle.std.specs.Prelude.{◌≡◌, ◌+◌, ◌≤◌, ◌++◌, [], OnOk, OnErr, length, slice_get};

use std::alloc::{AllocError, Global};
use std::marker::Model;

/// A run of `count` adjoining blocks, the first of them `start`.
#[derive(Clone, Copy, Debug, PartialEq, Eq)]
pub struct Run {
    pub start: u32,
    pub count: u32,
}

/// A list of blocks, in the order in which an image fills them. Contracts see it as that list.
#[derive(Drop)]
pub struct RunList {
    runs: Vec<Run>,
}

impl Model for RunList {
    ghost use Rattle.std.specs.Prelude.{List, ℕ};
    ghost use Rattle.extents.specs.Runs.{blocks_of, AreApart};

    ghost Value = { List ℕ };

    ghost view = { λ list. blocks_of list.runs.items };

    ghost invariant = { λ list. AreApart list.runs.items };
}

impl RunList {
    ghost use Rattle.extents.specs.Runs.{IsRun, run_blocks, runs_of};

    /// A list of no blocks. It takes no memory.
    pub fn new(alloc: Global) -> RunList
        ensures { result ≡ [] }
    {
        RunList {
            runs: Vec::new(alloc),
        }
    }

    /// Adds the blocks of `run` at the end. A run that begins where the last one ends is joined to it.
    /// `AllocError`: there was no memory for one more run, and the list is as it was.
    pub fn append(&mut self, run: Run) -> Result<(), AllocError>
        requires { IsRun run }
        ensures ok { OnOk result (self.new ≡ self.old ++ run_blocks run) }
        ensures err { OnErr result (self.new ≡ self.old) }
    {
        if let Some(last) = self.runs.last_mut() {
            if last.start + last.count == run.start {
                last.count += run.count;
                return Ok(());
            }
        }
        self.runs.push(run)?;
        Ok(())
    }

    /// The block that holds the image's bytes from `4096 * index` on, if the list is that long.
    pub fn block_at(&self, index: u32) -> Option<u32>
        ensures { result ≡ slice_get self.now index }
    {
        let mut left = index;
        for run in &self.runs {
            if left < run.count {
                return Some(run.start + left);
            }
            left -= run.count;
        }
        None
    }

    /// The shortest list of runs with these blocks, in their order.
    pub fn runs(&self) -> &[Run]
        ensures shortest { result.now ≡ runs_of self.now }
        ensures no_more { length result.now ≤ length self.now }
    {
        self.runs.as_slice()
    }
}
