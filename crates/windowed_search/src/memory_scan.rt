// A search of a memory, for either aim.
ghost use Rattle.std.specs.Prelude.{◌≡◌, ◌+◌, ◌^◌, ◌<◌, [], OnOk, IfOk, None, length};
ghost use Rattle.address_space.specs.Source.{Space, value_at};
ghost use Rattle.windowed_search.specs.Runs.{values_from};

use crate::memory_search::MemorySearch;
use crate::memory_texts::{FoundTexts, MemoryTexts};
use std::alloc::{AllocError, Global};

/// The aim of a search of a memory.
#[derive(Clone, Copy)]
pub enum Sought<'n> {
    /// These bytes.
    Bytes(&'n [u8]),
    /// Texts of at least that many bytes.
    Texts(u64),
}

/// The result of a search of a memory.
#[derive(Drop)]
pub enum Found {
    /// The addresses at which the bytes are.
    Addresses(Vec<u64>),
    /// The texts.
    Texts(FoundTexts),
}

/// A search of a memory. It is given the addresses in rising order: it is fed the values of those that have one, and passes those that
/// have no value. It keeps the matches that it finds.
#[derive(Drop)]
pub enum MemoryScan<'n> {
    /// A search for bytes.
    Bytes(MemorySearch<'n>),
    /// A search for texts.
    Texts(MemoryTexts),
}

impl<'n> MemoryScan<'n> {
    ghost use Rattle.windowed_search.specs.ScanWords.{HasScanned, IsAim, IsFound, aim_of, aimed_at, next_address};

    /// A search that was given no address yet.
    pub fn new(alloc: Global, sought: Sought<'n>) -> MemoryScan<'n>
        requires { IsAim (aim_of sought) }
        ensures aim { aimed_at result ≡ aim_of sought.entry }
        ensures address { next_address result ≡ 0 }
        ensures scanned { (space : Space) → HasScanned space result }
    {
        match sought {
            Sought::Bytes(needle) => MemoryScan::Bytes(MemorySearch::new(alloc, needle)),
            Sought::Texts(least) => MemoryScan::Texts(MemoryTexts::new(alloc, least)),
        }
    }

    /// Goes on with the next addresses, which have these values. The error is that there is no memory: the search is of no use then.
    pub fn feed(&mut self, values: &[u8]) -> Result<(), AllocError>
        requires fits { next_address self.old + length values.now < 2 ^ 64 }
        ensures aim { aimed_at self.new ≡ aimed_at self.old }
        ensures address { OnOk result (next_address self.new ≡ next_address self.old + length values.now) }
        ensures scanned { (space : Space) → HasScanned space self.old → values_from space (next_address self.old) (length values.now) ≡ values.now
            → OnOk result (HasScanned space self.new) }
    {
        match self {
            MemoryScan::Bytes(search) => search.feed(values),
            MemoryScan::Texts(search) => search.feed(values),
        }
    }

    /// Goes on behind the next `count` addresses, which have no value. The error is that there is no memory: the search is of no use
    /// then.
    pub fn pass(&mut self, count: u64) -> Result<(), AllocError>
        requires fits { next_address self.old + count < 2 ^ 64 }
        ensures aim { aimed_at self.new ≡ aimed_at self.old }
        ensures address { OnOk result (next_address self.new ≡ next_address self.old + count) }
        ensures scanned { (space : Space) → HasScanned space self.old → values_from space (next_address self.old) count ≡ []
            → OnOk result (HasScanned space self.new) }
    {
        match self {
            MemoryScan::Bytes(search) => {
                search.pass(count);
                Ok(())
            }
            MemoryScan::Texts(search) => search.pass(count),
        }
    }

    /// All matches that start at an address that it was given, if the next has no value. The only error is that there is no memory.
    pub fn end(self) -> Result<Found, AllocError>
        ensures { (space : Space) → HasScanned space self.entry → value_at space (next_address self.entry) ≡ None
            → IfOk result (IsFound space (aimed_at self.entry) (next_address self.entry)) }
    {
        match self {
            MemoryScan::Bytes(search) => Ok(Found::Addresses(search.end())),
            MemoryScan::Texts(search) => Ok(Found::Texts(search.end()?)),
        }
    }
}
