// A search of a memory that is fed the values of its addresses.
ghost use Rattle.std.specs.Prelude.{◌≡◌, ◌+◌, ◌^◌, ◌<◌, [], ℕ, OnOk, None, length, filter};
ghost use Rattle.std.specs.List.{range_with_len};
ghost use Rattle.address_space.specs.Occurrence.{occurs};
ghost use Rattle.address_space.specs.Source.{Space, value_at};
ghost use Rattle.windowed_search.specs.Runs.{values_from};

use crate::search::Search;
use std::alloc::{AllocError, Global};

/// A search of a memory for a needle. It is given the addresses in rising order: it is fed the values of those that have one, and
/// passes those that have no value. It takes 8 bytes for each address at which it finds the needle.
#[derive(Drop)]
pub struct MemorySearch<'n> {
    pub(crate) search: Search<'n>,
    // The next address.
    pub(crate) address: u64,
    // The addresses at which it was found.
    pub(crate) found: Vec<u64>,
    ghost placed: { search.first + length search.tail.items ≡ address },
}

impl<'n> MemorySearch<'n> {
    ghost use Rattle.windowed_search.specs.MemoryWords.{HasSearched, needle_of, address_of};

    /// A search that was given no address yet.
    pub fn new(alloc: Global, needle: &'n [u8]) -> MemorySearch<'n>
        requires { 0 < length needle.now }
        ensures needle { needle_of result ≡ needle.now }
        ensures address { address_of result ≡ 0 }
        ensures searched { (space : Space) → HasSearched space result }
    {
        MemorySearch {
            search: Search::new(alloc, needle),
            address: 0,
            found: Vec::new(alloc),
        }
    }

    /// Goes on with the next addresses, which have these values. The error is that there is no memory: the search is of no use then.
    pub fn feed(&mut self, values: &[u8]) -> Result<(), AllocError>
        requires fits { address_of self.old + length values.now < 2 ^ 64 }
        ensures needle { needle_of self.new ≡ needle_of self.old }
        ensures address { OnOk result (address_of self.new ≡ address_of self.old + length values.now) }
        ensures searched { (space : Space) → HasSearched space self.old → values_from space (address_of self.old) (length values.now) ≡ values.now
            → OnOk result (HasSearched space self.new) }
    {
        match self.search.feed(values, &mut self.found) {
            Ok(()) => {
                self.address += values.len() as u64;
                Ok(())
            }
            Err(error) => {
                self.search.restart(self.address);
                Err(error)
            }
        }
    }

    /// Goes on behind the next `count` addresses, which have no value.
    pub fn pass(&mut self, count: u64)
        requires fits { address_of self.old + count < 2 ^ 64 }
        ensures needle { needle_of self.new ≡ needle_of self.old }
        ensures address { address_of self.new ≡ address_of self.old + count }
        ensures searched { (space : Space) → HasSearched space self.old → values_from space (address_of self.old) count ≡ []
            → HasSearched space self.new }
    {
        if count == 0 {
            return;
        }
        self.address += count;
        self.search.restart(self.address);
    }

    /// Each address at which the needle occurs, of those that it was given, if the next has no value.
    pub fn end(self) -> Vec<u64>
        ensures { (space : Space) → HasSearched space self.entry → value_at space (address_of self.entry) ≡ None
            → result.items ≡ filter (occurs space (needle_of self.entry)) (range_with_len 0 (address_of self.entry)) }
    {
        self.found
    }
}
