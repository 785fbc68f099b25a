// A search that is fed its bytes window by window.
ghost use Rattle.std.specs.Prelude.{◌≡◌, ◌+◌, ◌-◌, ◌^◌, ◌<◌, ◌++◌, [], ℕ, List, OnOk, length};
ghost use Rattle.windowed_search.specs.Places.{places, last_of};

use crate::within::add_places;
use memchr::memmem::Finder;
use std::alloc::{AllocError, Global};

/// A search for a needle in bytes that are handed over window by window. Between two windows it keeps fewer bytes than the needle has.
#[derive(Drop)]
pub struct Search<'n> {
    pub(crate) needle: &'n [u8],
    finder: Finder<'n>,
    // The place of the tail's first byte.
    pub(crate) first: u64,
    // The last bytes that were fed: with them a match across the end of a window is found.
    pub(crate) tail: Vec<u8>,
    // The tail, and the window at hand.
    bytes: Vec<u8>,
    ghost some: { 0 < length needle.now },
    ghost finds: { finder ≡ needle.now },
}

impl<'n> Search<'n> {
    ghost use Rattle.windowed_search.specs.SearchWords.{WasFed};

    /// A search that was fed nothing yet, of bytes that begin at place 0.
    pub fn new(alloc: Global, needle: &'n [u8]) -> Search<'n>
        requires { 0 < length needle.now }
        ensures needle { result.needle.now ≡ needle.now }
        ensures fed { WasFed result 0 [] }
        ensures next { (result.first ≡ 0) × (result.tail.items ≡ []) }
    {
        Search {
            needle,
            finder: Finder::new(needle),
            first: 0,
            tail: Vec::new(alloc),
            bytes: Vec::new(alloc),
        }
    }

    /// Starts anew: the bytes that are fed next start at place `base`.
    pub fn restart(&mut self, base: u64)
        ensures needle { self.new.needle ≡ self.old.needle }
        ensures fed { WasFed self.new base [] }
        ensures next { (self.new.first ≡ base) × (self.new.tail.items ≡ []) }
    {
        self.tail.clear();
        self.first = base;
    }

    // Puts the window after the tail.
    fn take_in(&mut self, window: &[u8]) -> Result<(), AllocError>
        ensures bytes { OnOk result (self.new.bytes.items ≡ self.old.tail.items ++ window.now) }
        ensures others { (self.new.needle ≡ self.old.needle) × (self.new.first ≡ self.old.first) × (self.new.tail ≡ self.old.tail) }
    {
        self.bytes.clear();
        self.bytes.extend_from_slice(&self.tail)?;
        self.bytes.extend_from_slice(window)?;
        Ok(())
    }

    // Keeps the last of the bytes, one fewer than the needle has.
    fn keep_tail(&mut self) -> Result<(), AllocError>
        requires fits { self.old.first + length self.old.bytes.items < 2 ^ 64 }
        ensures tail { OnOk result (self.new.tail.items ≡ last_of (length self.old.needle.now - 1) self.old.bytes.items) }
        ensures first { OnOk result (self.new.first ≡ self.old.first + (length self.old.bytes.items - (length self.old.needle.now - 1))) }
        ensures needle { self.new.needle ≡ self.old.needle }
    {
        let cut = self.bytes.len().saturating_sub(self.needle.len() - 1);
        self.tail.clear();
        self.tail.extend_from_slice(&self.bytes[cut..])?;
        self.first += cut as u64;
        Ok(())
    }

    /// Appends each place at which the needle occurs and ends in this window. The error is that there is no memory: the search is of
    /// no use until it begins anew.
    pub fn feed(&mut self, window: &[u8], found: &mut Vec<u64>) -> Result<(), AllocError>
        requires fits { self.old.first + length self.old.tail.items + length window.now < 2 ^ 64 }
        ensures needle { self.new.needle ≡ self.old.needle }
        ensures next { OnOk result (self.new.first + length self.new.tail.items ≡ self.old.first + length self.old.tail.items + length window.now) }
        ensures fed { (base : ℕ) (xs : List ℕ) → WasFed self.old base xs → OnOk result (WasFed self.new base (xs ++ window.now)) }
        ensures found { (base : ℕ) (xs before : List ℕ) → WasFed self.old base xs → found.old.items ≡ before ++ places self.old.needle.now base xs
            → OnOk result (found.new.items ≡ before ++ places self.old.needle.now base (xs ++ window.now)) }
    {
        self.take_in(window)?;
        add_places(&self.finder, self.needle, self.first, &self.bytes, found)?;
        self.keep_tail()?;
        Ok(())
    }
}
