// Every address at which some bytes occur.
ghost use Rattle.std.specs.Prelude.{◌≡◌, ◌+◌, ◌^◌, ◌<◌, ◌≤◌, ℕ, List, [], ◌∷◌, None, Some, IfSome, MatchOption, length, slice_index};
ghost use Rattle.std.specs.Option.{ForSome};
ghost use Rattle.address_space.specs.Source.{Space, value_at};
ghost use Rattle.address_space.specs.Occurrence as spec;
ghost use Rattle.address_space.specs.CursorWords.{IsPlaced, to_come, work_left};
ghost use Rattle.address_space.specs.SpaceWords.{space_of};

use crate::cursor::Cursor;
use crate::source::Source;
use crate::space::AddressSpace;
use elf_view::accepted_segments_fit;
use memchr::memmem::Finder;

/// The addresses at which a needle occurs, by the number of the segment that decides them and then by themselves. Matches
/// may overlap, and lie across segments.
#[derive(Drop)]
pub struct Matches<'s, 'a, 'n> {
    space: &'s AddressSpace<'a>,
    needle: &'n [u8],
    finder: Finder<'n>,
    cursor: Option<Cursor<'a>>,
    ghost some: { 0 < length needle.now },
    ghost finds: { finder ≡ needle.now },
    ghost placed: { ForSome cursor (IsPlaced (space_of space.now)) },
}

/// Whether it is that value.
fn is_value(value: Option<u8>, byte: u8) -> bool
    ensures { result ≡ spec.is_value byte value }
{
    match value {
        Some(value) => value == byte,
        None => false,
    }
}

impl<'a> AddressSpace<'a> {
    /// The value of an address.
    pub(crate) fn value(&self, address: u64) -> Option<u8>
        ensures { result ≡ value_at (space_of self.now) address }
    {
        match self.at(address) {
            Source::Byte(byte) => Some(byte),
            Source::FromFile(byte) => Some(byte),
            Source::NotDumped(_) => None,
            Source::Cut => None,
            Source::Unmapped => None,
        }
    }

    /// No address from 2^64 on has a value. It does nothing.
    pub(crate) fn nothing_past_the_end(&self)
        ensures { (a : ℕ) → 2 ^ 64 ≤ a → value_at (space_of self.now) a ≡ None }
    {
        accepted_segments_fit();
    }

    /// Whether the bytes are the values of the addresses from `at` on.
    fn stands_at(&self, needle: &[u8], at: u64) -> bool
        ensures { result ≡ spec.occurs (space_of self.now) needle.now at }
    {
        self.nothing_past_the_end();
        for i in 0..needle.len() {
            let Some(address) = at.checked_add(i as u64) else {
                return false;
            };
            if !is_value(self.value(address), needle[i]) {
                return false;
            }
        }
        true
    }

    /// The same, if the values of the first of these addresses are at hand.
    fn stands_here(&self, needle: &[u8], here: &[u8], at: u64) -> bool
        requires room { length here.now ≤ length needle.now }
        requires values { (k : ℕ) → k < length here.now
            → value_at (space_of self.now) (at + k) ≡ Some (slice_index here.now k) }
        ensures { result ≡ spec.occurs (space_of self.now) needle.now at }
    {
        needle.starts_with(here) && self.stands_at(needle, at)
    }

    /// Looks at the next address alone.
    fn search_border(&self, needle: &[u8], cursor: Cursor<'a>) -> (Option<u64>, Cursor<'a>)
        requires placed { IsPlaced (space_of self.now) cursor }
        requires more { 0 < length cursor.here.now }
        requires room { length cursor.here.now ≤ length needle.now }
        ensures placed { IsPlaced (space_of self.now) result.1 }
        ensures less { work_left (space_of self.now) result.1 < work_left (space_of self.now) cursor.entry }
        ensures same { MatchOption result.0
            (to_come (space_of self.now) (spec.occurs (space_of self.now) needle.now) cursor.entry
            ≡ to_come (space_of self.now) (spec.occurs (space_of self.now) needle.now) result.1)
            (λ a. to_come (space_of self.now) (spec.occurs (space_of self.now) needle.now) cursor.entry
            ≡ a ∷ to_come (space_of self.now) (spec.occurs (space_of self.now) needle.now) result.1) }
    {
        let at = cursor.at;
        if self.stands_here(needle, cursor.here, at) {
            return (Some(at), cursor.passed(1));
        }
        (None, cursor.passed(1))
    }
}

/// Looks for the first match within the values at hand.
fn search_run<'a>(finder: &Finder, needle: &[u8], cursor: Cursor<'a>) -> (Option<u64>, Cursor<'a>)
    requires finds { finder.now ≡ needle.now }
    requires some { 0 < length needle.now }
    requires room { length needle.now ≤ length cursor.here.now }
    ensures placed { (space : Space) → IsPlaced space cursor.entry → IsPlaced space result.1 }
    ensures less { (space : Space) → IsPlaced space cursor.entry → work_left space result.1 < work_left space cursor.entry }
    ensures same { (space : Space) → IsPlaced space cursor.entry → MatchOption result.0
        (to_come space (spec.occurs space needle.now) cursor.entry
        ≡ to_come space (spec.occurs space needle.now) result.1)
        (λ a. to_come space (spec.occurs space needle.now) cursor.entry
        ≡ a ∷ to_come space (spec.occurs space needle.now) result.1) }
{
    match finder.find(cursor.here) {
        Some(place) => (Some(cursor.at + place as u64), cursor.passed(place + 1)),
        None => (None, cursor.passed(cursor.here.len() - (needle.len() - 1))),
    }
}

/// Looks for a match among the next addresses.
fn search_on<'a>(
    space: &AddressSpace<'a>,
    finder: &Finder,
    needle: &[u8],
    cursor: Cursor<'a>,
) -> (Option<u64>, Cursor<'a>)
    requires finds { finder.now ≡ needle.now }
    requires some { 0 < length needle.now }
    requires placed { IsPlaced (space_of space.now) cursor }
    requires more { 0 < length cursor.here.now }
    ensures placed { IsPlaced (space_of space.now) result.1 }
    ensures less { work_left (space_of space.now) result.1 < work_left (space_of space.now) cursor.entry }
    ensures same { MatchOption result.0
        (to_come (space_of space.now) (spec.occurs (space_of space.now) needle.now) cursor.entry
        ≡ to_come (space_of space.now) (spec.occurs (space_of space.now) needle.now) result.1)
        (λ a. to_come (space_of space.now) (spec.occurs (space_of space.now) needle.now) cursor.entry
        ≡ a ∷ to_come (space_of space.now) (spec.occurs (space_of space.now) needle.now) result.1) }
{
    if cursor.here.len() < needle.len() {
        space.search_border(needle, cursor)
    } else {
        search_run(finder, needle, cursor)
    }
}

/// The next match from a cursor on, and the cursor after it.
fn next_match<'a>(
    space: &AddressSpace<'a>,
    finder: &Finder,
    needle: &[u8],
    cursor: Cursor<'a>,
) -> Option<(u64, Cursor<'a>)>
    requires finds { finder.now ≡ needle.now }
    requires some { 0 < length needle.now }
    requires placed { IsPlaced (space_of space.now) cursor }
    ensures placed { IfSome result (λ r. IsPlaced (space_of space.now) r.1) }
    ensures same { MatchOption result
        (to_come (space_of space.now) (spec.occurs (space_of space.now) needle.now) cursor.entry ≡ [])
        (λ r. to_come (space_of space.now) (spec.occurs (space_of space.now) needle.now) cursor.entry
        ≡ r.0 ∷ to_come (space_of space.now) (spec.occurs (space_of space.now) needle.now) r.1) }
{
    let mut ahead = cursor;
    while let Some(here) = space.settle(ahead) {
        let (found, rest) = search_on(space, finder, needle, here);
        if let Some(address) = found {
            return Some((address, rest));
        }
        ahead = rest;
    }
    None
}

impl<'s, 'a, 'n> Matches<'s, 'a, 'n> {
    ghost use Rattle.address_space.specs.FindWords.{matches_left};

    pub(crate) fn new(space: &'s AddressSpace<'a>, needle: &'n [u8]) -> Matches<'s, 'a, 'n>
        requires { 0 < length needle.now }
        ensures { matches_left result ≡ spec.occurrences (space_of space.now) needle.now }
    {
        Matches {
            space,
            needle,
            finder: Finder::new(needle),
            cursor: space.begin(0),
        }
    }
}

impl<'s, 'a, 'n> Iterator for Matches<'s, 'a, 'n> {
    ghost use Rattle.std.specs.Iterator.{YieldsFirst, item_count};
    ghost use Rattle.address_space.specs.FindWords.{matches_left};

    type Item = u64;

    ghost next_gives = { YieldsFirst matches_left };

    ghost remaining = { item_count matches_left };

    fn next(&mut self) -> Option<u64> {
        let cursor = self.cursor?;
        match next_match(self.space, &self.finder, self.needle, cursor) {
            Some((address, rest)) => {
                self.cursor = Some(rest);
                Some(address)
            }
            None => {
                self.cursor = None;
                None
            }
        }
    }
}
