// The texts in memory.
ghost use Rattle.std.specs.Prelude.{◌≡◌, ◌+◌, ◌-◌, ◌^◌, ◌<◌, ◌≤◌, ◌==◌, ◌&&◌, not, ℕ, List, [], ◌∷◌, IfSome, IsTrue, MatchOption, false, true, length, slice_index};
ghost use Rattle.std.specs.Option.{ForSome};
ghost use Rattle.address_space.specs.Source.{Space};
ghost use Rattle.address_space.specs.Occurrence as spec;
ghost use Rattle.address_space.specs.CursorWords.{IsPlaced, to_come, work_left};
ghost use Rattle.address_space.specs.FindWords.{texts_from};
ghost use Rattle.address_space.specs.SpaceWords.{space_of};

use crate::cursor::Cursor;
use crate::space::AddressSpace;

/// The texts in memory, by their first address and their length: runs of bytes of text, each as long as it can be and at
/// least as long as requested. They are ordered by their first addresses like matches.
#[derive(Clone, Copy)]
pub struct Strings<'s, 'a> {
    space: &'s AddressSpace<'a>,
    least: u64,
    cursor: Option<Cursor<'a>>,
    ghost placed: { ForSome cursor (IsPlaced (space_of space.now)) },
}

/// Whether it is a byte of text: from the space to `~`, or a tab.
fn is_text(byte: u8) -> bool
    ensures { result ≡ spec.is_text_byte byte }
{
    (32..=126).contains(&byte) || byte == 9
}

/// How many bytes of text are at the front.
fn text_front(bytes: &[u8]) -> usize
    ensures within { result ≤ length bytes.now }
    ensures text { (k : ℕ) → k < result → spec.is_text_byte (slice_index bytes.now k) ≡ true }
    ensures ends { result < length bytes.now → spec.is_text_byte (slice_index bytes.now result) ≡ false }
{
    for i in 0..bytes.len() {
        if !is_text(bytes[i]) {
            return i;
        }
    }
    bytes.len()
}

/// How many other bytes are at the front.
fn other_front(bytes: &[u8]) -> usize
    ensures within { result ≤ length bytes.now }
    ensures others { (k : ℕ) → k < result → spec.is_text_byte (slice_index bytes.now k) ≡ false }
    ensures ends { result < length bytes.now → spec.is_text_byte (slice_index bytes.now result) ≡ true }
{
    for i in 0..bytes.len() {
        if is_text(bytes[i]) {
            return i;
        }
    }
    bytes.len()
}

impl<'a> AddressSpace<'a> {
    /// Whether the address has a byte of text.
    fn is_text_at(&self, address: u64) -> bool
        ensures { result ≡ spec.is_text_at (space_of self.now) address }
    {
        match self.value(address) {
            Some(byte) => is_text(byte),
            None => false,
        }
    }

    /// How many addresses from `address` on have bytes of text.
    fn text_len(&self, address: u64) -> u128
        ensures { result ≡ spec.text_len (space_of self.now) address (2 ^ 64 - address) }
    {
        let mut at = address;
        let mut length: u128 = 0;
        while at < u64::MAX {
            let run = self.run(at, u64::MAX - at);
            let Some(bytes) = run.bytes else {
                return length;
            };
            let front = text_front(bytes);
            length += front as u128;
            if front < bytes.len() {
                return length;
            }
            at += run.length;
        }
        if self.is_text_at(at) {
            return length + 1;
        }
        length
    }

    /// How long the text is that begins at `start`. The cursor has passed the text's bytes at hand. If it has other bytes
    /// at hand, the text ends at the cursor; else it is followed on.
    fn text_len_passed(&self, start: u64, rest: &Cursor<'a>) -> u128
        requires { 0 < length rest.now.here.now
            → (start ≤ rest.now.at) × (spec.text_len (space_of self.now) start (2 ^ 64 - start) ≡ rest.now.at - start) }
        ensures { result ≡ spec.text_len (space_of self.now) start (2 ^ 64 - start) }
    {
        if rest.here.is_empty() {
            return self.text_len(start);
        }
        u128::from(rest.at - start)
    }

    /// Whether the address before has a byte of text.
    fn is_text_before(&self, address: u64) -> bool
        ensures { result ≡ (not (address == 0) && spec.is_text_at (space_of self.now) (address - 1)) }
    {
        address > 0 && self.is_text_at(address - 1)
    }

    /// Looks for the first address of a text among the next addresses. The cursor is then after the text's bytes at hand.
    fn start_on(&self, cursor: Cursor<'a>) -> (Option<u64>, Cursor<'a>)
        requires placed { IsPlaced (space_of self.now) cursor }
        requires more { 0 < length cursor.here.now }
        ensures placed { IsPlaced (space_of self.now) result.1 }
        ensures less { work_left (space_of self.now) result.1 < work_left (space_of self.now) cursor.entry }
        ensures same { MatchOption result.0
            (to_come (space_of self.now) (spec.begins_text (space_of self.now)) cursor.entry
            ≡ to_come (space_of self.now) (spec.begins_text (space_of self.now)) result.1)
            (λ a. to_come (space_of self.now) (spec.begins_text (space_of self.now)) cursor.entry
            ≡ a ∷ to_come (space_of self.now) (spec.begins_text (space_of self.now)) result.1) }
        ensures ended { IfSome result.0 (λ a. 0 < length result.1.here.now
            → (a ≤ result.1.at) × (spec.text_len (space_of self.now) a (2 ^ 64 - a) ≡ result.1.at - a)) }
    {
        let others = other_front(cursor.here);
        if others == cursor.here.len() {
            return (None, cursor.passed(others));
        }
        if others == 0 && self.is_text_before(cursor.at) {
            let front = text_front(cursor.here);
            return (None, cursor.passed(front));
        }
        let start = cursor.at + others as u64;
        let behind = cursor.passed(others + 1);
        let front = text_front(behind.here);
        (Some(start), behind.passed(front))
    }
}

/// The next address from a cursor on at which a text begins, and the cursor after it.
fn next_start<'a>(space: &AddressSpace<'a>, cursor: Cursor<'a>) -> Option<(u64, Cursor<'a>)>
    requires { IsPlaced (space_of space.now) cursor }
    ensures placed { IfSome result (λ r. IsPlaced (space_of space.now) r.1) }
    ensures less { IfSome result (λ r. work_left (space_of space.now) r.1 < work_left (space_of space.now) cursor.entry) }
    ensures same { MatchOption result
        (to_come (space_of space.now) (spec.begins_text (space_of space.now)) cursor.entry ≡ [])
        (λ r. to_come (space_of space.now) (spec.begins_text (space_of space.now)) cursor.entry
        ≡ r.0 ∷ to_come (space_of space.now) (spec.begins_text (space_of space.now)) r.1) }
    ensures ended { IfSome result (λ r. 0 < length r.1.here.now
        → (r.0 ≤ r.1.at) × (spec.text_len (space_of space.now) r.0 (2 ^ 64 - r.0) ≡ r.1.at - r.0)) }
{
    let mut ahead = cursor;
    while let Some(here) = space.settle(ahead) {
        let (found, rest) = space.start_on(here);
        if let Some(address) = found {
            return Some((address, rest));
        }
        ahead = rest;
    }
    None
}

/// The next text of at least that length, and the cursor after its first address.
fn next_text<'a>(
    space: &AddressSpace<'a>,
    least: u64,
    cursor: Cursor<'a>,
) -> Option<((u64, u128), Cursor<'a>)>
    requires { IsPlaced (space_of space.now) cursor }
    ensures placed { IfSome result (λ r. IsPlaced (space_of space.now) r.1) }
    ensures same { MatchOption result
        (texts_from (space_of space.now) least
        (to_come (space_of space.now) (spec.begins_text (space_of space.now)) cursor.entry) ≡ [])
        (λ r. texts_from (space_of space.now) least
        (to_come (space_of space.now) (spec.begins_text (space_of space.now)) cursor.entry)
        ≡ r.0 ∷ texts_from (space_of space.now) least
        (to_come (space_of space.now) (spec.begins_text (space_of space.now)) r.1)) }
{
    let mut ahead = cursor;
    while let Some((start, rest)) = next_start(space, ahead) {
        let length = space.text_len_passed(start, &rest);
        if length >= u128::from(least) {
            return Some(((start, length), rest));
        }
        ahead = rest;
    }
    None
}

impl<'s, 'a> Strings<'s, 'a> {
    ghost use Rattle.address_space.specs.StringWords.{strings_left};

    #[tactic(auto, unfolding(crate::specs::Occurrence::strings_of))]
    pub(crate) fn new(space: &'s AddressSpace<'a>, least: u64) -> Strings<'s, 'a>
        ensures { strings_left result ≡ spec.strings_of (space_of space.now) least }
    {
        Strings {
            space,
            least,
            cursor: space.begin(0),
        }
    }
}

impl<'s, 'a> Iterator for Strings<'s, 'a> {
    ghost use Rattle.std.specs.Iterator.{YieldsFirst, item_count};
    ghost use Rattle.address_space.specs.StringWords.{strings_left};

    type Item = (u64, u128);

    ghost next_gives = { YieldsFirst strings_left };

    ghost remaining = { item_count strings_left };

    fn next(&mut self) -> Option<(u64, u128)> {
        let cursor = self.cursor?;
        match next_text(self.space, self.least, cursor) {
            Some((text, rest)) => {
                self.cursor = Some(rest);
                Some(text)
            }
            None => {
                self.cursor = None;
                None
            }
        }
    }
}
