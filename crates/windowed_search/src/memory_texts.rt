// A search of a memory for texts that is fed the values of its addresses.
ghost use Rattle.std.specs.Prelude.{◌≡◌, ◌+◌, ◌-◌, ◌^◌, ◌<◌, ◌≤◌, ◌++◌, ◌∷◌, [], ℕ, OnOk, IfOk, None, true, filter, length, take, nat_le, if◌then◌else◌};
ghost use Rattle.address_space.specs.Occurrence.{is_long, is_text_byte};
ghost use Rattle.address_space.specs.Source.{Space, value_at};
ghost use Rattle.windowed_search.specs.Runs.{values_from};
ghost use Rattle.windowed_search.specs.TextBytes.{AreOf, front_len, is_of};

use std::alloc::{AllocError, Global};

/// Texts that were found, one after another.
#[derive(Drop)]
pub struct FoundTexts {
    /// The first address of each, and its length.
    pub places: Vec<(u64, u64)>,
    /// Their bytes.
    pub bytes: Vec<u8>,
}

/// A search of a memory for texts. It is given the addresses in rising order: it is fed the values of those that have one, and passes
/// those that have no value. It takes 16 bytes for each text that is long enough, and the bytes of it.
#[derive(Drop)]
pub struct MemoryTexts {
    pub(crate) least: u64,
    // The next address.
    pub(crate) address: u64,
    // How many bytes of text came last.
    pub(crate) count: u64,
    // The texts that ended, by their first addresses and their lengths.
    pub(crate) found: Vec<(u64, u64)>,
    // Their bytes, and those of the text that came last.
    pub(crate) bytes: Vec<u8>,
    ghost some: { 0 < least },
    ghost fits: { address < 2 ^ 64 },
    ghost within: { count ≤ address },
    ghost held: { count ≤ length bytes.items },
}

// Whether it is a byte of text: from the space to `~`, or a tab.
fn is_text(byte: u8) -> bool
    ensures { result ≡ is_text_byte byte }
{
    (32..=126).contains(&byte) || byte == 9
}

// Whether it is a byte of text, or, if that is asked, any other.
fn is_of(byte: u8, text: bool) -> bool
    ensures { result ≡ is_of text byte }
{
    if text { is_text(byte) } else { !is_text(byte) }
}

// How many bytes of text come first, or, if that is asked, of others.
fn front_len(bytes: &[u8], text: bool) -> usize
    ensures count { result ≡ front_len text bytes.now }
    ensures within { result ≤ length bytes.now }
    ensures are { AreOf text (take result bytes.now) }
{
    let mut count = 0;
    while count < bytes.len() {
        if !is_of(bytes[count], text) {
            return count;
        }
        count += 1;
    }
    count
}

impl MemoryTexts {
    ghost use Rattle.windowed_search.specs.TextWords.{AreTexts, HasTexts, NoText};

    /// A search for texts of at least that many bytes, which was given no address yet.
    pub fn new(alloc: Global, least: u64) -> MemoryTexts
        requires { 0 < least }
        ensures least { result.least ≡ least }
        ensures address { result.address ≡ 0 }
        ensures texts { (space : Space) → HasTexts space result }
    {
        MemoryTexts {
            least,
            address: 0,
            count: 0,
            found: Vec::new(alloc),
            bytes: Vec::new(alloc),
        }
    }

    // Ends the text that came last. If it is too short its bytes go.
    fn close(&mut self) -> Result<(), AllocError>
        ensures least { self.new.least ≡ self.old.least }
        ensures address { self.new.address ≡ self.old.address }
        ensures count { OnOk result (self.new.count ≡ 0) }
        ensures found { OnOk result (self.new.found.items ≡ self.old.found.items ++ filter (is_long self.old.least) ((self.old.address - self.old.count, self.old.count) ∷ [])) }
        ensures bytes { OnOk result (self.new.bytes.items ≡ (if nat_le self.old.least self.old.count then self.old.bytes.items else take (length self.old.bytes.items - self.old.count) self.old.bytes.items)) }
    {
        if self.count >= self.least {
            self.found.push((self.address - self.count, self.count))?;
        } else {
            self.bytes.truncate(self.bytes.len() - self.count as usize);
        }
        self.count = 0;
        Ok(())
    }

    // Goes on behind the next `count` addresses, none of which has a byte of text.
    fn leave(&mut self, count: u64) -> Result<(), AllocError>
        requires fits { self.old.address + count < 2 ^ 64 }
        ensures least { self.new.least ≡ self.old.least }
        ensures address { OnOk result (self.new.address ≡ self.old.address + count) }
        ensures texts { (space : Space) → HasTexts space self.old → NoText space self.old.address count → OnOk result (HasTexts space self.new) }
    {
        if count == 0 {
            return Ok(());
        }
        self.close()?;
        self.address += count;
        Ok(())
    }

    // Goes on with the next addresses, which have these bytes of text.
    fn take_text(&mut self, text: &[u8]) -> Result<(), AllocError>
        requires text { AreOf true text.now }
        requires fits { self.old.address + length text.now < 2 ^ 64 }
        ensures least { self.new.least ≡ self.old.least }
        ensures address { OnOk result (self.new.address ≡ self.old.address + length text.now) }
        ensures texts { (space : Space) → HasTexts space self.old → values_from space self.old.address (length text.now) ≡ text.now → OnOk result (HasTexts space self.new) }
    {
        self.bytes.extend_from_slice(text)?;
        self.count += text.len() as u64;
        self.address += text.len() as u64;
        Ok(())
    }

    // Continues with the first of these values: with those that are text,
    // and those after them that are no text. Returns how many there were.
    fn feed_some(&mut self, values: &[u8]) -> Result<u64, AllocError>
        requires some { 0 < length values.now }
        requires fits { self.old.address + length values.now < 2 ^ 64 }
        ensures least { self.new.least ≡ self.old.least }
        ensures some { IfOk result (λ n. (0 < n) × (n ≤ length values.now)) }
        ensures address { IfOk result (λ n. self.new.address ≡ self.old.address + n) }
        ensures texts { (space : Space) → HasTexts space self.old → IfOk result (λ n. values_from space self.old.address n ≡ take n values.now → HasTexts space self.new) }
    {
        let text = front_len(values, true);
        self.take_text(&values[..text])?;
        let others = front_len(&values[text..], false);
        self.leave(others as u64)?;
        Ok((text + others) as u64)
    }

    /// Goes on with the next addresses, which have these values. The error is that there is no memory: the search is of no use then.
    pub fn feed(&mut self, values: &[u8]) -> Result<(), AllocError>
        requires fits { self.old.address + length values.now < 2 ^ 64 }
        ensures least { self.new.least ≡ self.old.least }
        ensures address { OnOk result (self.new.address ≡ self.old.address + length values.now) }
        ensures texts { (space : Space) → HasTexts space self.old → values_from space self.old.address (length values.now) ≡ values.now
            → OnOk result (HasTexts space self.new) }
    {
        let mut at = 0;
        while at < values.len() {
            at += self.feed_some(&values[at..])? as usize;
        }
        Ok(())
    }

    /// Goes on behind the next `count` addresses, which have no value. The error is that there is no memory: the search is of no use
    /// then.
    pub fn pass(&mut self, count: u64) -> Result<(), AllocError>
        requires fits { self.old.address + count < 2 ^ 64 }
        ensures least { self.new.least ≡ self.old.least }
        ensures address { OnOk result (self.new.address ≡ self.old.address + count) }
        ensures texts { (space : Space) → HasTexts space self.old → values_from space self.old.address count ≡ []
            → OnOk result (HasTexts space self.new) }
    {
        self.leave(count)
    }

    /// Each text that starts at an address that it was given, if the
    /// next has no value. The only error is that there is no memory.
    pub fn end(mut self) -> Result<FoundTexts, AllocError>
        ensures { (space : Space) → HasTexts space self → value_at space self.address ≡ None
            → IfOk result (AreTexts space self.least self.address) }
    {
        self.close()?;
        Ok(FoundTexts {
            places: self.found,
            bytes: self.bytes,
        })
    }
}
