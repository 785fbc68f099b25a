// The spots of the entries of a table.
ghost use Rattle.std.specs.Prelude.{◌≡◌, ◌≤◌, ◌<◌, length};
ghost use Rattle.call_frames.specs.Entry as entries;
ghost use Rattle.call_frames.specs.Walk as spec;

use crate::entries::rest_at;
use elf_view::u32_at;

/// The place of an entry in its table.
#[derive(Clone, Copy)]
pub(crate) struct Spot {
    /// Its number, from 0 on.
    pub(crate) index: u64,
    /// The place of its first byte.
    pub(crate) place: usize,
}

/// The spots of the entries of a table.
#[derive(Clone, Copy)]
pub(crate) struct Spots<'a> {
    bytes: &'a [u8],
    index: u64,
    place: usize,
    ghost few: { index ≤ place },
    ghost within: { place ≤ length bytes.now },
}

/// Whether the entry at the front of the rest of a table is complete.
fn is_whole(rest: &[u8]) -> bool
    ensures { result ≡ entries.is_whole rest.now }
{
    if rest.len() < 4 {
        return false;
    }
    let size = u32_at(rest, 0);
    size < 0xffff_fff0 && u64::from(size) <= (rest.len() - 4) as u64
}

/// How many bytes the entry at the front takes.
#[tactic(auto, unfolding(crate::specs::Walk::entry_len))]
fn entry_len(rest: &[u8]) -> usize
    requires { 0 < length rest.now }
    ensures size { result ≡ spec.entry_len rest.now }
    ensures some { 0 < result }
    ensures within { result ≤ length rest.now }
{
    if is_whole(rest) {
        4 + u32_at(rest, 0) as usize
    } else {
        rest.len()
    }
}

/// Whether no entry is at the front.
#[tactic(auto, unfolding(crate::specs::Walk::is_end))]
fn is_end(rest: &[u8]) -> bool
    ensures { result ≡ spec.is_end rest.now }
{
    rest.is_empty() || (rest.len() >= 4 && u32_at(rest, 0) == 0)
}

impl<'a> Spots<'a> {
    ghost use Rattle.call_frames.specs.WalkWords.{spots_left};

    /// The spots of the entries in the bytes of a table.
    #[tactic(auto, unfolding(crate::specs::WalkWords::spots_left))]
    pub(crate) fn new(bytes: &'a [u8]) -> Spots<'a>
        ensures { spots_left result ≡ spec.spots_of bytes.now }
    {
        Spots {
            bytes,
            index: 0,
            place: 0,
        }
    }
}

impl<'a> Iterator for Spots<'a> {
    ghost use Rattle.std.specs.Iterator.{YieldsFirst, item_count};
    ghost use Rattle.call_frames.specs.WalkWords.{spots_left};

    type Item = Spot;

    ghost next_gives = { YieldsFirst spots_left };

    ghost remaining = { item_count spots_left };

    #[tactic(auto, unfolding(crate::specs::WalkWords::spots_left))]
    fn next(&mut self) -> Option<Spot> {
        let rest = rest_at(self.bytes, self.place);
        if is_end(rest) {
            return None;
        }
        let spot = Spot {
            index: self.index,
            place: self.place,
        };
        self.index += 1;
        self.place += entry_len(rest);
        Some(spot)
    }
}
