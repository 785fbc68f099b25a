// Bytes and words of a memory of whose core's image some bytes are at hand.
ghost use Rattle.std.specs.Prelude.{◌≡◌, ℕ, List, slice_index};
ghost use Rattle.std.specs.Option.{option_map};
ghost use Rattle.address_space.specs.Pieces.{content_from};
ghost use Rattle.address_space.specs.Source as source;
ghost use Rattle.address_space.specs.SourceWords.{spot_view};
ghost use Rattle.address_space.specs.SpaceWords.{space_of};
ghost use Rattle.address_space.specs.StretchWords.{IsWithin, shown_in};
ghost use Rattle.address_space.specs.Whole.{IsFrontOf, space_in};
ghost use Rattle.elf_view.specs.Header.{SegmentView};
ghost use Rattle.seen_memory.specs.Seen.{ForEach, InEach, ReadsByte};

use crate::memory::{SeenMemory, Unread};
use crate::part::byte_of_parts;
use address_space::{FileSpot, StretchKind};
use elf_view::{a_sound_front_is_enough, accepted_segments_fit, u64_at};

impl<'s, 'c> SeenMemory<'s, 'c> {
    /// The place of the byte of an address.
    fn stretch_at(&self, address: u64) -> StretchKind<'c>
        ensures content { (b : List ℕ) → IsFrontOf self.now.front.now self.now.size b
            → content_from (space_in b (space_of self.now.space.now)) address 1 ≡ shown_in b 1 result }
        ensures within { (b : List ℕ) → IsFrontOf self.now.front.now self.now.size b → IsWithin 0 self.now.size 1 result }
    {
        let mut stretches = self.space.stretches(self.size, address, 1);
        match stretches.next() {
            Some(stretch) => stretch.kind,
            None => StretchKind::Unmapped,
        }
    }

    /// The byte of the image at a place.
    fn byte_of_image(&self, place: u64) -> Result<u8, Unread>
        ensures { ReadsByte self.now place result }
    {
        if let Some(byte) = self.front.get(place as usize) {
            return Ok(*byte);
        }
        match byte_of_parts(self.parts, place) {
            Some(byte) => Ok(byte),
            None => Err(Unread { place }),
        }
    }

    /// The value of an address, if it has one. The error is a byte of the image that is needed to know it.
    pub fn value(&self, address: u64) -> Result<Option<u8>, Unread>
        ensures { ForEach self.now (λ space. source.value_at space address) result }
    {
        match self.stretch_at(address) {
            StretchKind::Core { offset } => Ok(Some(self.byte_of_image(offset)?)),
            StretchKind::FromFile(bytes) => Ok(bytes.first().copied()),
            StretchKind::NotDumped(_) => Ok(None),
            StretchKind::Cut => Ok(None),
            StretchKind::Unmapped => Ok(None),
        }
    }

    /// The little-endian number in the values of eight addresses, or `None` if one of them has no value. The error is a byte of
    /// the image that is needed to know it.
    pub fn word(&self, address: u64) -> Result<Option<u64>, Unread>
        ensures { ForEach self.now (λ space. source.word_at space address 8) result }
    {
        accepted_segments_fit();
        a_sound_front_is_enough();
        let mut bytes = [0; 8];
        for i in 0..8 {
            let Some(at) = address.checked_add(i as u64) else {
                return Ok(None);
            };
            let Some(byte) = self.value(at)? else {
                return Ok(None);
            };
            bytes[i] = byte;
        }
        Ok(Some(u64_at(&bytes, 0)))
    }

    /// The flags of the segment that decides the address: 1 is PF_X, 2 is PF_W, 4 is PF_R.
    pub fn flags(&self, address: u64) -> Option<u32>
        ensures { InEach self.now (λ space. option_map (λ (d : ℕ × SegmentView). d.1.flags) (source.decider space address)) result }
    {
        a_sound_front_is_enough();
        self.space.flags(address)
    }

    /// Where the address lies in the file that is mapped there.
    pub fn spot(&self, address: u64) -> Option<FileSpot<'c>>
        ensures { option_map spot_view result ≡ source.spot_of address (source.entry_at (space_of self.now.space.now).files address) }
    {
        self.space.spot(address)
    }
}
