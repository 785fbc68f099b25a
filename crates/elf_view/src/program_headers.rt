// Program headers, one by one and as an iterator.
ghost use Rattle.std.specs.Prelude.{◌≡◌, ◌+◌, ◌*◌, ◌≤◌, ◌<◌, length, slice_get};
ghost use Rattle.std.specs.Option.{option_map};
ghost use Rattle.elf_view.specs.Header as spec;

use crate::numbers::{part, u32_at, u64_at};

/// The p_type of a segment that lies in memory.
const PT_LOAD: u32 = 1;

/// The p_type of a segment of notes.
pub(crate) const PT_NOTE: u32 = 4;

/// A program header (System V gABI, "Program Header"), with its bytes.
#[derive(Clone, Copy, Debug)]
pub struct Segment<'a> {
    /// p_type: 1 is PT_LOAD, 4 is PT_NOTE.
    pub kind: u32,
    /// p_flags: 1 is PF_X, 2 is PF_W, 4 is PF_R.
    pub flags: u32,
    /// p_offset: where the bytes begin in the image.
    pub offset: u64,
    /// p_vaddr: the address of the first byte in memory.
    pub vaddr: u64,
    /// p_filesz: how many bytes the image is to have.
    pub filesz: u64,
    /// p_memsz: how many bytes the segment takes in memory.
    pub memsz: u64,
    /// Those of the `filesz` bytes from `offset` on that lie in the image.
    pub bytes: &'a [u8],
}

/// The program headers of an image, in table order.
#[derive(Clone, Copy, Debug)]
pub struct Segments<'a> {
    image: &'a [u8],
    index: u64,
    left: u64,
    ghost header: { 64 ≤ length image.now },
    ghost table: { 0 < left → spec.e_phoff image.now + 56 * (index + left) ≤ length image.now },
}

impl<'a> Segment<'a> {
    ghost use Rattle.elf_view.specs.NoteList.{note_rests, segment_rests};
    ghost use Rattle.elf_view.specs.SegmentWords.{segment_view};

    /// The program header from byte `at` of the image on.
    #[tactic(auto, unfolding(crate::specs::Header::segment_from))]
    fn read(image: &'a [u8], at: usize) -> Segment<'a>
        requires { at + 56 ≤ length image.now }
        ensures { segment_view result ≡ spec.segment_from image.now at }
    {
        let offset = u64_at(image, at + 8);
        let filesz = u64_at(image, at + 32);
        Segment {
            kind: u32_at(image, at),
            flags: u32_at(image, at + 4),
            offset,
            vaddr: u64_at(image, at + 16),
            filesz,
            memsz: u64_at(image, at + 40),
            bytes: part(image, offset, filesz),
        }
    }

    /// Whether it lies in memory: it is a PT_LOAD.
    pub fn is_load(&self) -> bool
        ensures { result ≡ spec.is_load (segment_view self.now) }
    {
        self.kind == PT_LOAD
    }

    /// The address after its last in memory, p_vaddr + p_memsz. That of a PT_LOAD of an accepted image is at most 2^64.
    pub fn past(&self) -> u128
        ensures { result ≡ spec.memory_past (segment_view self.now) }
    {
        u128::from(self.vaddr) + u128::from(self.memsz)
    }

    /// Whether p_vaddr <= `address` < p_vaddr + p_memsz.
    pub fn covers(&self, address: u64) -> bool
        ensures { result ≡ spec.covers address (segment_view self.now) }
    {
        self.vaddr <= address && u128::from(address) < self.past()
    }

    /// The bytes of its notes, or no bytes if it is no PT_NOTE.
    #[tactic(auto, unfolding(crate::specs::NoteList::rests_past))]
    pub(crate) fn note_bytes(&self) -> &'a [u8]
        ensures { note_rests result.now ≡ segment_rests (segment_view self.now) }
    {
        if self.kind == PT_NOTE {
            self.bytes
        } else {
            &[]
        }
    }
}

impl<'a> Segments<'a> {
    ghost use Rattle.elf_view.specs.SegmentWords.{segment_view, segments_left};

    /// `left` program headers from number `index` on.
    #[tactic(auto, unfolding(crate::specs::SegmentWords::segments_left))]
    pub(crate) fn new(image: &'a [u8], index: u64, left: u64) -> Segments<'a>
        requires header { 64 ≤ length image.now }
        requires table { 0 < left → spec.e_phoff image.now + 56 * (index + left) ≤ length image.now }
        ensures { segments_left result ≡ spec.segments_between image.now index left }
    {
        Segments { image, index, left }
    }

    /// The one that is `i` places on.
    pub(crate) fn get(&self, i: u64) -> Option<Segment<'a>>
        ensures { option_map segment_view result ≡ slice_get (segments_left self.now) i }
    {
        if i >= self.left {
            return None;
        }
        let at = u64_at(self.image, 32) + 56 * (self.index + i);
        Some(Segment::read(self.image, at as usize))
    }
}

impl<'a> Iterator for Segments<'a> {
    ghost use Rattle.std.specs.Iterator.{UpTo, YieldsFirstBy, item_count};
    ghost use Rattle.std.specs.Iterator.SizeHint.{IsExactHint, IsWithinCount};
    ghost use Rattle.std.specs.Prelude.{IfSome};
    ghost use Rattle.elf_view.specs.SegmentWords.{segment_view, segments_left};

    type Item = Segment<'a>;

    ghost next_gives = { YieldsFirstBy segment_view segments_left };

    ghost remaining = { item_count segments_left };

    #[tactic(auto, unfolding(crate::specs::SegmentWords::segments_left))]
    fn next(&mut self) -> Option<Segment<'a>> {
        if self.left == 0 {
            return None;
        }
        let at = u64_at(self.image, 32) + 56 * self.index;
        let segment = Segment::read(self.image, at as usize);
        self.left -= 1;
        self.index += 1;
        Some(segment)
    }

    #[tactic(auto, unfolding(crate::specs::SegmentWords::segments_left), using(crate::proofs::Tables::segments_len))]
    fn size_hint(&self) -> (usize, Option<usize>)
        ensures lower { IsWithinCount result.0 (item_count segments_left self.now) }
        ensures upper { IfSome result.1 (UpTo (item_count segments_left self.now)) }
        ensures exact { IsExactHint result (length (segments_left self.now)) }
    {
        (self.left as usize, Some(self.left as usize))
    }
}
