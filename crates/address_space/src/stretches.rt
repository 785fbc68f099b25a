// The parts of a range of addresses, each of one place, and the places of a range's bytes in an image.
ghost use Rattle.std.specs.Prelude.{◌+◌, ◌^◌, ◌≤◌};
ghost use Rattle.elf_view.specs.Header.{segments_of};
ghost use Rattle.elf_view.specs.SegmentWords.{segment_view, segments_left};
ghost use Rattle.elf_view.specs.ViewWords.{image_of};
ghost use Rattle.address_space.specs.Whole.{AreHeldWithin, IsHeldWithin};

use crate::source::Stretch;
use crate::space::AddressSpace;
use elf_view::{Elf, Segment, Segments};

/// Places of an image in a row.
#[derive(Clone, Copy, Debug, PartialEq, Eq)]
pub struct ImageRange {
    /// The first place.
    pub start: u64,
    /// The place after the last.
    pub past: u64,
}

// No place.
const NOWHERE: ImageRange = ImageRange {
    start: u64::MAX,
    past: 0,
};

// The places that have the bytes of `length` addresses from `first` on, as far as the segment's file range in an image of `size`
// bytes has them.
fn held_by(segment: &Segment<'_>, size: u64, first: u64, length: u64) -> ImageRange
    ensures held { IsHeldWithin size first length result.start result.past (segment_view segment.now) }
    ensures within { result.past ≤ size }
{
    if !segment.is_load() {
        return NOWHERE;
    }
    let skipped = first.saturating_sub(segment.vaddr);
    let before = segment.vaddr.saturating_sub(first);
    let wanted = skipped.saturating_add(length).saturating_sub(before);
    let start = segment.offset.saturating_add(skipped);
    let past = segment
        .offset
        .saturating_add(wanted.min(segment.filesz))
        .min(size);
    if past <= start {
        return NOWHERE;
    }
    ImageRange { start, past }
}

// The places that have the bytes of `length` addresses from `first` on, in the file ranges of these segments.
fn held_by_any(mut segments: Segments<'_>, size: u64, first: u64, length: u64) -> ImageRange
    ensures held { AreHeldWithin size first length result.start result.past (segments_left segments.entry) }
    ensures within { result.past ≤ size }
{
    let mut held = NOWHERE;
    while let Some(segment) = segments.next() {
        let more = held_by(&segment, size, first, length);
        held = ImageRange {
            start: held.start.min(more.start),
            past: held.past.max(more.past),
        };
    }
    held
}

/// The places of an image of `size` bytes from the first to the last that has the byte of one of `length` addresses from `first`
/// on. The core is that image, or its first bytes.
pub fn image_range(elf: &Elf<'_>, size: u64, first: u64, length: u64) -> ImageRange
    ensures held { AreHeldWithin size first length result.start result.past (segments_of (image_of elf.now)) }
    ensures within { (result.start ≤ result.past) × (result.past ≤ size) }
{
    let held = held_by_any(elf.segments(), size, first, length);
    ImageRange {
        start: held.start.min(held.past),
        past: held.past,
    }
}

/// The parts of a range of addresses, in rising order; each has one place.
#[derive(Clone, Copy)]
pub struct Stretches<'s, 'a> {
    space: &'s AddressSpace<'a>,
    size: u64,
    at: u64,
    left: u64,
    ghost fits: { at + left ≤ 2 ^ 64 },
}

impl<'s, 'a> Stretches<'s, 'a> {
    ghost use Rattle.address_space.specs.SpaceWords.{space_of};
    ghost use Rattle.address_space.specs.StretchesWords.{AreLeft};

    pub(crate) fn new(
        space: &'s AddressSpace<'a>,
        size: u64,
        at: u64,
        left: u64,
    ) -> Stretches<'s, 'a>
        requires { at + left ≤ 2 ^ 64 }
        ensures { AreLeft (space_of space.now) (image_of space.now.elf) size at left result }
    {
        Stretches {
            space,
            size,
            at,
            left,
        }
    }
}

impl<'s, 'a> Iterator for Stretches<'s, 'a> {
    ghost use Rattle.std.specs.Iterator.{at_most};
    ghost use Rattle.address_space.specs.StretchesWords.{StretchStep};

    type Item = Stretch<'a>;

    ghost next_gives = { StretchStep };

    ghost remaining = { λ s. at_most s.left };

    fn next(&mut self) -> Option<Stretch<'a>> {
        if self.left == 0 {
            return None;
        }
        let placed = self.space.place(self.size, self.at, self.left);
        let stretch = Stretch {
            first: self.at,
            length: placed.length,
            kind: placed.kind,
        };
        self.left -= placed.length;
        self.at = self.at.saturating_add(placed.length);
        Some(stretch)
    }
}
