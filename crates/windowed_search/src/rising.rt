// Whether the segments of a core are in the order of their addresses.
ghost use Rattle.std.specs.Prelude.{◌≡◌, true};
ghost use Rattle.address_space.specs.Source.{span};
ghost use Rattle.elf_view.specs.SegmentWords.{segment_view, segments_left};
ghost use Rattle.windowed_search.specs.Rising.{IsRising};

use elf_view::{Segment, Segments};

// How many addresses a program header takes.
fn span(segment: &Segment<'_>) -> u64
    ensures { result ≡ span (segment_view segment.now) }
{
    if segment.is_load() { segment.memsz } else { 0 }
}

// Whether each PT_LOAD that takes addresses begins at or after the end of the one before, and none takes the last address of all.
pub(crate) fn is_rising(mut segments: Segments<'_>) -> bool
    ensures { result ≡ true → IsRising 0 (segments_left segments.entry) }
{
    let mut past = 0;
    while let Some(segment) = segments.next() {
        let size = span(&segment);
        if size > 0 {
            if segment.vaddr < past {
                return false;
            }
            let Some(end) = segment.vaddr.checked_add(size) else {
                return false;
            };
            past = end;
        }
    }
    true
}
