// From places in the file to addresses.
ghost use Rattle.std.specs.Prelude.{◌≡◌};
ghost use Rattle.elf_view.specs.SegmentWords.{segment_view};
ghost use Rattle.elf_view.specs.ViewWords.{image_of};
ghost use Rattle.symbols.specs.Offsets as spec;

use elf_view::{Elf, Segment};

/// Whether a segment is loaded and its bytes in the file have one at an offset.
fn has_offset(segment: &Segment<'_>, offset: u64) -> bool
    ensures { result ≡ spec.has_offset offset (segment_view segment.now) }
{
    if !segment.is_load() || offset < segment.offset {
        return false;
    }
    offset - segment.offset < segment.filesz
}

/// The address, in the image's own numbering, of the byte at an offset of the file: that in the first PT_LOAD whose bytes
/// in the file have it. `None` if no such segment has it, or if it is over 2^64 - 1.
pub fn vaddr_of_offset(elf: &Elf<'_>, offset: u64) -> Option<u64>
    ensures { result ≡ spec.address_of (image_of elf.now) offset }
{
    let mut segments = elf.segments();
    while let Some(segment) = segments.next() {
        if has_offset(&segment, offset) {
            return segment.vaddr.checked_add(offset - segment.offset);
        }
    }
    None
}
