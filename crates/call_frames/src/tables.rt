// Where an image has its `.eh_frame`.
ghost use Rattle.std.specs.Prelude.{◌≡◌, find};
ghost use Rattle.std.specs.Option.{option_map};
ghost use Rattle.elf_view.specs.Header.{segments_of};
ghost use Rattle.elf_view.specs.SegmentWords.{segment_view};
ghost use Rattle.elf_view.specs.ViewWords.{image_of};
ghost use Rattle.call_frames.specs.EntryWords.{data_table};
ghost use Rattle.call_frames.specs.Tables as spec;

use crate::common::Format;
use crate::entries::rest_at;
use crate::pointers::pointer;
use crate::table_data::TableData;
use elf_view::{Elf, Segment};
use inflate::SectionBytes;

/// The type of the segment that holds `.eh_frame_hdr`.
const PT_GNU_EH_FRAME: u32 = 0x6474_e550;

/// The encoding of the pointer to `.eh_frame`: four signed bytes, relative to their place.
const RELATIVE: u8 = 0x1b;

/// The section `.eh_frame` of an image.
fn eh_frame_in<'a>(elf: &Elf<'a>) -> Option<TableData<'a>>
    ensures { option_map data_table result ≡ spec.eh_frame_in_image (image_of elf.now) }
{
    let section = elf.named_section(b".eh_frame")?;
    let bytes = match section.bytes {
        Some(bytes) => bytes,
        None => &[],
    };
    Some(TableData {
        format: Format::EhFrame,
        address: section.addr,
        bytes: SectionBytes::Stored(bytes),
    })
}

/// The first PT_GNU_EH_FRAME.
fn header_segment<'a>(elf: &Elf<'a>) -> Option<Segment<'a>>
    ensures { option_map segment_view result ≡ find spec.is_header (segments_of (image_of elf.now)) }
{
    let mut segments = elf.segments();
    while let Some(segment) = segments.next() {
        if segment.kind == PT_GNU_EH_FRAME {
            return Some(segment);
        }
    }
    None
}

/// The address of `.eh_frame` that a PT_GNU_EH_FRAME gives.
#[tactic(auto, unfolding(crate::specs::Tables::told_address))]
fn told_address(segment: &Segment<'_>) -> Option<u64>
    ensures { result ≡ spec.told_address (segment_view segment.now) }
{
    if !segment.bytes.starts_with(&[1, RELATIVE]) {
        return None;
    }
    let place = segment.vaddr.wrapping_add(4);
    let (address, _) = pointer(RELATIVE, place, rest_at(segment.bytes, 4))?;
    Some(address)
}

/// Whether a segment is loaded and its bytes in the file have the one of an address.
fn has_address(segment: &Segment<'_>, address: u64) -> bool
    ensures { result ≡ spec.has_address address (segment_view segment.now) }
{
    segment.is_load() && segment.vaddr <= address && address - segment.vaddr < segment.filesz
}

/// What of the file the first segment that has an address has from there on.
fn bytes_at<'a>(elf: &Elf<'a>, address: u64) -> Option<&'a [u8]>
    ensures { option_map (λ bytes. bytes.now) result ≡ spec.bytes_at (image_of elf.now) address }
{
    let mut segments = elf.segments();
    while let Some(segment) = segments.next() {
        if has_address(&segment, address) {
            let offset = address.saturating_sub(segment.vaddr) as usize;
            return Some(rest_at(segment.bytes, offset));
        }
    }
    None
}

/// The table that PT_GNU_EH_FRAME leads to.
fn segment_table<'a>(elf: &Elf<'a>) -> Option<TableData<'a>>
    ensures { option_map data_table result ≡ spec.segment_table (image_of elf.now) }
{
    let header = header_segment(elf)?;
    let address = told_address(&header)?;
    let bytes = bytes_at(elf, address)?;
    Some(TableData {
        format: Format::EhFrame,
        address,
        bytes: SectionBytes::Stored(bytes),
    })
}

/// The table of the section `.eh_frame`, else the one that PT_GNU_EH_FRAME leads to, else one without entries.
#[tactic(auto, unfolding(crate::specs::Tables::eh_frame_of))]
pub(crate) fn eh_frame<'a>(elf: &Elf<'a>) -> TableData<'a>
    ensures { data_table result ≡ spec.eh_frame_of (image_of elf.now) }
{
    if let Some(table) = eh_frame_in(elf) {
        return table;
    }
    match segment_table(elf) {
        Some(table) => table,
        None => TableData::empty(Format::EhFrame),
    }
}
