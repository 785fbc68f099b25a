// The build ID of an image.
ghost use Rattle.std.specs.Prelude.{◌≡◌, ◌+◌, ◌*◌, ◌≤◌, ◌<◌, length};
ghost use Rattle.std.specs.Option.{option_map};
ghost use Rattle.elf_view.specs.Header.{segment_at, segment_count};
ghost use Rattle.elf_view.specs.SegmentWords.{segment_view};
ghost use Rattle.elf_view.specs.ViewWords.{image_of};
ghost use Rattle.build_ids.specs.BuildId as spec;
ghost use Rattle.build_ids.specs.Notes.{notes_in};

use crate::notes::{Note, behind_first};
use crate::padding::Padding;
use elf_view::{Elf, Segment, Want, u64_at};

/// The p_type of a segment of notes.
pub(crate) const PT_NOTE: u32 = 4;

/// The build ID among the notes in a segment's bytes.
pub(crate) fn id_in(bytes: &[u8], padding: Padding) -> Option<&[u8]>
    ensures { option_map (λ id. id.now) result ≡ spec.id_among (notes_in padding bytes.now) }
{
    let mut rest = bytes;
    while let Some(note) = Note::first(rest, padding) {
        if note.is_build_id() {
            return Some(note.desc);
        }
        rest = behind_first(rest, padding);
    }
    None
}

/// How the notes of program header `i` are padded.
fn padding_of(elf: &Elf<'_>, i: u64) -> Padding
    requires { i < segment_count (image_of elf.now) }
    ensures { result ≡ spec.padding_of (image_of elf.now) i }
{
    let image = elf.image();
    let at = u64_at(image, 32) + 56 * i + 48;
    Padding::by(u64_at(image, at as usize))
}

/// Whether a program header is a PT_NOTE, all of which lies in the image.
fn has_notes(image: &[u8], segment: &Segment<'_>) -> bool
    ensures { result ≡ spec.has_notes image.now (segment_view segment.now) }
{
    let past = u128::from(segment.offset) + u128::from(segment.filesz);
    segment.kind == PT_NOTE && past <= image.len() as u128
}

/// Program header `i`.
#[tactic(auto, using(crate::proofs::HeaderPlaces::header_at))]
pub(crate) fn header_at<'a>(elf: &Elf<'a>, i: u64) -> Segment<'a>
    requires { i < segment_count (image_of elf.now) }
    ensures { segment_view result ≡ segment_at (image_of elf.now) i }
{
    match elf.segment(i) {
        Some(segment) => segment,
        None => unreachable!(),
    }
}

/// The build ID among the notes of program header `i`.
#[tactic(auto, unfolding(crate::specs::BuildId::notes_at))]
fn id_at<'a>(elf: &Elf<'a>, i: u64) -> Option<&'a [u8]>
    requires { i < segment_count (image_of elf.now) }
    ensures { option_map (λ id. id.now) result ≡ spec.id_among (spec.notes_at (image_of elf.now) i) }
{
    let segment = header_at(elf, i);
    if has_notes(elf.image(), &segment) {
        id_in(segment.bytes, padding_of(elf, i))
    } else {
        None
    }
}

/// The build ID among all notes.
pub(crate) fn id_of<'a>(elf: &Elf<'a>) -> Option<&'a [u8]>
    ensures { option_map (λ id. id.now) result ≡ spec.id_among (spec.notes_of (image_of elf.now)) }
{
    for i in 0..elf.header().segments {
        if let Some(id) = id_at(elf, i) {
            return Some(id);
        }
    }
    None
}

/// The build ID of an executable: the descriptor of the first note with the name `GNU`, type NT_GNU_BUILD_ID (3) and 1 to 64
/// bytes. `None` if the bytes have a fault as an executable, or there is no such note.
///
/// Notes are those of the PT_NOTEs all of which lie in the bytes, in table order. They are padded to 4 bytes, and to 8 if
/// p_align is 8. The first note that is not whole ends those of its segment. The bytes may be a front of the file.
#[tactic(auto, unfolding(crate::specs::BuildId::build_id_of))]
pub fn build_id(image: &[u8]) -> Option<&[u8]>
    ensures { option_map (λ id. id.now) result ≡ spec.build_id_of image.now }
{
    match Elf::read(image, Want::Exec) {
        Ok(elf) => id_of(&elf),
        Err(_) => None,
    }
}
