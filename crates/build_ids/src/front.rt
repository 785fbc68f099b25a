// The build ID of an image by its first bytes.
ghost use Rattle.std.specs.Prelude.{◌≡◌, ◌+◌, ◌*◌, ◌≤◌, ◌<◌, ℕ, length};
ghost use Rattle.elf_view.specs.Header.{segment_at, segment_count};
ghost use Rattle.elf_view.specs.ViewWords.{image_of};
ghost use Rattle.build_ids.specs.Fronts.{HasNotesBefore, GivesId};

use crate::ids::{PT_NOTE, build_id, header_at, id_of};
use elf_view::{Elf, Want, a_sound_front_is_enough, soundness_has_no_order, u16_at, u64_at};

/// The sizes of the file header and of a program header.
const FILE_HEADER: u64 = 64;

const PROGRAM_HEADER: u64 = 56;

/// The first bytes of an image that are at hand don't determine its build ID.
#[derive(Clone, Copy, PartialEq, Eq)]
pub struct ShortFront {
    /// How many first bytes are wanted. Once they are at hand, more may be.
    pub wanted: u64,
}

/// Where the notes of program header `i` end, if it is a PT_NOTE all of which lies in an image of `size` bytes; else 0.
fn notes_end(elf: &Elf<'_>, size: u64, i: u64) -> u64
    requires { i < segment_count (image_of elf.now) }
    ensures has { HasNotesBefore size result (segment_at (image_of elf.now) i) }
    ensures within { result ≤ size }
{
    let segment = header_at(elf, i);
    if segment.kind != PT_NOTE {
        return 0;
    }
    match segment.offset.checked_add(segment.filesz) {
        Some(end) if end <= size => end,
        _ => 0,
    }
}

/// The same of all program headers: where the last of the notes ends.
fn last_end(elf: &Elf<'_>, size: u64) -> u64
    ensures has { (i : ℕ) → i < segment_count (image_of elf.now) → HasNotesBefore size result (segment_at (image_of elf.now) i) }
    ensures within { result ≤ size }
{
    let mut end = 0;
    for i in 0..elf.header().segments {
        end = notes_end(elf, size, i).max(end);
    }
    end
}

/// How many of the first bytes of an image of `size` bytes its headers
/// need, as far as these show. No answer depends on the number.
fn headers_end(front: &[u8], size: u64) -> u64
    requires { length front.now < size }
    ensures more { length front.now < result }
    ensures within { result ≤ size }
{
    let count = front.len() as u64;
    if count < FILE_HEADER {
        return FILE_HEADER.min(size);
    }
    let table = PROGRAM_HEADER * u64::from(u16_at(front, 56));
    let end = u64_at(front, 32).saturating_add(table);
    if count < end && end < size {
        return end;
    }
    size
}

/// The build ID of an image of `size` bytes, of which these are the first, if they determine it: `None` is an image that has no
/// build ID. All bytes determine it; the bytes of an executable's headers and notes do too, and so do 64 bytes of a file that is
/// no executable. The error is how many bytes are wanted: more than there are.
pub fn build_id_by_front(front: &[u8], size: u64) -> Result<Option<&[u8]>, ShortFront>
    requires { length front.now ≤ size }
    ensures { GivesId front.now size result }
{
    a_sound_front_is_enough();
    soundness_has_no_order();
    let count = front.len() as u64;
    if count == size {
        return Ok(build_id(front));
    }
    if count >= FILE_HEADER && !front.starts_with(b"\x7fELF") {
        return Ok(None);
    }
    let Ok(elf) = Elf::read(front, Want::Exec) else {
        let wanted = headers_end(front, size);
        return Err(ShortFront { wanted });
    };
    let wanted = last_end(&elf, size);
    if count < wanted {
        return Err(ShortFront { wanted });
    }
    Ok(id_of(&elf))
}
