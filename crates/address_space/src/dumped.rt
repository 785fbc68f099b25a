// The places of an image that have the bytes of addresses, whatever executables are attached.
ghost use Rattle.std.specs.Prelude.{◌≡◌, ◌<◌, ◌≤◌, ◌-◌, ℕ, List, IfSome, true};
ghost use Rattle.elf_view.specs.ViewWords.{image_of};
ghost use Rattle.address_space.specs.Dumped.{AreValues, HasNoValue};
ghost use Rattle.address_space.specs.Whole.{IsFrontOf};

use crate::locate::held;
use crate::scan::first_segment;
use crate::stretches::ImageRange;
use elf_view::{Elf, a_sound_front_is_enough};

/// The places of an image of `size` bytes that have the bytes of addresses in a row, from `first` on and of at most `limit`, by the
/// segment that decides the first. `None` if the image has no byte of the first. The core is that image, or its first bytes.
pub fn dumped_range(elf: &Elf<'_>, size: u64, first: u64, limit: u64) -> Option<ImageRange>
    requires { 0 < limit }
    ensures values { IfSome result (λ r. (b : List ℕ) → IsFrontOf (image_of elf.now) size b → AreValues b first r.start r.past) }
    ensures range { IfSome result (λ r. (r.start < r.past) × (r.past ≤ size)) }
    ensures few { IfSome result (λ r. r.past - r.start ≤ limit) }
{
    a_sound_front_is_enough();
    let (decided, length) = first_segment(elf.segments(), first, limit);
    let segment = decided?.segment;
    let place = first - segment.vaddr;
    let held = held(&segment, size);
    if place >= held {
        return None;
    }
    let start = segment.offset + place;
    Some(ImageRange {
        start,
        past: start + length.min(held - place),
    })
}

/// Whether an image of `size` bytes leaves an address without a value: no segment covers it, or the image was cut before its byte.
/// The core is that image, or its first bytes.
pub fn has_no_value(elf: &Elf<'_>, size: u64, address: u64) -> bool
    ensures { result ≡ true → (b : List ℕ) → IsFrontOf (image_of elf.now) size b → HasNoValue b address }
{
    a_sound_front_is_enough();
    let (decided, _) = first_segment(elf.segments(), address, 1);
    let Some(decided) = decided else {
        return true;
    };
    let place = address - decided.segment.vaddr;
    held(&decided.segment, size) <= place && place < decided.segment.filesz
}
