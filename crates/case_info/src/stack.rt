// The stack of a core's thread, as far as a page shows it.
ghost use Rattle.std.specs.Prelude.{◌≡◌, ◌≤◌, ◌-◌, IfOk, Ok, OnOk, length};
ghost use Rattle.case_queries.specs.Fronts.{HasSize};
ghost use Rattle.image_replies.specs.CoreWords.{core_bytes};
ghost use Rattle.intake.specs.Parts.{state_of};
ghost use Rattle.case_info.specs.Stacks.{HasStack, ReadsStack};

use address_space::{ImageRange, image_range};
use archive_files::Refusal;
use case_pages::{StackRange, stack_of};
use case_queries::CaseImage;
use disk_model::Disk;
use image_replies::CoreImage;
use intake::Archive;
use memory_replies::Window;
use std::alloc::Global;

// How many places of an image are read for a stack at most.
const MOST: u64 = 65_536;

const NOWHERE: ImageRange = ImageRange { start: 0, past: 0 };

// Bytes of an image, from a place on.
#[derive(Drop)]
pub(crate) struct StackPart {
    pub(crate) at: u64,
    pub(crate) bytes: Vec<u8>,
}

// The part, borrowed.
pub(crate) fn lent_stack<'p>(size: usize, part: &'p StackPart) -> Window<'p>
    ensures { (result.size ≡ size) × (result.at ≡ part.now.at) × (result.bytes.now ≡ part.now.bytes.items) }
{
    Window {
        size: size as u64,
        at: part.at,
        bytes: &part.bytes,
    }
}

// The places of an image of `size` bytes that have the bytes which
// it has for these addresses; an empty range, if they lie far apart.
fn places_of(core: &CoreImage<'_>, size: u64, range: StackRange) -> ImageRange
    ensures within { (result.start ≤ result.past) × (result.past ≤ size) }
    ensures few { result.past - result.start ≤ 65536 }
    ensures held { HasStack (core_bytes core.now) size range.first range.length result.start result.past }
{
    let places = image_range(&core.elf(), size, range.first, range.length);
    if places.past - places.start > MOST {
        return NOWHERE;
    }
    places
}

// Reads the bytes that an image has for the addresses that a page
// shows as a stack. They are read only if they lie close together.
pub(crate) fn read_stack<D: Disk>(
    alloc: Global,
    image: CaseImage<'_>,
    core: &CoreImage<'_>,
    archive: &mut Archive<D>,
) -> Result<StackPart, Refusal>
    requires { HasSize (state_of archive.old) image.seq image.size }
    ensures reads { IfOk result (λ part. ReadsStack D.Disk archive.old image.entry.seq part archive.new) }
    ensures has { OnOk result (HasSize (state_of archive.new) image.entry.seq image.entry.size) }
{
    let places = match stack_of(core) {
        Some(range) => places_of(core, image.size as u64, range),
        None => NOWHERE,
    };
    read_places(alloc, image, places, archive)
}

// Reads these places of an image.
fn read_places<D: Disk>(
    alloc: Global,
    image: CaseImage<'_>,
    places: ImageRange,
    archive: &mut Archive<D>,
) -> Result<StackPart, Refusal>
    requires has { HasSize (state_of archive.old) image.seq image.size }
    requires within { (places.start ≤ places.past) × (places.past ≤ image.size) }
    requires few { places.past - places.start ≤ 65536 }
    ensures reads { IfOk result (λ part. ReadsStack D.Disk archive.old image.entry.seq part archive.new) }
    ensures place { IfOk result (λ part. (part.at ≡ places.start) × (length part.bytes.items ≡ places.past - places.start)) }
    ensures has { OnOk result (HasSize (state_of archive.new) image.entry.seq image.entry.size) }
{
    let mut bytes = Vec::new(alloc);
    bytes.resize((places.past - places.start) as usize, 0)?;
    match archive.image_part(image.seq, places.start, &mut bytes) {
        Ok(()) => Ok(StackPart {
            at: places.start,
            bytes,
        }),
        Err(fault) => Err(Refusal::Call(fault)),
    }
}
