// The build IDs of the fronts of a core's mapped files, which is read piece by piece.
ghost use Rattle.std.specs.Prelude.{◌≡◌, ◌+◌, ◌≤◌, MatchResult, OnOk, length};
ghost use Rattle.std.specs.Option.{option_map};
ghost use Rattle.build_replies.specs.Mapped.{id_view};
ghost use Rattle.intake.specs.Parts.{Parts, state_of};
ghost use Rattle.case_queries.specs.FrontIds.{GathersOn, GathersRead, ReadsId};
ghost use Rattle.case_queries.specs.Fronts.{HasSize};
ghost use Rattle.case_queries.specs.Pieces.{SeesMore, SeesPieces};
ghost use Rattle.case_queries.specs.declared.walk.WalkFault.TheVariants as faults;

use crate::pieces::{MOST, lent_pieces, read_more};
use crate::walk::{CaseImage, WalkFault};
use crate::window::Part;
use build_ids::build_id_by_front;
use build_replies::{FrontId, FrontPlace};
use disk_model::Disk;
use intake::Archive;
use seen_memory::{GatherFault, gather};
use std::alloc::Global;

// Gathers `count` bytes of an image from place `start` on, of which these are the first, as far as the first bytes of the image and
// these pieces have them.
fn gather_on(
    alloc: Global,
    image: CaseImage<'_>,
    pieces: &[Part],
    start: u64,
    count: u64,
    bytes: &mut Vec<u8>,
) -> Result<(), GatherFault>
    requires within { start + count ≤ image.size }
    requires few { length bytes.old.items ≤ count }
    ensures { GathersOn image.entry pieces.now start count bytes.old.items result bytes.new.items }
{
    let parts = lent_pieces(alloc, pieces)?;
    gather(image.front, &parts, start, count, bytes)
}

// The same. The bytes of the image that are not at hand are read, each once.
fn gather_read<D: Disk>(
    alloc: Global,
    image: CaseImage<'_>,
    start: u64,
    count: u64,
    bytes: &mut Vec<u8>,
    pieces: &mut Vec<Part>,
    archive: &mut Archive<D>,
) -> Result<(), WalkFault>
    requires has { HasSize (state_of archive.old) image.seq image.size }
    requires within { start + count ≤ image.size }
    requires few { length bytes.old.items ≤ count }
    ensures sees { (before : Parts D) → SeesPieces D.Disk before image.entry pieces.old.items archive.old → SeesMore D.Disk before image.entry pieces.new.items result archive.new }
    ensures read { GathersRead image.entry pieces.old.items start count bytes.old.items result pieces.new.items bytes.new.items }
    ensures has { OnOk result (HasSize (state_of archive.new) image.entry.seq image.entry.size) }
{
    for _count in 0..MOST {
        match gather_on(alloc, image, pieces, start, count, bytes) {
            Ok(()) => return Ok(()),
            Err(GatherFault::OutOfMemory) => return Err(WalkFault::OutOfMemory),
            Err(GatherFault::Unread(unread)) => {
                read_more(alloc, image, unread.place, pieces, archive)?;
            }
        }
    }
    Err(WalkFault::OutOfMemory)
}

// The build ID of a front, kept.
fn kept_id<'a>(alloc: Global, name: &'a [u8], id: Option<&[u8]>) -> Result<FrontId<'a>, WalkFault>
    ensures { MatchResult result (λ front. id_view front ≡ (name.entry.now, option_map (λ x. x.now) id.entry)) (λ fault. fault ≡ faults.OutOfMemory) }
{
    match FrontId::new(alloc, name, id) {
        Ok(front) => Ok(front),
        Err(_) => Err(WalkFault::OutOfMemory),
    }
}

// The build ID of the front at a place of an image. As much of it is read as the ID needs.
pub(crate) fn read_id<'a, D: Disk>(
    alloc: Global,
    image: CaseImage<'_>,
    front: FrontPlace<'a>,
    pieces: &mut Vec<Part>,
    archive: &mut Archive<D>,
) -> Result<FrontId<'a>, WalkFault>
    requires has { HasSize (state_of archive.old) image.seq image.size }
    requires within { front.start + front.count ≤ image.size }
    ensures sees { (before : Parts D) → SeesPieces D.Disk before image.entry pieces.old.items archive.old → SeesMore D.Disk before image.entry pieces.new.items result archive.new }
    ensures id { ReadsId image.entry pieces.old.items front.entry result pieces.new.items }
    ensures has { OnOk result (HasSize (state_of archive.new) image.entry.seq image.entry.size) }
{
    let mut bytes = Vec::new(alloc);
    loop {
        match build_id_by_front(&bytes, front.count) {
            Ok(id) => return kept_id(alloc, front.path, id),
            Err(short) => gather_read(
                alloc,
                image,
                front.start,
                short.wanted,
                &mut bytes,
                pieces,
                archive,
            )?,
        }
    }
}
