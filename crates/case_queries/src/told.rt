// The mapped files of a core that is read piece by piece, each with the build ID that the core has for it.
ghost use Rattle.std.specs.Prelude.{◌≡◌, ◌≤◌, IfOk, OnOk, length};
ghost use Rattle.elf_view.specs.declared.faults.Want.TheVariants.{Core};
ghost use Rattle.image_replies.specs.CoreWords.{core_bytes};
ghost use Rattle.intake.specs.Parts.{Parts, state_of};
ghost use Rattle.case_queries.specs.FrontIds.{ReadsIds};
ghost use Rattle.case_queries.specs.Fronts.{HasSize, IsSoundFront, ReadsFront};
ghost use Rattle.case_queries.specs.Pieces.{SeesMore, SeesPieces};
ghost use Rattle.case_queries.specs.ToldWords.{IsToldBy, SeesTold};

use crate::builds::read_id;
use crate::walk::{CaseImage, WalkFault};
use crate::window::Part;
use build_replies::{FrontId, MappedFiles};
use disk_model::Disk;
use elf_view::a_sound_front_is_enough;
use image_replies::CoreImage;
use intake::Archive;
use std::alloc::Global;

/// The mapped files of a core, each with the build ID that the
/// core has for it, and the pieces of its image that have these.
#[derive(Drop)]
pub struct ToldFiles<'a> {
    // `None` is a core without NT_FILE.
    pub(crate) files: Option<Vec<FrontId<'a>>>,
    pub(crate) pieces: Vec<Part>,
}

// The build IDs of a core's mapped files, one for each name. As much of the image is read as they need, each byte once.
fn read_ids<'a, D: Disk>(
    alloc: Global,
    image: CaseImage<'_>,
    mapped: &MappedFiles<'a>,
    pieces: &mut Vec<Part>,
    archive: &mut Archive<D>,
) -> Result<Vec<FrontId<'a>>, WalkFault>
    requires has { HasSize (state_of archive.old) image.seq image.size }
    requires size { mapped.now.fronts.size ≡ image.size }
    ensures sees { (before : Parts D) → SeesPieces D.Disk before image.entry pieces.old.items archive.old → SeesMore D.Disk before image.entry pieces.new.items result archive.new }
    ensures ids { ReadsIds image.entry pieces.old.items mapped.now result pieces.new.items }
    ensures has { OnOk result (HasSize (state_of archive.new) image.entry.seq image.entry.size) }
{
    let mut ids = Vec::new(alloc);
    for i in 0..mapped.count() {
        let id = read_id(alloc, image, mapped.front(i), pieces, archive)?;
        let Ok(()) = ids.push(id) else {
            return Err(WalkFault::OutOfMemory);
        };
    }
    Ok(ids)
}

/// Finds the build IDs that a core has for its mapped files. The core may be the first bytes alone of the case's image. Of the rest as
/// much is read as the IDs need, each byte once.
///
/// # Errors
///
/// `Unread`: the image can't be read. `OutOfMemory`: there is no memory for the results.
pub fn told_files<'a, D: Disk>(
    alloc: Global,
    image: CaseImage<'_>,
    core: &CoreImage<'a>,
    archive: &mut Archive<D>,
) -> Result<ToldFiles<'a>, WalkFault>
    requires has { HasSize (state_of archive.old) image.seq image.size }
    requires short { length image.front.now ≤ image.size }
    requires front { core_bytes core.now ≡ image.front.now }
    requires sound { IsSoundFront Core image.front.now }
    ensures sees { (before : Parts D) → ReadsFront D.Disk before image.entry.seq image.entry.front.now archive.old
        → SeesTold D.Disk before image.entry result archive.new }
    ensures told { IfOk result (IsToldBy image.entry) }
    ensures has { OnOk result (HasSize (state_of archive.new) image.entry.seq image.entry.size) }
{
    a_sound_front_is_enough();
    let Ok(found) = MappedFiles::of(alloc, core, image.size as u64) else {
        return Err(WalkFault::OutOfMemory);
    };
    let mut pieces = Vec::new(alloc);
    let Some(mapped) = found else {
        return Ok(ToldFiles {
            files: None,
            pieces,
        });
    };
    let ids = read_ids(alloc, image, &mapped, &mut pieces, archive)?;
    Ok(ToldFiles {
        files: Some(ids),
        pieces,
    })
}
