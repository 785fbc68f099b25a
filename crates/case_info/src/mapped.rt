// The mapped files of a core, and which executables are used for them.
ghost use Rattle.std.specs.Prelude.{◌≡◌, ◌≤◌, ℕ, IfErr, IfOk, List, length, map};
ghost use Rattle.case_queries.specs.Fronts.{HasSize};
ghost use Rattle.case_screens.specs.Core.{notes_in};
ghost use Rattle.elf_view.specs.declared.faults.Want.TheVariants as want;
ghost use Rattle.intake.specs.Parts.{Parts, state_of};
ghost use Rattle.case_info.specs.Fronts.{IsFront, SeesFront};
ghost use Rattle.case_info.specs.Gathering.{FilesOn, SeesFiles, file_view};

use crate::front::{core_in, front_of, size_of};
use crate::gathered::{builds_in, builds_of, executables_of, told_of};
use crate::kept_files::{KeptFile, kept_files};
use archive_files::Refusal;
use case_queries::CaseImage;
use disk_model::Disk;
use elf_view::Want;
use intake::{Archive, Settings};
use std::alloc::Global;

// Opens the archive on a disk, and sees the mapped files of a core.
pub(crate) fn files_on<D: Disk + Drop>(
    alloc: Global,
    disk: D,
    seq: u32,
) -> Result<Vec<KeptFile>, Refusal>
    ensures { FilesOn D.Disk seq disk result }
{
    match Archive::open(alloc, disk, Settings { limit: 0 }) {
        Ok(archive) => {
            let mut archive = archive;
            files_in(alloc, seq, &mut archive)
        }
        Err((fault, _)) => Err(Refusal::Open(fault)),
    }
}

// The same in an archive that is open.
pub(crate) fn files_in<D: Disk>(
    alloc: Global,
    seq: u32,
    archive: &mut Archive<D>,
) -> Result<Vec<KeptFile>, Refusal>
    ensures { IfOk result (λ files. SeesFiles D.Disk archive.old seq (map file_view files.items) archive.new) }
{
    let size = size_of(seq, archive)?;
    let front = front_of(alloc, seq, size, Want::Core, archive)?;
    let image = CaseImage {
        seq,
        size,
        front: &front,
    };
    Ok(files_by_front(alloc, image, archive)?)
}

// The same of a core of which the first bytes are at hand. A core that has a fault has no files: that is no refusal.
fn files_by_front<D: Disk>(
    alloc: Global,
    image: CaseImage<'_>,
    archive: &mut Archive<D>,
) -> Result<Vec<KeptFile>, Refusal>
    requires has { HasSize (state_of archive.old) image.seq image.size }
    requires short { length image.front.now ≤ image.size }
    ensures sees { IfOk result (λ files. (old : Parts D) → HasSize (state_of old) image.entry.seq image.entry.size
        → SeesFront D.Disk old image.entry.seq want.Core image.entry.front.now archive.old → SeesFiles D.Disk old image.entry.seq (map file_view files.items) archive.new) }
    ensures passes { (whole : List ℕ) → IsFront want.Core image.entry.front.now whole → IfErr (notes_in whole) (λ fault. IfErr result (λ why. ⊥)) }
{
    let none = Vec::new(alloc);
    let Ok(core) = core_in(image.front).core else {
        return Ok(none);
    };
    let elf = core.elf();
    let image = CaseImage {
        seq: image.seq,
        size: image.size,
        front: elf.image(),
    };
    let told = told_of(alloc, image, &core, archive)?;
    let executables = executables_of(alloc, &told, archive)?;
    let facts = builds_of(alloc, image, &core, told, &executables, archive)?;
    Ok(kept_files(alloc, builds_in(&facts))?)
}
