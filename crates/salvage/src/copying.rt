// The cases that an archive shows, copied onto a new disk.
ghost use Rattle.case_journal.specs.Viewing.{OnlyReads};
ghost use Rattle.salvage.specs.Copying.{CopiesAs, CopiesShown, found_bytes};
ghost use Rattle.salvage.specs.Readings.{FoundWithin};
ghost use Rattle.salvage.specs.Showing.{IsWithin};

use crate::cases_found::Found;
use crate::fronted::Fronted;
use crate::shown::{Patch, Shown};
use crate::source::Source;
use archive_care::{CopyFault, CopyWish, copy_archive};
use disk_model::Disk;
use std::alloc::Global;

/// Copies the cases that an archive shows, with a byte of it shown as another if a sight says so, onto a new disk, whose bytes may be
/// any. It becomes an archive of the wanted shape, and answers as `copy_archive` does.
pub fn copy_shown<S: Source, N: Disk>(
    alloc: Global,
    source: &S,
    patch: Option<Patch>,
    onto: &mut N,
    wanted: CopyWish,
) -> Result<(), CopyFault>
    requires { IsWithin (S.size source.now) patch }
    ensures { CopiesShown S.Source N.Disk source.now patch wanted onto.old onto.new result }
{
    let mut view = Shown::new(source, patch);
    copy_archive(alloc, &mut view, onto, wanted)
}

/// Copies the cases that were found of an archive onto a new disk, whose bytes may be any. It becomes an archive of the wanted shape, and
/// answers as `copy_archive` does.
pub fn copy_cases<S: Source, N: Disk>(
    alloc: Global,
    source: &S,
    found: &Found,
    onto: &mut N,
    wanted: CopyWish,
) -> Result<(), CopyFault>
    requires { FoundWithin (S.size source.now) found.now }
    ensures { CopiesAs N.Disk (S.is_honest source.now) (found_bytes found.now (S.seen source.now)) wanted onto.old onto.new result }
{
    match &found.more {
        Some(more) => {
            let view = Fronted::new(source, &more.front);
            copy_shown(alloc, &view, None, onto, wanted)
        }
        None => copy_shown(alloc, source, found.sight.patch, onto, wanted),
    }
}
