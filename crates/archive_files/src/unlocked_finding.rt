// The place of a case's image, and whether the case is there.
ghost use Rattle.std.specs.Prelude.{◌≡◌};
ghost use Rattle.intake.specs.Parts.{state_of};
ghost use Rattle.archive_files.specs.UnlockedFinding.{FindsCase, FindsPlaces, has_number};

use crate::unlocked_faults::UnlockedFault;
use disk_model::Disk;
use intake::{Archive, ByteRange, Settings};
use std::alloc::Global;

// The places of the image of a case of the archive on a disk.
pub(crate) fn find_places<D: Disk + Drop>(
    alloc: Global,
    disk: D,
    seq: u32,
) -> Result<Vec<ByteRange>, UnlockedFault>
    ensures { FindsPlaces D.Disk disk seq result }
{
    match Archive::open(alloc, disk, Settings { limit: 0 }) {
        Ok(archive) => match archive.image_ranges(seq) {
            Ok(ranges) => Ok(ranges),
            Err(fault) => Err(UnlockedFault::Archive(fault)),
        },
        Err((fault, _)) => Err(UnlockedFault::Open(fault)),
    }
}

// Whether the archive on a disk has a case of this number.
pub(crate) fn has_case<D: Disk + Drop>(
    alloc: Global,
    disk: D,
    seq: u32,
) -> Result<bool, UnlockedFault>
    ensures { FindsCase D.Disk disk seq result }
{
    match Archive::open(alloc, disk, Settings { limit: 0 }) {
        Ok(archive) => Ok(has_number(&archive, seq)),
        Err((fault, _)) => Err(UnlockedFault::Reopen(fault)),
    }
}

// Whether an open archive has a case of this number.
pub(crate) fn has_number<D: Disk>(archive: &Archive<D>, seq: u32) -> bool
    ensures { result ≡ has_number (state_of archive.now) seq }
{
    match archive.case(seq) {
        Ok(_) => true,
        Err(_) => false,
    }
}
