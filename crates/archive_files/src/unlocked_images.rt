// The images of an archive, read while others may change it.
ghost use Rattle.std.specs.Prelude.{◌≡◌, ◌+◌, ◌≤◌, ◌++◌, false, IsTrue, IfErr, IfOk, OnOk};
ghost use Rattle.case_journal.specs.Viewing.{OnlyReads};
ghost use Rattle.disk_model.specs.Places.{part};
ghost use Rattle.intake.specs.Parts.{state_of};
ghost use Rattle.intake.specs.Ranges.{AreWithin, bytes_in};
ghost use Rattle.intake.specs.Reading.{IsReadFault};
ghost use Rattle.shared_disk.specs.Looks.{shared_of};
ghost use Rattle.archive_files.specs.UnlockedImages.{AreSeen, IsRead};
ghost use Rattle.archive_files.specs.UnlockedPlaces.{IsThere};

use archive_checks::{Verdict, verdict_of};
use disk_model::Disk;
use intake::{Archive, ArchiveFault, ByteRange};
use shared_disk::{Looked, SharedDisk};
use std::alloc::Global;

// A case, and the finding on its image.
#[derive(Clone, Copy)]
pub(crate) struct SeenCase {
    pub(crate) seq: u32,
    pub(crate) verdict: Verdict,
}

// The finding on the image of each case, in the order of their numbers. For each image those bytes are read that the case's blocks
// have now. It takes as much memory as the longest image has bytes.
pub(crate) fn see_images<S: SharedDisk + Drop, D: Disk>(
    alloc: Global,
    looked: &Looked<S>,
    archive: &Archive<D>,
) -> Result<Vec<SeenCase>, ArchiveFault>
    requires runs { (state_of archive.now).stopped ≡ false }
    requires sized { D.size archive.now.disk ≡ S.size (shared_of looked.now) }
    ensures seen { IfOk result (λ seen. AreSeen (IsRead S.SharedDisk D.Disk (shared_of looked.now) archive.now) (state_of archive.now).cases seen.items) }
    ensures reply { IfErr result IsReadFault }
{
    let mut seen = Vec::new(alloc);
    let entries = archive.cases()?;
    for entry in entries {
        let verdict = see_image(alloc, looked, archive, entry.seq)?;
        let case = SeenCase {
            seq: entry.seq,
            verdict,
        };
        let Ok(()) = seen.push(case) else {
            return Err(ArchiveFault::OutOfMemory);
        };
    }
    Ok(seen)
}

// The finding on the image of a case.
fn see_image<S: SharedDisk + Drop, D: Disk>(
    alloc: Global,
    looked: &Looked<S>,
    archive: &Archive<D>,
    seq: u32,
) -> Result<Verdict, ArchiveFault>
    requires there { IsThere (state_of archive.now) seq }
    requires sized { D.size archive.now.disk ≡ S.size (shared_of looked.now) }
    ensures read { IfOk result (λ verdict. IsRead S.SharedDisk D.Disk (shared_of looked.now) archive.now seq verdict) }
    ensures reply { IfErr result IsReadFault }
{
    let entry = archive.case(seq)?;
    let ranges = archive.image_ranges(seq)?;
    let mut lent = Vec::new(alloc);
    lent.extend_from_slice(&ranges)?;
    let mut disk = looked.unlocked(lent);
    let image = read_ranges(alloc, &mut disk, &ranges, entry.length)?;
    Ok(verdict_of(entry.kind, &image))
}

// Reads the bytes of these ranges, one range after another. Room for so many bytes is taken first. Answers `OutOfMemory`; `Disk`.
pub(crate) fn read_ranges<D: Disk>(
    alloc: Global,
    disk: &mut D,
    ranges: &[ByteRange],
    count: u64,
) -> Result<Vec<u8>, ArchiveFault>
    requires within { AreWithin (D.size disk.old) ranges.now }
    ensures bytes { IfOk result (λ image. IsTrue (D.is_honest disk.old) → image.items ≡ bytes_in (D.seen disk.old) ranges.now) }
    ensures reply { IfErr result IsReadFault }
{
    let mut image = Vec::with_capacity(alloc, count as usize)?;
    for range in ranges {
        read_range(disk, *range, &mut image)?;
    }
    Ok(image)
}

// Reads the bytes of a range behind these. Answers `OutOfMemory`; `Disk`.
fn read_range<D: Disk>(
    disk: &mut D,
    range: ByteRange,
    image: &mut Vec<u8>,
) -> Result<(), ArchiveFault>
    requires within { range.start + range.length ≤ D.size disk.old }
    ensures bytes { OnOk result (IsTrue (D.is_honest disk.old) → image.new.items ≡ image.old.items ++ part (D.seen disk.old) range.start range.length) }
    ensures reply { IfErr result IsReadFault }
    ensures quiet { OnlyReads D.Disk disk.old disk.new }
{
    let start = image.len();
    let Some(end) = start.checked_add(range.length as usize) else {
        return Err(ArchiveFault::OutOfMemory);
    };
    image.resize(end, 0)?;
    disk.read_at(range.start, &mut image[start..])?;
    Ok(())
}
