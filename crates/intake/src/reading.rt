// The bytes of an image, as they are read.
ghost use Rattle.std.specs.Prelude.{◌≡◌, ◌≤◌, IsTrue, IfOk, IfErr, vec_len};
ghost use Rattle.disk_model.specs.Disk.{HasRisen};
ghost use Rattle.journal_layout.specs.Layout.{IsWithinLimits, disk_length};
ghost use Rattle.case_journal.specs.Viewing.{OnlyReads};
ghost use Rattle.intake.specs.Blocks.{image_in};
ghost use Rattle.intake.specs.Growth.{IsDiskFault};
ghost use Rattle.intake.specs.Reading.{LiesIn, IsReadFault};
ghost use Rattle.intake.specs.Untouched.{RefusalSpares};

use crate::ArchiveFault;
use crate::part::read_part;
use disk_model::Disk;
use journal_layout::{Entry, Shape};
use std::alloc::Global;

/// Reads the image of an entry, with one read of the disk for each run. Of the last block only the bytes of the image are read: the
/// rest may be changed by others meanwhile. Its memory is taken before the first read of the disk: answers `OutOfMemory`, then `Disk`.
pub(crate) fn read_image<D: Disk>(
    alloc: Global,
    disk: &mut D,
    shape: Shape,
    entry: &Entry,
) -> Result<Vec<u8>, ArchiveFault>
    requires limits { IsWithinLimits shape }
    requires lies { LiesIn shape.data_blocks entry.now.runs entry.now.length }
    requires disk { D.size disk.old ≡ disk_length shape }
    ensures reply { IfErr result IsReadFault }
    ensures bytes { IsTrue (D.is_honest disk.old)
        → IfOk result (λ v. v.items ≡ image_in shape (D.seen disk.old) entry.now.runs entry.now.length) }
    ensures long { IfOk result (λ v. vec_len v ≡ entry.now.length) }
    ensures untouched { RefusalSpares result disk.old disk.new }
    ensures quiet { OnlyReads D.Disk disk.old disk.new }
    ensures cause { IsDiskFault result → HasRisen (D.failures disk.old) (D.failures disk.new) }
    ensures later { D.failures disk.old ≤ D.failures disk.new }
{
    let mut image = vec![in alloc; 0u8; entry.length as usize]?;
    read_part(disk, shape, entry.runs.runs(), 0, &mut image)?;
    Ok(image)
}
