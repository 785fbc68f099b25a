// `copy` and `resize` over disks.
ghost use Rattle.std.specs.Prelude.{◌≡◌};
ghost use Rattle.archive_files.specs.Copying.{CopiesDisk, copy_refusal, larger_wish};

use crate::failures::Refusal;
use archive_care::{CopyFault, CopyWish, copy_archive};
use disk_model::Disk;
use intake::ArchiveFault;
use journal_layout::Shape;
use std::alloc::Global;

// The most blocks of a half of a journal.
const MOST_HALF_BLOCKS: u32 = 4096;

/// Copies the archive on a disk onto a new disk, and hands both back.
pub fn copy_disk<D: Disk, N: Disk>(
    alloc: Global,
    from: D,
    onto: N,
    wanted: CopyWish,
) -> (Result<(), Refusal>, D, N)
    ensures { CopiesDisk D.Disk N.Disk wanted from onto result.0 result.1 result.2 }
{
    let mut from = from;
    let mut onto = onto;
    match copy_archive(alloc, &mut from, &mut onto, wanted) {
        Ok(()) => (Ok(()), from, onto),
        Err(fault) => (Err(copy_refusal(fault)), from, onto),
    }
}

/// The report on an archive that was not copied.
pub(crate) fn copy_refusal(fault: CopyFault) -> Refusal
    ensures { result ≡ copy_refusal fault }
{
    match fault {
        CopyFault::Open(fault) => Refusal::Open(fault),
        CopyFault::BadShape => Refusal::BadShape,
        CopyFault::SpaceFull => Refusal::Call(ArchiveFault::SpaceFull),
        CopyFault::JournalFull => Refusal::Call(ArchiveFault::JournalFull),
        CopyFault::OutOfMemory => Refusal::OutOfMemory,
        CopyFault::Source => Refusal::Call(ArchiveFault::Disk),
        CopyFault::Target => Refusal::Disk,
    }
}

/// The next try after a copy was refused: halves of one block more, if the records of the cases and the gate after them leave no room and
/// no size of a half is asked for.
pub(crate) fn larger_wish(
    half_asked: Option<u32>,
    wish: CopyWish,
    refusal: Refusal,
) -> Option<CopyWish>
    ensures { result ≡ larger_wish half_asked wish refusal }
{
    let CopyWish {
        shape,
        keeps_labels,
    } = wish;
    match refusal {
        Refusal::Call(ArchiveFault::JournalFull)
            if half_asked.is_none() && shape.half_blocks < MOST_HALF_BLOCKS => {
            Some(CopyWish {
                shape: Shape {
                    half_blocks: shape.half_blocks + 1,
                    data_blocks: shape.data_blocks,
                },
                keeps_labels,
            })
        }
        _ => None,
    }
}
