// Some bytes of an image, as they are read.
ghost use Rattle.std.specs.Prelude.{◌≡◌, ◌+◌, ◌*◌, ◌≤◌, length, IsTrue, OnOk};
ghost use Rattle.disk_model.specs.Disk.{HasRisen};
ghost use Rattle.disk_model.specs.Places.{part};
ghost use Rattle.extents.specs.Runs.{run_blocks, blocks_of};
ghost use Rattle.journal_layout.specs.Layout.{IsWithinLimits, disk_length};
ghost use Rattle.case_journal.specs.Viewing.{OnlyReads};
ghost use Rattle.intake.specs.Blocks.{joined};
ghost use Rattle.intake.specs.Growth.{DiskReply, IsDiskFault};
ghost use Rattle.intake.specs.Reading.{LieWithin};

use crate::ArchiveFault;
use disk_model::Disk;
use extents::Run;
use journal_layout::{BLOCK, Shape};

// Reads bytes of a run from its byte `front` on. It makes no read if none are wanted. Answers `Disk` alone.
fn read_piece<D: Disk>(
    disk: &mut D,
    shape: Shape,
    run: Run,
    front: u64,
    into: &mut [u8],
) -> Result<(), ArchiveFault>
    requires limits { IsWithinLimits shape }
    requires within { run.start + run.count ≤ shape.data_blocks }
    requires disk { D.size disk.old ≡ disk_length shape }
    requires room { front + length into.old ≤ 4096 * run.count }
    ensures reply { DiskReply result }
    ensures bytes { IsTrue (D.is_honest disk.old)
        → OnOk result (into.new ≡ part (joined shape (D.seen disk.old) (run_blocks run)) front (length into.old)) }
    ensures quiet { OnlyReads D.Disk disk.old disk.new }
    ensures cause { IsDiskFault result → HasRisen (D.failures disk.old) (D.failures disk.new) }
    ensures later { D.failures disk.old ≤ D.failures disk.new }
{
    if into.is_empty() {
        return Ok(());
    }
    let at = shape.data_start() + BLOCK * u64::from(run.start) + front;
    disk.read_at(at, into)?;
    Ok(())
}

/// Reads the bytes of these runs one after another, from place `at` on, into all of `into`, with at most one read of the disk
/// for each run. Answers only `Disk`.
pub(crate) fn read_part<D: Disk>(
    disk: &mut D,
    shape: Shape,
    runs: &[Run],
    at: u64,
    into: &mut [u8],
) -> Result<(), ArchiveFault>
    requires limits { IsWithinLimits shape }
    requires within { LieWithin shape.data_blocks runs.now }
    requires disk { D.size disk.old ≡ disk_length shape }
    requires room { at + length into.old ≤ 4096 * length (blocks_of runs.now) }
    ensures reply { DiskReply result }
    ensures bytes { IsTrue (D.is_honest disk.old)
        → OnOk result (into.new ≡ part (joined shape (D.seen disk.old) (blocks_of runs.now)) at (length into.old)) }
    ensures quiet { OnlyReads D.Disk disk.old disk.new }
    ensures cause { IsDiskFault result → HasRisen (D.failures disk.old) (D.failures disk.new) }
    ensures later { D.failures disk.old ≤ D.failures disk.new }
{
    // `skip` bytes of the remaining runs lie before the part; `done` bytes of the part are read.
    let mut skip = at;
    let mut done = 0;
    for run in runs {
        let long = BLOCK * u64::from(run.count);
        let front = skip.min(long);
        let size = (long - front).min((into.len() - done) as u64) as usize;
        let end = done + size;
        read_piece(disk, shape, *run, front, &mut into[done..end])?;
        skip -= front;
        done = end;
    }
    Ok(())
}
