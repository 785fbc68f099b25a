// The images of cases, copied one right after the other.
ghost use Rattle.std.specs.Prelude.{◌≡◌, ◌+◌, ◌*◌, ◌≤◌, IsTrue, IfOk, OnOk, length, map};
ghost use Rattle.disk_model.specs.Places.{part};
ghost use Rattle.extents.specs.Runs.{blocks_of};
ghost use Rattle.intake.specs.Blocks.{joined};
ghost use Rattle.intake.specs.Reading.{LieWithin};
ghost use Rattle.journal_layout.specs.Case.{case_of};
ghost use Rattle.journal_layout.specs.Folding.{used_blocks};
ghost use Rattle.journal_layout.specs.Layout.{disk_length};
ghost use Rattle.archive_care.specs.Bytes.{CopiesBytes, CopyCause};
ghost use Rattle.archive_care.specs.Images.{AreWithin};

use crate::CopyFault;
use crate::bytes::copy_blocks;
use disk_model::Disk;
use extents::Run;
use journal_layout::{BLOCK, Entry, Shape};

// Copies the blocks of these runs, of an archive of this shape, to place `target` of the other disk on. Returns the place where they end.
fn copy_runs<D: Disk, N: Disk>(
    from: &mut D,
    onto: &mut N,
    shape: Shape,
    target: u64,
    runs: &[Run],
) -> Result<u64, CopyFault>
    requires size { D.size from.old ≡ disk_length shape }
    requires within { LieWithin shape.data_blocks runs.now }
    requires target { target + 4096 * length (blocks_of runs.now) ≤ N.size onto.old }
    ensures copies { CopiesBytes D.Disk N.Disk from.old from.new onto.old onto.new target (4096 * length (blocks_of runs.now)) }
    ensures there { IsTrue (D.is_honest from.old) → IsTrue (N.is_honest onto.old)
        → OnOk result (part (N.seen onto.new) target (4096 * length (blocks_of runs.now)) ≡ joined shape (D.seen from.old) (blocks_of runs.now)) }
    ensures end { IfOk result (λ end. end ≡ target + 4096 * length (blocks_of runs.now)) }
    ensures cause { CopyCause D.Disk N.Disk from.old from.new onto.old onto.new result }
{
    let mut at = target;
    for run in runs {
        let source = shape.data_start() + BLOCK * u64::from(run.start);
        copy_blocks(from, onto, source, at, run.count)?;
        at += BLOCK * u64::from(run.count);
    }
    Ok(at)
}

/// Copies the images of cases of an archive of this shape to place `target` of the other disk on, block by block, each right after
/// the one before it. Answers `Source` if the archive's disk failed; `Target` if the other one did.
pub(crate) fn copy_images<D: Disk, N: Disk>(
    from: &mut D,
    onto: &mut N,
    shape: Shape,
    target: u64,
    entries: &[Entry],
) -> Result<(), CopyFault>
    requires size { D.size from.old ≡ disk_length shape }
    requires within { AreWithin shape.data_blocks entries.now }
    requires target { target + 4096 * length (used_blocks (map case_of entries.now)) ≤ N.size onto.old }
    ensures copies { CopiesBytes D.Disk N.Disk from.old from.new onto.old onto.new target (4096 * length (used_blocks (map case_of entries.now))) }
    ensures there { IsTrue (D.is_honest from.old) → IsTrue (N.is_honest onto.old)
        → OnOk result (part (N.seen onto.new) target (4096 * length (used_blocks (map case_of entries.now))) ≡ joined shape (D.seen from.old) (used_blocks (map case_of entries.now))) }
    ensures cause { CopyCause D.Disk N.Disk from.old from.new onto.old onto.new result }
{
    let mut at = target;
    for entry in entries {
        at = copy_runs(from, onto, shape, at, entry.runs.runs())?;
    }
    Ok(())
}
