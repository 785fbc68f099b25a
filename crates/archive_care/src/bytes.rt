// Bytes of one disk, put on another.
ghost use Rattle.std.specs.Prelude.{◌≡◌, ◌+◌, ◌*◌, ◌≤◌, IsTrue, OnOk};
ghost use Rattle.disk_model.specs.Places.{part};
ghost use Rattle.archive_care.specs.Bytes.{CopiesBytes, CopyCause};

use crate::CopyFault;
use disk_model::Disk;
use journal_layout::BLOCK;

// Copies the block at place `source` of one disk to place `target` of the other. Answers `Source`; `Target`.
fn copy_block<D: Disk, N: Disk>(
    from: &mut D,
    onto: &mut N,
    source: u64,
    target: u64,
) -> Result<(), CopyFault>
    requires source { source + 4096 ≤ D.size from.old }
    requires target { target + 4096 ≤ N.size onto.old }
    ensures copies { CopiesBytes D.Disk N.Disk from.old from.new onto.old onto.new target 4096 }
    ensures there { IsTrue (D.is_honest from.old) → IsTrue (N.is_honest onto.old)
        → OnOk result (part (N.seen onto.new) target 4096 ≡ part (D.seen from.old) source 4096) }
    ensures cause { CopyCause D.Disk N.Disk from.old from.new onto.old onto.new result }
{
    let mut block = [0; 4096];
    let Ok(()) = from.read_at(source, &mut block) else {
        return Err(CopyFault::Source);
    };
    let Ok(()) = onto.write_at(target, &block) else {
        return Err(CopyFault::Target);
    };
    Ok(())
}

/// Copies `count` blocks from place `source` of one disk on to place `target` of the other. Answers `Source` if the first
/// disk failed; `Target` if the other one did.
pub(crate) fn copy_blocks<D: Disk, N: Disk>(
    from: &mut D,
    onto: &mut N,
    source: u64,
    target: u64,
    count: u32,
) -> Result<(), CopyFault>
    requires source { source + 4096 * count ≤ D.size from.old }
    requires target { target + 4096 * count ≤ N.size onto.old }
    ensures copies { CopiesBytes D.Disk N.Disk from.old from.new onto.old onto.new target (4096 * count) }
    ensures there { IsTrue (D.is_honest from.old) → IsTrue (N.is_honest onto.old)
        → OnOk result (part (N.seen onto.new) target (4096 * count) ≡ part (D.seen from.old) source (4096 * count)) }
    ensures cause { CopyCause D.Disk N.Disk from.old from.new onto.old onto.new result }
{
    for done in 0..count {
        let at = BLOCK * u64::from(done);
        copy_block(from, onto, source + at, target + at)?;
    }
    Ok(())
}
