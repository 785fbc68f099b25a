// The shape of the archive on a disk, as its superblock has it.
ghost use Rattle.std.specs.Prelude.{◌≡◌, Some, IfOk, IsTrue, OnErr};
ghost use Rattle.case_journal.specs.Viewing.{OnlyReads};
ghost use Rattle.diagnostics.specs.Counts.{HasRisen};
ghost use Rattle.journal_layout.specs.Standing.{Standing};
ghost use Rattle.journal_layout.specs.Stands.{Stands};

use disk_model::{Disk, DiskFault};
use journal_layout::{BLOCK, Shape};

// How many bytes of the superblock have the shape.
const FRONT: usize = 24;

/// The shape of the archive on a disk, as its superblock has it. `None` if there is no archive.
///
/// # Errors
///
/// `Read`: the disk failed.
pub fn shape_on<D: Disk>(disk: &mut D) -> Result<Option<Shape>, DiskFault>
    ensures quiet { OnlyReads D.Disk disk.old disk.new }
    ensures cause { OnErr result (HasRisen (D.failures disk.old) (D.failures disk.new)) }
    ensures shape { (s : Standing) → IsTrue (D.is_honest disk.old) → Stands (D.seen disk.old) s
        → IfOk result (λ o. o ≡ Some s.shape) }
{
    let mut front = [0; FRONT];
    if disk.length() < BLOCK {
        return Ok(None);
    }
    disk.read_at(0, &mut front)?;
    if !front[8..].starts_with(b"COREKEEP") {
        return Ok(None);
    }
    Ok(Some(Shape {
        half_blocks: u32::from_le_bytes([front[16], front[17], front[18], front[19]]),
        data_blocks: u32::from_le_bytes([front[20], front[21], front[22], front[23]]),
    }))
}
