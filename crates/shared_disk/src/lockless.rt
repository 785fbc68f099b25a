// A look that takes no lock.
ghost use Rattle.std.specs.Prelude.{◌≡◌, ◌+◌, ◌≤◌, IfOk, IfSome, IsTrue, length};
ghost use Rattle.journal_layout.specs.Layout.{IsWithinLimits, data_start, disk_length};
ghost use Rattle.shared_disk.specs.Watching.{Runs};
ghost use Rattle.shared_disk.specs.Lockless.{SeesMoment};

use crate::chain::WatchFault;
use crate::look::look_once;
use crate::shared::LookFault;
use crate::watched::WatchedDisk;
use byteorder::{ByteOrder, LittleEndian};
use journal_layout::{BLOCK, Shape};
use std::alloc::Global;

// How often a look is begun anew because others changed the journal meanwhile.
const MOST_LOOKS: u32 = 100;

impl From<WatchFault> for LookFault {
    fn from(fault: WatchFault) -> LookFault {
        match fault {
            WatchFault::Read => LookFault::Read,
            WatchFault::OutOfMemory => LookFault::OutOfMemory,
        }
    }
}

/// Looks at an archive without a lock: its superblock and journal, into all of `into`. Answers whether that was done. It was not if
/// this is no archive with such a front, and if others changed the journal each time. Bytes that no opening reads are zeros.
///
/// # Errors
///
/// `Read` and `OutOfMemory`.
pub(crate) fn look_lockless<W: WatchedDisk>(
    alloc: Global,
    disk: &mut W,
    into: &mut [u8],
) -> Result<bool, LookFault>
    ensures seen { IfOk result (λ is_done. IsTrue is_done → IsTrue (W.is_honest disk.old) → SeesMoment W.WatchedDisk disk.old disk.new into.new) }
    ensures runs { Runs W.WatchedDisk disk.old disk.new }
{
    let Some(shape) = shape_on(disk, into.len())? else {
        return Ok(false);
    };
    for _ in 0..MOST_LOOKS {
        if let Some(seen) = look_once(alloc, disk, shape)? {
            into.copy_from_slice(&seen.front);
            return Ok(true);
        }
    }
    Ok(false)
}

// The shape that the superblock says, if the disk is as long, and its superblock and journal take so many bytes.
fn shape_on<W: WatchedDisk>(disk: &mut W, front: usize) -> Result<Option<Shape>, LookFault>
    ensures limits { IfOk result (λ o. IfSome o IsWithinLimits) }
    ensures size { IfOk result (λ o. IfSome o (λ s. W.size disk.old ≡ disk_length s)) }
    ensures front { IfOk result (λ o. IfSome o (λ s. front ≡ data_start s)) }
    ensures runs { Runs W.WatchedDisk disk.old disk.new }
{
    let length = disk.length();
    if length < BLOCK {
        return Ok(None);
    }
    let mut start = [0u8; 24];
    if disk.read_at(0, &mut start).is_err() {
        return Err(LookFault::Read);
    }
    let shape = Shape {
        half_blocks: LittleEndian::read_u32(&start[16..]),
        data_blocks: LittleEndian::read_u32(&start[20..]),
    };
    match shape.length() {
        Ok(size) if size == length && shape.data_start() == front as u64 => Ok(Some(shape)),
        _ => Ok(None),
    }
}
