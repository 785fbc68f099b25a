// An image, copied while others may change the archive.
ghost use Rattle.std.specs.Prelude.{◌≡◌, ℕ};
ghost use Rattle.shared_disk.specs.Looks.{shared_of};
ghost use Rattle.archive_files.specs.UnlockedCopies.{CopiesUnlocked, LeavesThere};

use crate::unlocked_faults::UnlockedFault;
use crate::unlocked_finding::{find_places, has_case};
use disk_model::Disk;
use inspector_cli::{Output, copy_image};
use intake::{
    Settings, a_case_is_there_between, a_state_tells_what_lasts, the_next_number_is_above,
};
use shared_disk::{Looked, SharedDisk, Unlocked};
use std::alloc::Global;

/// Copies the image of a case to an output, from a look at its archive on. The lock is not held while the image is read and
/// written. The archive is looked at again at the end: if the case is there under its number, the bytes that were written are its image.
///
/// # Errors
///
/// `Open`, and `Archive` with `NoCase` or `OutOfMemory`: nothing was written. `Copy` if the disk or the output failed, or the memory.
/// `Look` and `Reopen` if nobody could say whether the case is still there. `Gone` if it is not.
pub fn copy_unlocked<S: SharedDisk + Drop, O: Output>(
    alloc: Global,
    looked: Looked<S>,
    seq: u32,
    output: &mut O,
) -> Result<(), UnlockedFault>
    ensures { CopiesUnlocked S.SharedDisk ⟦<Unlocked<'static, S> as Disk>⟧ (shared_of looked) seq (O.taken output.old) (O.taken output.new) (O.failures output.old) (O.failures output.new) result }
{
    the_next_number_is_above();
    a_case_is_there_between();
    a_state_tells_what_lasts::<Unlocked<'_, S>>();
    let ranges = find_places(alloc, looked.unlocked(Vec::new(alloc)), seq)?;
    let (copied, _) = copy_image(
        alloc,
        looked.unlocked(ranges),
        Settings { limit: 0 },
        seq,
        output,
    );
    match copied {
        Ok(()) => stays(alloc, looked.into_shared(), seq),
        Err(fault) => Err(UnlockedFault::Copy(fault)),
    }
}

// Looks again, whether a case is still there.
fn stays<S: SharedDisk + Drop>(alloc: Global, shared: S, seq: u32) -> Result<(), UnlockedFault>
    ensures { LeavesThere S.SharedDisk ⟦<Unlocked<'static, S> as Disk>⟧ shared seq result }
{
    let again = match Looked::look(alloc, shared) {
        Ok(again) => again,
        Err(fault) => return Err(UnlockedFault::Look(fault)),
    };
    if has_case(alloc, again.unlocked(Vec::new(alloc)), seq)? {
        Ok(())
    } else {
        Err(UnlockedFault::Gone)
    }
}
