// Archives that are looked at in their files.
ghost use Rattle.std.specs.Prelude.{◌≡◌};
ghost use Rattle.archive_files.specs.Looking.{copy_told, look_fault, unlocked_told, was_there};

use crate::archive_path::ArchivePath;
use crate::archives::{Access, MOST_TRIES, look_at_file, open_file};
use crate::failures::{Failure, FileWord, Refusal};
use crate::unlocked_faults::UnlockedFault;
use disk_model::{FileFault, OpenFile};
use inspector_cli::{CopyFault, SessionFault};
use intake::ArchiveFault;
use shared_disk::{LookFault, Looked, SharedFile};
use std::fs::File;
use std::rt::Files;
use whole_files::is_named;

/// Looks at the archive in a file. The file's lock is shared with others that look, and held while the archive's journal is read, no
/// longer. This alone waits, as long as another changes the archive.
pub fn take_look<R: AllocGlobal + Files<File = File>>(
    rt: &R,
    place: ArchivePath<'_>,
) -> Result<Looked<SharedFile<OpenFile>>, Refusal> {
    let looked = look_at(rt, place);
    looked.map_err(|fault| Refusal::File(FileWord::Archive, fault))
}

// While it waited, another file may have been put in its place: then it begins again.
fn look_at<R: AllocGlobal + Files<File = File>>(
    rt: &R,
    place: ArchivePath<'_>,
) -> Result<Looked<SharedFile<OpenFile>>, FileFault> {
    for _ in 0..MOST_TRIES {
        look_at_file(rt, place.path)?;
        let file = open_file(rt, place.path, Access::Looking)?;
        let shared = SharedFile::new(OpenFile::new(file), place.waits)?;
        let looked = Looked::look(rt.alloc(), shared).map_err(look_fault)?;
        if is_named(rt, place.path, looked.shared().file().file())? {
            return Ok(looked);
        }
    }
    Err(FileFault::Busy)
}

// Why a file could not be looked at.
pub(crate) fn look_fault(fault: LookFault) -> FileFault
    ensures { result ≡ look_fault fault }
{
    match fault {
        LookFault::Busy => FileFault::Busy,
        LookFault::Lock => FileFault::Lock,
        LookFault::Read => FileFault::Settle,
        LookFault::OutOfMemory => FileFault::OutOfMemory,
    }
}

/// The report on an image that was not copied.
pub fn unlocked_told(fault: UnlockedFault) -> Failure
    ensures { result ≡ unlocked_told fault }
{
    match fault {
        UnlockedFault::Open(fault) => Failure::Aside(Refusal::Open(fault)),
        UnlockedFault::Archive(fault) => Failure::Aside(Refusal::Call(fault)),
        UnlockedFault::Copy(fault) => copy_told(fault),
        UnlockedFault::Look(fault) => {
            Failure::Aside(Refusal::File(FileWord::Archive, look_fault(fault)))
        }
        UnlockedFault::Reopen(fault) => Failure::Aside(Refusal::Open(fault)),
        UnlockedFault::Gone => Failure::Aside(Refusal::Call(ArchiveFault::NoCase)),
    }
}

// The report of the end of an image's copy.
fn copy_told(fault: CopyFault) -> Failure
    ensures { result ≡ copy_told fault }
{
    match fault {
        CopyFault::Open(fault) => Failure::Aside(Refusal::Open(fault)),
        CopyFault::Archive(fault) => Failure::Aside(Refusal::Call(fault)),
        CopyFault::Disk => Failure::Aside(Refusal::Call(ArchiveFault::Disk)),
        CopyFault::Output => Failure::Faulted(SessionFault::WriteFailed),
    }
}

/// Whether a case is known to have been there all the time that it was read, by how
/// its copy ended. If not, the bytes that were written may be no front of its image.
pub(crate) fn was_there(fault: &UnlockedFault) -> bool
    ensures { result ≡ was_there fault.now }
{
    match fault {
        UnlockedFault::Look(_) => false,
        UnlockedFault::Reopen(_) => false,
        UnlockedFault::Gone => false,
        _ => true,
    }
}
