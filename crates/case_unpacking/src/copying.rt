// Images of cases, copied into new files.
ghost use Rattle.std.specs.Prelude.{◌≡◌};
ghost use Rattle.archive_files.specs.declared.failures.FileWord.{FileWord};
ghost use Rattle.archive_files.specs.declared.failures.Refusal.TheVariants as refusals;
ghost use Rattle.disk_model.specs.declared.file_fault.FileFault.{FileFault};
ghost use Rattle.case_unpacking.specs.Copies.{CopiesCase, IsTold, IsToldOf};

use archive_files::{
    ArchivePath, AskFault, FileWord, Refusal, UnlockedFault, copy_unlocked, take_look, unasked,
};
use diagnostics::Onlooker;
use disk_model::{Disk, FileFault};
use inspector_cli::CopyFault;
use intake::ArchiveFault;
use script_streams::{Output, WriteOutput};
use shared_disk::{Looked, SharedDisk, Unlocked};
use shown_progress::CountedOutput;
use std::alloc::Global;
use std::fs::File;
use std::io;
use std::io::ErrorKind;
use std::rt::Files;

// The word for the directory in reports, also while it has its name until it is whole.
pub(crate) const FOLDER: FileWord = FileWord::Folder;

pub(crate) const PART: FileWord = FileWord::FolderPart;

// Writes the image of a case into a file that is open, and makes it durable. It is known to be the image once the case is found again.
pub(crate) fn copy_to_file<R: AllocGlobal + Files<File = File>, W: Onlooker>(
    rt: &R,
    place: ArchivePath<'_>,
    seq: u32,
    file: &File,
    onlooker: &mut W,
) -> Result<(), Refusal> {
    let mut output = WriteOutput::new(file);
    let copied = copy_counted(rt, place, seq, &mut output, onlooker);
    let why = output.fault();
    match copied {
        Ok(()) => synced(file),
        Err(fault) => Err(refusal_of(fault, why)),
    }
}

// Makes the bytes of a file durable.
pub(crate) fn synced(file: &File) -> Result<(), Refusal> {
    file.sync_all()
        .map_err(|_| Refusal::File(FOLDER, FileFault::Sync))
}

// Copies the image of a case to an output, and shows an onlooker its progress.
fn copy_counted<R: AllocGlobal + Files<File = File>, O: Output, W: Onlooker>(
    rt: &R,
    place: ArchivePath<'_>,
    seq: u32,
    output: &mut O,
    onlooker: &mut W,
) -> Result<(), Uncopied> {
    let mut counted = CountedOutput::new(output, onlooker);
    copy_seen(rt.alloc(), take_look(rt, place), seq, &mut counted)
}

// Copies the image of a case to an output, from a look at its archive on, while others may change the archive; or says why there was no
// look.
fn copy_seen<S: SharedDisk + Drop, O: Output>(
    alloc: Global,
    looked: Result<Looked<S>, Refusal>,
    seq: u32,
    output: &mut O,
) -> Result<(), Uncopied>
    ensures { CopiesCase S.SharedDisk ⟦<Unlocked<'static, S> as Disk>⟧ seq (O.taken output.old) (O.taken output.new) (O.failures output.old) (O.failures output.new) looked result }
{
    match looked {
        Ok(looked) => match copy_unlocked(alloc, looked, seq, output) {
            Ok(()) => Ok(()),
            Err(fault) => Err(Uncopied::Copy(fault)),
        },
        Err(refusal) => Err(Uncopied::Unseen(refusal)),
    }
}

// Why an image was not copied.
#[derive(Drop)]
enum Uncopied {
    // The archive could not be looked at.
    Unseen(Refusal),
    // The copy did not come to its end.
    Copy(UnlockedFault),
}

// The report that an image was not copied. A write of its file failed for that reason, if one failed.
fn refusal_of(fault: Uncopied, why: Option<ErrorKind>) -> Refusal
    ensures { IsToldOf fault result }
{
    match fault {
        Uncopied::Unseen(refusal) => refusal,
        Uncopied::Copy(fault) => copy_refusal(fault, why),
    }
}

fn copy_refusal(fault: UnlockedFault, why: Option<ErrorKind>) -> Refusal
    ensures { IsTold fault result }
{
    match fault {
        UnlockedFault::Open(fault) => Refusal::Open(fault),
        UnlockedFault::Archive(fault) => Refusal::Call(fault),
        UnlockedFault::Copy(CopyFault::Open(fault)) => Refusal::Open(fault),
        UnlockedFault::Copy(CopyFault::Archive(fault)) => Refusal::Call(fault),
        UnlockedFault::Copy(CopyFault::Disk) => Refusal::Call(ArchiveFault::Disk),
        UnlockedFault::Copy(CopyFault::Output) => unwritten(why),
        UnlockedFault::Look(fault) => unasked(AskFault::Look(fault)),
        UnlockedFault::Reopen(fault) => Refusal::Open(fault),
        UnlockedFault::Gone => Refusal::Call(ArchiveFault::NoCase),
    }
}

// Why a file could not be written.
pub(crate) fn unwritten(why: Option<ErrorKind>) -> Refusal
    ensures { (word : FileWord) × (fault : FileFault) × (result ≡ refusals.File word fault) }
{
    match why {
        Some(kind) => Refusal::File(FOLDER, FileFault::from(io::Error::from(kind))),
        None => Refusal::File(FOLDER, FileFault::Open),
    }
}
