// Whether the archive in a file is sound.
ghost use Rattle.std.specs.Prelude.{◌≡◌};
ghost use Rattle.archive_files.specs.Checks.{ChecksHeld, ChecksLooked, ChecksTaken, check_told, hidden_line};
ghost use Rattle.archive_files.specs.Printing.{IsToldAs};
ghost use Rattle.archive_files.specs.declared.failures.Failure.TheVariants.{Refused};
ghost use Rattle.archive_files.specs.declared.failures.Refusal.TheVariants.{Open};
ghost use Rattle.script_streams.specs.Replies.{PrintsText, printing};
ghost use Rattle.shared_disk.specs.Looks.{shared_of};

use crate::archive_path::ArchivePath;
use crate::archives::{Access, print_trouble, take_disk};
use crate::failures::{Failure, FileWord, Refusal};
use crate::held::Held;
use crate::looking::{look_fault, take_look};
use crate::salvaging::fault_found;
use crate::unlocked_checks::check_unlocked;
use crate::unlocked_faults::UnlockedCheckFault;
use archive_checks::{CheckFault, check_archive};
use diagnostics::Onlooker;
use disk_model::{Disk, FileDisk};
use inspector_cli::SessionFault;
use journal_layout::{BLOCK, OpenFault};
use script_streams::{Output, Reply};
use shared_disk::{Looked, SharedDisk, Unlocked};
use std::alloc::Global;
use std::fs::File;
use std::rt::Files;
use std::time::Clock;

/// Prints the contents of the archive in a file and that it is sound, or the place of the damage. With `sees_images` each image is read
/// too. It takes no lock: a case that is deleted meanwhile is reported as missing. Only if an archive can't be opened is it examined under
/// its lock, which is shared with other readers. An archive that opens, but has a damaged gate that may hide records, is not sound; the
/// gates are checked if nobody changes the archive.
pub fn check<R: AllocGlobal + Files<File = File> + Clock, O: Output, W: Onlooker>(
    rt: &R,
    place: ArchivePath<'_>,
    sees_images: bool,
    output: &mut O,
    onlooker: &mut W,
) -> Result<(), Failure> {
    let looked = take_look(rt, place)?;
    let mut reply = Held::new(rt.alloc(), output);
    let Some(checked) = check_looked(rt.alloc(), looked, sees_images, &mut reply) else {
        drop(reply);
        return check_locked(rt, place, sees_images, output, onlooker);
    };
    if let (Ok(()), Some(fault)) = (&checked, fault_found(rt, place, onlooker)) {
        drop(reply);
        return Err(print_hidden(fault, output));
    }
    reply.finish()?;
    checked
}

// Prints the contents of the archive that was looked at, and that it is sound. Returns how that ended; nothing if the archive can't be
// opened.
fn check_looked<S: SharedDisk + Drop, O: Output>(
    alloc: Global,
    looked: Looked<S>,
    sees_images: bool,
    output: &mut O,
) -> Option<Result<(), Failure>>
    ensures { ChecksLooked S.SharedDisk ⟦<Unlocked<'static, S> as Disk>⟧ sees_images (O.taken output.old) (O.taken output.new) (O.failures output.old) (O.failures output.new) (shared_of looked) result }
{
    match check_unlocked(alloc, looked, sees_images, output) {
        Ok(()) => Some(Ok(())),
        Err(UnlockedCheckFault::Open(_) | UnlockedCheckFault::Reopen(_)) => None,
        Err(UnlockedCheckFault::Archive(fault)) => Some(Err(Failure::Refused(Refusal::Call(
            fault,
        )))),
        Err(UnlockedCheckFault::Look(fault)) => Some(Err(Failure::Refused(Refusal::File(
            FileWord::Archive,
            look_fault(fault),
        )))),
        Err(UnlockedCheckFault::Output) => Some(Err(Failure::Faulted(SessionFault::WriteFailed))),
    }
}

// The same for an archive whose lock is shared. It reports the place of the damage.
fn check_locked<R: AllocGlobal + Files<File = File> + Clock, O: Output, W: Onlooker>(
    rt: &R,
    place: ArchivePath<'_>,
    sees_images: bool,
    output: &mut O,
    onlooker: &mut W,
) -> Result<(), Failure>
    ensures { ChecksHeld ⟦<FileDisk as Disk>⟧ sees_images (O.taken output.old) result }
{
    let taken = take_disk(rt, place, Access::Looking, onlooker);
    let mut reply = Held::new(rt.alloc(), output);
    let (checked, disk) = check_taken(rt.alloc(), taken, sees_images, &mut reply);
    if let Some(disk) = &disk {
        print_trouble(disk, onlooker);
    }
    match reply.finish() {
        Ok(()) => checked,
        Err(_) => Err(Failure::Faulted(SessionFault::WriteFailed)),
    }
}

// Prints the place of the gate that may hide records.
fn print_hidden<O: Output>(fault: OpenFault, output: &mut O) -> Failure
    ensures failure { result ≡ Refused (Open fault) }
    ensures told { IsToldAs (O.taken output.old) (O.taken output.new) (O.failures output.old) (O.failures output.new) (hidden_line fault) }
{
    let mut reply = Reply::new(output);
    print_gate(&mut reply, fault);
    let _ = reply.finish();
    Failure::Refused(Refusal::Open(fault))
}

fn print_gate<O: Output>(reply: &mut Reply<'_, O>, fault: OpenFault)
    ensures { PrintsText (printing O.Output reply.old reply.new) (hidden_line fault) }
{
    if let OpenFault::Damaged { at, .. } = fault {
        reply.print(b"damaged in block ");
        reply.print_decimal(u128::from(at / BLOCK));
        reply.print(b": a gate that may hide the records after it\n");
    }
}

// Prints the contents of the archive on the disk that was taken and that it is sound, or the place of the damage, and passes the disk
// on; or reports why no disk was taken.
fn check_taken<D: Disk, O: Output>(
    alloc: Global,
    taken: Result<D, Refusal>,
    sees_images: bool,
    output: &mut O,
) -> (Result<(), Failure>, Option<D>)
    ensures { ChecksTaken D.Disk sees_images (O.taken output.old) (O.taken output.new) (O.failures output.old) (O.failures output.new) taken result.0 result.1 }
{
    match taken {
        Ok(disk) => {
            let (checked, disk) = check_archive(alloc, disk, sees_images, output);
            (check_told(checked), Some(disk))
        }
        Err(refusal) => (Err(Failure::Refused(refusal)), None),
    }
}

// The report of a check on whether an archive is sound.
fn check_told(checked: Result<(), CheckFault>) -> Result<(), Failure>
    ensures { result ≡ check_told checked }
{
    match checked {
        Ok(()) => Ok(()),
        Err(CheckFault::Open(fault)) => Err(Failure::Refused(Refusal::Open(fault))),
        Err(CheckFault::Archive(fault)) => Err(Failure::Refused(Refusal::Call(fault))),
        Err(CheckFault::Output) => Err(Failure::Faulted(SessionFault::WriteFailed)),
    }
}
