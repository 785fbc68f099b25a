// A file as a case of an archive.
ghost use Rattle.std.specs.Prelude.{◌≡◌};
ghost use Rattle.archive_files.specs.Taken.{OnlyReadsTaken, RefusesTaken, StoresTaken, refused_after};

use crate::archive_path::ArchivePath;
use crate::archives::{Access, print_trouble, take_disk};
use crate::failures::{Failure, FileWord, Refusal};
use crate::over_disk::look_over;
use crate::storing::{StoreRequest, store_from};
use archive_checks::shape_on;
use diagnostics::Onlooker;
use disk_model::{Disk, FileDisk, FileFault};
use journal_layout::BLOCK;
use script_streams::Output;
use shown_progress::CountedInput;
use std::alloc::Global;
use std::fs::File;
use std::io::Read;
use std::rt::Files;
use std::time::Clock;

/// Stores a file, or the standard input, and hands the archive's disk on, if it was taken. The file is opened before the archive's
/// lock is taken, so that a pipe that nobody writes to keeps no other process waiting; yet a fault of the archive is reported
/// first.
pub fn store_file<R: AllocGlobal + Files<File = File> + Clock, I: Read, O: Output, W: Onlooker>(
    rt: &R,
    place: ArchivePath<'_>,
    file: &str,
    request: StoreRequest,
    input: &mut I,
    output: &mut O,
    onlooker: &mut W,
) -> (Result<(), Failure>, Option<FileDisk>) {
    if file == "-" {
        let mut taken = take_disk(rt, place, Access::Changing, onlooker);
        let length = request.stated_length();
        let request = request.of_length(length, room_in(&mut taken));
        return store_counted(rt.alloc(), taken, request, length, input, output, onlooker);
    }
    let opened = File::open(rt, file);
    let taken = take_disk(rt, place, Access::Changing, onlooker);
    match opened {
        Ok(mut file) => {
            let mut taken = taken;
            let length = length_of(&file).or(request.stated_length());
            let request = request.of_length(length, room_in(&mut taken));
            store_counted(
                rt.alloc(),
                taken,
                request,
                length,
                &mut file,
                output,
                onlooker,
            )
        }
        Err(error) => {
            let fault = Refusal::File(FileWord::File, FileFault::from(error));
            refuse_taken(rt.alloc(), taken, request.limit(), fault)
        }
    }
}

// Stores the bytes of a reader, of which this may be the length, and hands the archive's disk on, if that was taken.
fn store_counted<I: Read, O: Output, W: Onlooker>(
    alloc: Global,
    taken: Result<FileDisk, Refusal>,
    request: StoreRequest,
    length: Option<u64>,
    input: &mut I,
    output: &mut O,
    onlooker: &mut W,
) -> (Result<(), Failure>, Option<FileDisk>)
    ensures { StoresTaken ⟦<FileDisk as Disk>⟧ request (I.remaining input.old) (O.taken output.old) (O.taken output.new) (O.failures output.old) (O.failures output.new) taken result.0 result.1 }
{
    onlooker.begin("stores", length);
    let mut counted = CountedInput::new(input, onlooker);
    let (ended, disk) = store_taken(alloc, taken, request, &mut counted, output);
    onlooker.end();
    if let Some(disk) = &disk {
        print_trouble(disk, onlooker);
    }
    (ended, disk)
}

/// Stores the bytes of a reader in the archive on a disk, if that was taken, and hands the disk on; or reports why it was not.
pub fn store_taken<D: Disk, I: Read, O: Output>(
    alloc: Global,
    taken: Result<D, Refusal>,
    request: StoreRequest,
    input: &mut I,
    output: &mut O,
) -> (Result<(), Failure>, Option<D>)
    ensures { StoresTaken D.Disk request (I.remaining input.old) (O.taken output.old) (O.taken output.new) (O.failures output.old) (O.failures output.new) taken result.0 result.1 }
{
    match taken {
        Ok(disk) => {
            let (ended, disk) = store_from(alloc, disk, request, input, output);
            (ended, Some(disk))
        }
        Err(refusal) => (Err(Failure::Refused(refusal)), None),
    }
}

/// Reports the fault of the archive on a disk that was taken, or why it was not taken; or else why the file is refused.
pub fn refuse_taken<D: Disk>(
    alloc: Global,
    taken: Result<D, Refusal>,
    limit: u64,
    refusal: Refusal,
) -> (Result<(), Failure>, Option<D>)
    ensures { RefusesTaken D.Disk limit refusal taken result.0 result.1 }
{
    match taken {
        Ok(disk) => {
            let (looked, disk) = look_over(alloc, disk, limit);
            (refused_after(looked, refusal), Some(disk))
        }
        Err(untaken) => (Err(Failure::Refused(untaken)), None),
    }
}

// Why a file is refused, if this was found of its archive.
fn refused_after(looked: Result<(), Refusal>, refusal: Refusal) -> Result<(), Failure>
    ensures { result ≡ refused_after looked refusal }
{
    match looked {
        Ok(()) => Err(Failure::Refused(refusal)),
        Err(damage) => Err(Failure::Refused(damage)),
    }
}

// The length of a file with an end.
fn length_of(file: &File) -> Option<u64> {
    match file.metadata() {
        Ok(attributes) if attributes.is_file() => Some(attributes.len()),
        _ => None,
    }
}

// How many bytes an archive's data may take, if a disk was taken and its superblock has that.
fn room_in<D: Disk>(taken: &mut Result<D, Refusal>) -> Option<u64>
    ensures quiet { OnlyReadsTaken D.Disk taken.old taken.new }
{
    let Ok(disk) = taken else {
        return None;
    };
    let Ok(Some(shape)) = shape_on(disk) else {
        return None;
    };
    Some(u64::from(shape.data_blocks) * BLOCK)
}
