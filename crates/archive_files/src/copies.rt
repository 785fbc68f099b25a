// Archives, copied into new files.
ghost use Rattle.std.specs.Prelude.{◌≡◌, true, false, Some, OnOk};
ghost use Rattle.disk_model.specs.declared.held_facts.Hold.TheVariants.{Alone};
ghost use Rattle.archive_files.specs.Copying.{CopiesDisk, IsCopied, StayThere};
ghost use Rattle.shared_disk.specs.Looks.{shared_of};
ghost use Rattle.whole_files.specs.Whole.{IsWritten, IsWhole};

use crate::archive_path::ArchivePath;
use crate::archives::{
    Access, disk_to_change, make_file, name_refusal, print_trouble, settle_made, take_file,
};
use crate::asking::unasked;
use crate::copy_over::{copy_disk, larger_wish};
use crate::failures::{Danger, FileWord, Refusal};
use crate::folders::shared_among;
use crate::looking::take_look;
use crate::over_disk::look_over;
use crate::unlocked_asks::stay;
use crate::unlocked_places::{Places, Reads, find_cases};
use archive_care::CopyWish;
use archive_checks::shape_on;
use diagnostics::Onlooker;
use disk_model::{Disk, FileDisk, FileFault, HeldFile, OpenFile};
use intake::{ArchiveFault, ByteRange};
use journal_layout::{BLOCK, Shape};
use shared_disk::{Looked, SharedDisk, Unlocked};
use shown_progress::CountedDisk;
use std::alloc::Global;
use std::fs;
use std::fs::File;
use std::os::unix::fs::MetadataExt;
use std::rt::Files;
use std::time::Clock;
use whole_files::{NewFile, PartFile, clear, clear_part, folder_of, give_name, remove, take_place};

/// A request for a copy of an archive.
#[derive(Clone, Copy)]
pub struct CopyWords {
    /// The blocks of each half of its journal, if not as many as the archive has.
    pub half_blocks: Option<u32>,
    /// Its data blocks, if not as many as the archive has.
    pub data_blocks: Option<u32>,
    /// It is of version 2 of the layout.
    pub keeps_labels: bool,
    /// Its zeros are not written.
    pub is_sparse: bool,
    /// If it takes the archive's place: the rights that others than the owner have on that need not come along.
    pub drops_rights: bool,
}

// The bits of a mode that are rights of the group and of others.
const OTHERS_RIGHTS: u32 = 0o077;

// How often an archive is copied of which a case is gone before the copy is whole.
const MOST_COPIES: u32 = 3;

/// Copies the archive in a file into a new file, which has its name only once it is whole and durable: until then it is called NEW.part. It
/// takes no lock, so others may change the archive meanwhile: the copy is the archive as it was at the start. If a case is gone by the end,
/// the copy is made anew. The last attempt shares the archive's lock with other readers, so that no case goes.
pub fn copy_archive_file<R: AllocGlobal + Files<File = File> + Clock, W: Onlooker>(
    rt: &R,
    place: ArchivePath<'_>,
    new: &str,
    wanted: CopyWords,
    onlooker: &mut W,
) -> Result<(), Refusal> {
    let mut file = PartFile::new(rt.alloc(), rt, new)?;
    for _ in 0..MOST_COPIES {
        let looked = take_look(rt, place)?;
        match copy_named(rt.alloc(), looked, &mut file, wanted, onlooker) {
            Err(Refusal::Call(ArchiveFault::NoCase)) => {}
            ended => return ended,
        }
    }
    let held = take_file(rt, place, Access::Looking, onlooker).map_err(refused)?;
    let looked = take_look(rt, place)?;
    let ended = copy_named(rt.alloc(), looked, &mut file, wanted, onlooker);
    drop(held);
    ended
}

// Copies the archive that was looked at into a new file, which gets its name then. Answers NoCase if a case of it is gone by then.
fn copy_named<'a, R: Files<File = File>, S: SharedDisk + Drop, W: Onlooker>(
    alloc: Global,
    looked: Looked<S>,
    file: &mut PartFile<'a, R>,
    wanted: CopyWords,
    onlooker: &mut W,
) -> Result<(), Refusal>
    ensures whole { OnOk result (IsWhole false (⟦<PartFile<'a, R> as NewFile>⟧.facts file.new)) }
    ensures stayed { OnOk result (StayThere S.SharedDisk ⟦<Unlocked<'static, S> as Disk>⟧ (shared_of looked)) }
{
    clear(file).map_err(|fault| Refusal::File(FileWord::New, fault))?;
    let front = looked.unlocked(Vec::new(alloc));
    let places = match find_cases(alloc, front, Reads::All) {
        Ok(places) => places,
        Err(fault) => return Err(unasked(fault)),
    };
    let Places { numbers, ranges } = places;
    let mut ranges = ranges;
    widen(&mut ranges);
    let (copied, _) = copy_part(alloc, looked.unlocked(ranges), file, wanted, onlooker);
    let onto = copied?;
    match stay(alloc, looked.into_shared(), &numbers) {
        Ok(()) => {
            // The lock of the new file is kept until it has its name.
            let named = give_name(file);
            drop(onto);
            named.map_err(|fault| name_refusal(FileWord::New, fault))
        }
        Err(fault) => {
            remove(file);
            Err(unasked(fault))
        }
    }
}

/// Copies the archive in a file into a file in the same directory, which takes its place once it is whole and durable. The archive's lock
/// is exclusive meanwhile: a process that waits for it finds the new file. The new file has the owner of the old one, and the rights that
/// this owner has. A link stays, and the file that it names is resized.
pub fn resize_archive_file<R: AllocGlobal + Files<File = File> + Clock, W: Onlooker>(
    rt: &R,
    place: ArchivePath<'_>,
    wanted: CopyWords,
    onlooker: &mut W,
) -> Result<(), Refusal> {
    let path = fs::canonicalize(rt, place.path).map_err(|error| refused(FileFault::from(error)))?;
    let path = path.as_str();
    if shared_among(rt, folder_of(path)).is_some() {
        return Err(Refusal::Unsafe(FileWord::Archive, Danger::SharedFolder));
    }
    let waits = place.waits;
    let old = take_file(rt, ArchivePath { path, waits }, Access::Changing, onlooker).map_err(
        refused,
    )?;
    refuse_rights(old.file(), wanted.drops_rights)?;
    let mut file = PartFile::new(rt.alloc(), rt, path)?;
    copy_in_place(rt.alloc(), &old, &mut file, wanted, onlooker)
}

// Makes each range one of whole blocks: a copy reads all of an image's last block. While a case is there, nobody writes a block of it.
fn widen(ranges: &mut Vec<ByteRange>) {
    for index in 0..ranges.len() {
        let rest = ranges[index].length % BLOCK;
        if rest > 0 {
            ranges[index].length = ranges[index].length.saturating_add(BLOCK - rest);
        }
    }
}

// Copies the archive in a file that is open, and locked, into a new file, which takes its place then.
fn copy_in_place<'a, R: Files<File = File>, W: Onlooker>(
    alloc: Global,
    old: &OpenFile,
    file: &mut PartFile<'a, R>,
    wanted: CopyWords,
    onlooker: &mut W,
) -> Result<(), Refusal>
    requires alone { (⟦<OpenFile as HeldFile>⟧.facts old.now).lock ≡ Some Alone }
    ensures whole { OnOk result (IsWhole true (⟦<PartFile<'a, R> as NewFile>⟧.facts file.new)) }
{
    clear_part(file).map_err(|fault| Refusal::File(FileWord::Made, fault))?;
    let from = disk_beside(alloc, old).map_err(refused)?;
    let (copied, from) = copy_part(alloc, from, file, wanted, onlooker);
    print_trouble(&from, onlooker);
    // The locks of both files are kept until the new one has its name.
    let onto = copied?;
    let placed = take_place(file, old.file());
    drop(onto);
    drop(from);
    placed.map_err(|fault| name_refusal(FileWord::Archive, fault))
}

// The archive's file is refused.
fn refused(fault: FileFault) -> Refusal {
    Refusal::File(FileWord::Archive, fault)
}

// Refuses an archive on which its group or others have a right, unless that may be dropped. The system's call that gives the rights gives
// no access control list: if there is one, the group's bits are all that it may grant.
fn refuse_rights(file: &File, drops_rights: bool) -> Result<(), Refusal> {
    let about = file.metadata().map_err(|_| refused(FileFault::Length))?;
    if about.mode() & OTHERS_RIGHTS == 0 || drops_rights {
        return Ok(());
    }
    Err(Refusal::Unsafe(FileWord::Archive, Danger::Rights))
}

// The disk of an archive whose file stays open too, and has its lock.
fn disk_beside(alloc: Global, file: &OpenFile) -> Result<FileDisk, FileFault>
    requires alone { (⟦<OpenFile as HeldFile>⟧.facts file.now).lock ≡ Some Alone }
{
    disk_to_change(alloc, file.try_clone()?)
}

// Copies the archive on a disk into a new file of this name, and hands that disk back. A copy that fails leaves no file. If the records of
// its cases leave no room in a half, it is tried again with larger ones, unless a size is asked for.
fn copy_part<'a, R: Files<File = File>, D: Disk + Drop, W: Onlooker>(
    alloc: Global,
    from: D,
    file: &mut PartFile<'a, R>,
    wanted: CopyWords,
    onlooker: &mut W,
) -> (Result<FileDisk, Refusal>, D)
    ensures written { OnOk result.0 (IsWritten (⟦<PartFile<'a, R> as NewFile>⟧.facts file.new)) }
{
    let (looked, from) = look_over(alloc, from, 0);
    if let Err(refusal) = looked {
        return (Err(refusal), from);
    }
    let mut from = from;
    let Ok(Some(shape)) = shape_on(&mut from) else {
        return (Err(refused(FileFault::Settle)), from);
    };
    let wish = wish_of(wanted, shape);
    let (copied, from) = copy_into(alloc, from, file, wish, wanted.is_sparse, onlooker);
    let refusal = match copied {
        Ok(onto) => return (Ok(onto), from),
        Err(refusal) => refusal,
    };
    match larger_wish(wanted.half_blocks, wish, refusal) {
        Some(larger) => copy_into(alloc, from, file, larger, wanted.is_sparse, onlooker),
        None => (Err(refusal), from),
    }
}

// Copies the archive on a disk into a new file, as a wish says, and hands that disk back. A copy that fails leaves no file.
fn copy_into<'a, R: Files<File = File>, D: Disk, W: Onlooker>(
    alloc: Global,
    from: D,
    file: &mut PartFile<'a, R>,
    wish: CopyWish,
    is_sparse: bool,
    onlooker: &mut W,
) -> (Result<FileDisk, Refusal>, D)
    ensures written { OnOk result.0 (IsWritten (⟦<PartFile<'a, R> as NewFile>⟧.facts file.new)) }
    ensures copied { OnOk result.0 (IsCopied D.Disk ⟦<FileDisk as Disk>⟧ wish from result.1) }
{
    let length = match wish.shape.length() {
        Ok(length) => length,
        Err(fault) => return (Err(Refusal::from(fault)), from),
    };
    let onto = match make_file(alloc, file, length, is_sparse, onlooker) {
        Ok(onto) => onto,
        Err(refusal) => return (Err(refusal), from),
    };
    let (copied, from, mut onto) = copy_counted(alloc, from, onto, wish, onlooker);
    print_trouble(&onto, onlooker);
    match settle_made(file, &mut onto, copied) {
        Ok(()) => (Ok(onto), from),
        Err(refusal) => (Err(refusal), from),
    }
}

// Copies the archive on a disk onto a new disk, and gives both disks.
fn copy_counted<D: Disk, W: Onlooker>(
    alloc: Global,
    from: D,
    onto: FileDisk,
    wish: CopyWish,
    onlooker: &mut W,
) -> (Result<(), Refusal>, D, FileDisk)
    ensures { CopiesDisk D.Disk ⟦<FileDisk as Disk>⟧ wish from onto result.0 result.1 result.2 }
{
    onlooker.begin("copies", None);
    let (copied, from, onto) = copy_disk(alloc, from, CountedDisk::new(onto, onlooker), wish);
    let onto = onto.into_disk();
    onlooker.end();
    (copied, from, onto)
}

// The wish for a copy of an archive of this shape.
fn wish_of(wanted: CopyWords, shape: Shape) -> CopyWish {
    CopyWish {
        shape: Shape {
            half_blocks: wanted.half_blocks.unwrap_or(shape.half_blocks),
            data_blocks: wanted.data_blocks.unwrap_or(shape.data_blocks),
        },
        keeps_labels: wanted.keeps_labels,
    }
}
