// Archives, made, and taken from their files.
ghost use Rattle.std.specs.Prelude.{◌≡◌, ◌+◌, ◌*◌, ◌≤◌, true, false, is_ok, Err, Ok, IfOk, IsTrue, OnErr, OnOk};
ghost use Rattle.case_journal.specs.Settling.{SettlesGates};
ghost use Rattle.case_journal.specs.Viewing.{OnlyReads};
ghost use Rattle.journal_layout.specs.Layout.{data_start};
ghost use Rattle.journal_layout.specs.Standing.{Standing};
ghost use Rattle.journal_layout.specs.Stands.{Stands};
ghost use Rattle.diagnostics.specs.Counts.{HasRisen};
ghost use Rattle.disk_model.specs.Holding.{just_opened, locked_if};
ghost use Rattle.disk_model.specs.declared.held_facts.Hold.TheVariants.{Alone};
ghost use Rattle.archive_files.specs.Locks.{hold_of};
ghost use Rattle.archive_files.specs.declared.failures.Refusal.{Refusal};
ghost use Rattle.whole_files.specs.Calls.{just_made};
ghost use Rattle.whole_files.specs.Whole.{IsUnnamed, IsMade, IsWritten, IsWhole};

use crate::archive_path::ArchivePath;
use crate::failures::{Danger, FileWord, Refusal};
use crate::making::format_over;
use archive_checks::shape_on;
use case_journal::settle;
use diagnostics::Onlooker;
use disk_model::{Disk, FileDisk, FileFault, HeldFile, Hold, OpenFile, RawFile};
use journal_layout::{BLOCK, OpenFault, Shape};
use std::alloc::Global;
use std::fs::{File, Metadata};
use std::os::unix::fs::FileExt;
use std::rt::Files;
use std::time::{Clock, Duration};
use std::{fs, thread};
use whole_files::{
    NameFault, NewFile, PartFile, clear, give_name, is_named, is_same, make, remove,
};

/// The access to an archive. A command that only looks needs no right to write the file, and shares its lock.
#[derive(Clone, Copy, PartialEq, Eq)]
pub enum Access {
    Looking,
    Changing,
}

// How often a file is opened anew that is no longer the one of its path.
pub(crate) const MOST_TRIES: u32 = 1_000_000;

/// The name of the wait while another process has the archive's lock, for an onlooker.
pub const WAITING: &str = "waits for the archive's lock";

// How often a lock is asked for before it is waited for, and the milliseconds between.
const LOCK_TRIES: u32 = 110;

const TRY_MILLIS: u64 = 10;

// The most blocks of a half of a journal.
const MOST_HALF_BLOCKS: u32 = 4096;

// The bytes of one write of zeros.
const ZEROS: usize = 65_536;

/// A request for a new archive.
#[derive(Clone, Copy)]
pub struct NewArchive {
    pub shape: Shape,
    /// It is of version 2 of the layout.
    pub keeps_labels: bool,
    /// Its zeros are not written.
    pub is_sparse: bool,
}

/// Makes an archive in a new file. The shape is looked at before there is one. Until the archive is whole its file is called
/// ARCHIVE.part, so that one that is stopped leaves nothing in the way.
pub fn make_archive<R: AllocGlobal + Files<File = File>, W: Onlooker>(
    rt: &R,
    path: &str,
    wanted: NewArchive,
    onlooker: &mut W,
) -> Result<(), Refusal> {
    let length = wanted.shape.length()?;
    let mut file = PartFile::new(rt.alloc(), rt, path)?;
    make_whole(rt.alloc(), &mut file, length, wanted, onlooker)
}

// Makes an archive of so many bytes in a new file.
fn make_whole<'a, R: Files<File = File>, W: Onlooker>(
    alloc: Global,
    file: &mut PartFile<'a, R>,
    length: u64,
    wanted: NewArchive,
    onlooker: &mut W,
) -> Result<(), Refusal>
    ensures whole { OnOk result (IsWhole false (⟦<PartFile<'a, R> as NewFile>⟧.facts file.new)) }
{
    clear(file).map_err(|fault| Refusal::File(FileWord::NewArchive, fault))?;
    let disk = make_file(alloc, file, length, wanted.is_sparse, onlooker)?;
    let (formatted, mut disk) = format_over(alloc, disk, wanted);
    print_trouble(&disk, onlooker);
    settle_made(file, &mut disk, formatted)?;
    // The lock of its file is kept until it has its name.
    let named = give_name(file);
    drop(disk);
    named.map_err(|fault| name_refusal(FileWord::NewArchive, fault))
}

// Makes the bytes durable that a disk has written in a new file, if that went well. Else the file is removed.
pub(crate) fn settle_made<'a, R: Files<File = File>>(
    file: &mut PartFile<'a, R>,
    disk: &mut FileDisk,
    done: Result<(), Refusal>,
) -> Result<(), Refusal>
    requires made { IsMade (⟦<PartFile<'a, R> as NewFile>⟧.facts file.old) }
    ensures written { OnOk result (IsWritten (⟦<PartFile<'a, R> as NewFile>⟧.facts file.new)) }
    ensures done { OnOk result (done ≡ Ok tt) }
    ensures refused { (why : Refusal) → done ≡ Err why → result ≡ Err why }
{
    if let Err(refusal) = done {
        remove(file);
        return Err(refusal);
    }
    match file.sync_disk(disk) {
        Ok(()) => Ok(()),
        Err(_) => {
            remove(file);
            Err(Refusal::Disk)
        }
    }
}

// The refusal of the file that a word names, if it has not got its name for good.
pub(crate) fn name_refusal(word: FileWord, fault: NameFault) -> Refusal {
    match fault {
        NameFault::Unnamed(fault) => Refusal::File(word, fault),
        NameFault::Exchanged => Refusal::Unsafe(word, Danger::Exchanged),
        NameFault::Named(number) => {
            Refusal::File(FileWord::Named(word.shown(), number), FileFault::Sync)
        }
    }
}

// Makes the file of an archive, and gives the disk in it, which shares its lock. One that can't be made whole is removed, unless
// another process has it.
pub(crate) fn make_file<'a, R: Files<File = File>, W: Onlooker>(
    alloc: Global,
    file: &mut PartFile<'a, R>,
    length: u64,
    is_sparse: bool,
    onlooker: &mut W,
) -> Result<FileDisk, Refusal>
    ensures made { OnOk result (IsMade (⟦<PartFile<'a, R> as NewFile>⟧.facts file.new)) }
{
    make(file).map_err(|fault| Refusal::File(FileWord::Made, fault))?;
    match disk_of_zeros(alloc, file, length, is_sparse, onlooker) {
        Ok(disk) => Ok(disk),
        Err(fault) => {
            if fault != FileFault::Busy {
                remove(file);
            }
            Err(Refusal::File(FileWord::Made, fault))
        }
    }
}

// Gives a new file its length, writes its zeros unless it is to be sparse, and makes it durable, with its name. So the file system has
// room for all of its bytes from then on.
fn disk_of_zeros<'a, R: Files<File = File>, W: Onlooker>(
    alloc: Global,
    file: &mut PartFile<'a, R>,
    length: u64,
    is_sparse: bool,
    onlooker: &mut W,
) -> Result<FileDisk, FileFault>
    requires made { ⟦<PartFile<'a, R> as NewFile>⟧.facts file.old ≡ just_made }
    ensures part { IsUnnamed (⟦<PartFile<'a, R> as NewFile>⟧.facts file.new) }
    ensures made { OnOk result (IsMade (⟦<PartFile<'a, R> as NewFile>⟧.facts file.new)) }
{
    file.try_lock()?;
    file.set_length(length).map_err(|_| FileFault::Length)?;
    if !is_sparse {
        make_room(file, length, onlooker)?;
    }
    file.sync().map_err(|_| FileFault::Sync)?;
    file.sync_folder().map_err(|_| FileFault::Sync)?;
    match file.disk(alloc) {
        Ok(disk) if !disk.has_lost_writes() => Ok(disk),
        Ok(_) | Err(FileFault::Settle) => Err(FileFault::Sync),
        Err(fault) => Err(fault),
    }
}

// Writes the zeros of a file, so that the file system has room for them.
fn make_room<'a, R: Files<File = File>, W: Onlooker>(
    file: &PartFile<'a, R>,
    length: u64,
    onlooker: &mut W,
) -> Result<(), FileFault>
    requires unsynced { (⟦<PartFile<'a, R> as NewFile>⟧.facts file.now).is_synced ≡ false }
{
    let file = file.writer()?;
    onlooker.begin("makes room", Some(length));
    let written = write_zeros(file, length, onlooker);
    onlooker.end();
    written
}

// Writes zeros over the whole file.
fn write_zeros<W: Onlooker>(file: &File, length: u64, onlooker: &mut W) -> Result<(), FileFault> {
    let zeros = [0u8; ZEROS];
    let mut at = 0u64;
    while at < length {
        let left = length - at;
        let size = if left < ZEROS as u64 {
            left as usize
        } else {
            ZEROS
        };
        file.write_all_at(&zeros[..size], at)?;
        at += size as u64;
        onlooker.advance(size as u64);
    }
    Ok(())
}

/// Reports to an onlooker the last call on the disk's file that failed, if one has.
pub fn print_trouble<W: Onlooker>(disk: &FileDisk, onlooker: &mut W) {
    if let Some(trouble) = disk.trouble() {
        onlooker.fail(trouble);
    }
}

/// Takes the disk of an archive in a file. This alone waits: for the file's lock, as long as another process has it, or, for a command that
/// only looks, as long as another changes the archive. An onlooker hears that it waits.
pub fn take_disk<R: AllocGlobal + Files<File = File> + Clock, W: Onlooker>(
    rt: &R,
    place: ArchivePath<'_>,
    access: Access,
    onlooker: &mut W,
) -> Result<FileDisk, Refusal> {
    let taken = disk_of(rt, place, access, onlooker);
    taken.map_err(|fault| Refusal::File(FileWord::Archive, fault))
}

fn disk_of<R: AllocGlobal + Files<File = File> + Clock, W: Onlooker>(
    rt: &R,
    place: ArchivePath<'_>,
    access: Access,
    onlooker: &mut W,
) -> Result<FileDisk, FileFault> {
    let file = take_file(rt, place, access, onlooker)?;
    match access {
        Access::Looking => Ok(FileDisk::from_shared(RawFile::settled(file)?)),
        Access::Changing => disk_to_change(rt.alloc(), file),
    }
}

// The disk of an archive in a file that is open for reading and writing, and that has its lock alone. It has
// the gates written again that an earlier process may have failed to write: reads don't show that. If the
// system reports a lost write, another program may have written any byte, as one that restored the file: then
// the superblock and all of the journal are written again. All that is built on them is as durable as they are.
pub(crate) fn disk_to_change(alloc: Global, file: OpenFile) -> Result<FileDisk, FileFault>
    requires alone { ⟦<OpenFile as HeldFile>⟧.facts file ≡ locked_if true Alone just_opened }
{
    let raw = RawFile::settled(file)?;
    if raw.file().known().has_lost_writes {
        let mut raw = raw;
        let front = front_of(&mut raw)?;
        let raw = raw.write_again(front)?;
        return Ok(FileDisk::from_locked(alloc, raw)?);
    }
    let mut disk = FileDisk::from_locked(alloc, raw)?;
    settle_gates(alloc, &mut disk)?;
    Ok(disk)
}

// The gates alone. An archive that can't be opened is only read: it is left to the opening that comes next, which says why.
fn settle_gates<D: Disk>(alloc: Global, disk: &mut D) -> Result<(), FileFault>
    ensures settles { (s : Standing) → IsTrue (D.is_honest disk.old) → Stands (D.seen disk.old) s
        → OnOk result (SettlesGates D.Disk disk.old disk.new s (Ok tt)) }
    ensures quiet { IsTrue (D.is_honest disk.old) → ((s : Standing) → Stands (D.seen disk.old) s → ⊥)
        → OnlyReads D.Disk disk.old disk.new }
{
    let fault = match settle(alloc, disk) {
        Ok(()) => return Ok(()),
        Err(fault) => fault,
    };
    match fault {
        OpenFault::Disk => Err(FileFault::Settle),
        OpenFault::OutOfMemory => Err(FileFault::OutOfMemory),
        OpenFault::NotAnArchive => Ok(()),
        OpenFault::UnknownVersion(_) => Ok(()),
        OpenFault::Damaged { .. } => Ok(()),
    }
}

// How many bytes the superblock and the journal take. 0 if there is no archive.
fn front_of<D: Disk>(disk: &mut D) -> Result<u64, FileFault>
    ensures quiet { OnlyReads D.Disk disk.old disk.new }
    ensures most { IfOk result (λ n. n ≤ 4096 * (1 + 2 * 4096)) }
    ensures cause { OnErr result (HasRisen (D.failures disk.old) (D.failures disk.new)) }
    ensures journal { (s : Standing) → IsTrue (D.is_honest disk.old) → Stands (D.seen disk.old) s
        → IfOk result (λ n. n ≡ data_start s.shape) }
{
    match shape_on(disk) {
        Ok(Some(shape)) => {
            Ok(BLOCK * (1 + 2 * u64::from(shape.half_blocks.min(MOST_HALF_BLOCKS))))
        }
        Ok(None) => Ok(0),
        Err(_) => Err(FileFault::Settle),
    }
}

// Opens the file and takes its lock. Opening a pipe could wait for ever, so anything but a regular file is refused before. While
// it waited, another file may have taken its place: then it begins again.
pub(crate) fn take_file<R: Files<File = File> + Clock, W: Onlooker>(
    rt: &R,
    place: ArchivePath<'_>,
    access: Access,
    onlooker: &mut W,
) -> Result<OpenFile, FileFault>
    ensures locked { IfOk result (λ f. ⟦<OpenFile as HeldFile>⟧.facts f ≡ locked_if true (hold_of access) just_opened) }
{
    for _ in 0..MOST_TRIES {
        look_at_file(rt, place.path)?;
        let mut file = OpenFile::new(open_file(rt, place.path, access)?);
        take_lock(rt, &mut file, hold_of(access), place.waits, onlooker)?;
        if is_named(rt, place.path, file.file())? {
            return Ok(file);
        }
    }
    Err(FileFault::Busy)
}

// Takes the lock of a file. If another process has it, it is asked for again for a second, so that an onlooker hears of the wait, and
// then it is waited for.
fn take_lock<R: Clock, W: Onlooker>(
    rt: &R,
    file: &mut OpenFile,
    hold: Hold,
    waits: bool,
    onlooker: &mut W,
) -> Result<(), FileFault>
    requires opened { ⟦<OpenFile as HeldFile>⟧.facts file.old ≡ just_opened }
    ensures facts { ⟦<OpenFile as HeldFile>⟧.facts file.new ≡ locked_if (is_ok result) hold just_opened }
{
    match file.lock(hold, false) {
        Err(FileFault::Busy) if waits => {
            onlooker.begin(WAITING, None);
            let taken = await_lock(rt, file, hold, onlooker);
            onlooker.end();
            taken
        }
        answered => answered,
    }
}

fn await_lock<R: Clock, W: Onlooker>(
    rt: &R,
    file: &mut OpenFile,
    hold: Hold,
    onlooker: &mut W,
) -> Result<(), FileFault>
    requires opened { ⟦<OpenFile as HeldFile>⟧.facts file.old ≡ just_opened }
    ensures facts { ⟦<OpenFile as HeldFile>⟧.facts file.new ≡ locked_if (is_ok result) hold just_opened }
{
    for _ in 0..LOCK_TRIES {
        thread::sleep(rt, Duration::from_millis(TRY_MILLIS));
        onlooker.advance(0);
        match file.lock(hold, false) {
            Err(FileFault::Busy) => {}
            answered => return answered,
        }
    }
    file.lock(hold, true)
}

// Refuses a path that names neither a regular file nor a directory, which is refused once it is open.
pub(crate) fn look_at_file<R: Files<File = File>>(rt: &R, path: &str) -> Result<(), FileFault> {
    let named = fs::metadata(rt, path)?;
    if named.is_file() || named.is_dir() {
        Ok(())
    } else {
        Err(FileFault::Special)
    }
}

/// Whether one of the words of a command over an archive names the file that standard output goes to. The program's output
/// would overwrite it.
pub fn names_output<R: Files<File = File>>(rt: &R, words: &[String]) -> bool {
    let Some((command, others)) = words.split_first() else {
        return false;
    };
    if !takes_archive(command) {
        return false;
    }
    match fs::metadata(rt, "/dev/stdout") {
        Ok(output) if output.is_file() => others.iter().any(|word| names(rt, word, &output)),
        _ => false,
    }
}

fn takes_archive(command: &str) -> bool {
    matches!(
        command,
        "format"
            | "run"
            | "store"
            | "extract"
            | "unpack"
            | "list"
            | "info"
            | "ask"
            | "wants"
            | "groups"
            | "prune"
            | "report"
            | "search"
            | "digest"
            | "look"
            | "check"
            | "copy"
            | "resize"
            | "salvage"
    )
}

fn names<R: Files<File = File>>(rt: &R, path: &str, file: &Metadata) -> bool {
    match fs::metadata(rt, path) {
        Ok(named) => is_same(&named, file),
        Err(_) => false,
    }
}

pub(crate) fn open_file<R: Files<File = File>>(
    rt: &R,
    path: &str,
    access: Access,
) -> Result<File, FileFault> {
    let mut options = File::options();
    options.read(true).write(access == Access::Changing);
    Ok(options.open(rt, path)?)
}

// How the lock is taken for an access to an archive.
fn hold_of(access: Access) -> Hold
    ensures { result ≡ hold_of access }
{
    match access {
        Access::Looking => Hold::Shared,
        Access::Changing => Hold::Alone,
    }
}
