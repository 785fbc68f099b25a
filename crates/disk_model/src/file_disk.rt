// A disk in a file. Nothing is proved of its bytes: no contract can say which bytes a file holds.
ghost use Rattle.std.specs.Prelude.{◌≡◌, true, false, Some, IfOk, OnOk};
ghost use Rattle.std.proofs.Common.{inl, ⊎_elim};
ghost use Rattle.std.proofs.lemmas.Bool.{false≢true};
ghost use Rattle.disk_model.specs.Holding.{made_alone, synced_if};
ghost use Rattle.disk_model.specs.declared.held_facts.Hold.TheVariants.{Alone};

use crate::file_fault::FileFault;
use crate::gathered::Gathered;
use crate::held_facts::Hold;
use crate::held_file::HeldFile;
use crate::open_file::OpenFile;
use crate::raw_file::RawFile;
use crate::{Disk, DiskFault, Gathering};
use diagnostics::Trouble;
use std::alloc::{AllocError, Global};
use std::fs::File;
use std::io;
use std::path::Path;
use std::rt::Files;

// The bytes of one write of zeros.
const ZEROS: usize = 65_536;

/// A disk in a file, of the length that the file has when it is made or opened. As long as it is there it holds the file's
/// advisory lock (flock(2)), so that no two disks change one file at a time: a second one, of another process or of the
/// same, is refused as `Busy`. Disks for reading alone share a lock with one another. A process that ends in any way holds
/// no lock.
///
/// Adjoining writes are gathered, and written as one before a write that does not adjoin, before they are too many, and
/// before a sync. A read gives the gathered bytes too. If the file refuses a write, the call that met the refusal reports
/// it, which may be a later write or a sync, and the gathered bytes are kept to be written again.
///
/// When Linux fails to write a page to the device, it keeps the page's new bytes in memory, counts them as written, and reports
/// the loss in one sync. An earlier process may have met that, or have been killed before it. So opening a file makes the bytes
/// durable that still wait, and a process that builds on bytes of an earlier process first has those written again that the
/// earlier one may have failed to write. If the opening's own sync reports a lost write (`has_lost_writes`), these may be any
/// bytes (`RawFile::write_again`). For the same reason no sync succeeds after one that failed: the file must be opened again.
///
/// Nothing is promised of its bytes, or of the bytes that a crash leaves of them: no proof shows that it is honest, so
/// the laws that are proved over a disk hold for it if the file system keeps to the disk model.
#[derive(Drop)]
pub struct FileDisk {
    disk: Gathering<RawFile<OpenFile>>,
}

impl FileDisk {
    ghost use Rattle.disk_model.specs.RawFiles.{file_of};

    /// Makes a file of `length` zeros and opens it, with no failure counted yet. The zeros are written, so that the file
    /// system has room for all of its bytes from then on, and made durable, and so is its name in its directory. Only its
    /// owner may read and write it.
    ///
    /// If a later step fails, the file that was made stays. It never waits.
    pub fn create<R: AllocGlobal + Files<File = File>>(
        rt: &R,
        path: &str,
        length: u64,
    ) -> Result<FileDisk, FileFault>
        ensures size { IfOk result (λ d. ⟦<FileDisk as Disk>⟧.size d ≡ length) }
        ensures uncounted { IfOk result (λ d. ⟦<FileDisk as Disk>⟧.failures d ≡ 0) }
    {
        let gathered = Gathered::new(rt.alloc())?;
        let mut file = OpenFile::make(rt, path, length)?;
        write_zeros(&mut file, length)?;
        make_durable(rt, path, &mut file)?;
        let raw = RawFile::new(file, length);
        Ok(FileDisk {
            disk: Gathering::written(raw, Some(gathered)),
        })
    }

    /// Opens a file that is there, with no failure counted yet. It never waits: if another process has the file's lock, it
    /// answers `Busy`.
    pub fn open<R: AllocGlobal + Files<File = File>>(
        rt: &R,
        path: &str,
    ) -> Result<FileDisk, FileFault>
        ensures uncounted { IfOk result (λ d. ⟦<FileDisk as Disk>⟧.failures d ≡ 0) }
    {
        let file = File::options().read(true).write(true).open(rt, path)?;
        let mut file = OpenFile::new(file);
        file.lock(Hold::Alone, false)?;
        let raw = RawFile::settled(file)?;
        Ok(FileDisk::from_locked(rt.alloc(), raw)?)
    }

    /// A disk in a file that is open for reading and writing, and whose lock is had alone. There may be no memory for the bytes of its writes.
    pub fn from_locked(alloc: Global, file: RawFile<OpenFile>) -> Result<FileDisk, AllocError>
        requires alone { (⟦<OpenFile as HeldFile>⟧.facts (file_of file)).lock ≡ Some Alone }
        ensures counted { IfOk result (λ d. ⟦<FileDisk as Disk>⟧.failures d ≡ ⟦<RawFile<OpenFile> as Disk>⟧.failures file) }
    {
        let gathered = Gathered::new(alloc)?;
        Ok(FileDisk {
            disk: Gathering::synced(file, Some(gathered)),
        })
    }

    /// A disk for reading alone in a file that is open for reading, and whose lock is shared with others that read:
    /// so nobody changes the file meanwhile. Its writes answer `Write`, and none reaches the file; its syncs are the file's.
    pub fn from_shared(file: RawFile<OpenFile>) -> FileDisk
        ensures counted { ⟦<FileDisk as Disk>⟧.failures result ≡ ⟦<RawFile<OpenFile> as Disk>⟧.failures file }
    {
        FileDisk {
            disk: Gathering::synced(file, None),
        }
    }

    /// Whether the operating system reported at the opening that an earlier write was lost. Any byte that was written before
    /// may be missing on the device then, also one of another program.
    pub fn has_lost_writes(&self) -> bool {
        self.disk.below().file().known().has_lost_writes
    }

    /// The last call on the file that failed, of those that its methods as a disk made.
    pub fn trouble(&self) -> Option<Trouble> {
        self.disk.below().file().trouble()
    }
}

// Writes zeros over the whole file.
fn write_zeros<F: HeldFile>(file: &mut F, length: u64) -> Result<(), FileFault>
    requires alone { (F.facts file.old).lock ≡ Some Alone }
    requires settled { (F.facts file.old).is_settled ≡ true }
    ensures facts { OnOk result (F.facts file.new ≡ F.facts file.old) }
{
    let zeros = [0u8; ZEROS];
    let mut at = 0u64;
    while at < length {
        let left = length - at;
        let size = if left < ZEROS as u64 {
            left as usize
        } else {
            ZEROS
        };
        file.pwrite(&zeros[..size], at)?;
        at += size as u64;
    }
    Ok(())
}

// Makes the file's bytes, its length and its name in its directory durable.
fn make_durable<R: Files<File = File>, F: HeldFile>(
    rt: &R,
    path: &str,
    file: &mut F,
) -> Result<(), FileFault>
    requires settled { (F.facts file.old).is_settled ≡ true }
    requires good { (F.facts file.old).has_failed_sync ≡ false }
    ensures facts { OnOk result (F.facts file.new ≡ synced_if true (F.facts file.old)) }
{
    file.sync().map_err(|_| FileFault::Sync)?;
    sync_folder(rt, path).map_err(|_| FileFault::Sync)
}

// Makes the names in the file's directory durable.
fn sync_folder<R: Files<File = File>>(rt: &R, path: &str) -> io::Result<()> {
    let folder = match Path::new(path).parent() {
        Some(folder) if !folder.as_os_str().is_empty() => folder,
        _ => Path::new("."),
    };
    File::open(rt, folder)?.sync_all()
}

impl Disk for FileDisk {
    ghost size = { λ d. ⟦<Gathering<RawFile<OpenFile>> as Disk>⟧.size d.disk };

    ghost seen = { λ d. ⟦<Gathering<RawFile<OpenFile>> as Disk>⟧.seen d.disk };

    ghost is_honest = { λ d. ⟦<Gathering<RawFile<OpenFile>> as Disk>⟧.is_honest d.disk };

    ghost failures = { λ d. ⟦<Gathering<RawFile<OpenFile>> as Disk>⟧.failures d.disk };

    ghost clock = { λ d. ⟦<Gathering<RawFile<OpenFile>> as Disk>⟧.clock d.disk };

    ghost may_leave = { λ d. ⟦<Gathering<RawFile<OpenFile>> as Disk>⟧.may_leave d.disk };

    ghost left_since = { λ d. ⟦<Gathering<RawFile<OpenFile>> as Disk>⟧.left_since d.disk };

    ghost addressed = { λ d. d.disk.disk.small };

    ghost whole = { λ d honest. absurd (false≢true honest) };

    ghost sized = { λ d c honest left. absurd (false≢true honest) };

    ghost seen_bytes = { λ d honest. absurd (false≢true honest) };

    ghost left_bytes = { λ d c honest left. absurd (false≢true honest) };

    ghost seen_may_stay = { λ d honest. absurd (false≢true honest) };

    ghost counts_now = { λ d t c le left. inl left };

    ghost only_now = { λ d c since. ⊎_elim (λ stays. stays) (λ was. absurd (false≢true was.honest)) since };

    fn length(&self) -> u64 {
        self.disk.length()
    }

    fn read_at(&mut self, at: u64, into: &mut [u8]) -> Result<(), DiskFault> {
        self.disk.read_at(at, into)
    }

    fn write_at(&mut self, at: u64, from: &[u8]) -> Result<(), DiskFault> {
        self.disk.write_at(at, from)
    }

    fn sync(&mut self) -> Result<(), DiskFault> {
        self.disk.sync()
    }
}
