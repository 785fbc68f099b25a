// A file of the operating system that is open. No clause can describe a call of the system, so this file must be read with care. Each
// method of `HeldFile` makes one call, and notes the facts that are known then.
ghost use Rattle.std.specs.Prelude.{◌≡◌, is_ok, IfOk};
ghost use Rattle.disk_model.specs.Holding.{just_opened, made_alone, beside, counted_if};

use crate::file_fault::FileFault;
use crate::held_facts::{HeldFacts, Hold};
use crate::held_file::HeldFile;
use diagnostics::{Call, Trouble, after_failure};
use std::fs::{File, Permissions, TryLockError};
use std::io;
use std::os::unix::fs::{FileExt, OpenOptionsExt, PermissionsExt};
use std::rt::Files;

// Only its owner may read and write a file that is made here.
const OWNER_ALONE: u32 = 0o600;

// A file that was opened, and no more.
const OPENED: HeldFacts = HeldFacts {
    lock: None,
    is_regular: false,
    is_settled: false,
    has_lost_writes: false,
    has_failed_sync: false,
    failures: 0,
};

/// A file of the operating system that is open.
#[derive(Drop)]
pub struct OpenFile {
    file: File,
    facts: HeldFacts,
    // The last call on it as a disk that failed.
    trouble: Option<Trouble>,
}

impl OpenFile {
    /// A file that was opened, and no more.
    pub fn new(file: File) -> OpenFile
        ensures opened { result.facts ≡ just_opened }
    {
        OpenFile {
            file,
            facts: OPENED,
            trouble: None,
        }
    }

    /// Makes a file of `length` bytes for its owner alone, and takes its lock.
    /// It never waits. If a later step fails, the file that was made stays.
    pub(crate) fn make<R: Files<File = File>>(
        rt: &R,
        path: &str,
        length: u64,
    ) -> Result<OpenFile, FileFault>
        ensures made { IfOk result (λ f. f.facts ≡ made_alone) }
    {
        let file = File::options()
            .read(true)
            .write(true)
            .create_new(true)
            .mode(OWNER_ALONE)
            .open(rt, path)?;
        let mut made = OpenFile::new(file);
        made.lock(Hold::Alone, false)?;
        // A new file's mode lacks the bits that the process masks.
        made.file
            .set_permissions(Permissions::from_mode(OWNER_ALONE))
            .map_err(|_| FileFault::Length)?;
        made.file.set_len(length).map_err(|_| FileFault::Length)?;
        made.facts.is_regular = true;
        made.facts.is_settled = true;
        Ok(made)
    }

    /// Another descriptor of the file, which shares its lock.
    pub fn try_clone(&self) -> io::Result<OpenFile>
        ensures beside { IfOk result (λ f. f.facts ≡ beside self.now.facts) }
    {
        let file = self.file.try_clone()?;
        let mut other = OpenFile::new(file);
        other.facts.lock = self.facts.lock;
        Ok(other)
    }

    /// The file, to look up its kind and its owner. A caller must neither release its lock nor write it.
    pub fn file(&self) -> &File {
        &self.file
    }

    /// The last call on it as a disk that failed.
    pub(crate) fn trouble(&self) -> Option<Trouble> {
        self.trouble
    }

    // Counts a failure if the call failed.
    fn counted(&mut self, outcome: io::Result<()>, call: Call) -> io::Result<()>
        ensures outcome { is_ok result ≡ is_ok outcome }
        ensures facts { self.new.facts ≡ counted_if (is_ok result) self.old.facts }
    {
        let Err(error) = outcome else {
            return Ok(());
        };
        self.trouble = Some(Trouble {
            call,
            errno: error.raw_os_error(),
        });
        self.facts.failures = after_failure(self.facts.failures);
        Err(error)
    }
}

impl HeldFile for OpenFile {
    ghost facts = { λ f. f.facts };

    // Only a reader can check that a method makes its call.
    ghost made = { λ old call new. Unit {0} };

    fn known(&self) -> HeldFacts {
        self.facts
    }

    fn look_at_kind(&mut self) -> Result<u64, FileFault> {
        let about = self.file.metadata().map_err(|_| FileFault::Length)?;
        if about.is_dir() {
            return Err(FileFault::Folder);
        }
        if !about.is_file() {
            return Err(FileFault::Special);
        }
        self.facts.is_regular = true;
        Ok(about.len())
    }

    fn lock(&mut self, hold: Hold, waits: bool) -> Result<(), FileFault> {
        let tried = match (hold, waits) {
            (Hold::Shared, false) => self.file.try_lock_shared(),
            (Hold::Alone, false) => self.file.try_lock(),
            (Hold::Shared, true) => self.file.lock_shared().map_err(TryLockError::Error),
            (Hold::Alone, true) => self.file.lock().map_err(TryLockError::Error),
        };
        match tried {
            Ok(()) => {
                self.facts.lock = Some(hold);
                Ok(())
            }
            Err(TryLockError::WouldBlock) => Err(FileFault::Busy),
            Err(TryLockError::Error(_)) => Err(FileFault::Lock),
        }
    }

    fn unlock(&mut self) -> io::Result<()> {
        self.facts.lock = None;
        self.facts.is_settled = false;
        self.file.unlock()
    }

    fn settle(&mut self) -> io::Result<()> {
        let settled = self.file.sync_all();
        let is_lost = settled.is_err();
        self.facts.is_settled = !is_lost;
        self.facts.has_failed_sync = self.facts.has_lost_writes && is_lost;
        self.facts.has_lost_writes = self.facts.has_lost_writes || is_lost;
        settled
    }

    fn pread(&mut self, into: &mut [u8], at: u64) -> io::Result<()> {
        let outcome = self.file.read_exact_at(into, at);
        self.counted(outcome, Call::Read)
    }

    fn pwrite(&mut self, from: &[u8], at: u64) -> io::Result<()> {
        let outcome = self.file.write_all_at(from, at);
        self.counted(outcome, Call::Write)
    }

    fn sync(&mut self) -> io::Result<()> {
        let outcome = self.file.sync_all();
        self.facts.has_failed_sync = outcome.is_err();
        self.counted(outcome, Call::Sync)
    }

    fn peek(&self, into: &mut [u8], at: u64) -> io::Result<()> {
        self.file.read_exact_at(into, at)
    }
}
