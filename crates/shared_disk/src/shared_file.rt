// A file of the operating system that other processes change. Nothing
// is proved of its bytes: no contract can say which bytes a file holds.
ghost use Rattle.std.specs.Prelude.{◌≡◌, ◌^◌, ◌<◌, [], true, false, is_ok, None, Some, OnOk, IsOkUnless};
ghost use Rattle.std.proofs.lemmas.Bool.{false≢true};
ghost use Rattle.disk_model.specs.Calls.{read};
ghost use Rattle.disk_model.specs.declared.held_facts.Hold.TheVariants.{Shared};

use crate::lockless::look_lockless;
use crate::shared::{LookFault, SharedDisk};
use crate::watched::WatchedDisk;
use disk_model::{DiskFault, FileFault, HeldFile, Hold};
use std::alloc::Global;

/// A regular file that other processes change under its advisory lock (flock(2)), of the length that it had when it
/// was looked at. A look shares the lock with others that look, for as long as one read takes. If another process
/// has the lock exclusively, the look takes none (`look_lockless`). Only if that process changes the journal all
/// the time does the look wait. The laws that are proved over a shared disk hold of it if the file system gives by
/// each read bytes that the file had meanwhile, and if each process that changes the file has its lock.
#[derive(Drop)]
pub struct SharedFile<F: HeldFile> {
    file: F,
    length: u64,
    waits: bool,
    ghost small: { length < 2 ^ 64 },
    ghost free: { (F.facts file).lock ≡ None },
}

impl<F: HeldFile + Drop> SharedFile<F> {
    /// A file that is open for reading. If another process has its lock, a look waits for it if `waits` is set, and otherwise answers
    /// `Busy`. A directory is refused as `Folder`, and any other file that is not regular as `Special`.
    pub fn new(file: F, waits: bool) -> Result<SharedFile<F>, FileFault>
        requires free { (F.facts file).lock ≡ None }
    {
        let mut file = file;
        let length = file.look_at_kind()?;
        Ok(SharedFile {
            file,
            length,
            waits,
        })
    }

    /// The file.
    pub fn file(&self) -> &F {
        &self.file
    }
}

impl<F: HeldFile> SharedFile<F> {
    // Takes the lock that those share who look, reads the first bytes, and lets the lock go.
    fn look_locked(&mut self, waits: bool, into: &mut [u8]) -> Result<(), LookFault>
        ensures size { self.new.length ≡ self.old.length }
        ensures locked { OnOk result ((held : F) × ((F.facts held).lock ≡ Some Shared) × F.made held (read 0 true into.new) held) }
    {
        match self.file.lock(Hold::Shared, waits) {
            Ok(()) => {}
            Err(FileFault::Busy) => return Err(LookFault::Busy),
            Err(_) => return Err(LookFault::Lock),
        }
        let read = self.file.peek(into, 0);
        let freed = self.file.unlock();
        let Ok(()) = read else {
            return Err(LookFault::Read);
        };
        let Ok(()) = freed else {
            return Err(LookFault::Lock);
        };
        Ok(())
    }
}

impl<F: HeldFile> WatchedDisk for SharedFile<F> {
    ghost size = { λ f. f.length };

    ghost is_honest = { λ f. false };

    ghost moments = { λ f. [] };

    ghost reached = { λ f. 0 };

    ghost addressed = { λ f. f.small };

    ghost within = { λ f honest. absurd (false≢true honest) };

    ghost whole = { λ f k honest within. absurd (false≢true honest) };

    ghost bytes = { λ f k honest within. absurd (false≢true honest) };

    fn length(&self) -> u64 {
        self.length
    }

    fn read_at(&mut self, at: u64, into: &mut [u8]) -> Result<(), DiskFault> {
        self.read_between(at, into)
    }
}

impl<F: HeldFile> SharedDisk for SharedFile<F> {
    ghost size = { λ f. f.length };

    ghost is_honest = { λ f. false };

    ghost looked = { λ f. [] };

    ghost meanwhile = { λ f. [] };

    ghost addressed = { λ f. f.small };

    ghost whole = { λ f honest. absurd (false≢true honest) };

    ghost lists = { λ f c honest held. absurd held };

    ghost looked_bytes = { λ f honest. absurd (false≢true honest) };

    fn length(&self) -> u64 {
        self.length
    }

    fn read_between(&self, at: u64, into: &mut [u8]) -> Result<(), DiskFault>
        ensures kind { IsOkUnless result DiskFault.Read }
        ensures made { F.made self.now.file (read at (is_ok result) into.new) self.now.file }
    {
        match self.file.peek(into, at) {
            Ok(()) => Ok(()),
            Err(_) => Err(DiskFault::Read),
        }
    }

    fn look(&mut self, alloc: Global, into: &mut [u8]) -> Result<(), LookFault> {
        match self.look_locked(false, into) {
            Err(LookFault::Busy) => {}
            ended => return ended,
        }
        if look_lockless(alloc, self, into)? {
            return Ok(());
        }
        self.look_locked(self.waits, into)
    }
}
