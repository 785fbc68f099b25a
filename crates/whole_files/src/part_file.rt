// A file of the operating system that is made. No clause can describe a call of the system, so this file must be read with care. Each
// method makes one call, or looks at one name, and notes the facts that are known then.
ghost use Rattle.std.specs.Prelude.{◌≡◌, ◌++◌, IfOk, codes, string_bytes};
ghost use Rattle.whole_files.specs.Part.{lock_of, alone_if};

use crate::facts::{FileFacts, Looks};
use crate::names::{folder_of, is_same, open_looked};
use crate::new_file::{Linked, NewFile};
use disk_model::{Disk, DiskFault, FileDisk, FileFault, HeldFile, Hold, OpenFile, RawFile};
use std::alloc::{AllocError, Global};
use std::fs::{File, Metadata, Permissions};
use std::io::ErrorKind;
use std::os::unix::fs::{MetadataExt, OpenOptionsExt, PermissionsExt, fchown};
use std::rt::Files;
use std::{fs, io};

// Its owner may read and write a file, and nobody else.
const OWNER_ALONE: u32 = 0o600;

// The bits of a mode that are the owner's rights.
const OWNER_RIGHTS: u32 = 0o700;

// Nothing was shown of the names.
const NO_LOOKS: Looks = Looks {
    is_at_part: false,
    is_at_path: false,
    is_old_at_path: false,
    is_path_free: false,
};

// A file that was opened, and no more.
const OPENED: FileFacts = FileFacts {
    is_made: false,
    is_locked: false,
    is_synced: false,
    has_failed_sync: false,
    is_named: false,
    is_durable: false,
    has_replaced: false,
    is_let_go: false,
    looks: NO_LOOKS,
};

/// A file that is made under PATH.part, once it is there.
///
/// Anyone who may write the directory may put another file, a link or a pipe under a name at any time. So each change of the file is made
/// through the open file, and a look at a name follows no link.
#[derive(Drop)]
pub struct PartFile<'a, R: Files<File = File>> {
    rt: &'a R,
    path: String,
    part: String,
    file: Option<OpenFile>,
    facts: FileFacts,
    ghost held: { lock_of file ≡ alone_if facts.is_locked },
}

impl<'a, R: Files<File = File>> PartFile<'a, R> {
    /// The file that is to be called PATH, before there is one.
    pub fn new(alloc: Global, rt: &'a R, path: &str) -> Result<PartFile<'a, R>, AllocError>
        ensures part { IfOk result (λ f. string_bytes f.part ≡ path.now ++ codes ".part") }
        ensures path { IfOk result (λ f. string_bytes f.path ≡ path.now) }
    {
        let mut part = String::from_str(alloc, path)?;
        part.push_str(".part")?;
        Ok(PartFile {
            rt,
            path: String::from_str(alloc, path)?,
            part,
            file: None,
            facts: OPENED,
        })
    }

    fn file(&self) -> io::Result<&File> {
        match &self.file {
            Some(file) => Ok(file.file()),
            None => Err(io::Error::from(ErrorKind::NotFound)),
        }
    }

    // Whether a path names the file.
    fn is_at(&self, path: &str) -> bool {
        match &self.file {
            Some(file) => names(self.rt, path, file.file()),
            None => false,
        }
    }
}

// Whether a path names a file itself. A file that can't be examined is not named.
fn names<R: Files<File = File>>(rt: &R, path: &str, file: &File) -> bool {
    let Ok(opened) = file.metadata() else {
        return false;
    };
    match fs::symlink_metadata(rt, path) {
        Ok(named) => is_same(&named, &opened),
        Err(_) => false,
    }
}

impl<'a, R: Files<File = File>> NewFile for PartFile<'a, R> {
    ghost facts = { λ f. f.facts };

    fn is_taken(&self) -> bool {
        fs::metadata(self.rt, self.path.as_str()).is_ok()
    }

    fn look_left(&self) -> io::Result<Metadata> {
        fs::symlink_metadata(self.rt, self.part.as_str())
    }

    fn open_left(&mut self, looked: &Metadata) -> io::Result<()> {
        let file = open_looked(self.rt, self.part.as_str(), looked)?;
        self.file = Some(OpenFile::new(file));
        self.facts = OPENED;
        Ok(())
    }

    fn create(&mut self) -> io::Result<()> {
        let file = File::options()
            .read(true)
            .write(true)
            .create_new(true)
            .mode(OWNER_ALONE)
            .open(self.rt, self.part.as_str())?;
        self.file = Some(OpenFile::new(file));
        self.facts = OPENED;
        self.facts.is_made = true;
        Ok(())
    }

    fn own_alone(&mut self) -> io::Result<()> {
        self.facts.looks = NO_LOOKS;
        self.facts.is_synced = false;
        self.file()?
            .set_permissions(Permissions::from_mode(OWNER_ALONE))
    }

    fn try_lock(&mut self) -> Result<(), FileFault> {
        self.facts.looks = NO_LOOKS;
        if self.facts.is_locked {
            return Ok(());
        }
        let Some(file) = &mut self.file else {
            return Err(FileFault::Busy);
        };
        let locked = file.lock(Hold::Alone, false);
        self.facts.is_locked = locked.is_ok();
        locked
    }

    fn set_length(&mut self, length: u64) -> io::Result<()> {
        self.facts.looks = NO_LOOKS;
        self.facts.is_synced = false;
        self.file()?.set_len(length)
    }

    fn writer(&self) -> io::Result<&File> {
        self.file()
    }

    fn is_empty(&self) -> bool {
        match self.file().and_then(File::metadata) {
            Ok(about) => about.len() == 0,
            Err(_) => false,
        }
    }

    fn disk(&mut self, alloc: Global) -> Result<FileDisk, FileFault> {
        self.facts.looks = NO_LOOKS;
        self.facts.is_synced = false;
        let Some(file) = &self.file else {
            return Err(FileFault::Missing);
        };
        let raw = RawFile::settled(file.try_clone()?)?;
        Ok(FileDisk::from_locked(alloc, raw)?)
    }

    fn sync(&mut self) -> io::Result<()> {
        let synced = match self.file() {
            Ok(file) => file.sync_all(),
            Err(error) => Err(error),
        };
        self.facts.looks = NO_LOOKS;
        self.facts.is_synced = synced.is_ok();
        self.facts.has_failed_sync = synced.is_err();
        synced
    }

    fn sync_disk(&mut self, disk: &mut FileDisk) -> Result<(), DiskFault> {
        let synced = disk.sync();
        self.facts.looks = NO_LOOKS;
        self.facts.is_synced = synced.is_ok();
        self.facts.has_failed_sync = synced.is_err();
        synced
    }

    fn give_owner(&mut self, about: &Metadata) -> io::Result<()> {
        self.facts.looks = NO_LOOKS;
        self.facts.is_synced = false;
        fchown(self.file()?, Some(about.uid()), Some(about.gid()))
    }

    fn give_rights(&mut self, about: &Metadata) -> io::Result<()> {
        self.facts.looks = NO_LOOKS;
        self.facts.is_synced = false;
        self.file()?
            .set_permissions(Permissions::from_mode(about.mode() & OWNER_RIGHTS))
    }

    fn is_at_part(&mut self) -> bool {
        let is_there = self.is_at(self.part.as_str());
        let is_old_at_path = self.facts.looks.is_old_at_path;
        self.facts.is_let_go = !is_there;
        self.facts.looks = NO_LOOKS;
        self.facts.looks.is_at_part = is_there;
        self.facts.looks.is_old_at_path = is_old_at_path;
        is_there
    }

    fn is_at_path(&mut self) -> bool {
        let is_there = self.is_at(self.path.as_str());
        self.facts.looks = NO_LOOKS;
        self.facts.looks.is_at_path = is_there;
        is_there
    }

    fn is_old_at_path(&mut self, old: &File) -> bool {
        let is_there = names(self.rt, self.path.as_str(), old);
        self.facts.looks = NO_LOOKS;
        self.facts.looks.is_old_at_path = is_there;
        is_there
    }

    fn link(&mut self) -> Linked {
        let linked = fs::hard_link(self.rt, self.part.as_str(), self.path.as_str());
        self.facts.looks = NO_LOOKS;
        match linked {
            Ok(()) => {
                self.facts.is_named = true;
                self.facts.looks.is_at_part = true;
                Linked::Named
            }
            Err(error) if error.kind() == ErrorKind::AlreadyExists => Linked::Taken,
            Err(_) => {
                self.facts.looks.is_path_free = true;
                Linked::Impossible
            }
        }
    }

    fn rename(&mut self) -> io::Result<()> {
        let renamed = fs::rename(self.rt, self.part.as_str(), self.path.as_str());
        self.facts.looks = NO_LOOKS;
        self.facts.is_named = renamed.is_ok();
        self.facts.is_let_go = renamed.is_ok();
        renamed
    }

    fn replace(&mut self) -> io::Result<()> {
        let renamed = fs::rename(self.rt, self.part.as_str(), self.path.as_str());
        self.facts.looks = NO_LOOKS;
        self.facts.is_named = renamed.is_ok();
        self.facts.is_let_go = renamed.is_ok();
        self.facts.has_replaced = renamed.is_ok();
        renamed
    }

    fn remove_part(&mut self) -> io::Result<()> {
        self.facts.looks = NO_LOOKS;
        self.facts.is_let_go = true;
        fs::remove_file(self.rt, self.part.as_str())
    }

    fn sync_folder(&mut self) -> io::Result<()> {
        let synced = match File::open(self.rt, folder_of(self.path.as_str())) {
            Ok(folder) => folder.sync_all(),
            Err(error) => Err(error),
        };
        self.facts.looks = NO_LOOKS;
        self.facts.is_durable = synced.is_ok() && self.facts.is_named;
        synced
    }
}
