// A new directory, which gets its name once all files in it are whole and durable. No clause can describe a call of the operating
// system, so this file must be read with care.
use crate::copying::{FOLDER, PART, synced, unwritten};
use archive_files::{FileWord, Refusal};
use disk_model::FileFault;
use script_streams::{WriteOutput, write_whole};
use std::alloc::Global;
use std::fs::{DirBuilder, File};
use std::os::unix::fs::{DirBuilderExt, OpenOptionsExt};
use std::rt::Files;
use std::{fs, io};
use whole_files::folder_of;

// The rights of the files and directories that are made: those of their owner alone.
const FOLDER_RIGHTS: u32 = 0o700;

const FILE_RIGHTS: u32 = 0o600;

// The files and directories that were made, in order.
#[derive(Drop)]
struct Made {
    path: String,
    is_folder: bool,
}

// A directory that is called DIR.part until it is whole, and then DIR.
#[derive(Drop)]
pub(crate) struct NewFolder<'a, R: Files<File = File>> {
    rt: &'a R,
    alloc: Global,
    path: &'a str,
    part: String,
    made: Vec<Made>,
}

impl<'a, R: AllocGlobal + Files<File = File>> NewFolder<'a, R> {
    // A directory that is to have this path. Nothing is made yet. A path that exists is refused, and so is an existing DIR.part,
    // which a command that was stopped has left.
    pub(crate) fn at(rt: &'a R, path: &'a str) -> Result<NewFolder<'a, R>, Refusal> {
        let path = path.trim_end_matches('/');
        if path.is_empty() {
            return Err(Refusal::BadLine);
        }
        let mut part = String::from_str(rt.alloc(), path)?;
        part.push_str(".part")?;
        if fs::symlink_metadata(rt, path).is_ok() {
            return Err(Refusal::File(FOLDER, FileFault::Exists));
        }
        if fs::symlink_metadata(rt, part.as_str()).is_ok() {
            return Err(Refusal::File(PART, FileFault::Exists));
        }
        Ok(NewFolder {
            rt,
            alloc: rt.alloc(),
            path,
            part,
            made: Vec::new(rt.alloc()),
        })
    }

    // The path of the directory.
    pub(crate) fn path(&self) -> &'a str {
        self.path
    }

    // Makes the directory itself.
    pub(crate) fn begin(&mut self) -> Result<(), Refusal> {
        let part = String::from_str(self.alloc, self.part.as_str())?;
        self.make_folder(part)
    }

    // Makes an empty file at a place, and the directories on its path; `None` if it was made before. No existing file is opened.
    pub(crate) fn make_file(&mut self, place: &str) -> Result<Option<File>, Refusal> {
        let path = self.path_of(place)?;
        if self.has(path.as_str()) {
            return Ok(None);
        }
        self.make_folders(place)?;
        self.made.reserve(1)?;
        let file = File::options()
            .write(true)
            .create_new(true)
            .mode(FILE_RIGHTS)
            .open(self.rt, path.as_str())
            .map_err(refused)?;
        self.made
            .push(Made {
                path,
                is_folder: false,
            })
            .unwrap();
        Ok(Some(file))
    }

    // Makes a file of this text at a place.
    pub(crate) fn make_text(&mut self, place: &str, text: &[u8]) -> Result<(), Refusal> {
        let Some(file) = self.make_file(place)? else {
            return Ok(());
        };
        let mut output = WriteOutput::new(&file);
        match write_whole(&mut output, text) {
            Ok(()) => synced(&file),
            Err(_) => Err(unwritten(output.fault())),
        }
    }

    // Makes all that was made durable, and gives the directory its name. It is removed if that fails.
    pub(crate) fn give_name(&mut self) -> Result<(), Refusal> {
        if let Err(refusal) = self.rename() {
            self.remove();
            return Err(refusal);
        }
        match self.sync_folder(folder_of(self.path).as_str()) {
            Ok(()) => Ok(()),
            Err(error) => Err(Refusal::File(
                FileWord::Named("DIR", error.raw_os_error()),
                FileFault::Sync,
            )),
        }
    }

    // Removes all that was made, the last first.
    pub(crate) fn remove(&mut self) {
        while let Some(made) = self.made.pop() {
            let _ = if made.is_folder {
                fs::remove_dir(self.rt, made.path.as_str())
            } else {
                fs::remove_file(self.rt, made.path.as_str())
            };
        }
    }

    fn rename(&self) -> Result<(), Refusal> {
        for made in &self.made {
            self.sync_made(made)?;
        }
        fs::rename(self.rt, self.part.as_str(), self.path).map_err(named)
    }

    // Makes the names in a directory that was made durable.
    fn sync_made(&self, made: &Made) -> Result<(), Refusal> {
        if !made.is_folder {
            return Ok(());
        }
        self.sync_folder(made.path.as_str())
            .map_err(|_| Refusal::File(FOLDER, FileFault::Sync))
    }

    fn sync_folder(&self, path: &str) -> io::Result<()> {
        File::open(self.rt, path)?.sync_all()
    }

    fn path_of(&self, place: &str) -> Result<String, Refusal> {
        let part = self.part.as_str();
        Ok(format!(in self.alloc; "{part}/{place}")?)
    }

    fn has(&self, path: &str) -> bool {
        self.made.iter().any(|made| made.path.as_str() == path)
    }

    // Makes the directories on the path of a place.
    fn make_folders(&mut self, place: &str) -> Result<(), Refusal> {
        for end in 0..place.len() {
            if let Some((folder, rest)) = place.split_at_checked(end) {
                self.make_if(folder, rest.starts_with('/'))?;
            }
        }
        Ok(())
    }

    // Makes a directory, if it is one and was not made before.
    fn make_if(&mut self, folder: &str, is_folder: bool) -> Result<(), Refusal> {
        if !is_folder {
            return Ok(());
        }
        let path = self.path_of(folder)?;
        if self.has(path.as_str()) {
            return Ok(());
        }
        self.make_folder(path)
    }

    fn make_folder(&mut self, path: String) -> Result<(), Refusal> {
        self.made.reserve(1)?;
        DirBuilder::new()
            .mode(FOLDER_RIGHTS)
            .create(self.rt, path.as_str())
            .map_err(refused)?;
        self.made
            .push(Made {
                path,
                is_folder: true,
            })
            .unwrap();
        Ok(())
    }
}

// The directory is refused.
fn refused(error: io::Error) -> Refusal {
    Refusal::File(FOLDER, FileFault::from(error))
}

// The directory was not renamed: whatever has come under its name meanwhile stays, unless that is an empty directory.
fn named(error: io::Error) -> Refusal {
    match error.kind() {
        io::ErrorKind::DirectoryNotEmpty | io::ErrorKind::NotADirectory => {
            Refusal::File(FOLDER, FileFault::Exists)
        }
        _ => refused(error),
    }
}
