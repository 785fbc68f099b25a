// The directory of the spool, as the operating system has it. No
// clause can describe the system, so this file must be read with care.
use crate::entries::Entry;
use crate::spool_name::SpoolName;
use std::alloc::Global;
use std::fs::{File, read_dir};
use std::os::unix::fs::MetadataExt;
use std::rt::Files;
use std::{fs, io};

// The rights of the group and of others.
const OTHERS: u32 = 0o077;

/// Why a directory can't be a spool.
#[derive(Clone, Copy, PartialEq, Eq)]
pub enum FolderFault {
    /// The directory does not exist.
    Missing,
    /// It is no directory, or a link to one.
    NoFolder,
    /// Others than its owner may enter it.
    Shared,
    /// It belongs to another user than who asks.
    Foreign,
}

/// Why a directory cannot be a spool, or `None` if it can.
pub fn folder_fault<R: Files<File = File>>(rt: &R, path: &str) -> Option<FolderFault> {
    let Ok(about) = fs::symlink_metadata(rt, path) else {
        return Some(FolderFault::Missing);
    };
    if !about.is_dir() {
        return Some(FolderFault::NoFolder);
    }
    if about.mode() & OTHERS != 0 {
        return Some(FolderFault::Shared);
    }
    match fs::metadata(rt, "/proc/self") {
        Ok(own) if own.uid() != about.uid() => Some(FolderFault::Foreign),
        _ => None,
    }
}

/// The spool's entries in a directory, in no order.
#[derive(Drop)]
pub struct Listing {
    /// Its cores.
    pub cores: Vec<Entry>,
    /// The words of cores.
    pub words: Vec<Entry>,
}

impl Listing {
    // Adds a regular file, if it is one of the spool's.
    fn add(&mut self, alloc: Global, file: &str, bytes: u64) -> io::Result<()> {
        if let Some((name, stage)) = SpoolName::read(alloc, file) {
            self.cores.push(Entry { name, stage, bytes })?;
        } else if let Some((name, stage)) = SpoolName::read_words(alloc, file) {
            self.words.push(Entry { name, stage, bytes })?;
        }
        Ok(())
    }
}

/// The spool's entries in a directory. Files with other names are left alone, and so are links and directories.
pub fn entries_in<R: Files<File = File> + AllocGlobal + Clone + Drop>(
    rt: &R,
    folder: &str,
) -> io::Result<Listing> {
    let mut listing = Listing {
        cores: Vec::new(rt.alloc()),
        words: Vec::new(rt.alloc()),
    };
    for found in read_dir(rt, folder)? {
        let found = found?;
        // One that has gone meanwhile does not count.
        let Ok(about) = found.metadata() else {
            continue;
        };
        if about.is_file() {
            listing.add(rt.alloc(), found.file_name(), about.len())?;
        }
    }
    Ok(listing)
}
