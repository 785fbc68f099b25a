// Names of files, and the files under them.
use disk_model::FileFault;
use std::fs::{File, Metadata};
use std::io::ErrorKind;
use std::os::unix::fs::MetadataExt;
use std::path::Path;
use std::rt::Files;
use std::{fs, io};

/// The directory that a path has its file in.
pub fn folder_of(path: &str) -> Path<'_> {
    match Path::new(path).parent() {
        Some(folder) if !folder.as_os_str().is_empty() => folder,
        _ => Path::new("."),
    }
}

/// Whether two files are one.
pub fn is_same(one: &Metadata, other: &Metadata) -> bool {
    one.dev() == other.dev() && one.ino() == other.ino()
}

/// Whether a path still names the file, itself or by a link.
pub fn is_named<R: Files<File = File>>(rt: &R, path: &str, file: &File) -> Result<bool, FileFault> {
    let named = fs::metadata(rt, path)?;
    let opened = file.metadata()?;
    Ok(is_same(&named, &opened))
}

/// Opens a regular file that was looked at, for reading and adding to it. No call waits, whatever has come under the path meanwhile: it
/// is opened for both, which does not wait at a pipe. The open file is refused unless it is the file that was looked at.
///
/// # Errors
///
/// Those of the system, and `InvalidInput` if another file is under the path.
pub fn open_looked<R: Files<File = File>>(
    rt: &R,
    path: &str,
    looked: &Metadata,
) -> io::Result<File> {
    let file = File::options().read(true).append(true).open(rt, path)?;
    if is_same(looked, &file.metadata()?) {
        Ok(file)
    } else {
        Err(io::Error::from(ErrorKind::InvalidInput))
    }
}
