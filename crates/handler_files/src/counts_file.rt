// The file of the counts.
ghost use Rattle.std.specs.Prelude.{◌≡◌, ◌++◌, IfOk, codes, string_bytes};

use crate::counts::Counts;
use std::alloc::{AllocError, Global};
use std::fs;
use std::fs::File;
use std::io::{ErrorKind, Read};
use std::rt::Files;

// More bytes than the text of any counts has.
const LONGEST: u64 = 4096;

/// Why a file gives no counts.
#[derive(Clone, Copy, PartialEq, Eq)]
pub enum CountsFault {
    /// It can't be opened or read.
    Unread,
    /// It is no regular file, or has other contents.
    Other,
}

/// The path of the file that has the counts of an archive's handler.
pub fn counts_path(alloc: Global, archive: &str) -> Result<String, AllocError>
    ensures { IfOk result (λ path. string_bytes path ≡ archive.now ++ codes ".counts") }
{
    let mut path = String::from_str(alloc, archive)?;
    path.push_str(".counts")?;
    Ok(path)
}

/// The counts in the file of this path; none if there is no such file. No lock is taken: whoever changes it renames a whole file over it.
///
/// # Errors
///
/// `Unread`, and `Other` if the file is no regular one, or has other contents.
pub fn read_counts<R: Files<File = File>>(
    rt: &R,
    alloc: Global,
    path: &str,
) -> Result<Option<Counts>, CountsFault> {
    match fs::symlink_metadata(rt, path) {
        Ok(about) if about.is_file() => {}
        Ok(_) => return Err(CountsFault::Other),
        Err(error) if error.kind() == ErrorKind::NotFound => return Ok(None),
        Err(_) => return Err(CountsFault::Unread),
    }
    let Ok(file) = File::open(rt, path) else {
        return Err(CountsFault::Unread);
    };
    let mut text = Vec::new(alloc);
    if file.take(LONGEST).read_to_end(&mut text).is_err() {
        return Err(CountsFault::Unread);
    }
    match Counts::of_text(&text) {
        Some(counts) => Ok(Some(counts)),
        None => Err(CountsFault::Other),
    }
}
