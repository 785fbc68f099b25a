// How large a file the process may write.
use diagnostics::{Call, Trouble};
use script_words::parse_number;
use std::alloc::Global;
use std::fs::File;
use std::rt::Files;
use std::{fs, io};

// The file in which Linux has the limits of the process (proc(5)).
const LIMITS: &str = "/proc/self/limits";

// The start of the line of the limit on files. The soft limit follows, in bytes.
const FILE_SIZE: &str = "Max file size";

// The system's error of a write into a file that may not have so many bytes (errno(3)).
const EFBIG: i32 = 27;

/// The error of a write at the end of a file, if the file has more bytes than the process may write. The system answers such a write
/// with a signal that ends the process (`RLIMIT_FSIZE`, setrlimit(2)). There is no error if the limit can't be read.
pub fn write_trouble<R: AllocGlobal + Files<File = File>>(rt: &R, path: &str) -> Option<Trouble> {
    let most = file_limit(rt, rt.alloc())?;
    let file = fs::metadata(rt, path).ok()?;
    if !file.is_file() || file.len() <= most {
        return None;
    }
    Some(Trouble {
        call: Call::Write,
        errno: Some(EFBIG),
    })
}

// Whether a file may have so many bytes more. Only a regular file has a limit.
pub(crate) fn may_grow<R: Files<File = File>>(
    rt: &R,
    alloc: Global,
    file: &File,
    by: usize,
) -> bool {
    match (file_limit(rt, alloc), file.metadata()) {
        (Some(most), Ok(facts)) if facts.is_file() => facts.len().saturating_add(by as u64) <= most,
        _ => true,
    }
}

// The most bytes of a file, if there is a limit.
fn file_limit<R: Files<File = File>>(rt: &R, alloc: Global) -> Option<u64> {
    let file = File::open(rt, LIMITS).ok()?;
    let limits = io::read_to_string(alloc, file).ok()?;
    for line in limits.lines() {
        if let Some(rest) = line.strip_prefix(FILE_SIZE) {
            return soft_limit(rest);
        }
    }
    None
}

// The soft limit at the front of the text after the name of a limit. `unlimited` is no limit.
fn soft_limit(rest: &str) -> Option<u64> {
    let (bytes, _) = rest.trim_start().split_once(' ')?;
    parse_number(bytes.as_bytes())
}
