// The log of a handler: one line for each outcome.
use crate::file_limit::may_grow;
use archive_files::{Collected, is_same, open_looked};
use script_streams::Reply;
use std::alloc::Global;
use std::fs;
use std::fs::File;
use std::io::{ErrorKind, Write};
use std::os::unix::fs::OpenOptionsExt;
use std::rt::Files;

// The kernel's own log, which dmesg and journalctl show.
pub(crate) const KERNEL_LOG: &str = "/dev/kmsg";

// The most bytes of a line: the kernel takes no more than some 970 at a time.
const LONGEST: usize = 900;

// A log that is made may be read and written by its owner alone.
const OWNER_ALONE: u32 = 0o600;

// How grave a line is, as the kernel's log counts it (syslog(2)).
#[derive(Clone, Copy, PartialEq, Eq)]
pub(crate) enum Level {
    // A core is lost.
    Error,
    // Something is left out.
    Warning,
    // A core is stored.
    Info,
}

/// The log of outcomes.
#[derive(Clone, Copy)]
pub struct Log<'a> {
    /// The file's path. Nothing is logged if it is empty.
    pub path: &'a str,
    /// The archive's path, if it is known. If both name one file, nothing is logged: a line would overwrite the archive.
    pub archive: Option<&'a str>,
}

// Why a log takes no line.
#[derive(Clone, Copy, PartialEq, Eq)]
pub(crate) enum LogFault {
    // It can't be made or opened.
    Closed,
    // It is a link, or no regular file.
    Special,
    // It is the archive.
    Archive,
}

// The mark that the kernel's log has before a line.
fn mark_of(level: Level) -> &'static [u8] {
    match level {
        Level::Error => b"<3>",
        Level::Warning => b"<4>",
        Level::Info => b"<6>",
    }
}

impl<'a> Log<'a> {
    // Writes a line, in one write. A log that can't be written, or may not grow so large, changes nothing else.
    pub(crate) fn print<R: Files<File = File>>(
        &self,
        rt: &R,
        alloc: Global,
        level: Level,
        text: &[u8],
    ) {
        if self.path.is_empty() {
            return;
        }
        let line = self.line(alloc, level, text);
        let Ok(mut file) = self.open(rt) else {
            return;
        };
        if may_grow(rt, alloc, &file, line.text().len()) {
            let _ = file.write(line.text());
        }
    }

    // Opens the log to add a line, and makes it if it is missing. No call waits: anything but a regular file is refused, except the
    // kernel's log, and a link is refused too.
    pub(crate) fn open<R: Files<File = File>>(&self, rt: &R) -> Result<File, LogFault> {
        let file = open_to_add(rt, self.path)?;
        match self.archive {
            Some(archive) if is_file_of(rt, archive, &file) => Err(LogFault::Archive),
            _ => Ok(file),
        }
    }

    // The line, with the mark of its level in the kernel's log.
    fn line(&self, alloc: Global, level: Level, text: &[u8]) -> Collected {
        let mut line = Collected::new(alloc);
        let mut reply = Reply::new(&mut line);
        if self.path == KERNEL_LOG {
            reply.print(mark_of(level));
        }
        reply.print(b"corekeep: ");
        reply.print(&text[..text.len().min(LONGEST)]);
        reply.print(b"\n");
        let _ = reply.finish();
        line
    }
}

// Opens a file to add to it, as a log, or makes it. Nothing is opened that was not looked at, but for the kernel's log.
pub(crate) fn open_to_add<R: Files<File = File>>(rt: &R, path: &str) -> Result<File, LogFault> {
    let mut options = File::options();
    options.append(true).mode(OWNER_ALONE);
    if path == KERNEL_LOG {
        options.create(true);
    } else {
        options.create_new(true);
    }
    match options.open(rt, path) {
        Ok(file) => Ok(file),
        Err(error) if error.kind() == ErrorKind::AlreadyExists => open_there(rt, path),
        Err(_) => Err(LogFault::Closed),
    }
}

// Opens a log that is there.
fn open_there<R: Files<File = File>>(rt: &R, path: &str) -> Result<File, LogFault> {
    let Ok(looked) = fs::symlink_metadata(rt, path) else {
        return Err(LogFault::Closed);
    };
    if !looked.is_file() {
        return Err(LogFault::Special);
    }
    open_looked(rt, path, &looked).map_err(|_| LogFault::Closed)
}

// Whether a file is the one of this path, itself or by a link.
fn is_file_of<R: Files<File = File>>(rt: &R, path: &str, file: &File) -> bool {
    match (fs::metadata(rt, path), file.metadata()) {
        (Ok(named), Ok(opened)) => is_same(&named, &opened),
        _ => false,
    }
}
