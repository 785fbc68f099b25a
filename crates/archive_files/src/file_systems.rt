// What the system says of the file of an archive: the kind of its file system, if it is one to be known of, and who holds its lock.
ghost use Rattle.script_streams.specs.Replies.{PrintsText, printing};
ghost use Rattle.archive_files.specs.FileSystems.{kind_words};

use crate::collected::Collected;
use mount_table::{concern_of, device_text, holder_in, kind_of, locked_file};
use script_streams::{Output, Reply};
use std::fs;
use std::fs::File;
use std::os::unix::fs::MetadataExt;
use std::rt::Files;

// The file in which Linux lists the mounts (proc_pid_mountinfo(5)).
const MOUNTS: &str = "/proc/self/mountinfo";

// The file in which it lists the locks of files (proc_locks(5)).
const LOCKS: &str = "/proc/locks";

/// The process that holds the lock of a file, if the system lists it, and it has not ended: a lock may outlive the process that took it. On
/// btrfs the list names files by another device than stat(2) does.
pub fn holder_of<R: AllocGlobal + Files<File = File>>(rt: &R, path: &str) -> Option<u32> {
    let about = fs::metadata(rt, path).ok()?;
    let file = locked_file(rt.alloc(), about.dev(), about.ino()).ok()?;
    let locks = fs::read(rt, LOCKS).ok()?;
    let process = holder_in(&locks, file.as_bytes())?;
    let place = format!(in rt.alloc(); "/proc/{process}").ok()?;
    fs::metadata(rt, place.as_str()).ok()?;
    Some(process)
}

/// Notes the kind of the file system that a file lies on, and its limits. Nothing is noted if the system does not list the mounts.
pub fn note_file_system<R: AllocGlobal + Files<File = File>>(
    rt: &R,
    path: &str,
    note: &mut Collected,
) {
    let Ok(mounts) = fs::read(rt, MOUNTS) else {
        return;
    };
    let Some(kind) = kind_under(rt, &mounts, path) else {
        return;
    };
    let mut reply = Reply::new(note);
    print_kind(&mut reply, kind);
    let _ = reply.finish();
}

// The kind of the file system that a file lies on, by the list of mounts.
fn kind_under<'a, R: AllocGlobal + Files<File = File>>(
    rt: &R,
    mounts: &'a [u8],
    path: &str,
) -> Option<&'a [u8]> {
    let about = fs::metadata(rt, path).ok()?;
    let whole = fs::canonicalize(rt, path).ok()?;
    let device = device_text(rt.alloc(), about.dev()).ok()?;
    kind_of(mounts, device.as_bytes(), whole.as_str().as_bytes())
}

// Prints a kind of file system, and its limits, if it has any.
fn print_kind<O: Output>(reply: &mut Reply<'_, O>, kind: &[u8])
    ensures { PrintsText (printing O.Output reply.old reply.new) (kind_words kind.now) }
{
    if let Some(concern) = concern_of(kind) {
        reply.print_text(kind);
        reply.print(b": ");
        reply.print(concern.words());
    }
}
