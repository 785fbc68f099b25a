// Folders that others may write: they could put another file in the place of one, at any time.
use crate::collected::Collected;
use script_streams::Reply;
use std::fs;
use std::fs::File;
use std::os::unix::fs::MetadataExt;
use std::path::Path;
use std::rt::Files;
use whole_files::folder_of;

// The bits of a mode by which the group and others may write.
const OTHERS_WRITE: u32 = 0o022;

// The bit of a directory in which only a file's owner, and the directory's, take a name away.
const STICKY: u32 = 0o1000;

/// The first directory that others may write, from this one upwards. Its path must go through no link.
pub fn shared_among<'a, R: Files<File = File>>(rt: &R, folder: Path<'a>) -> Option<Path<'a>> {
    let own = own_user(rt);
    for place in folder.ancestors() {
        if is_shared(rt, place, own) {
            return Some(place);
        }
    }
    None
}

// Who runs the program, if the system has that.
fn own_user<R: Files<File = File>>(rt: &R) -> Option<u32> {
    match fs::metadata(rt, "/proc/self") {
        Ok(about) => Some(about.uid()),
        Err(_) => None,
    }
}

// Whether others may write a directory: its owner may, and is neither root nor the user who runs the program; or its group or others may,
// and it is not sticky. A directory that can't be examined counts as shared.
fn is_shared<R: Files<File = File>>(rt: &R, folder: Path<'_>, own: Option<u32>) -> bool {
    let Ok(about) = fs::symlink_metadata(rt, folder) else {
        return true;
    };
    let is_owned = about.uid() == 0 || Some(about.uid()) == own;
    let is_open = about.mode() & OTHERS_WRITE != 0 && about.mode() & STICKY == 0;
    !is_owned || is_open
}

/// A directory that others may write, on the path of a file or of the target of a link there, if there is one.
pub fn shared_folder<R: AllocGlobal + Files<File = File>>(rt: &R, path: &str) -> Option<String> {
    if let Ok(folder) = fs::canonicalize(rt, folder_of(path)) {
        if let Some(shared) = shared_among(rt, folder.as_path()) {
            return String::from_str(rt.alloc(), shared.as_str()).ok();
        }
    }
    let file = fs::canonicalize(rt, path).ok()?;
    let shared = shared_among(rt, folder_of(file.as_str()))?;
    String::from_str(rt.alloc(), shared.as_str()).ok()
}

/// Notes a directory that others may write, on the path of a file.
pub fn note_shared<R: AllocGlobal + Files<File = File>>(rt: &R, path: &str, note: &mut Collected) {
    let Some(folder) = shared_folder(rt, path) else {
        return;
    };
    let mut reply = Reply::new(note);
    reply.print_text(folder.as_bytes());
    reply.print(b": others may write it, and could put another file in the place of this one");
    let _ = reply.finish();
}
