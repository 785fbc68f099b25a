// A sign that the taken half of an archive's journal may be the wrong one.
use crate::archive_path::ArchivePath;
use crate::archives::{Access, take_disk};
use crate::collected::Collected;
use crate::failures::Refusal;
use archive_checks::{find_gap, print_gap};
use diagnostics::Nobody;
use disk_model::FileFault;
use script_streams::{Output, Reply};
use std::fs::File;
use std::rt::Files;
use std::time::Clock;

// The note if another process has the archive's lock.
const UNSEEN: &[u8] =
    b"another process is changing it, so no check was made for a damaged gate that hides cases, or for the wrong half of the journal";

/// Notes if the two halves of an archive's journal differ in a way that no writing leaves. An archive that can't be opened is
/// left to whoever reports why. The file's lock is shared meanwhile with others that only look. If another process has it, that is noted
/// instead: nobody waits for it.
pub fn note_gap<R: AllocGlobal + Files<File = File> + Clock>(
    rt: &R,
    place: ArchivePath<'_>,
    note: &mut Collected,
) {
    match take_disk(rt, place.at_once(), Access::Looking, &mut Nobody) {
        Ok(disk) => {
            let mut disk = disk;
            if let Ok(Some(gap)) = find_gap(rt.alloc(), &mut disk) {
                let mut reply = Reply::new(note);
                print_subject(&mut reply, place.path);
                print_gap(&mut reply, gap);
                let _ = reply.finish();
            }
        }
        Err(Refusal::File(_, FileFault::Busy)) => {
            let mut reply = Reply::new(note);
            print_subject(&mut reply, place.path);
            reply.print(UNSEEN);
            let _ = reply.finish();
        }
        Err(_) => {}
    }
}

// Prints which archive a note is about.
fn print_subject<O: Output>(reply: &mut Reply<'_, O>, path: &str) {
    reply.print_text(path.as_bytes());
    reply.print(b": ");
}
