// A case that an archive has already under the name of a core.
ghost use Rattle.std.specs.Prelude.{◌≡◌, ◌&&◌, None};

use archive_files::{ArchivePath, Collected, extract, take_look};
use diagnostics::{Nobody, after_failure};
use disk_model::Disk;
use intake::{Archive, Settings};
use script_streams::{Output, Reply, StreamFault};
use std::alloc::Global;
use std::fs::File;
use std::os::unix::fs::FileExt;
use std::rt::Files;

// How many bytes are compared at a time.
const CHUNK: usize = 4096;

// The case that an archive has under the name of a core.
#[derive(Clone, Copy, PartialEq, Eq)]
pub(crate) enum Twin {
    // No case; or that is not known.
    None,
    // A case with its bytes.
    Same,
    // Another case.
    Other,
}

// The result of a search for a case by its name.
#[derive(Clone, Copy, PartialEq, Eq)]
struct Found {
    seq: u32,
    length: u64,
}

// An output that compares the bytes that it takes with a file.
#[derive(Drop)]
struct Comparison<'a> {
    file: &'a File,
    at: u64,
    is_same: bool,
    failures: u64,
}

impl Output for Comparison<'_> {
    ghost taken = { λ s. None };

    ghost failures = { λ s. s.failures };

    fn write(&mut self, from: &[u8]) -> Result<usize, StreamFault> {
        let mut bytes = [0u8; CHUNK];
        let size = if from.len() < CHUNK {
            from.len()
        } else {
            CHUNK
        };
        let read = self.file.read_exact_at(&mut bytes[..size], self.at);
        if read.is_err() || bytes[..size] != from[..size] {
            self.is_same = false;
            self.failures = after_failure(self.failures);
            return Err(StreamFault);
        }
        self.at = self.at.saturating_add(size as u64);
        Ok(size)
    }
}

// The case that an archive has under this name, as it prints, beside a
// core that is in this file and has so many bytes. It takes no lock.
pub(crate) fn twin_of<R: AllocGlobal + Files<File = File>>(
    rt: &R,
    place: ArchivePath<'_>,
    name: &[u8],
    file: &File,
    bytes: u64,
) -> Twin {
    let Ok(looked) = take_look(rt, place) else {
        return Twin::None;
    };
    let front = looked.unlocked(Vec::new(rt.alloc()));
    let Some(found) = case_named(rt.alloc(), front, name) else {
        return Twin::None;
    };
    if found.length == bytes && has_bytes(rt, place, found.seq, file) {
        Twin::Same
    } else {
        Twin::Other
    }
}

// The case of this name in the archive on a disk.
fn case_named<D: Disk + Drop>(alloc: Global, disk: D, name: &[u8]) -> Option<Found> {
    let Ok(archive) = Archive::open(alloc, disk, Settings { limit: 0 }) else {
        return None;
    };
    let entries = archive.cases().ok()?;
    for entry in entries {
        if printed(alloc, entry.name.as_slice()).text() == name {
            let seq = entry.seq;
            let length = entry.length;
            return Some(Found { seq, length });
        }
    }
    None
}

// A name as it prints.
fn printed(alloc: Global, name: &[u8]) -> Collected {
    let mut text = Collected::new(alloc);
    let mut reply = Reply::new(&mut text);
    reply.print_text(name);
    let _ = reply.finish();
    text
}

// Whether the image of a case has the bytes of a file.
fn has_bytes<R: AllocGlobal + Files<File = File>>(
    rt: &R,
    place: ArchivePath<'_>,
    seq: u32,
    file: &File,
) -> bool {
    let Ok(case) = format!(in rt.alloc(); "{seq}") else {
        return false;
    };
    let mut comparison = Comparison {
        file,
        at: 0,
        is_same: true,
        failures: 0,
    };
    let copied = extract(rt, place, case.as_str(), None, &mut comparison, &mut Nobody);
    is_same_image(copied.is_ok(), &comparison)
}

// Whether an image is the bytes that it was compared with: it was copied to its end, and no byte differed.
fn is_same_image(is_copied: bool, comparison: &Comparison<'_>) -> bool
    ensures { result ≡ (is_copied && comparison.now.is_same) }
{
    is_copied && comparison.is_same
}
