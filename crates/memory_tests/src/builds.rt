//! The names by which files are stored, next to the names that GDB and other tools give the same build IDs.
use build_ids::{id_of_name, is_debug, told_name};
use std::process::Abort;
use std::test::Fail;

/// The file header of a library, one program header, three section headers, and the note of a build ID of no bytes. The note is in a
/// PT_NOTE and in a section of notes; the last section is code.
static LIBRARY: [u8; 328] =
    *b"\x7fELF\x02\x01\x01\x00\x00\x00\x00\x00\x00\x00\x00\x00\x03\x00\xf3\x00\x01\x00\x00\x00\x00\x00\x00\x00\x00\x00\x00\x00@\x00\x00\x00\x00\x00\x00\x00x\x00\x00\x00\x00\x00\x00\x00\x05\x00\x00\x00@\x008\x00\x01\x00@\x00\x03\x00\x00\x00\x04\x00\x00\x00\x04\x00\x00\x008\x01\x00\x00\x00\x00\x00\x00\x00\x00\x00\x00\x00\x00\x00\x00\x00\x00\x00\x00\x00\x00\x00\x00\x10\x00\x00\x00\x00\x00\x00\x00\x10\x00\x00\x00\x00\x00\x00\x00\x04\x00\x00\x00\x00\x00\x00\x00\x00\x00\x00\x00\x00\x00\x00\x00\x00\x00\x00\x00\x00\x00\x00\x00\x00\x00\x00\x00\x00\x00\x00\x00\x00\x00\x00\x00\x00\x00\x00\x00\x00\x00\x00\x00\x00\x00\x00\x00\x00\x00\x00\x00\x00\x00\x00\x00\x04\x00\x00\x00\x00\x00\x00\x00\x00\x00\x00\x00\x00\x00\x00\x00\x00\x00\x00\x00\x07\x00\x00\x00\x02\x00\x00\x00\x00\x00\x00\x00\x00\x00\x00\x00\x00\x00\x00\x008\x01\x00\x00\x00\x00\x00\x00\x10\x00\x00\x00\x00\x00\x00\x00\x00\x00\x00\x00\x00\x00\x00\x00\x04\x00\x00\x00\x00\x00\x00\x00\x00\x00\x00\x00\x00\x00\x00\x00\x00\x00\x00\x00\x01\x00\x00\x00\x06\x00\x00\x00\x00\x00\x00\x00\x00\x00\x00\x00\x00\x00\x00\x008\x01\x00\x00\x00\x00\x00\x00\x00\x00\x00\x00\x00\x00\x00\x00\x00\x00\x00\x00\x00\x00\x00\x00\x04\x00\x00\x00\x00\x00\x00\x00\x00\x00\x00\x00\x00\x00\x00\x00\x04\x00\x00\x00\x00\x00\x00\x00\x03\x00\x00\x00GNU\x00";

/// The places of the bytes that a test changes: e_shoff, p_type,
/// p_filesz, sh_size of the notes, sh_type of the code, and n_descsz.
const SECTIONS: usize = 40;

const SEGMENT: usize = 64;

const SEGMENT_SIZE: usize = 96;

const SECTION_SIZE: usize = 216;

const CODE: usize = 252;

const ID_SIZE: usize = 316;

/// The first bytes of an ID.
static ID: [u8; 65] = [0xab; 65];

/// Whether a library with an ID of that many bytes is a debug file, and how long its name is; 0, if it has no name.
fn told(
    rt: &impl AllocGlobal,
    count: u8,
    debug: bool,
    changes: &[(usize, u8)],
) -> Result<(bool, usize), Fail> {
    let mut image = Vec::from_array(rt.alloc(), changed(count, changes))?;
    image.extend_from_slice(&ID[..usize::from(count).min(ID.len())])?;
    let long = match told_name(debug, &image) {
        Some(name) => name.len(),
        None => 0,
    };
    Ok((is_debug(&image), long))
}

/// The library before its ID.
fn changed(count: u8, changes: &[(usize, u8)]) -> [u8; 328] {
    let mut image = LIBRARY;
    let size = count.saturating_add(16);
    image[SEGMENT_SIZE] = size;
    image[SECTION_SIZE] = size;
    image[ID_SIZE] = count;
    for (place, value) in changes {
        if let Some(byte) = image.get_mut(*place) {
            *byte = *value;
        }
    }
    image
}

/// How many bytes the ID has, whether the name is that of a debug file,
/// the bytes that are changed in the library; and the result for it.
type Library = (u8, bool, &'static [(usize, u8)], (bool, usize));

fn are_told(rt: &(impl AllocGlobal + Abort), libraries: &[Library]) -> Result<(), Fail> {
    for (count, debug, changes, wanted) in libraries {
        assert!(rt; told(rt, *count, *debug, changes)? == *wanted, "{count}");
    }
    Ok(())
}

static IDS: [Library; 16] = [
    (0, false, &[], (false, 0)),
    (0, true, &[], (false, 0)),
    (1, false, &[], (false, 0)),
    (1, true, &[], (false, 0)),
    (2, false, &[], (false, 15)),
    (2, true, &[], (false, 21)),
    (20, false, &[], (false, 51)),
    (20, true, &[], (false, 57)),
    (55, false, &[], (false, 121)),
    (55, true, &[], (false, 127)),
    (56, false, &[], (false, 0)),
    (56, true, &[], (false, 0)),
    (64, false, &[], (false, 0)),
    (64, true, &[], (false, 0)),
    (65, false, &[], (false, 0)),
    (65, true, &[], (false, 0)),
];

static CODES: [Library; 6] = [
    // SHT_NOBITS
    (2, false, &[(CODE, 8)], (true, 21)),
    // And it has no PT_NOTE.
    (2, false, &[(CODE, 8), (SEGMENT, 0)], (true, 21)),
    // An executable without a PT_NOTE.
    (2, false, &[(SEGMENT, 0)], (false, 0)),
    // Without section headers.
    (2, false, &[(CODE, 8), (SECTIONS, 0)], (false, 15)),
    (2, true, &[(CODE, 8), (SECTIONS, 0)], (false, 0)),
    // A core.
    (2, false, &[(CODE, 8), (16, 4)], (false, 0)),
];

#[test]
fn names_are_of_ids_of_2_to_55_bytes(rt: HostRuntime) -> Result<(), Fail> {
    are_told(&rt, &IDS)
}

#[test]
fn debug_files_have_code_without_bytes(rt: HostRuntime) -> Result<(), Fail> {
    are_told(&rt, &CODES)
}

/// The first byte of the ID that has the name, and how many bytes it has; zeros, if the name is of another kind.
fn id_told(name: &[u8]) -> (u8, usize) {
    match id_of_name(name) {
        Some(id) if !id.is_empty() => (id[0], id.len()),
        _ => (0, 0),
    }
}

static NAMES: &[(&[u8], (u8, usize))] = &[
    (
        b".build-id/2c/f08c38e98c274fce085506e97ce53045af6315",
        (0x2c, 20),
    ),
    (
        b".build-id/2c/f08c38e98c274fce085506e97ce53045af6315.debug",
        (0x2c, 20),
    ),
    (b".build-id/ab/cd", (0xab, 2)),
    (b".build-id/ab/cd.debug", (0xab, 2)),
    (b".build-id/ab/cd.debug.debug", (0, 0)),
    (b".build-id/AB/cd", (0, 0)),
    (b".build-id/ab/cD", (0, 0)),
    (b".build-id/ab/c", (0, 0)),
    (b".build-id/ab/", (0, 0)),
    (b".build-id/ab", (0, 0)),
    (b".build-id/ab/.debug", (0, 0)),
    (b".build-id/ab-cd", (0, 0)),
    (b"/.build-id/ab/cd", (0, 0)),
    (b"x/.build-id/ab/cd", (0, 0)),
    (b"/usr/bin/foo", (0, 0)),
    (b"", (0, 0)),
];

#[test]
fn ids_are_found_by_their_names(rt: HostRuntime) -> Result<(), Fail> {
    for (name, id) in NAMES {
        assert!(rt; id_told(name) == *id);
    }
    Ok(())
}
