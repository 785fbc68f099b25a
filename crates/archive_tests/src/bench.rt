// Archives over a disk in memory, and images whose bytes are determined by their place.
ghost use Rattle.std.specs.Prelude.{◌≡◌, ◌+◌, ◌<◌, ◌≤◌, IfOk};
ghost use Rattle.journal_layout.specs.Folding.{is_among};
ghost use Rattle.journal_layout.specs.Soundness.{IsName};

use case_journal::format;
use disk_model::{Disk, MemDisk, Pick};
use intake::{Archive, ArchiveFault, Settings};
use journal_layout::{Kind, Name, Shape};
use std::alloc::Global;
use std::test::Fail;

/// The least halves, and four data blocks.
pub const SHAPE: Shape = Shape {
    half_blocks: 1,
    data_blocks: 4,
};

/// More than any image of the tests has.
pub const SETTINGS: Settings = Settings { limit: 1_000_000 };

/// A disk in memory with a fresh archive.
pub fn formatted(alloc: Global, shape: Shape) -> Result<MemDisk, Fail> {
    let mut disk = MemDisk::new(alloc, shape.length()?)?;
    if format(&mut disk, shape).is_err() {
        return Err(Fail::from("the disk was not formatted"));
    }
    Ok(disk)
}

/// Opens the archive on a disk.
pub fn opened<D: Disk + Drop>(alloc: Global, disk: D) -> Result<Archive<D>, Fail> {
    let Ok(archive) = Archive::open(alloc, disk, SETTINGS) else {
        return Err(Fail::from("the archive was not opened"));
    };
    Ok(archive)
}

/// A disk after a crash.
pub fn crashed(disk: &MemDisk, pick: Pick) -> Result<MemDisk, Fail> {
    Ok(disk.after_crash(pick)?)
}

/// A fresh archive with four data blocks.
pub fn fresh(alloc: Global) -> Result<Archive<MemDisk>, Fail> {
    opened(alloc, formatted(alloc, SHAPE)?)
}

// Whether one of the bytes is NUL.
fn has_nul(bytes: &[u8]) -> bool
    ensures { result ≡ is_among bytes.now 0 }
{
    bytes.iter().any(|byte| 0 == *byte)
}

/// The bytes as a name.
pub fn name_of(bytes: &[u8]) -> Result<Name, Fail>
    ensures { IfOk result (λ n. IsName n.items) }
{
    if bytes.is_empty() || bytes.len() > 128 || has_nul(bytes) {
        return Err(Fail::from("these bytes are no name"));
    }
    let Ok(name) = Name::try_from(bytes) else {
        return Err(Fail::from("these bytes are no name"));
    };
    Ok(name)
}

/// Begins the stream of an executable.
pub fn begin<D: Disk>(
    archive: &mut Archive<D>,
    slot: u8,
    name: &[u8],
) -> Result<Result<(), ArchiveFault>, Fail> {
    let name = name_of(name)?;
    Ok(archive.begin(slot, Kind::Exec, name, 0, 0, 0))
}

// The byte at a place of the image of this seed. Images of two seeds differ at each place.
fn byte_at(seed: u8, place: u64) -> u8 {
    seed.wrapping_add((place % 251) as u8)
}

// Puts there the bytes of an image from a place on.
fn fill(room: &mut [u8], seed: u8, from: u64) {
    for place in 0..room.len() {
        room[place] = byte_at(seed, from.wrapping_add(place as u64));
    }
}

// Takes the bytes of an image from a place on, as many as there is room for. Answers how many.
fn put_piece<D: Disk>(
    archive: &mut Archive<D>,
    slot: u8,
    seed: u8,
    from: u64,
    end: u64,
) -> Result<u64, ArchiveFault>
    requires { from ≤ end }
    ensures { IfOk result (λ n. from + n ≤ end) }
{
    let (lent, room) = archive.room(slot);
    if let Err(fault) = lent {
        return Err(fault);
    }
    let count = room.len().min((end - from) as usize);
    fill(room, seed, from);
    match archive.advance(slot, count) {
        Ok(()) => Ok(count as u64),
        Err(fault) => Err(fault),
    }
}

/// Takes the bytes of an image from a place on up to another.
pub fn put<D: Disk>(
    archive: &mut Archive<D>,
    slot: u8,
    seed: u8,
    from: u64,
    end: u64,
) -> Result<(), ArchiveFault> {
    let mut at = from;
    for _piece in 0..1000 {
        if at >= end {
            break;
        }
        at += put_piece(archive, slot, seed, at, end)?;
    }
    Ok(())
}

/// Takes no byte.
pub fn put_nothing<D: Disk>(archive: &mut Archive<D>, slot: u8) -> Result<(), ArchiveFault> {
    archive.advance(slot, 0)
}

/// Whether these are the bytes of an image.
pub fn is_image(bytes: &[u8], seed: u8, length: u64) -> bool {
    if bytes.len() as u64 != length {
        return false;
    }
    for place in 0..bytes.len() {
        if bytes[place] != byte_at(seed, place as u64) {
            return false;
        }
    }
    true
}

/// Whether the case of this number has this image.
pub fn has_image<D: Disk>(archive: &mut Archive<D>, seq: u32, seed: u8, length: u64) -> bool {
    match archive.image(seq) {
        Ok(bytes) => is_image(&bytes, seed, length),
        Err(_) => false,
    }
}

/// Stores an executable. Answers its number.
pub fn store<D: Disk>(
    archive: &mut Archive<D>,
    name: &[u8],
    seed: u8,
    length: u64,
) -> Result<Result<u32, ArchiveFault>, Fail> {
    if let Err(fault) = begin(archive, 0, name)? {
        return Ok(Err(fault));
    }
    if let Err(fault) = put(archive, 0, seed, 0, length) {
        return Ok(Err(fault));
    }
    Ok(archive.finish(0))
}

/// Gives a case a label.
pub fn label<D: Disk>(
    archive: &mut Archive<D>,
    seq: u32,
    text: &[u8],
) -> Result<Result<(), ArchiveFault>, Fail> {
    if text.len() > 64 {
        return Err(Fail::from("the label is too long"));
    }
    Ok(archive.label(seq, text))
}
