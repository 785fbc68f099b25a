// The digest of an image between two looks at its archive.
ghost use Rattle.std.specs.Prelude.{◌≡◌, ℕ, IfOk, IfErr};
ghost use Rattle.intake.specs.Ranges.{AreWithin};
ghost use Rattle.shared_disk.specs.Looks.{shared_of};
ghost use Rattle.case_listing.specs.Digests.{DigestsUnlocked, FindsImage, HasImage, IsOfRanges, IsReadStop, LeavesThere};

use crate::hashing::digest_ranges;
use archive_files::{AskFault, UnlockedFault, stay};
use diagnostics::Onlooker;
use disk_model::Disk;
use inspector_cli::CopyFault;
use intake::{
    Archive, ArchiveFault, ByteRange, Settings, a_case_is_there_between, the_next_number_is_above,
};
use shared_disk::{Looked, SharedDisk, Unlocked};
use std::alloc::Global;

// How many bytes are read at a time.
const PIECE: usize = 131_072;

/// The SHA-256 (FIPS 180-4) of an image, and how many bytes it has.
#[derive(Clone, Copy, PartialEq, Eq)]
pub struct ImageDigest {
    pub sha256: [u8; 32],
    pub length: u64,
}

// Where an image lies, and how many bytes it has.
#[derive(Drop)]
struct Image {
    ranges: Vec<ByteRange>,
    length: u64,
}

/// The digest of the image of a case, from a look at its archive on. The image is read in pieces of
/// 128 KiB, and no lock is held meanwhile; each byte is reported to an onlooker. The archive is looked
/// at again at the end: if the case is there under its number, the digest is that of its image.
///
/// # Errors
///
/// `Open`, and `Archive` with `NoCase` or `OutOfMemory`. `Copy` with `Disk` if the disk failed. `Look` and `Reopen` if nobody could say
/// whether the case is still there. `Gone` if it is not.
pub fn digest_unlocked<S: SharedDisk + Drop, W: Onlooker>(
    alloc: Global,
    looked: Looked<S>,
    seq: u32,
    onlooker: &mut W,
) -> Result<ImageDigest, UnlockedFault>
    ensures { DigestsUnlocked S.SharedDisk ⟦<Unlocked<'static, S> as Disk>⟧ (shared_of looked) seq result }
{
    the_next_number_is_above();
    a_case_is_there_between();
    let image = find_image(alloc, looked.unlocked(Vec::new(alloc)), seq)?;
    let digest = digest_image(alloc, &looked, &image, onlooker)?;
    stays(alloc, looked.into_shared(), seq)?;
    Ok(digest)
}

// Where the image of a case of the archive on a disk lies.
fn find_image<D: Disk + Drop>(alloc: Global, disk: D, seq: u32) -> Result<Image, UnlockedFault>
    ensures { FindsImage D.Disk disk seq result }
{
    match Archive::open(alloc, disk, Settings { limit: 0 }) {
        Ok(archive) => match image_of(&archive, seq) {
            Ok(image) => Ok(image),
            Err(fault) => Err(UnlockedFault::Archive(fault)),
        },
        Err((fault, _)) => Err(UnlockedFault::Open(fault)),
    }
}

// Where the image of a case of an archive lies.
fn image_of<D: Disk>(archive: &Archive<D>, seq: u32) -> Result<Image, ArchiveFault>
    ensures { HasImage D.Disk archive.now seq result }
{
    let entry = archive.case(seq)?;
    let ranges = archive.image_ranges(seq)?;
    Ok(Image {
        ranges,
        length: entry.length,
    })
}

// The digest of an image of an archive that was looked at, by the bytes that its blocks have now.
fn digest_image<S: SharedDisk + Drop, W: Onlooker>(
    alloc: Global,
    looked: &Looked<S>,
    image: &Image,
    onlooker: &mut W,
) -> Result<ImageDigest, UnlockedFault>
    requires within { AreWithin (S.size (shared_of looked.now)) image.now.ranges.items }
    ensures read { IfOk result (λ digest. IsOfRanges S.SharedDisk (shared_of looked.now) image.now.ranges.items image.now.length digest) }
    ensures stop { IfErr result IsReadStop }
{
    let Ok(mut buffer) = vec![in alloc; 0u8; PIECE] else {
        return Err(UnlockedFault::Archive(ArchiveFault::OutOfMemory));
    };
    let mut lent = Vec::new(alloc);
    let Ok(()) = lent.extend_from_slice(&image.ranges) else {
        return Err(UnlockedFault::Archive(ArchiveFault::OutOfMemory));
    };
    let mut disk = looked.unlocked(lent);
    match digest_ranges(&mut disk, &image.ranges, &mut buffer, onlooker) {
        Ok(sha256) => Ok(ImageDigest {
            sha256,
            length: image.length,
        }),
        Err(_) => Err(UnlockedFault::Copy(CopyFault::Disk)),
    }
}

// Looks again, whether a case is still there.
fn stays<S: SharedDisk + Drop>(alloc: Global, shared: S, seq: u32) -> Result<(), UnlockedFault>
    ensures { LeavesThere S.SharedDisk ⟦<Unlocked<'static, S> as Disk>⟧ shared seq result }
{
    match stay(alloc, shared, &[seq]) {
        Ok(()) => Ok(()),
        Err(AskFault::Look(fault)) => Err(UnlockedFault::Look(fault)),
        Err(AskFault::Reopen(fault)) => Err(UnlockedFault::Reopen(fault)),
        Err(_) => Err(UnlockedFault::Gone),
    }
}
