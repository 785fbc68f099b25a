// The SHA-256 (FIPS 180-4) of bytes of a disk, read piece by piece.
ghost use Rattle.std.specs.Prelude.{◌≡◌, ◌+◌, ◌<◌, ◌≤◌, IsTrue, IfOk, OnOk, length};
ghost use Rattle.sha2.specs.Sha256.{sha256};
ghost use Rattle.case_journal.specs.Viewing.{OnlyReads};
ghost use Rattle.disk_model.specs.Places.{part};
ghost use Rattle.intake.specs.Ranges.{AreWithin, bytes_in};
ghost use Rattle.case_listing.specs.Hashing.{Adds};

use diagnostics::Onlooker;
use disk_model::{Disk, DiskFault};
use intake::ByteRange;
use sha2::{Digest, Sha256};

// The digest of the bytes of these ranges of a disk, one range after another. Each byte is reported to an onlooker.
pub(crate) fn digest_ranges<D: Disk, W: Onlooker>(
    disk: &mut D,
    ranges: &[ByteRange],
    buffer: &mut [u8],
    onlooker: &mut W,
) -> Result<[u8; 32], DiskFault>
    requires within { AreWithin (D.size disk.old) ranges.now }
    requires room { 0 < length buffer.old }
    ensures { IfOk result (λ digest. IsTrue (D.is_honest disk.old) → digest ≡ sha256 (bytes_in (D.seen disk.old) ranges.now)) }
{
    let mut hasher = Sha256::new();
    for range in ranges {
        hash_range(disk, *range, buffer, &mut hasher, onlooker)?;
    }
    Ok(hasher.finalize())
}

// Adds the bytes of a range of a disk to a hasher's message, as many at a time as the buffer holds.
fn hash_range<D: Disk, W: Onlooker>(
    disk: &mut D,
    range: ByteRange,
    buffer: &mut [u8],
    hasher: &mut Sha256,
    onlooker: &mut W,
) -> Result<(), DiskFault>
    requires within { range.start + range.length ≤ D.size disk.old }
    requires room { 0 < length buffer.old }
    ensures adds { OnOk result (IsTrue (D.is_honest disk.old) → Adds hasher.old hasher.new (part (D.seen disk.old) range.start range.length)) }
    ensures quiet { OnlyReads D.Disk disk.old disk.new }
{
    let mut done = 0;
    while done < range.length {
        let count = (range.length - done).min(buffer.len() as u64);
        hash_piece(
            disk,
            range.start + done,
            &mut buffer[..count as usize],
            hasher,
        )?;
        onlooker.advance(count);
        done += count;
    }
    Ok(())
}

// Adds the bytes of a disk from a place on to a hasher's message, as many as the piece has.
fn hash_piece<D: Disk>(
    disk: &mut D,
    start: u64,
    piece: &mut [u8],
    hasher: &mut Sha256,
) -> Result<(), DiskFault>
    requires { start + length piece.old ≤ D.size disk.old }
    ensures adds { OnOk result (IsTrue (D.is_honest disk.old) → Adds hasher.old hasher.new (part (D.seen disk.old) start (length piece.old))) }
    ensures quiet { OnlyReads D.Disk disk.old disk.new }
{
    disk.read_at(start, piece)?;
    hasher.update(&*piece);
    Ok(())
}
