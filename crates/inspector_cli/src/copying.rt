// An image, piece by piece, out of its archive.
ghost use Rattle.std.specs.Prelude.{◌≡◌, ◌+◌, ◌<◌, ◌≤◌, List, ℕ, length};
ghost use Rattle.disk_model.specs.Places.{part};
ghost use Rattle.intake.specs.Ranges.{AreWithin, bytes_in, RangesReply};
ghost use Rattle.script_streams.specs.Replies.{printing};
ghost use Rattle.inspector_cli.specs.Copying.{Copies, WritesOut, CopiesImage, CopyEnds, HasPlace, fault_of};

use disk_model::Disk;
use intake::{Archive, ArchiveFault, ByteRange, Settings};
use journal_layout::OpenFault;
use script_streams::{Output, Reply};
use std::alloc::Global;
use thiserror::Error;

// How many bytes are read, and then written, at a time.
const PIECE: usize = 131_072;

/// Why an image was not copied, or not whole.
#[derive(Clone, Copy, Debug, Error)]
pub enum CopyFault {
    /// The archive could not be opened. Nothing was written.
    #[error(transparent)]
    Open(OpenFault),
    /// The archive has no such case, or there was no memory. Nothing was written.
    #[error(transparent)]
    Archive(ArchiveFault),
    /// The disk failed while the image was read. The output has a front of it.
    #[error("the disk failed")]
    Disk,
    /// The output failed. It has a front of the image.
    #[error("the output failed")]
    Output,
}

/// Why a copy ended before its end.
#[derive(Clone, Copy)]
pub(crate) enum Halt {
    /// The disk failed.
    Disk,
    /// The output failed.
    Output,
}

/// Opens the archive on a disk, writes the image of a case to an output, and returns the
/// disk. The image is read and written in pieces of a fixed size, so the memory that it takes
/// does not grow with the image; the disk's lock is kept until the last piece is written.
///
/// # Errors
///
/// `Open` if the archive could not be opened, and `Archive` with `NoCase` or `OutOfMemory`: nothing was written. `Disk` and
/// `Output` if one of these failed: the output has a front of the image.
pub fn copy_image<D: Disk, O: Output>(
    alloc: Global,
    disk: D,
    settings: Settings,
    seq: u32,
    output: &mut O,
) -> (Result<(), CopyFault>, D)
    ensures copies { CopiesImage D.Disk settings.limit seq disk (O.taken output.old) (O.taken output.new) (O.failures output.old)
        (O.failures output.new) result.0 result.1 }
{
    match Archive::open(alloc, disk, settings) {
        Ok(archive) => copy_of(alloc, archive, seq, output),
        Err((fault, disk)) => (Err(CopyFault::Open(fault)), disk),
    }
}

// Writes the image of a case of an archive to an output, and lets the archive's disk go.
fn copy_of<D: Disk, O: Output>(
    alloc: Global,
    archive: Archive<D>,
    seq: u32,
    output: &mut O,
) -> (Result<(), CopyFault>, D)
    ensures ends { CopyEnds D.Disk seq (O.taken output.old) (O.taken output.new) (O.failures output.old) (O.failures output.new) archive
        result.0 result.1 }
{
    let found = place_of(alloc, &archive, seq);
    let mut disk = archive.close();
    match found {
        Ok((ranges, buffer)) => {
            let mut buffer = buffer;
            let copied = write_out(&mut disk, &ranges, &mut buffer, output);
            (copied.map_err(fault_of), disk)
        }
        Err(fault) => (Err(CopyFault::Archive(fault)), disk),
    }
}

// The place of an image, and memory for its pieces.
fn place_of<D: Disk>(
    alloc: Global,
    archive: &Archive<D>,
    seq: u32,
) -> Result<(Vec<ByteRange>, Vec<u8>), ArchiveFault>
    ensures { HasPlace D.Disk archive.now seq result }
{
    let ranges = archive.image_ranges(seq)?;
    let buffer = vec![in alloc; 0u8; PIECE]?;
    Ok((ranges, buffer))
}

// Reads these ranges of a disk, one after another, and writes their bytes to an output.
fn write_out<D: Disk, O: Output>(
    disk: &mut D,
    ranges: &[ByteRange],
    buffer: &mut [u8],
    output: &mut O,
) -> Result<(), Halt>
    requires within { AreWithin (D.size disk.old) ranges.now }
    requires room { 0 < length buffer.old }
    ensures { WritesOut D.Disk disk.old disk.new (O.taken output.old) (O.taken output.new) (O.failures output.old) (O.failures output.new)
        (λ (b : List ℕ). bytes_in b ranges.now) result }
{
    let mut reply = Reply::new(output);
    let copied = copy_ranges(disk, ranges, buffer, &mut reply);
    let written = reply.finish();
    match copied {
        Ok(()) => match written {
            Ok(()) => Ok(()),
            Err(_) => Err(Halt::Output),
        },
        Err(halt) => Err(halt),
    }
}

// Writes the bytes of these ranges of a disk to an output, one after another.
fn copy_ranges<D: Disk, O: Output>(
    disk: &mut D,
    ranges: &[ByteRange],
    buffer: &mut [u8],
    reply: &mut Reply<'_, O>,
) -> Result<(), Halt>
    requires within { AreWithin (D.size disk.old) ranges.now }
    requires room { 0 < length buffer.old }
    ensures { Copies D.Disk disk.old disk.new (printing O.Output reply.old reply.new)
        (λ (b : List ℕ). bytes_in b ranges.now) result }
{
    for range in ranges {
        copy_range(disk, *range, buffer, reply)?;
    }
    Ok(())
}

// Writes the bytes of a range of a disk to an output, as many at a time as the buffer holds.
fn copy_range<D: Disk, O: Output>(
    disk: &mut D,
    range: ByteRange,
    buffer: &mut [u8],
    reply: &mut Reply<'_, O>,
) -> Result<(), Halt>
    requires within { range.start + range.length ≤ D.size disk.old }
    requires room { 0 < length buffer.old }
    ensures { Copies D.Disk disk.old disk.new (printing O.Output reply.old reply.new)
        (λ (b : List ℕ). part b range.start range.length) result }
{
    let mut done = 0;
    while done < range.length {
        let count = (range.length - done).min(buffer.len() as u64);
        copy_piece(
            disk,
            range.start + done,
            &mut buffer[..count as usize],
            reply,
        )?;
        done += count;
    }
    Ok(())
}

// Writes the bytes of a disk from a place on to an output, as many as the piece has.
fn copy_piece<D: Disk, O: Output>(
    disk: &mut D,
    start: u64,
    piece: &mut [u8],
    reply: &mut Reply<'_, O>,
) -> Result<(), Halt>
    requires { start + length piece.old ≤ D.size disk.old }
    ensures { Copies D.Disk disk.old disk.new (printing O.Output reply.old reply.new)
        (λ (b : List ℕ). part b start (length piece.old)) result }
{
    match disk.read_at(start, piece) {
        Ok(()) => {
            reply.print(piece);
            if reply.has_failed() {
                Err(Halt::Output)
            } else {
                Ok(())
            }
        }
        Err(_) => Err(Halt::Disk),
    }
}

fn fault_of(halt: Halt) -> CopyFault
    ensures { result ≡ fault_of halt }
{
    match halt {
        Halt::Disk => CopyFault::Disk,
        Halt::Output => CopyFault::Output,
    }
}
