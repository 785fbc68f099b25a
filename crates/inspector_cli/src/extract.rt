// An image, out of its archive.
ghost use Rattle.std.specs.Prelude.{◌≡◌};
ghost use Rattle.script_streams.specs.Printing.{IsDelivered};
ghost use Rattle.inspector_cli.specs.Extracting.{ReadsImage};

use disk_model::Disk;
use intake::{Archive, ArchiveFault, Settings};
use journal_layout::OpenFault;
use script_streams::{Output, Reply, StreamFault};
use std::alloc::Global;
use thiserror::Error;

/// Why an image was not read.
#[derive(Clone, Copy, Debug, Error)]
pub enum ImageFault {
    /// The archive could not be opened.
    #[error(transparent)]
    Open(OpenFault),
    /// The archive has no such case, or the disk or the memory failed.
    #[error(transparent)]
    Archive(ArchiveFault),
}

/// Opens the archive on a disk, reads the image of a case, and returns the disk. With the disk its owner releases its lock
/// before the image is written: a slow reader keeps nobody waiting.
///
/// # Errors
///
/// `Open` if the archive could not be opened, and `Archive` if the image could not be read, `NoCase` among them.
pub fn read_image<D: Disk>(
    alloc: Global,
    disk: D,
    settings: Settings,
    seq: u32,
) -> (Result<Vec<u8>, ImageFault>, D)
    ensures reads { ReadsImage D.Disk settings.limit seq disk result.0 result.1 }
{
    match Archive::open(alloc, disk, settings) {
        Ok(archive) => {
            let mut archive = archive;
            let read = archive.image(seq);
            let disk = archive.close();
            match read {
                Ok(image) => (Ok(image), disk),
                Err(fault) => (Err(ImageFault::Archive(fault)), disk),
            }
        }
        Err((fault, disk)) => (Err(ImageFault::Open(fault)), disk),
    }
}

/// Writes an image, byte for byte, and nothing else.
///
/// # Errors
///
/// `StreamFault` if the output failed: it has a front of the image.
pub fn write_image<O: Output>(output: &mut O, image: &[u8]) -> Result<(), StreamFault>
    ensures delivered { IsDelivered (O.taken output.old) (O.failures output.old) (O.taken output.new) (O.failures output.new)
        image.now result }
{
    let mut reply = Reply::new(output);
    reply.print(image);
    reply.finish()
}
