// The image that the session read last.
ghost use Rattle.std.specs.Prelude.{◌≡◌, Some, IfOk, IfSome, true};
ghost use Rattle.case_queries.specs.Keeping.{AreKept};
ghost use Rattle.case_queries.specs.Seeing.{IsKept, LooksAt, image_held};

use crate::collect_executables::StoredExecutable;
use disk_model::Disk;
use intake::{Archive, ArchiveFault};
use std::alloc::Global;

/// The allocator of the lines that ask images, and the image that they keep.
#[derive(Drop)]
pub struct Images {
    /// The allocator from which they take memory.
    pub alloc: Global,
    /// The image that was read last, if it is kept: none at first, and none after a line that asks no image.
    pub kept: Option<KeptImage>,
}

/// The image of a case, or its first bytes, kept for the lines over the same case that come next, and the executables that were
/// gathered for it, if a line has.
#[derive(Drop)]
pub struct KeptImage {
    pub(crate) seq: u32,
    pub(crate) image: Vec<u8>,
    // Whether these are all its bytes.
    pub(crate) is_whole: bool,
    pub(crate) executables: Option<Vec<StoredExecutable>>,
}

// The whole image of a case: the one that is kept, if it is of that case and whole. Otherwise the kept one is dropped with its
// executables, and the case's is read.
pub(crate) fn see_image<D: Disk>(
    seq: u32,
    kept: Option<KeptImage>,
    archive: &mut Archive<D>,
) -> Result<KeptImage, ArchiveFault>
    requires kept { IsKept D.Disk archive.old kept }
    requires are_kept { AreKept D.Disk archive.old kept }
    ensures seen { LooksAt D.Disk archive.old seq (image_held result) archive.new }
    ensures kept { IfOk result (λ k. IsKept D.Disk archive.new (Some k)) }
    ensures are_kept { IfOk result (λ k. AreKept D.Disk archive.new (Some k)) }
    ensures seq { IfOk result (λ k. k.seq ≡ seq) }
{
    if let Some(image) = of_case(seq, kept) {
        return Ok(image);
    }
    let image = archive.image(seq)?;
    Ok(KeptImage {
        seq,
        image,
        is_whole: true,
        executables: None,
    })
}

// The image that is kept, if it is of that case and whole.
fn of_case(seq: u32, kept: Option<KeptImage>) -> Option<KeptImage>
    ensures { IfSome result (λ k. (kept ≡ Some k) × (k.seq ≡ seq) × (k.is_whole ≡ true)) }
{
    let image = kept?;
    if image.seq != seq {
        return None;
    }
    if !image.is_whole {
        return None;
    }
    Some(image)
}

// An image, if there is memory to keep it.
pub(crate) fn kept_if(has_memory: bool, image: KeptImage) -> Option<KeptImage>
    ensures { IfSome result (λ kept. kept ≡ image) }
{
    if has_memory { Some(image) } else { None }
}
