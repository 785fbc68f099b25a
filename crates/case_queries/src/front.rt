// The first bytes of an image, for the lines that ask no more of it.
ghost use Rattle.std.specs.Prelude.{◌≡◌, ◌⊎◌, ◌-◌, ◌<◌, ◌≤◌, Some, IfOk, IfSome, OnOk, drop, length, take, true, false, vec_len};
ghost use Rattle.intake.specs.Part.{PartCall};
ghost use Rattle.intake.specs.Parts.{state_of};
ghost use Rattle.case_queries.specs.Fronts.{HasSize, IsSoundFront, ReadsEnough, ReadsUpTo, SeesEnough};
ghost use Rattle.case_queries.specs.Keeping.{AreKept};
ghost use Rattle.case_queries.specs.Seeing.{IsKept};
ghost use Rattle.journal_layout.specs.Soundness.{case_numbered};
ghost use Rattle.journal_layout.specs.Case.{Case};

use crate::kept_image::{KeptImage, see_image};
use crate::wanted::next_end;
use disk_model::Disk;
use elf_view::{Elf, Want};
use intake::{Archive, ArchiveFault};
use std::alloc::Global;

// How much of an image is read at first.
const FRONT: usize = 65_536;

// Whether bytes are sound as an image of their own.
fn is_sound(want: Want, front: &[u8]) -> bool
    ensures { result ≡ true → IsSoundFront want front.now }
{
    match Elf::read(front, want) {
        Ok(_) => true,
        Err(_) => false,
    }
}

// Whether these bytes of an image of `size` bytes are enough: they are all, or sound.
fn is_enough(want: Want, front: &[u8], size: usize) -> bool
    requires { length front.now ≤ size }
    ensures enough { result ≡ true → (length front.now ≡ size) ⊎ IsSoundFront want front.now }
    ensures more { result ≡ false → length front.now < size }
{
    if front.len() == size {
        return true;
    }
    is_sound(want, front)
}

// Reads a case's image from place `at` on to the end of these bytes.
fn read_behind<D: Disk>(
    seq: u32,
    at: usize,
    image: &mut [u8],
    archive: &mut Archive<D>,
) -> Result<(), ArchiveFault>
    requires within { at ≤ length image.old }
    requires fits { (c : Case) → case_numbered seq (state_of archive.old).cases ≡ Some c → length image.old ≤ c.len }
    ensures read { PartCall D.Disk archive.old seq at (length image.old - at) result (drop at image.new) archive.new }
    ensures before { take at image.new ≡ take at image.old }
{
    archive.image_part(seq, at as u64, &mut image[at..])
}

// Reads a case's image up to place `end`, of which these bytes are read. Room for the others is taken first.
pub(crate) fn read_up_to<D: Disk>(
    seq: u32,
    end: usize,
    image: &mut Vec<u8>,
    archive: &mut Archive<D>,
) -> Result<(), ArchiveFault>
    requires more { vec_len image.old ≤ end }
    requires fits { (c : Case) → case_numbered seq (state_of archive.old).cases ≡ Some c → end ≤ c.len }
    ensures read { ReadsUpTo D.Disk archive.old seq image.old.items end result image.new.items archive.new }
    ensures long { OnOk result (vec_len image.new ≡ end) }
{
    let at = image.len();
    if image.reserve_exact(end - at).is_err() {
        return Err(ArchiveFault::OutOfMemory);
    }
    image.resize(end, 0).unwrap();
    read_behind(seq, at, image, archive)
}

/// Reads the first bytes of an image of `size` bytes until they are enough for the lines over headers and notes, each byte once at most.
/// Room is taken as they are wanted, so that an image which is larger than the memory can be asked.
///
/// # Errors
///
/// Those of `image_part` of `Archive`. `OutOfMemory`: there is no room for them.
pub fn read_front<D: Disk>(
    alloc: Global,
    seq: u32,
    want: Want,
    size: usize,
    archive: &mut Archive<D>,
) -> Result<Vec<u8>, ArchiveFault>
    requires { HasSize (state_of archive.old) seq size }
    ensures { ReadsEnough D.Disk archive.old seq want size result archive.new }
{
    let mut image = Vec::new(alloc);
    read_up_to(seq, size.min(FRONT), &mut image, archive)?;
    while !is_enough(want, &image, size) {
        let end = next_end(&image, size);
        read_up_to(seq, end, &mut image, archive)?;
    }
    Ok(image)
}

// The size of a case's image.
pub(crate) fn size_of<D: Disk>(seq: u32, archive: &Archive<D>) -> Option<usize>
    ensures { IfSome result (λ size. HasSize (state_of archive.now) seq size) }
{
    match archive.case(seq) {
        Ok(entry) => Some(entry.length as usize),
        Err(_) => None,
    }
}

// Whether the kept bytes of an image are enough.
fn is_kept_enough(want: Want, kept: &KeptImage) -> bool
    ensures { result ≡ true → (kept.now.is_whole ≡ true) ⊎ IsSoundFront want kept.now.image.items }
{
    if kept.is_whole {
        return true;
    }
    is_sound(want, &kept.image)
}

// The kept bytes of an image, if they are of that case and enough.
fn enough_of_case(seq: u32, want: Want, kept: Option<KeptImage>) -> Option<KeptImage>
    ensures { IfSome result (λ k. (kept ≡ Some k) × (k.seq ≡ seq) × ((k.is_whole ≡ true) ⊎ IsSoundFront want k.image.items)) }
{
    let image = kept?;
    if image.seq != seq {
        return None;
    }
    if !is_kept_enough(want, &image) {
        return None;
    }
    Some(image)
}

// As much of a case's image as the lines over headers and notes want: the kept image, if it is of that case and enough.
// Otherwise the kept image is dropped with its executables, and the case's is read.
pub(crate) fn see_front<D: Disk>(
    alloc: Global,
    seq: u32,
    want: Want,
    kept: Option<KeptImage>,
    archive: &mut Archive<D>,
) -> Result<KeptImage, ArchiveFault>
    requires kept { IsKept D.Disk archive.old kept }
    requires are_kept { AreKept D.Disk archive.old kept }
    ensures seen { SeesEnough D.Disk archive.old seq want result archive.new }
    ensures kept { IfOk result (λ k. IsKept D.Disk archive.new (Some k)) }
    ensures are_kept { IfOk result (λ k. AreKept D.Disk archive.new (Some k)) }
    ensures seq { IfOk result (λ k. k.seq ≡ seq) }
{
    if let Some(image) = enough_of_case(seq, want, kept) {
        return Ok(image);
    }
    // If there is no such case, reading the whole image says why.
    let Some(size) = size_of(seq, archive) else {
        return see_image(seq, None, archive);
    };
    let image = read_front(alloc, seq, want, size, archive)?;
    let is_whole = image.len() == size;
    Ok(KeptImage {
        seq,
        image,
        is_whole,
        executables: None,
    })
}
