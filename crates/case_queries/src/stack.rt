// The part of an image that is read for the frames of a thread: its first bytes and the thread's stack, or all of it.
ghost use Rattle.std.specs.Prelude.{◌≡◌, ◌+◌, ◌-◌, ◌<◌, ◌≤◌, ℕ, List, [], Ok, OnOk, IfOk, IfSome, Some, length, true, false, vec_len, vec_capacity};
ghost use Rattle.elf_view.specs.declared.faults.Want.TheVariants.{Core};
ghost use Rattle.address_space.specs.Whole.{IsFrontOf};
ghost use Rattle.intake.specs.Parts.{Parts, state_of};
ghost use Rattle.memory_replies.specs.Stack.{HasFrames};
ghost use Rattle.memory_replies.specs.Window.{IsPartOf};
ghost use Rattle.script_lines.specs.declared.query.MemoryQuery.{MemoryQuery};
ghost use Rattle.script_lines.specs.declared.query.MemoryQuery.TheVariants.{Backtrace};
ghost use Rattle.case_queries.specs.Fronts.{HasSize, ReadsFront, SeesEnough};
ghost use Rattle.case_queries.specs.Keeping.{AreKept};
ghost use Rattle.case_queries.specs.Seeing.{IsKept};
ghost use Rattle.case_queries.specs.Windows.{ReadsOn, ReadsRange, SeesFor};

use crate::front::read_up_to;
use crate::kept_image::KeptImage;
use crate::window::{Part, Seen, all_of, read_range, read_rest};
use address_space::ImageRange;
use disk_model::Disk;
use elf_view::part;
use image_replies::CoreImage;
use intake::{Archive, ArchiveFault};
use memory_replies::{Window, has_frames, stack_range};

// The places of an image of `size` bytes that have a thread's stack. These are its first bytes. `None` if the core has a fault.
fn wanted_stack(front: &[u8], size: u64, thread: u64) -> Option<ImageRange>
    ensures within { IfSome result (λ r. (r.start ≤ r.past) × (r.past ≤ size)) }
    ensures few { IfSome result (λ r. r.past - r.start ≤ 1048576) }
{
    match CoreImage::read(front) {
        Ok(core) => Some(stack_range(&core, size, thread)),
        Err(_) => None,
    }
}

// Whether the first bytes of an image of `size` bytes and those of a thread's stack show the thread's frames.
fn shows_frames(front: &[u8], size: u64, stack: &Part, thread: u64) -> bool
    ensures { result ≡ true → (image : List ℕ) → IsFrontOf front.now size image → IsPartOf image stack.now.at stack.now.bytes.items
        → HasFrames front.now size stack.now.bytes.items thread image }
{
    match CoreImage::read(front) {
        Ok(core) => {
            let window = Window {
                size,
                at: stack.at,
                bytes: &stack.bytes,
            };
            has_frames(&core, window, thread)
        }
        Err(_) => false,
    }
}

// Reads a case's image up to place `end`, of which these bytes are read.
fn read_on<D: Disk>(
    seq: u32,
    size: usize,
    end: usize,
    image: &mut Vec<u8>,
    archive: &mut Archive<D>,
) -> Result<(), ArchiveFault>
    requires has { HasSize (state_of archive.old) seq size }
    requires more { vec_len image.old ≤ end }
    requires within { end ≤ size }
    ensures reads { (before : Parts D) → HasSize (state_of before) seq size → ReadsFront D.Disk before seq image.old.items archive.old
        → ReadsOn D.Disk before seq result image.new.items archive.new }
    ensures has { OnOk result (HasSize (state_of archive.new) seq size) }
    ensures long { OnOk result (vec_len image.new ≡ end) }
{
    read_up_to(seq, end, image, archive)
}

// Reads a case's image up to a part of it that is read already, and appends the part.
fn read_to_part<D: Disk>(
    seq: u32,
    size: usize,
    stack: &Part,
    image: &mut Vec<u8>,
    archive: &mut Archive<D>,
) -> Result<(), ArchiveFault>
    requires has { HasSize (state_of archive.old) seq size }
    requires short { vec_len image.old ≤ size }
    requires within { stack.now.at + length stack.now.bytes.items ≤ size }
    ensures reads { (before mid : Parts D) → HasSize (state_of before) seq size → ReadsFront D.Disk before seq image.old.items mid
        → ReadsRange D.Disk mid seq image.old.items stack.now.at (length stack.now.bytes.items) (Ok tt) stack.now.bytes.items archive.old
        → ReadsOn D.Disk before seq result image.new.items archive.new }
    ensures has { OnOk result (HasSize (state_of archive.new) seq size) }
    ensures short { OnOk result (vec_len image.new ≤ size) }
{
    let end = image.len().max(stack.at as usize);
    read_on(seq, size, end, image, archive)?;
    let skipped = end as u64 - stack.at;
    let rest = part(&stack.bytes, skipped, stack.bytes.len() as u64);
    if image.extend_from_slice(rest).is_err() {
        return Err(ArchiveFault::OutOfMemory);
    }
    Ok(())
}

// Reads the rest of an image, of which these are the first bytes and this part is read.
fn read_others<D: Disk>(
    seq: u32,
    size: usize,
    front: KeptImage,
    stack: &Part,
    archive: &mut Archive<D>,
) -> Result<Seen, ArchiveFault>
    requires has { HasSize (state_of archive.old) seq size }
    requires short { length front.image.items ≤ size }
    requires within { stack.now.at + length stack.now.bytes.items ≤ size }
    ensures seen { (before mid : Parts D) (query : MemoryQuery) → HasSize (state_of before) seq size → SeesEnough D.Disk before seq Core (Ok front) mid
        → ReadsRange D.Disk mid seq front.image.items stack.now.at (length stack.now.bytes.items) (Ok tt) stack.now.bytes.items archive.old
        → SeesFor D.Disk before seq query result archive.new }
    ensures kept { (before mid : Parts D) → HasSize (state_of before) seq size → SeesEnough D.Disk before seq Core (Ok front) mid
        → ReadsRange D.Disk mid seq front.image.items stack.now.at (length stack.now.bytes.items) (Ok tt) stack.now.bytes.items archive.old
        → IfOk result (λ s. IsKept D.Disk archive.new (Some s.kept)) }
    ensures are_kept { IfOk result (λ s. AreKept D.Disk archive.new (Some s.kept)) }
{
    let mut image = front.image;
    read_to_part(seq, size, stack, &mut image, archive)?;
    read_on(seq, size, size, &mut image, archive)?;
    Ok(all_of(KeptImage {
        seq,
        image,
        is_whole: true,
        executables: None,
    }))
}

// Reads a thread's stack, and all of the image if the frames leave it.
fn read_stack<D: Disk>(
    seq: u32,
    size: usize,
    thread: u64,
    front: KeptImage,
    range: ImageRange,
    mut buffer: Vec<u8>,
    archive: &mut Archive<D>,
) -> Result<Seen, ArchiveFault>
    requires has { HasSize (state_of archive.old) seq size }
    requires short { length front.image.items ≤ size }
    requires range { (range.start ≤ range.past) × (range.past ≤ size) }
    requires buffer { range.past - range.start ≤ vec_capacity buffer }
    requires none { buffer.items ≡ [] }
    requires kept { IsKept D.Disk archive.old (Some front) }
    requires are_kept { AreKept D.Disk archive.old (Some front) }
    ensures seen { (before : Parts D) → HasSize (state_of before) seq size → SeesEnough D.Disk before seq Core (Ok front) archive.old
        → SeesFor D.Disk before seq (Backtrace thread) result archive.new }
    ensures kept { (before : Parts D) → HasSize (state_of before) seq size → SeesEnough D.Disk before seq Core (Ok front) archive.old
        → IfOk result (λ s. IsKept D.Disk archive.new (Some s.kept)) }
    ensures are_kept { IfOk result (λ s. AreKept D.Disk archive.new (Some s.kept)) }
{
    read_range(seq, size, &front.image, range, &mut buffer, archive)?;
    let stack = Part {
        at: range.start,
        bytes: buffer,
    };
    if !shows_frames(&front.image, size as u64, &stack, thread) {
        return read_others(seq, size, front, &stack, archive);
    }
    Ok(Seen {
        kept: front,
        size: size as u64,
        part: Some(stack),
    })
}

// The part of an image that the frames of a thread want, apart from its first bytes.
pub(crate) fn see_stack<D: Disk>(
    seq: u32,
    size: usize,
    thread: u64,
    front: KeptImage,
    buffer: Vec<u8>,
    archive: &mut Archive<D>,
) -> Result<Seen, ArchiveFault>
    requires has { HasSize (state_of archive.old) seq size }
    requires short { length front.image.items ≤ size }
    requires buffer { 1048576 ≤ vec_capacity buffer }
    requires none { buffer.items ≡ [] }
    requires kept { IsKept D.Disk archive.old (Some front) }
    requires are_kept { AreKept D.Disk archive.old (Some front) }
    ensures seen { (before : Parts D) → HasSize (state_of before) seq size → SeesEnough D.Disk before seq Core (Ok front) archive.old
        → SeesFor D.Disk before seq (Backtrace thread) result archive.new }
    ensures kept { (before : Parts D) → HasSize (state_of before) seq size → SeesEnough D.Disk before seq Core (Ok front) archive.old
        → IfOk result (λ s. IsKept D.Disk archive.new (Some s.kept)) }
    ensures are_kept { IfOk result (λ s. AreKept D.Disk archive.new (Some s.kept)) }
{
    match wanted_stack(&front.image, size as u64, thread) {
        Some(range) => read_stack(seq, size, thread, front, range, buffer, archive),
        None => read_rest(seq, size, front, archive),
    }
}
