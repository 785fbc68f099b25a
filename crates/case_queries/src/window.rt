// The part of an image that is read for a line over a core's memory.
ghost use Rattle.std.specs.Prelude.{◌≡◌, ◌+◌, ◌-◌, ◌^◌, ◌<◌, ◌≤◌, ℕ, [], Ok, IfOk, IfSome, Some, drop, take, length, false, vec_capacity};
ghost use Rattle.elf_view.specs.Field.{part};
ghost use Rattle.elf_view.specs.Header.{segments_of};
ghost use Rattle.elf_view.specs.declared.faults.Want.TheVariants.{Core};
ghost use Rattle.address_space.specs.Whole.{AreHeldWithin};
ghost use Rattle.intake.specs.Part.{PartCall};
ghost use Rattle.intake.specs.Parts.{Parts, state_of};
ghost use Rattle.memory_replies.specs.Dump.{is_out_of_range};
ghost use Rattle.script_lines.specs.declared.query.MemoryQuery.{MemoryQuery};
ghost use Rattle.case_queries.specs.Fronts.{HasSize, SeesEnough};
ghost use Rattle.case_queries.specs.Keeping.{AreKept};
ghost use Rattle.case_queries.specs.Seeing.{IsKept};
ghost use Rattle.case_queries.specs.Windows.{IsWanted, ReadsRange, SeesDump, SeesFor, most_for, part_at, part_bytes};
ghost use Rattle.journal_layout.specs.Soundness.{case_numbered};
ghost use Rattle.journal_layout.specs.Case.{Case};

use crate::front::{read_up_to, see_front, size_of};
use crate::kept_image::{KeptImage, see_image};
use crate::stack::see_stack;
use address_space::{ImageRange, image_range};
use disk_model::Disk;
use elf_view::{Elf, Want, part};
use intake::{Archive, ArchiveFault};
use memory_replies::{Window, is_out_of_range};
use script_lines::MemoryQuery;
use std::alloc::Global;

// How many bytes of an image a line reads at most after the first of it, if it doesn't read all: as many as a reply of `dump` has.
const WINDOW: usize = 65_536;

// The same for a thread's stack.
const STACK: usize = 1_048_576;

// Bytes of an image from a place on.
#[derive(Drop)]
pub(crate) struct Part {
    pub(crate) at: u64,
    pub(crate) bytes: Vec<u8>,
}

// The part of an image of `size` bytes that is seen: the first of
// them, and a part that was read for one line; or all of them.
#[derive(Drop)]
pub(crate) struct Seen {
    pub(crate) kept: KeptImage,
    pub(crate) size: u64,
    pub(crate) part: Option<Part>,
}

// The part, lent; or all of the image.
pub(crate) fn lent_window<'a>(image: &'a [u8], size: u64, part: &'a Option<Part>) -> Window<'a>
    ensures size { result.size ≡ size }
    ensures at { result.at ≡ part_at part.now }
    ensures bytes { result.bytes.now ≡ part_bytes image.now part.now }
{
    match part {
        Some(part) => Window {
            size,
            at: part.at,
            bytes: &part.bytes,
        },
        None => Window {
            size,
            at: 0,
            bytes: image,
        },
    }
}

// A whole image.
pub(crate) fn all_of(kept: KeptImage) -> Seen
    ensures kept { result.kept ≡ kept }
    ensures size { result.size ≡ length kept.image.items }
    ensures part { (part_at result.part ≡ 0) × (part_bytes result.kept.image.items result.part ≡ kept.image.items) }
{
    let size = kept.image.len() as u64;
    Seen {
        kept,
        size,
        part: None,
    }
}

// The whole image of a case.
fn see_whole<D: Disk>(
    seq: u32,
    kept: Option<KeptImage>,
    archive: &mut Archive<D>,
) -> Result<Seen, ArchiveFault>
    requires kept { IsKept D.Disk archive.old kept }
    requires are_kept { AreKept D.Disk archive.old kept }
    ensures seen { (query : MemoryQuery) → SeesFor D.Disk archive.old seq query result archive.new }
    ensures kept { IfOk result (λ s. IsKept D.Disk archive.new (Some s.kept)) }
    ensures are_kept { IfOk result (λ s. AreKept D.Disk archive.new (Some s.kept)) }
{
    let kept = see_image(seq, kept, archive)?;
    Ok(all_of(kept))
}

// The places of an image of `size` bytes that have the bytes of a dump, if they are few. These are its first bytes.
fn wanted_range(front: &[u8], size: u64, first: u64, count: u64) -> Option<ImageRange>
    ensures { IfSome result (λ r. IsWanted front.now size first count r.start r.past) }
{
    if is_out_of_range(first, count) {
        return Some(ImageRange { start: 0, past: 0 });
    }
    let Ok(elf) = Elf::read(front, Want::Core) else {
        return None;
    };
    let range = image_range(&elf, size, first, count);
    if range.past - range.start > WINDOW as u64 {
        return None;
    }
    Some(range)
}

// Reads a case's image to the end of these bytes, of which the first is that from place `start` on and those before `at` are there.
fn read_after<D: Disk>(
    seq: u32,
    start: u64,
    at: usize,
    bytes: &mut [u8],
    archive: &mut Archive<D>,
) -> Result<(), ArchiveFault>
    requires within { at ≤ length bytes.old }
    requires end { start + length bytes.old < 2 ^ 64 }
    requires fits { (c : Case) → case_numbered seq (state_of archive.old).cases ≡ Some c → start + length bytes.old ≤ c.len }
    ensures read { PartCall D.Disk archive.old seq (start + at) (length bytes.old - at) result (drop at bytes.new) archive.new }
    ensures before { take at bytes.new ≡ take at bytes.old }
{
    archive.image_part(seq, start + at as u64, &mut bytes[at..])
}

// Reads the bytes that a case's image has of a range after its first
// bytes, and puts those of the range that these have before them.
pub(crate) fn read_range<D: Disk>(
    seq: u32,
    size: usize,
    front: &[u8],
    range: ImageRange,
    bytes: &mut Vec<u8>,
    archive: &mut Archive<D>,
) -> Result<(), ArchiveFault>
    requires has { HasSize (state_of archive.old) seq size }
    requires range { (range.start ≤ range.past) × (range.past ≤ size) }
    requires buffer { range.past - range.start ≤ vec_capacity bytes.old }
    requires none { bytes.old.items ≡ [] }
    ensures reads { ReadsRange D.Disk archive.old seq front.now range.start (range.past - range.start) result bytes.new.items archive.new }
    ensures long { length bytes.new.items ≡ range.past - range.start }
    ensures capacity { vec_capacity bytes.old ≤ vec_capacity bytes.new }
{
    let count = range.past - range.start;
    bytes
        .extend_from_slice(part(front, range.start, count))
        .unwrap();
    let at = bytes.len();
    bytes.resize(count as usize, 0).unwrap();
    read_after(seq, range.start, at, bytes, archive)
}

// Reads the range of an image that a line wants apart from its first bytes.
fn read_window<D: Disk>(
    seq: u32,
    size: usize,
    front: KeptImage,
    range: ImageRange,
    mut buffer: Vec<u8>,
    archive: &mut Archive<D>,
) -> Result<Seen, ArchiveFault>
    requires has { HasSize (state_of archive.old) seq size }
    requires range { (range.start ≤ range.past) × (range.past ≤ size) }
    requires buffer { range.past - range.start ≤ vec_capacity buffer }
    requires none { buffer.items ≡ [] }
    requires kept { IsKept D.Disk archive.old (Some front) }
    requires are_kept { AreKept D.Disk archive.old (Some front) }
    ensures seen { (before : Parts D) (first n : ℕ) → HasSize (state_of before) seq size → SeesEnough D.Disk before seq Core (Ok front) archive.old
        → IsWanted front.image.items size first n range.start range.past → SeesDump D.Disk before seq first n result archive.new }
    ensures kept { IfOk result (λ s. IsKept D.Disk archive.new (Some s.kept)) }
    ensures are_kept { IfOk result (λ s. AreKept D.Disk archive.new (Some s.kept)) }
{
    read_range(seq, size, &front.image, range, &mut buffer, archive)?;
    Ok(Seen {
        kept: front,
        size: size as u64,
        part: Some(Part {
            at: range.start,
            bytes: buffer,
        }),
    })
}

// Reads the rest of an image, of which these are the first bytes.
pub(crate) fn read_rest<D: Disk>(
    seq: u32,
    size: usize,
    front: KeptImage,
    archive: &mut Archive<D>,
) -> Result<Seen, ArchiveFault>
    requires has { HasSize (state_of archive.old) seq size }
    requires short { length front.image.items ≤ size }
    ensures seen { (before : Parts D) (query : MemoryQuery) → HasSize (state_of before) seq size → SeesEnough D.Disk before seq Core (Ok front) archive.old
        → SeesFor D.Disk before seq query result archive.new }
    ensures kept { (before : Parts D) → HasSize (state_of before) seq size → SeesEnough D.Disk before seq Core (Ok front) archive.old
        → IfOk result (λ s. IsKept D.Disk archive.new (Some s.kept)) }
    ensures are_kept { IfOk result (λ s. AreKept D.Disk archive.new (Some s.kept)) }
{
    let mut image = front.image;
    read_up_to(seq, size, &mut image, archive)?;
    Ok(all_of(KeptImage {
        seq,
        image,
        is_whole: true,
        executables: None,
    }))
}

// The part of an image that a dump wants, apart from its first bytes.
fn see_range<D: Disk>(
    seq: u32,
    size: usize,
    first: u64,
    count: u64,
    front: KeptImage,
    buffer: Vec<u8>,
    archive: &mut Archive<D>,
) -> Result<Seen, ArchiveFault>
    requires has { HasSize (state_of archive.old) seq size }
    requires cut { front.is_whole ≡ false }
    requires short { length front.image.items ≤ size }
    requires buffer { 65536 ≤ vec_capacity buffer }
    requires none { buffer.items ≡ [] }
    requires kept { IsKept D.Disk archive.old (Some front) }
    requires are_kept { AreKept D.Disk archive.old (Some front) }
    ensures seen { (before : Parts D) → HasSize (state_of before) seq size → SeesEnough D.Disk before seq Core (Ok front) archive.old
        → SeesDump D.Disk before seq first count result archive.new }
    ensures kept { (before : Parts D) → HasSize (state_of before) seq size → SeesEnough D.Disk before seq Core (Ok front) archive.old
        → IfOk result (λ s. IsKept D.Disk archive.new (Some s.kept)) }
    ensures are_kept { IfOk result (λ s. AreKept D.Disk archive.new (Some s.kept)) }
{
    match wanted_range(&front.image, size as u64, first, count) {
        Some(range) => read_window(seq, size, front, range, buffer, archive),
        None => read_rest(seq, size, front, archive),
    }
}

// The first bytes alone of an image of `size` bytes.
fn first_of(front: KeptImage, size: usize) -> Seen
    ensures kept { result.kept ≡ front }
    ensures size { result.size ≡ size }
{
    Seen {
        kept: front,
        size: size as u64,
        part: None,
    }
}

// The part of an image that a line over a core's memory wants, apart from its first bytes.
fn see_more<D: Disk>(
    seq: u32,
    size: usize,
    query: &MemoryQuery,
    front: KeptImage,
    buffer: Vec<u8>,
    archive: &mut Archive<D>,
) -> Result<Seen, ArchiveFault>
    requires has { HasSize (state_of archive.old) seq size }
    requires cut { front.is_whole ≡ false }
    requires short { length front.image.items ≤ size }
    requires buffer { most_for query.now ≤ vec_capacity buffer }
    requires none { buffer.items ≡ [] }
    requires kept { IsKept D.Disk archive.old (Some front) }
    requires are_kept { AreKept D.Disk archive.old (Some front) }
    ensures seen { (before : Parts D) → HasSize (state_of before) seq size → SeesEnough D.Disk before seq Core (Ok front) archive.old
        → SeesFor D.Disk before seq query.now result archive.new }
    ensures kept { (before : Parts D) → HasSize (state_of before) seq size → SeesEnough D.Disk before seq Core (Ok front) archive.old
        → IfOk result (λ s. IsKept D.Disk archive.new (Some s.kept)) }
    ensures are_kept { IfOk result (λ s. AreKept D.Disk archive.new (Some s.kept)) }
{
    match query {
        MemoryQuery::Dump { first, length } => {
            see_range(seq, size, *first, *length, front, buffer, archive)
        }
        MemoryQuery::At { .. } => Ok(first_of(front, size)),
        MemoryQuery::Find { .. } => read_rest(seq, size, front, archive),
        MemoryQuery::Strings { .. } => read_rest(seq, size, front, archive),
        MemoryQuery::Backtrace { thread } => see_stack(seq, size, *thread, front, buffer, archive),
        MemoryQuery::Unwind { .. } => read_rest(seq, size, front, archive),
        MemoryQuery::Lines { .. } => read_rest(seq, size, front, archive),
        MemoryQuery::Frame { .. } => read_rest(seq, size, front, archive),
        MemoryQuery::Builds(_) => read_rest(seq, size, front, archive),
    }
}

// How many bytes of an image a line reads at most after the first of it, if it doesn't read all.
fn most_for(query: &MemoryQuery) -> usize
    ensures { result ≡ most_for query.now }
{
    match query {
        MemoryQuery::Dump { .. } => WINDOW,
        MemoryQuery::At { .. } => 0,
        MemoryQuery::Find { .. } => 0,
        MemoryQuery::Strings { .. } => 0,
        MemoryQuery::Backtrace { .. } => STACK,
        MemoryQuery::Unwind { .. } => 0,
        MemoryQuery::Lines { .. } => 0,
        MemoryQuery::Frame { .. } => 0,
        MemoryQuery::Builds(_) => 0,
    }
}

// As much of an image of `size` bytes as a line over a core's memory wants: its first bytes, as the lines over headers want them,
// and the part that has the bytes of a dump's addresses or of a thread's stack, if it wants one; or all of it.
fn see_parts<D: Disk>(
    alloc: Global,
    seq: u32,
    size: usize,
    query: &MemoryQuery,
    kept: Option<KeptImage>,
    archive: &mut Archive<D>,
) -> Result<Seen, ArchiveFault>
    requires has { HasSize (state_of archive.old) seq size }
    requires kept { IsKept D.Disk archive.old kept }
    requires are_kept { AreKept D.Disk archive.old kept }
    ensures seen { SeesFor D.Disk archive.old seq query.now result archive.new }
    ensures kept { IfOk result (λ s. IsKept D.Disk archive.new (Some s.kept)) }
    ensures are_kept { IfOk result (λ s. AreKept D.Disk archive.new (Some s.kept)) }
{
    let Ok(buffer) = Vec::with_capacity(alloc, most_for(query)) else {
        return Err(ArchiveFault::OutOfMemory);
    };
    let front = see_front(alloc, seq, Want::Core, kept, archive)?;
    if front.is_whole {
        return Ok(all_of(front));
    }
    see_more(seq, size, query, front, buffer, archive)
}

// Whether the first bytes of that case's image are kept.
fn keeps_front(seq: u32, kept: &Option<KeptImage>) -> bool {
    match kept {
        Some(image) => image.seq == seq && !image.is_whole,
        None => false,
    }
}

// Whether a line is answered from the whole image, of which nothing is read yet.
fn reads_all(seq: u32, query: &MemoryQuery, kept: &Option<KeptImage>) -> bool {
    match query {
        MemoryQuery::Dump { .. } => false,
        MemoryQuery::At { .. } => false,
        MemoryQuery::Find { .. } => !keeps_front(seq, kept),
        MemoryQuery::Strings { .. } => !keeps_front(seq, kept),
        MemoryQuery::Backtrace { .. } => false,
        MemoryQuery::Unwind { .. } => !keeps_front(seq, kept),
        MemoryQuery::Lines { .. } => !keeps_front(seq, kept),
        MemoryQuery::Frame { .. } => !keeps_front(seq, kept),
        MemoryQuery::Builds(_) => !keeps_front(seq, kept),
    }
}

// As much of a case's image as a line over a core's memory wants. The kept bytes of that case's image are not read again;
// another image is dropped with its executables.
pub(crate) fn see_memory<D: Disk>(
    alloc: Global,
    seq: u32,
    query: &MemoryQuery,
    kept: Option<KeptImage>,
    archive: &mut Archive<D>,
) -> Result<Seen, ArchiveFault>
    requires kept { IsKept D.Disk archive.old kept }
    requires are_kept { AreKept D.Disk archive.old kept }
    ensures seen { SeesFor D.Disk archive.old seq query.now result archive.new }
    ensures kept { IfOk result (λ s. IsKept D.Disk archive.new (Some s.kept)) }
    ensures are_kept { IfOk result (λ s. AreKept D.Disk archive.new (Some s.kept)) }
{
    if reads_all(seq, query, &kept) {
        return see_whole(seq, kept, archive);
    }
    // If there is no such case, reading the whole image says why.
    let Some(size) = size_of(seq, archive) else {
        return see_whole(seq, None, archive);
    };
    see_parts(alloc, seq, size, query, kept, archive)
}
