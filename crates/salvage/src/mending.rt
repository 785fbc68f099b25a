// The replacement of a damaged superblock, of the header of a half, or of a file's length.
ghost use Rattle.std.specs.Prelude.{◌≡◌, ◌↔◌, ◌+◌, ◌*◌, ◌^◌, ◌<◌, ◌≤◌, length, IfOk, IfSome, IsTrue, IsOkUnless, OnOk, Some};
ghost use Rattle.case_journal.specs.Viewing.{IsOpenRefusal};
ghost use Rattle.journal_layout.specs.Layout.{IsWithinLimits, data_start, disk_length};
ghost use Rattle.journal_layout.specs.Stands.{records_area};
ghost use Rattle.journal_layout.specs.declared.shape.Half.{Half};
ghost use Rattle.extents.specs.Runs.{blocks_of};
ghost use Rattle.journal_layout.specs.Case.{case_of};
ghost use Rattle.salvage.specs.declared.mending.Mended.{Mended};
ghost use Rattle.journal_layout.specs.Front.{is_known};
ghost use Rattle.salvage.specs.Mending.{AreBelow, HasLength, HasSecond, IsHeader, IsMend, IsMended, IsSureHalf, IsSureMend, MayBegin, MendsArchive, Spares, blocks_in, is_of_headers, is_of_superblock, padded, said_shape};

use crate::cases_found::{read_front, read_halves};
use crate::doubts::generation_at;
use crate::finding::{GATE_OPEN, is_of_front};
use crate::records::{Read, are_zeros, byte_at, number_at, put, was_open};
use crate::source::Source;
use crate::stretched::Stretched;
use byteorder::{ByteOrder, LittleEndian};
use extents::Run;
use journal_layout::{BLOCK, Entry, Field, Half, OpenFault, Shape};
use std::alloc::Global;

// The name of the layout.
const MAGIC: &[u8; 8] = b"COREKEEP";

// The most blocks of a half, and of the data.
const MOST_HALF: u32 = 4096;

const MOST_DATA: u32 = 16_777_216;

// The layout without labels, and the one with them.
const PLAIN: u32 = 1;

const LABELLED: u32 = 2;

/// The part of an archive's shape that the caller knows.
#[derive(Clone, Copy)]
pub struct ShapeWish {
    /// The blocks of each half of its journal.
    pub half_blocks: Option<u32>,
    /// Its data blocks.
    pub data_blocks: Option<u32>,
}

/// The shape that is assumed for an archive whose opening is refused for its superblock, for the headers of its halves, or for its length.
#[derive(Clone, Copy, PartialEq, Eq)]
pub struct Mend {
    /// Why it is refused.
    pub fault: OpenFault,
    /// The shape.
    pub shape: Shape,
    /// Whether that is the archive's without a doubt, and the headers of the halves are as they were.
    pub(crate) is_sure: bool,
    /// The bytes of the file.
    pub(crate) held: u64,
}

impl Mend {
    /// Whether all blocks of a case are in the file.
    pub(crate) fn holds(&self, entry: &Entry) -> bool
        ensures { IsTrue result → AreBelow (blocks_in self.now.held self.now.shape) (case_of entry.now).blocks }
    {
        let behind = self.held.saturating_sub(self.shape.data_start());
        are_before(entry.runs.runs(), behind / BLOCK)
    }
}

/// A superblock and a journal that replace those of an archive whose opening is refused.
#[derive(Drop)]
pub struct Mended {
    /// The shape that is assumed.
    pub mend: Mend,
    /// The superblock and the journal.
    pub front: Vec<u8>,
    /// The bytes of an archive of that shape.
    pub length: u64,
}

// Reads the bytes from place `at` on; zeros are behind the end.
fn read_some<S: Source>(source: &S, at: u64, into: &mut [u8]) -> Result<(), OpenFault>
    requires { at + length into.old < 2 ^ 64 }
    ensures only { IsOkUnless result OpenFault.Disk }
    ensures bytes { OnOk result (IsTrue (S.is_honest source.now) → into.new ≡ padded (S.seen source.now) at (length into.old)) }
{
    match Stretched::new(source, u64::MAX).read_at(at, into) {
        Ok(()) => Ok(()),
        Err(_) => Err(OpenFault::Disk),
    }
}

// The shape that the superblock says.
fn said_shape<S: Source>(source: &S) -> Result<Shape, OpenFault>
    ensures only { IsOpenRefusal result }
    ensures said { IsTrue (S.is_honest source.now) → IfOk result (λ shape. shape ≡ said_shape (S.seen source.now)) }
{
    let mut bytes = [0u8; 24];
    read_some(source, 0, &mut bytes)?;
    Ok(Shape {
        half_blocks: LittleEndian::read_u32(&bytes[16..]),
        data_blocks: LittleEndian::read_u32(&bytes[20..]),
    })
}

// Whether an archive of this shape has so many bytes.
fn has_length(shape: Shape, bytes: u64) -> bool
    ensures { IsTrue result ↔ HasLength shape bytes }
{
    match shape.length() {
        Ok(length) => length == bytes,
        Err(_) => false,
    }
}

// Whether these bytes are the header of a half that was written, of a version that is known.
fn is_header(bytes: &[u8]) -> bool
    ensures { IsTrue result ↔ IsHeader bytes.now }
{
    are_zeros(bytes, 1, 4)
        && are_zeros(bytes, 16, 32)
        && is_known(number_at(bytes, 4))
        && generation_at(bytes, 0) > 0
}

fn is_known(version: u32) -> bool
    ensures { result ≡ is_known version }
{
    version == PLAIN || version == LABELLED
}

// Whether a record may begin with these bytes.
fn is_head(bytes: &[u8]) -> bool
    ensures { IsTrue result ↔ MayBegin bytes.now }
{
    let length = number_at(bytes, 4);
    was_open(byte_at(bytes, 0))
        && (1..=5).contains(&byte_at(bytes, 1))
        && byte_at(bytes, 2) == 0
        && byte_at(bytes, 3) == 0
        && length >= 16
        && length % 16 == 0
}

// Whether the second half of a journal begins where a first half of `half_blocks` blocks ends: there is a header there, and a record
// after it.
fn is_half<S: Source>(source: &S, half_blocks: u32) -> Result<bool, OpenFault>
    ensures only { IsOpenRefusal result }
    ensures half { IsTrue (S.is_honest source.now) → IfOk result (λ is. IsTrue is ↔ HasSecond (S.seen source.now) half_blocks) }
{
    let mut bytes = [0u8; 40];
    read_some(source, BLOCK * (1 + u64::from(half_blocks)), &mut bytes)?;
    Ok(is_header(&bytes) && is_head(&bytes[32..]))
}

// How many blocks each half has, by the one place where the second one begins; `None` if there is no such place, or more than one.
fn find_half_blocks<S: Source>(source: &S) -> Result<Option<u32>, OpenFault>
    ensures { IsOpenRefusal result }
{
    let mut found = None;
    for blocks in 1..=MOST_HALF {
        if is_half(source, blocks)? {
            if found.is_some() {
                return Ok(None);
            }
            found = Some(blocks);
        }
    }
    Ok(found)
}

// Whether each half has so many blocks without a doubt: the superblock says so and the file's length agrees, or the second half begins
// where the first one ends.
fn is_sure_half<S: Source>(source: &S, said: Shape, blocks: u32) -> Result<bool, OpenFault>
    ensures only { IsOpenRefusal result }
    ensures sure { IsTrue (S.is_honest source.now) → said ≡ said_shape (S.seen source.now)
        → IfOk result (λ is. IsTrue is ↔ IsSureHalf (S.seen source.now) blocks) }
{
    if has_length(said, source.length()) && blocks == said.half_blocks {
        return Ok(true);
    }
    is_half(source, blocks)
}

// How many blocks each half has, and whether that is without a doubt: by the words, by the superblock, or else by where the second half
// begins.
fn half_blocks_of<S: Source>(
    source: &S,
    said: Shape,
    wish: Option<u32>,
) -> Result<Option<(u32, bool)>, OpenFault>
    ensures only { IsOpenRefusal result }
    ensures sure { IsTrue (S.is_honest source.now) → said ≡ said_shape (S.seen source.now)
        → IfOk result (λ found. IfSome found (λ half. IsTrue half.1 ↔ IsSureHalf (S.seen source.now) half.0)) }
{
    let is_said = has_length(said, source.length())
        || (said.half_blocks > 0 && is_half(source, said.half_blocks)?);
    let found = match wish {
        Some(blocks) => Some(blocks),
        None if is_said => Some(said.half_blocks),
        None => find_half_blocks(source)?,
    };
    match found {
        Some(blocks) if 1 <= blocks && blocks <= MOST_HALF => {
            Ok(Some((blocks, is_sure_half(source, said, blocks)?)))
        }
        _ => Ok(None),
    }
}

// How many data blocks a file of so many bytes has, the last one perhaps in part: one at least.
fn blocks_held(bytes: u64, half_blocks: u32) -> u32 {
    let blocks = bytes
        .div_ceil(BLOCK)
        .saturating_sub(1 + 2 * u64::from(half_blocks));
    blocks.clamp(1, u64::from(MOST_DATA)) as u32
}

// Whether these runs lie in so many blocks.
fn are_before(runs: &[Run], blocks: u64) -> bool
    ensures { IsTrue result → AreBelow blocks (blocks_of runs.now) }
{
    for run in runs {
        if u64::from(run.start) + u64::from(run.count) > blocks {
            return false;
        }
    }
    true
}

// The end of the last of these runs.
fn end_of(runs: &[Run]) -> u32 {
    let mut end = 0u32;
    for run in runs {
        end = end.max(run.start.saturating_add(run.count));
    }
    end
}

// How many data blocks the cases have that records store.
fn blocks_wanted(reads: &[Read]) -> u32 {
    let mut most = 0u32;
    for read in reads {
        most = most.max(end_of(read.entry.runs.runs()));
    }
    most
}

// How many data blocks there are: by the words, or else as many as the file has, and those that a record names which reads.
fn data_blocks_of<S: Source>(
    alloc: Global,
    source: &S,
    half_blocks: u32,
    said: Shape,
    wish: Option<u32>,
) -> Result<u32, OpenFault>
    ensures { IsOpenRefusal result }
{
    if let Some(blocks) = wish {
        return Ok(blocks);
    }
    let held = blocks_held(source.length(), half_blocks);
    let most = if said.data_blocks <= MOST_DATA {
        said.data_blocks.max(held)
    } else {
        held
    };
    let shape = Shape {
        half_blocks,
        data_blocks: most,
    };
    let front = read_front(alloc, &Stretched::new(source, u64::MAX), shape)?;
    let scan = read_halves(alloc, &front, shape)?;
    Ok(held.max(blocks_wanted(&scan.reads)))
}

// The version of a half whose own is not known: the one with labels, if a record labels a case.
fn version_by(reads: &[Read]) -> u32 {
    for read in reads {
        if read.label.is_some() {
            return LABELLED;
        }
    }
    PLAIN
}

// The superblock of an archive of this shape, up to the last byte that is looked at.
fn superblock_of(shape: Shape) -> [u8; 24] {
    let mut bytes = [0u8; 24];
    bytes[0] = GATE_OPEN;
    bytes[8..16].copy_from_slice(MAGIC);
    LittleEndian::write_u32(&mut bytes[16..], shape.half_blocks);
    LittleEndian::write_u32(&mut bytes[20..], shape.data_blocks);
    bytes
}

// Puts a version and a generation into the header of a half: its own, unless the one is not known, or the other 0.
fn put_header(front: &mut [u8], start: usize, version: u32)
    requires { start + 32 ≤ length front.old }
    ensures length { length front.new ≡ length front.old }
    ensures spared { Spares start 32 front.old front.new }
{
    let own = number_at(front, start + 4);
    let version = if is_known(own) { own } else { version };
    let generation = generation_at(front, start).max(1);
    put(front, start + 4, &version.to_le_bytes());
    put(front, start + 8, &generation.to_le_bytes());
}

// The same, if the gate of the half is open.
fn mend_header(front: &mut [u8], start: usize, version: u32)
    requires { start + 32 ≤ length front.old }
    ensures length { length front.new ≡ length front.old }
    ensures spared { Spares start 32 front.old front.new }
{
    if byte_at(front, start) == GATE_OPEN {
        put_header(front, start, version);
    }
}

// Puts a superblock of this shape, and repairs the version or the generation in the header of each open half.
fn mend_front(front: &mut [u8], shape: Shape, version: u32)
    requires limits { IsWithinLimits shape }
    requires whole { length front.old ≡ data_start shape }
    ensures length { length front.new ≡ length front.old }
    ensures records { (half : Half) → records_area front.new shape half ≡ records_area front.old shape half }
{
    put(front, 0, &superblock_of(shape));
    mend_header(front, shape.half_start(Half::A) as usize, version);
    mend_header(front, shape.half_start(Half::B) as usize, version);
}

// The superblock and the journal of a file, as those of an archive of this shape.
fn mended_front<S: Source>(
    alloc: Global,
    source: &S,
    shape: Shape,
    bytes: u64,
) -> Result<Vec<u8>, OpenFault>
    requires limits { IsWithinLimits shape }
    requires length { bytes ≡ disk_length shape }
    ensures mended { IsTrue (S.is_honest source.now) → IfOk result (λ front. IsMended (S.seen source.now) shape front.items) }
    ensures long { IfOk result (λ front. length front.items ≡ data_start shape) }
    ensures only { IsOpenRefusal result }
{
    let mut front = read_front(alloc, &Stretched::new(source, bytes), shape)?;
    let scan = read_halves(alloc, &front, shape)?;
    let version = version_by(&scan.reads);
    mend_front(&mut front, shape, version);
    Ok(front)
}

// Whether a fault is that of a superblock, or of a file's length.
fn is_of_superblock(fault: OpenFault) -> bool
    ensures { result ≡ is_of_superblock fault }
{
    match fault {
        OpenFault::NotAnArchive => true,
        OpenFault::Damaged { field, .. } => field == Field::Shape,
        _ => false,
    }
}

// Whether a fault is that of a superblock, of a file's length, or of the header of a half.
fn is_of_headers(fault: OpenFault) -> bool
    ensures { result ≡ is_of_headers fault }
{
    match fault {
        OpenFault::UnknownVersion(_) => true,
        OpenFault::Damaged { field, .. } => is_of_front(field),
        _ => is_of_superblock(fault),
    }
}

/// Finds a shape for an archive whose opening is refused for its superblock, for the headers of its halves, or for its length, and
/// the bytes to read instead of these. The shape is that of the words; else that of the superblock, if the file has its length, or
/// if the second half begins where it says; else that of the only place at which a header and a record stand. There are as many data
/// blocks as the file has, and as the readable records name. Returns nothing if there is no such shape, or if the fault is another.
pub fn find_shape<S: Source>(
    alloc: Global,
    source: &S,
    fault: OpenFault,
    wish: ShapeWish,
) -> Result<Option<Mended>, OpenFault>
    ensures mends { IsTrue (S.is_honest source.now) → IfOk result (MendsArchive (S.seen source.now)) }
    ensures within { IfOk result (λ found. (m : Mended) → found ≡ Some m → length m.front.items ≤ m.length) }
    ensures mend { IfOk result (λ found. (m : Mended) → found ≡ Some m → IsMend (S.size source.now) fault m.mend) }
    ensures sure { IsTrue (S.is_honest source.now) → IfOk result (λ found. (m : Mended) → found ≡ Some m → IsSureMend (S.seen source.now) m.mend) }
    ensures only { IsOpenRefusal result }
{
    if !is_of_headers(fault) {
        return Ok(None);
    }
    let said = said_shape(source)?;
    let Some((half_blocks, is_sure)) = half_blocks_of(source, said, wish.half_blocks)? else {
        return Ok(None);
    };
    let data_blocks = data_blocks_of(alloc, source, half_blocks, said, wish.data_blocks)?;
    let shape = Shape {
        half_blocks,
        data_blocks,
    };
    let Ok(bytes) = shape.length() else {
        return Ok(None);
    };
    let front = mended_front(alloc, source, shape, bytes)?;
    let mend = Mend {
        fault,
        shape,
        is_sure: is_sure && is_of_superblock(fault),
        held: source.length(),
    };
    Ok(Some(Mended {
        mend,
        front,
        length: bytes,
    }))
}
