// The front of an archive: its shape and the half that is taken, by the first checks of an opening.
ghost use Rattle.std.specs.Prelude.{◌≡◌, true, ℕ, List, ◌+◌, ◌≤◌, length, IfOk, OnOk, IsOkUnless, Ok, Err};
ghost use Rattle.disk_model.specs.Disk.{HasCause, HasRisen};
ghost use Rattle.journal_layout.specs.Layout.{disk_length, IsWithinLimits};
ghost use Rattle.journal_layout.specs.Front.{is_archive, is_known, shape_at, is_shape_of, shape_opening, header_at, generation_fault, taken_half};
ghost use Rattle.case_journal.specs.Viewing.{IsView, Shows, ShowsHeader, ShowsHeaders, ShowsShape, ShowsFront, OnlyReads, FrontIs, header_of};

use byteorder::{ByteOrder, LittleEndian};
use disk_model::Disk;
use journal_layout::{BLOCK, Field, Half, OpenFault, Shape};
use journal_records::GATE_OPEN;

/// The layout's name.
pub(crate) const MAGIC: &[u8; 8] = b"COREKEEP";

/// The layout's version that archives are made with.
pub(crate) const VERSION: u32 = 1;

/// The layout's version that keeps labels.
pub(crate) const LABELS: u32 = 2;

// Whether this version of the layout is read.
fn is_known(version: u32) -> bool
    ensures { result ≡ is_known version }
{
    version == VERSION || version == LABELS
}

// The superblock's gate is open, and the layout's name follows it.
fn is_archive(bytes: &[u8]) -> bool
    requires { 24 ≤ length bytes.now }
    ensures { result ≡ is_archive bytes.now }
{
    bytes[0] == GATE_OPEN && bytes[8..].starts_with(MAGIC)
}

// The shape that a superblock gives.
fn shape_at(bytes: &[u8]) -> Shape
    requires { 24 ≤ length bytes.now }
    ensures { result ≡ shape_at bytes.now }
{
    Shape {
        half_blocks: LittleEndian::read_u32(&bytes[16..]),
        data_blocks: LittleEndian::read_u32(&bytes[20..]),
    }
}

/// Whether the shape lies in its limits and a disk of this length has it.
pub(crate) fn is_shape_of(size: u64, shape: Shape) -> bool
    ensures { result ≡ is_shape_of size shape }
{
    let (half, data) = (u64::from(shape.half_blocks), u64::from(shape.data_blocks));
    1 <= half
        && half <= 4096
        && 1 <= data
        && data <= 16_777_216
        && BLOCK * (1 + 2 * half + data) == size
}

// The shape that a superblock gives, on a disk of this length.
fn read_shape(bytes: &[u8], size: u64) -> Result<Shape, OpenFault>
    requires { 24 ≤ length bytes.now }
    ensures { result ≡ shape_opening size bytes.now }
{
    if !is_archive(bytes) {
        return Err(OpenFault::NotAnArchive);
    }
    let shape = shape_at(bytes);
    if !is_shape_of(size, shape) {
        return Err(OpenFault::Damaged {
            at: 16,
            field: Field::Shape,
        });
    }
    Ok(shape)
}

// The fields of a half's header.
#[derive(Clone, Copy)]
pub(crate) struct HalfHeader {
    is_open: bool,
    version: u32,
    generation: u64,
}

fn header_at(bytes: &[u8]) -> HalfHeader
    requires { 16 ≤ length bytes.now }
    ensures { header_of result ≡ header_at bytes.now }
{
    HalfHeader {
        is_open: bytes[0] == GATE_OPEN,
        version: LittleEndian::read_u32(&bytes[4..]),
        generation: LittleEndian::read_u64(&bytes[8..]),
    }
}

fn generation_fault(shape: Shape, half: Half) -> OpenFault
    requires { IsWithinLimits shape }
    ensures { result ≡ generation_fault shape half }
{
    OpenFault::Damaged {
        at: shape.half_start(half) + 8,
        field: Field::Generation,
    }
}

// The half that is taken: the open one with the greater generation.
fn taken_half(shape: Shape, a: HalfHeader, b: HalfHeader) -> Result<Half, OpenFault>
    requires { IsWithinLimits shape }
    ensures { result ≡ taken_half shape (header_of a) (header_of b) }
{
    if !a.is_open && !b.is_open {
        return Err(OpenFault::Damaged {
            at: BLOCK,
            field: Field::Gate,
        });
    }
    if a.is_open && a.generation == 0 {
        return Err(generation_fault(shape, Half::A));
    }
    if b.is_open && b.generation == 0 {
        return Err(generation_fault(shape, Half::B));
    }
    if a.is_open && b.is_open && a.generation == b.generation {
        return Err(generation_fault(shape, Half::B));
    }
    if a.is_open && (!b.is_open || b.generation < a.generation) {
        return Ok(Half::A);
    }
    Ok(Half::B)
}

/// The shape of an archive, and the half that is taken with the fields of its header.
#[derive(Clone, Copy)]
pub(crate) struct ArchiveFront {
    pub(crate) shape: Shape,
    pub(crate) half: Half,
    pub(crate) version: u32,
    pub(crate) generation: u64,
}

// The front that two headers give: a half is taken, and its version is known.
fn front_of(shape: Shape, a: HalfHeader, b: HalfHeader) -> Result<ArchiveFront, OpenFault>
    requires { IsWithinLimits shape }
    ensures front { FrontIs shape (header_of a) (header_of b) result }
    ensures known { IfOk result (λ t. is_known t.version ≡ true) }
{
    let half = taken_half(shape, a, b)?;
    let header = match half {
        Half::A => a,
        Half::B => b,
    };
    if !is_known(header.version) {
        return Err(OpenFault::UnknownVersion(header.version));
    }
    Ok(ArchiveFront {
        shape,
        half,
        version: header.version,
        generation: header.generation,
    })
}

/// Reads a part of a disk.
pub(crate) fn read_part<D: Disk>(disk: &mut D, at: u64, into: &mut [u8]) -> Result<(), OpenFault>
    requires { at + length into.old ≤ D.size disk.old }
    ensures shows { (b : List ℕ) → IsView D.Disk disk.old b
        → OnOk result (Shows D.Disk disk.new at into.new b) }
    ensures quiet { OnlyReads D.Disk disk.old disk.new }
    ensures only { IsOkUnless result OpenFault.Disk }
    ensures cause { HasCause (D.failures disk.old) (D.failures disk.new) result }
{
    let Ok(()) = disk.read_at(at, into) else {
        return Err(OpenFault::Disk);
    };
    Ok(())
}

// Reads a half's header.
fn read_header<D: Disk>(disk: &mut D, shape: Shape, half: Half) -> Result<HalfHeader, OpenFault>
    requires limits { IsWithinLimits shape }
    requires size { D.size disk.old ≡ disk_length shape }
    ensures shows { (b : List ℕ) → IsView D.Disk disk.old b
        → IfOk result (λ h. ShowsHeader D.Disk disk.new shape half (header_of h) b) }
    ensures quiet { OnlyReads D.Disk disk.old disk.new }
    ensures only { IsOkUnless result OpenFault.Disk }
    ensures cause { HasCause (D.failures disk.old) (D.failures disk.new) result }
{
    let mut bytes = [0; 32];
    read_part(disk, shape.half_start(half), &mut bytes)?;
    Ok(header_at(&bytes))
}

// Reads both halves' headers.
fn read_headers<D: Disk>(disk: &mut D, shape: Shape) -> Result<(HalfHeader, HalfHeader), OpenFault>
    requires limits { IsWithinLimits shape }
    requires size { D.size disk.old ≡ disk_length shape }
    ensures shows { (b : List ℕ) → IsView D.Disk disk.old b
        → IfOk result (λ r. ShowsHeaders D.Disk disk.new shape (header_of r.0) (header_of r.1) b) }
    ensures quiet { OnlyReads D.Disk disk.old disk.new }
    ensures only { IsOkUnless result OpenFault.Disk }
    ensures cause { HasCause (D.failures disk.old) (D.failures disk.new) result }
{
    let a = read_header(disk, shape, Half::A)?;
    let b = read_header(disk, shape, Half::B)?;
    Ok((a, b))
}

// Reads the superblock and its shape.
fn read_superblock<D: Disk>(disk: &mut D) -> Result<Shape, OpenFault>
    ensures shows { (b : List ℕ) → IsView D.Disk disk.old b → ShowsShape D.Disk disk.new result b }
    ensures shape { IfOk result (λ s. IsWithinLimits s × (D.size disk.new ≡ disk_length s)) }
    ensures quiet { OnlyReads D.Disk disk.old disk.new }
    ensures cause { result ≡ Err OpenFault.Disk
        → HasRisen (D.failures disk.old) (D.failures disk.new) }
    ensures later { D.failures disk.old ≤ D.failures disk.new }
{
    let size = disk.length();
    if size < BLOCK {
        return Err(OpenFault::NotAnArchive);
    }
    let mut bytes = [0; 24];
    read_part(disk, 0, &mut bytes)?;
    read_shape(&bytes, size)
}

/// Reads the front of an archive.
pub(crate) fn read_front<D: Disk>(disk: &mut D) -> Result<ArchiveFront, OpenFault>
    ensures shows { (b : List ℕ) → IsView D.Disk disk.old b → ShowsFront D.Disk disk.new result b }
    ensures shape { IfOk result (λ t. IsWithinLimits t.shape × (D.size disk.new ≡ disk_length t.shape)) }
    ensures known { IfOk result (λ t. is_known t.version ≡ true) }
    ensures quiet { OnlyReads D.Disk disk.old disk.new }
    ensures cause { result ≡ Err OpenFault.Disk
        → HasRisen (D.failures disk.old) (D.failures disk.new) }
    ensures later { D.failures disk.old ≤ D.failures disk.new }
{
    let shape = read_superblock(disk)?;
    let (a, b) = read_headers(disk, shape)?;
    front_of(shape, a, b)
}
