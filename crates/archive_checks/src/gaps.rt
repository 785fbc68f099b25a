// Whether the half of a journal that is taken may be the wrong one: the two halves disagree.
ghost use Rattle.std.specs.Prelude.{◌≡◌, IfOk, IsTrue, length};
ghost use Rattle.case_journal.specs.Viewing.{OnlyReads};
ghost use Rattle.disk_model.specs.Places.{part};
ghost use Rattle.journal_layout.specs.Layout.{IsWithinLimits, disk_length, half_start};
ghost use Rattle.journal_layout.specs.Standing.{Standing};
ghost use Rattle.journal_layout.specs.Stands.{Stands, records_area};
ghost use Rattle.archive_checks.specs.Gaps.{IsGapOf, IsHead, IsNext, IsSaid, gap_between};

use byteorder::{ByteOrder, LittleEndian};
use case_journal::{Journal, Opened};
use disk_model::Disk;
use journal_layout::{Half, OpenFault, Shape};
use journal_records::{GATE_OPEN, replay};
use std::alloc::Global;

// The bytes of a half's header.
const HEADER: u64 = 32;

/// A disagreement between the two halves of a journal that no writing leaves.
#[derive(Clone, Copy, PartialEq, Eq)]
pub enum Gap {
    /// Both are open. This one has the lower generation, and that isn't the one before the other's.
    Generation { half: Half, is: u64, wants: u64 },
    /// The records of this one say a greater next number than those that are taken.
    Newer { half: Half, next: u64, taken: u64 },
}

// The header of a half.
#[derive(Clone, Copy)]
struct HalfHead {
    gate: u8,
    version: u32,
    generation: u64,
}

// The content of a half: the generation, and the next number if its gate isn't closed and its records can be read.
#[derive(Clone, Copy)]
struct HalfSaid {
    is_open: bool,
    generation: u64,
    next: Option<u64>,
}

/// The disagreement in the archive on a disk that shows that the half which is taken may be the wrong one, if there is any. If the
/// archive is refused, the opening's fault is returned. The disk is only read.
pub fn find_gap<D: Disk>(alloc: Global, disk: &mut D) -> Result<Option<Gap>, OpenFault>
    ensures gap { IsTrue (D.is_honest disk.old) → (s : Standing) → Stands (D.seen disk.old) s → IfOk result (IsGapOf (D.seen disk.old) s) }
    ensures quiet { OnlyReads D.Disk disk.old disk.new }
{
    let Opened { journal, .. } = Journal::open(alloc, disk)?;
    let shape = journal.shape();
    let a = read_half(alloc, disk, shape, Half::A)?;
    let b = read_half(alloc, disk, shape, Half::B)?;
    Ok(gap_between(a, b, journal.next_seq()))
}

// The disagreement of two halves, if the taken one says this next number.
fn gap_between(a: HalfSaid, b: HalfSaid, taken: u64) -> Option<Gap>
    ensures { result ≡ gap_between a b taken }
{
    let is_a_lower = a.generation < b.generation;
    let half = if is_a_lower { Half::A } else { Half::B };
    let is = if is_a_lower {
        a.generation
    } else {
        b.generation
    };
    let high = if is_a_lower {
        b.generation
    } else {
        a.generation
    };
    if a.is_open && b.is_open && high - is != 1 {
        let wants = high.saturating_sub(1);
        return Some(Gap::Generation { half, is, wants });
    }
    let next = a.next.unwrap_or(0);
    if taken < next {
        let half = Half::A;
        return Some(Gap::Newer { half, next, taken });
    }
    let next = b.next.unwrap_or(0);
    if taken < next {
        let half = Half::B;
        return Some(Gap::Newer { half, next, taken });
    }
    None
}

// Reads the content of a half.
fn read_half<D: Disk>(
    alloc: Global,
    disk: &mut D,
    shape: Shape,
    half: Half,
) -> Result<HalfSaid, OpenFault>
    requires limits { IsWithinLimits shape }
    requires size { D.size disk.old ≡ disk_length shape }
    ensures said { IsTrue (D.is_honest disk.old) → IfOk result (IsSaid (D.seen disk.old) shape half) }
    ensures quiet { OnlyReads D.Disk disk.old disk.new }
{
    let head = read_head(disk, shape, half)?;
    let next = read_next(alloc, disk, shape, half, head)?;
    Ok(HalfSaid {
        is_open: head.gate == GATE_OPEN,
        generation: head.generation,
        next,
    })
}

// Reads the header of a half.
fn read_head<D: Disk>(disk: &mut D, shape: Shape, half: Half) -> Result<HalfHead, OpenFault>
    requires limits { IsWithinLimits shape }
    requires size { D.size disk.old ≡ disk_length shape }
    ensures head { IsTrue (D.is_honest disk.old) → IfOk result (IsHead (part (D.seen disk.old) (half_start shape half) 32)) }
    ensures quiet { OnlyReads D.Disk disk.old disk.new }
{
    let mut bytes = [0; 32];
    let Ok(()) = disk.read_at(shape.half_start(half), &mut bytes) else {
        return Err(OpenFault::Disk);
    };
    Ok(HalfHead {
        gate: bytes[0],
        version: LittleEndian::read_u32(&bytes[4..]),
        generation: LittleEndian::read_u64(&bytes[8..]),
    })
}

// Reads the next number that the records of a half say, unless its gate is closed or a record is bad.
fn read_next<D: Disk>(
    alloc: Global,
    disk: &mut D,
    shape: Shape,
    half: Half,
    head: HalfHead,
) -> Result<Option<u64>, OpenFault>
    requires limits { IsWithinLimits shape }
    requires size { D.size disk.old ≡ disk_length shape }
    ensures next { IsTrue (D.is_honest disk.old) → IfOk result (IsNext shape.data_blocks (records_area (D.seen disk.old) shape half) head.gate head.version) }
    ensures quiet { OnlyReads D.Disk disk.old disk.new }
{
    if head.gate == 0 {
        return Ok(None);
    }
    let at = shape.half_start(half) + HEADER;
    let Ok(mut bytes) = vec![in alloc; 0; (shape.half_length() - HEADER) as usize] else {
        return Err(OpenFault::OutOfMemory);
    };
    let Ok(()) = disk.read_at(at, &mut bytes) else {
        return Err(OpenFault::Disk);
    };
    match replay(alloc, &bytes, at, head.version, shape.data_blocks) {
        Ok(read) => Ok(Some(read.next)),
        Err(OpenFault::Damaged { .. }) => Ok(None),
        Err(fault) => Err(fault),
    }
}
