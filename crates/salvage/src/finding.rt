// The place of the first bad record of an archive, and the patch with which the archive can be read.
ghost use Rattle.std.specs.Prelude.{◌≡◌, ◌↔◌, ◌+◌, ◌<◌, true, Err, Ok, IfErr, IfOk, IsTrue};
ghost use Rattle.case_journal.specs.Viewing.{Gives};
ghost use Rattle.journal_layout.specs.Layout.{disk_length};
ghost use Rattle.salvage.specs.Finding.{EndsAt, IsGateFound, IsHalfFound, IsLastGate, IsOpened, IsRecordFound, FindsPatch, FindsSight, is_of_front, not_found, patched_within};
ghost use Rattle.salvage.specs.Showing.{IsWithin, shown};

use crate::shown::{Patch, Shown};
use crate::source::Source;
use case_journal::{Journal, Opened};
use journal_layout::{BLOCK, Field, Half, OpenFault};
use std::alloc::Global;

/// The byte of a gate that is open.
pub(crate) const GATE_OPEN: u8 = 0xA5;

// The length of a record is a multiple of 16 bytes, and each place of a gate is one too.
const STEP: u64 = 16;

/// How an archive can be read.
#[derive(Clone, Copy, PartialEq, Eq)]
pub struct Sight {
    /// Why its opening is refused, if it is.
    pub fault: Option<OpenFault>,
    /// The byte that is shown as another, so that the records before the fault open.
    pub patch: Option<Patch>,
}

/// Opens the journal of an archive as it is shown.
pub(crate) fn open_shown<S: Source>(
    alloc: Global,
    source: &S,
    patch: Option<Patch>,
) -> Result<Journal, OpenFault>
    requires { IsWithin (S.size source.now) patch }
    ensures gives { IsTrue (S.is_honest source.now) → Gives result (shown patch (S.seen source.now)) }
    ensures size { IfOk result (λ journal. S.size source.now ≡ disk_length journal.standing.shape) }
{
    let mut view = Shown::new(source, patch);
    let Opened { journal, .. } = Journal::open(alloc, &mut view)?;
    Ok(journal)
}

// Whether the gate after a journal's records may be at this place: that of the one half or of the other.
fn ends_at(journal: &Journal, gate: u64) -> bool
    ensures { IsTrue result ↔ EndsAt journal.now.standing gate }
{
    let shape = journal.shape();
    let used = journal.use_bytes();
    is_behind(shape.half_start(Half::A), used, gate)
        || is_behind(shape.half_start(Half::B), used, gate)
}

// Whether a place lies so many bytes after another.
fn is_behind(start: u64, count: u64, place: u64) -> bool
    ensures { IsTrue result ↔ place ≡ start + count }
{
    start <= place && place - start == count
}

// Whether the records of the taken half end at this place, if the gate there is shown closed.
fn is_gate<S: Source>(alloc: Global, source: &S, gate: u64) -> Result<bool, OpenFault>
    requires { gate < S.size source.now }
    ensures { IsTrue (S.is_honest source.now) → IsGateFound (S.seen source.now) gate result }
{
    let patch = Patch { at: gate, byte: 0 };
    match open_shown(alloc, source, Some(patch)) {
        Ok(journal) => Ok(ends_at(&journal, gate)),
        Err(fault) => not_found(fault),
    }
}

/// Nothing is found if an opening is refused, unless the reason is the memory or the disk.
pub(crate) fn not_found(fault: OpenFault) -> Result<bool, OpenFault>
    ensures { result ≡ not_found fault }
{
    match fault {
        OpenFault::Disk => Err(OpenFault::Disk),
        OpenFault::OutOfMemory => Err(OpenFault::OutOfMemory),
        _ => Ok(false),
    }
}

// The last such place up to a byte.
fn find_gate<S: Source>(alloc: Global, source: &S, at: u64) -> Result<Option<u64>, OpenFault>
    requires { at < S.size source.now }
    ensures within { IfOk result (λ gate. patched_within (S.size source.now) gate) }
    ensures last { IsTrue (S.is_honest source.now) → IsLastGate (S.seen source.now) at result }
{
    let mut left = at / STEP + 1;
    while left > 0 {
        left -= 1;
        if is_gate(alloc, source, STEP * left)? {
            return Ok(Some(STEP * left));
        }
    }
    Ok(None)
}

// The patch that closes the gate of the first bad record, whose
// fault names a byte. Returns the fault if there is no such record.
fn find_record<S: Source>(
    alloc: Global,
    source: &S,
    at: u64,
    fault: OpenFault,
) -> Result<Patch, OpenFault>
    ensures within { IfOk result (λ patch. patch.at < S.size source.now) }
    ensures record { IsTrue (S.is_honest source.now) → IsRecordFound (S.seen source.now) at fault result }
{
    let size = source.length();
    if size == 0 {
        return Err(fault);
    }
    match find_gate(alloc, source, at.min(size - 1))? {
        Some(gate) => Ok(Patch { at: gate, byte: 0 }),
        None => Err(fault),
    }
}

// Whether an archive opens as it is shown so.
fn try_patch<S: Source>(alloc: Global, source: &S, patch: Patch) -> Result<bool, OpenFault>
    ensures within { result ≡ Ok true → patch.at < S.size source.now }
    ensures opens { IsTrue (S.is_honest source.now) → IsOpened (S.seen source.now) patch result }
{
    if patch.at >= source.length() {
        return Ok(false);
    }
    match open_shown(alloc, source, Some(patch)) {
        Ok(_) => Ok(true),
        Err(fault) => not_found(fault),
    }
}

// The start of the second half of the journal, by the superblock.
fn second_half<S: Source>(source: &S) -> Result<u64, OpenFault>
    ensures { IfErr result (λ fault. fault ≡ OpenFault.Disk) }
{
    let mut word = [0u8; 4];
    if source.length() < BLOCK {
        return Ok(0);
    }
    let Ok(()) = source.read_at(16, &mut word) else {
        return Err(OpenFault::Disk);
    };
    Ok(BLOCK * (1 + u64::from(u32::from_le_bytes(word))))
}

// The patch that closes or opens the gate of a half, so that an
// archive opens. Returns the fault if there is no such patch.
fn find_half<S: Source>(alloc: Global, source: &S, fault: OpenFault) -> Result<Patch, OpenFault>
    ensures within { IfOk result (λ patch. patch.at < S.size source.now) }
    ensures half { IsTrue (S.is_honest source.now) → IsHalfFound (S.seen source.now) fault result }
{
    let second = second_half(source)?;
    for patch in half_patches(second) {
        if try_patch(alloc, source, patch)? {
            return Ok(patch);
        }
    }
    Err(fault)
}

// The gates of the halves, each closed, and then each open. If both halves have one generation, the fault is that of the second.
fn half_patches(second: u64) -> [Patch; 4] {
    let closed = 0;
    let open = GATE_OPEN;
    [
        Patch {
            at: second,
            byte: closed,
        },
        Patch {
            at: BLOCK,
            byte: closed,
        },
        Patch {
            at: BLOCK,
            byte: open,
        },
        Patch {
            at: second,
            byte: open,
        },
    ]
}

/// Whether a field is of the superblock or of a half's header.
pub(crate) fn is_of_front(field: Field) -> bool
    ensures { result ≡ is_of_front field }
{
    match field {
        Field::Shape | Field::Gate | Field::Generation => true,
        _ => false,
    }
}

// The patch that lets an archive open which is refused so.
fn find_patch<S: Source>(alloc: Global, source: &S, fault: OpenFault) -> Result<Patch, OpenFault>
    ensures within { IfOk result (λ patch. patch.at < S.size source.now) }
    ensures finds { IsTrue (S.is_honest source.now) → Gives (Err fault) (S.seen source.now) → FindsPatch (S.seen source.now) fault result }
{
    match fault {
        OpenFault::Damaged { at, field } => {
            if is_of_front(field) {
                find_half(alloc, source, fault)
            } else {
                find_record(alloc, source, at, fault)
            }
        }
        OpenFault::UnknownVersion(_) => find_half(alloc, source, fault),
        _ => Err(fault),
    }
}

/// Finds how an archive can be read. A sound archive is read as it is. If the first fault is of a record
/// of the taken half, its gate is shown closed, so that the records before it stand, and nothing else. If
/// it is of the header of a half, the gate of a half is shown closed, or open, so that the archive opens.
/// Returns the fault of the opening if none of that makes it open, `Disk` if the archive can't be read, or
/// `OutOfMemory`.
pub fn find_sight<S: Source>(alloc: Global, source: &S) -> Result<Sight, OpenFault>
    ensures within { IfOk result (λ sight. IsWithin (S.size source.now) sight.patch) }
    ensures finds { IsTrue (S.is_honest source.now) → FindsSight (S.seen source.now) result }
{
    let Err(fault) = open_shown(alloc, source, None) else {
        return Ok(Sight {
            fault: None,
            patch: None,
        });
    };
    let patch = find_patch(alloc, source, fault)?;
    Ok(Sight {
        fault: Some(fault),
        patch: Some(patch),
    })
}
