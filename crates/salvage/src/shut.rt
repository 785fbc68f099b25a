// The gates of an archive that opens, if they are damaged: those of its halves, and the one after its records.
ghost use Rattle.std.specs.Prelude.{◌≡◌, ◌<◌, IsTrue};
ghost use Rattle.journal_layout.specs.Stands.{Stands};
ghost use Rattle.salvage.specs.Shut.{EndsThere, IsByteRead, IsHalfShut, IsLastShut, IsShutAt, IsShutFound, is_shut};

use crate::finding::{GATE_OPEN, not_found, open_shown};
use crate::shown::Patch;
use crate::source::Source;
use case_journal::Journal;
use journal_layout::{Half, OpenFault};
use std::alloc::Global;

/// Whether a gate is damaged: it reads closed, but it is neither 0 nor a 0 of which one bit is another.
pub(crate) fn is_shut(byte: u8) -> bool
    ensures { result ≡ is_shut byte }
{
    !matches!(byte, GATE_OPEN | 0 | 1 | 2 | 4 | 8 | 16 | 32 | 64 | 128)
}

// Reads the byte at a place.
fn read_byte<S: Source>(source: &S, place: u64) -> Result<u8, OpenFault>
    requires { place < S.size source.now }
    ensures { IsTrue (S.is_honest source.now) → IsByteRead (S.seen source.now) place result }
{
    let mut word = [0u8; 1];
    let Ok(()) = source.read_at(place, &mut word) else {
        return Err(OpenFault::Disk);
    };
    Ok(word[0])
}

// Whether the records of an archive end after so many bytes of a half, if the gate at this place is shown open.
fn ends_there<S: Source>(alloc: Global, source: &S, gate: u64, used: u64) -> Result<bool, OpenFault>
    requires { gate < S.size source.now }
    ensures { IsTrue (S.is_honest source.now) → EndsThere (S.seen source.now) gate used result }
{
    let patch = Patch {
        at: gate,
        byte: GATE_OPEN,
    };
    match open_shown(alloc, source, Some(patch)) {
        Ok(journal) => Ok(journal.use_bytes() == used),
        Err(fault) => not_found(fault),
    }
}

// The gate so many bytes after the start of a half, if it is damaged, and the place where the records end that an opening reads.
fn shut_at<S: Source>(
    alloc: Global,
    source: &S,
    start: u64,
    used: u64,
) -> Result<Option<u64>, OpenFault>
    ensures { IsTrue (S.is_honest source.now) → IsShutAt (S.seen source.now) start used result }
{
    let size = source.length();
    if start >= size || used >= size - start {
        return Ok(None);
    }
    let gate = start + used;
    if !is_shut(read_byte(source, gate)?) {
        return Ok(None);
    }
    if ends_there(alloc, source, gate, used)? {
        return Ok(None);
    }
    Ok(Some(gate))
}

// The gate of a half that begins at a place, if it is damaged.
fn half_shut<S: Source>(source: &S, start: u64) -> Result<Option<u64>, OpenFault>
    ensures { IsTrue (S.is_honest source.now) → IsHalfShut (S.seen source.now) start result }
{
    if start >= source.length() {
        return Ok(None);
    }
    if is_shut(read_byte(source, start)?) {
        return Ok(Some(start));
    }
    Ok(None)
}

/// The first damaged gate of an archive that opens: that of a half, or else that after its records.
pub(crate) fn find_shut<S: Source>(
    alloc: Global,
    source: &S,
    first: &Journal,
) -> Result<Option<u64>, OpenFault>
    ensures { IsTrue (S.is_honest source.now) → Stands (S.seen source.now) first.now.standing
        → IsShutFound (S.seen source.now) first.now.standing result }
{
    let shape = first.shape();
    let found = half_shut(source, shape.half_start(Half::A))?;
    if found.is_some() {
        return Ok(found);
    }
    let other = half_shut(source, shape.half_start(Half::B))?;
    if other.is_some() {
        return Ok(other);
    }
    last_shut(alloc, source, first)
}

// The gate after the records of an archive that opens, if it is damaged.
fn last_shut<S: Source>(
    alloc: Global,
    source: &S,
    first: &Journal,
) -> Result<Option<u64>, OpenFault>
    ensures { IsTrue (S.is_honest source.now) → Stands (S.seen source.now) first.now.standing
        → IsLastShut (S.seen source.now) first.now.standing result }
{
    let shape = first.shape();
    let used = first.use_bytes();
    let found = shut_at(alloc, source, shape.half_start(Half::A), used)?;
    if found.is_some() {
        return Ok(found);
    }
    shut_at(alloc, source, shape.half_start(Half::B), used)
}
