// A superblock and a journal that say the cases which are chosen.
ghost use Rattle.std.specs.Prelude.{◌≡◌, ◌+◌, ◌<◌, IfOk, length, slice_index};
ghost use Rattle.salvage.specs.Fronts.{flag_byte};

use crate::finding::GATE_OPEN;
use crate::noting::last_of;
use crate::records::{Fate, Read, Span, byte_at, put};
use journal_records::next_record;
use std::alloc::{AllocError, Global};

// The bytes of a block, and so the place of the first half.
const FIRST: usize = 4096;

// The places of the version and of the generation in the header of a half.
const VERSION: usize = 4;

const GENERATION: usize = 8;

const HEADER: usize = 32;

// The place of the pin's flag in a Store record.
const PINNED: usize = 13;

// Puts a record at a place, with its gate open. Returns the place where the next one begins.
fn put_record(front: &mut [u8], at: usize, bytes: &[u8], record: Span) -> usize
    ensures { length front.new ≡ length front.old }
{
    let Some(from) = bytes.get(record.start..record.end) else {
        return at;
    };
    put(front, at, from);
    put(front, at, &[GATE_OPEN]);
    at.saturating_add(from.len())
}

// Puts the Store record of a case at a place, with its pin as it is.
fn put_store(front: &mut [u8], at: usize, bytes: &[u8], read: &Read) -> usize
    ensures long { length front.new ≡ length front.old }
    ensures pinned { at + 13 < length front.old → slice_index front.new (at + 13) ≡ flag_byte read.now.entry.pinned }
{
    let end = put_record(front, at, bytes, read.place);
    let pinned = u8::from(read.entry.pinned);
    put(front, at.saturating_add(PINNED), &[pinned]);
    end
}

// Puts the records of a case at a place.
fn put_case(front: &mut [u8], at: usize, bytes: &[u8], read: &Read) -> usize
    ensures { length front.new ≡ length front.old }
{
    let end = put_store(front, at, bytes, read);
    match read.label {
        // A label of no bytes has no record.
        Some(label) if byte_at(bytes, label.start.saturating_add(12)) > 0 => {
            put_record(front, end, bytes, label)
        }
        _ => end,
    }
}

// Puts the records of the cases that are copied, in the order of their numbers.
fn put_cases(front: &mut [u8], bytes: &[u8], reads: &[Read]) -> usize
    ensures { length front.new ≡ length front.old }
{
    let mut at = FIRST + HEADER;
    for index in 0..reads.len() {
        let read = &reads[reads.len() - 1 - index];
        if read.fate == Fate::Copied {
            at = put_case(front, at, bytes, read);
        }
    }
    at
}

/// Makes the superblock and the journal of an archive that has the cases of those `reads` which are copied. `bytes`
/// are those of the archive up to its data blocks, and `reads` are in the order of their numbers, the highest
/// first. The next number has a record only if it is not the one after the last case: that says it already.
pub(crate) fn make_front(
    alloc: Global,
    bytes: &[u8],
    reads: &[Read],
    version: u32,
    next: u64,
) -> Result<Vec<u8>, AllocError>
    ensures { IfOk result (λ front. length front.items ≡ length bytes.now) }
{
    let mut front = vec![in alloc; 0u8; bytes.len()]?;
    if let Some(superblock) = bytes.get(..FIRST) {
        put(&mut front, 0, superblock);
    }
    put(&mut front, FIRST, &[GATE_OPEN]);
    put(&mut front, FIRST + VERSION, &version.to_le_bytes());
    put(&mut front, FIRST + GENERATION, &1u64.to_le_bytes());
    let end = put_cases(&mut front, bytes, reads);
    if next > u64::from(last_of(reads)) + 1 {
        put(&mut front, end, &next_record(next));
    }
    Ok(front)
}
