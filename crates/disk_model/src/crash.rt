// The bytes of a disk in memory after a crash of the caller's choice.
ghost use Rattle.std.specs.Prelude.{◌≡◌, ◌≢◌, ◌+◌, ◌≤◌, ℕ, List, length, take, drop, IfOk};
ghost use Rattle.disk_model.specs.Places.{overwritten};
ghost use Rattle.disk_model.specs.Notes.{held, stable, Fits, AllFit};
ghost use Rattle.disk_model.specs.Crash.{torn, crashed, struck, replayed, AllWrites};
ghost use Rattle.disk_model.specs.CrashLaws.{FillsBytes};

use crate::mem_disk::overwrite;
use crate::note::Note;
use std::alloc::{AllocError, Global};

/// The part that a crash leaves of each write that no sync has made stable.
#[derive(Clone, Copy, Debug, PartialEq, Eq)]
pub enum Pick {
    /// Nothing of it.
    Nothing,
    /// All its bytes.
    Whole,
    /// The first half of its bytes, rounded down.
    FirstHalf,
    /// This byte throughout its range.
    Fill(u8),
}

// Writes into the bytes the part that the crash leaves of one write.
fn tear(bytes: &mut [u8], at: usize, from: &[u8], pick: Pick)
    requires { at + length from.now ≤ length bytes.old }
    ensures { bytes.new ≡ overwritten bytes.old at (torn pick from.now) }
{
    match pick {
        Pick::Nothing => {}
        Pick::Whole => overwrite(bytes, at, from),
        Pick::FirstHalf => overwrite(bytes, at, &from[..from.len() / 2]),
        Pick::Fill(byte) => bytes[at..at + from.len()].fill(byte),
    }
}

// The same of a note. A sync changes no byte.
fn strike(bytes: &mut [u8], note: &Note, pick: Pick)
    requires { Fits (length bytes.old) note.now }
    ensures { bytes.new ≡ struck pick bytes.old note.now }
{
    if let Note::Wrote(at, from) = note {
        tear(bytes, *at as usize, from, pick);
    }
}

// The same of each of these notes, in order.
fn replay(bytes: &mut [u8], notes: &[Note], pick: Pick)
    requires { AllFit (length bytes.old) notes.now }
    ensures { bytes.new ≡ replayed pick bytes.old notes.now }
{
    for note in notes {
        strike(bytes, note, pick);
    }
}

// How many notes there are up to the last sync, the sync itself among them.
fn synced_count(notes: &[Note]) -> usize
    ensures within { result ≤ length notes.now }
    ensures synced { (first : List ℕ) → held first (take result notes.now) ≡ stable (held first (take result notes.now)).now }
    ensures writes { AllWrites (drop result notes.now) }
{
    let mut count = notes.len();
    while count > 0 {
        if let Note::Synced = notes[count - 1] {
            return count;
        }
        count -= 1;
    }
    0
}

// Writes into the bytes the parts that the crash leaves of all these notes.
fn crash(bytes: &mut [u8], notes: &[Note], pick: Pick)
    requires { AllFit (length bytes.old) notes.now }
    ensures { bytes.new ≡ crashed pick (held bytes.old notes.now) }
{
    let (stable, since) = notes.split_at(synced_count(notes));
    replay(bytes, stable, Pick::Whole);
    replay(bytes, since, pick);
}

// The bytes that the crash leaves of the first ones after all these notes.
pub(crate) fn bytes_after_crash(
    alloc: Global,
    first: &[u8],
    notes: &[Note],
    pick: Pick,
) -> Result<Vec<u8>, AllocError>
    requires { AllFit (length first.now) notes.now }
    ensures bytes { IfOk result (λ bytes. bytes.items ≡ crashed pick (held first.now notes.now)) }
    ensures fills { FillsBytes pick }
{
    let mut bytes = Vec::from_slice(alloc, first)?;
    crash(&mut bytes, notes, pick);
    Ok(bytes)
}
