// Calls in a row, each with its expected answer.
use crate::bench::{begin, label, put, store};
use disk_model::Disk;
use intake::{Archive, ArchiveFault, Space};
use retention::Policy;
use std::process::Abort;
use std::test::Fail;

/// A call, or a look at the cases. Images are executables, whose bytes a seed determines.
#[derive(Clone, Copy)]
pub enum Call {
    /// A stream begins in the slot, with this name.
    Begin(u8, &'static [u8]),
    /// The stream in the slot takes the bytes of the seed from the one place up to the other.
    Put(u8, u8, u64, u64),
    /// The stream in the slot is dropped.
    Abandon(u8),
    /// An image of this name, seed and length becomes the case of this number.
    Store(&'static [u8], u8, u64, u32),
    /// The case of this number is pinned or not.
    Pin(u32, bool),
    /// The case of this number ends.
    Delete(u32),
    /// The case of this number gets the label.
    Label(u32, &'static [u8]),
    /// The archive is brought to version 2 of the layout.
    Upgrade,
    /// If at most this number of cases is to stay, these end; and whether the limit does not hold even then.
    Keep(u64, &'static [u32], bool),
    /// This number of the four data blocks is free.
    Free(u32),
    /// These are the numbers and the pins of the cases.
    Cases(&'static [(u32, bool)]),
}

/// A call with its answer.
pub type Row = (Call, Result<(), ArchiveFault>);

/// The answer of a call that is not refused.
pub const OK: Result<(), ArchiveFault> = Ok(());

// The answer of a look.
fn seen(stands: bool) -> Result<Result<(), ArchiveFault>, Fail> {
    if stands {
        Ok(Ok(()))
    } else {
        Err(Fail::from("something else stands there"))
    }
}

// The answer of a call that gives a number.
fn numbered(answer: Result<u32, ArchiveFault>, seq: u32) -> Result<Result<(), ArchiveFault>, Fail> {
    match answer {
        Ok(number) if number == seq => Ok(Ok(())),
        Ok(_) => Err(Fail::from("the case has another number")),
        Err(fault) => Ok(Err(fault)),
    }
}

// Retires these cases.
fn keep<D: Disk>(
    archive: &mut Archive<D>,
    count: u64,
    dropped: &[u32],
    unmet: bool,
) -> Result<Result<(), ArchiveFault>, Fail> {
    let policy = Policy {
        keep: Some(count),
        bytes: None,
        before: None,
    };
    match archive.retire(&policy) {
        Ok(decision) => seen(decision.dropped.as_slice() == dropped && decision.unmet == unmet),
        Err(fault) => Ok(Err(fault)),
    }
}

/// Whether these are the numbers and the pins of the cases.
pub fn has_cases<D: Disk>(archive: &Archive<D>, cases: &[(u32, bool)]) -> bool {
    let Ok(entries) = archive.cases() else {
        return false;
    };
    if entries.len() != cases.len() {
        return false;
    }
    for (entry, (seq, pinned)) in entries.iter().zip(cases) {
        if entry.seq != *seq || entry.pinned != *pinned {
            return false;
        }
    }
    true
}

/// Whether `free` of the four data blocks are free.
pub fn is_free<D: Disk>(archive: &Archive<D>, free: u32) -> bool {
    archive.free_blocks()
        == Ok(Space {
            free,
            data_blocks: 4,
        })
}

/// Makes the call.
pub fn make<D: Disk>(
    archive: &mut Archive<D>,
    call: &Call,
) -> Result<Result<(), ArchiveFault>, Fail> {
    match call {
        Call::Begin(slot, name) => begin(archive, *slot, name),
        Call::Put(slot, seed, from, end) => Ok(put(archive, *slot, *seed, *from, *end)),
        Call::Abandon(slot) => Ok(archive.abandon(*slot)),
        Call::Store(name, seed, length, seq) => {
            numbered(store(archive, name, *seed, *length)?, *seq)
        }
        Call::Pin(seq, flag) => Ok(archive.pin(*seq, *flag)),
        Call::Delete(seq) => Ok(archive.delete(*seq)),
        Call::Label(seq, text) => label(archive, *seq, text),
        Call::Upgrade => Ok(archive.upgrade()),
        Call::Keep(count, dropped, unmet) => keep(archive, *count, dropped, *unmet),
        Call::Free(free) => seen(is_free(archive, *free)),
        Call::Cases(cases) => seen(has_cases(archive, cases)),
    }
}

/// Makes the calls up to the first that answers something else. Answers how many were made before it.
pub fn follow<D: Disk>(archive: &mut Archive<D>, rows: &[Row]) -> Result<usize, Fail> {
    for (place, (call, answer)) in rows.iter().enumerate() {
        if make(archive, call)? != *answer {
            return Ok(place);
        }
    }
    Ok(rows.len())
}

/// Each call gives the answer in its row.
pub fn answers_on<D: Disk>(
    rt: &impl Abort,
    archive: &mut Archive<D>,
    rows: &[Row],
) -> Result<(), Fail> {
    assert_eq!(rt; follow(archive, rows)?, rows.len());
    Ok(())
}
