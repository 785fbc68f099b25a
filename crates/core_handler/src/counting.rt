// The counts of outcomes, in a file beside the archive.
ghost use Rattle.std.specs.Prelude.{◌≡◌, true, false, OnOk};
ghost use Rattle.whole_files.specs.Whole.{IsMade, IsWhole};
ghost use Rattle.core_handler.specs.Counting as spec;

use crate::file_limit::may_grow;
use crate::log::open_to_add;
use crate::outcome_lines::{Place, after};
use handler_files::{Counter, Counts, CountsFault, Reason, counts_path, read_counts};
use std::alloc::{AllocError, Global};
use std::fs::{File, TryLockError};
use std::io::Write;
use std::rt::Files;
use std::time::{Clock, Duration};
use std::{str, thread};
use whole_files::{NewFile, PartFile, clear_part, give_name, make, remove, take_place};

// How often the lock of the counts is tried, and how many milliseconds lie between two tries: five seconds in all.
const TRIES: u32 = 500;

const TRY_MILLIS: u64 = 10;

// Why an outcome is not counted.
#[derive(Clone, Copy, PartialEq, Eq)]
pub(crate) enum Uncounted {
    // The file of the counts can't be read.
    Unread,
    // It has other contents.
    Other,
    // It, or the file that is locked before it, can't be made or written.
    Unwritten,
    // Another process kept it locked.
    Busy,
    // There was no memory.
    OutOfMemory,
}

impl From<CountsFault> for Uncounted {
    fn from(fault: CountsFault) -> Uncounted {
        match fault {
            CountsFault::Unread => Uncounted::Unread,
            CountsFault::Other => Uncounted::Other,
        }
    }
}

impl From<AllocError> for Uncounted {
    fn from(_: AllocError) -> Uncounted {
        Uncounted::OutOfMemory
    }
}

impl Uncounted {
    // In words.
    pub(crate) fn words(self) -> &'static [u8] {
        match self {
            Uncounted::Unread => b"can't be read",
            Uncounted::Other => b"is no file of counts, and stays as it is",
            Uncounted::Unwritten => b"can't be written",
            Uncounted::Busy => b"was locked by another process for five seconds",
            Uncounted::OutOfMemory => b"there is no memory",
        }
    }
}

// The counter for a core that is stored.
pub(crate) fn stored_counter(is_cut: bool) -> Counter
    ensures { result ≡ spec.stored_counter is_cut }
{
    if is_cut {
        Counter::Cut
    } else {
        Counter::Stored
    }
}

// The counter for a core that is not stored, for this reason.
pub(crate) fn unstored_counter(place: Place<'_>, reason: Reason) -> Counter
    ensures { result ≡ spec.unstored_counter place.entry reason }
{
    match place {
        Place::Kept(_) => Counter::Kept,
        Place::Lost(_) => Counter::Lost(reason),
    }
}

// The reason of a refusal, by its first word.
pub(crate) fn reason_in(reason: &[u8]) -> Reason {
    let word = match reason.split(|byte| *byte == b' ').next() {
        Some(word) => word,
        None => reason,
    };
    match str::from_utf8(word) {
        Ok(word) => Reason::of(word),
        Err(_) => Reason::Other,
    }
}

// How many cases were dropped, by the replies.
pub(crate) fn dropped_count(replies: &[u8]) -> u64 {
    let mut count: u64 = 0;
    for line in replies.split(|byte| *byte == b'\n') {
        if after(line, b"dropped ").is_some() {
            count = count.saturating_add(1);
        }
    }
    count
}

// The counts after an outcome, for which so many cases were dropped.
pub(crate) fn counts_after(counts: Option<Counts>, counter: Counter, dropped: u64) -> Counts
    ensures { result.counts ≡ spec.counts_after counts counter dropped }
{
    let counts = match counts {
        Some(counts) => counts,
        None => Counts::none(),
    };
    counts.with(counter, 1).with(Counter::Dropped, dropped)
}

// Counts an outcome in the file beside an archive, and the cases that were dropped for it. The file is read and written anew under the lock of
// another file, which stays: so no count of another process is lost.
pub(crate) fn count<R: Files<File = File> + Clock>(
    rt: &R,
    alloc: Global,
    archive: &str,
    counter: Counter,
    dropped: u64,
) -> Result<(), Uncounted> {
    let path = counts_path(alloc, archive)?;
    let lock = open_lock(rt, alloc, path.as_str())?;
    take_lock(rt, &lock)?;
    let old = read_counts(rt, alloc, path.as_str())?;
    let text = counts_after(old, counter, dropped).text(alloc)?;
    let mut part = PartFile::new(alloc, rt, path.as_str())?;
    if old.is_some() {
        replace_counts(rt, alloc, path.as_str(), &mut part, &text)
    } else {
        make_counts(rt, alloc, &mut part, &text)
    }
}

// The file that is locked while the counts are changed. It has no bytes.
fn open_lock<R: Files<File = File>>(rt: &R, alloc: Global, path: &str) -> Result<File, Uncounted> {
    let mut lock = String::from_str(alloc, path)?;
    lock.push_str(".lock")?;
    open_to_add(rt, lock.as_str()).map_err(|_| Uncounted::Unwritten)
}

// Locks that file. A process that keeps it locked must not keep the handler from ending, so the tries end.
fn take_lock<R: Clock>(rt: &R, lock: &File) -> Result<(), Uncounted> {
    for _ in 0..TRIES {
        match lock.try_lock() {
            Ok(()) => return Ok(()),
            Err(TryLockError::WouldBlock) => {
                thread::sleep(rt, Duration::from_millis(TRY_MILLIS));
            }
            Err(TryLockError::Error(_)) => return Err(Uncounted::Unwritten),
        }
    }
    Err(Uncounted::Busy)
}

// Makes the file of the counts, which was not there.
fn make_counts<'a, R: Files<File = File>>(
    rt: &R,
    alloc: Global,
    part: &mut PartFile<'a, R>,
    text: &[u8],
) -> Result<(), Uncounted>
    ensures whole { OnOk result (IsWhole false (⟦<PartFile<'a, R> as NewFile>⟧.facts part.new)) }
{
    write_part(rt, alloc, part, text)?;
    let Ok(()) = part.sync() else {
        remove(part);
        return Err(Uncounted::Unwritten);
    };
    give_name(part).map_err(|_| Uncounted::Unwritten)
}

// Puts a new file in the place of that of the counts.
fn replace_counts<'a, R: Files<File = File>>(
    rt: &R,
    alloc: Global,
    path: &str,
    part: &mut PartFile<'a, R>,
    text: &[u8],
) -> Result<(), Uncounted>
    ensures whole { OnOk result (IsWhole true (⟦<PartFile<'a, R> as NewFile>⟧.facts part.new)) }
{
    let Ok(old) = File::open(rt, path) else {
        return Err(Uncounted::Unread);
    };
    write_part(rt, alloc, part, text)?;
    take_place(part, &old).map_err(|_| Uncounted::Unwritten)
}

// Writes the text into a new file under PATH.part. A file that an ended process has left there is removed first.
fn write_part<'a, R: Files<File = File>>(
    rt: &R,
    alloc: Global,
    part: &mut PartFile<'a, R>,
    text: &[u8],
) -> Result<(), Uncounted>
    ensures made { OnOk result (IsMade (⟦<PartFile<'a, R> as NewFile>⟧.facts part.new)) }
{
    let Ok(()) = clear_part(part) else {
        return Err(Uncounted::Unwritten);
    };
    let Ok(()) = make(part) else {
        return Err(Uncounted::Unwritten);
    };
    if is_written(rt, alloc, part, text) {
        return Ok(());
    }
    remove(part);
    Err(Uncounted::Unwritten)
}

// Writes the text, and says whether it is written.
fn is_written<'a, R: Files<File = File>>(
    rt: &R,
    alloc: Global,
    part: &PartFile<'a, R>,
    text: &[u8],
) -> bool
    requires unsynced { (⟦<PartFile<'a, R> as NewFile>⟧.facts part.now).is_synced ≡ false }
{
    let Ok(file) = part.writer() else {
        return false;
    };
    let mut file = file;
    may_grow(rt, alloc, file, text.len()) && file.write_all(text).is_ok()
}
