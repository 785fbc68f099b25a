// Journals that are written anew into their other half by a call, which no call of an archive makes.
use crate::bench::{SHAPE, crashed, formatted, opened, store};
use crate::courses::Course;
use crate::stops::{CUT, Ending, FILLED, check_crashes, check_disk, run};
use case_journal::{Journal, JournalFault};
use disk_model::{Disk, Fuse, MemDisk, Pick};
use intake::Archive;
use journal_layout::OpenFault;
use std::alloc::Global;
use std::process::Abort;
use std::test::Fail;

/// Opens the journal on a disk and writes it anew. Answers whether the disk failed no call.
pub fn is_written_anew<D: Disk>(alloc: Global, disk: &mut D) -> Result<bool, Fail> {
    let mut journal = match Journal::open(alloc, disk) {
        Ok(found) => found.journal,
        Err(OpenFault::Disk) => return Ok(false),
        Err(_) => return Err(Fail::from("the journal was not opened")),
    };
    match journal.compact(disk) {
        Ok(()) => Ok(true),
        Err(JournalFault::Disk) => Ok(false),
        Err(_) => Err(Fail::from("the journal was not written anew")),
    }
}

// Makes all calls of a script.
fn take_course<D: Disk>(archive: &mut Archive<D>, course: Course) -> Result<(), Fail> {
    match run(archive, course)? {
        Ending::Whole => Ok(()),
        Ending::Failed { .. } => Err(Fail::from("the disk failed")),
    }
}

// The disk that a script leaves.
fn left_by(alloc: Global, course: Course) -> Result<MemDisk, Fail> {
    let mut archive = opened(alloc, course.begins(alloc)?)?;
    take_course(&mut archive, course)?;
    Ok(archive.close())
}

// Stops the disk after `limit` calls, those of the opening too, while the journal is written anew. Answers whether it was stopped.
fn is_stopped(alloc: Global, course: Course, begun: &MemDisk, limit: u64) -> Result<bool, Fail> {
    let mut disk = Fuse::new(crashed(begun, Pick::Nothing)?, limit);
    let whole = is_written_anew(alloc, &mut disk)?;
    let calls = disk.calls();
    let left = disk.into_inner();
    if !whole && calls != limit.saturating_add(1) {
        return Err(Fail::from("the disk was called after the stop"));
    }
    let last = course.changes();
    check_crashes(alloc, &left, &CUT, course, last, last)?;
    check_crashes(alloc, &left, &FILLED, course, last, last)?;
    check_disk(alloc, left, course, last, last)?;
    Ok(!whole)
}

// Stops it after each number of calls, up to the first behind which the journal is written anew.
fn stop_everywhere(alloc: Global, course: Course) -> Result<(), Fail> {
    let begun = left_by(alloc, course)?;
    for limit in 0..100 {
        if is_stopped(alloc, course, &begun, limit)? {
            continue;
        }
        if limit < 10 {
            return Err(Fail::from("too few calls were stopped"));
        }
        return Ok(());
    }
    Err(Fail::from("the journal was never written anew"))
}

#[test]
fn a_stop_while_a_journal_is_written_anew_leaves_the_cases(rt: HostRuntime) -> Result<(), Fail> {
    stop_everywhere(rt.alloc(), Course::Streams)?;
    stop_everywhere(rt.alloc(), Course::Anew)?;
    stop_everywhere(rt.alloc(), Course::Deleted)?;
    stop_everywhere(rt.alloc(), Course::Labels)
}

// How many calls of its disk it takes to write a journal anew once it is open.
fn calls_of(alloc: Global, disk: &mut Fuse<MemDisk>) -> Result<u64, Fail> {
    let Ok(found) = Journal::open(alloc, disk) else {
        return Err(Fail::from("the journal was not opened"));
    };
    let mut journal = found.journal;
    let before = disk.calls();
    if journal.compact(disk) != Ok(()) {
        return Err(Fail::from("the journal was not written anew"));
    }
    Ok(disk.calls().saturating_sub(before))
}

// Stores two cases without bytes.
fn with_two_cases(alloc: Global, disk: Fuse<MemDisk>) -> Result<Fuse<MemDisk>, Fail> {
    let mut archive = opened(alloc, disk)?;
    store_two(&mut archive)?;
    Ok(archive.close())
}

fn store_two<D: Disk>(archive: &mut Archive<D>) -> Result<(), Fail> {
    if store(archive, b"a", 1, 0)? != Ok(1) || store(archive, b"b", 2, 0)? != Ok(2) {
        return Err(Fail::from("a case was not stored"));
    }
    Ok(())
}

// The other half's gate is read, and closed and synced if it is open; the header and the record of the next number are
// written, and that of each case, and synced; the gate is opened, and synced.
#[test]
fn the_calls_of_a_compaction_are_few(rt: HostRuntime) -> Result<(), Fail> {
    let alloc = rt.alloc();
    let mut disk = Fuse::new(formatted(alloc, SHAPE)?, u64::MAX);
    // No case and a closed gate; no case and an open gate.
    let first = [calls_of(alloc, &mut disk)?, calls_of(alloc, &mut disk)?];
    assert_eq!(rt; first, [6, 8]);
    let mut disk = with_two_cases(alloc, disk)?;
    assert_eq!(rt; calls_of(alloc, &mut disk)?, 10);
    Ok(())
}
