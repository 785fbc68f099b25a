//! Calls that are refused memory. Run as they are these tests meet no refusal; `scripts/fail-alloc archive_tests refused::`
//! refuses each allocation in turn, and then a test that has met one ends in an error of its own.
use crate::bench::{SETTINGS, SHAPE, formatted, fresh, has_image, is_image, opened};
use crate::rows::{Call, OK, Row, answers_on, has_cases, is_free, make};
use case_journal::{Journal, JournalFault};
use disk_model::{Disk, MemDisk};
use intake::{Archive, ArchiveFault};
use journal_layout::OpenFault;
use std::alloc::{AllocError, Global};
use std::process::Abort;
use std::test::Fail;

/// A call that is accepted if there is memory; and the numbers and pins of the cases, and the free blocks, before it.
struct Step {
    call: Call,
    cases: &'static [(u32, bool)],
    free: u32,
}

static STEPS: [Step; 10] = [
    Step {
        call: Call::Store(b"a", 1, 1, 1),
        cases: &[],
        free: 4,
    },
    Step {
        call: Call::Store(b"b", 2, 1, 2),
        cases: &[(1, false)],
        free: 3,
    },
    Step {
        call: Call::Store(b"c", 3, 1, 3),
        cases: &[(1, false), (2, false)],
        free: 2,
    },
    Step {
        call: Call::Pin(1, true),
        cases: &[(1, false), (2, false), (3, false)],
        free: 1,
    },
    Step {
        call: Call::Delete(2),
        cases: &[(1, true), (2, false), (3, false)],
        free: 1,
    },
    // Its two blocks do not adjoin.
    Step {
        call: Call::Store(b"d", 4, 8192, 4),
        cases: &[(1, true), (3, false)],
        free: 2,
    },
    Step {
        call: Call::Keep(2, &[3], false),
        cases: &[(1, true), (3, false), (4, false)],
        free: 0,
    },
    Step {
        call: Call::Begin(7, b"e"),
        cases: &[(1, true), (4, false)],
        free: 1,
    },
    Step {
        call: Call::Upgrade,
        cases: &[(1, true), (4, false)],
        free: 1,
    },
    Step {
        call: Call::Label(4, b"ab"),
        cases: &[(1, true), (4, false)],
        free: 1,
    },
];

/// The call is accepted, the second time if memory was refused: then everything is as before, and no stream is left of
/// one that was to be stored. Returns whether it was refused.
fn is_refused<D: Disk>(
    rt: &impl Abort,
    archive: &mut Archive<D>,
    step: &Step,
) -> Result<bool, Fail> {
    let first = make(archive, &step.call)?;
    if first == OK {
        return Ok(false);
    }
    if first == Err(ArchiveFault::Disk) {
        return Err(Fail::from("the disk in memory found none for a write"));
    }
    assert_eq!(rt; first, Err(ArchiveFault::OutOfMemory));
    assert!(rt; has_cases(archive, step.cases) && is_free(archive, step.free));
    assert_eq!(rt; make(archive, &step.call)?, OK);
    Ok(true)
}

/// The image of case 4 is read, the second time if memory was refused. Returns whether it was.
fn is_image_refused<D: Disk>(rt: &impl Abort, archive: &mut Archive<D>) -> bool {
    match archive.image(4) {
        Ok(bytes) => {
            assert!(rt; is_image(&bytes, 4, 8192));
            false
        }
        Err(fault) => {
            assert_eq!(rt; fault, ArchiveFault::OutOfMemory);
            assert!(rt; has_image(archive, 4, 4, 8192));
            true
        }
    }
}

/// The archive on a disk, which is opened the second time if memory was refused, and whether it was.
fn opened_at_last(
    rt: &(impl AllocGlobal + Abort),
    disk: MemDisk,
) -> Result<(Archive<MemDisk>, bool), Fail> {
    match Archive::open(rt.alloc(), disk, SETTINGS) {
        Ok(archive) => Ok((archive, false)),
        Err((fault, disk)) => {
            assert_eq!(rt; fault, OpenFault::OutOfMemory);
            Ok((opened(rt.alloc(), disk)?, true))
        }
    }
}

/// Each step, and an image. Answers whether one was refused.
fn is_one_refused<D: Disk>(rt: &impl Abort, archive: &mut Archive<D>) -> Result<bool, Fail> {
    let mut refused = false;
    for step in &STEPS {
        refused |= is_refused(rt, archive, step)?;
    }
    refused |= is_image_refused(rt, archive);
    Ok(refused)
}

/// The journal on a disk is written anew, the second time if memory was refused: then it is as before. Returns whether it was.
fn is_compaction_refused(
    rt: &(impl AllocGlobal + Abort),
    disk: &mut MemDisk,
) -> Result<bool, Fail> {
    let Ok(found) = Journal::open(rt.alloc(), disk) else {
        return Err(Fail::from("the journal was not opened"));
    };
    let mut journal = found.journal;
    let used = journal.use_bytes();
    match journal.compact(disk) {
        Ok(()) => Ok(false),
        Err(JournalFault::Disk) => Err(Fail::from("the disk in memory found none for a write")),
        Err(fault) => {
            assert_eq!(rt;
                (fault, journal.use_bytes()),
                (JournalFault::OutOfMemory, used)
            );
            assert_eq!(rt; journal.compact(disk), Ok(()));
            Ok(true)
        }
    }
}

#[test]
fn a_refused_call_is_made_the_next_time(rt: HostRuntime) -> Result<(), Fail> {
    if is_life_refused(&rt, formatted(rt.alloc(), SHAPE)?)? {
        Err("a call was refused, and accepted the next time")?;
    }
    Ok(())
}

/// An opening, each step, the journal written anew, and another opening. Answers whether one was refused.
fn is_life_refused(rt: &(impl AllocGlobal + Abort), disk: MemDisk) -> Result<bool, Fail> {
    let (steps, mut disk) = are_steps_refused(rt, disk)?;
    let anew = is_compaction_refused(rt, &mut disk)?;
    Ok(is_opening_refused(rt, disk)? || anew || steps)
}

/// An opening and each step. Answers the disk too.
fn are_steps_refused(
    rt: &(impl AllocGlobal + Abort),
    disk: MemDisk,
) -> Result<(bool, MemDisk), Fail> {
    let (mut archive, first) = opened_at_last(rt, disk)?;
    let refused = is_one_refused(rt, &mut archive)?;
    Ok((refused || first, archive.close()))
}

/// An opening after the steps.
fn is_opening_refused(rt: &(impl AllocGlobal + Abort), disk: MemDisk) -> Result<bool, Fail> {
    let (archive, refused) = opened_at_last(rt, disk)?;
    assert!(rt; has_cases(&archive, &[(1, true), (4, false)]) && is_free(&archive, 1));
    Ok(refused)
}

/// From here on `scripts/fail-alloc` refuses all memory in a run of its own: it knows the place by the size that is asked for.
pub fn no_memory_from_here(alloc: Global) -> Result<(), AllocError> {
    let _mark: Vec<u8> = Vec::with_capacity(alloc, 54_321)?;
    Ok(())
}

static A_CASE_AND_A_STREAM: [Row; 4] = [
    (Call::Store(b"a", 1, 5, 1), OK),
    (Call::Pin(1, true), OK),
    (Call::Begin(7, b"b"), OK),
    (Call::Put(7, 2, 0, 4096), OK),
];

static WITHOUT_MEMORY: [Row; 8] = [
    (Call::Put(7, 2, 4096, 8191), OK),
    (Call::Pin(1, true), OK),
    (Call::Pin(2, true), Err(ArchiveFault::NoCase)),
    (Call::Delete(1), Err(ArchiveFault::Pinned)),
    (Call::Free(2), OK),
    (Call::Abandon(7), OK),
    (Call::Free(3), OK),
    (Call::Cases(&[(1, true)]), OK),
];

#[test]
fn bytes_looks_and_refusals_take_no_memory(rt: HostRuntime) -> Result<(), Fail> {
    let mut archive = fresh(rt.alloc())?;
    answer_without_memory(&rt, &mut archive)
}

fn answer_without_memory<D: Disk>(
    rt: &(impl AllocGlobal + Abort),
    archive: &mut Archive<D>,
) -> Result<(), Fail> {
    answers_on(rt, archive, &A_CASE_AND_A_STREAM)?;
    no_memory_from_here(rt.alloc())?;
    answers_on(rt, archive, &WITHOUT_MEMORY)
}

#[test]
fn looks_at_a_journal_take_no_memory(rt: HostRuntime) -> Result<(), Fail> {
    let mut disk = formatted(rt.alloc(), SHAPE)?;
    let Ok(found) = Journal::open(rt.alloc(), &mut disk) else {
        return Err(Fail::from("the journal was not opened"));
    };
    no_memory_from_here(rt.alloc())?;
    let journal = &found.journal;
    assert_eq!(rt; (journal.next_seq(), journal.use_bytes()), (1, 32));
    assert!(rt; journal.entries().is_empty() && journal.shape() == SHAPE);
    Ok(())
}
