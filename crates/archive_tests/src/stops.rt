// Stops and faults at each disk call of five scripts, and the cases that the archive shows once it is opened again.
use crate::bench::{
    SETTINGS, begin, crashed, has_image, is_image, label, name_of, opened, put, put_nothing, store,
};
use crate::compactions::is_written_anew;
use crate::courses::Course;
use crate::script::{Image, SHAPE, State, Step, image_of};
use disk_model::{Disk, Fuse, MemDisk, OneFault, Pick};
use intake::{Archive, ArchiveFault};
use journal_layout::{Entry, OpenFault};
use retention::Policy;
use std::alloc::Global;
use std::process::Abort;
use std::test::Fail;

/// Of the bytes that were written since the last sync no byte is left, or the first of them, or all of them.
pub static CUT: [Pick; 3] = [Pick::Nothing, Pick::FirstHalf, Pick::Whole];

/// In its place are the bytes of open gates, or others.
pub static FILLED: [Pick; 2] = [Pick::Fill(0xa5), Pick::Fill(0x37)];

// Begins the stream of an image.
fn begin_image<D: Disk>(
    archive: &mut Archive<D>,
    slot: u8,
    image: &Image,
) -> Result<Result<(), ArchiveFault>, Fail> {
    let name = name_of(image.name)?;
    Ok(archive.begin(slot, image.kind, name, image.pid, image.signal, image.time))
}

// Ends the stream in a slot, which becomes the case of this number.
fn finish<D: Disk>(
    archive: &mut Archive<D>,
    slot: u8,
    seq: u32,
) -> Result<Result<(), ArchiveFault>, Fail> {
    match archive.finish(slot) {
        Ok(number) if number == seq => Ok(Ok(())),
        Ok(_) => Err(Fail::from("the case has another number")),
        Err(fault) => Ok(Err(fault)),
    }
}

// Reads the image of a case.
fn read<D: Disk>(
    archive: &mut Archive<D>,
    seq: u32,
    image: &Image,
) -> Result<Result<(), ArchiveFault>, Fail> {
    match archive.image(seq) {
        Ok(bytes) if is_image(&bytes, image.seed, image.length) => Ok(Ok(())),
        Ok(_) => Err(Fail::from("the case has another image")),
        Err(fault) => Ok(Err(fault)),
    }
}

// Retires these cases.
fn retire<D: Disk>(
    archive: &mut Archive<D>,
    policy: &Policy,
    dropped: &[u32],
) -> Result<Result<(), ArchiveFault>, Fail> {
    match archive.retire(policy) {
        Ok(decision) if decision.dropped.as_slice() == dropped && !decision.unmet => Ok(Ok(())),
        Ok(_) => Err(Fail::from("other cases were retired")),
        Err(fault) => Ok(Err(fault)),
    }
}

// Makes the call.
fn take<D: Disk>(archive: &mut Archive<D>, step: &Step) -> Result<Result<(), ArchiveFault>, Fail> {
    match step {
        Step::Begin(slot, image) => begin_image(archive, *slot, image_of(*image)),
        Step::Put(slot, image, from, end) => {
            Ok(put(archive, *slot, image_of(*image).seed, *from, *end))
        }
        Step::Abandon(slot) => Ok(archive.abandon(*slot)),
        Step::Read(seq, image) => read(archive, *seq, image_of(*image)),
        Step::Finish(slot, seq) => finish(archive, *slot, *seq),
        Step::Pin(seq, flag) => Ok(archive.pin(*seq, *flag)),
        Step::Delete(seq) => Ok(archive.delete(*seq)),
        Step::Label(seq, text) => label(archive, *seq, text),
        Step::Upgrade => Ok(archive.upgrade()),
        Step::Retire(policy, dropped) => retire(archive, policy, dropped),
    }
}

/// How a run of the script ended.
#[derive(Clone, Copy)]
pub enum Ending {
    /// All calls were made.
    Whole,
    /// The disk failed: how many calls that change the cases were answered before, and how many there are with the one
    /// that failed.
    Failed { before: usize, after: usize },
}

/// Makes the calls up to the first that the disk fails.
pub fn run<D: Disk>(archive: &mut Archive<D>, course: Course) -> Result<Ending, Fail> {
    let mut done = 0usize;
    for step in course.steps() {
        let after = done.saturating_add(usize::from(step.changes()));
        match take(archive, step)? {
            Ok(()) => done = after,
            Err(ArchiveFault::Disk) => {
                return Ok(Ending::Failed {
                    before: done,
                    after,
                });
            }
            Err(_) => return Err(Fail::from("another fault")),
        }
    }
    Ok(Ending::Whole)
}

// Whether the entry is of the image.
fn is_of(entry: &Entry, image: &Image) -> bool {
    entry.kind == image.kind
        && entry.name.as_slice() == image.name
        && entry.pid == image.pid
        && entry.signal == image.signal
        && entry.time == image.time
        && entry.length == image.length
}

// Whether these are the cases.
fn are_cases(entries: &[Entry], cases: &[(u32, u8, bool)]) -> bool {
    if entries.len() != cases.len() {
        return false;
    }
    for (entry, (seq, image, pinned)) in entries.iter().zip(cases) {
        if entry.seq != *seq || entry.pinned != *pinned || !is_of(entry, image_of(*image)) {
            return false;
        }
    }
    true
}

// The label of a case.
fn label_of(labels: &[(u32, &'static [u8])], seq: u32) -> &'static [u8] {
    for (number, label) in labels {
        if *number == seq {
            return label;
        }
    }
    b""
}

// Whether the cases have these labels, and the others none.
fn have_labels(entries: &[Entry], labels: &[(u32, &'static [u8])]) -> bool {
    for entry in entries {
        if entry.label.as_slice() != label_of(labels, entry.seq) {
            return false;
        }
    }
    true
}

// Whether the cases have their images.
fn have_images<D: Disk>(archive: &mut Archive<D>, cases: &[(u32, u8, bool)]) -> bool {
    for (seq, number, _) in cases {
        let image = image_of(*number);
        if !has_image(archive, *seq, image.seed, image.length) {
            return false;
        }
    }
    true
}

// The blocks that no case has, of all.
fn free_without(cases: &[(u32, u8, bool)]) -> u64 {
    let mut free = u64::from(SHAPE.data_blocks);
    for (_, image, _) in cases {
        free = free.saturating_sub(image_of(*image).length.div_ceil(4096));
    }
    free
}

// Whether the archive shows this state, if no stream is open.
fn shows<D: Disk>(archive: &mut Archive<D>, state: &State) -> bool {
    let Ok(space) = archive.free_blocks() else {
        return false;
    };
    let Ok(entries) = archive.cases() else {
        return false;
    };
    space.data_blocks == SHAPE.data_blocks
        && u64::from(space.free) == free_without(state.cases)
        && are_cases(entries, state.cases)
        && have_labels(entries, state.labels)
        && archive.version() == Ok(state.version)
        && have_images(archive, state.cases)
}

// Whether the archive shows the state after `done` changes. It then gives the next case the number that follows those
// given before.
fn is_after<D: Disk>(archive: &mut Archive<D>, course: Course, done: usize) -> Result<bool, Fail> {
    let Some(state) = course.states().get(done) else {
        return Err(Fail::from("there is no such state"));
    };
    if !shows(archive, state) {
        return Ok(false);
    }
    if store(archive, b"z", 1, 0)? != Ok(state.next) {
        return Err(Fail::from("the next case has another number"));
    }
    Ok(true)
}

/// Opens the archive, which shows the state after one of these numbers of changes.
pub fn check_disk(
    alloc: Global,
    disk: MemDisk,
    course: Course,
    before: usize,
    after: usize,
) -> Result<(), Fail> {
    let mut archive = opened(alloc, disk)?;
    check_archive(&mut archive, course, before, after)
}

// The archive shows the state after one of these numbers of changes.
fn check_archive<D: Disk>(
    archive: &mut Archive<D>,
    course: Course,
    before: usize,
    after: usize,
) -> Result<(), Fail> {
    if is_after(archive, course, before)? || is_after(archive, course, after)? {
        return Ok(());
    }
    Err(Fail::from("the archive shows neither state"))
}

/// The same for the disks that each of these crashes leaves.
pub fn check_crashes(
    alloc: Global,
    disk: &MemDisk,
    picks: &[Pick],
    course: Course,
    before: usize,
    after: usize,
) -> Result<(), Fail> {
    for pick in picks {
        check_disk(alloc, crashed(disk, *pick)?, course, before, after)?;
    }
    Ok(())
}

// Whether each call on the slot is refused, and nothing is lent.
fn is_slot_stopped<D: Disk>(archive: &mut Archive<D>, slot: u8) -> Result<bool, Fail> {
    let stopped = Err(ArchiveFault::Stopped);
    let begun = begin(archive, slot, b"z")?;
    let (lent, room) = archive.room(slot);
    let lends = !room.is_empty();
    let taken = put_nothing(archive, slot);
    let finished = archive.finish(slot) == Err(ArchiveFault::Stopped);
    let abandoned = archive.abandon(slot);
    Ok(
        !lends
            && begun == stopped
            && lent == stopped
            && taken == stopped
            && finished
            && abandoned == stopped,
    )
}

// Whether each call on the case is refused.
fn is_case_stopped<D: Disk>(archive: &mut Archive<D>, seq: u32) -> bool {
    archive.image(seq) == Err(ArchiveFault::Stopped)
        && archive.pin(seq, true) == Err(ArchiveFault::Stopped)
        && archive.pin(seq, false) == Err(ArchiveFault::Stopped)
        && archive.delete(seq) == Err(ArchiveFault::Stopped)
        && archive.label(seq, b"x") == Err(ArchiveFault::Stopped)
}

// Whether each call is refused.
fn is_stopped<D: Disk>(archive: &mut Archive<D>) -> Result<bool, Fail> {
    let policy = Policy {
        keep: Some(0),
        bytes: None,
        before: None,
    };
    let mut stopped = archive.is_stopped()
        && archive.cases().err() == Some(ArchiveFault::Stopped)
        && archive.free_blocks() == Err(ArchiveFault::Stopped)
        && archive.version() == Err(ArchiveFault::Stopped)
        && archive.upgrade() == Err(ArchiveFault::Stopped)
        && archive.retire(&policy).err() == Some(ArchiveFault::Stopped);
    for slot in 0..9 {
        stopped = stopped && is_slot_stopped(archive, slot)?;
    }
    for seq in 0..11 {
        stopped = stopped && is_case_stopped(archive, seq);
    }
    Ok(stopped)
}

// Makes the calls up to the first that the disk fails, which stops the archive.
fn run_to_stop<D: Disk>(archive: &mut Archive<D>, course: Course) -> Result<Ending, Fail> {
    let ending = run(archive, course)?;
    if matches!(ending, Ending::Failed { .. }) && !is_stopped(archive)? {
        return Err(Fail::from("the fault did not stop the archive"));
    }
    Ok(ending)
}

// The same once the archive of a disk is opened, and the disk may fail too. Returns the disk.
fn open_and_run<D: Disk + Drop>(
    alloc: Global,
    disk: D,
    course: Course,
) -> Result<(Ending, D), Fail> {
    match Archive::open(alloc, disk, SETTINGS) {
        Ok(mut archive) => {
            let ending = run_to_stop(&mut archive, course)?;
            Ok((ending, archive.close()))
        }
        Err((OpenFault::Disk, disk)) => {
            let ending = Ending::Failed {
                before: 0,
                after: 0,
            };
            Ok((ending, disk))
        }
        Err(_) => Err(Fail::from("the archive was not opened")),
    }
}

// Stops the disk after `limit` calls, with these crashes. Returns how many changes were answered, or `None` if nothing
// was stopped.
fn stop_after(
    alloc: Global,
    course: Course,
    begun: &MemDisk,
    limit: u64,
    picks: &[Pick],
) -> Result<Option<usize>, Fail> {
    let disk = Fuse::new(crashed(begun, Pick::Nothing)?, limit);
    let (ending, disk) = open_and_run(alloc, disk, course)?;
    let calls = disk.calls();
    let left = disk.into_inner();
    match ending {
        Ending::Whole => {
            let all = course.changes();
            check_crashes(alloc, &left, picks, course, all, all)?;
            Ok(None)
        }
        Ending::Failed { before, after } => {
            if calls != limit.saturating_add(1) {
                return Err(Fail::from("the disk was called after the stop"));
            }
            check_crashes(alloc, &left, picks, course, before, after)?;
            Ok(Some(before))
        }
    }
}

// Stops the disk after each number of calls, with these crashes. Each
// call that changes the cases is stopped somewhere, and none is skipped.
fn stop_everywhere(alloc: Global, course: Course, picks: &[Pick]) -> Result<(), Fail> {
    let begun = course.begins(alloc)?;
    let mut last = 0usize;
    for limit in 0..1000 {
        let Some(done) = stop_after(alloc, course, &begun, limit, picks)? else {
            if last.saturating_add(1) != course.changes() {
                return Err(Fail::from("the last change was not stopped"));
            }
            return Ok(());
        };
        if done != last && done != last.saturating_add(1) {
            return Err(Fail::from("a change was passed over"));
        }
        last = done;
    }
    Err(Fail::from("the script never came to its end"))
}

#[test]
fn a_stop_with_cut_writes_leaves_the_cases_from_before_or_after(
    rt: HostRuntime,
) -> Result<(), Fail> {
    stop_everywhere(rt.alloc(), Course::Streams, &CUT)
}

#[test]
fn a_stop_with_filled_writes_leaves_the_cases_from_before_or_after(
    rt: HostRuntime,
) -> Result<(), Fail> {
    stop_everywhere(rt.alloc(), Course::Streams, &FILLED)
}

#[test]
fn a_stop_while_the_journal_is_written_anew_leaves_the_cases_from_before_or_after(
    rt: HostRuntime,
) -> Result<(), Fail> {
    for course in [Course::Anew, Course::Pinned, Course::Deleted] {
        stop_everywhere(rt.alloc(), course, &CUT)?;
        stop_everywhere(rt.alloc(), course, &FILLED)?;
    }
    Ok(())
}

#[test]
fn a_stop_within_an_upgrade_or_a_label_leaves_the_cases_from_before_or_after(
    rt: HostRuntime,
) -> Result<(), Fail> {
    stop_everywhere(rt.alloc(), Course::Labels, &CUT)?;
    stop_everywhere(rt.alloc(), Course::Labels, &FILLED)
}

// Fails this call of the disk alone, and then has the journal written anew.
// Returns how many changes were answered, or `None` if nothing failed.
fn fault_at(
    alloc: Global,
    course: Course,
    begun: &MemDisk,
    call: u64,
) -> Result<Option<usize>, Fail> {
    let disk = OneFault::new(crashed(begun, Pick::Nothing)?, call);
    let (ending, disk) = open_and_run(alloc, disk, course)?;
    let Ending::Failed { before, after } = ending else {
        return Ok(None);
    };
    if disk.calls() != call {
        return Err(Fail::from("the disk was called after the fault"));
    }
    let mut left = disk.into_inner();
    check_disk(alloc, crashed(&left, Pick::Whole)?, course, before, after)?;
    if !is_written_anew(alloc, &mut left)? {
        return Err(Fail::from("the disk failed once more"));
    }
    check_disk(alloc, left, course, before, after)?;
    Ok(Some(before))
}

// Each call fails alone, and none of the changes is skipped.
fn fault_everywhere(rt: &(impl AllocGlobal + Abort), course: Course) -> Result<(), Fail> {
    let begun = course.begins(rt.alloc())?;
    let mut last = 0usize;
    for call in 1..1000 {
        let Some(done) = fault_at(rt.alloc(), course, &begun, call)? else {
            assert_eq!(rt; last.saturating_add(1), course.changes());
            return Ok(());
        };
        assert!(rt;
            done == last || done == last.saturating_add(1),
            "{done} changes at call {call}"
        );
        last = done;
    }
    Err(Fail::from("the script never came to its end"))
}

#[test]
fn a_fault_stops_the_archive(rt: HostRuntime) -> Result<(), Fail> {
    fault_everywhere(&rt, Course::Streams)
}

#[test]
fn a_fault_while_the_journal_is_written_anew_stops_the_archive(
    rt: HostRuntime,
) -> Result<(), Fail> {
    for course in [Course::Anew, Course::Pinned, Course::Deleted] {
        fault_everywhere(&rt, course)?;
    }
    Ok(())
}

#[test]
fn a_fault_within_an_upgrade_or_a_label_stops_the_archive(rt: HostRuntime) -> Result<(), Fail> {
    fault_everywhere(&rt, Course::Labels)
}
