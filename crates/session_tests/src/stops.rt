// Disks that fail at the last call of a session, and the cases that are found after a crash.
use crate::archives::{after, fresh_disk};
use disk_model::{Disk, MemDisk, OneFault, Pick};
use std::alloc::Global;
use std::process::Abort;
use std::test::Fail;

// The output of a session over this script, and the disk that it leaves, if this call of the disk fails. The archive on
// the disk stays as it is: the session is over a copy.
fn stopped(
    alloc: Global,
    disk: &MemDisk,
    call: u64,
    script: &[u8],
) -> Result<(String, OneFault<MemDisk>), Fail> {
    let copy = disk.after_crash(Pick::Nothing)?;
    after(alloc, OneFault::new(copy, call), script)
}

// The same, if the last disk call of the first part of the script fails.
fn stopped_at_last_call(
    alloc: Global,
    disk: &MemDisk,
    first: &[u8],
    script: &[u8],
) -> Result<(String, MemDisk), Fail> {
    let (_, whole) = stopped(alloc, disk, 0, first)?;
    let (text, left) = stopped(alloc, disk, whole.calls(), script)?;
    Ok((text, left.into_inner()))
}

static STORED: &[u8] =
    b"begin exec 0 \\xa5\\xa5\\xa5\\xa5\\xa5\\xa5\\xa5\\xa5\\xa5\\xa5\\xa5\\xa5\\xa5\\xa5\\xa5\\xa5\\xa5\\xa5\\xa5\\xa5\npart 0 5\nhelloend 0\n";

// The disk that is left if its last call fails within the end of that stream.
fn stopped_end(rt: &(impl AllocGlobal + Abort)) -> Result<MemDisk, Fail> {
    let disk = fresh_disk(rt.alloc())?;
    let (text, left) = stopped_at_last_call(rt.alloc(), &disk, STORED, STORED)?;
    assert!(rt; text.ends_with("\nok\nok\nno Disk\n"));
    Ok(left)
}

// A session over this script writes this text, if no call of the disk fails.
fn ends_well(
    rt: &(impl AllocGlobal + Abort),
    disk: &MemDisk,
    script: &[u8],
    wanted: &str,
) -> Result<(), Fail> {
    let (text, _) = stopped(rt.alloc(), disk, 0, script)?;
    assert_eq!(rt; text.as_str(), wanted);
    Ok(())
}

// The disk that is left if the last call fails within another stream, which ends well if no call fails.
fn stopped_next(rt: &(impl AllocGlobal + Abort), disk: &MemDisk) -> Result<MemDisk, Fail> {
    let script = b"begin exec 0 e\nend 0\n";
    ends_well(rt, disk, script, "name e\nok\nstored 1\nok\n")?;
    let (text, left) = stopped_at_last_call(rt.alloc(), disk, script, script)?;
    assert_eq!(rt; text.as_str(), "name e\nok\nno Disk\n");
    Ok(left)
}

// After this crash the archive lists these cases. Answers its disk.
fn lists(
    rt: &(impl AllocGlobal + Abort),
    left: &MemDisk,
    pick: Pick,
    wanted: &str,
) -> Result<MemDisk, Fail> {
    let (text, disk) = after(rt.alloc(), left.after_crash(pick)?, b"list\n")?;
    assert_eq!(rt; text.as_str(), wanted);
    Ok(disk)
}

#[test]
fn a_crash_within_an_end_leaves_the_case_or_none(rt: HostRuntime) -> Result<(), Fail> {
    let left = stopped_end(&rt)?;
    let _ = lists(
        &rt,
        &left,
        Pick::Fill(0xa5),
        "1 exec 5 0 0 0 - \\xa5\\xa5\\xa5\\xa5\\xa5\\xa5\\xa5\\xa5\\xa5\\xa5\\xa5\\xa5\\xa5\\xa5\\xa5\\xa5\\xa5\\xa5\\xa5\\xa5\nok\n",
    )?;
    let disk = lists(&rt, &left, Pick::Fill(0x37), "ok\n")?;
    let left = stopped_next(&rt, &disk)?;
    let _ = lists(&rt, &left, Pick::Fill(0xa5), "1 exec 0 0 0 0 - e\nok\n")?;
    Ok(())
}

// The disk that is left if its last call fails within the deletion of case 1.
fn stopped_deletion(rt: &(impl AllocGlobal + Abort), disk: &MemDisk) -> Result<MemDisk, Fail> {
    let script = b"delete 1\nlist\n";
    let (text, left) = stopped_at_last_call(rt.alloc(), disk, b"delete 1\n", script)?;
    assert_eq!(rt; text.as_str(), "no Disk\nno Stopped\n");
    Ok(left)
}

// The disk of an archive of one executable without bytes.
fn stored(alloc: Global) -> Result<MemDisk, Fail> {
    let (_, disk) = after(alloc, fresh_disk(alloc)?, b"begin exec 0 a\nend 0\n")?;
    Ok(disk)
}

// The cases, and the next one.
static NEXT: &[u8] = b"list\nbegin exec 0 b\nend 0\n";

// A session over the archive on this disk that lists the cases and stores the next one writes this text.
fn goes_on(rt: &(impl AllocGlobal + Abort), disk: MemDisk, wanted: &str) -> Result<(), Fail> {
    let (text, _) = after(rt.alloc(), disk, NEXT)?;
    assert_eq!(rt; text.as_str(), wanted);
    Ok(())
}

#[test]
fn a_fault_within_a_deletion_stops_the_archive(rt: HostRuntime) -> Result<(), Fail> {
    let left = stopped_deletion(&rt, &stored(rt.alloc())?)?;
    goes_on(
        &rt,
        left.after_crash(Pick::Nothing)?,
        "1 exec 0 0 0 0 - a\nok\nname b\nok\nstored 2\nok\n",
    )?;
    goes_on(&rt, left, "ok\nname b\nok\nstored 2\nok\n")
}
