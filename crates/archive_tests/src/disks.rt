// A disk in memory before and after crashes, a disk with a cache, and maps of free blocks.
use crate::bench::crashed;
use crate::refused::no_memory_from_here;
use disk_model::{CachedDisk, Disk, DiskFault, MemDisk, Pick};
use extents::{FreeMap, Run, RunList};
use std::process::Abort;
use std::test::Fail;

const DONE: Result<(), DiskFault> = Ok(());

// Writes bytes, which must lie within the disk.
fn put<D: Disk>(disk: &mut D, at: u64, bytes: &[u8]) -> Result<Result<(), DiskFault>, Fail> {
    if disk.length() < at || disk.length() - at < bytes.len() as u64 {
        return Err(Fail::from("these bytes leave the disk"));
    }
    Ok(disk.write_at(at, bytes))
}

// A crash of this kind leaves these bytes.
fn leaves(rt: &impl Abort, disk: &MemDisk, pick: Pick, bytes: &[u8]) -> Result<(), Fail> {
    assert_eq!(rt; crashed(disk, pick)?.bytes(), bytes);
    Ok(())
}

// `scripts/fail-alloc` has the allocations of the write refused.
#[test]
fn a_refused_write_changes_nothing(rt: HostRuntime) -> Result<(), Fail> {
    let mut disk = MemDisk::new(rt.alloc(), 4)?;
    if is_write_refused(&rt, &mut disk)? {
        Err("a write was refused, and changed nothing")?;
    }
    Ok(())
}

// A write, made again if it was refused. Returns whether it was.
fn is_write_refused(rt: &impl Abort, disk: &mut MemDisk) -> Result<bool, Fail> {
    let refused = put(disk, 1, &[7, 8])?.is_err();
    if refused {
        assert_eq!(rt; disk.bytes(), [0; 4].as_slice());
        assert_eq!(rt; put(disk, 1, &[7, 8])?, DONE);
    }
    assert_eq!(rt; disk.sync(), DONE);
    leaves(rt, disk, Pick::Nothing, &[0, 7, 8, 0])?;
    Ok(refused)
}

// A synced write, and two that are not.
fn three_writes<D: Disk>(disk: &mut D) -> Result<(), Fail> {
    put(disk, 0, &[1, 2, 3, 4])??;
    disk.sync()?;
    put(disk, 2, &[5, 6, 7])??;
    put(disk, 3, &[8, 9, 10, 11])??;
    Ok(())
}

// The bytes that each kind of crash leaves of them.
static LEFT: [(Pick, [u8; 8]); 4] = [
    (Pick::Nothing, [1, 2, 3, 4, 0, 0, 0, 0]),
    (Pick::Whole, [1, 2, 5, 8, 9, 10, 11, 0]),
    (Pick::FirstHalf, [1, 2, 5, 8, 9, 0, 0, 0]),
    (Pick::Fill(238), [1, 2, 238, 238, 238, 238, 238, 0]),
];

#[test]
fn a_crash_leaves_what_is_picked(rt: HostRuntime) -> Result<(), Fail> {
    let mut disk = MemDisk::new(rt.alloc(), 8)?;
    leaves_each(&rt, &mut disk)
}

// Each kind of crash, before a sync and after it.
fn leaves_each(rt: &impl Abort, disk: &mut MemDisk) -> Result<(), Fail> {
    three_writes(disk)?;
    for (pick, want) in &LEFT {
        leaves(rt, disk, *pick, want)?;
    }
    disk.sync()?;
    for (pick, _) in &LEFT {
        leaves(rt, disk, *pick, &[1, 2, 5, 8, 9, 10, 11, 0])?;
    }
    Ok(())
}

// The second sync is lost, and each after it too. The cache reads as
// if it were not; the device has the bytes that were synced before.
#[test]
fn a_lost_sync_reaches_no_device(rt: HostRuntime) -> Result<(), Fail> {
    let mut disk = CachedDisk::new(MemDisk::new(rt.alloc(), 8)?, 1);
    loses_syncs(&rt, &mut disk)?;
    has_synced(&rt, &disk)?;
    has_synced(&rt, &disk.reopened()?)
}

// The writes, two syncs that are lost, and the bytes that are read then.
fn loses_syncs<D: Disk>(rt: &impl Abort, disk: &mut D) -> Result<(), Fail> {
    three_writes(disk)?;
    assert_eq!(rt;
        (disk.sync(), disk.sync()),
        (Err(DiskFault::Sync), Err(DiskFault::Sync))
    );
    let mut bytes = [0u8; 8];
    if disk.length() == 8 {
        disk.read_at(0, &mut bytes)?;
    }
    assert_eq!(rt; bytes, [1, 2, 5, 8, 9, 10, 11, 0]);
    Ok(())
}

// A stop leaves the bytes that were synced before.
fn has_synced(rt: &impl Abort, disk: &CachedDisk) -> Result<(), Fail> {
    assert_eq!(rt;
        disk.after_stop()?.bytes(),
        [1, 2, 3, 4, 0, 0, 0, 0].as_slice()
    );
    Ok(())
}

#[test]
fn maps_and_lists_take_no_memory(rt: HostRuntime) -> Result<(), Fail> {
    let mut map = FreeMap::new(rt.alloc(), 4)?;
    let mut list = RunList::new(rt.alloc());
    list.append(Run { start: 7, count: 2 })?;
    list.append(Run { start: 3, count: 1 })?;
    no_memory_from_here(rt.alloc())?;
    takes_blocks(&rt, &mut map);
    has_blocks(&rt, &list);
    Ok(())
}

fn takes_blocks(rt: &impl Abort, map: &mut FreeMap) {
    assert_eq!(rt; map.take(2), Some(Run { start: 0, count: 2 }));
    assert_eq!(rt; map.mark_used(Run { start: 2, count: 1 }), Ok(()));
    assert_eq!(rt; map.free(), 1);
}

fn has_blocks(rt: &impl Abort, list: &RunList) {
    let blocks = [list.block_at(1), list.block_at(2), list.block_at(3)];
    assert_eq!(rt; (blocks, list.runs().len()), ([Some(8), Some(3), None], 2));
}
