// Archives over a disk with a cache that loses a sync. They are opened anew, others store, and the machine stops.
use crate::bench::{SETTINGS, SHAPE, formatted, has_image, opened, store};
use disk_model::{CachedDisk, Disk};
use intake::Archive;
use std::alloc::Global;
use std::test::Fail;

/// A case that was acknowledged: its number, and the seed of its image.
pub type Acknowledged = Option<(u32, u8)>;

/// Stores cases of long names, and deletes the one before each, until the disk fails. Answers the last that was acknowledged.
pub fn store_each<D: Disk>(archive: &mut Archive<D>, seeds: &[u8]) -> Result<Acknowledged, Fail> {
    let mut last = None;
    for seed in seeds {
        let Ok(seq) = store(archive, &[*seed; 128], *seed, 5)? else {
            return Ok(last);
        };
        if let Some((before, _)) = last {
            let _ = archive.delete(before);
        }
        last = Some((seq, *seed));
    }
    Ok(last)
}

/// Whether a case that was acknowledged is there.
pub fn is_there<D: Disk>(archive: &mut Archive<D>, case: Acknowledged) -> bool {
    match case {
        Some((seq, seed)) => has_image(archive, seq, seed, 5),
        None => true,
    }
}

pub static FIRST: [u8; 24] = [
    1, 2, 3, 4, 5, 6, 7, 8, 9, 10, 11, 12, 13, 14, 15, 16, 17, 18, 19, 20, 21, 22, 23, 24,
];

static LATER: [u8; 3] = [31, 32, 33];

// Loses the sync after so many, opens the archive anew, stores other cases, and stops the machine.
fn lose_a_sync(alloc: Global, spared: u64) -> Result<(), Fail> {
    let disk = CachedDisk::new(formatted(alloc, SHAPE)?, spared);
    match Archive::open(alloc, disk, SETTINGS) {
        Ok(archive) => store_over(alloc, archive),
        Err(_) => Ok(()),
    }
}

fn store_over(alloc: Global, archive: Archive<CachedDisk>) -> Result<(), Fail> {
    let mut archive = archive;
    let first = store_each(&mut archive, &FIRST)?;
    let (later, disk) = store_anew(alloc, archive.close().reopened()?, first)?;
    let mut left = opened(alloc, disk.after_stop()?)?;
    if later.is_none() || !is_there(&mut left, first) || !is_there(&mut left, later) {
        return Err(Fail::from("a case that was acknowledged is lost"));
    }
    Ok(())
}

/// Stores the other cases. Answers the last of them, and the disk.
pub fn store_anew<D: Disk + Drop>(
    alloc: Global,
    disk: D,
    first: Acknowledged,
) -> Result<(Acknowledged, D), Fail> {
    let mut archive = opened(alloc, disk)?;
    let later = store_after(&mut archive, first)?;
    Ok((later, archive.close()))
}

fn store_after<D: Disk>(
    archive: &mut Archive<D>,
    first: Acknowledged,
) -> Result<Acknowledged, Fail> {
    if !is_there(archive, first) {
        return Err(Fail::from("a case that was acknowledged is not read again"));
    }
    store_each(archive, &LATER)
}

#[test]
fn no_acknowledged_case_is_lost_behind_a_lost_sync(rt: HostRuntime) -> Result<(), Fail> {
    for spared in 0..130 {
        lose_a_sync(rt.alloc(), spared)?;
    }
    Ok(())
}
