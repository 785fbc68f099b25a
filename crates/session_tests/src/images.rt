// Archives with images in them, and the disk reads of lines about these images.
use crate::archives::{after, disk_of, opened, told};
use disk_model::{Disk, Fuse, MemDisk};
use elf_view::sample::executable;
use intake::Archive;
use std::alloc::Global;
use std::process::Abort;
use std::test::Fail;

// How many calls this disk gets from an opening and a session over these lines.
pub(crate) fn calls(
    rt: &(impl AllocGlobal + Abort),
    disk: MemDisk,
    lines: &str,
    wanted: &str,
) -> Result<u64, Fail> {
    let (text, fuse) = after(rt.alloc(), Fuse::new(disk, u64::MAX), lines.as_bytes())?;
    assert_eq!(rt; text.as_str(), wanted);
    Ok(fuse.calls())
}

// Stores an image after this line.
fn stores<D: Disk>(
    alloc: Global,
    archive: &mut Archive<D>,
    begin: &str,
    image: &[u8],
) -> Result<(), Fail> {
    let mut script = begin.as_bytes().to_vec(alloc)?;
    let part = format!(in alloc; "\npart 0 {}\n", image.len())?;
    script.extend_from_slice(part.as_bytes())?;
    script.extend_from_slice(image)?;
    script.extend_from_slice(b"end 0\n")?;
    let text = told(alloc, archive, script.as_slice())?;
    if !text.ends_with("ok\n") {
        Err("not stored")?;
    }
    Ok(())
}

// A disk whose archive has the sample executable as its first case, and this core as its second.
pub(crate) fn with_executable(alloc: Global, core: &[u8]) -> Result<MemDisk, Fail> {
    let mut archive = opened(alloc, disk_of(alloc, 8)?, 1 << 30)?;
    store_both(alloc, &mut archive, core)?;
    Ok(archive.close())
}

fn store_both<D: Disk>(alloc: Global, archive: &mut Archive<D>, core: &[u8]) -> Result<(), Fail> {
    stores(alloc, archive, "begin exec 0 /bin/cat", &executable(alloc)?)?;
    stores(alloc, archive, "begin core 0 comm=demo pid=1", core)
}
