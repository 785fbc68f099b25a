// A disk that fails at each read of a line over an image.
use crate::archives::{opened, states};
use crate::images::{calls, with_executable};
use disk_model::{Disk, MemDisk, OneFault};
use elf_view::sample::mapped_core;
use intake::Archive;
use std::alloc::Global;
use std::process::Abort;
use std::test::Fail;

// A disk of the sample executable and a core that maps it.
fn stored(alloc: Global) -> Result<MemDisk, Fail> {
    let core = mapped_core(alloc)?;
    with_executable(alloc, &core)
}

// Lines, and their replies if no call of the disk fails.
static READING: [(&str, &str); 9] = [
    ("threads 2\n", "0 4242 11 0x10400\nok\n"),
    (
        "maps 2\n",
        "0x7000 0x8000 rw- 0x1000 - -\n0x10000 0x12000 r-x 0x0 0x0 /bin/cat\nok\n",
    ),
    ("dump 2 0x10000 4\n", "0x10000 file 7f454c46\nok\n"),
    ("find 2 7f454c46\n", "0x10000\nok\n"),
    ("strings 2 1024\n", "ok\n"),
    (
        "bt 2 0\n",
        "0 0x10400 main+0x0 fp 0x7f40 ra 0x10500\n1 0x10500 main+0x100 fp 0x7f80\n2 0x10600 big+0x300 fp 0x0\nstop ZeroLink\nok\n",
    ),
    ("dump 2 0 65537\n", "no Range\n"),
    ("bt 2 1\n", "no NoThread\n"),
    ("symbol 1 0\n", "no NoSymbol\n"),
];

// If this call of the disk fails, the line is refused for that, and those after it too, whatever else is wrong with them.
fn stops_at(rt: &(impl AllocGlobal + Abort), line: &str, call: u64) -> Result<(), Fail> {
    let disk = OneFault::new(stored(rt.alloc())?, call);
    let mut archive = opened(rt.alloc(), disk, 1 << 30)?;
    is_stopped_by(rt, &mut archive, line)
}

// The line is refused since the disk fails, and those after it since the archive is stopped.
fn is_stopped_by<D: Disk>(
    rt: &(impl AllocGlobal + Abort),
    archive: &mut Archive<D>,
    line: &str,
) -> Result<(), Fail> {
    states(rt, archive, line.as_bytes(), "no Disk\n")?;
    states(
        rt,
        archive,
        b"maps 9\nbt 1 0\nsymbol 2 0\ndump 2 0 65537\n",
        "no Stopped\nno Stopped\nno Stopped\nno Stopped\n",
    )
}

// The same of each call that the line makes.
fn stops_at_each(rt: &(impl AllocGlobal + Abort), row: &(&str, &str)) -> Result<(), Fail> {
    let (line, wanted) = *row;
    let first = calls(rt, stored(rt.alloc())?, "free\n", "free 4 of 8\nok\n")?;
    let past = calls(rt, stored(rt.alloc())?, line, wanted)?;
    assert!(rt; first < past);
    for call in first..past {
        stops_at(rt, line, call.saturating_add(1))?;
    }
    Ok(())
}

#[test]
fn a_disk_that_fails_at_any_read_of_a_line(rt: HostRuntime) -> Result<(), Fail> {
    for row in &READING {
        stops_at_each(&rt, row)?;
    }
    Ok(())
}
