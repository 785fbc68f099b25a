//! Memory of small cores, with and without a table of the segments.
use crate::shown::{Look, shows};
use address_space::AddressSpace;
use backtrace::Stop;
use elf_view::sample::{LoadPart, core_image, stack_core};
use elf_view::{Elf, Want};
use std::alloc::{AllocError, Global};
use std::process::Abort;
use std::test::Fail;

/// A segment whose bytes are all dumped: its first address, and its bytes.
type Dumped = (u64, &'static [u8]);

/// The segment of a core.
fn load(segment: &Dumped) -> LoadPart<'static> {
    let (vaddr, bytes) = *segment;
    LoadPart {
        flags: 6,
        vaddr,
        memsz: bytes.len() as u64,
        bytes,
    }
}

/// From here on `scripts/fail-alloc` refuses all memory in a run of its own: it knows the place by the size that is asked for.
pub(crate) fn no_memory_from_here(alloc: Global) -> Result<(), AllocError> {
    let _mark: Vec<u8> = Vec::with_capacity(alloc, 54_321)?;
    Ok(())
}

/// The core's memory has the expected results of all looks. No look takes memory.
fn image_shows(rt: &(impl AllocGlobal + Abort), image: &[u8], looks: &[Look]) -> Result<(), Fail> {
    let elf = Elf::read(image, Want::Core).ok().ok_or("refused")?;
    elf_shows(rt, &elf, looks)
}

fn elf_shows(rt: &(impl AllocGlobal + Abort), elf: &Elf<'_>, looks: &[Look]) -> Result<(), Fail> {
    let indexed = AddressSpace::indexed(rt.alloc(), elf, None)?;
    no_memory_from_here(rt.alloc())?;
    shows(rt, &indexed, looks);
    plain_shows(rt, elf, looks);
    Ok(())
}

fn plain_shows(rt: &(impl AllocGlobal + Abort), elf: &Elf<'_>, looks: &[Look]) {
    shows(rt, &AddressSpace::new(rt.alloc(), elf, None), looks);
}

/// The same of the core of these segments.
fn core_shows(
    rt: &(impl AllocGlobal + Abort),
    segments: &[Dumped],
    looks: &[Look],
) -> Result<(), Fail> {
    let mut loads = Vec::new(rt.alloc());
    for segment in segments {
        loads.push(load(segment))?;
    }
    let image = core_image(rt.alloc(), &[], &loads)?;
    image_shows(rt, &image, looks)
}

static HIGH_FIRST: [Dumped; 2] = [(0x2000, &[0xbb; 16]), (0x1ff8, &[0xcc; 16])];

static HIGH_WINS: [Look; 1] = [Look::Pieces(
    0x1ff8,
    24,
    &[
        Some(("held", 0x1ff8, 8, &[0xcc; 8], 0)),
        Some(("held", 0x2000, 16, &[0xbb; 16], 0)),
        None,
    ],
)];

#[test]
fn the_first_of_two_segments_decides(rt: HostRuntime) -> Result<(), Fail> {
    core_shows(&rt, &HIGH_FIRST, &HIGH_WINS)
}

static LOW_FIRST: [Dumped; 2] = [(0x1ff8, &[0xcc; 16]), (0x2000, &[0xbb; 16])];

static LOW_WINS: [Look; 1] = [Look::Pieces(
    0x1ff8,
    24,
    &[
        Some(("held", 0x1ff8, 16, &[0xcc; 16], 0)),
        Some(("held", 0x2008, 8, &[0xbb; 8], 0)),
        None,
    ],
)];

#[test]
fn the_order_of_the_headers_counts(rt: HostRuntime) -> Result<(), Fail> {
    core_shows(&rt, &LOW_FIRST, &LOW_WINS)
}

static CUT: [Look; 6] = [
    Look::Pieces(
        0x77f8,
        16,
        &[
            Some(("held", 0x77f8, 8, &[0; 8], 0)),
            Some(("cut", 0x7800, 8, &[], 0)),
            None,
        ],
    ),
    Look::Source(0x77ff, ("byte", 0)),
    Look::Source(0x7800, ("cut", 0)),
    Look::Source(0x8000, ("unmapped", 0)),
    Look::Number(0x77f8, Some(0)),
    Look::Number(0x77f9, None),
];

#[test]
fn a_core_that_was_cut_has_no_bytes_behind(rt: HostRuntime) -> Result<(), Fail> {
    let image = stack_core(rt.alloc())?;
    image_shows(&rt, image.get(..2776).ok_or("short")?, &CUT)
}

static CROSSING: [Dumped; 2] = [(0x1000, b"aa"), (0x1002, b"a")];

static OVERLAPPING: [Look; 3] = [
    Look::Found(b"aa", &[Some(0x1000), Some(0x1001), None, None]),
    Look::Texts(3, &[Some((0x1000, 3)), None, None, None]),
    Look::Texts(4, &[None; 4]),
];

#[test]
fn matches_overlap_and_cross_segments(rt: HostRuntime) -> Result<(), Fail> {
    core_shows(&rt, &CROSSING, &OVERLAPPING)
}

/// The first of the last sixteen addresses.
const LAST: u64 = 0xffff_ffff_ffff_fff0;

static AT_THE_END: [Dumped; 1] = [(LAST, &[1; 16])];

static NOTHING_BEHIND: [Look; 3] = [
    Look::Pieces(
        LAST,
        16,
        &[Some(("held", LAST, 16, &[1; 16], 0)), None, None],
    ),
    Look::Number(LAST + 8, Some(0x0101_0101_0101_0101)),
    Look::Number(LAST + 9, None),
];

#[test]
fn the_last_addresses_of_all(rt: HostRuntime) -> Result<(), Fail> {
    core_shows(&rt, &AT_THE_END, &NOTHING_BEHIND)
}

static CHAIN: [Look; 4] = [
    Look::Frames(
        0x7f40,
        &[(0x10400, 0x7f40), (0x10500, 0x7f80), (0x10600, 0)],
        Stop::ZeroLink,
    ),
    Look::Frames(8, &[(0x10400, 8)], Stop::Unreadable),
    Look::Frames(0x7f44, &[(0x10400, 0x7f44)], Stop::Misaligned),
    Look::Frames(0x7f70, &[(0x10400, 0x7f70), (0, 0)], Stop::ZeroLink),
];

#[test]
fn frames_lead_to_one_another(rt: HostRuntime) -> Result<(), Fail> {
    image_shows(&rt, &stack_core(rt.alloc())?, &CHAIN)
}

/// The link at 0x1000 leads to the frame pointer that it is below.
static ROUND: [Dumped; 1] = [(
    0x1000,
    &[0x10, 0x10, 0, 0, 0, 0, 0, 0, 0, 5, 1, 0, 0, 0, 0, 0],
)];

static ROUND_ENDS: [Look; 1] = [Look::Frames(
    0x1010,
    &[(0x10400, 0x1010), (0x10500, 0x1010)],
    Stop::NotRising,
)];

#[test]
fn frames_that_do_not_rise_end(rt: HostRuntime) -> Result<(), Fail> {
    core_shows(&rt, &ROUND, &ROUND_ENDS)
}
