//! Which function an address is named by: a look-up takes no memory.
use crate::memory::no_memory_from_here;
use address_space::AddressSpace;
use backtrace::Frames;
use core_notes::CoreNotes;
use elf_view::sample::{executable, file_core};
use elf_view::{Elf, Want};
use std::process::Abort;
use std::test::Fail;
use symbols::{Symbols, vaddr_of_offset};

/// The first address of the function of an address.
fn start_of(symbols: &Symbols<'_>, address: u64) -> Option<u64> {
    match symbols.lookup(address) {
        Some(symbol) => Some(symbol.value),
        None => None,
    }
}

#[test]
fn a_look_up_takes_no_memory(rt: HostRuntime) -> Result<(), Fail> {
    let image = executable(rt.alloc())?;
    let elf = Elf::read(&image, Want::Exec).ok().ok_or("refused")?;
    let symbols = Symbols::read(rt.alloc(), &elf).ok().ok_or("refused")?;
    no_memory_from_here(rt.alloc())?;
    assert_eq!(rt; starts_in(&symbols), [None, Some(0x10300), Some(0x10400)]);
    Ok(())
}

fn starts_in(symbols: &Symbols<'_>) -> [Option<u64>; 3] {
    [
        start_of(symbols, 0x102ff),
        start_of(symbols, 0x10300),
        start_of(symbols, 0x104ff),
    ]
}

/// The function of an address of a process: its first address, by the file that is mapped there, and the offset of `pc` from that.
fn function_of(
    space: &AddressSpace<'_>,
    file: &Elf<'_>,
    symbols: &Symbols<'_>,
    address: u64,
    pc: u64,
) -> Option<(u64, u64)> {
    let spot = space.spot(address)?;
    let symbol = symbols.lookup(vaddr_of_offset(file, spot.offset)?)?;
    Some((symbol.value, pc.saturating_sub(symbol.value)))
}

/// The frames of the sample's stack are in these functions: that of the pc, and behind a call that of the address before it.
fn has_functions(rt: &impl Abort, space: &AddressSpace<'_>, file: &Elf<'_>, symbols: &Symbols<'_>) {
    let mut frames = Frames::new(space, 0x10400, 0x7f40);
    let mut behind = 0;
    for wanted in [(0x10400, 0), (0x10400, 0x100), (0x10300, 0x300)] {
        let pc = frames.next().map_or(0, |frame| frame.pc);
        let found = function_of(space, file, symbols, pc.saturating_sub(behind), pc);
        assert_eq!(rt; found, Some(wanted));
        behind = 1;
    }
}

#[test]
fn frames_have_their_functions_with_and_without_tables(rt: HostRuntime) -> Result<(), Fail> {
    let (image, file) = (file_core(rt.alloc())?, executable(rt.alloc())?);
    let core = Elf::read(&image, Want::Core).ok().ok_or("refused")?;
    let elf = Elf::read(&file, Want::Exec).ok().ok_or("refused")?;
    names_frames(&rt, &core, &elf)
}

fn names_frames(
    rt: &(impl AllocGlobal + Abort),
    core: &Elf<'_>,
    file: &Elf<'_>,
) -> Result<(), Fail> {
    let symbols = Symbols::read(rt.alloc(), file).ok().ok_or("refused")?;
    let notes = CoreNotes::of(core).ok().ok_or("faulty")?;
    let plain = AddressSpace::new(rt.alloc(), core, notes.files());
    names_by(rt, core, &notes, file, &symbols)?;
    has_functions(rt, &plain, file, &symbols);
    Ok(())
}

fn names_by(
    rt: &(impl AllocGlobal + Abort),
    core: &Elf<'_>,
    notes: &CoreNotes<'_>,
    file: &Elf<'_>,
    symbols: &Symbols<'_>,
) -> Result<(), Fail> {
    let indexed = AddressSpace::indexed(rt.alloc(), core, notes.files())?;
    no_memory_from_here(rt.alloc())?;
    has_functions(rt, &indexed, file, symbols);
    Ok(())
}
