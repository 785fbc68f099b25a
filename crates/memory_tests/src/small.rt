//! Every core of at most three segments with bounds among 0 to 4, with and without tables.
use address_space::{AddressSpace, Source};
use elf_view::sample::{LoadPart, core_image};
use elf_view::{Elf, Want};
use std::test::Fail;

/// The bounds of a segment, by a number below 25: those that do not rise are those of one without addresses.
fn bounds(number: u64) -> (u64, u64) {
    let (start, end) = (number / 5, number % 5);
    (start, end.saturating_sub(start))
}

/// Whether the segment of these bounds has the address.
fn has(bounds: (u64, u64), address: u64) -> bool {
    bounds.0 <= address && address - bounds.0 < bounds.1
}

/// The number of the first that has the address, from 1 on, or 0 if no segment has it.
fn wanted(first: (u64, u64), second: (u64, u64), third: (u64, u64), address: u64) -> u8 {
    if has(first, address) {
        1
    } else if has(second, address) {
        2
    } else if has(third, address) {
        3
    } else {
        0
    }
}

/// A segment of these bounds.
fn part(bounds: (u64, u64), bytes: &[u8; 4]) -> LoadPart<'_> {
    let size = bounds.1.min(4) as usize;
    LoadPart {
        flags: 4,
        vaddr: bounds.0,
        memsz: bounds.1,
        bytes: &bytes[..size],
    }
}

/// The byte at the address, or 0 if there is no segment.
fn found(space: &AddressSpace<'_>, address: u64) -> u8 {
    match space.at(address) {
        Source::Byte(byte) => byte,
        Source::Unmapped => 0,
        _ => 9,
    }
}

#[test]
fn the_first_segment_decides_in_each_small_core(rt: HostRuntime) -> Result<(), Fail> {
    for number in 0..15_625u64 {
        let (first, second, third) = (
            bounds(number / 625),
            bounds(number / 25 % 25),
            bounds(number % 25),
        );
        let loads = [
            part(first, &[1; 4]),
            part(second, &[2; 4]),
            part(third, &[3; 4]),
        ];
        let image = core_image(rt.alloc(), &[], &loads)?;
        let elf = Elf::read(&image, Want::Core).ok().ok_or("refused")?;
        let plain = AddressSpace::new(rt.alloc(), &elf, None);
        let indexed = AddressSpace::indexed(rt.alloc(), &elf, None)?;
        for address in 0..6 {
            let want = wanted(first, second, third, address);
            assert_eq!(rt;
                (found(&plain, address), found(&indexed, address)),
                (want, want),
                "core {number}"
            );
        }
    }
    Ok(())
}
