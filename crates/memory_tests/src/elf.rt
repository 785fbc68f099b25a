//! The sample images.
use elf_view::sample::{executable, file_core, mapped_core, stack_core};
use std::alloc::AllocError;
use std::process::Abort;
use std::test::Fail;

#[test]
fn samples_are_as_long_as_written(rt: HostRuntime) -> Result<(), Fail> {
    let alloc = rt.alloc();
    let cores = [length(stack_core(alloc))?, length(file_core(alloc))?];
    assert_eq!(rt; cores, [4824, 4896]);
    let others = [length(mapped_core(alloc))?, length(executable(alloc))?];
    assert_eq!(rt; others, [4952, 4370]);
    Ok(())
}

fn length(image: Result<Vec<u8>, AllocError>) -> Result<usize, AllocError> {
    Ok(image?.len())
}

/// `scripts/fail-alloc` refuses the first try each of its allocations.
#[test]
fn a_sample_is_whole_after_a_try_without_memory(rt: HostRuntime) -> Result<(), Fail> {
    let image = match executable(rt.alloc()) {
        Ok(image) => image,
        Err(_) => executable(rt.alloc())?,
    };
    assert_eq!(rt; image.as_slice(), executable(rt.alloc())?.as_slice());
    Ok(())
}
