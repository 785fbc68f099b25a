// How the memory of a core is gone through while its image is read once, from the front to the end.
ghost use Rattle.std.specs.Prelude.{◌≡◌, ◌+◌, ◌<◌, ◌≤◌, ◌^◌, ◌-◌, ℕ, List, IfOk, IfSome, length, true};
ghost use Rattle.address_space.specs.SpaceWords.{core_of, space_of};
ghost use Rattle.address_space.specs.Whole.{IsFrontOf, space_in};
ghost use Rattle.elf_view.specs.Header.{segments_of};
ghost use Rattle.elf_view.specs.ViewWords.{image_of};
ghost use Rattle.windowed_search.specs.StepWords.{IsNextStep, IsWholeWay, StepsFit, place_after};
ghost use Rattle.windowed_search.specs.Rising.{IsRising};

use crate::rising::is_rising;
use address_space::{AddressSpace, Stretch, StretchKind};
use elf_view::{Elf, a_sound_front_is_enough};
use std::alloc::{AllocError, Global};

/// The content of the next addresses.
#[derive(Clone, Copy)]
pub enum Step<'a> {
    /// Bytes of the image.
    Core {
        /// How many bytes of the image come before them.
        skipped: u64,
        /// How many addresses there are.
        count: u64,
    },
    /// These bytes of an executable.
    File(&'a [u8]),
    /// No value.
    Nothing {
        /// How many addresses there are.
        count: u64,
    },
}

// The step for the next addresses of one place, if the image has their bytes from place `at` on.
fn next_step<'a>(at: u64, stretch: Stretch<'a>) -> Option<Step<'a>>
    ensures step { IfSome result (IsNextStep at stretch.entry) }
{
    match stretch.kind {
        StretchKind::Core { offset } => {
            if offset < at {
                return None;
            }
            Some(Step::Core {
                skipped: offset - at,
                count: stretch.length,
            })
        }
        StretchKind::FromFile(bytes) => {
            if bytes.len() as u64 != stretch.length {
                return None;
            }
            Some(Step::File(bytes))
        }
        StretchKind::NotDumped(_) => Some(Step::Nothing {
            count: stretch.length,
        }),
        StretchKind::Cut => Some(Step::Nothing {
            count: stretch.length,
        }),
        StretchKind::Unmapped => Some(Step::Nothing {
            count: stretch.length,
        }),
    }
}

// The place after the bytes of the image that a step takes.
fn place_after(at: u64, step: Step<'_>) -> u64
    requires { place_after at step < 2 ^ 64 }
    ensures { result ≡ place_after at step.entry }
{
    match step {
        Step::Core { skipped, count } => at + skipped + count,
        Step::File(_) => at,
        Step::Nothing { .. } => at,
    }
}

// The steps through all addresses but the last, if the image of `size` bytes has their bytes in the order of the addresses.
fn steps_of<'a>(
    alloc: Global,
    space: &AddressSpace<'a>,
    size: u64,
) -> Result<Option<Vec<Step<'a>>>, AllocError>
    ensures way { IfOk result (λ o. IfSome o (λ v. (image : List ℕ) → IsFrontOf (core_of space.now) size image
        → IsWholeWay image (space_in image (space_of space.now)) v.items)) }
    ensures fits { IfOk result (λ o. IfSome o (λ v. length (core_of space.now) ≤ size → StepsFit size 0 0 v.items)) }
{
    let mut steps = Vec::new(alloc);
    let mut at = 0;
    for stretch in space.stretches(size, 0, u64::MAX) {
        let Some(step) = next_step(at, stretch) else {
            return Ok(None);
        };
        at = place_after(at, step);
        steps.push(step)?;
    }
    Ok(Some(steps))
}

/// The steps through a core's memory, by rising addresses, if the image of `size` bytes has the bytes of the addresses in their order
/// and each PT_LOAD begins at or after the end of the one before. The core is that image, or its first bytes; the memory is the core's.
/// The error is that there is no memory for the steps.
pub fn plan<'a>(
    alloc: Global,
    elf: &Elf<'a>,
    space: &AddressSpace<'a>,
    size: u64,
) -> Result<Option<Vec<Step<'a>>>, AllocError>
    requires { core_of space.now ≡ image_of elf.now }
    ensures way { IfOk result (λ o. IfSome o (λ v. (image : List ℕ) → IsFrontOf (core_of space.now) size image
        → IsWholeWay image (space_in image (space_of space.now)) v.items)) }
    ensures rising { IfOk result (λ o. IfSome o (λ v. (image : List ℕ) → IsFrontOf (core_of space.now) size image
        → IsRising 0 (segments_of image))) }
    ensures fits { IfOk result (λ o. IfSome o (λ v. length (core_of space.now) ≤ size → StepsFit size 0 0 v.items)) }
{
    a_sound_front_is_enough();
    if !is_rising(elf.segments()) {
        return Ok(None);
    }
    steps_of(alloc, space, size)
}
