//! The signal that was being handled, of a case of an archive.
ghost use Rattle.std.specs.Prelude.{IfOk};
ghost use Rattle.core_crashes.specs.CaseReading.{HasLength};
ghost use Rattle.frame_replies.specs.FrameValues.{frames_view};
ghost use Rattle.image_replies.specs.CoreWords.{core_bytes};
ghost use Rattle.intake.specs.Parts.{state_of};
ghost use Rattle.core_crashes.specs.Reading.{Handles};

use crate::handled::{number_in, signal_stack};
use crate::word_in_case;
use disk_model::Disk;
use frame_replies::FramesAnswer;
use image_replies::CoreImage;
use intake::{Archive, ArchiveFault};
use memory_replies::space_with;
use std::alloc::Global;

/// The number of the signal that was being handled when a process crashed: that of the first frame of a signal among the first 16
/// frames of the thread that dumped. `None` if there is no such frame, or its number can't be read. The core may be only the
/// first bytes of the case's image; of the rest only the bytes are read that give the number.
///
/// # Errors
///
/// Those of `image_part` of intake. `OutOfMemory`: there is no memory.
pub fn handled_in_case<D: Disk>(
    alloc: Global,
    seq: u32,
    size: usize,
    core: &CoreImage<'_>,
    frames: &FramesAnswer<'_>,
    archive: &mut Archive<D>,
) -> Result<Option<u32>, ArchiveFault>
    requires { HasLength (state_of archive.old) seq size }
    ensures { IfOk result (λ handled. Handles D.Disk archive.old seq size (core_bytes core.now) (frames_view frames.now) handled archive.new) }
{
    let Some(stack) = signal_stack(frames) else {
        return Ok(None);
    };
    let space = space_with(alloc, core, &[])?;
    let elf = core.elf();
    let word = word_in_case(alloc, seq, size, elf.image(), &space, stack, archive)?;
    Ok(word.and_then(|word| number_in(word)))
}
