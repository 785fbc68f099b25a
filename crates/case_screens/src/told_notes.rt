// The notes of a core on its screen.
ghost use Rattle.std.specs.Prelude.{◌≡◌};
ghost use Rattle.core_notes.specs.Descriptor.{pr_reg};
ghost use Rattle.core_notes.specs.DescriptorWords.{psinfo_bytes, siginfo_bytes};
ghost use Rattle.core_notes.specs.Typed.{all_descs};
ghost use Rattle.elf_view.specs.ViewWords.{notes_of};
ghost use Rattle.elf_view.specs.declared.faults.Want.TheVariants.{Core};
ghost use Rattle.image_replies.specs.CoreWords.{core_bytes};
ghost use Rattle.thread_regs.specs.ThreadWords.{thread_bytes};
ghost use Rattle.case_screens.specs.Core.{desc_in, notes_read};
ghost use Rattle.case_screens.specs.Frames.{thread_count};
ghost use Rattle.case_screens.specs.ReasonWords.{found_view};

use crate::reason::{Reason, core_reason, missing};
use core_notes::{PsInfo, SigInfo};
use image_replies::{CoreFault, CoreImage};
use thread_regs::{Reg, Thread, threads};

// The process of a core, or why it is not shown.
pub(crate) fn process_of<'a>(
    core: &Result<CoreImage<'a>, CoreFault>,
) -> Result<PsInfo<'a>, Reason<'static>>
    ensures { found_view psinfo_bytes result ≡ desc_in 3 (notes_read core.now) }
{
    match core {
        Ok(core) => match core.notes().psinfo() {
            Some(process) => Ok(process),
            None => Err(missing()),
        },
        Err(fault) => Err(core_reason(*fault)),
    }
}

// The signal that a process met, or why it is not shown.
pub(crate) fn signal_of<'a>(
    core: &Result<CoreImage<'a>, CoreFault>,
) -> Result<SigInfo<'a>, Reason<'static>>
    ensures { found_view siginfo_bytes result ≡ desc_in 0x53494749 (notes_read core.now) }
{
    match core {
        Ok(core) => match core.notes().siginfo() {
            Some(signal) => Ok(signal),
            None => Err(missing()),
        },
        Err(fault) => Err(core_reason(*fault)),
    }
}

/// How many threads a core has. It stays at the highest `u64` if there are more.
pub fn thread_count(core: &CoreImage<'_>) -> u64
    ensures { result ≡ thread_count (all_descs 1 (notes_of Core (core_bytes core.now))) }
{
    let mut left = threads(core.notes());
    let mut count: u64 = 0;
    while let Some(_) = left.next() {
        count = count.saturating_add(1);
    }
    count
}

// The address at which execution of a thread was.
pub(crate) fn pc_of(thread: &Thread<'_>) -> u64
    ensures { result ≡ pr_reg (thread_bytes thread.now) 0 }
{
    thread.register(Reg::of_word(0))
}
