// The parts that an archive is opened with: its journal with the names
// of its cases and the blocks that they leave free, and the slots.
ghost use Rattle.std.specs.Prelude.{◌≡◌, ◌≤◌, ℕ, None, Err, IfOk, IsTrue, replicate, false};
ghost use Rattle.disk_model.specs.Moments.{LeavesOnly};
ghost use Rattle.disk_model.specs.Keeping.{KeepsDisk};
ghost use Rattle.journal_layout.specs.Standing.{Standing};
ghost use Rattle.journal_layout.specs.Stands.{Stands};
ghost use Rattle.case_journal.specs.Viewing.{ShowsOpening, FindsStanding};
ghost use Rattle.intake.specs.Opened.{journal_of};
ghost use Rattle.intake.specs.Names.{IsConsistent};

use crate::slots::Slots;
use case_journal::{Journal, Opened};
use disk_model::Disk;
use journal_layout::OpenFault;
use std::alloc::Global;

/// Opens the journal on a disk, and makes the slots.
pub(crate) fn open_parts<D: Disk>(alloc: Global, disk: &mut D) -> Result<(Opened, Slots), OpenFault>
    ensures gives { ShowsOpening D.Disk disk.old (journal_of result) }
    ensures found { (s : Standing) → IsTrue (D.is_honest disk.old) → Stands (D.seen disk.old) s
        → FindsStanding (journal_of result) s }
    ensures sound { IfOk result (λ parts. (most : ℕ) → IsConsistent D.Disk disk.new parts.0.journal most parts.0.free
        parts.1 false parts.0.names) }
    ensures slots { IfOk result (λ parts. parts.1 ≡ replicate 8 None) }
    ensures any_moment { IsTrue (D.is_honest disk.old)
        → LeavesOnly D.Disk disk.old disk.new (D.may_leave disk.old) }
    ensures seen { IsTrue (D.is_honest disk.old) → D.seen disk.new ≡ D.seen disk.old }
    ensures disk { KeepsDisk D.Disk disk.old disk.new (result ≡ Err OpenFault.Disk) }
{
    let opened = Journal::open(alloc, disk)?;
    let Ok(slots) = Slots::new(alloc) else {
        return Err(OpenFault::OutOfMemory);
    };
    Ok((opened, slots))
}
