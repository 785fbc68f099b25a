// A session over an archive that is made for it, in memory.
ghost use Rattle.std.specs.Prelude.{◌≡◌, IsTrue, IfOk};
ghost use Rattle.journal_layout.specs.Layout.{IsWithinLimits};
ghost use Rattle.journal_layout.specs.Standing.{fresh};
ghost use Rattle.journal_layout.specs.Stands.{Stands};
ghost use Rattle.inspector_cli.specs.Session.{streams_of};
ghost use Rattle.inspector_cli.specs.Memory.{MemoryEnds, NoDisk, memory_fault};

use crate::life::open_and_run;
use crate::session::{LifeFault, MemoryFault};
use case_journal::format;
use disk_model::{Disk, MemDisk};
use intake::Settings;
use journal_layout::{Half, Shape};
use script_streams::{Input, Output};
use std::alloc::Global;
use stream_names::Naming;

/// Makes an archive of this shape in memory, and runs a session over it, as `run_session` does: the answer is the text of
/// the script over an archive with no case, whatever disk it has. The archive is gone then.
///
/// # Errors
///
/// `BadShape` if the shape is outside its limits. `OutOfMemory` if there was no memory for the disk, for the copies that it keeps of its
/// writes, or to open the archive: a disk in memory fails for no other reason. No stream is touched then. `Session` as
/// `run_session` ends.
pub fn memory_session<I: Input, O: Output>(
    alloc: Global,
    shape: Shape,
    settings: Settings,
    naming: &Naming,
    input: &mut I,
    output: &mut O,
) -> Result<(), MemoryFault>
    ensures fresh { let streams = streams_of I.Input O.Output input.old input.new output.old output.new in MemoryEnds ⟦<MemDisk as Disk>⟧ shape settings.limit naming.now streams result }
{
    let disk = fresh_disk(alloc, shape)?;
    let (ended, _) = open_and_run(alloc, disk, settings, naming, input, output);
    match ended {
        Ok(()) => Ok(()),
        Err(fault) => Err(memory_fault(fault)),
    }
}

// The result of a session over a disk in memory that did not end with its script. Such a disk fails only if there is no memory.
fn memory_fault(fault: LifeFault) -> MemoryFault
    ensures { result ≡ memory_fault fault }
{
    match fault {
        LifeFault::Open(_) => MemoryFault::OutOfMemory,
        LifeFault::Session(fault) => MemoryFault::Session(fault),
    }
}

// The disk of a fresh archive. Its writes fail only if there is no memory.
fn fresh_disk(alloc: Global, shape: Shape) -> Result<MemDisk, MemoryFault>
    ensures honest { IfOk result (λ d. IsTrue (⟦<MemDisk as Disk>⟧.is_honest d)) }
    ensures made { IfOk result (λ d. Stands (⟦<MemDisk as Disk>⟧.seen d) (fresh shape Half.A 1 1)) }
    ensures refused { NoDisk shape result }
{
    let Ok(length) = shape.length() else {
        return Err(MemoryFault::BadShape);
    };
    let Ok(disk) = MemDisk::new(alloc, length) else {
        return Err(MemoryFault::OutOfMemory);
    };
    let mut disk = disk;
    match format(&mut disk, shape) {
        Ok(()) => Ok(disk),
        Err(_) => Err(MemoryFault::OutOfMemory),
    }
}
