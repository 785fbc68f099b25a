// `prune`: the cores that a policy drops, and the executables and debug files of builds that no core that stays needs.
ghost use Rattle.std.specs.Prelude.{IfOk};
ghost use Rattle.case_info.specs.Planning.{PlansIn, PlansOver, PrunesOver};

use crate::gathering::{gather, gather_unlocked};
use crate::plan::{planned, print_plan};
use archive_files::{
    Access, ArchivePath, Failure, Held, Refusal, ask_told, print_trouble, take_disk,
};
use diagnostics::Onlooker;
use disk_model::Disk;
use inspector_cli::{SessionFault, open_and_delete};
use intake::{Archive, Settings};
use pruning::Pruning;
use retention::Policy;
use script_streams::Output;
use std::alloc::Global;
use std::fs::File;
use std::rt::Files;
use std::time::Clock;

/// The request that the words of `prune` make.
#[derive(Clone, Copy)]
pub struct PruneWords {
    /// The limits for the cores. Without a limit no core goes.
    pub policy: Policy,
    /// The cases are deleted. Otherwise the cases that would be deleted are only printed.
    pub deletes: bool,
}

/// Drops cores by a policy, and then the executables and debug files of builds that no core that stays needs (`IsPruning` of pruning).
/// If they are not to be deleted it only looks, and prints `drop N NAME` for each. Else each is deleted as by a line `delete N` of its
/// own, cores first, and printed as `dropped N`. The archive is locked from its reading to the last deletion, and the text is held
/// until the lock is released.
///
/// # Errors
///
/// The refusals of `take_look` or `take_disk` of `archive_files` and of an opening. `OutOfMemory` and `Disk`: nothing is printed, or a
/// deletion is refused, and the cases before it are gone. `NoCase`: cases were deleted meanwhile, whenever all were looked at. `Told`:
/// the reply says why a deletion is refused. `WriteFailed` if the text could not be written.
pub fn prune_archive<R: AllocGlobal + Files<File = File> + Clock, O: Output, W: Onlooker>(
    rt: &R,
    place: ArchivePath<'_>,
    words: PruneWords,
    output: &mut O,
    onlooker: &mut W,
) -> Result<(), Failure> {
    if words.deletes {
        prune_locked(rt, place, &words.policy, output, onlooker)
    } else {
        foresee(rt, place, &words.policy, output)
    }
}

// Prints which cases would go.
fn foresee<R: AllocGlobal + Files<File = File>, O: Output>(
    rt: &R,
    place: ArchivePath<'_>,
    policy: &Policy,
    output: &mut O,
) -> Result<(), Failure> {
    let gathered = gather_unlocked(rt, place)?;
    let pruning = planned(rt.alloc(), &gathered, policy)?;
    Ok(print_plan(&gathered.cases, &pruning, output)?)
}

// Prunes with the archive's lock, and writes the text once the lock is released.
fn prune_locked<R: AllocGlobal + Files<File = File> + Clock, O: Output, W: Onlooker>(
    rt: &R,
    place: ArchivePath<'_>,
    policy: &Policy,
    output: &mut O,
    onlooker: &mut W,
) -> Result<(), Failure> {
    let disk = match take_disk(rt, place, Access::Changing, onlooker) {
        Ok(disk) => disk,
        Err(refusal) => return Err(Failure::Refused(refusal)),
    };
    let mut reply = Held::new(rt.alloc(), output);
    let (pruned, disk) = prune_over(rt.alloc(), disk, policy, &mut reply);
    print_trouble(&disk, onlooker);
    drop(disk);
    match reply.finish() {
        Ok(()) => pruned,
        Err(_) => Err(Failure::Faulted(SessionFault::WriteFailed)),
    }
}

// Opens the archive on a disk, sees which cases go, opens it again, and deletes them. The disk is handed back.
fn prune_over<D: Disk, O: Output>(
    alloc: Global,
    disk: D,
    policy: &Policy,
    output: &mut O,
) -> (Result<(), Failure>, D)
    ensures { PrunesOver D.Disk policy.now (O.taken output.old) (O.taken output.new) (O.failures output.old) (O.failures output.new) disk result.0 result.1 }
{
    let (planned, disk) = plan_over(alloc, disk, policy);
    let pruning = match planned {
        Ok(pruning) => pruning,
        Err(refusal) => return (Err(Failure::Refused(refusal)), disk),
    };
    let settings = Settings { limit: 0 };
    let Pruning { dropped, unmet } = pruning;
    let (deleted, disk) = open_and_delete(alloc, disk, settings, &dropped, unmet, output);
    (ask_told(deleted), disk)
}

// Opens the archive on a disk, and sees which cases go. The disk is handed back.
fn plan_over<D: Disk>(alloc: Global, disk: D, policy: &Policy) -> (Result<Pruning, Refusal>, D)
    ensures { PlansOver D.Disk policy.now disk result.0 result.1 }
{
    match Archive::open(alloc, disk, Settings { limit: 0 }) {
        Ok(archive) => {
            let mut archive = archive;
            let planned = plan_in(alloc, &mut archive, policy);
            let disk = archive.close();
            (planned, disk)
        }
        Err((fault, disk)) => (Err(Refusal::Open(fault)), disk),
    }
}

// The same in an archive that is open.
fn plan_in<D: Disk>(
    alloc: Global,
    archive: &mut Archive<D>,
    policy: &Policy,
) -> Result<Pruning, Refusal>
    ensures { IfOk result (λ pruning. PlansIn D.Disk policy.now archive.old pruning archive.new) }
{
    let gathered = gather(alloc, archive)?;
    planned(alloc, &gathered, policy)
}
