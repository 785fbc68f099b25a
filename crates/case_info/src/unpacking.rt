// The files that are unpacked of a case.
ghost use Rattle.std.specs.Prelude.{◌≡◌, ◌≤◌, ◌++◌, IfOk, length, map};
ghost use Rattle.std.specs.Option.{option_map};
ghost use Rattle.build_replies.specs.Mapped.{build_view, told_view};
ghost use Rattle.case_queries.specs.CollectingWords.{executable_view};
ghost use Rattle.case_queries.specs.Facts.{SaysFacts};
ghost use Rattle.case_queries.specs.Fronts.{HasSize, IsSoundFront};
ghost use Rattle.case_queries.specs.Pieces.{SeesPieces};
ghost use Rattle.case_queries.specs.ToldWords.{IsToldBy};
ghost use Rattle.elf_view.specs.declared.faults.Want.TheVariants as want;
ghost use Rattle.image_replies.specs.CoreWords.{core_bytes};
ghost use Rattle.intake.specs.Parts.{Parts, state_of};
ghost use Rattle.intake.specs.Step.{HasCase};
ghost use Rattle.journal_layout.specs.Case.{Case};
ghost use Rattle.shared_disk.specs.Looks.{shared_of};
ghost use Rattle.case_info.specs.Fronts.{SeesFront};
ghost use Rattle.case_info.specs.Unpacking.{IsExecutable, IsWithoutFiles, UnpacksBetween, UnpacksCase, UnpacksCore, UnpacksOn, unpacked_view, unpacked_with};

use crate::case::{kind_of, number_of};
use crate::front::{core_in, front_of, size_of};
use crate::gathered::{builds_in, debug_files_of, executables_of, refusal_of, told_of};
use crate::unpacked_files::{UnpackedFile, kept_name, own_file, program_of, unpacked_files};
use archive_files::{Places, Reads, Refusal, find_cases, stay, unasked};
use build_replies::BuildAnswer;
use case_queries::{CaseImage, CoreFacts, StoredExecutable, ToldFiles, core_facts};
use disk_model::Disk;
use elf_view::Want;
use image_replies::{CoreFault, CoreImage};
use intake::{Archive, Settings, a_case_is_there_between, the_next_number_is_above};
use journal_layout::Kind;
use shared_disk::{Looked, SharedDisk, Unlocked};
use std::alloc::Global;

/// The files that are unpacked of a case, and the facts that an unpacking needs.
#[derive(Drop)]
pub struct Unpacking {
    /// The number of the case.
    pub seq: u32,
    /// Whether it is a core.
    pub is_core: bool,
    /// The files that a core maps, in the order of NT_FILE; or an executable by its own name.
    pub files: Vec<UnpackedFile>,
    /// The name of the program.
    pub program: Option<Vec<u8>>,
    /// The first fault of a core that has one. Then no file of it is known.
    pub fault: Option<CoreFault>,
}

/// Finds the files that are unpacked of a case, from a look at its archive on: for each mapped file of a core the executable that is used
/// for it, and the debug file of that. The case is named by its number, by its name, or as `last` or `latest`; no core is from after
/// `until`, in seconds since the epoch. The cases that were read are found again then.
///
/// # Errors
///
/// The refusals of an opening. `NoCase`: there is no such case, or a case was deleted meanwhile. `OutOfMemory` and `Disk`.
pub fn unpacking_of<S: SharedDisk + Drop>(
    alloc: Global,
    looked: Looked<S>,
    case: &[u8],
    until: u64,
) -> Result<Unpacking, Refusal>
    ensures { IfOk result (λ unpacking. UnpacksBetween S.SharedDisk ⟦<Unlocked<'static, S> as Disk>⟧ (shared_of looked) unpacking.seq result) }
{
    let seq = number_of(alloc, looked.unlocked(Vec::new(alloc)), case, until)?;
    Ok(unpacking_looked(alloc, looked, seq)?)
}

// The same of a case by its number.
fn unpacking_looked<S: SharedDisk + Drop>(
    alloc: Global,
    looked: Looked<S>,
    seq: u32,
) -> Result<Unpacking, Refusal>
    ensures { UnpacksBetween S.SharedDisk ⟦<Unlocked<'static, S> as Disk>⟧ (shared_of looked) seq result }
{
    the_next_number_is_above();
    a_case_is_there_between();
    let reads = Reads::Memory { seq };
    let places = match find_cases(alloc, looked.unlocked(Vec::new(alloc)), reads) {
        Ok(places) => places,
        Err(fault) => return Err(unasked(fault)),
    };
    let Places { numbers, ranges } = places;
    let disk = looked.unlocked(ranges);
    let unpacking = unpacking_on(alloc, disk, seq)?;
    match stay(alloc, looked.into_shared(), &numbers) {
        Ok(()) => Ok(unpacking),
        Err(fault) => Err(unasked(fault)),
    }
}

// Opens the archive on a disk, and finds the files that are unpacked of a case of it.
fn unpacking_on<D: Disk + Drop>(alloc: Global, disk: D, seq: u32) -> Result<Unpacking, Refusal>
    ensures { UnpacksOn D.Disk seq disk result }
{
    match Archive::open(alloc, disk, Settings { limit: 0 }) {
        Ok(archive) => {
            let mut archive = archive;
            unpacking_in(alloc, seq, &mut archive)
        }
        Err((fault, _)) => Err(Refusal::Open(fault)),
    }
}

// The same in an archive that is open.
fn unpacking_in<D: Disk>(
    alloc: Global,
    seq: u32,
    archive: &mut Archive<D>,
) -> Result<Unpacking, Refusal>
    ensures { IfOk result (UnpacksCase D.Disk archive.old seq) }
{
    match kind_of(archive, seq)? {
        Kind::Core => Ok(core_unpacking(alloc, seq, archive)?),
        Kind::Exec => Ok(executable_unpacking(alloc, seq, archive)?),
    }
}

// The same of an executable.
fn executable_unpacking<D: Disk>(
    alloc: Global,
    seq: u32,
    archive: &Archive<D>,
) -> Result<Unpacking, Refusal>
    ensures { IfOk result (λ unpacking. (c : Case) → HasCase (state_of archive.now) seq c → IsExecutable seq c unpacking) }
{
    let case = match archive.case(seq) {
        Ok(case) => case,
        Err(fault) => return Err(Refusal::Call(fault)),
    };
    Ok(Unpacking {
        seq,
        is_core: false,
        files: own_file(alloc, case)?,
        program: kept_name(alloc, Some(case.name.as_slice()))?,
        fault: None,
    })
}

// The same of a core.
fn core_unpacking<D: Disk>(
    alloc: Global,
    seq: u32,
    archive: &mut Archive<D>,
) -> Result<Unpacking, Refusal>
    ensures { IfOk result (λ unpacking. UnpacksCore D.Disk archive.old seq unpacking archive.new) }
{
    let size = size_of(seq, archive)?;
    let front = front_of(alloc, seq, size, Want::Core, archive)?;
    let image = CaseImage {
        seq,
        size,
        front: &front,
    };
    Ok(unpacking_by_front(alloc, image, archive)?)
}

// The same of a core of which the first bytes are at hand.
fn unpacking_by_front<D: Disk>(
    alloc: Global,
    image: CaseImage<'_>,
    archive: &mut Archive<D>,
) -> Result<Unpacking, Refusal>
    requires has { HasSize (state_of archive.old) image.seq image.size }
    requires short { length image.front.now ≤ image.size }
    ensures { IfOk result (λ unpacking. (old : Parts D) → HasSize (state_of old) image.entry.seq image.entry.size
        → SeesFront D.Disk old image.entry.seq want.Core image.entry.front.now archive.old → UnpacksCore D.Disk old image.entry.seq unpacking archive.new) }
{
    let core = match core_in(image.front).core {
        Ok(core) => core,
        Err(fault) => return Ok(without_files(alloc, image.seq, fault)),
    };
    let elf = core.elf();
    let image = CaseImage {
        seq: image.seq,
        size: image.size,
        front: elf.image(),
    };
    let told = told_of(alloc, image, &core, archive)?;
    let executables = executables_of(alloc, &told, archive)?;
    let debug_files = debug_files_of(alloc, &told, &executables, archive)?;
    let facts = stored_facts(
        alloc,
        image,
        &core,
        told,
        &executables,
        &debug_files,
        archive,
    )?;
    let files = files_with(alloc, builds_in(&facts), archive)?;
    Ok(Unpacking {
        seq: image.seq,
        is_core: true,
        files,
        program: kept_name(alloc, program_of(&core))?,
        fault: None,
    })
}

// A core that has a fault.
fn without_files(alloc: Global, seq: u32, fault: CoreFault) -> Unpacking
    ensures { IsWithoutFiles seq fault result }
{
    Unpacking {
        seq,
        is_core: true,
        files: Vec::new(alloc),
        program: None,
        fault: Some(fault),
    }
}

// Finds the build IDs of the mapped files of a core, with these executables and debug files, and the frames of no thread.
fn stored_facts<'a, D: Disk>(
    alloc: Global,
    image: CaseImage<'_>,
    core: &CoreImage<'a>,
    told: ToldFiles<'a>,
    executables: &'a [StoredExecutable],
    debug_files: &'a [StoredExecutable],
    archive: &mut Archive<D>,
) -> Result<CoreFacts<'a>, Refusal>
    requires has { HasSize (state_of archive.old) image.seq image.size }
    requires short { length image.front.now ≤ image.size }
    requires front { core_bytes core.now ≡ image.front.now }
    requires sound { IsSoundFront want.Core image.front.now }
    requires told { IsToldBy image told }
    ensures { IfOk result (λ facts. (before : Parts D) → SeesPieces D.Disk before image.entry told.entry.pieces.items archive.old
        → SaysFacts D.Disk before image.entry.seq image.entry.front.now image.entry.size (told_view told.entry.files) (map executable_view executables.now ++ map executable_view debug_files.now) 0 0 facts archive.new) }
{
    match core_facts(
        alloc,
        image,
        core,
        told,
        executables,
        debug_files,
        0,
        0,
        archive,
    ) {
        Ok(facts) => Ok(facts),
        Err(fault) => Err(refusal_of(fault)),
    }
}

// The mapped files of a core, by the facts that were read, with the cases of the archive.
fn files_with<D: Disk>(
    alloc: Global,
    rows: Option<&[BuildAnswer<'_>]>,
    archive: &Archive<D>,
) -> Result<Vec<UnpackedFile>, Refusal>
    ensures { IfOk result (λ files. map unpacked_view files.items ≡ unpacked_with (state_of archive.now).cases (option_map (λ rows. map build_view rows.now) rows.entry)) }
{
    match archive.cases() {
        Ok(cases) => Ok(unpacked_files(alloc, cases, rows)?),
        Err(fault) => Err(Refusal::Call(fault)),
    }
}
