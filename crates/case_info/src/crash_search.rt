// The crashes of many cores, over one archive that is open. The cores of one program are looked at one after the other, so that the
// executables that they use are prepared once.
ghost use Rattle.std.specs.Prelude.{◌≡◌, ◌≤◌, ◌++◌, [], IfOk, Ok, OnOk, Some, length, map, slice_get};
ghost use Rattle.std.specs.List.Sorted.{IsNonDecreasingBy, IsPermutation};
ghost use Rattle.std.specs.Option.{option_map};
ghost use Rattle.build_replies.specs.Mapped.{told_view};
ghost use Rattle.case_queries.specs.CollectingWords.{executable_view};
ghost use Rattle.case_queries.specs.ExecutableWords.{AreOf};
ghost use Rattle.case_queries.specs.Fronts.{HasSize, IsSoundFront};
ghost use Rattle.case_queries.specs.Pieces.{SeesPieces};
ghost use Rattle.case_queries.specs.Preparing.{StayPrepared};
ghost use Rattle.case_queries.specs.ToldWords.{IsToldBy};
ghost use Rattle.case_screens.specs.Core.{notes_read};
ghost use Rattle.core_crashes.specs.Crashes.{CrashedSaid};
ghost use Rattle.core_crashes.specs.Views.{crashed_said};
ghost use Rattle.elf_view.specs.declared.faults.Want.TheVariants as want;
ghost use Rattle.image_replies.specs.CoreWords.{core_bytes};
ghost use Rattle.intake.specs.Parts.{state_of};
ghost use Rattle.case_info.specs.Crashes.{FindsEach, first_thread};
ghost use Rattle.case_info.specs.CrashWords.{FindsMore, GoesOn, GoesOnBy, HasAdded, StayRead, TriesCrash, crashes_in};
ghost use Rattle.case_info.specs.Screens.{shown_count};

use crate::crashes::{crash_with, refused_in};
use crate::front::{core_in, front_of, size_of};
use crate::gathered::{debug_files_of, executables_of, told_of};
use archive_files::Refusal;
use case_queries::{CaseImage, ExecutableCases, PreparedExecutables, StoredExecutable, ToldFiles};
use case_tables::program_in;
use disk_model::Disk;
use elf_view::Want;
use group_tables::CrashedCore;
use image_replies::CoreImage;
use intake::Archive;
use journal_layout::Entry;
use std::alloc::{AllocError, Global};
use std::cmp::Ordering;

// A search for the crashes of cores.
#[derive(Drop)]
pub(crate) struct CrashSearch {
    // The numbers of the cores, in the order in which they are looked at.
    order: Vec<u32>,
    // The executables of the archive.
    stored: ExecutableCases,
    // The crashes of the first of them.
    found: Vec<CrashedCore>,
}

// Which of two cases is looked at first: by the programs that their names say, and of one program by their names.
fn by_program(a: &Entry, b: &Entry) -> Ordering {
    match program_in(a).cmp(program_in(b)) {
        Ordering::Equal => a.name.as_slice().cmp(b.name.as_slice()),
        order => order,
    }
}

// The same by their numbers.
fn by_case<D: Disk>(archive: &Archive<D>, a: u32, b: u32) -> Ordering {
    match (archive.case(a), archive.case(b)) {
        (Ok(a), Ok(b)) => by_program(a, b),
        _ => Ordering::Equal,
    }
}

// The numbers of cores in the order in which they are looked at. It decides how often executables are prepared, and no answer depends on it.
fn order_of<D: Disk>(
    alloc: Global,
    numbers: &[u32],
    archive: &Archive<D>,
) -> Result<Vec<u32>, AllocError>
    ensures { IfOk result (λ order. IsPermutation numbers.now order.items) }
{
    let mut order = numbers.to_vec(alloc)?;
    order.sort_by(|a, b| by_case(archive, *a, *b))?;
    Ok(order)
}

// The search before a core is looked at.
fn begin<D: Disk>(
    alloc: Global,
    numbers: &[u32],
    archive: &Archive<D>,
) -> Result<CrashSearch, Refusal>
    ensures order { IfOk result (λ search. IsPermutation numbers.now search.order.items) }
    ensures stored { IfOk result (λ search. AreOf (state_of archive.now).cases search.stored) }
    ensures found { IfOk result (λ search. crashes_in search ≡ []) }
{
    let stored = match ExecutableCases::of(alloc, archive) {
        Ok(stored) => stored,
        Err(fault) => return Err(Refusal::Call(fault)),
    };
    Ok(CrashSearch {
        order: order_of(alloc, numbers, archive)?,
        stored,
        found: Vec::new(alloc),
    })
}

// The number of the core that is looked at next.
fn next_core(search: &CrashSearch) -> Option<u32>
    ensures { result ≡ slice_get search.now.order.items (length (crashes_in search.now)) }
{
    search.order.get(search.found.len()).copied()
}

// Puts the crash of that core after those of others.
fn add_crash(search: &mut CrashSearch, crash: CrashedCore) -> Result<(), AllocError>
    ensures { OnOk result (HasAdded search.old (crashed_said crash) search.new) }
{
    search.found.push(crash)?;
    Ok(())
}

// The crash of a core, if these executables serve it, or if nothing more is read of it since it has a fault.
fn crash_if_served<D: Disk>(
    alloc: Global,
    seq: u32,
    prepared: &PreparedExecutables<'_>,
    stored: &ExecutableCases,
    archive: &mut Archive<D>,
) -> Result<Option<CrashedCore>, Refusal>
    requires stored { AreOf (state_of archive.old).cases stored.now }
    requires stay { StayPrepared D.Disk archive.old prepared.now }
    ensures { IfOk result (λ crash. TriesCrash D.Disk archive.old seq (option_map crashed_said crash) archive.new) }
{
    let size = size_of(seq, archive)?;
    let front = front_of(alloc, seq, size, Want::Core, archive)?;
    let core = match core_in(&front).core {
        Ok(core) => core,
        Err(fault) => return Ok(Some(refused_in(alloc, seq, fault, archive)?)),
    };
    let elf = core.elf();
    let image = CaseImage {
        seq,
        size,
        front: elf.image(),
    };
    let told = told_of(alloc, image, &core, archive)?;
    let serves = prepared.serve(alloc, &told, stored)?;
    if !serves {
        return Ok(None);
    }
    Ok(Some(crash_with(alloc, image, &core, told, prepared, archive)?))
}

// Finds the crashes of the cores that come next, up to one that these executables don't serve.
fn find_served<D: Disk>(
    alloc: Global,
    prepared: &PreparedExecutables<'_>,
    search: &mut CrashSearch,
    archive: &mut Archive<D>,
) -> Result<(), Refusal>
    requires stored { AreOf (state_of archive.old).cases search.old.stored }
    requires stay { StayPrepared D.Disk archive.old prepared.now }
    ensures { OnOk result (GoesOn D.Disk archive.old search.old search.new archive.new) }
{
    while let Some(seq) = next_core(search) {
        let Some(crash) = crash_if_served(alloc, seq, prepared, &search.stored, archive)? else {
            return Ok(());
        };
        add_crash(search, crash)?;
    }
    Ok(())
}

// Finds the crash of a core with the executables and debug files that were read for it, and then those of the cores that they serve.
fn find_by<'e, D: Disk>(
    alloc: Global,
    image: CaseImage<'_>,
    core: &CoreImage<'e>,
    told: ToldFiles<'e>,
    executables: &'e [StoredExecutable],
    debug_files: &'e [StoredExecutable],
    search: &mut CrashSearch,
    archive: &mut Archive<D>,
) -> Result<(), Refusal>
    requires has { HasSize (state_of archive.old) image.seq image.size }
    requires short { length image.front.now ≤ image.size }
    requires front { core_bytes core.now ≡ image.front.now }
    requires sound { IsSoundFront want.Core image.front.now }
    requires told { IsToldBy image told }
    requires seen { SeesPieces D.Disk archive.old image told.pieces.items archive.old }
    requires stored { AreOf (state_of archive.old).cases search.old.stored }
    requires executables { StayRead D.Disk archive.old executables.now }
    requires debugs { StayRead D.Disk archive.old debug_files.now }
    ensures { OnOk result (GoesOnBy D.Disk archive.old image.entry.seq image.entry.front.now image.entry.size (told_view told.entry.files) (map executable_view executables.now ++ map executable_view debug_files.now)
        (shown_count first_thread (notes_read (Ok core.now))) search.old search.new archive.new) }
{
    let prepared = PreparedExecutables::of(alloc, &told, executables, debug_files)?;
    let crash = crash_with(alloc, image, core, told, &prepared, archive)?;
    add_crash(search, crash)?;
    Ok(find_served(alloc, &prepared, search, archive)?)
}

// Finds the crash of the core that is looked at next, and those of the cores after it that use the same executables.
fn find_alike<D: Disk>(
    alloc: Global,
    seq: u32,
    search: &mut CrashSearch,
    archive: &mut Archive<D>,
) -> Result<(), Refusal>
    requires next { slice_get search.old.order.items (length (crashes_in search.old)) ≡ Some seq }
    requires stored { AreOf (state_of archive.old).cases search.old.stored }
    ensures { OnOk result (FindsMore D.Disk archive.old search.old search.new archive.new) }
{
    let size = size_of(seq, archive)?;
    let front = front_of(alloc, seq, size, Want::Core, archive)?;
    let core = match core_in(&front).core {
        Ok(core) => core,
        Err(fault) => {
            let crash = refused_in(alloc, seq, fault, archive)?;
            return Ok(add_crash(search, crash)?);
        }
    };
    let elf = core.elf();
    let image = CaseImage {
        seq,
        size,
        front: elf.image(),
    };
    let told = told_of(alloc, image, &core, archive)?;
    let executables = executables_of(alloc, &told, archive)?;
    let debug_files = debug_files_of(alloc, &told, &executables, archive)?;
    Ok(find_by(
        alloc,
        image,
        &core,
        told,
        &executables,
        &debug_files,
        search,
        archive,
    )?)
}

// The crashes that were found, in the order of the numbers of their cores.
fn in_order(search: CrashSearch) -> Vec<CrashedCore>
    ensures all { IsPermutation (crashes_in search) (map crashed_said result.items) }
    ensures rising { IsNonDecreasingBy (λ (crash : CrashedSaid). crash.number) (map crashed_said result.items) }
{
    let mut crashes = search.found;
    crashes.sort_unstable_by_key(|crash| crash.number);
    crashes
}

// The crashes of cores, in the order of their numbers.
pub(crate) fn crashes_of<D: Disk>(
    alloc: Global,
    numbers: &[u32],
    archive: &mut Archive<D>,
) -> Result<Vec<CrashedCore>, Refusal>
    ensures { IfOk result (λ crashes. FindsEach D.Disk archive.old numbers.now (map crashed_said crashes.items) archive.new) }
{
    let mut search = begin(alloc, numbers, archive)?;
    while let Some(seq) = next_core(&search) {
        find_alike(alloc, seq, &mut search, archive)?;
    }
    Ok(in_order(search))
}
