// The executables that a line over memory reads with its core.
ghost use Rattle.std.specs.Prelude.{◌≡◌, ◌∷◌, ◌++◌, [], ℕ, List, false, map, IfOk, IsTrue, OnOk, Some};
ghost use Rattle.image_replies.specs.CoreWords.{core_bytes};
ghost use Rattle.intake.specs.Parts.{state_of};
ghost use Rattle.journal_layout.specs.Case.{case_of};
ghost use Rattle.memory_replies.specs.FileNameWords.{AreNamesOf};
ghost use Rattle.memory_replies.specs.Memory.{attached_view};
ghost use Rattle.build_replies.specs.Builds.{told_or_none};
ghost use Rattle.build_replies.specs.BuildsWords.{numbered_view};
ghost use Rattle.build_replies.specs.Choosing.{choice_of};
ghost use Rattle.build_replies.specs.ChoosingWords.{choice_view};
ghost use Rattle.build_replies.specs.Mapped.{id_view, told_view};
ghost use Rattle.build_replies.specs.NameWords.{names_in};
ghost use Rattle.case_queries.specs.Collecting.{Collects, CollectsAll, Wanted, debugs_by, is_named_by, is_wanted, named_by, own_debugs, wanted_by, wanted_of};
ghost use Rattle.case_queries.specs.CollectingWords.{executable_view, collected_view, read_as, wanted_view};
ghost use Rattle.case_queries.specs.Keeping.{StayCollected};
ghost use Rattle.case_queries.specs.ToldWords.{files_told};

use crate::kept_image::see_image;
use crate::told::ToldFiles;
use address_space::Attached;
use build_replies::{
    ChosenExecutables, FrontId, NumberedCase, StoredNames, build_names, debug_names, listed,
};
use disk_model::Disk;
use image_replies::CoreImage;
use intake::{Archive, ArchiveFault};
use journal_layout::{Entry, Kind, Name};
use memory_replies::FileNames;
use std::alloc::{AllocError, Global};
use stream_names::copied;

/// A stored executable, by its number and its name.
#[derive(Drop)]
pub struct StoredExecutable {
    pub(crate) seq: u32,
    pub(crate) path: Name,
    pub(crate) image: Vec<u8>,
}

// A case whose executable is wanted.
#[derive(Drop)]
pub(crate) struct WantedCase {
    pub(crate) seq: u32,
    pub(crate) path: Name,
}

// Those whose names the core's NT_FILE has, in the order of their numbers. The error is that there is no memory.
pub(crate) fn wanted_by_path<D: Disk>(
    alloc: Global,
    core: &CoreImage<'_>,
    archive: &Archive<D>,
) -> Result<Vec<WantedCase>, AllocError>
    requires { archive.now.stopped ≡ false }
    ensures { IfOk result (λ v. map wanted_view v.items ≡ wanted_of (core_bytes core.now) (state_of archive.now).cases) }
{
    match archive.cases() {
        Ok(entries) => wanted_among(alloc, core, entries),
        Err(_) => Ok(Vec::new(alloc)),
    }
}

fn wanted_among(
    alloc: Global,
    core: &CoreImage<'_>,
    entries: &[Entry],
) -> Result<Vec<WantedCase>, AllocError>
    ensures { IfOk result (λ v. map wanted_view v.items ≡ wanted_of (core_bytes core.now) (map case_of entries.now)) }
{
    let names = FileNames::of(alloc, core)?;
    let mut wanted = Vec::new(alloc);
    for entry in entries {
        add_wanted(&names, entry, &mut wanted)?;
    }
    Ok(wanted)
}

fn add_wanted(
    names: &FileNames<'_>,
    entry: &Entry,
    wanted: &mut Vec<WantedCase>,
) -> Result<(), AllocError>
    ensures { OnOk result ((core : List ℕ) → AreNamesOf core names.now → map wanted_view wanted.new.items ≡ map wanted_view wanted.old.items ++ wanted_of core (case_of entry.now ∷ [])) }
{
    if is_wanted(names, entry) {
        wanted.push(WantedCase {
            seq: entry.seq,
            path: copied(entry.name.as_slice()),
        })?;
    }
    Ok(())
}

fn is_wanted(names: &FileNames<'_>, entry: &Entry) -> bool
    ensures { (core : List ℕ) → AreNamesOf core names.now → result ≡ is_wanted core (case_of entry.now) }
{
    match entry.kind {
        Kind::Core => false,
        Kind::Exec => names.contains(entry.name.as_slice()),
    }
}

// Those that are stored under the names of these mapped files, or of their builds, in the order of their numbers. The error is that there is
// no memory.
pub(crate) fn wanted_by_build<D: Disk>(
    alloc: Global,
    files: &[FrontId<'_>],
    archive: &Archive<D>,
) -> Result<Vec<WantedCase>, AllocError>
    requires { archive.now.stopped ≡ false }
    ensures { IfOk result (λ v. map wanted_view v.items ≡ wanted_by (map id_view files.now) (state_of archive.now).cases) }
{
    match archive.cases() {
        Ok(entries) => wanted_for_files(alloc, files, entries),
        Err(_) => Ok(Vec::new(alloc)),
    }
}

fn wanted_for_files(
    alloc: Global,
    files: &[FrontId<'_>],
    entries: &[Entry],
) -> Result<Vec<WantedCase>, AllocError>
    ensures { IfOk result (λ v. map wanted_view v.items ≡ wanted_by (map id_view files.now) (map case_of entries.now)) }
{
    let builds = build_names(alloc, files)?;
    let names = StoredNames::of(alloc, files, &builds)?;
    named_among(alloc, &names, entries)
}

// The executables that have these names, in the order of their numbers. The error is that there is no memory.
fn named_among(
    alloc: Global,
    names: &StoredNames<'_>,
    entries: &[Entry],
) -> Result<Vec<WantedCase>, AllocError>
    ensures { IfOk result (λ v. map wanted_view v.items ≡ named_by (names_in names.now) (map case_of entries.now)) }
{
    let mut wanted = Vec::new(alloc);
    for entry in entries {
        add_named(names, entry, &mut wanted)?;
    }
    Ok(wanted)
}

fn add_named(
    names: &StoredNames<'_>,
    entry: &Entry,
    wanted: &mut Vec<WantedCase>,
) -> Result<(), AllocError>
    ensures { OnOk result (map wanted_view wanted.new.items ≡ map wanted_view wanted.old.items ++ named_by (names_in names.now) (case_of entry.now ∷ [])) }
{
    if is_named(names, entry) {
        wanted.push(WantedCase {
            seq: entry.seq,
            path: copied(entry.name.as_slice()),
        })?;
    }
    Ok(())
}

fn is_named(names: &StoredNames<'_>, entry: &Entry) -> bool
    ensures { result ≡ is_named_by (names_in names.now) (case_of entry.now) }
{
    match entry.kind {
        Kind::Core => false,
        Kind::Exec => names.contains(entry.name.as_slice()),
    }
}

// The debug files of those of the executables that are used for these mapped files, in the order of their numbers. The error is that there
// is no memory.
pub(crate) fn wanted_debugs<D: Disk>(
    alloc: Global,
    files: &[FrontId<'_>],
    executables: &[StoredExecutable],
    archive: &Archive<D>,
) -> Result<Vec<WantedCase>, AllocError>
    requires { archive.now.stopped ≡ false }
    ensures { IfOk result (λ v. map wanted_view v.items ≡ debugs_by (map id_view files.now) (map executable_view executables.now) (state_of archive.now).cases) }
{
    match archive.cases() {
        Ok(entries) => debugs_among(alloc, files, executables, entries),
        Err(_) => Ok(Vec::new(alloc)),
    }
}

fn debugs_among(
    alloc: Global,
    files: &[FrontId<'_>],
    executables: &[StoredExecutable],
    entries: &[Entry],
) -> Result<Vec<WantedCase>, AllocError>
    ensures { IfOk result (λ v. map wanted_view v.items ≡ debugs_by (map id_view files.now) (map executable_view executables.now) (map case_of entries.now)) }
{
    let lent = lent(alloc, executables)?;
    let chosen = ChosenExecutables::of(alloc, files, &lent.attached)?;
    let names = debug_names(alloc, &chosen.used)?;
    let stored = StoredNames::of_names(alloc, &names)?;
    named_among(alloc, &stored, entries)
}

// The cases that are stored under the name of the debug file of an
// executable's build. The only error is that there is no memory.
pub(crate) fn wanted_own_debugs<D: Disk>(
    alloc: Global,
    image: &[u8],
    archive: &Archive<D>,
) -> Result<Vec<WantedCase>, AllocError>
    requires { archive.now.stopped ≡ false }
    ensures { IfOk result (λ v. map wanted_view v.items ≡ own_debugs image.now (state_of archive.now).cases) }
{
    match archive.cases() {
        Ok(entries) => own_debugs_among(alloc, image, entries),
        Err(_) => Ok(Vec::new(alloc)),
    }
}

fn own_debugs_among(
    alloc: Global,
    image: &[u8],
    entries: &[Entry],
) -> Result<Vec<WantedCase>, AllocError>
    ensures { IfOk result (λ v. map wanted_view v.items ≡ own_debugs image.now (map case_of entries.now)) }
{
    let executable = [Attached { path: b"", image }];
    let names = debug_names(alloc, &executable)?;
    let stored = StoredNames::of_names(alloc, &names)?;
    named_among(alloc, &stored, entries)
}

// Whether one of those that are kept is the case.
fn is_read(executable: &StoredExecutable, case: &WantedCase) -> bool
    ensures { IsTrue result → read_as executable.now ≡ wanted_view case.now }
{
    executable.seq == case.seq && executable.path.as_slice() == case.path.as_slice()
}

// Whether those that are kept are these cases.
pub(crate) fn are_read(executables: &[StoredExecutable], wanted: &[WantedCase]) -> bool
    ensures { IsTrue result → map read_as executables.now ≡ map wanted_view wanted.now }
{
    if executables.len() != wanted.len() {
        return false;
    }
    for i in 0..wanted.len() {
        if !is_read(&executables[i], &wanted[i]) {
            return false;
        }
    }
    true
}

// The executables of these cases: those that are kept, if they are these; else they are read now.
fn kept_or_read<D: Disk>(
    alloc: Global,
    wanted: &[WantedCase],
    kept: Option<Vec<StoredExecutable>>,
    archive: &mut Archive<D>,
) -> Result<Vec<StoredExecutable>, ArchiveFault>
    requires { StayCollected D.Disk archive.old kept }
    ensures collects { Collects D.Disk archive.old (map wanted_view wanted.now) (collected_view result) archive.new }
    ensures are { IfOk result (λ v. map read_as v.items ≡ map wanted_view wanted.now) }
{
    if let Some(executables) = kept {
        if are_read(&executables, wanted) {
            return Ok(executables);
        }
    }
    read_each(alloc, wanted, archive)
}

// The same, as they may be kept.
pub(crate) fn collect<D: Disk>(
    alloc: Global,
    wanted: Result<Vec<WantedCase>, AllocError>,
    kept: Option<Vec<StoredExecutable>>,
    archive: &mut Archive<D>,
) -> Result<Vec<StoredExecutable>, ArchiveFault>
    requires { StayCollected D.Disk archive.old kept }
    ensures collected { (ws : List Wanted) → IfOk wanted (λ v. map wanted_view v.items ≡ ws) → CollectsAll D.Disk archive.old ws (collected_view result) archive.new }
    ensures are { (ws : List Wanted) → IfOk wanted (λ v. map wanted_view v.items ≡ ws) → IfOk result (λ v. map read_as v.items ≡ ws) }
    ensures kept { IfOk result (λ v. StayCollected D.Disk archive.new (Some v)) }
{
    let Ok(wanted) = wanted else {
        return Err(ArchiveFault::OutOfMemory);
    };
    kept_or_read(alloc, &wanted, kept, archive)
}

/// Reads the executables that are stored under the names of a core's mapped
/// files, or of the builds that the core names, in the order of their numbers.
///
/// # Errors
///
/// Those of `image` of `Archive`. `OutOfMemory`: there is no memory to hold them.
pub fn stored_executables<D: Disk>(
    alloc: Global,
    told: &ToldFiles<'_>,
    archive: &mut Archive<D>,
) -> Result<Vec<StoredExecutable>, ArchiveFault>
    requires { archive.old.stopped ≡ false }
    ensures collects { CollectsAll D.Disk archive.old (wanted_by (told_or_none (told_view told.now.files)) (state_of archive.old).cases) (collected_view result) archive.new }
    ensures are { IfOk result (λ v. map read_as v.items ≡ wanted_by (told_or_none (told_view told.now.files)) (state_of archive.old).cases) }
{
    let wanted = wanted_by_build(alloc, listed(&told.files), archive);
    collect(alloc, wanted, None, archive)
}

/// Reads the debug files of those of the executables that are used for a core's mapped files, in the order of their numbers: those that
/// are stored under the names of the debug files of their builds.
///
/// # Errors
///
/// Those of `image` of `Archive`. `OutOfMemory`: there is no memory to hold them.
pub fn stored_debug_files<D: Disk>(
    alloc: Global,
    told: &ToldFiles<'_>,
    executables: &[StoredExecutable],
    archive: &mut Archive<D>,
) -> Result<Vec<StoredExecutable>, ArchiveFault>
    requires { archive.old.stopped ≡ false }
    ensures collects { CollectsAll D.Disk archive.old (debugs_by (told_or_none (told_view told.now.files)) (map executable_view executables.now) (state_of archive.old).cases) (collected_view result) archive.new }
    ensures are { IfOk result (λ v. map read_as v.items ≡ debugs_by (told_or_none (told_view told.now.files)) (map executable_view executables.now) (state_of archive.old).cases) }
{
    let wanted = wanted_debugs(alloc, listed(&told.files), executables, archive);
    collect(alloc, wanted, None, archive)
}

// Reads these, one after the other.
fn read_each<D: Disk>(
    alloc: Global,
    wanted: &[WantedCase],
    archive: &mut Archive<D>,
) -> Result<Vec<StoredExecutable>, ArchiveFault>
    ensures collects { Collects D.Disk archive.old (map wanted_view wanted.now) (collected_view result) archive.new }
    ensures are { IfOk result (λ v. map read_as v.items ≡ map wanted_view wanted.now) }
{
    let mut found = Vec::new(alloc);
    for case in wanted {
        let seen = see_image(case.seq, None, archive)?;
        let Ok(()) = add_read(case, seen.image, &mut found) else {
            return Err(ArchiveFault::OutOfMemory);
        };
    }
    Ok(found)
}

// Puts an executable that was read after the others.
fn add_read(
    case: &WantedCase,
    image: Vec<u8>,
    found: &mut Vec<StoredExecutable>,
) -> Result<(), AllocError>
    ensures view { OnOk result (map executable_view found.new.items ≡ map executable_view found.old.items ++ (record { path = (wanted_view case.now).1; image = image.items }) ∷ []) }
    ensures are { OnOk result (map read_as found.new.items ≡ map read_as found.old.items ++ wanted_view case.now ∷ []) }
{
    found.push(StoredExecutable {
        seq: case.seq,
        path: copied(case.path.as_slice()),
        image,
    })?;
    Ok(())
}

// Executables, lent, and the cases that they are stored as.
#[derive(Drop)]
pub(crate) struct LentExecutables<'e> {
    pub(crate) attached: Vec<Attached<'e>>,
    pub(crate) cases: Vec<NumberedCase<'e>>,
}

// The same, lent. The error is that there is no memory for the lists of them.
pub(crate) fn lent<'a>(
    alloc: Global,
    executables: &'a [StoredExecutable],
) -> Result<LentExecutables<'a>, AllocError>
    ensures attached { IfOk result (λ l. map attached_view l.attached.items ≡ map executable_view executables.now) }
    ensures cases { IfOk result (λ l. map numbered_view l.cases.items ≡ map read_as executables.now) }
{
    let mut attached = Vec::with_capacity(alloc, executables.len())?;
    let mut cases = Vec::with_capacity(alloc, executables.len())?;
    for executable in executables {
        let path = executable.path.as_slice();
        attached.push(Attached {
            path,
            image: &executable.image,
        })?;
        cases.push(NumberedCase {
            number: executable.seq,
            name: path,
        })?;
    }
    Ok(LentExecutables { attached, cases })
}

/// Of the executables that are stored for the mapped files of a core, and of their debug files, those that are used, each under the name of
/// its mapped file.
///
/// # Errors
///
/// There is no memory for the lists of them.
pub fn chosen_executables<'a>(
    alloc: Global,
    told: &ToldFiles<'a>,
    executables: &'a [StoredExecutable],
    debug_files: &'a [StoredExecutable],
) -> Result<ChosenExecutables<'a>, AllocError>
    ensures are { IfOk result (λ chosen. choice_view chosen ≡ choice_of (files_told told.now) (map executable_view executables.now ++ map executable_view debug_files.now)) }
{
    let lent = lent_with(alloc, executables, debug_files)?;
    let chosen = ChosenExecutables::of(alloc, listed(&told.files), &lent.attached)?;
    Ok(chosen)
}

// Executables and debug files, lent.
pub(crate) fn lent_with<'a>(
    alloc: Global,
    executables: &'a [StoredExecutable],
    debug_files: &'a [StoredExecutable],
) -> Result<LentExecutables<'a>, AllocError>
    ensures attached { IfOk result (λ l. map attached_view l.attached.items ≡ map executable_view executables.now ++ map executable_view debug_files.now) }
    ensures cases { IfOk result (λ l. map numbered_view l.cases.items ≡ map read_as executables.now ++ map read_as debug_files.now) }
{
    let first = lent(alloc, executables)?;
    let more = lent(alloc, debug_files)?;
    let mut attached = first.attached;
    let mut cases = first.cases;
    attached.extend_from_slice(&more.attached)?;
    cases.extend_from_slice(&more.cases)?;
    Ok(LentExecutables { attached, cases })
}
