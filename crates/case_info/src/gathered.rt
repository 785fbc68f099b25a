// The facts of the memory of a core, over one archive that is open.
ghost use Rattle.std.specs.Prelude.{◌≡◌, ◌≤◌, ◌++◌, false, IfOk, Ok, length, map, option_map};
ghost use Rattle.build_replies.specs.Builds.{told_or_none};
ghost use Rattle.build_replies.specs.Mapped.{told_view};
ghost use Rattle.case_queries.specs.Collecting.{CollectsAll, debugs_by, wanted_by};
ghost use Rattle.case_queries.specs.CollectingWords.{executable_view, read_as};
ghost use Rattle.case_queries.specs.Facts.{SaysFacts};
ghost use Rattle.case_queries.specs.Fronts.{HasSize, IsSoundFront, ReadsFront};
ghost use Rattle.case_queries.specs.Pieces.{SeesPieces};
ghost use Rattle.case_queries.specs.Preparing.{AreChosenFor, prepared_views};
ghost use Rattle.case_queries.specs.ToldWords.{IsToldBy, files_told};
ghost use Rattle.case_screens.specs.Core.{notes_read};
ghost use Rattle.elf_view.specs.declared.faults.Want.TheVariants as want;
ghost use Rattle.image_replies.specs.CoreWords.{core_bytes};
ghost use Rattle.intake.specs.Parts.{Parts, state_of};
ghost use Rattle.case_info.specs.Screens.{most_threads, screen_lines, shown_count};

use crate::case::InfoWords;
use archive_files::Refusal;
use build_replies::BuildAnswer;
use case_queries::{
    CaseImage, CoreFacts, PreparedExecutables, StoredExecutable, ToldFiles, WalkFault, core_facts,
    core_facts_with, stored_debug_files, stored_executables, told_files,
};
use case_screens::{MOST_THREADS, thread_count};
use disk_model::Disk;
use image_replies::CoreImage;
use intake::Archive;
use std::alloc::Global;

// How many frames of the thread that dumped get their source lines. It is what a report shows at most, and a screen shows fewer. Each
// look-up reads the line tables of an executable from their start, so JSON, which has every frame, has no more lines than these.
const SCREEN_LINES: usize = 24;

// The mapped files of a core, each with the build ID that the core has for it. The core may be the first bytes alone of an image.
pub(crate) fn told_of<'a, D: Disk>(
    alloc: Global,
    image: CaseImage<'_>,
    core: &CoreImage<'a>,
    archive: &mut Archive<D>,
) -> Result<ToldFiles<'a>, Refusal>
    requires has { HasSize (state_of archive.old) image.seq image.size }
    requires short { length image.front.now ≤ image.size }
    requires front { core_bytes core.now ≡ image.front.now }
    requires sound { IsSoundFront want.Core image.front.now }
    ensures sees { IfOk result (λ told. (before : Parts D) → ReadsFront D.Disk before image.entry.seq image.entry.front.now archive.old
        → SeesPieces D.Disk before image.entry told.pieces.items archive.new) }
    ensures told { IfOk result (IsToldBy image.entry) }
    ensures has { IfOk result (λ told. HasSize (state_of archive.new) image.entry.seq image.entry.size) }
{
    match told_files(alloc, image, core, archive) {
        Ok(told) => Ok(told),
        Err(fault) => Err(refusal_of(fault)),
    }
}

// The executables that are stored for the mapped files of a core.
pub(crate) fn executables_of<D: Disk>(
    alloc: Global,
    told: &ToldFiles<'_>,
    archive: &mut Archive<D>,
) -> Result<Vec<StoredExecutable>, Refusal>
    requires { archive.old.stopped ≡ false }
    ensures collects { IfOk result (λ v. CollectsAll D.Disk archive.old (wanted_by (told_or_none (told_view told.now.files)) (state_of archive.old).cases) (Ok (map executable_view v.items)) archive.new) }
    ensures are { IfOk result (λ v. map read_as v.items ≡ wanted_by (told_or_none (told_view told.now.files)) (state_of archive.old).cases) }
{
    match stored_executables(alloc, told, archive) {
        Ok(executables) => Ok(executables),
        Err(fault) => Err(Refusal::Call(fault)),
    }
}

// The debug files of those of these executables that are used.
pub(crate) fn debug_files_of<D: Disk>(
    alloc: Global,
    told: &ToldFiles<'_>,
    executables: &[StoredExecutable],
    archive: &mut Archive<D>,
) -> Result<Vec<StoredExecutable>, Refusal>
    requires { archive.old.stopped ≡ false }
    ensures collects { IfOk result (λ v. CollectsAll D.Disk archive.old (debugs_by (told_or_none (told_view told.now.files)) (map executable_view executables.now) (state_of archive.old).cases) (Ok (map executable_view v.items)) archive.new) }
    ensures are { IfOk result (λ v. map read_as v.items ≡ debugs_by (told_or_none (told_view told.now.files)) (map executable_view executables.now) (state_of archive.old).cases) }
{
    match stored_debug_files(alloc, told, executables, archive) {
        Ok(debug_files) => Ok(debug_files),
        Err(fault) => Err(Refusal::Call(fault)),
    }
}

// Finds the frames of the threads of a core that are shown, the source lines of the first ones, and the build IDs of its mapped files, with
// these executables and debug files.
pub(crate) fn facts_of<'a, D: Disk>(
    alloc: Global,
    image: CaseImage<'_>,
    core: &CoreImage<'a>,
    told: ToldFiles<'a>,
    executables: &'a [StoredExecutable],
    debug_files: &'a [StoredExecutable],
    words: InfoWords,
    archive: &mut Archive<D>,
) -> Result<CoreFacts<'a>, Refusal>
    requires has { HasSize (state_of archive.old) image.seq image.size }
    requires short { length image.front.now ≤ image.size }
    requires front { core_bytes core.now ≡ image.front.now }
    requires sound { IsSoundFront want.Core image.front.now }
    requires told { IsToldBy image told }
    ensures { IfOk result (λ facts. (before : Parts D) → SeesPieces D.Disk before image.entry told.entry.pieces.items archive.old
        → SaysFacts D.Disk before image.entry.seq image.entry.front.now image.entry.size (told_view told.entry.files) (map executable_view executables.now ++ map executable_view debug_files.now) (shown_count words (notes_read (Ok core.now))) screen_lines facts archive.new) }
{
    let count = shown_count(core, words);
    match core_facts(
        alloc,
        image,
        core,
        told,
        executables,
        debug_files,
        count,
        SCREEN_LINES,
        archive,
    ) {
        Ok(facts) => Ok(facts),
        Err(fault) => Err(refusal_of(fault)),
    }
}

// The same without source lines, with executables and debug files that are prepared, which serve the core.
pub(crate) fn facts_with<'a, 'e: 'a, D: Disk>(
    alloc: Global,
    image: CaseImage<'_>,
    core: &CoreImage<'a>,
    told: ToldFiles<'a>,
    prepared: &PreparedExecutables<'e>,
    words: InfoWords,
    archive: &mut Archive<D>,
) -> Result<CoreFacts<'a>, Refusal>
    requires serve { AreChosenFor prepared.now (files_told told) }
    requires has { HasSize (state_of archive.old) image.seq image.size }
    requires short { length image.front.now ≤ image.size }
    requires front { core_bytes core.now ≡ image.front.now }
    requires sound { IsSoundFront want.Core image.front.now }
    requires told { IsToldBy image told }
    ensures { IfOk result (λ facts. (before : Parts D) → SeesPieces D.Disk before image.entry told.entry.pieces.items archive.old
        → SaysFacts D.Disk before image.entry.seq image.entry.front.now image.entry.size (told_view told.entry.files) (prepared_views prepared.now) (shown_count words (notes_read (Ok core.now))) 0 facts archive.new) }
{
    let count = shown_count(core, words);
    match core_facts_with(alloc, image, core, told, prepared, count, 0, archive) {
        Ok(facts) => Ok(facts),
        Err(fault) => Err(refusal_of(fault)),
    }
}

// Finds the build IDs of the mapped files of a core, with these executables, and the frames of no thread.
pub(crate) fn builds_of<'a, D: Disk>(
    alloc: Global,
    image: CaseImage<'_>,
    core: &CoreImage<'a>,
    told: ToldFiles<'a>,
    executables: &'a [StoredExecutable],
    archive: &mut Archive<D>,
) -> Result<CoreFacts<'a>, Refusal>
    requires has { HasSize (state_of archive.old) image.seq image.size }
    requires short { length image.front.now ≤ image.size }
    requires front { core_bytes core.now ≡ image.front.now }
    requires sound { IsSoundFront want.Core image.front.now }
    requires told { IsToldBy image told }
    ensures { IfOk result (λ facts. (before : Parts D) → SeesPieces D.Disk before image.entry told.entry.pieces.items archive.old
        → SaysFacts D.Disk before image.entry.seq image.entry.front.now image.entry.size (told_view told.entry.files) (map executable_view executables.now) 0 0 facts archive.new) }
{
    match core_facts(alloc, image, core, told, executables, &[], 0, 0, archive) {
        Ok(facts) => Ok(facts),
        Err(fault) => Err(refusal_of(fault)),
    }
}

// Why the facts of a core's memory are not found.
pub(crate) fn refusal_of(fault: WalkFault) -> Refusal {
    match fault {
        WalkFault::Unread(fault) => Refusal::Call(fault),
        WalkFault::OutOfMemory => Refusal::OutOfMemory,
    }
}

// The build IDs that were found, borrowed.
pub(crate) fn builds_in<'s, 'a>(facts: &'s CoreFacts<'a>) -> Option<&'s [BuildAnswer<'a>]>
    ensures { option_map (λ rows. rows.now) result ≡ option_map (λ v. v.items) facts.now.builds }
{
    match &facts.builds {
        Some(rows) => Some(rows.as_slice()),
        None => None,
    }
}

// How many threads are shown at most.
fn most_threads(words: InfoWords) -> u64
    ensures { result ≡ most_threads words }
{
    match (words.all_threads, words.is_json) {
        (false, _) => 1,
        (true, false) => MOST_THREADS as u64,
        (true, true) => u64::MAX,
    }
}

// How many threads of a core are shown.
fn shown_count(core: &CoreImage<'_>, words: InfoWords) -> u64
    ensures { result ≡ shown_count words (notes_read (Ok core.now)) }
{
    thread_count(core).min(most_threads(words))
}
