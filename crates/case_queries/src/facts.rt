// The facts of a core that a screen shows beside its notes, as values.
ghost use Rattle.std.specs.Prelude.{◌≡◌, ◌≤◌, ◌++◌, ℕ, List, IfOk, OnOk, Option, length, map};
ghost use Rattle.address_space.specs.Source.{ExecutableView};
ghost use Rattle.address_space.specs.SpaceWords.{core_of};
ghost use Rattle.build_replies.specs.Builds.{NamedId, told_of};
ghost use Rattle.build_replies.specs.Choosing.{choice_of};
ghost use Rattle.build_replies.specs.ChoosingWords.{choice_view};
ghost use Rattle.build_replies.specs.Mapped.{told_view};
ghost use Rattle.elf_view.specs.declared.faults.Want.TheVariants.{Core};
ghost use Rattle.frame_replies.specs.FrameValues.{frames_of, frames_view};
ghost use Rattle.image_replies.specs.CoreWords.{core_bytes};
ghost use Rattle.intake.specs.Parts.{Parts, state_of};
ghost use Rattle.std.specs.Option.{option_map};
ghost use Rattle.case_queries.specs.CollectingWords.{executable_view};
ghost use Rattle.case_queries.specs.Facts.{AreFramesOf, AreOfThread, SaysFacts, lines_for};
ghost use Rattle.case_queries.specs.Fronts.{HasSize, IsSoundFront};
ghost use Rattle.case_queries.specs.Pieces.{BeginsWith, SeesPieces};
ghost use Rattle.case_queries.specs.Preparing.{AreChosenFor, prepared_views};
ghost use Rattle.case_queries.specs.ToldWords.{IsToldBy, files_told};
ghost use Rattle.case_queries.specs.Unwound.{BeginsWalks};

use crate::collect_executables::StoredExecutable;
use crate::frames::{UnwoundCore, process_in_core, walk_thread};
use crate::prepared::PreparedExecutables;
use crate::told::ToldFiles;
use crate::walk::{CaseImage, WalkFault};
use build_replies::{BuildAnswer, ChosenExecutables, build_answers, listed};
use disk_model::Disk;
use elf_view::a_sound_front_is_enough;
use frame_replies::{FramesAnswer, Walk};
use image_replies::CoreImage;
use intake::Archive;
use std::alloc::Global;

/// The frames of threads of a core, and the build IDs of its mapped files.
#[derive(Drop)]
pub struct CoreFacts<'a> {
    /// The frames of the threads, from number 0 on. `None` if the core has fewer.
    pub unwound: Vec<Option<FramesAnswer<'a>>>,
    /// The build IDs. `None` if it has no NT_FILE.
    pub builds: Option<Vec<BuildAnswer<'a>>>,
}

// How many frames of a thread get their source lines: so many of the first thread, which dumped, and none of another.
fn lines_for(lines: usize, thread: u64) -> usize
    ensures { result ≡ lines_for lines thread }
{
    if thread == 0 { lines } else { 0 }
}

// The frames of a thread, as values, with the source lines of so many of them, if it is the first. `None` if the core has no thread of that
// number.
fn thread_frames<'e, D: Disk>(
    alloc: Global,
    image: CaseImage<'_>,
    core: &CoreImage<'_>,
    found: &mut UnwoundCore<'_, '_, 'e>,
    thread: u64,
    lines: usize,
    archive: &mut Archive<D>,
) -> Result<Option<FramesAnswer<'e>>, WalkFault>
    requires has { HasSize (state_of archive.old) image.seq image.size }
    requires short { length image.front.now ≤ image.size }
    requires front { core_bytes core.now ≡ image.front.now }
    requires sound { IsSoundFront Core image.front.now }
    requires own { image.front.now ≡ core_of found.old.process.space }
    requires some { (b : List ℕ) × BeginsWith image found.old.pieces.items b }
    ensures told { IfOk result (λ u. (before : Parts D) (told : Option (List NamedId)) (stored : List ExecutableView) → BeginsWalks image.entry stored found.old
        → ((b : List ℕ) → BeginsWith image.entry found.old.pieces.items b → told_of b ≡ told)
        → SeesPieces D.Disk before image.entry found.old.pieces.items archive.old
        → AreOfThread D.Disk before image.entry.seq image.entry.front.now image.entry.size told stored lines thread u) }
    ensures process { found.new.process ≡ found.old.process }
    ensures pieces { OnOk result (found.new.pieces.items ≡ found.old.pieces.items) }
    ensures sees { OnOk result ((before : Parts D) → SeesPieces D.Disk before image.entry found.old.pieces.items archive.old
        → SeesPieces D.Disk before image.entry found.old.pieces.items archive.new) }
    ensures has { OnOk result (HasSize (state_of archive.new) image.entry.seq image.entry.size) }
{
    a_sound_front_is_enough();
    let Some(begun) = Walk::begin(alloc, core, thread) else {
        return Ok(None);
    };
    let unwound = walk_thread(alloc, image, found, begun, archive)?;
    let lines = lines_for(lines, thread);
    match found
        .process
        .frames(alloc, &unwound.walk, unwound.stop, lines)
    {
        Ok(frames) => Ok(Some(frames)),
        Err(_) => Err(WalkFault::OutOfMemory),
    }
}

// The frames of this many threads, with prepared executables, of which these are chosen, and the source lines of so many frames of the
// first thread. The process that all walks need is made once.
fn unwind_threads<'a, 'e, D: Disk>(
    alloc: Global,
    image: CaseImage<'_>,
    core: &CoreImage<'a>,
    told: ToldFiles<'a>,
    chosen: ChosenExecutables<'a>,
    prepared: &PreparedExecutables<'e>,
    threads: u64,
    lines: usize,
    archive: &mut Archive<D>,
) -> Result<Vec<Option<FramesAnswer<'e>>>, WalkFault>
    requires chosen { choice_view chosen ≡ choice_of (files_told told) (prepared_views prepared.now) }
    requires serve { AreChosenFor prepared.now (files_told told) }
    requires has { HasSize (state_of archive.old) image.seq image.size }
    requires short { length image.front.now ≤ image.size }
    requires front { core_bytes core.now ≡ image.front.now }
    requires sound { IsSoundFront Core image.front.now }
    requires told { IsToldBy image told }
    ensures told { IfOk result (λ all. (before : Parts D) → SeesPieces D.Disk before image.entry told.entry.pieces.items archive.old
        → AreFramesOf D.Disk before image.entry.seq image.entry.front.now image.entry.size (told_view told.entry.files) (prepared_views prepared.now) lines 0 all.items) }
    ensures sees { IfOk result (λ all. (before : Parts D) → SeesPieces D.Disk before image.entry told.entry.pieces.items archive.old
        → SeesPieces D.Disk before image.entry told.entry.pieces.items archive.new) }
    ensures count { IfOk result (λ all. length all.items ≡ threads) }
{
    let Ok(found) = process_in_core(alloc, core, told, chosen, &prepared.unwound) else {
        return Err(WalkFault::OutOfMemory);
    };
    let mut found = found;
    let mut all = Vec::new(alloc);
    for thread in 0..threads {
        let frames = thread_frames(alloc, image, core, &mut found, thread, lines, archive)?;
        let Ok(()) = all.push(frames) else {
            return Err(WalkFault::OutOfMemory);
        };
    }
    Ok(all)
}

/// Finds the frames of the first threads of a core, and the build IDs of its mapped files,
/// with the executables that are stored for them, and their debug files. Of the first thread,
/// which dumped, so many frames get their source lines. The core may be the first bytes alone
/// of the case's image. Of the rest it reads the bytes that the frames need.
///
/// # Errors
///
/// `Unread`: the image can't be read. `OutOfMemory`: there is no memory for the results.
pub fn core_facts<'a, D: Disk>(
    alloc: Global,
    image: CaseImage<'_>,
    core: &CoreImage<'a>,
    told: ToldFiles<'a>,
    executables: &'a [StoredExecutable],
    debug_files: &'a [StoredExecutable],
    threads: u64,
    lines: usize,
    archive: &mut Archive<D>,
) -> Result<CoreFacts<'a>, WalkFault>
    requires has { HasSize (state_of archive.old) image.seq image.size }
    requires short { length image.front.now ≤ image.size }
    requires front { core_bytes core.now ≡ image.front.now }
    requires sound { IsSoundFront Core image.front.now }
    requires told { IsToldBy image told }
    ensures { IfOk result (λ facts. (before : Parts D) → SeesPieces D.Disk before image.entry told.entry.pieces.items archive.old
        → SaysFacts D.Disk before image.entry.seq image.entry.front.now image.entry.size (told_view told.entry.files) (map executable_view executables.now ++ map executable_view debug_files.now) threads lines facts archive.new) }
{
    let Ok(prepared) = PreparedExecutables::of(alloc, &told, executables, debug_files) else {
        return Err(WalkFault::OutOfMemory);
    };
    Ok(core_facts_with(alloc, image, core, told, &prepared, threads, lines, archive)?)
}

/// Finds the same with executables and debug files that are prepared, which serve this core.
///
/// # Errors
///
/// Those of [`core_facts`].
pub fn core_facts_with<'a, 'e: 'a, D: Disk>(
    alloc: Global,
    image: CaseImage<'_>,
    core: &CoreImage<'a>,
    told: ToldFiles<'a>,
    prepared: &PreparedExecutables<'e>,
    threads: u64,
    lines: usize,
    archive: &mut Archive<D>,
) -> Result<CoreFacts<'a>, WalkFault>
    requires serve { AreChosenFor prepared.now (files_told told) }
    requires has { HasSize (state_of archive.old) image.seq image.size }
    requires short { length image.front.now ≤ image.size }
    requires front { core_bytes core.now ≡ image.front.now }
    requires sound { IsSoundFront Core image.front.now }
    requires told { IsToldBy image told }
    ensures { IfOk result (λ facts. (before : Parts D) → SeesPieces D.Disk before image.entry told.entry.pieces.items archive.old
        → SaysFacts D.Disk before image.entry.seq image.entry.front.now image.entry.size (told_view told.entry.files) (prepared_views prepared.now) threads lines facts archive.new) }
{
    let Ok(chosen) = ChosenExecutables::of(alloc, listed(&told.files), &prepared.attached) else {
        return Err(WalkFault::OutOfMemory);
    };
    let Ok(builds) = build_answers(alloc, &told.files, &prepared.attached) else {
        return Err(WalkFault::OutOfMemory);
    };
    match unwind_threads(
        alloc, image, core, told, chosen, prepared, threads, lines, archive,
    ) {
        Ok(unwound) => Ok(CoreFacts { unwound, builds }),
        Err(fault) => Err(fault),
    }
}
