// The crashes of cores, over one archive that is open.
ghost use Rattle.std.specs.Prelude.{◌≡◌, ◌≤◌, IfOk, Ok, length};
ghost use Rattle.std.specs.Option.{option_map};
ghost use Rattle.build_replies.specs.Mapped.{told_view};
ghost use Rattle.case_queries.specs.Fronts.{HasSize, IsSoundFront};
ghost use Rattle.case_queries.specs.Pieces.{SeesPieces};
ghost use Rattle.case_queries.specs.Preparing.{AreChosenFor, prepared_views};
ghost use Rattle.case_queries.specs.ToldWords.{IsToldBy, files_told};
ghost use Rattle.case_screens.specs.Core.{notes_read};
ghost use Rattle.core_crashes.specs.Views.{crashed_said};
ghost use Rattle.elf_view.specs.declared.faults.Want.TheVariants as want;
ghost use Rattle.image_replies.specs.CoreWords.{core_bytes};
ghost use Rattle.intake.specs.Parts.{state_of};
ghost use Rattle.intake.specs.Step.{HasCase};
ghost use Rattle.journal_layout.specs.Case.{case_of};
ghost use Rattle.case_info.specs.Crashes.{IsCrashBy, IsRefusedBy, first_frames, first_thread};
ghost use Rattle.case_info.specs.CrashWords.{CrashesBy};
ghost use Rattle.case_info.specs.Screens.{shown_count};

use crate::case::InfoWords;
use crate::gathered::{builds_in, facts_with};
use archive_files::Refusal;
use case_queries::{CaseImage, CoreFacts, PreparedExecutables, ToldFiles};
use core_crashes::{crash_of, crash_without_thread, handled_in_case, refused_crash};
use disk_model::Disk;
use frame_replies::FramesAnswer;
use group_tables::CrashedCore;
use image_replies::{CoreFault, CoreImage};
use intake::Archive;
use journal_layout::Entry;
use std::alloc::Global;

// The frames of the thread that dumped, which Linux writes first.
const FIRST_THREAD: InfoWords = InfoWords {
    all_threads: false,
    is_json: false,
};

// A case of an archive.
fn case_in<D: Disk>(archive: &Archive<D>, seq: u32) -> Result<&Entry, Refusal>
    ensures { IfOk result (λ entry. HasCase (state_of archive.now) seq (case_of entry.now)) }
{
    match archive.case(seq) {
        Ok(entry) => Ok(entry),
        Err(fault) => Err(Refusal::Call(fault)),
    }
}

// The crash of a core whose headers or notes have a fault.
pub(crate) fn refused_in<D: Disk>(
    alloc: Global,
    seq: u32,
    fault: CoreFault,
    archive: &Archive<D>,
) -> Result<CrashedCore, Refusal>
    ensures { IfOk result (λ crash. IsRefusedBy archive.now seq fault (crashed_said crash)) }
{
    Ok(refused_crash(alloc, case_in(archive, seq)?, fault)?)
}

// The frames of the thread that dumped, if there is one.
fn first_frames<'s, 'a>(facts: &'s CoreFacts<'a>) -> Option<&'s FramesAnswer<'a>>
    ensures { option_map (λ frames. frames.now) result ≡ first_frames facts.now }
{
    match facts.unwound.first() {
        Some(Some(frames)) => Some(frames),
        _ => None,
    }
}

// The crash of a core, by the facts of its memory.
fn crash_by<'a, D: Disk>(
    alloc: Global,
    seq: u32,
    size: usize,
    core: &CoreImage<'a>,
    facts: &CoreFacts<'a>,
    archive: &mut Archive<D>,
) -> Result<CrashedCore, Refusal>
    requires { HasSize (state_of archive.old) seq size }
    ensures { IfOk result (λ crash. IsCrashBy D.Disk archive.old seq size (core_bytes core.now) facts.now (crashed_said crash) archive.new) }
{
    let Some(frames) = first_frames(facts) else {
        return Ok(crash_without_thread(alloc, case_in(archive, seq)?)?);
    };
    let handled = match handled_in_case(alloc, seq, size, core, frames, archive) {
        Ok(handled) => handled,
        Err(fault) => return Err(Refusal::Call(fault)),
    };
    let case = case_in(archive, seq)?;
    Ok(crash_of(alloc, case, core, frames, handled, builds_in(facts))?)
}

// The crash of a core, with executables and debug files that are prepared and serve it.
pub(crate) fn crash_with<'a, 'e: 'a, D: Disk>(
    alloc: Global,
    image: CaseImage<'_>,
    core: &CoreImage<'a>,
    told: ToldFiles<'a>,
    prepared: &PreparedExecutables<'e>,
    archive: &mut Archive<D>,
) -> Result<CrashedCore, Refusal>
    requires serve { AreChosenFor prepared.now (files_told told) }
    requires has { HasSize (state_of archive.old) image.seq image.size }
    requires short { length image.front.now ≤ image.size }
    requires front { core_bytes core.now ≡ image.front.now }
    requires sound { IsSoundFront want.Core image.front.now }
    requires told { IsToldBy image told }
    requires seen { SeesPieces D.Disk archive.old image told.pieces.items archive.old }
    ensures { IfOk result (λ crash. CrashesBy D.Disk archive.old image.entry.seq image.entry.front.now image.entry.size (told_view told.entry.files) (prepared_views prepared.now) (shown_count first_thread (notes_read (Ok core.now)))
        (crashed_said crash) archive.new) }
{
    let facts = facts_with(alloc, image, core, told, prepared, FIRST_THREAD, archive)?;
    Ok(crash_by(alloc, image.seq, image.size, core, &facts, archive)?)
}
