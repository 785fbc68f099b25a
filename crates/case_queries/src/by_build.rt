// The answers to `unwind`, `frame`, `builds`, `used` and `wants` of a core that is read piece by piece: by executables of the builds that were
// mapped, and their debug files.
ghost use Rattle.std.specs.Prelude.{◌≡◌, ◌≤◌, ◌++◌, false, length, map, IfOk};
ghost use Rattle.build_replies.specs.BuildsWords.{numbered_view};
ghost use Rattle.build_replies.specs.Mapped.{id_view};
ghost use Rattle.elf_view.specs.declared.faults.Want.TheVariants.{Core};
ghost use Rattle.image_replies.specs.CoreWords.{core_bytes};
ghost use Rattle.intake.specs.Parts.{Parts, state_of};
ghost use Rattle.memory_replies.specs.Answers.{is_done};
ghost use Rattle.memory_replies.specs.Memory.{attached_view};
ghost use Rattle.script_streams.specs.Replies.{PrintsOutcome, printing};
ghost use Rattle.case_queries.specs.Asking.{debugs_asked, files_asked, files_asking};
ghost use Rattle.case_queries.specs.CollectingWords.{executable_view, read_as, wanted_view};
ghost use Rattle.case_queries.specs.Finding.{AsksFront, IsFrontOfCase};
ghost use Rattle.case_queries.specs.Fronts.{HasSize, IsSoundFront, ReadsFront};
ghost use Rattle.case_queries.specs.Keeping.{StayCollected};
ghost use Rattle.case_queries.specs.LeaveLaws.{Leaves};
ghost use Rattle.case_queries.specs.Pieces.{SeesPieces};
ghost use Rattle.case_queries.specs.ToldWords.{ArePiecesOfCase, IsToldBy, ShowsGathered, ShowsTold};

use crate::asked::{AskedFiles, builds_asked};
use crate::collect_executables::{
    LentExecutables, StoredExecutable, WantedCase, collect, lent_with, wanted_by_build,
    wanted_debugs,
};
use crate::find::print_no_memory;
use crate::found::print_found;
use crate::frames::frames_in_core;
use crate::memory::refused_by;
use crate::told::{ToldFiles, told_files};
use crate::walk::CaseImage;
use archive_replies::reason;
use build_replies::{FrontId, listed, print_told};
use disk_model::Disk;
use image_replies::CoreImage;
use intake::Archive;
use memory_replies::Outcome;
use script_lines::BuildQuery;
use script_streams::{Output, Reply, print_no};
use std::alloc::{AllocError, Global};

// Prints the answer to a question about a core, with the executables that are stored for its mapped files.
fn print_asked<'a, O: Output, D: Disk>(
    alloc: Global,
    image: CaseImage<'_>,
    core: &CoreImage<'a>,
    told: ToldFiles<'a>,
    lent: &LentExecutables<'a>,
    asked: AskedFiles,
    reply: &mut Reply<'_, O>,
    archive: &mut Archive<D>,
) -> Outcome
    requires has { HasSize (state_of archive.old) image.seq image.size }
    requires front { core_bytes core.now ≡ image.front.now }
    requires sound { IsSoundFront Core image.front.now }
    requires told { IsToldBy image told }
    ensures { (before : Parts D) → SeesPieces D.Disk before image.entry told.entry.pieces.items archive.old
        → PrintsOutcome (printing O.Output reply.old reply.new) (λ text. ShowsTold D.Disk before image.entry told.entry.pieces.items (map attached_view lent.now.attached.items) (files_asking asked (map numbered_view lent.now.cases.items)) text archive.new) (is_done result) }
{
    match asked {
        AskedFiles::Frames { thread, asked } => {
            frames_in_core(
                alloc,
                image,
                core,
                told,
                &lent.attached,
                thread,
                asked,
                reply,
                archive,
            )
        }
        AskedFiles::Builds(query) => print_told(
            alloc,
            reply,
            &told.files,
            &lent.attached,
            builds_asked(query, &lent.cases),
        ),
    }
}

// The debug files that the line reads after these executables. The error is that there is no memory.
fn debugs_asked<D: Disk>(
    alloc: Global,
    asked: AskedFiles,
    files: &[FrontId<'_>],
    executables: &[StoredExecutable],
    archive: &Archive<D>,
) -> Result<Vec<WantedCase>, AllocError>
    requires { archive.now.stopped ≡ false }
    ensures { IfOk result (λ v. map wanted_view v.items ≡ debugs_asked asked (map id_view files.now) (map executable_view executables.now) (state_of archive.now).cases) }
{
    match asked {
        AskedFiles::Frames { .. } => wanted_debugs(alloc, files, executables, archive),
        AskedFiles::Builds(BuildQuery::Used) => wanted_debugs(alloc, files, executables, archive),
        AskedFiles::Builds(BuildQuery::Compared) => Ok(Vec::new(alloc)),
        AskedFiles::Builds(BuildQuery::Wanted) => Ok(Vec::new(alloc)),
    }
}

// The same with these executables and debug files.
fn print_with<O: Output, D: Disk>(
    alloc: Global,
    image: CaseImage<'_>,
    core: &CoreImage<'_>,
    told: ToldFiles<'_>,
    executables: &[StoredExecutable],
    debug_files: &[StoredExecutable],
    asked: AskedFiles,
    reply: &mut Reply<'_, O>,
    archive: &mut Archive<D>,
) -> Outcome
    requires has { HasSize (state_of archive.old) image.seq image.size }
    requires front { core_bytes core.now ≡ image.front.now }
    requires sound { IsSoundFront Core image.front.now }
    requires told { IsToldBy image told }
    ensures { (before : Parts D) → SeesPieces D.Disk before image.entry told.entry.pieces.items archive.old
        → PrintsOutcome (printing O.Output reply.old reply.new) (λ text. ShowsTold D.Disk before image.entry told.entry.pieces.items (map executable_view executables.now ++ map executable_view debug_files.now) (files_asking asked (map read_as executables.now ++ map read_as debug_files.now)) text archive.new) (is_done result) }
{
    match lent_with(alloc, executables, debug_files) {
        Ok(lent) => print_asked(alloc, image, core, told, &lent, asked, reply, archive),
        Err(_) => print_no_memory(reply),
    }
}

// The same with these executables. The debug files that the line wants are read now.
fn print_gathered<O: Output, D: Disk>(
    alloc: Global,
    image: CaseImage<'_>,
    core: &CoreImage<'_>,
    told: ToldFiles<'_>,
    executables: &[StoredExecutable],
    asked: AskedFiles,
    reply: &mut Reply<'_, O>,
    archive: &mut Archive<D>,
) -> Outcome
    requires runs { archive.old.stopped ≡ false }
    requires has { HasSize (state_of archive.old) image.seq image.size }
    requires front { core_bytes core.now ≡ image.front.now }
    requires sound { IsSoundFront Core image.front.now }
    requires told { IsToldBy image told }
    requires own { ArePiecesOfCase D.Disk archive.old image told.pieces.items }
    ensures answers { (before : Parts D) → SeesPieces D.Disk before image.entry told.entry.pieces.items archive.old
        → PrintsOutcome (printing O.Output reply.old reply.new) (λ text. ShowsGathered D.Disk before archive.old image.entry told.entry asked (map read_as executables.now) (map executable_view executables.now) text archive.new) (is_done result) }
    ensures leaves { Leaves D.Disk archive.old archive.new }
{
    let wanted = debugs_asked(alloc, asked, listed(&told.files), executables, archive);
    match collect(alloc, wanted, None, archive) {
        Ok(debug_files) => print_with(
            alloc,
            image,
            core,
            told,
            executables,
            &debug_files,
            asked,
            reply,
            archive,
        ),
        Err(refusal) => {
            print_no(reply, reason(refusal));
            refused_by(refusal)
        }
    }
}

// The same with those that are stored for the files. They are kept for the lines over the same core that come next.
fn print_collected<O: Output, D: Disk>(
    alloc: Global,
    image: CaseImage<'_>,
    core: &CoreImage<'_>,
    told: ToldFiles<'_>,
    asked: AskedFiles,
    kept: &mut Option<Vec<StoredExecutable>>,
    reply: &mut Reply<'_, O>,
    archive: &mut Archive<D>,
) -> Outcome
    requires runs { archive.old.stopped ≡ false }
    requires has { HasSize (state_of archive.old) image.seq image.size }
    requires front { core_bytes core.now ≡ image.front.now }
    requires sound { IsSoundFront Core image.front.now }
    requires told { IsToldBy image told }
    requires own { ArePiecesOfCase D.Disk archive.old image told.pieces.items }
    requires kept { StayCollected D.Disk archive.old kept.old }
    ensures answers { (before : Parts D) → SeesPieces D.Disk before image.entry told.entry.pieces.items archive.old
        → PrintsOutcome (printing O.Output reply.old reply.new) (λ text. AsksFront D.Disk before image.entry (files_asked asked) text archive.new) (is_done result) }
    ensures kept { StayCollected D.Disk archive.new kept.new }
    ensures leaves { Leaves D.Disk archive.old archive.new }
{
    let wanted = wanted_by_build(alloc, listed(&told.files), archive);
    match collect(alloc, wanted, kept.take(), archive) {
        Ok(executables) => {
            let outcome = print_gathered(
                alloc,
                image,
                core,
                told,
                &executables,
                asked,
                reply,
                archive,
            );
            *kept = Some(executables);
            outcome
        }
        Err(refusal) => {
            print_no(reply, reason(refusal));
            refused_by(refusal)
        }
    }
}

// Answers a line over call frames or builds of a core of which the first bytes are at hand. Its mapped files are found first, each with the
// build ID that the core has for it; then the executables are read that are stored for them.
pub(crate) fn answer_by_build<O: Output, D: Disk>(
    alloc: Global,
    image: CaseImage<'_>,
    core: &CoreImage<'_>,
    asked: AskedFiles,
    kept: &mut Option<Vec<StoredExecutable>>,
    reply: &mut Reply<'_, O>,
    archive: &mut Archive<D>,
) -> Outcome
    requires runs { archive.old.stopped ≡ false }
    requires has { HasSize (state_of archive.old) image.seq image.size }
    requires short { length image.front.now ≤ image.size }
    requires front { core_bytes core.now ≡ image.front.now }
    requires sound { IsSoundFront Core image.front.now }
    requires own { IsFrontOfCase D.Disk archive.old image }
    requires kept { StayCollected D.Disk archive.old kept.old }
    ensures answers { (before : Parts D) → ReadsFront D.Disk before image.entry.seq image.entry.front.now archive.old
        → PrintsOutcome (printing O.Output reply.old reply.new) (λ text. AsksFront D.Disk before image.entry (files_asked asked) text archive.new) (is_done result) }
    ensures kept { StayCollected D.Disk archive.new kept.new }
    ensures leaves { Leaves D.Disk archive.old archive.new }
{
    match told_files(alloc, image, core, archive) {
        Ok(told) => print_collected(alloc, image, core, told, asked, kept, reply, archive),
        Err(fault) => print_found(reply, Err(fault)),
    }
}
