// The answers to lines over a core's memory to which the executables are attached of the builds that were mapped. All of the image is read.
// For `at` and `bt` the debug files of these are read too.
ghost use Rattle.std.specs.Prelude.{◌≡◌, ◌++◌, Ok, false, map, IfOk};
ghost use Rattle.build_replies.specs.BuildsWords.{numbered_view};
ghost use Rattle.image_replies.specs.CoreWords.{core_bytes};
ghost use Rattle.memory_replies.specs.Answers.{AnswersWith, is_done};
ghost use Rattle.memory_replies.specs.Memory.{attached_view};
ghost use Rattle.script_lines.specs.declared.query.MemoryQuery.{MemoryQuery};
ghost use Rattle.script_lines.specs.Queries.{ask_by_build, memory_query};
ghost use Rattle.script_streams.specs.Replies.{PrintsOutcome, PrintsReply, printing};
ghost use Rattle.intake.specs.Parts.{state_of};
ghost use Rattle.case_queries.specs.Collecting.{debugs_for};
ghost use Rattle.case_queries.specs.CollectingWords.{executable_view, read_as, wanted_view};
ghost use Rattle.case_queries.specs.Inspecting.{answer_of, by_debugs, debugs_used_for, used_for};
ghost use Rattle.case_queries.specs.Keeping.{AreKept, StayCollected};
ghost use Rattle.case_queries.specs.LeaveLaws.{Leaves};
ghost use Rattle.case_queries.specs.Seeing.{IsKept};
ghost use Rattle.case_queries.specs.Steps.{Asks, Shows, ShowsCore, ShowsGathered};
ghost use Rattle.case_queries.specs.Windows.{IsSeenBy};

use crate::collect_executables::{
    LentExecutables, StoredExecutable, WantedCase, collect, lent_with,
};
use crate::kept_image::{Images, kept_if, see_image};
use crate::memory::{debugs_of_core, print_memory, refused_by, wanted_for_builds};
use address_space::Attached;
use archive_replies::reason;
use build_replies::{ChosenExecutables, listed, told_ids};
use disk_model::Disk;
use image_replies::{CoreImage, print_core_fault};
use intake::Archive;
use journal_layout::Kind;
use memory_replies::{Outcome, Window, print_at_with_debugs, print_bt_with_debugs};
use script_lines::MemoryQuery;
use script_streams::{Output, Reply, print_no};
use std::alloc::{AllocError, Global};

// Of the executables that are read for a core, those that are used for its mapped files, and the debug files of these.
#[derive(Drop)]
struct UsedExecutables<'e> {
    lent: LentExecutables<'e>,
    debugs: Vec<Attached<'e>>,
}

// Of these executables and debug files, which are read for a core, those that are used for its mapped files, each under the name of its
// file; lent. The error is that there is no memory.
fn lent_used<'a>(
    alloc: Global,
    core: &CoreImage<'a>,
    executables: &'a [StoredExecutable],
    debug_files: &'a [StoredExecutable],
) -> Result<UsedExecutables<'a>, AllocError>
    ensures attached { IfOk result (λ u. map attached_view u.lent.attached.items ≡ used_for (core_bytes core.now) (map executable_view executables.now ++ map executable_view debug_files.now)) }
    ensures debugs { IfOk result (λ u. map attached_view u.debugs.items ≡ debugs_used_for (core_bytes core.now) (map executable_view executables.now ++ map executable_view debug_files.now)) }
    ensures cases { IfOk result (λ u. map numbered_view u.lent.cases.items ≡ map read_as executables.now ++ map read_as debug_files.now) }
{
    let all = lent_with(alloc, executables, debug_files)?;
    let told = told_ids(alloc, core)?;
    let chosen = ChosenExecutables::of(alloc, listed(&told), &all.attached)?;
    Ok(UsedExecutables {
        lent: LentExecutables {
            attached: chosen.used,
            cases: all.cases,
        },
        debugs: chosen.debugs,
    })
}

// Prints the answer of a core with these. `at` and `bt` name functions by the debug files too.
fn print_with_used<O: Output>(
    alloc: Global,
    kind: Kind,
    query: &MemoryQuery,
    core: &CoreImage<'_>,
    used: &UsedExecutables<'_>,
    reply: &mut Reply<'_, O>,
) -> Outcome
    ensures { PrintsReply (printing O.Output reply.old reply.new) (AnswersWith result (by_debugs (memory_query query.now) (core_bytes core.now) (map attached_view used.now.lent.attached.items) (map attached_view used.now.debugs.items) (answer_of kind (memory_query query.now) (core_bytes core.now) (map numbered_view used.now.lent.cases.items) (map attached_view used.now.lent.attached.items)))) }
{
    let window = whole_window(core);
    match query {
        MemoryQuery::At { address } => print_at_with_debugs(
            alloc,
            reply,
            core,
            window.size,
            &used.lent.attached,
            &used.debugs,
            *address,
        ),
        MemoryQuery::Backtrace { thread } => print_bt_with_debugs(
            alloc,
            reply,
            core,
            window,
            &used.lent.attached,
            &used.debugs,
            *thread,
        ),
        _ => print_memory(alloc, kind, query, core, window, &used.lent, reply),
    }
}

// Prints the answer of a core with those of these executables that
// are used for its mapped files, and with the debug files of these.
fn print_with_debugs<O: Output>(
    alloc: Global,
    kind: Kind,
    query: &MemoryQuery,
    core: &CoreImage<'_>,
    executables: &[StoredExecutable],
    debug_files: &[StoredExecutable],
    reply: &mut Reply<'_, O>,
) -> Outcome
    ensures { PrintsReply (printing O.Output reply.old reply.new) (AnswersWith result (answer_of kind (ask_by_build (memory_query query.now)) (core_bytes core.now) (map read_as executables.now ++ map read_as debug_files.now) (map executable_view executables.now ++ map executable_view debug_files.now))) }
{
    match lent_used(alloc, core, executables, debug_files) {
        Ok(used) => print_with_used(alloc, kind, query, core, &used, reply),
        Err(_) => {
            print_no(reply, b"OutOfMemory");
            Outcome::OutOfMemory
        }
    }
}

// All bytes of a core that is read whole.
fn whole_window<'a>(core: &CoreImage<'a>) -> Window<'a>
    ensures { (query : MemoryQuery) → IsSeenBy query (core_bytes core.now) result.size result.at result.bytes.now (core_bytes core.now) }
{
    let bytes = core.elf().image();
    Window {
        size: bytes.len() as u64,
        at: 0,
        bytes,
    }
}

// The debug files that a line reads after these executables: `at` and `bt` alone name functions by them. The error is that there is no memory.
fn debugs_wanted<D: Disk>(
    alloc: Global,
    query: &MemoryQuery,
    core: &CoreImage<'_>,
    executables: &[StoredExecutable],
    archive: &Archive<D>,
) -> Result<Vec<WantedCase>, AllocError>
    requires { archive.now.stopped ≡ false }
    ensures { IfOk result (λ v. map wanted_view v.items ≡ debugs_for (ask_by_build (memory_query query.now)) (core_bytes core.now) (state_of archive.now).cases (map executable_view executables.now)) }
{
    match query {
        MemoryQuery::At { .. } => debugs_of_core(alloc, core, executables, archive),
        MemoryQuery::Backtrace { .. } => debugs_of_core(alloc, core, executables, archive),
        _ => Ok(Vec::new(alloc)),
    }
}

// Prints the answer of a core and these executables, with the debug files that the line reads after them. Returns the outcome.
fn print_gathered<O: Output, D: Disk>(
    alloc: Global,
    kind: Kind,
    query: &MemoryQuery,
    core: &CoreImage<'_>,
    executables: &[StoredExecutable],
    reply: &mut Reply<'_, O>,
    archive: &mut Archive<D>,
) -> Outcome
    requires { archive.old.stopped ≡ false }
    ensures answers { PrintsOutcome (printing O.Output reply.old reply.new) (λ text. ShowsGathered D.Disk archive.old kind (ask_by_build (memory_query query.now)) (core_bytes core.now) (core_bytes core.now) (map read_as executables.now) (map executable_view executables.now) text archive.new) (is_done result) }
    ensures leaves { Leaves D.Disk archive.old archive.new }
{
    let wanted = debugs_wanted(alloc, query, core, executables, archive);
    match collect(alloc, wanted, None, archive) {
        Ok(debug_files) => {
            print_with_debugs(alloc, kind, query, core, executables, &debug_files, reply)
        }
        Err(fault) => {
            print_no(reply, reason(fault));
            refused_by(fault)
        }
    }
}

// Answers a line of a core that has no fault.
fn answer_in_core<O: Output, D: Disk>(
    alloc: Global,
    kind: Kind,
    query: &MemoryQuery,
    core: &CoreImage<'_>,
    kept: &mut Option<Vec<StoredExecutable>>,
    reply: &mut Reply<'_, O>,
    archive: &mut Archive<D>,
) -> Outcome
    requires runs { archive.old.stopped ≡ false }
    requires kept { StayCollected D.Disk archive.old kept.old }
    ensures answers { PrintsOutcome (printing O.Output reply.old reply.new) (λ text. ShowsCore D.Disk archive.old kind (ask_by_build (memory_query query.now)) (core_bytes core.now) text archive.new) (is_done result) }
    ensures kept { StayCollected D.Disk archive.new kept.new }
{
    let wanted = wanted_for_builds(alloc, core, archive);
    match collect(alloc, wanted, kept.take(), archive) {
        Ok(executables) => {
            let outcome = print_gathered(alloc, kind, query, core, &executables, reply, archive);
            *kept = Some(executables);
            outcome
        }
        Err(refusal) => {
            print_no(reply, reason(refusal));
            refused_by(refusal)
        }
    }
}

// The same of an image, of which these are all bytes.
fn answer_image<O: Output, D: Disk>(
    alloc: Global,
    kind: Kind,
    query: &MemoryQuery,
    image: &[u8],
    kept: &mut Option<Vec<StoredExecutable>>,
    reply: &mut Reply<'_, O>,
    archive: &mut Archive<D>,
) -> Outcome
    requires runs { archive.old.stopped ≡ false }
    requires kept { StayCollected D.Disk archive.old kept.old }
    ensures answers { PrintsOutcome (printing O.Output reply.old reply.new) (λ text. Shows D.Disk archive.old kind (ask_by_build (memory_query query.now)) image.now text archive.new) (is_done result) }
    ensures kept { StayCollected D.Disk archive.new kept.new }
{
    match CoreImage::read(image) {
        Ok(core) => answer_in_core(alloc, kind, query, &core, kept, reply, archive),
        Err(fault) => {
            print_core_fault(reply, fault);
            Outcome::Refused
        }
    }
}

// Answers a line over a core's memory of a case of this kind, to which the executables are attached of the builds that were mapped. Says
// whether it was done; if not, it was refused.
pub(crate) fn answer_with_builds<O: Output, D: Disk>(
    seq: u32,
    kind: Kind,
    query: &MemoryQuery,
    images: &mut Images,
    reply: &mut Reply<'_, O>,
    archive: &mut Archive<D>,
) -> bool
    requires runs { archive.old.stopped ≡ false }
    requires kept { IsKept D.Disk archive.old images.old.kept }
    requires are_kept { AreKept D.Disk archive.old images.old.kept }
    ensures answers { PrintsOutcome (printing O.Output reply.old reply.new) (λ text. Asks D.Disk archive.old seq (ask_by_build (memory_query query.now)) (Ok kind) text archive.new) result }
    ensures kept { IsKept D.Disk archive.new images.new.kept }
    ensures are_kept { AreKept D.Disk archive.new images.new.kept }
{
    match see_image(seq, images.kept.take(), archive) {
        Ok(seen) => {
            let mut seen = seen;
            let outcome = answer_image(
                images.alloc,
                kind,
                query,
                &seen.image,
                &mut seen.executables,
                reply,
                archive,
            );
            images.kept = kept_if(outcome.had_memory(), seen);
            outcome.is_done()
        }
        Err(fault) => {
            print_no(reply, reason(fault));
            false
        }
    }
}
