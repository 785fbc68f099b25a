// The answers to lines over a core's memory.
ghost use Rattle.std.specs.Prelude.{◌≡◌, ◌++◌, ℕ, List, Ok, false, map, Some, IfOk, IfSome};
ghost use Rattle.image_replies.specs.CoreWords.{core_bytes};
ghost use Rattle.script_lines.specs.Queries.{memory_query};
ghost use Rattle.script_streams.specs.Replies.{PrintsOutcome, PrintsReply, printing};
ghost use Rattle.memory_replies.specs.Answers.{AnswersWith, is_done};
ghost use Rattle.memory_replies.specs.Memory.{attached_view};
ghost use Rattle.intake.specs.Parts.{state_of};
ghost use Rattle.build_replies.specs.BuildsWords.{numbered_view};
ghost use Rattle.build_replies.specs.Choosing.{told_files};
ghost use Rattle.case_queries.specs.Collecting.{CollectsAll, debugs_by, debugs_for, wanted_by, wanted_for};
ghost use Rattle.case_queries.specs.CollectingWords.{collected_view, executable_view, read_as, wanted_view};
ghost use Rattle.case_queries.specs.Asking.{IsAsking, asking_of, asking_query};
ghost use Rattle.case_queries.specs.Inspecting.{answer_of};
ghost use Rattle.case_queries.specs.Steps.{Asks, Shows, ShowsCore, ShowsGathered};
ghost use Rattle.case_queries.specs.Keeping.{AreKept, StayCollected};
ghost use Rattle.case_queries.specs.LeaveLaws.{Leaves};
ghost use Rattle.case_queries.specs.Seeing.{IsKept};
ghost use Rattle.case_queries.specs.Windows.{IsSeenBy};

use crate::asked::{Asked, AskedFiles, FramesAsked, builds_asked};
use crate::collect_executables::{
    LentExecutables, StoredExecutable, WantedCase, collect, lent_with, wanted_by_build,
    wanted_by_path, wanted_debugs,
};
use crate::find::answer_find;
use crate::front::size_of;
use crate::kept_image::{Images, kept_if};
use crate::window::{lent_window, see_memory};
use archive_replies::reason;
use build_replies::{listed, print_builds, told_ids};
use disk_model::Disk;
use frame_replies::{Shown, print_frame, print_unwind};
use image_replies::{CoreImage, a_sound_front_answers, print_core_fault};
use intake::{Archive, ArchiveFault};
use journal_layout::Kind;
use memory_replies::{
    Outcome, Window, a_sound_front_names_the_files, print_at, print_bt, print_dump, print_find,
    print_strings,
};
use script_lines::{BuildQuery, MemoryQuery};
use script_streams::{Output, Reply, print_no};
use std::alloc::{AllocError, Global};
use windowed_search::Sought;

// The most bytes of an image that is searched whole, in memory: each result is then printed as it is found. The results of a larger
// one are held until all of the image is read.
const SMALL: usize = 8_388_608;

// Answers a line over a core's memory of a case of this kind. Says whether it was done; if not, it was refused.
pub(crate) fn answer_by_memory<O: Output, D: Disk>(
    seq: u32,
    kind: Kind,
    query: &MemoryQuery,
    images: &mut Images,
    reply: &mut Reply<'_, O>,
    archive: &mut Archive<D>,
) -> bool
    requires runs { archive.old.stopped ≡ false }
    requires kept { IsKept D.Disk archive.old images.old.kept }
    requires are_kept { AreKept D.Disk archive.old images.old.kept }
    ensures answers { PrintsOutcome (printing O.Output reply.old reply.new) (λ text. Asks D.Disk archive.old seq (memory_query query.now) (Ok kind) text archive.new) result }
    ensures kept { IsKept D.Disk archive.new images.new.kept }
    ensures are_kept { AreKept D.Disk archive.new images.new.kept }
{
    // If there is no such case, reading the whole image says why.
    let Some(size) = size_of(seq, archive) else {
        return answer_seen(seq, kind, query, images, reply, archive);
    };
    match asked_in(query, size) {
        Some(asked) => answer_find(seq, kind, size, query, asked, images, reply, archive),
        None => answer_seen(seq, kind, query, images, reply, archive),
    }
}

// The question of a line about an image of that size, if it is read piece by piece for it.
fn asked_in(query: &MemoryQuery, size: usize) -> Option<Asked<'_>>
    ensures { IfSome result (λ a. IsAsking (asking_of a) × (memory_query query.now ≡ asking_query (asking_of a))) }
{
    match query {
        MemoryQuery::Find { needle } => {
            if size <= SMALL {
                return None;
            }
            Some(Asked::Sought(Sought::Bytes(needle.bytes.as_slice())))
        }
        MemoryQuery::Strings { least } => {
            if size <= SMALL || *least == 0 {
                return None;
            }
            Some(Asked::Sought(Sought::Texts(*least)))
        }
        MemoryQuery::Unwind { thread } => Some(Asked::Files(AskedFiles::Frames {
            thread: *thread,
            asked: FramesAsked::Shown(Shown::Stack),
        })),
        MemoryQuery::Lines { thread } => Some(Asked::Files(AskedFiles::Frames {
            thread: *thread,
            asked: FramesAsked::Shown(Shown::Source),
        })),
        MemoryQuery::Frame { thread, frame } => Some(Asked::Files(AskedFiles::Frames {
            thread: *thread,
            asked: FramesAsked::Registers(*frame),
        })),
        MemoryQuery::Builds(query) => Some(Asked::Files(AskedFiles::Builds(*query))),
        _ => None,
    }
}

// The same from as much of the image as the line wants in memory at once.
fn answer_seen<O: Output, D: Disk>(
    seq: u32,
    kind: Kind,
    query: &MemoryQuery,
    images: &mut Images,
    reply: &mut Reply<'_, O>,
    archive: &mut Archive<D>,
) -> bool
    requires runs { archive.old.stopped ≡ false }
    requires kept { IsKept D.Disk archive.old images.old.kept }
    requires are_kept { AreKept D.Disk archive.old images.old.kept }
    ensures answers { PrintsOutcome (printing O.Output reply.old reply.new) (λ text. Asks D.Disk archive.old seq (memory_query query.now) (Ok kind) text archive.new) result }
    ensures kept { IsKept D.Disk archive.new images.new.kept }
    ensures are_kept { AreKept D.Disk archive.new images.new.kept }
{
    match see_memory(images.alloc, seq, query, images.kept.take(), archive) {
        Ok(seen) => {
            let mut seen = seen;
            let outcome = answer_memory(
                images.alloc,
                kind,
                query,
                &seen.kept.image,
                lent_window(&seen.kept.image, seen.size, &seen.part),
                &mut seen.kept.executables,
                reply,
                archive,
            );
            images.kept = kept_if(outcome.had_memory(), seen.kept);
            outcome.is_done()
        }
        Err(fault) => {
            print_no(reply, reason(fault));
            false
        }
    }
}

// The same of an image of which this much is seen, with the executables that its process had mapped, if they are stored. They
// are kept for the lines over the same core that come next. Returns the outcome.
pub(crate) fn answer_memory<O: Output, D: Disk>(
    alloc: Global,
    kind: Kind,
    query: &MemoryQuery,
    front: &[u8],
    window: Window<'_>,
    kept: &mut Option<Vec<StoredExecutable>>,
    reply: &mut Reply<'_, O>,
    archive: &mut Archive<D>,
) -> Outcome
    requires runs { archive.old.stopped ≡ false }
    requires kept { StayCollected D.Disk archive.old kept.old }
    ensures answers { (image : List ℕ) → IsSeenBy query.now front.now window.entry.size window.entry.at window.entry.bytes.now image
        → PrintsOutcome (printing O.Output reply.old reply.new) (λ text. Shows D.Disk archive.old kind (memory_query query.now) image text archive.new) (is_done result) }
    ensures kept { StayCollected D.Disk archive.new kept.new }
{
    a_sound_front_answers();
    match CoreImage::read(front) {
        Ok(core) => answer_core(alloc, kind, query, &core, window, kept, reply, archive),
        Err(fault) => {
            print_core_fault(reply, fault);
            Outcome::Refused
        }
    }
}

// The same of a core that has no fault.
fn answer_core<O: Output, D: Disk>(
    alloc: Global,
    kind: Kind,
    query: &MemoryQuery,
    core: &CoreImage<'_>,
    window: Window<'_>,
    kept: &mut Option<Vec<StoredExecutable>>,
    reply: &mut Reply<'_, O>,
    archive: &mut Archive<D>,
) -> Outcome
    requires runs { archive.old.stopped ≡ false }
    requires kept { StayCollected D.Disk archive.old kept.old }
    ensures answers { (image : List ℕ) → IsSeenBy query.now (core_bytes core.now) window.entry.size window.entry.at window.entry.bytes.now image
        → PrintsOutcome (printing O.Output reply.old reply.new) (λ text. ShowsCore D.Disk archive.old kind (memory_query query.now) image text archive.new) (is_done result) }
    ensures kept { StayCollected D.Disk archive.new kept.new }
{
    a_sound_front_names_the_files();
    match collected(alloc, query, core, kept.take(), archive) {
        Ok(executables) => {
            let outcome = print_gathered(
                alloc,
                kind,
                query,
                core,
                window,
                &executables,
                reply,
                archive,
            );
            *kept = Some(executables);
            outcome
        }
        Err(refusal) => {
            print_no(reply, reason(refusal));
            refused_by(refusal)
        }
    }
}

// The outcome of a line that the archive refused for this reason.
pub(crate) fn refused_by(fault: ArchiveFault) -> Outcome
    ensures { is_done result ≡ false }
{
    match fault {
        ArchiveFault::OutOfMemory => Outcome::OutOfMemory,
        _ => Outcome::Refused,
    }
}

// The executables that a line reads with a core of which it sees enough.
fn wanted_for<D: Disk>(
    alloc: Global,
    query: &MemoryQuery,
    core: &CoreImage<'_>,
    archive: &Archive<D>,
) -> Result<Vec<WantedCase>, AllocError>
    requires { archive.now.stopped ≡ false }
    ensures { IfOk result (λ v. map wanted_view v.items ≡ wanted_for (memory_query query.now) (core_bytes core.now) (state_of archive.now).cases) }
{
    match query {
        MemoryQuery::Unwind { .. } => wanted_for_builds(alloc, core, archive),
        MemoryQuery::Lines { .. } => wanted_for_builds(alloc, core, archive),
        MemoryQuery::Frame { .. } => wanted_for_builds(alloc, core, archive),
        MemoryQuery::Builds(_) => wanted_for_builds(alloc, core, archive),
        MemoryQuery::Dump { .. } => wanted_by_path(alloc, core, archive),
        MemoryQuery::At { .. } => wanted_by_path(alloc, core, archive),
        MemoryQuery::Find { .. } => wanted_by_path(alloc, core, archive),
        MemoryQuery::Strings { .. } => wanted_by_path(alloc, core, archive),
        MemoryQuery::Backtrace { .. } => wanted_by_path(alloc, core, archive),
    }
}

// Those of a core of which all bytes are at hand, by the builds that the core names.
pub(crate) fn wanted_for_builds<D: Disk>(
    alloc: Global,
    core: &CoreImage<'_>,
    archive: &Archive<D>,
) -> Result<Vec<WantedCase>, AllocError>
    requires { archive.now.stopped ≡ false }
    ensures { IfOk result (λ v. map wanted_view v.items ≡ wanted_by (told_files (core_bytes core.now)) (state_of archive.now).cases) }
{
    let told = told_ids(alloc, core)?;
    wanted_by_build(alloc, listed(&told), archive)
}

// The executables of a core: those that are kept, if they are these, or else they are read now.
fn collected<D: Disk>(
    alloc: Global,
    query: &MemoryQuery,
    core: &CoreImage<'_>,
    kept: Option<Vec<StoredExecutable>>,
    archive: &mut Archive<D>,
) -> Result<Vec<StoredExecutable>, ArchiveFault>
    requires runs { archive.old.stopped ≡ false }
    requires kept { StayCollected D.Disk archive.old kept }
    ensures collected { CollectsAll D.Disk archive.old (wanted_for (memory_query query.now) (core_bytes core.now) (state_of archive.old).cases) (collected_view result) archive.new }
    ensures are { IfOk result (λ v. map read_as v.items ≡ wanted_for (memory_query query.now) (core_bytes core.now) (state_of archive.old).cases) }
    ensures kept { IfOk result (λ v. StayCollected D.Disk archive.new (Some v)) }
{
    let wanted = wanted_for(alloc, query, core, archive);
    collect(alloc, wanted, kept, archive)
}

// The debug files that a line reads after these executables, with a core of which it sees enough. The error is that there is no memory.
fn debugs_for<D: Disk>(
    alloc: Global,
    query: &MemoryQuery,
    core: &CoreImage<'_>,
    executables: &[StoredExecutable],
    archive: &Archive<D>,
) -> Result<Vec<WantedCase>, AllocError>
    requires { archive.now.stopped ≡ false }
    ensures { IfOk result (λ v. map wanted_view v.items ≡ debugs_for (memory_query query.now) (core_bytes core.now) (state_of archive.now).cases (map executable_view executables.now)) }
{
    match query {
        MemoryQuery::Unwind { .. } => debugs_of_core(alloc, core, executables, archive),
        MemoryQuery::Lines { .. } => debugs_of_core(alloc, core, executables, archive),
        MemoryQuery::Frame { .. } => debugs_of_core(alloc, core, executables, archive),
        MemoryQuery::Builds(BuildQuery::Used) => debugs_of_core(alloc, core, executables, archive),
        MemoryQuery::Builds(BuildQuery::Compared) => Ok(Vec::new(alloc)),
        MemoryQuery::Builds(BuildQuery::Wanted) => Ok(Vec::new(alloc)),
        MemoryQuery::Dump { .. } => Ok(Vec::new(alloc)),
        MemoryQuery::At { .. } => Ok(Vec::new(alloc)),
        MemoryQuery::Find { .. } => Ok(Vec::new(alloc)),
        MemoryQuery::Strings { .. } => Ok(Vec::new(alloc)),
        MemoryQuery::Backtrace { .. } => Ok(Vec::new(alloc)),
    }
}

// Those of the executables that are used for a core of which all bytes are at hand.
pub(crate) fn debugs_of_core<D: Disk>(
    alloc: Global,
    core: &CoreImage<'_>,
    executables: &[StoredExecutable],
    archive: &Archive<D>,
) -> Result<Vec<WantedCase>, AllocError>
    requires { archive.now.stopped ≡ false }
    ensures { IfOk result (λ v. map wanted_view v.items ≡ debugs_by (told_files (core_bytes core.now)) (map executable_view executables.now) (state_of archive.now).cases) }
{
    let told = told_ids(alloc, core)?;
    wanted_debugs(alloc, listed(&told), executables, archive)
}

// Prints the answer of a core and these executables, with the debug files that the line wants. Returns the outcome.
fn print_gathered<O: Output, D: Disk>(
    alloc: Global,
    kind: Kind,
    query: &MemoryQuery,
    core: &CoreImage<'_>,
    window: Window<'_>,
    executables: &[StoredExecutable],
    reply: &mut Reply<'_, O>,
    archive: &mut Archive<D>,
) -> Outcome
    requires { archive.old.stopped ≡ false }
    ensures answers { (image : List ℕ) → IsSeenBy query.now (core_bytes core.now) window.entry.size window.entry.at window.entry.bytes.now image
        → PrintsOutcome (printing O.Output reply.old reply.new) (λ text. ShowsGathered D.Disk archive.old kind (memory_query query.now) image (core_bytes core.now) (map read_as executables.now) (map executable_view executables.now) text archive.new) (is_done result) }
    ensures leaves { Leaves D.Disk archive.old archive.new }
{
    let wanted = debugs_for(alloc, query, core, executables, archive);
    match collect(alloc, wanted, None, archive) {
        Ok(debug_files) => print_with_executables(
            alloc,
            kind,
            query,
            core,
            window,
            executables,
            &debug_files,
            reply,
        ),
        Err(fault) => {
            print_no(reply, reason(fault));
            refused_by(fault)
        }
    }
}

// The same with these executables and debug files.
fn print_with_executables<O: Output>(
    alloc: Global,
    kind: Kind,
    query: &MemoryQuery,
    core: &CoreImage<'_>,
    window: Window<'_>,
    executables: &[StoredExecutable],
    debug_files: &[StoredExecutable],
    reply: &mut Reply<'_, O>,
) -> Outcome
    ensures { (image : List ℕ) → IsSeenBy query.now (core_bytes core.now) window.entry.size window.entry.at window.entry.bytes.now image
        → PrintsReply (printing O.Output reply.old reply.new) (AnswersWith result (answer_of kind (memory_query query.now) image (map read_as executables.now ++ map read_as debug_files.now) (map executable_view executables.now ++ map executable_view debug_files.now))) }
{
    match lent_with(alloc, executables, debug_files) {
        Ok(lent) => print_memory(alloc, kind, query, core, window, &lent, reply),
        Err(_) => {
            print_no(reply, b"OutOfMemory");
            Outcome::OutOfMemory
        }
    }
}

pub(crate) fn print_memory<O: Output>(
    alloc: Global,
    kind: Kind,
    query: &MemoryQuery,
    core: &CoreImage<'_>,
    window: Window<'_>,
    lent: &LentExecutables<'_>,
    reply: &mut Reply<'_, O>,
) -> Outcome
    ensures { (image : List ℕ) → IsSeenBy query.now (core_bytes core.now) window.entry.size window.entry.at window.entry.bytes.now image
        → PrintsReply (printing O.Output reply.old reply.new) (AnswersWith result (answer_of kind (memory_query query.now) image (map numbered_view lent.now.cases.items) (map attached_view lent.now.attached.items))) }
{
    let attached = lent.attached.as_slice();
    match query {
        MemoryQuery::Dump { first, length } => {
            print_dump(alloc, reply, core, window, attached, *first, *length)
        }
        MemoryQuery::At { address } => {
            print_at(alloc, reply, core, window.size, attached, *address)
        }
        MemoryQuery::Find { needle } => {
            print_find(alloc, reply, core, attached, needle.bytes.as_slice())
        }
        MemoryQuery::Strings { least } => { print_strings(alloc, reply, core, attached, *least) }
        MemoryQuery::Backtrace { thread } => {
            print_bt(alloc, reply, core, window, attached, *thread)
        }
        MemoryQuery::Unwind { thread } => {
            print_unwind(alloc, reply, core, attached, *thread, Shown::Stack)
        }
        MemoryQuery::Lines { thread } => {
            print_unwind(alloc, reply, core, attached, *thread, Shown::Source)
        }
        MemoryQuery::Frame { thread, frame } => {
            print_frame(alloc, reply, core, attached, *thread, *frame)
        }
        MemoryQuery::Builds(query) => print_builds(
            alloc,
            reply,
            core,
            attached,
            builds_asked(*query, &lent.cases),
        ),
    }
}
