// The answers to `find` and `strings` of a core that is read piece by piece, and which lines are answered so.
ghost use Rattle.std.specs.Prelude.{◌≡◌, ◌<◌, ◌≤◌, ◌-◌, ◌^◌, false, ℕ, List, None, Ok, Some, map, is_ok, length};
ghost use Rattle.address_space.specs.Source.{Space};
ghost use Rattle.address_space.specs.Whole.{IsFrontOf};
ghost use Rattle.elf_view.specs.Header.{segments_of};
ghost use Rattle.image_replies.specs.CoreWords.{core_bytes};
ghost use Rattle.intake.specs.Parts.{Parts, state_of};
ghost use Rattle.image_replies.specs.Core.{core_fault_of};
ghost use Rattle.elf_view.specs.declared.faults.Want.TheVariants.{Core};
ghost use Rattle.memory_replies.specs.Answers.{AnswersWith, is_done, memory_reply};
ghost use Rattle.memory_replies.specs.Memory.{attached_view};
ghost use Rattle.script_streams.specs.Replies.{PrintsOutcome, PrintsReply, PrintsText, printing};
ghost use Rattle.windowed_search.specs.Rising.{IsRising};
ghost use Rattle.windowed_search.specs.ScanWords.{IsAim, aim_of};
ghost use Rattle.windowed_search.specs.StepWords.{StepsFit};
ghost use Rattle.case_queries.specs.CollectingWords.{executable_view};
ghost use Rattle.case_queries.specs.Asking.{IsAsking, aim_answer, asking_of, asking_query, for_aim};
ghost use Rattle.case_queries.specs.Finding.{AsksFront, Finds, IsFrontOfCase, ShowsFound};
ghost use Rattle.case_queries.specs.Fronts.{HasSize, IsEnough, IsSoundFront, ReadsFront, SeesEnough};
ghost use Rattle.script_lines.specs.Queries.{memory_query};
ghost use Rattle.case_queries.specs.Keeping.{AreKept, StayCollected};
ghost use Rattle.case_queries.specs.Seeing.{IsKept};
ghost use Rattle.case_queries.specs.Steps.{Asks};
ghost use Rattle.journal_layout.specs.declared.entry.Kind.{Kind};
ghost use Rattle.case_queries.specs.LeaveLaws.{Leaves};
ghost use Rattle.case_queries.specs.Walking.{LeadsOn};

use crate::asked::Asked;
use crate::by_build::answer_by_build;
use crate::collect_executables::{StoredExecutable, collect, lent, wanted_by_path};
use crate::found::print_found;
use crate::front::{read_up_to, see_front};
use crate::kept_image::{Images, KeptImage, kept_if};
use crate::memory::{answer_memory, refused_by};
use crate::walk::{CaseImage, PIECE, Walk, WalkFault};
use address_space::Attached;
use archive_replies::reason;
use disk_model::Disk;
use elf_view::Want;
use image_replies::{CoreImage, a_sound_front_answers, print_core_fault};
use intake::Archive;
use journal_layout::Kind;
use memory_replies::{
    Outcome, Window, a_sound_front_names_the_files, print_find, print_strings, space_with,
};
use script_lines::MemoryQuery;
use script_streams::{Output, Reply, print_no, print_ok};
use std::alloc::Global;
use windowed_search::{Found, MemoryScan, Sought, Step, plan};

// The results of a search in a core's memory, by the steps through it: the image is read once, window by window.
fn search_windows<D: Disk>(
    alloc: Global,
    image: CaseImage<'_>,
    steps: &[Step<'_>],
    sought: Sought<'_>,
    archive: &mut Archive<D>,
) -> Result<Found, WalkFault>
    requires has { HasSize (state_of archive.old) image.seq image.size }
    requires some { IsAim (aim_of sought) }
    requires fit { StepsFit image.size 0 0 steps.now }
    requires short { length image.front.now ≤ image.size }
    ensures { (before : Parts D) (space : Space) → ReadsFront D.Disk before image.entry.seq image.entry.front.now archive.old
        → LeadsOn space image.entry 0 0 steps.now (2 ^ 64 - 1)
        → ((b : List ℕ) → IsFrontOf image.entry.front.now image.entry.size b → IsRising 0 (segments_of b))
        → Finds D.Disk before space (aim_of sought.entry) image.entry archive.new result }
{
    let Ok(buffer) = Vec::with_capacity(alloc, PIECE as usize) else {
        return Err(WalkFault::OutOfMemory);
    };
    let mut walk = Walk {
        at: 0,
        buffer,
        search: MemoryScan::new(alloc, sought),
    };
    walk.walk(image, steps, archive)?;
    match walk.search.end() {
        Ok(found) => Ok(found),
        Err(_) => Err(WalkFault::OutOfMemory),
    }
}

// Prints that there is no memory.
pub(crate) fn print_no_memory<O: Output>(reply: &mut Reply<'_, O>) -> Outcome
    ensures states { PrintsText (printing O.Output reply.old reply.new) memory_reply }
    ensures done { is_done result ≡ false }
{
    print_no(reply, b"OutOfMemory");
    Outcome::OutOfMemory
}

// Prints the results of a search in the memory of a core that is read whole.
fn find_in_bytes<O: Output>(
    alloc: Global,
    bytes: &[u8],
    attached: &[Attached<'_>],
    sought: Sought<'_>,
    reply: &mut Reply<'_, O>,
) -> Outcome
    requires some { IsAim (aim_of sought) }
    requires clean { core_fault_of bytes.now ≡ None }
    ensures { PrintsReply (printing O.Output reply.old reply.new) (AnswersWith result (aim_answer (aim_of sought.entry) bytes.now (map attached_view attached.now))) }
{
    let core = CoreImage::read(bytes).unwrap();
    match sought {
        Sought::Bytes(needle) => print_find(alloc, reply, &core, attached, needle),
        Sought::Texts(least) => print_strings(alloc, reply, &core, attached, least),
    }
}

// The same of a core of which the first bytes are at hand: the
// others are read too, and all are kept while the reply is printed.
fn find_in_whole<O: Output, D: Disk>(
    alloc: Global,
    image: CaseImage<'_>,
    attached: &[Attached<'_>],
    sought: Sought<'_>,
    reply: &mut Reply<'_, O>,
    archive: &mut Archive<D>,
) -> Outcome
    requires has { HasSize (state_of archive.old) image.seq image.size }
    requires some { IsAim (aim_of sought) }
    requires short { length image.front.now ≤ image.size }
    requires sound { IsSoundFront Core image.front.now }
    requires clean { core_fault_of image.front.now ≡ None }
    ensures { (before : Parts D) → ReadsFront D.Disk before image.entry.seq image.entry.front.now archive.old
        → PrintsOutcome (printing O.Output reply.old reply.new) (λ text. ShowsFound D.Disk before image.entry (map attached_view attached.now) (for_aim (aim_of sought.entry)) text archive.new) (is_done result) }
{
    a_sound_front_answers();
    let Ok(mut bytes) = Vec::with_capacity(alloc, image.size) else {
        return print_no_memory(reply);
    };
    bytes.extend_from_slice(image.front).unwrap();
    match read_up_to(image.seq, image.size, &mut bytes, archive) {
        Ok(()) => find_in_bytes(alloc, &bytes, attached, sought, reply),
        Err(fault) => {
            print_no(reply, reason(fault));
            Outcome::Refused
        }
    }
}

// The same. The image is read window by window if its bytes are in the order of the addresses, and whole if not.
fn find_in_core<O: Output, D: Disk>(
    alloc: Global,
    image: CaseImage<'_>,
    core: &CoreImage<'_>,
    attached: &[Attached<'_>],
    sought: Sought<'_>,
    reply: &mut Reply<'_, O>,
    archive: &mut Archive<D>,
) -> Outcome
    requires has { HasSize (state_of archive.old) image.seq image.size }
    requires some { IsAim (aim_of sought) }
    requires short { length image.front.now ≤ image.size }
    requires front { core_bytes core.now ≡ image.front.now }
    requires sound { IsSoundFront Core image.front.now }
    requires clean { core_fault_of image.front.now ≡ None }
    ensures { (before : Parts D) → ReadsFront D.Disk before image.entry.seq image.entry.front.now archive.old
        → PrintsOutcome (printing O.Output reply.old reply.new) (λ text. ShowsFound D.Disk before image.entry (map attached_view attached.now) (for_aim (aim_of sought.entry)) text archive.new) (is_done result) }
{
    a_sound_front_names_the_files();
    let Ok(space) = space_with(alloc, core, attached) else {
        return print_no_memory(reply);
    };
    match plan(alloc, &core.elf(), &space, image.size as u64) {
        Ok(Some(steps)) => {
            let found = search_windows(alloc, image, &steps, sought, archive);
            print_found(reply, found)
        }
        Ok(None) => find_in_whole(alloc, image, attached, sought, reply, archive),
        Err(_) => print_no_memory(reply),
    }
}

// The same with these executables.
fn find_with<O: Output, D: Disk>(
    alloc: Global,
    image: CaseImage<'_>,
    core: &CoreImage<'_>,
    executables: &[StoredExecutable],
    sought: Sought<'_>,
    reply: &mut Reply<'_, O>,
    archive: &mut Archive<D>,
) -> Outcome
    requires has { HasSize (state_of archive.old) image.seq image.size }
    requires some { IsAim (aim_of sought) }
    requires short { length image.front.now ≤ image.size }
    requires front { core_bytes core.now ≡ image.front.now }
    requires sound { IsSoundFront Core image.front.now }
    requires clean { core_fault_of image.front.now ≡ None }
    ensures { (before : Parts D) → ReadsFront D.Disk before image.entry.seq image.entry.front.now archive.old
        → PrintsOutcome (printing O.Output reply.old reply.new) (λ text. ShowsFound D.Disk before image.entry (map executable_view executables.now) (for_aim (aim_of sought.entry)) text archive.new) (is_done result) }
{
    match lent(alloc, executables) {
        Ok(lent) => find_in_core(alloc, image, core, &lent.attached, sought, reply, archive),
        Err(_) => print_no_memory(reply),
    }
}

// The same with the executables that its process had mapped, if they are stored. They are kept for the lines over the same
// core that come next.
fn find_collected<O: Output, D: Disk>(
    alloc: Global,
    image: CaseImage<'_>,
    core: &CoreImage<'_>,
    sought: Sought<'_>,
    kept: &mut Option<Vec<StoredExecutable>>,
    reply: &mut Reply<'_, O>,
    archive: &mut Archive<D>,
) -> Outcome
    requires runs { archive.old.stopped ≡ false }
    requires has { HasSize (state_of archive.old) image.seq image.size }
    requires some { IsAim (aim_of sought) }
    requires short { length image.front.now ≤ image.size }
    requires front { core_bytes core.now ≡ image.front.now }
    requires sound { IsSoundFront Core image.front.now }
    requires clean { core_fault_of image.front.now ≡ None }
    requires own { IsFrontOfCase D.Disk archive.old image }
    requires kept { StayCollected D.Disk archive.old kept.old }
    ensures answers { (before : Parts D) → ReadsFront D.Disk before image.entry.seq image.entry.front.now archive.old
        → PrintsOutcome (printing O.Output reply.old reply.new) (λ text. AsksFront D.Disk before image.entry (for_aim (aim_of sought.entry)) text archive.new) (is_done result) }
    ensures kept { StayCollected D.Disk archive.new kept.new }
    ensures leaves { Leaves D.Disk archive.old archive.new }
{
    a_sound_front_names_the_files();
    let wanted = wanted_by_path(alloc, core, archive);
    match collect(alloc, wanted, kept.take(), archive) {
        Ok(executables) => {
            let outcome = find_with(alloc, image, core, &executables, sought, reply, archive);
            *kept = Some(executables);
            outcome
        }
        Err(refusal) => {
            print_no(reply, reason(refusal));
            refused_by(refusal)
        }
    }
}

// Answers a line about a core that has no fault.
fn ask_core<O: Output, D: Disk>(
    alloc: Global,
    image: CaseImage<'_>,
    core: &CoreImage<'_>,
    asked: Asked<'_>,
    kept: &mut Option<Vec<StoredExecutable>>,
    reply: &mut Reply<'_, O>,
    archive: &mut Archive<D>,
) -> Outcome
    requires runs { archive.old.stopped ≡ false }
    requires has { HasSize (state_of archive.old) image.seq image.size }
    requires some { IsAsking (asking_of asked) }
    requires short { length image.front.now ≤ image.size }
    requires front { core_bytes core.now ≡ image.front.now }
    requires sound { IsSoundFront Core image.front.now }
    requires clean { core_fault_of image.front.now ≡ None }
    requires own { IsFrontOfCase D.Disk archive.old image }
    requires kept { StayCollected D.Disk archive.old kept.old }
    ensures answers { (before : Parts D) → ReadsFront D.Disk before image.entry.seq image.entry.front.now archive.old
        → PrintsOutcome (printing O.Output reply.old reply.new) (λ text. AsksFront D.Disk before image.entry (asking_of asked.entry) text archive.new) (is_done result) }
    ensures kept { StayCollected D.Disk archive.new kept.new }
    ensures leaves { Leaves D.Disk archive.old archive.new }
{
    match asked {
        Asked::Sought(sought) => {
            find_collected(alloc, image, core, sought, kept, reply, archive)
        }
        Asked::Files(asked) => answer_by_build(alloc, image, core, asked, kept, reply, archive),
    }
}

// The same of a case whose first bytes are sound.
fn find_front<O: Output, D: Disk>(
    alloc: Global,
    image: CaseImage<'_>,
    asked: Asked<'_>,
    kept: &mut Option<Vec<StoredExecutable>>,
    reply: &mut Reply<'_, O>,
    archive: &mut Archive<D>,
) -> Outcome
    requires runs { archive.old.stopped ≡ false }
    requires has { HasSize (state_of archive.old) image.seq image.size }
    requires some { IsAsking (asking_of asked) }
    requires short { length image.front.now ≤ image.size }
    requires sound { IsSoundFront Core image.front.now }
    requires own { IsFrontOfCase D.Disk archive.old image }
    requires kept { StayCollected D.Disk archive.old kept.old }
    ensures answers { (before : Parts D) (kind : Kind) → ReadsFront D.Disk before image.entry.seq image.entry.front.now archive.old
        → PrintsOutcome (printing O.Output reply.old reply.new) (λ text. Asks D.Disk before image.entry.seq (asking_query (asking_of asked.entry)) (Ok kind) text archive.new) (is_done result) }
    ensures kept { StayCollected D.Disk archive.new kept.new }
    ensures leaves { Leaves D.Disk archive.old archive.new }
{
    a_sound_front_answers();
    match CoreImage::read(image.front) {
        Ok(core) => ask_core(alloc, image, &core, asked, kept, reply, archive),
        Err(fault) => {
            print_core_fault(reply, fault);
            Outcome::Refused
        }
    }
}

// The same of a case of which as much is seen as the lines over headers and notes want.
fn find_seen<O: Output, D: Disk>(
    alloc: Global,
    kind: Kind,
    size: usize,
    query: &MemoryQuery,
    asked: Asked<'_>,
    kept: &mut KeptImage,
    reply: &mut Reply<'_, O>,
    archive: &mut Archive<D>,
) -> Outcome
    requires runs { archive.old.stopped ≡ false }
    requires has { HasSize (state_of archive.old) kept.old.seq size }
    requires some { IsAsking (asking_of asked) }
    requires says { memory_query query.now ≡ asking_query (asking_of asked) }
    requires enough { (image : List ℕ) × IsEnough Core kept.old.image.items image × (length image ≡ size) }
    requires kept { IsKept D.Disk archive.old (Some kept.old) }
    requires are_kept { AreKept D.Disk archive.old (Some kept.old) }
    ensures answers { (before : Parts D) → SeesEnough D.Disk before kept.old.seq Core (Ok kept.old) archive.old
        → PrintsOutcome (printing O.Output reply.old reply.new) (λ text. Asks D.Disk before kept.old.seq (memory_query query.now) (Ok kind) text archive.new) (is_done result) }
    ensures kept { IsKept D.Disk archive.new (Some kept.new) }
    ensures are_kept { AreKept D.Disk archive.new (Some kept.new) }
{
    if kept.image.len() == size {
        let window = Window {
            size: size as u64,
            at: 0,
            bytes: &kept.image,
        };
        return answer_memory(
            alloc,
            kind,
            query,
            &kept.image,
            window,
            &mut kept.executables,
            reply,
            archive,
        );
    }
    let image = CaseImage {
        seq: kept.seq,
        size,
        front: &kept.image,
    };
    find_front(alloc, image, asked, &mut kept.executables, reply, archive)
}

// Answers `find`, `strings`, `unwind`, `frame`, `builds`, `used` or `wants` of a case of this kind and size. Says whether it was done; if not, it was refused.
pub(crate) fn answer_find<O: Output, D: Disk>(
    seq: u32,
    kind: Kind,
    size: usize,
    query: &MemoryQuery,
    asked: Asked<'_>,
    images: &mut Images,
    reply: &mut Reply<'_, O>,
    archive: &mut Archive<D>,
) -> bool
    requires runs { archive.old.stopped ≡ false }
    requires has { HasSize (state_of archive.old) seq size }
    requires some { IsAsking (asking_of asked) }
    requires says { memory_query query.now ≡ asking_query (asking_of asked) }
    requires kept { IsKept D.Disk archive.old images.old.kept }
    requires are_kept { AreKept D.Disk archive.old images.old.kept }
    ensures answers { PrintsOutcome (printing O.Output reply.old reply.new) (λ text. Asks D.Disk archive.old seq (memory_query query.now) (Ok kind) text archive.new) result }
    ensures kept { IsKept D.Disk archive.new images.new.kept }
    ensures are_kept { AreKept D.Disk archive.new images.new.kept }
{
    match see_front(images.alloc, seq, Want::Core, images.kept.take(), archive) {
        Ok(front) => {
            let mut front = front;
            let outcome = find_seen(
                images.alloc,
                kind,
                size,
                query,
                asked,
                &mut front,
                reply,
                archive,
            );
            images.kept = kept_if(outcome.had_memory(), front);
            outcome.is_done()
        }
        Err(fault) => {
            print_no(reply, reason(fault));
            false
        }
    }
}
