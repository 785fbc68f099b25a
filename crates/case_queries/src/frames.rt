// The frames of a thread, and the answers to `unwind` and `frame`, of a core that is read piece by piece.
ghost use Rattle.std.specs.Prelude.{◌≡◌, ◌≤◌, ◌++◌, ℕ, List, length, map, IfOk, OnOk};
ghost use Rattle.address_space.specs.Source.{ExecutableView};
ghost use Rattle.address_space.specs.SpaceWords.{core_of};
ghost use Rattle.elf_view.specs.declared.faults.Want.TheVariants.{Core};
ghost use Rattle.build_replies.specs.Choosing.{choice_of};
ghost use Rattle.build_replies.specs.ChoosingWords.{choice_view};
ghost use Rattle.frame_replies.specs.Walking.{AreExecutablesOf, IsWalkOf, WalksOn, process_by};
ghost use Rattle.image_replies.specs.CoreWords.{core_bytes};
ghost use Rattle.intake.specs.Parts.{Parts, state_of};
ghost use Rattle.memory_replies.specs.Answers.{AnswersWith, is_done};
ghost use Rattle.memory_replies.specs.Memory.{attached_view};
ghost use Rattle.script_streams.specs.Replies.{PrintsOutcome, PrintsReply, printing};
ghost use Rattle.case_queries.specs.Asking.{for_frames, frames_answer};
ghost use Rattle.case_queries.specs.Fronts.{HasSize, IsSoundFront};
ghost use Rattle.case_queries.specs.Pieces.{BeginsWith, FindsFrames, SeesPieces, WalkedTo};
ghost use Rattle.case_queries.specs.ToldWords.{IsToldBy, ShowsTold, files_told};
ghost use Rattle.case_queries.specs.Unwound.{BeginsWalks, FindsThread, IsUnwound};
ghost use Rattle.case_queries.specs.declared.walk.CaseImage as images;
ghost use Rattle.case_queries.specs.declared.window.Part as windows;

use crate::asked::FramesAsked;
use crate::find::print_no_memory;
use crate::found::print_found;
use crate::pieces::{MOST, lent_pieces, read_more};
use crate::told::ToldFiles;
use crate::walk::{CaseImage, WalkFault};
use crate::window::Part;
use address_space::Attached;
use build_replies::{ChosenExecutables, listed};
use disk_model::Disk;
use elf_view::a_sound_front_is_enough;
use frame_replies::{UnwoundExecutables, UnwoundProcess, Walk, print_walked, print_walked_frame};
use image_replies::CoreImage;
use intake::Archive;
use memory_replies::{Outcome, a_sound_front_names_the_files};
use script_streams::{Output, Reply, print_no};
use std::alloc::{AllocError, Global};
use unwind::Stop;

// What the frames of each thread of a core are found with: its process, and the pieces of its image by which the executables were chosen.
#[derive(Drop)]
pub(crate) struct UnwoundCore<'p, 'a, 'e> {
    pub(crate) process: UnwoundProcess<'p, 'a, 'e>,
    pub(crate) pieces: Vec<Part>,
}

// The frames of a thread, all of which are found.
#[derive(Drop)]
pub(crate) struct UnwoundThread {
    pub(crate) walk: Walk,
    pub(crate) stop: Stop,
}

// Goes on with a walk over the first bytes of an image and these pieces.
fn go_on(
    alloc: Global,
    image: CaseImage<'_>,
    process: &UnwoundProcess<'_, '_, '_>,
    pieces: &[Part],
    walk: &mut Walk,
) -> Result<Stop, frame_replies::WalkFault>
    requires { image.front.now ≡ core_of process.now.space }
    ensures walks { (b : List ℕ) → BeginsWith image.entry pieces.now b → WalksOn (process_by process.now b) walk.old walk.new }
    ensures told { WalkedTo image.entry pieces.now result walk.new }
{
    let parts = lent_pieces(alloc, pieces)?;
    walk.go_on(alloc, process, image.front, image.size as u64, &parts)
}

// Goes on until no other frame comes, and says why. These pieces of the image are read. The other bytes of it that are wanted are read too,
// each once.
fn walk_frames<D: Disk>(
    alloc: Global,
    image: CaseImage<'_>,
    process: &UnwoundProcess<'_, '_, '_>,
    walk: &mut Walk,
    pieces: &mut Vec<Part>,
    archive: &mut Archive<D>,
) -> Result<Stop, WalkFault>
    requires has { HasSize (state_of archive.old) image.seq image.size }
    requires own { image.front.now ≡ core_of process.now.space }
    requires some { (b : List ℕ) × BeginsWith image pieces.old.items b }
    ensures finds { (before : Parts D) (stored : List ExecutableView) (thread : ℕ) → SeesPieces D.Disk before image.entry pieces.old.items archive.old
        → ((b : List ℕ) → BeginsWith image.entry pieces.old.items b → IsWalkOf b stored thread process.now walk.old)
        → FindsFrames D.Disk before image.entry pieces.old.items stored thread process.now result walk.new archive.new }
    ensures behind { OnOk result ((more : List windows.Part) × (pieces.new.items ≡ pieces.old.items ++ more)) }
    ensures sees { OnOk result ((before : Parts D) → SeesPieces D.Disk before image.entry pieces.old.items archive.old
        → SeesPieces D.Disk before image.entry pieces.old.items archive.new) }
    ensures has { OnOk result (HasSize (state_of archive.new) image.entry.seq image.entry.size) }
{
    for _count in 0..MOST {
        match go_on(alloc, image, process, pieces, walk) {
            Ok(stop) => return Ok(stop),
            Err(frame_replies::WalkFault::OutOfMemory) => return Err(WalkFault::OutOfMemory),
            Err(frame_replies::WalkFault::Unread(unread)) => {
                read_more(alloc, image, unread.place, pieces, archive)?;
            }
        }
    }
    Err(WalkFault::OutOfMemory)
}

// What the frames of the threads of a core are found with, with these executables, which are chosen for its mapped files. The first bytes of
// its image are at hand, and the pieces that tell those files. The error is that there is no memory.
pub(crate) fn process_in_core<'p, 'a, 'e>(
    alloc: Global,
    core: &CoreImage<'a>,
    told: ToldFiles<'a>,
    chosen: ChosenExecutables<'a>,
    executables: &'p UnwoundExecutables<'e>,
) -> Result<UnwoundCore<'p, 'a, 'e>, AllocError>
    requires { AreExecutablesOf (choice_view chosen) executables.now }
    ensures walks { IfOk result (λ u. (o : images.CaseImage) (stored : List ExecutableView) → core_bytes core.now ≡ o.front.now → IsSoundFront Core o.front.now → IsToldBy o told.entry
        → choice_view chosen.entry ≡ choice_of (files_told told.entry) stored → BeginsWalks o stored u) }
    ensures pieces { IfOk result (λ u. u.pieces ≡ told.entry.pieces) }
{
    a_sound_front_names_the_files();
    a_sound_front_is_enough();
    let process = UnwoundProcess::of(alloc, core, chosen, executables)?;
    Ok(UnwoundCore {
        process,
        pieces: told.pieces,
    })
}

// Finds the frames of a thread, whose walk has begun. What is read for them is given back.
pub(crate) fn walk_thread<D: Disk>(
    alloc: Global,
    image: CaseImage<'_>,
    core: &mut UnwoundCore<'_, '_, '_>,
    begun: Walk,
    archive: &mut Archive<D>,
) -> Result<UnwoundThread, WalkFault>
    requires has { HasSize (state_of archive.old) image.seq image.size }
    requires own { image.front.now ≡ core_of core.old.process.space }
    requires some { (b : List ℕ) × BeginsWith image core.old.pieces.items b }
    ensures finds { (before : Parts D) (stored : List ExecutableView) (thread : ℕ) → SeesPieces D.Disk before image.entry core.old.pieces.items archive.old
        → ((b : List ℕ) → BeginsWith image.entry core.old.pieces.items b → IsWalkOf b stored thread core.old.process begun)
        → FindsThread D.Disk before image.entry core.old.pieces.items stored thread core.old.process result archive.new }
    ensures process { core.new.process ≡ core.old.process }
    ensures pieces { OnOk result (core.new.pieces.items ≡ core.old.pieces.items) }
    ensures sees { OnOk result ((before : Parts D) → SeesPieces D.Disk before image.entry core.old.pieces.items archive.old → SeesPieces D.Disk before image.entry core.old.pieces.items archive.new) }
    ensures has { OnOk result (HasSize (state_of archive.new) image.entry.seq image.entry.size) }
{
    let first = core.pieces.len();
    let mut walk = begun;
    let stop = walk_frames(
        alloc,
        image,
        &core.process,
        &mut walk,
        &mut core.pieces,
        archive,
    )?;
    core.pieces.truncate(first);
    Ok(UnwoundThread { walk, stop })
}

// Tells what is asked of the frames of a thread.
fn print_frames<O: Output>(
    alloc: Global,
    reply: &mut Reply<'_, O>,
    process: &UnwoundProcess<'_, '_, '_>,
    unwound: &UnwoundThread,
    asked: FramesAsked,
) -> Outcome
    ensures { (image : List ℕ) (executables : List ExecutableView) (thread : ℕ) → IsUnwound image executables thread process.now unwound.now
        → PrintsReply (printing O.Output reply.old reply.new) (AnswersWith result (frames_answer image executables thread asked)) }
{
    match asked {
        FramesAsked::Registers(frame) => print_walked_frame(reply, &unwound.walk, frame),
        FramesAsked::Shown(shown) => print_walked(
            alloc,
            reply,
            process,
            &unwound.walk,
            unwound.stop,
            shown,
        ),
    }
}

// Finds the frames of a thread, whose walk has begun, and tells what is asked of them.
fn frames_of_walk<O: Output, D: Disk>(
    alloc: Global,
    image: CaseImage<'_>,
    found: UnwoundCore<'_, '_, '_>,
    begun: Walk,
    asked: FramesAsked,
    reply: &mut Reply<'_, O>,
    archive: &mut Archive<D>,
) -> Outcome
    requires has { HasSize (state_of archive.old) image.seq image.size }
    requires own { image.front.now ≡ core_of found.process.space }
    requires some { (b : List ℕ) × BeginsWith image found.pieces.items b }
    ensures { (before : Parts D) (stored : List ExecutableView) (thread : ℕ) → SeesPieces D.Disk before image.entry found.entry.pieces.items archive.old
        → ((b : List ℕ) → BeginsWith image.entry found.entry.pieces.items b → IsWalkOf b stored thread found.entry.process begun)
        → PrintsOutcome (printing O.Output reply.old reply.new) (λ text. ShowsTold D.Disk before image.entry found.entry.pieces.items stored (for_frames thread asked) text archive.new) (is_done result) }
{
    let mut core = found;
    match walk_thread(alloc, image, &mut core, begun, archive) {
        Ok(unwound) => print_frames(alloc, reply, &core.process, &unwound, asked),
        Err(fault) => print_found(reply, Err(fault)),
    }
}

// Tells what is asked of the frames of a thread of a core. The first bytes of its image are at hand, and the
// pieces that tell its mapped files. All that is wanted is read before the first line.
pub(crate) fn frames_in_core<'a, O: Output, D: Disk>(
    alloc: Global,
    image: CaseImage<'_>,
    core: &CoreImage<'a>,
    told: ToldFiles<'a>,
    attached: &[Attached<'a>],
    thread: u64,
    asked: FramesAsked,
    reply: &mut Reply<'_, O>,
    archive: &mut Archive<D>,
) -> Outcome
    requires has { HasSize (state_of archive.old) image.seq image.size }
    requires front { core_bytes core.now ≡ image.front.now }
    requires sound { IsSoundFront Core image.front.now }
    requires told { IsToldBy image told }
    ensures { (before : Parts D) → SeesPieces D.Disk before image.entry told.entry.pieces.items archive.old
        → PrintsOutcome (printing O.Output reply.old reply.new) (λ text. ShowsTold D.Disk before image.entry told.entry.pieces.items (map attached_view attached.now) (for_frames thread asked) text archive.new) (is_done result) }
{
    a_sound_front_is_enough();
    let Some(begun) = Walk::begin(alloc, core, thread) else {
        print_no(reply, b"NoThread");
        return Outcome::Refused;
    };
    let Ok(chosen) = ChosenExecutables::of(alloc, listed(&told.files), attached) else {
        return print_no_memory(reply);
    };
    let Ok(executables) = UnwoundExecutables::of(alloc, &chosen) else {
        return print_no_memory(reply);
    };
    match process_in_core(alloc, core, told, chosen, &executables) {
        Ok(found) => frames_of_walk(alloc, image, found, begun, asked, reply, archive),
        Err(_) => print_no_memory(reply),
    }
}
