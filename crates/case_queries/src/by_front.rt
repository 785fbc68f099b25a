// The lines that ask the header, the notes and the mappings of an image: its first bytes answer them, if they are sound.
ghost use Rattle.std.specs.Prelude.{◌≡◌, ℕ, [], List, Ok, take, is_ok};
ghost use Rattle.script_streams.specs.Replies.{PrintsOutcome, PrintsText, printing, reply_of};
ghost use Rattle.script_lines.specs.Queries.{image_query, ask_maps};
ghost use Rattle.script_lines.specs.declared.query.ImageQuery.{ImageQuery};
ghost use Rattle.journal_layout.specs.declared.entry.Kind.{Kind};
ghost use Rattle.case_queries.specs.Fronts.{IsEnough, IsSoundFront, front_want};
ghost use Rattle.case_queries.specs.Inspecting.{answer_of, want_of};
ghost use Rattle.case_queries.specs.Steps.{Asks};
ghost use Rattle.case_queries.specs.Keeping.{AreKept};
ghost use Rattle.case_queries.specs.Seeing.{IsKept};

use crate::front::see_front;
use crate::kept_image::Images;
use archive_replies::reason;
use disk_model::Disk;
use elf_view::Want;
use image_replies::{
    CoreImage, a_sound_front_answers, print_auxv, print_core_fault, print_files, print_header,
    print_notes, print_process, print_regs, print_signal, print_threads,
};
use intake::Archive;
use journal_layout::Kind;
use memory_replies::{a_sound_front_shows_the_mappings, print_maps};
use script_lines::ImageQuery;
use script_streams::{Output, Reply, print_no};
use std::alloc::Global;

// The kind of image that a case is read as.
fn want_of(kind: Kind) -> Want
    ensures { result ≡ want_of kind }
{
    match kind {
        Kind::Core => Want::Core,
        Kind::Exec => Want::Exec,
    }
}

// The kind of image that the first bytes must be sound as, for a line.
fn front_want(kind: Kind, query: &ImageQuery) -> Want
    ensures { result ≡ front_want kind query.now }
{
    match query {
        ImageQuery::Header => want_of(kind),
        _ => Want::Core,
    }
}

// A sound front of an image answers as the whole image does. This function does nothing.
fn a_front_answers()
    ensures { (kind : Kind) (query : ImageQuery) (b : List ℕ) (n : ℕ) → IsSoundFront (front_want kind query) (take n b)
        → answer_of kind (image_query query) (take n b) [] [] ≡ answer_of kind (image_query query) b [] [] }
{
    a_sound_front_answers();
    a_sound_front_shows_the_mappings();
}

// Answers a line of a case of this kind from the first bytes of its image, as many as it wants. They are kept for the lines that
// ask the same case next. Says whether it was done; if not, it was refused.
pub(crate) fn answer_by_front<O: Output, D: Disk>(
    seq: u32,
    kind: Kind,
    query: &ImageQuery,
    images: &mut Images,
    reply: &mut Reply<'_, O>,
    archive: &mut Archive<D>,
) -> bool
    requires kept { IsKept D.Disk archive.old images.old.kept }
    requires are_kept { AreKept D.Disk archive.old images.old.kept }
    ensures answers { PrintsOutcome (printing O.Output reply.old reply.new) (λ text. Asks D.Disk archive.old seq (image_query query.now) (Ok kind) text archive.new) result }
    ensures kept { IsKept D.Disk archive.new images.new.kept }
    ensures are_kept { AreKept D.Disk archive.new images.new.kept }
{
    let want = front_want(kind, query);
    match see_front(images.alloc, seq, want, images.kept.take(), archive) {
        Ok(seen) => {
            let is_done = print_front(images.alloc, kind, query, &seen.image, reply);
            images.kept = Some(seen);
            is_done
        }
        Err(fault) => {
            print_no(reply, reason(fault));
            false
        }
    }
}

// Prints the answer that any image gives of which these bytes are
// enough. Says whether it is printed; if not, the reply is `no REASON`.
fn print_front<O: Output>(
    alloc: Global,
    kind: Kind,
    query: &ImageQuery,
    front: &[u8],
    reply: &mut Reply<'_, O>,
) -> bool
    ensures states { (image : List ℕ) → IsEnough (front_want kind query.now) front.now image
        → PrintsText (printing O.Output reply.old reply.new) (reply_of (answer_of kind (image_query query.now) image [] [])) }
    ensures done { (image : List ℕ) → IsEnough (front_want kind query.now) front.now image
        → result ≡ is_ok (answer_of kind (image_query query.now) image [] []) }
{
    a_front_answers();
    print_image(alloc, kind, query, front, reply)
}

// Prints the answer that an image alone gives. Says whether it is printed; if not, the reply is `no REASON`.
pub(crate) fn print_image<O: Output>(
    alloc: Global,
    kind: Kind,
    query: &ImageQuery,
    image: &[u8],
    reply: &mut Reply<'_, O>,
) -> bool
    ensures states { PrintsText (printing O.Output reply.old reply.new) (reply_of (answer_of kind (image_query query.now) image.now [] [])) }
    ensures done { result ≡ is_ok (answer_of kind (image_query query.now) image.now [] []) }
{
    match query {
        ImageQuery::Header => print_header(reply, image, want_of(kind)),
        ImageQuery::Notes => print_notes(reply, image),
        ImageQuery::Threads => print_threads(reply, image),
        ImageQuery::Registers { thread } => print_regs(reply, image, *thread),
        ImageQuery::Process => print_process(reply, image),
        ImageQuery::Signal => print_signal(reply, image),
        ImageQuery::AuxiliaryVector => print_auxv(reply, image),
        ImageQuery::Files => print_files(reply, image),
        ImageQuery::Maps => print_mappings(alloc, image, reply),
    }
}

// Prints the mappings of a core. Says whether they are printed; if not, the reply is `no REASON`.
fn print_mappings<O: Output>(alloc: Global, image: &[u8], reply: &mut Reply<'_, O>) -> bool
    ensures states { (kind : Kind) → PrintsText (printing O.Output reply.old reply.new) (reply_of (answer_of kind ask_maps image.now [] [])) }
    ensures done { (kind : Kind) → result ≡ is_ok (answer_of kind ask_maps image.now [] []) }
{
    match CoreImage::read(image) {
        Ok(core) => {
            print_maps(alloc, reply, &core);
            true
        }
        Err(fault) => {
            print_core_fault(reply, fault);
            false
        }
    }
}
