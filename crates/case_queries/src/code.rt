// The answers to lines that ask what is at an address of an executable, by its own bytes or by the debug file of its build.
ghost use Rattle.std.specs.Prelude.{◌≡◌, Ok, false, find, map};
ghost use Rattle.std.specs.Option.{option_map};
ghost use Rattle.build_replies.specs.ByBuild as spec;
ghost use Rattle.memory_replies.specs.Answers.{AnswersWith, is_done};
ghost use Rattle.script_streams.specs.Replies.{PrintsOutcome, PrintsReply, printing};
ghost use Rattle.case_queries.specs.CollectingWords.{executable_view};
ghost use Rattle.case_queries.specs.CodeQueries.{code_answer, code_query};
ghost use Rattle.case_queries.specs.Inspecting.{debug_image};
ghost use Rattle.case_queries.specs.Keeping.{AreKept, StayCollected};
ghost use Rattle.case_queries.specs.Seeing.{IsKept};
ghost use Rattle.case_queries.specs.Steps.{Asks, Shows};

use crate::collect_executables::{StoredExecutable, collect, wanted_own_debugs};
use crate::kept_image::{Images, kept_if, see_image};
use crate::memory::refused_by;
use archive_replies::reason;
use build_ids::{build_id, debug_id};
use disk_model::Disk;
use frame_replies::print_line;
use intake::Archive;
use journal_layout::Kind;
use memory_replies::{Outcome, print_symbol_with_debug};
use script_streams::{Output, Reply, print_no};
use std::alloc::Global;

/// What is asked of an address of an executable.
#[derive(Clone, Copy)]
pub(crate) enum CodeQuery {
    /// The function that covers it.
    Function,
    /// Its source line.
    Line,
}

// Whether a file is the debug file of the build of that ID.
fn is_debug_of(id: &[u8], file: &StoredExecutable) -> bool
    ensures { result ≡ spec.is_debug_of id.now file.now.image.items }
{
    let Some(own) = debug_id(&file.image) else {
        return false;
    };
    id == own
}

// The debug file of the build of that ID, of these files.
fn debug_of_build<'a>(id: &[u8], files: &'a [StoredExecutable]) -> Option<&'a StoredExecutable>
    ensures { option_map (λ (x : _). x.now) result ≡ find (λ x. spec.is_debug_of id.now x.image.items) files.now }
{
    files.iter().find(|file| is_debug_of(id, file))
}

// That of an executable, of those that are stored under its name.
fn debug_image<'a>(image: &[u8], files: &'a [StoredExecutable]) -> Option<&'a [u8]>
    ensures { option_map (λ d. d.now) result ≡ debug_image image.now (map executable_view files.now) }
{
    match debug_of_build(build_id(image)?, files) {
        Some(file) => Some(file.image.as_slice()),
        None => None,
    }
}

// Tells what is asked of an address of an executable and of its debug file, if there is one.
fn print_code<O: Output>(
    alloc: Global,
    reply: &mut Reply<'_, O>,
    query: CodeQuery,
    image: &[u8],
    debug: Option<&[u8]>,
    address: u64,
) -> Outcome
    ensures { PrintsReply (printing O.Output reply.old reply.new) (λ text. AnswersWith result (code_answer query image.now (option_map (λ d. d.now) debug.entry) address) text) }
{
    match query {
        CodeQuery::Function => print_symbol_with_debug(alloc, reply, image, debug, address),
        CodeQuery::Line => print_line(alloc, reply, image, debug, address),
    }
}

// Answers the line of an executable, of which these are all bytes. What is read under the name of its debug file is kept for the lines over
// the same executable that come next.
fn answer_executable<O: Output, D: Disk>(
    alloc: Global,
    kind: Kind,
    query: CodeQuery,
    image: &[u8],
    address: u64,
    kept: &mut Option<Vec<StoredExecutable>>,
    reply: &mut Reply<'_, O>,
    archive: &mut Archive<D>,
) -> Outcome
    requires runs { archive.old.stopped ≡ false }
    requires kept { StayCollected D.Disk archive.old kept.old }
    ensures answers { PrintsOutcome (printing O.Output reply.old reply.new) (λ text. Shows D.Disk archive.old kind (code_query query address) image.now text archive.new) (is_done result) }
    ensures kept { StayCollected D.Disk archive.new kept.new }
{
    let wanted = wanted_own_debugs(alloc, image, archive);
    match collect(alloc, wanted, kept.take(), archive) {
        Ok(files) => {
            let debug = debug_image(image, &files);
            let outcome = print_code(alloc, reply, query, image, debug, address);
            *kept = Some(files);
            outcome
        }
        Err(refusal) => {
            print_no(reply, reason(refusal));
            refused_by(refusal)
        }
    }
}

// Answers a line that asks what is at an address of an executable, by its own bytes or by the debug file of its build. Says whether it
// was done; if not, it was refused.
pub(crate) fn answer_code<O: Output, D: Disk>(
    seq: u32,
    kind: Kind,
    query: CodeQuery,
    address: u64,
    images: &mut Images,
    reply: &mut Reply<'_, O>,
    archive: &mut Archive<D>,
) -> bool
    requires runs { archive.old.stopped ≡ false }
    requires kept { IsKept D.Disk archive.old images.old.kept }
    requires are_kept { AreKept D.Disk archive.old images.old.kept }
    ensures answers { PrintsOutcome (printing O.Output reply.old reply.new) (λ text. Asks D.Disk archive.old seq (code_query query address) (Ok kind) text archive.new) result }
    ensures kept { IsKept D.Disk archive.new images.new.kept }
    ensures are_kept { AreKept D.Disk archive.new images.new.kept }
{
    match see_image(seq, images.kept.take(), archive) {
        Ok(seen) => {
            let mut seen = seen;
            let outcome = answer_executable(
                images.alloc,
                kind,
                query,
                &seen.image,
                address,
                &mut seen.executables,
                reply,
                archive,
            );
            images.kept = kept_if(outcome.had_memory(), seen);
            outcome.is_done()
        }
        Err(fault) => {
            print_no(reply, reason(fault));
            false
        }
    }
}
