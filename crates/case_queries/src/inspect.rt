// The answers to lines that ask an image.
ghost use Rattle.std.specs.Prelude.{◌≡◌, false, IfOk, Ok};
ghost use Rattle.intake.specs.Parts.{state_of};
ghost use Rattle.script_streams.specs.Replies.{PrintsOutcome, printing};
ghost use Rattle.script_lines.specs.Queries.{query_of, image_query, ask_notes, ask_symbol};
ghost use Rattle.case_queries.specs.Inspecting.{Inspects, executable_kind, kind_for};
ghost use Rattle.case_queries.specs.Steps.{Asks, asked_view, kind_asked};
ghost use Rattle.case_queries.specs.Keeping.{AreKept};
ghost use Rattle.case_queries.specs.Seeing.{IsKept};

use crate::by_front::answer_by_front;
use crate::code::{CodeQuery, answer_code};
use crate::kept_image::{Images, kept_if, see_image};
use crate::memory::answer_by_memory;
use crate::with_builds::answer_with_builds;
use archive_replies::reason;
use disk_model::Disk;
use intake::Archive;
use journal_layout::Kind;
use memory_replies::print_symbol;
use script_lines::{ImageQuery, Query};
use script_streams::{Output, Reply, print_no};

/// Answers a line that asks the image of a case: prints the answer that the layouts give for it, or
/// the first reason why nothing is shown. The image is kept for the lines that ask the same case
/// next, and with it the executables that are read with it. If memory was refused nothing is kept, so
/// that the line made again has its room. Says whether it was done; if not, the reply is `no REASON`.
pub fn answer_query<O: Output, D: Disk>(
    seq: u32,
    query: &Query,
    images: &mut Images,
    reply: &mut Reply<'_, O>,
    archive: &mut Archive<D>,
) -> bool
    requires kept { IsKept D.Disk archive.old images.old.kept }
    requires are_kept { AreKept D.Disk archive.old images.old.kept }
    ensures answers { PrintsOutcome (printing O.Output reply.old reply.new) (λ text. Inspects D.Disk archive.old seq (query_of query.now) text archive.new) result }
    ensures kept { IsKept D.Disk archive.new images.new.kept }
    ensures are_kept { AreKept D.Disk archive.new images.new.kept }
{
    let kind = match kind_asked(seq, query, archive) {
        Ok(kind) => kind,
        Err(reason) => {
            print_no(reply, reason);
            return false;
        }
    };
    match query {
        Query::Image(query) => answer_by_front(seq, kind, query, images, reply, archive),
        Query::Memory(query) => answer_by_memory(seq, kind, query, images, reply, archive),
        Query::ByBuild(query) => answer_with_builds(seq, kind, query, images, reply, archive),
        Query::Symbol { address } => answer_symbol(seq, kind, *address, images, reply, archive),
        Query::SymbolByBuild { address } => answer_code(
            seq,
            kind,
            CodeQuery::Function,
            *address,
            images,
            reply,
            archive,
        ),
        Query::Line { address } => answer_code(
            seq,
            kind,
            CodeQuery::Line,
            *address,
            images,
            reply,
            archive,
        ),
    }
}

// Answers a line that asks the symbol of an address, from the whole image of an executable. Says whether it was done.
fn answer_symbol<O: Output, D: Disk>(
    seq: u32,
    kind: Kind,
    address: u64,
    images: &mut Images,
    reply: &mut Reply<'_, O>,
    archive: &mut Archive<D>,
) -> bool
    requires kept { IsKept D.Disk archive.old images.old.kept }
    requires are_kept { AreKept D.Disk archive.old images.old.kept }
    ensures answers { PrintsOutcome (printing O.Output reply.old reply.new) (λ text. Asks D.Disk archive.old seq (ask_symbol address) (Ok kind) text archive.new) result }
    ensures kept { IsKept D.Disk archive.new images.new.kept }
    ensures are_kept { AreKept D.Disk archive.new images.new.kept }
{
    match see_image(seq, images.kept.take(), archive) {
        Ok(seen) => {
            let outcome = print_symbol(images.alloc, reply, &seen.image, address);
            images.kept = kept_if(outcome.had_memory(), seen);
            outcome.is_done()
        }
        Err(fault) => {
            print_no(reply, reason(fault));
            false
        }
    }
}

// The kind of the case that a line asks, or the reason why it shows nothing.
fn kind_asked<D: Disk>(seq: u32, query: &Query, archive: &Archive<D>) -> Result<Kind, &'static [u8]>
    ensures asked { asked_view result ≡ kind_asked (state_of archive.now) seq (query_of query.now) }
    ensures runs { IfOk result (λ kind. archive.now.stopped ≡ false) }
{
    match archive.case(seq) {
        Ok(entry) => kind_for(query, entry.kind),
        Err(fault) => Err(reason(fault)),
    }
}

// The kind of a case, if the line may ask one of that kind.
fn kind_for(query: &Query, kind: Kind) -> Result<Kind, &'static [u8]>
    ensures { asked_view result ≡ kind_for (query_of query.now) kind }
{
    match query {
        Query::Image(query) => image_kind(query, kind),
        Query::Memory(_) => core_kind(kind),
        Query::ByBuild(_) => core_kind(kind),
        Query::Symbol { .. } => executable_kind(kind),
        Query::SymbolByBuild { .. } => executable_kind(kind),
        Query::Line { .. } => executable_kind(kind),
    }
}

fn executable_kind(kind: Kind) -> Result<Kind, &'static [u8]>
    ensures { asked_view result ≡ executable_kind kind }
{
    match kind {
        Kind::Core => Err(b"NotExec"),
        Kind::Exec => Ok(Kind::Exec),
    }
}

fn image_kind(query: &ImageQuery, kind: Kind) -> Result<Kind, &'static [u8]>
    ensures { asked_view result ≡ kind_for (image_query query.now) kind }
{
    match query {
        ImageQuery::Header => Ok(kind),
        ImageQuery::Notes => core_kind(kind),
        ImageQuery::Threads => core_kind(kind),
        ImageQuery::Registers { .. } => core_kind(kind),
        ImageQuery::Process => core_kind(kind),
        ImageQuery::Signal => core_kind(kind),
        ImageQuery::AuxiliaryVector => core_kind(kind),
        ImageQuery::Files => core_kind(kind),
        ImageQuery::Maps => core_kind(kind),
    }
}

fn core_kind(kind: Kind) -> Result<Kind, &'static [u8]>
    ensures { asked_view result ≡ kind_for ask_notes kind }
{
    match kind {
        Kind::Core => Ok(Kind::Core),
        Kind::Exec => Err(b"NotCore"),
    }
}
