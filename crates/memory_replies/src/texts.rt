// The texts in memory.
ghost use Rattle.std.specs.Prelude.{◌≡◌, ◌+◌, ◌-◌, ◌^◌, ◌≤◌, [], length, map};
ghost use Rattle.std.specs.List.{flat_map};
ghost use Rattle.script_streams.specs.Replies.{PrintsReply, PrintsText, reply_of, printing};
ghost use Rattle.script_words.specs.Printing.{shown, shown_byte};
ghost use Rattle.address_space.specs.Occurrence.{strings_of, text_len};
ghost use Rattle.address_space.specs.Source.{value_of};
ghost use Rattle.address_space.specs.SourceWords.{kind_view, source_view};
ghost use Rattle.address_space.specs.SpaceWords.{space_of};
ghost use Rattle.image_replies.specs.CoreWords.{core_bytes};
ghost use Rattle.memory_replies.specs.Answers.{AnswersWith};
ghost use Rattle.memory_replies.specs.Memory.{attached_view};
ghost use Rattle.memory_replies.specs.Texts as spec;

use crate::attached::space_with;
use crate::outcome::Outcome;
use crate::words::print_hex_word;
use address_space::{AddressSpace, Attached, PieceKind, Source};
use image_replies::CoreImage;
use script_streams::{Output, Reply, print_no, print_ok};
use std::alloc::Global;

/// The value of an address, if it has one.
fn value(source: Source<'_>) -> Option<u8>
    ensures { result ≡ value_of (source_view source.entry) }
{
    match source {
        Source::Byte(byte) => Some(byte),
        Source::FromFile(byte) => Some(byte),
        Source::NotDumped(_) => None,
        Source::Cut => None,
        Source::Unmapped => None,
    }
}

/// Prints a value in the form that it has in a text.
fn print_alone<O: Output>(reply: &mut Reply<'_, O>, value: Option<u8>)
    ensures { PrintsText (printing O.Output reply.old reply.new) (shown (spec.value_list value)) }
{
    match value {
        Some(byte) => reply.print_text(&[byte]),
        None => reply.print_text(&[]),
    }
}

/// Prints the bytes of a piece in that form, one after the other.
fn print_piece<O: Output>(reply: &mut Reply<'_, O>, kind: PieceKind<'_>)
    ensures { PrintsText (printing O.Output reply.old reply.new)
        (flat_map shown_byte (spec.content_bytes (kind_view kind.entry))) }
{
    match kind {
        PieceKind::Bytes(bytes) => reply.print_bytes(bytes),
        PieceKind::FromFile(bytes) => reply.print_bytes(bytes),
        PieceKind::NotDumped(_) => {}
        PieceKind::Cut => {}
        PieceKind::Unmapped => {}
    }
}

/// Prints the values of addresses in that form, one after the other, if their number is one of 64 bits.
#[tactic(auto, using(crate::proofs::PrintLemmas::up_to_start))]
fn print_pieces<O: Output>(
    reply: &mut Reply<'_, O>,
    space: &AddressSpace<'_>,
    start: u64,
    count: u64,
)
    requires { start + count ≤ 2 ^ 64 }
    ensures { PrintsText (printing O.Output reply.old reply.new)
        (flat_map shown_byte (spec.values_between (space_of space.now) start count)) }
{
    for piece in space.pieces(start, count) {
        print_piece(reply, piece.kind);
    }
}

/// The same for any number: all addresses are 2^64, so they are printed in two halves.
fn print_values<O: Output>(
    reply: &mut Reply<'_, O>,
    space: &AddressSpace<'_>,
    start: u64,
    count: u128,
)
    requires { start + count ≤ 2 ^ 64 }
    ensures { PrintsText (printing O.Output reply.old reply.new)
        (flat_map shown_byte (spec.values_between (space_of space.now) start count)) }
{
    let half = (count / 2) as u64;
    let others = (count - count / 2) as u64;
    print_pieces(reply, space, start, half);
    print_pieces(reply, space, start + half, others);
}

/// Prints the values of addresses, each of which has one, as a text.
fn print_shown<O: Output>(
    reply: &mut Reply<'_, O>,
    space: &AddressSpace<'_>,
    start: u64,
    count: u128,
)
    requires within { start + count ≤ 2 ^ 64 }
    requires whole { length (spec.values_between (space_of space.now) start count) ≡ count }
    ensures { PrintsText (printing O.Output reply.old reply.new)
        (shown (spec.values_between (space_of space.now) start count)) }
{
    match count {
        0 => reply.print_text(&[]),
        1 => print_alone(reply, value(space.at(start))),
        _ => print_values(reply, space, start, count),
    }
}

/// Prints the line of a text.
fn print_line<O: Output>(
    reply: &mut Reply<'_, O>,
    space: &AddressSpace<'_>,
    start: u64,
    count: u128,
)
    requires { count ≡ text_len (space_of space.now) start (2 ^ 64 - start) }
    ensures { PrintsText (printing O.Output reply.old reply.new)
        (spec.text_line (space_of space.now) (start, count)) }
{
    print_hex_word(reply, start);
    reply.print_decimal(count);
    reply.print(b" ");
    print_shown(reply, space, start, count);
    reply.print(b"\n");
}

/// Prints a line for each text of at least `least` bytes.
fn print_texts<O: Output>(reply: &mut Reply<'_, O>, space: &AddressSpace<'_>, least: u64)
    ensures { PrintsText (printing O.Output reply.old reply.new)
        (flat_map (spec.text_line (space_of space.now)) (strings_of (space_of space.now) least)) }
{
    for text in space.strings(least) {
        print_line(reply, space, text.0, text.1);
    }
}

/// Prints the runs of text in a core's memory that have at least `least` bytes: `ADDR LENGTH
/// TEXT`, by the number of the segment that decides the first address and then by that
/// address. Bytes of text are those from the space to `~` and the tab. Returns the outcome.
pub fn print_strings<O: Output>(
    alloc: Global,
    reply: &mut Reply<'_, O>,
    core: &CoreImage<'_>,
    attached: &[Attached<'_>],
    least: u64,
) -> Outcome
    ensures { PrintsReply (printing O.Output reply.old reply.new)
        (AnswersWith result (spec.strings_answer (core_bytes core.now) (map attached_view attached.now) least)) }
{
    let Ok(space) = space_with(alloc, core, attached) else {
        print_no(reply, b"OutOfMemory");
        return Outcome::OutOfMemory;
    };
    print_texts(reply, &space, least);
    print_ok(reply);
    Outcome::Done
}
