// The bytes of a range of addresses.
ghost use Rattle.std.specs.Prelude.{◌≡◌, ◌+◌, ◌*◌, ◌^◌, ◌<◌, ◌≤◌, ℕ, List, [], ◌∷◌, ◌++◌, map};
ghost use Rattle.std.specs.Option.{option_map};
ghost use Rattle.script_words.specs.Printing.{hexadecimal};
ghost use Rattle.address_space.specs.Source.{not_dumped};
ghost use Rattle.std.specs.List.{flat_map};
ghost use Rattle.script_streams.specs.Replies.{PrintsReply, PrintsText, reply_of, printing};
ghost use Rattle.address_space.specs.Pieces.{pieces_of};
ghost use Rattle.address_space.specs.SourceWords.{spot_view};
ghost use Rattle.address_space.specs.SpaceWords.{core_of, space_of};
ghost use Rattle.address_space.specs.StretchWords.{IsWithin, piece_in};
ghost use Rattle.address_space.specs.Whole.{AreHeldWithin, IsFrontOf, space_in};
ghost use Rattle.elf_view.specs.Header.{segments_of};
ghost use Rattle.image_replies.specs.CoreWords.{core_bytes};
ghost use Rattle.memory_replies.specs.Answers.{AnswersWith};
ghost use Rattle.memory_replies.specs.Memory.{attached_view};
ghost use Rattle.memory_replies.specs.Words.{hex_word};
ghost use Rattle.memory_replies.specs.Dump as spec;
ghost use Rattle.memory_replies.specs.Window.{IsAtHand, IsPartOf, past_of};

use crate::attached::space_with;
use crate::laws::a_sound_front_names_the_files;
use crate::outcome::Outcome;
use crate::window::Window;
use crate::words::{print_hex_word, print_spot};
use address_space::{AddressSpace, Attached, FileSpot, Stretch, StretchKind};
use elf_view::part;
use image_replies::CoreImage;
use script_streams::{Output, Reply, print_no, print_ok};
use std::alloc::Global;

/// How many addresses are shown at most.
const MOST_SHOWN: u64 = 65536;

/// How many bytes a row has.
const ROW: u64 = 16;

/// Prints the address of row `i` of bytes that start at an address, and a space.
#[tactic(auto, unfolding(crate::specs::Words::hex_word))]
fn print_row_address<O: Output>(reply: &mut Reply<'_, O>, first: u64, i: u64)
    ensures { PrintsText (printing O.Output reply.old reply.new) (hex_word (first + 16 * i)) }
{
    reply.print_hexadecimal(u128::from(first) + 16 * u128::from(i));
    reply.print(b" ");
}

/// Prints row `i` of bytes that start at an address.
fn print_row<O: Output>(reply: &mut Reply<'_, O>, word: &[u8], first: u64, bytes: &[u8], i: u64)
    requires { 16 * i < 2 ^ 64 }
    ensures { PrintsText (printing O.Output reply.old reply.new)
        (spec.row_line word.now first bytes.now i) }
{
    print_row_address(reply, first, i);
    reply.print(word);
    reply.print_hex(part(bytes, ROW * i, ROW));
    reply.print(b"\n");
}

/// Prints bytes that start at an address, 16 a row, with a word in each.
#[tactic(auto, unfolding(crate::specs::Dump::row_lines))]
fn print_rows<O: Output>(reply: &mut Reply<'_, O>, word: &[u8], first: u64, bytes: &[u8])
    ensures { PrintsText (printing O.Output reply.old reply.new)
        (spec.row_lines word.now first bytes.now) }
{
    let count = (bytes.len() as u64 + ROW - 1) / ROW;
    for i in 0..count {
        print_row(reply, word, first, bytes, i);
    }
}

/// Prints addresses that the core has no bytes for, and the place of the first in a mapped file.
fn print_not_dumped<O: Output>(
    reply: &mut Reply<'_, O>,
    first: u64,
    length: u64,
    spot: Option<FileSpot<'_>>,
)
    ensures { PrintsText (printing O.Output reply.old reply.new)
        (spec.content_lines first length (not_dumped (option_map spot_view spot.entry))) }
{
    print_hex_word(reply, first);
    reply.print(b"notdumped ");
    print_hex_word(reply, length);
    print_spot(reply, spot);
    reply.print(b"\n");
}

/// Prints addresses without bytes, with a word that says why.
fn print_absent<O: Output>(reply: &mut Reply<'_, O>, first: u64, word: &[u8], length: u64)
    ensures { PrintsText (printing O.Output reply.old reply.new)
        (hex_word first ++ (word.now ++ (hexadecimal length ++ 10 ∷ []))) }
{
    print_hex_word(reply, first);
    reply.print(word);
    reply.print_hexadecimal(u128::from(length));
    reply.print(b"\n");
}

/// Prints the lines of a stretch, whose bytes are in the window.
#[tactic(auto, unfolding(crate::specs::Dump::piece_lines))]
fn print_stretch<O: Output>(reply: &mut Reply<'_, O>, window: Window<'_>, stretch: Stretch<'_>)
    ensures { (image : List ℕ) → IsPartOf image window.entry.at window.entry.bytes.now → IsWithin window.entry.at (past_of window.entry.at window.entry.bytes.now) stretch.entry.length stretch.entry.kind
        → PrintsText (printing O.Output reply.old reply.new) (spec.piece_lines (piece_in image stretch.entry)) }
{
    match stretch.kind {
        StretchKind::Core { offset } => {
            let bytes = window.read(offset, stretch.length);
            print_rows(reply, b"", stretch.first, bytes);
        }
        StretchKind::FromFile(bytes) => print_rows(reply, b"file ", stretch.first, bytes),
        StretchKind::NotDumped(spot) => {
            print_not_dumped(reply, stretch.first, stretch.length, spot);
        }
        StretchKind::Cut => print_absent(reply, stretch.first, b"cut ", stretch.length),
        StretchKind::Unmapped => print_absent(reply, stretch.first, b"unmapped ", stretch.length),
    }
}

/// Prints the lines of all stretches of `length` addresses, whose bytes are in the window.
fn print_stretches<O: Output>(
    reply: &mut Reply<'_, O>,
    space: &AddressSpace<'_>,
    window: Window<'_>,
    first: u64,
    length: u64,
)
    requires { first + length ≤ 2 ^ 64 }
    ensures { (image : List ℕ) → IsFrontOf (core_of space.now) window.entry.size image → IsPartOf image window.entry.at window.entry.bytes.now
        → AreHeldWithin window.entry.size first length window.entry.at (past_of window.entry.at window.entry.bytes.now) (segments_of (core_of space.now))
        → PrintsText (printing O.Output reply.old reply.new)
        (flat_map spec.piece_lines (pieces_of (space_in image (space_of space.now)) first length)) }
{
    for stretch in space.stretches(window.size, first, length) {
        print_stretch(reply, window, stretch);
    }
}

/// Whether a range ends past the last address, or is longer than a reply shows.
pub fn is_out_of_range(first: u64, length: u64) -> bool
    ensures { result ≡ spec.is_out_of_range first length }
{
    length > MOST_SHOWN || u128::from(first) + u128::from(length) > 1 << 64
}

/// Prints the contents of `length` addresses from `first` on, piece by piece in rising order: `ADDR
/// HEX` for each 16 bytes, `ADDR file HEX` for each 16 that an attached executable has, `ADDR
/// notdumped LEN OFFSET NAME`, `ADDR cut LEN` and `ADDR unmapped LEN`. A range that ends past the
/// last address, or has over 65,536 addresses, is answered by `no Range`. Returns the outcome.
///
/// The core may be only the first bytes of an image. The reply is the same as for every image that starts with these
/// bytes, and of which the window has all bytes of the range.
pub fn print_dump<O: Output>(
    alloc: Global,
    reply: &mut Reply<'_, O>,
    core: &CoreImage<'_>,
    window: Window<'_>,
    attached: &[Attached<'_>],
    first: u64,
    length: u64,
) -> Outcome
    ensures { (image : List ℕ) → IsAtHand (core_bytes core.now) window.entry.size window.entry.at window.entry.bytes.now first length image → PrintsReply (printing O.Output reply.old reply.new)
        (AnswersWith result (spec.dump_answer image (map attached_view attached.now) first length)) }
{
    a_sound_front_names_the_files();
    let Ok(space) = space_with(alloc, core, attached) else {
        print_no(reply, b"OutOfMemory");
        return Outcome::OutOfMemory;
    };
    if is_out_of_range(first, length) {
        print_no(reply, b"Range");
        return Outcome::Refused;
    }
    print_stretches(reply, &space, window, first, length);
    print_ok(reply);
    Outcome::Done
}
