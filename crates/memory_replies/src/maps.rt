// The lines of mappings.
ghost use Rattle.std.specs.Prelude.{◌≡◌, ◌<◌, ◌+◌, true, is_ok};
ghost use Rattle.std.specs.List.{flat_map};
ghost use Rattle.script_streams.specs.Replies.{PrintsText, reply_of, printing};
ghost use Rattle.address_space.specs.PieceWords.{mapping_view};
ghost use Rattle.address_space.specs.Source.{mappings_of};
ghost use Rattle.address_space.specs.SpaceWords.{space_of};
ghost use Rattle.image_replies.specs.CoreWords.{core_bytes};
ghost use Rattle.memory_replies.specs.Words.{hex_word};
ghost use Rattle.memory_replies.specs.Maps as spec;

use crate::attached::plain_space;
use crate::words::{print_hex_word, print_spot};
use address_space::{AddressSpace, Mapping};
use image_replies::CoreImage;
use script_streams::{Output, Reply, print_ok};
use std::alloc::Global;

/// The letter of a flag, or `-` if it is not set.
fn flag_letter(flags: u32, flag: u32, letter: &'static [u8]) -> &'static [u8]
    requires { 0 < flag }
    ensures { result.now ≡ spec.flag_letter flags flag letter.entry.now }
{
    if flags / flag % 2 == 1 { letter } else { b"-" }
}

/// Prints the rights that a mapping's flags give.
#[tactic(auto, unfolding(crate::specs::Maps::rights))]
fn print_rights<O: Output>(reply: &mut Reply<'_, O>, flags: u32)
    ensures { PrintsText (printing O.Output reply.old reply.new) (spec.rights flags) }
{
    reply.print(flag_letter(flags, 4, b"r"));
    reply.print(flag_letter(flags, 2, b"w"));
    reply.print(flag_letter(flags, 1, b"x"));
}

/// Prints the address after the last of `count` addresses from one on, which may be 2^64, and a space.
#[tactic(auto, unfolding(crate::specs::Words::hex_word))]
fn print_past<O: Output>(reply: &mut Reply<'_, O>, start: u64, count: u64)
    ensures { PrintsText (printing O.Output reply.old reply.new) (hex_word (start + count)) }
{
    reply.print_hexadecimal(u128::from(start) + u128::from(count));
    reply.print(b" ");
}

/// Prints the line of a mapping.
fn print_mapping<O: Output>(reply: &mut Reply<'_, O>, mapping: Mapping<'_>)
    ensures { PrintsText (printing O.Output reply.old reply.new)
        (spec.mapping_line (mapping_view mapping.entry)) }
{
    print_hex_word(reply, mapping.start);
    print_past(reply, mapping.start, mapping.memsz);
    print_rights(reply, mapping.flags);
    reply.print(b" ");
    print_hex_word(reply, mapping.filesz);
    print_spot(reply, mapping.spot);
    reply.print(b"\n");
}

/// Prints a line for each mapping.
#[tactic(auto, using(crate::proofs::PrintLemmas::up_to_start))]
fn print_mappings<O: Output>(reply: &mut Reply<'_, O>, space: &AddressSpace<'_>)
    ensures { PrintsText (printing O.Output reply.old reply.new)
        (flat_map spec.mapping_line (mappings_of (space_of space.now))) }
{
    for mapping in space.mappings() {
        print_mapping(reply, mapping);
    }
}

/// Prints the mappings of a core: `START PAST RWX FILESZ OFFSET NAME` for each PT_LOAD, in table order. Without memory
/// for tables of the segments and mapped files it is slower, and gives the same reply.
#[tactic(auto, unfolding(crate::specs::Maps::maps_answer))]
pub fn print_maps<O: Output>(alloc: Global, reply: &mut Reply<'_, O>, core: &CoreImage<'_>)
    ensures states { PrintsText (printing O.Output reply.old reply.new) (reply_of (spec.maps_answer (core_bytes core.now))) }
    ensures done { is_ok (spec.maps_answer (core_bytes core.now)) ≡ true }
{
    let space = plain_space(alloc, core);
    print_mappings(reply, &space);
    print_ok(reply);
}
