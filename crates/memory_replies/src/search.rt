// The places where bytes occur.
ghost use Rattle.std.specs.Prelude.{◌≡◌, ◌<◌, length, map};
ghost use Rattle.std.specs.List.{flat_map};
ghost use Rattle.script_streams.specs.Replies.{PrintsReply, PrintsText, reply_of, printing};
ghost use Rattle.address_space.specs.Occurrence.{occurrences};
ghost use Rattle.address_space.specs.SpaceWords.{space_of};
ghost use Rattle.image_replies.specs.CoreWords.{core_bytes};
ghost use Rattle.memory_replies.specs.Answers.{AnswersWith};
ghost use Rattle.memory_replies.specs.Memory.{attached_view};
ghost use Rattle.memory_replies.specs.Find as spec;

use crate::attached::space_with;
use crate::outcome::Outcome;
use address_space::{AddressSpace, Attached};
use image_replies::CoreImage;
use script_streams::{Output, Reply, print_no, print_ok};
use std::alloc::Global;

/// Prints the line of an address.
fn print_address<O: Output>(reply: &mut Reply<'_, O>, address: u64)
    ensures { PrintsText (printing O.Output reply.old reply.new) (spec.address_line address) }
{
    reply.print_hexadecimal(u128::from(address));
    reply.print(b"\n");
}

/// Prints a line for each address at which the bytes occur.
#[tactic(auto, using(crate::proofs::PrintLemmas::up_to_start))]
fn print_matches<O: Output>(reply: &mut Reply<'_, O>, space: &AddressSpace<'_>, needle: &[u8])
    requires { 0 < length needle.now }
    ensures { PrintsText (printing O.Output reply.old reply.new)
        (flat_map spec.address_line (occurrences (space_of space.now) needle.now)) }
{
    for address in space.find(needle) {
        print_address(reply, address);
    }
}

/// Prints every address at which the bytes occur in a core's memory, by the number of the segment that decides it and
/// then by itself. Returns the outcome.
pub fn print_find<O: Output>(
    alloc: Global,
    reply: &mut Reply<'_, O>,
    core: &CoreImage<'_>,
    attached: &[Attached<'_>],
    needle: &[u8],
) -> Outcome
    requires { 0 < length needle.now }
    ensures { PrintsReply (printing O.Output reply.old reply.new)
        (AnswersWith result (spec.find_answer (core_bytes core.now) (map attached_view attached.now) needle.now)) }
{
    let Ok(space) = space_with(alloc, core, attached) else {
        print_no(reply, b"OutOfMemory");
        return Outcome::OutOfMemory;
    };
    print_matches(reply, &space, needle);
    print_ok(reply);
    Outcome::Done
}
