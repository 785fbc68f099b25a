// The words that lines about memory have in common.
ghost use Rattle.std.specs.Prelude.{◌≡◌, ◌<◌};
ghost use Rattle.script_streams.specs.Replies.{PrintsText, printing};
ghost use Rattle.address_space.specs.SourceWords.{spot_view};
ghost use Rattle.std.specs.Option.{option_map};
ghost use Rattle.memory_replies.specs.Words as spec;

use address_space::FileSpot;
use script_streams::{Output, Reply};

/// Prints a number in hexadecimal and a space.
#[tactic(auto, unfolding(crate::specs::Words::hex_word))]
pub fn print_hex_word<O: Output>(reply: &mut Reply<'_, O>, number: u64)
    ensures { PrintsText (printing O.Output reply.old reply.new) (spec.hex_word number) }
{
    reply.print_hexadecimal(u128::from(number));
    reply.print(b" ");
}

/// Prints a place in a mapped file, or that there is none.
#[tactic(auto, unfolding(crate::specs::Words::spot_words))]
pub(crate) fn print_spot<O: Output>(reply: &mut Reply<'_, O>, spot: Option<FileSpot<'_>>)
    ensures { PrintsText (printing O.Output reply.old reply.new)
        (spec.spot_words (option_map spot_view spot.entry)) }
{
    match spot {
        Some(spot) => {
            print_hex_word(reply, spot.offset);
            reply.print_text(spot.name);
        }
        None => reply.print(b"- -"),
    }
}
