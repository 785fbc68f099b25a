// Values that need not be known.
ghost use Rattle.script_streams.specs.Replies.{PrintsText, printing};
ghost use Rattle.frame_replies.specs.Known as spec;

use script_streams::{Output, Reply};

/// Prints a number in hexadecimal, or `?` where it is not known.
pub(crate) fn print_known<O: Output>(reply: &mut Reply<'_, O>, number: Option<u64>)
    ensures { PrintsText (printing O.Output reply.old reply.new) (spec.known_words number) }
{
    match number {
        Some(number) => reply.print_hexadecimal(u128::from(number)),
        None => reply.print(b"?"),
    }
}
