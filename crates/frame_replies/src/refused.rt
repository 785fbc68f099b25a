// Lines for which there is no memory.
ghost use Rattle.std.specs.Prelude.{◌≡◌};
ghost use Rattle.script_streams.specs.Replies.{PrintsText, printing};
ghost use Rattle.memory_replies.specs.Answers.{memory_reply};
ghost use Rattle.memory_replies.specs.declared.outcome.Outcome.TheVariants.{OutOfMemory};

use memory_replies::Outcome;
use script_streams::{Output, Reply, print_no};

/// Prints that there is no memory.
pub(crate) fn print_no_memory<O: Output>(reply: &mut Reply<'_, O>) -> Outcome
    ensures states { PrintsText (printing O.Output reply.old reply.new) memory_reply }
    ensures outcome { result ≡ OutOfMemory }
{
    print_no(reply, b"OutOfMemory");
    Outcome::OutOfMemory
}
