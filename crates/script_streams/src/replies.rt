// How replies end.
ghost use Rattle.std.specs.Prelude.{◌≡◌};
ghost use Rattle.script_streams.specs.Replies.{PrintsText, printing, ok_reply, no_reply};

use crate::reply::Reply;
use crate::streams::Output;

/// Prints `ok`, the last line of a reply to a command that was carried out.
pub fn print_ok<O: Output>(reply: &mut Reply<'_, O>)
    ensures { PrintsText (printing O.Output reply.old reply.new) ok_reply }
{
    reply.print(b"ok\n");
}

/// Prints `no` and the reason, the one line of a reply to a command that was refused.
pub fn print_no<O: Output>(reply: &mut Reply<'_, O>, reason: &[u8])
    ensures { PrintsText (printing O.Output reply.old reply.new) (no_reply reason.now) }
{
    reply.print(b"no ");
    reply.print(reason);
    reply.print(b"\n");
}
