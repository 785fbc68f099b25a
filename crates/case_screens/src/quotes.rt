// Names in quotes, so that they can be pasted into a shell.
ghost use Rattle.std.specs.Prelude.{◌≡◌};
ghost use Rattle.std.specs.List.{flat_map};
ghost use Rattle.script_streams.specs.Replies.{PrintsText, printing};
ghost use Rattle.script_words.specs.Printing.{shown};
ghost use Rattle.case_screens.specs.Quotes.{between_quotes, quoted, quoted_byte, quoted_shown};

use script_streams::{Output, Reply};
use script_words::print_byte;

// Prints a name as a script prints it, in single quotes. The text between them has no quote, and is read as the name.
pub(crate) fn print_quoted<O: Output>(reply: &mut Reply<'_, O>, name: &[u8])
    ensures { PrintsText (printing O.Output reply.old reply.new) (quoted (shown name.now)) }
{
    reply.print(b"'");
    print_name(reply, name);
    reply.print(b"'");
}

fn print_name<O: Output>(reply: &mut Reply<'_, O>, name: &[u8])
    ensures { PrintsText (printing O.Output reply.old reply.new) (between_quotes (shown name.now)) }
{
    if name.is_empty() {
        reply.print(b"-");
    } else if name == b"-".as_slice() {
        reply.print(b"\\x2d");
    } else {
        print_bytes(reply, name);
    }
}

fn print_bytes<O: Output>(reply: &mut Reply<'_, O>, name: &[u8])
    ensures { PrintsText (printing O.Output reply.old reply.new) (flat_map quoted_shown name.now) }
{
    for byte in name {
        print_between(reply, print_byte(*byte).as_slice());
    }
}

fn print_between<O: Output>(reply: &mut Reply<'_, O>, word: &[u8])
    ensures { PrintsText (printing O.Output reply.old reply.new) (between_quotes word.now) }
{
    for byte in word {
        print_quoted_byte(reply, *byte);
    }
}

fn print_quoted_byte<O: Output>(reply: &mut Reply<'_, O>, byte: u8)
    ensures { PrintsText (printing O.Output reply.old reply.new) (quoted_byte byte) }
{
    if byte == b'\'' {
        reply.print(b"\\x27");
    } else {
        reply.print(&[byte]);
    }
}
