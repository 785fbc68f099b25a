// The words of lines.
ghost use Rattle.std.specs.Prelude.{◌≡◌, ◌++◌};
ghost use Rattle.std.specs.Fmt.{signed_decimal};
ghost use Rattle.script_streams.specs.Replies.{PrintsText, printing};
ghost use Rattle.image_replies.specs.Lines.{number_word, address_word};

use script_streams::{Output, Reply};

/// Prints a number and a space.
pub(crate) fn print_number<O: Output>(reply: &mut Reply<'_, O>, number: u128)
    ensures { PrintsText (printing O.Output reply.old reply.new) (number_word number) }
{
    reply.print_decimal(number);
    reply.print(b" ");
}

/// Prints an address, a place or a size in hexadecimal, and a space.
pub(crate) fn print_address<O: Output>(reply: &mut Reply<'_, O>, address: u64)
    ensures { PrintsText (printing O.Output reply.old reply.new) (address_word address) }
{
    reply.print_hexadecimal(u128::from(address));
    reply.print(b" ");
}

/// Prints a text as it is, and a signed number after it.
pub(crate) fn print_labelled<O: Output>(reply: &mut Reply<'_, O>, label: &[u8], number: i32)
    ensures { PrintsText (printing O.Output reply.old reply.new) (label.now ++ signed_decimal number) }
{
    reply.print(label);
    reply.print_signed(i64::from(number));
}
