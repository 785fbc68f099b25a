// Sizes in words.
ghost use Rattle.std.specs.Prelude.{◌≡◌, ◌<◌, ◌≤◌, length};
ghost use Rattle.script_streams.specs.Replies.{PrintsText, printing};
ghost use Rattle.case_tables.specs.Sizes.{in_units, size_text};

use script_streams::{Output, Reply};
use script_words::print_decimal;

const KIB: u64 = 1_024;

const MIB: u64 = 1_048_576;

const GIB: u64 = 1_073_741_824;

/// Prints a size in bytes, or in the largest unit of which there is at least one.
pub fn print_size<O: Output>(reply: &mut Reply<'_, O>, size: u64)
    ensures { PrintsText (printing O.Output reply.old reply.new) (size_text size) }
{
    if size < KIB {
        reply.print_decimal(u128::from(size));
        reply.print(b" B");
    } else if size < MIB {
        print_units(reply, KIB, size);
        reply.print(b" KiB");
    } else if size < GIB {
        print_units(reply, MIB, size);
        reply.print(b" MiB");
    } else {
        print_units(reply, GIB, size);
        reply.print(b" GiB");
    }
}

// Prints a size in units, with one decimal, rounded down.
fn print_units<O: Output>(reply: &mut Reply<'_, O>, unit: u64, size: u64)
    requires some { 0 < unit }
    requires fits { unit ≤ 1_073_741_824 }
    ensures { PrintsText (printing O.Output reply.old reply.new) (in_units unit size) }
{
    reply.print_decimal(u128::from(size / unit));
    reply.print(b".");
    reply.print_decimal(u128::from(size % unit * 10 / unit));
}

// How many bytes `print_size` prints.
pub(crate) fn size_length(size: u64) -> usize
    ensures { result ≡ length (size_text size) }
{
    if size < KIB {
        print_decimal(u128::from(size)).len() + 2
    } else if size < MIB {
        units_length(KIB, size) + 4
    } else if size < GIB {
        units_length(MIB, size) + 4
    } else {
        units_length(GIB, size) + 4
    }
}

// How many bytes `print_units` prints.
fn units_length(unit: u64, size: u64) -> usize
    requires some { 0 < unit }
    requires fits { unit ≤ 1_073_741_824 }
    ensures length { result ≡ length (in_units unit size) }
    ensures few { result ≤ 100 }
{
    let whole = print_decimal(u128::from(size / unit)).len();
    let tenths = print_decimal(u128::from(size % unit * 10 / unit)).len();
    whole + 1 + tenths
}
