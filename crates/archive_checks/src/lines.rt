// The lines that `check` prints about an archive.
ghost use Rattle.std.specs.Prelude.{◌≡◌};
ghost use Rattle.script_streams.specs.Replies.{PrintsText, printing};
ghost use Rattle.archive_checks.specs.Texts.{facts_lines, half_name, gap_line, place_line, place_words};

use crate::gaps::Gap;
use intake::Space;
use journal_layout::Half;
use script_streams::{Output, Reply};

// A possible cause, if no writing leaves the halves of a journal so.
const DOUBT: &[u8] =
    b": a header may be damaged, and the half that is not taken the right one: docs/OPERATIONS.md has a recipe for that, under 'The care of an archive'";

/// The part of an archive that the first bad field belongs to.
#[derive(Clone, Copy)]
pub(crate) enum Place {
    Superblock,
    /// The header of a half of the journal.
    Header(Half),
    /// A record of a half, counted from 1.
    Record(Half, u64),
}

/// Prints the version of the layout, how many cases there are, and how many data blocks are free.
pub fn print_facts<O: Output>(reply: &mut Reply<'_, O>, version: u32, count: u64, space: Space)
    ensures { PrintsText (printing O.Output reply.old reply.new) (facts_lines version count space) }
{
    reply.print(b"version ");
    reply.print_decimal(u128::from(version));
    reply.print(b"\n");
    reply.print(b"cases ");
    reply.print_decimal(u128::from(count));
    reply.print(b"\n");
    reply.print(b"free ");
    reply.print_decimal(u128::from(space.free));
    reply.print(b" of ");
    reply.print_decimal(u128::from(space.data_blocks));
    reply.print(b"\n");
}

/// Prints in words where a byte of the archive is.
pub(crate) fn print_place<O: Output>(reply: &mut Reply<'_, O>, block: u64, place: Place)
    ensures { PrintsText (printing O.Output reply.old reply.new) (place_line block place) }
{
    reply.print(b"damaged in block ");
    reply.print_decimal(u128::from(block));
    print_part(reply, place);
}

// Prints the part that a byte belongs to.
fn print_part<O: Output>(reply: &mut Reply<'_, O>, place: Place)
    ensures { PrintsText (printing O.Output reply.old reply.new) (place_words place) }
{
    match place {
        Place::Superblock => reply.print(b", the superblock\n"),
        Place::Header(half) => {
            reply.print(b", the header of half ");
            reply.print(half_word(half));
            reply.print(b" of the journal\n");
        }
        Place::Record(half, number) => {
            reply.print(b", record ");
            reply.print_decimal(u128::from(number));
            reply.print(b" of half ");
            reply.print(half_word(half));
            reply.print(b" of the journal\n");
        }
    }
}

/// Prints in words the disagreement of the two halves of a journal. The line is not ended.
pub fn print_gap<O: Output>(reply: &mut Reply<'_, O>, gap: Gap)
    ensures { PrintsText (printing O.Output reply.old reply.new) (gap_line gap) }
{
    match gap {
        Gap::Generation { half, is, wants } => {
            reply.print(b"the generation of half ");
            reply.print(half_word(half));
            reply.print(b" of the journal is ");
            reply.print_decimal(u128::from(is));
            reply.print(b", not ");
            reply.print_decimal(u128::from(wants));
            reply.print(DOUBT);
        }
        Gap::Newer { half, next, taken } => {
            reply.print(b"by half ");
            reply.print(half_word(half));
            reply.print(b" of the journal, which is not taken, the next case is ");
            reply.print_decimal(u128::from(next));
            reply.print(b", by the other ");
            reply.print_decimal(u128::from(taken));
            reply.print(DOUBT);
        }
    }
}

fn half_word(half: Half) -> &'static [u8]
    ensures { result.now ≡ half_name half }
{
    match half {
        Half::A => b"A",
        Half::B => b"B",
    }
}
