// The screen of an archive.
ghost use Rattle.std.specs.Prelude.{◌≡◌};
ghost use Rattle.script_streams.specs.Replies.{PrintsText, printing};
ghost use Rattle.case_tables.specs.ArchiveScreen.{archive_text, cases_text, counted_text, data_text, journal_text, layout_text, numbers_text, times_text};

use crate::day_bars::print_days;
use crate::{Zone, print_size, print_time_in};
use script_streams::{Output, Reply};

/// The known facts of an archive.
#[derive(Clone, Copy, PartialEq, Eq)]
pub struct ArchiveFacts {
    /// The version of its layout.
    pub version: u32,
    /// The bytes of its file.
    pub length: u64,
    pub data_blocks: u32,
    pub free_blocks: u64,
    /// The bytes of a half of its journal.
    pub half: u64,
    /// The bytes of the half that is taken that are in use.
    pub used: u64,
    pub cores: u64,
    pub executables: u64,
    pub pinned: u64,
    /// The least time of a core in seconds since the epoch, of those that have one; or 0.
    pub oldest: u64,
    /// The latest time of a core; or 0.
    pub newest: u64,
    /// The highest number that was given to a case; or 0.
    pub last_number: u64,
    /// How many cores are of each of the seven days up to that of `newest`, the first day first.
    pub days: [u64; 7],
}

/// Prints the known facts of an archive, with the times of its cores in a zone. The days are those of UTC.
pub fn print_archive_screen<O: Output>(
    reply: &mut Reply<'_, O>,
    zone: Zone<'_>,
    facts: &ArchiveFacts,
)
    ensures is_screen { PrintsText (printing O.Output reply.old reply.new) (archive_text zone.entry facts.now) }
{
    print_layout(reply, facts);
    print_data(reply, facts);
    print_journal(reply, facts);
    print_cases(reply, facts);
    print_times(reply, zone, facts);
    print_numbers(reply, facts);
    print_days(reply, facts.newest, &facts.days);
}

fn print_layout<O: Output>(reply: &mut Reply<'_, O>, facts: &ArchiveFacts)
    ensures { PrintsText (printing O.Output reply.old reply.new) (layout_text facts.now) }
{
    reply.print(b"layout    version ");
    reply.print_decimal(u128::from(facts.version));
    reply.print(b", ");
    print_size(reply, facts.length);
    reply.print(b"\n");
}

fn print_data<O: Output>(reply: &mut Reply<'_, O>, facts: &ArchiveFacts)
    ensures { PrintsText (printing O.Output reply.old reply.new) (data_text facts.now) }
{
    reply.print(b"data      ");
    print_counted(reply, u64::from(facts.data_blocks), b" block");
    reply.print(b" of 4096 bytes, ");
    reply.print_decimal(u128::from(facts.free_blocks));
    reply.print(b" free\n");
}

fn print_journal<O: Output>(reply: &mut Reply<'_, O>, facts: &ArchiveFacts)
    ensures { PrintsText (printing O.Output reply.old reply.new) (journal_text facts.now) }
{
    reply.print(b"journal   ");
    reply.print_decimal(u128::from(facts.used));
    reply.print(b" of ");
    reply.print_decimal(u128::from(facts.half));
    reply.print(b" bytes of a half in use\n");
}

fn print_cases<O: Output>(reply: &mut Reply<'_, O>, facts: &ArchiveFacts)
    ensures { PrintsText (printing O.Output reply.old reply.new) (cases_text facts.now) }
{
    reply.print(b"cases     ");
    print_counted(reply, facts.cores, b" core");
    reply.print(b", ");
    print_counted(reply, facts.executables, b" executable");
    reply.print(b", ");
    reply.print_decimal(u128::from(facts.pinned));
    reply.print(b" pinned\n");
}

// Prints a number of things that a word names. The word has an s unless there is one.
fn print_counted<O: Output>(reply: &mut Reply<'_, O>, count: u64, word: &[u8])
    ensures { PrintsText (printing O.Output reply.old reply.new) (counted_text count word.now) }
{
    reply.print_decimal(u128::from(count));
    reply.print(word);
    if count != 1 {
        reply.print(b"s");
    }
}

fn print_times<O: Output>(reply: &mut Reply<'_, O>, zone: Zone<'_>, facts: &ArchiveFacts)
    ensures { PrintsText (printing O.Output reply.old reply.new) (times_text zone.entry facts.now) }
{
    reply.print(b"cores     oldest ");
    print_time_in(reply, zone, facts.oldest);
    reply.print(b", newest ");
    print_time_in(reply, zone, facts.newest);
    reply.print(b"\n");
}

fn print_numbers<O: Output>(reply: &mut Reply<'_, O>, facts: &ArchiveFacts)
    ensures { PrintsText (printing O.Output reply.old reply.new) (numbers_text facts.now) }
{
    reply.print(b"numbers   ");
    reply.print_decimal(u128::from(facts.last_number));
    reply.print(b" is the highest that was given\n");
}
