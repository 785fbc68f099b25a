// The cores of an archive by day.
ghost use Rattle.std.specs.Prelude.{◌≡◌, ◌<◌, map, replicate};
ghost use Rattle.journal_layout.specs.Case.{case_of};
ghost use Rattle.case_tables.specs.Table.{greatest};
ghost use Rattle.script_streams.specs.Replies.{PrintsText, printing};
ghost use Rattle.case_tables.specs.DayBars.{bar_length, bar_text, cores_by_day, count_before, count_text, day_row, days_text, is_core_before, rows_text};

use crate::{print_day, print_spaces};
use journal_layout::{Entry, Kind};
use script_streams::{Output, Reply};
use script_words::print_decimal;

// The seconds of a day.
const DAY: u64 = 86_400;

// How many marks a bar has at most.
const BAR: u64 = 40;

// Whether a case is a core of the day that is so many days before this one. A core of the time 0 has none.
fn is_core_before(case: &Entry, day: u64, back: u64) -> bool
    requires { back < 7 }
    ensures { result ≡ is_core_before day back (case_of case.now) }
{
    match case.kind {
        Kind::Core => case.time != 0 && case.time / DAY + back == day,
        Kind::Exec => false,
    }
}

// How many cores are of the day that is so many days before this one.
fn count_before(cases: &[Entry], day: u64, back: u64) -> u64
    requires { back < 7 }
    ensures { result ≡ count_before day back (map case_of cases.now) }
{
    let mut count = 0;
    for case in cases {
        if is_core_before(case, day, back) {
            count += 1;
        }
    }
    count
}

/// How many cores are of each of the seven days up to that of this time, the first day first.
pub fn cores_by_day(cases: &[Entry], newest: u64) -> [u64; 7]
    ensures counts { result ≡ cores_by_day newest (map case_of cases.now) }
{
    let day = newest / DAY;
    [
        count_before(cases, day, 6),
        count_before(cases, day, 5),
        count_before(cases, day, 4),
        count_before(cases, day, 3),
        count_before(cases, day, 2),
        count_before(cases, day, 1),
        count_before(cases, day, 0),
    ]
}

// The highest of these counts.
fn greatest_of(counts: &[u64]) -> u64
    ensures { result ≡ greatest counts.now }
{
    let mut greatest = 0;
    for count in counts {
        greatest = greatest.max(*count);
    }
    greatest
}

// How many marks stand for so many cores: one for each, or fewer in proportion if the highest count has more than fit.
fn bar_length(greatest: u64, count: u64) -> u64
    ensures { result ≡ bar_length greatest count }
{
    if greatest <= BAR {
        return count;
    }
    (u128::from(count) * u128::from(BAR) / u128::from(greatest)) as u64
}

// Prints a number in a column of six letters, at its right.
fn print_count<O: Output>(reply: &mut Reply<'_, O>, count: u64)
    ensures { PrintsText (printing O.Output reply.old reply.new) (count_text count) }
{
    let digits = print_decimal(u128::from(count));
    print_spaces(reply, 6usize.saturating_sub(digits.len()));
    reply.print(digits.as_slice());
}

// Prints so many marks.
fn print_marks<O: Output>(reply: &mut Reply<'_, O>, count: u64)
    ensures { PrintsText (printing O.Output reply.old reply.new) (replicate count 35) }
{
    for _ in 0..count {
        reply.print(b"#");
    }
}

// Prints a bar of so many marks, after two spaces.
fn print_bar<O: Output>(reply: &mut Reply<'_, O>, length: u64)
    ensures { PrintsText (printing O.Output reply.old reply.new) (bar_text length) }
{
    if length > 0 {
        reply.print(b"  ");
        print_marks(reply, length);
    }
}

// Prints the row of the day that is so many days before this one. There is no day before 1970-01-01.
fn print_row<O: Output>(reply: &mut Reply<'_, O>, greatest: u64, day: u64, back: u64, count: u64)
    ensures { PrintsText (printing O.Output reply.old reply.new) (day_row greatest day back count) }
{
    if back > day {
        return;
    }
    reply.print(if back == day.min(6) {
        b"days      "
    } else {
        b"          "
    });
    print_day(reply, day - back);
    print_count(reply, count);
    print_bar(reply, bar_length(greatest, count));
    reply.print(b"\n");
}

// Prints the rows of seven days, of which this is the last.
fn print_rows<O: Output>(reply: &mut Reply<'_, O>, greatest: u64, day: u64, counts: &[u64; 7])
    ensures { PrintsText (printing O.Output reply.old reply.new) (rows_text greatest day counts.now) }
{
    print_row(reply, greatest, day, 6, counts[0]);
    print_row(reply, greatest, day, 5, counts[1]);
    print_row(reply, greatest, day, 4, counts[2]);
    print_row(reply, greatest, day, 3, counts[3]);
    print_row(reply, greatest, day, 2, counts[4]);
    print_row(reply, greatest, day, 1, counts[5]);
    print_row(reply, greatest, day, 0, counts[6]);
}

// Prints how many cores are of each of the seven days up to that of this time; nothing, if there is no time.
pub(crate) fn print_days<O: Output>(reply: &mut Reply<'_, O>, newest: u64, counts: &[u64; 7])
    ensures { PrintsText (printing O.Output reply.old reply.new) (days_text newest counts.now) }
{
    if newest > 0 {
        print_rows(reply, greatest_of(counts), newest / DAY, counts);
    }
}
