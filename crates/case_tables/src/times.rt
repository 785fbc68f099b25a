// Times in words.
ghost use Rattle.std.specs.Prelude.{◌≡◌, ◌<◌, ◌≤◌, length, codes, if◌then◌else◌};
ghost use Rattle.script_streams.specs.Replies.{PrintsText, printing};
ghost use Rattle.case_tables.specs.Times.{two_digits, date_text, day_text, clock_text, moment_text, place_text, time_in, time_text};

use crate::days::{Day, day_of};
use crate::zones::{PlaceClock, Zone};
use script_streams::{Output, Reply};
use script_words::print_decimal;

// The seconds of a day.
const DAY: u64 = 86_400;

/// Prints a time in UTC; or `-` for 0; or `@` and the seconds after the year 9999.
pub fn print_time<O: Output>(reply: &mut Reply<'_, O>, time: u64)
    ensures { PrintsText (printing O.Output reply.old reply.new) (time_text time) }
{
    if time == 0 {
        reply.print(b"-");
        return;
    }
    match day_of(time / DAY) {
        Some(day) => print_moment(reply, day, time % DAY),
        None => {
            reply.print(b"@");
            reply.print_decimal(u128::from(time));
        }
    }
}

/// Prints a time as the clock of a place shows it, and its offset from UTC, as `2026-11-27 11:00:00+01:00`. A time in UTC is printed as
/// `print_time` does it. So are 0, a day before 1970 or after the year 9999, and a time whose offset is no whole minutes.
pub fn print_time_in<O: Output>(reply: &mut Reply<'_, O>, zone: Zone<'_>, time: u64)
    ensures { PrintsText (printing O.Output reply.old reply.new) (time_in zone.entry time) }
{
    match zone.clock_at(time) {
        Some(clock) => print_clock_of(reply, clock),
        None => print_time(reply, time),
    }
}

/// Prints the day that is so many days after 1970-01-01; or `-` after the year 9999.
pub fn print_day<O: Output>(reply: &mut Reply<'_, O>, number: u64)
    ensures { PrintsText (printing O.Output reply.old reply.new) (day_text number) }
{
    match day_of(number) {
        Some(day) => print_date(reply, day),
        None => reply.print(b"-"),
    }
}

// Prints a day and a time of the day.
fn print_moment<O: Output>(reply: &mut Reply<'_, O>, day: Day, seconds: u64)
    ensures { PrintsText (printing O.Output reply.old reply.new) (moment_text day seconds) }
{
    print_date(reply, day);
    reply.print(b" ");
    print_clock(reply, seconds);
    reply.print(b"Z");
}

// Prints what the clock of a place shows.
fn print_clock_of<O: Output>(reply: &mut Reply<'_, O>, clock: PlaceClock)
    ensures { PrintsText (printing O.Output reply.old reply.new) (place_text clock) }
{
    print_date(reply, clock.day);
    reply.print(b" ");
    print_clock(reply, clock.seconds);
    reply.print(sign(clock.is_behind));
    print_two(reply, clock.minutes / 60);
    reply.print(b":");
    print_two(reply, clock.minutes % 60);
}

fn sign(is_behind: bool) -> &'static [u8]
    ensures { result.now ≡ if is_behind then codes "-" else codes "+" }
{
    if is_behind { b"-" } else { b"+" }
}

fn print_date<O: Output>(reply: &mut Reply<'_, O>, day: Day)
    ensures { PrintsText (printing O.Output reply.old reply.new) (date_text day) }
{
    print_two(reply, u64::from(day.year) / 100);
    print_two(reply, u64::from(day.year) % 100);
    reply.print(b"-");
    print_two(reply, u64::from(day.month));
    reply.print(b"-");
    print_two(reply, u64::from(day.day));
}

fn print_clock<O: Output>(reply: &mut Reply<'_, O>, seconds: u64)
    ensures { PrintsText (printing O.Output reply.old reply.new) (clock_text seconds) }
{
    print_two(reply, seconds / 3600);
    reply.print(b":");
    print_two(reply, seconds / 60 % 60);
    reply.print(b":");
    print_two(reply, seconds % 60);
}

// Prints the last two digits of a number.
fn print_two<O: Output>(reply: &mut Reply<'_, O>, number: u64)
    ensures { PrintsText (printing O.Output reply.old reply.new) (two_digits number) }
{
    let tens = b'0' + (number / 10 % 10) as u8;
    let ones = b'0' + (number % 10) as u8;
    reply.print(&[tens, ones]);
}

// How many bytes `print_time_in` prints.
pub(crate) fn time_length(zone: Zone<'_>, time: u64) -> usize
    ensures { result ≡ length (time_in zone.entry time) }
{
    match zone.clock_at(time) {
        Some(_) => 25,
        None => utc_length(time),
    }
}

// How many bytes `print_time` prints.
fn utc_length(time: u64) -> usize
    ensures { result ≡ length (time_text time) }
{
    if time == 0 {
        return 1;
    }
    match day_of(time / DAY) {
        Some(_) => 20,
        None => 1 + print_decimal(u128::from(time)).len(),
    }
}
