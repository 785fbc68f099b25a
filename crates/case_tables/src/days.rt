// Days of the calendar by their numbers.
ghost use Rattle.std.specs.Prelude.{◌≡◌, ◌≤◌, pos};
ghost use Rattle.jiff.specs.Words.{epoch_day};
ghost use Rattle.case_tables.specs.Days.{dated};

use jiff::ToSpan;
use jiff::civil::{Date, date};

// The number of 9999-12-31.
const LAST_DAY: u64 = 2_932_896;

// A day of a year, by its month and its place in the month.
#[derive(Clone, Copy)]
pub(crate) struct Day {
    pub(crate) year: u16,
    pub(crate) month: u8,
    pub(crate) day: u8,
}

// The day that is so many days after 1970-01-01, up to the end of the year 9999.
pub(crate) fn day_of(number: u64) -> Option<Day>
    ensures { result ≡ dated number }
{
    if number > LAST_DAY {
        return None;
    }
    let found = days_after(number);
    Some(Day {
        year: found.year().unsigned_abs(),
        month: found.month().unsigned_abs(),
        day: found.day().unsigned_abs(),
    })
}

// The date that is so many days after 1970-01-01.
fn days_after(number: u64) -> Date
    requires { number ≤ 2_932_896 }
    ensures { epoch_day result ≡ pos number }
{
    let days = (number as i64).days();
    date(1970, 1, 1).checked_add(days).unwrap()
}
