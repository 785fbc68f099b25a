// The zone of a place: what its clock shows at a time, and when its days begin.
ghost use Rattle.std.specs.Prelude.{◌≡◌, ◌<◌, ◌≤◌, ◌+◌, ◌^◌, ◌*ℤ◌, IfSome, pos};
ghost use Rattle.jiff.specs.Words.{offset_at};
ghost use Rattle.jiff.specs.ZoneView.{plain_zone};
ghost use Rattle.case_tables.specs.Filters.{StartsDay, StartsDayBefore};
ghost use Rattle.case_tables.specs.Zones.{IsDateAt, IsMidnight, clock_at, clock_of, moved};

use crate::days::{Day, day_of};
use jiff::Timestamp;
use jiff::civil::{Date, DateTime};
use jiff::tz::{Offset, TimeZone};

// How many seconds a day has.
const DAY: u64 = 86_400;

// The last time whose offset `jiff` knows.
const LAST_TIME: u64 = 253_402_207_200;

/// The zone in which times are shown and read.
#[derive(Clone, Copy)]
pub enum Zone<'a> {
    /// UTC. Times say so by a `Z`.
    Utc,
    /// The zone of a place. Times have its offset from UTC after them.
    Local(TimeZone<'a>),
}

// What the clock of a place shows.
#[derive(Clone, Copy)]
pub(crate) struct PlaceClock {
    pub(crate) day: Day,
    // The seconds since midnight.
    pub(crate) seconds: u64,
    // It is behind UTC by these minutes, or else ahead of it.
    pub(crate) is_behind: bool,
    pub(crate) minutes: u64,
}

impl Zone<'_> {
    // What the clock of a place shows at a time. `None` in UTC, and if the time is shown in UTC: it is none, its day is before 1970 or
    // after the year 9999, or its offset is no whole minutes.
    pub(crate) fn clock_at(self, time: u64) -> Option<PlaceClock>
        ensures { result ≡ clock_at self.entry time }
    {
        let Zone::Local(zone) = self else {
            return None;
        };
        if time == 0 || time > LAST_TIME {
            return None;
        }
        clock_of(time, offset_of(zone, time))
    }

    // When the day of a time began.
    pub(crate) fn day_start(self, time: u64) -> Option<u64>
        ensures { StartsDay self.entry time result }
    {
        match self {
            Zone::Utc => Some(time - time % DAY),
            Zone::Local(zone) => midnight(zone, date_at(zone, time)?),
        }
    }

    // When the day before that of a time began.
    pub(crate) fn day_before(self, time: u64) -> Option<u64>
        ensures { StartsDayBefore self.entry time result }
    {
        match self {
            Zone::Utc => Some((time - time % DAY).saturating_sub(DAY)),
            Zone::Local(zone) => match date_at(zone, time)?.yesterday() {
                Ok(before) => midnight(zone, before),
                Err(_) => None,
            },
        }
    }

    // The time at which the clock shows this.
    pub(crate) fn time_of(self, civil: DateTime) -> Option<u64> {
        let moment = match self {
            Zone::Utc => Offset::UTC.to_timestamp(civil).ok()?,
            Zone::Local(zone) => civil.to_zoned(zone).ok()?.timestamp(),
        };
        u64::try_from(moment.as_second()).ok()
    }
}

// By how many seconds the clock of a place is ahead of UTC at a time.
fn offset_of(zone: TimeZone<'_>, time: u64) -> i32
    requires { time ≤ 253_402_207_200 }
    ensures { result ≡ offset_at (plain_zone zone.entry) (pos time *ℤ pos 1_000_000_000) }
{
    let moment = Timestamp::from_second(time as i64).unwrap();
    zone.to_offset(moment).seconds()
}

// What a clock shows at a time that is so many seconds ahead of UTC.
fn clock_of(time: u64, offset: i32) -> Option<PlaceClock>
    requires { time ≤ 253_402_207_200 }
    ensures { result ≡ clock_of time offset }
{
    let seconds = u64::from(offset.unsigned_abs());
    if seconds % 60 != 0 {
        return None;
    }
    let is_behind = offset < 0;
    let shown = moved(time, is_behind, seconds)?;
    Some(PlaceClock {
        day: day_of(shown / DAY)?,
        seconds: shown % DAY,
        is_behind,
        minutes: seconds / 60,
    })
}

// A time so many seconds before, or else after.
fn moved(time: u64, is_behind: bool, seconds: u64) -> Option<u64>
    requires { time + seconds < 2 ^ 64 }
    ensures { result ≡ moved is_behind time seconds }
{
    if is_behind {
        time.checked_sub(seconds)
    } else {
        Some(time + seconds)
    }
}

// The day that the clock of a place shows at a time.
fn date_at(zone: TimeZone<'_>, time: u64) -> Option<Date>
    ensures { IfSome result (IsDateAt zone.entry time) }
{
    if time > LAST_TIME {
        return None;
    }
    let moment = Timestamp::from_second(time as i64).unwrap();
    Some(zone.to_datetime(moment).date())
}

// When a day begins on the clock of a place.
fn midnight(zone: TimeZone<'_>, date: Date) -> Option<u64>
    ensures { IfSome result (IsMidnight zone.entry date) }
{
    match date.to_zoned(zone) {
        Ok(start) => u64::try_from(start.timestamp().as_second()).ok(),
        Err(_) => None,
    }
}
