// Times as people say them.
ghost use Rattle.std.specs.Prelude.{◌≡◌, ◌*◌, ◌^◌, ◌<◌, ◌++◌, ◌∷◌, ℕ, List, [], Some};
ghost use Rattle.case_tables.specs.Filters.{SaysTime, seconds_in};
ghost use Rattle.script_words.specs.Number.{number_of};

use crate::zones::Zone;
use jiff::Timestamp;
use jiff::civil::DateTime;
use script_words::parse_number;
use std::str::FromStr;

/// The time that a text gives, in seconds since the epoch, or `None` if the text is no time. It is one of these:
///
/// - `@SECONDS`;
/// - `today` or `yesterday`, from their start in the zone on;
/// - a day, from its start in the zone on, as `2026-11-25`;
/// - a minute or a second in the zone, as `2026-11-25 14:03` or `2026-11-25 14:03:11`;
/// - a moment with its zone, as `2026-11-25T14:03:11Z`;
/// - so long ago, in seconds, minutes, hours or days, as `90s`, `30m`, `2h` or `3d`.
///
/// `today`, `yesterday` and ages are `None` if the clock gives no time. A minute that the clock of a place skips is read with the offset of
/// before, and one that it shows twice is the first.
pub fn read_time(text: &str, now: Option<u64>, zone: Zone<'_>) -> Option<u64>
    ensures { SaysTime zone.entry now text.now result }
{
    if let Some(seconds) = text.strip_prefix("@") {
        return parse_number(seconds.as_bytes());
    }
    if text == "today" {
        return zone.day_start(now?);
    }
    if text == "yesterday" {
        return zone.day_before(now?);
    }
    match age_of(text.as_bytes()) {
        Some(age) => Some(now?.saturating_sub(age)),
        None => moment_of(text, zone),
    }
}

// How many seconds an age is.
fn age_of(text: &[u8]) -> Option<u64>
    ensures { (count : List ℕ) (unit n k : ℕ) → text.now ≡ count ++ unit ∷ [] → seconds_in unit ≡ Some k → number_of count ≡ Some n → n * k < 2 ^ 64 → result ≡ Some (n * k) }
{
    let (unit, count) = text.split_last()?;
    let seconds = unit_seconds(*unit)?;
    parse_number(count)?.checked_mul(seconds)
}

// How many seconds a unit has.
fn unit_seconds(unit: u8) -> Option<u64>
    ensures { result ≡ seconds_in unit }
{
    match unit {
        b's' => Some(1),
        b'm' => Some(60),
        b'h' => Some(3_600),
        b'd' => Some(86_400),
        _ => None,
    }
}

fn moment_of(text: &str, zone: Zone<'_>) -> Option<u64> {
    match Timestamp::from_str(text) {
        Ok(moment) => u64::try_from(moment.as_second()).ok(),
        Err(_) => zone.time_of(civil_of(text)?),
    }
}

// A day, a minute or a second without a zone.
fn civil_of(text: &str) -> Option<DateTime> {
    if !matches!(text.len(), 10 | 16 | 19) {
        return None;
    }
    DateTime::from_str(text).ok()
}
