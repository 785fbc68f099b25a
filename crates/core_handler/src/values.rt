// The values of a configuration.
ghost use Rattle.std.specs.Prelude.{◌≡◌};
ghost use Rattle.std.specs.Option.{option_copied};
ghost use Rattle.toml.specs.View.{view};
ghost use Rattle.core_handler.specs.Values as spec;

use crate::config::Burst;
use script_words::parse_number;
use toml::Value;

// A number that is not negative.
pub(crate) fn natural_in(value: &Value) -> Option<u64>
    ensures { result ≡ spec.natural_in (view value.now) }
{
    let number = value.as_integer()?;
    u64::try_from(number).ok()
}

// The seconds of a unit.
fn unit_of(unit: u8) -> Option<u64>
    ensures { result ≡ spec.unit_of unit }
{
    match unit {
        b's' => Some(1),
        b'm' => Some(60),
        b'h' => Some(3600),
        b'd' => Some(86400),
        _ => None,
    }
}

// An age in seconds: a number and its unit.
fn age_of(text: &[u8]) -> Option<u64>
    ensures { result ≡ spec.age_of text.now }
{
    if text.is_empty() {
        return None;
    }
    let (digits, unit) = text.split_at(text.len() - 1);
    let seconds = unit_of(unit[0])?;
    let number = parse_number(digits)?;
    number.checked_mul(seconds)
}

// An age in seconds, if the value is one.
pub(crate) fn age_in(value: &Value) -> Option<u64>
    ensures { result ≡ spec.age_in (view value.now) }
{
    let text = value.as_str()?;
    age_of(text.as_bytes())
}

// So many cores in so many seconds, if the value is a table that says both.
pub(crate) fn burst_in(value: &Value) -> Option<Burst>
    ensures { result ≡ spec.burst_in (view value.now) }
{
    let most = natural_at(value, "most")?;
    let seconds = natural_at(value, "seconds")?;
    Some(Burst { most, seconds })
}

// The text of a key.
pub(crate) fn text_at<'t>(document: &'t Value, key: &str) -> Option<&'t str>
    ensures { option_copied result ≡ spec.text_at key.now (view document.entry.now) }
{
    let value = document.get(key)?;
    value.as_str()
}

// The number of a key.
pub(crate) fn natural_at(document: &Value, key: &str) -> Option<u64>
    ensures { result ≡ spec.natural_at key.now (view document.now) }
{
    let value = document.get(key)?;
    natural_in(value)
}

// The age of a key, in seconds.
pub(crate) fn age_at(document: &Value, key: &str) -> Option<u64>
    ensures { result ≡ spec.age_at key.now (view document.now) }
{
    let value = document.get(key)?;
    age_in(value)
}

// So many cores in so many seconds, by a key.
pub(crate) fn burst_at(document: &Value, key: &str) -> Option<Burst>
    ensures { result ≡ spec.burst_at key.now (view document.now) }
{
    let value = document.get(key)?;
    burst_in(value)
}

// Whether a key is set.
pub(crate) fn flag_at(document: &Value, key: &str) -> bool
    ensures { result ≡ spec.flag_at key.now (view document.now) }
{
    match document.get(key) {
        Some(value) => value.as_bool() == Some(true),
        None => false,
    }
}
