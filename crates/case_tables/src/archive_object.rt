// The known facts of an archive as JSON.
use crate::archive_screen::ArchiveFacts;
use crate::json_text;
use jiff::ToSpan;
use jiff::civil::date;
use serde_json::{Value, json};
use std::alloc::{AllocError, Global};

// The first number that is too large for a JSON number.
const FIRST_LARGE: u64 = 1 << 53;

// The seconds of a day.
const DAY: u64 = 86_400;

// The number of 9999-12-31.
const LAST_DAY: u64 = 2_932_896;

/// A JSON object with the facts that `print_archive_screen` prints.
///
/// # Errors
///
/// There is no memory.
pub fn archive_json(alloc: Global, facts: &ArchiveFacts) -> Result<String, AllocError> {
    let value: Value = json!(in alloc; {
        "days": days_value(alloc, facts)?,
        "layout": facts.version,
        "length": facts.length,
        "data_blocks": facts.data_blocks,
        "free_blocks": facts.free_blocks,
        "half_bytes": facts.half,
        "used_bytes": facts.used,
        "cores": facts.cores,
        "executables": facts.executables,
        "pinned": facts.pinned,
        "oldest": known(alloc, facts.oldest)?,
        "newest": known(alloc, facts.newest)?,
        "last_number": facts.last_number,
    })?;
    json_text(alloc, &value)
}

// The days that are shown, each with its cores.
fn days_value(alloc: Global, facts: &ArchiveFacts) -> Result<Value, AllocError> {
    let mut values = Vec::new(alloc);
    if facts.newest == 0 {
        return Ok(Value::Array(values));
    }
    for (index, count) in facts.days.iter().enumerate() {
        let past = facts.newest / DAY + index as u64;
        if past >= 6 {
            values.push(day_value(alloc, past - 6, *count)?)?;
        }
    }
    Ok(Value::Array(values))
}

// A day and its cores.
fn day_value(alloc: Global, number: u64, count: u64) -> Result<Value, AllocError> {
    let day = date_value(alloc, number)?;
    json!(in alloc; { "day": day, "cores": count })
}

// A day by its number after 1970-01-01; null after the year 9999.
fn date_value(alloc: Global, number: u64) -> Result<Value, AllocError> {
    if number > LAST_DAY {
        return Ok(Value::Null);
    }
    match date(1970, 1, 1).checked_add((number as i64).days()) {
        Ok(day) => Ok(Value::String(format!(in alloc; "{day}")?)),
        Err(_) => Ok(Value::Null),
    }
}

// A time that is known, or null. From 2^53 on many readers of JSON round a number, so it is a string of its digits.
fn known(alloc: Global, time: u64) -> Result<Value, AllocError> {
    if time == 0 {
        return Ok(Value::Null);
    }
    if time < FIRST_LARGE {
        return Ok(Value::from(time));
    }
    Ok(Value::String(format!(in alloc; "{time}")?))
}
