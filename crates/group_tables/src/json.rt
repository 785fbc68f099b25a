//! Groups as JSON.
use crate::identity::group_name;
use crate::kept::KeptText;
use crate::labels::labels_of;
use crate::rows::{GroupMember, GroupRow};
use crate::summary::{first_time, last_time};
use crate::words::print_word;
use case_tables::{case_value, json_text};
use crash_signatures::Word;
use script_streams::{Output, Reply};
use serde_json::{Value, json};
use std::alloc::{AllocError, Global};
use std::str;
use thread_regs::signal_name;

// The first number that is too large for a JSON number.
const FIRST_LARGE: u64 = 1 << 53;

/// Groups as a JSON array of objects, in their order. If a text of an object can't be printed as it is, all its texts are as a table
/// prints them, and `escaped` says so.
///
/// # Errors
///
/// There is no memory.
pub fn groups_json(
    alloc: Global,
    latest: u64,
    rows: &[GroupRow<'_>],
) -> Result<String, AllocError> {
    let mut values = Vec::new(alloc);
    for row in rows {
        values.push(group_value(alloc, latest, row)?)?;
    }
    json_text(alloc, &Value::Array(values))
}

/// Prints a line of JSON for each group: its object, and nothing else.
///
/// # Errors
///
/// There is no memory: some lines may be printed.
pub fn print_group_lines<O: Output>(
    alloc: Global,
    reply: &mut Reply<'_, O>,
    latest: u64,
    rows: &[GroupRow<'_>],
) -> Result<(), AllocError> {
    for row in rows {
        let text = json_text(alloc, &group_value(alloc, latest, row)?)?;
        reply.print(text.as_bytes());
        reply.print(b"\n");
    }
    Ok(())
}

/// A group as a JSON object: `group` is its row, and `cases` are its cores, each as a list of cases has it.
///
/// # Errors
///
/// There is no memory.
pub fn group_json(alloc: Global, latest: u64, row: &GroupRow<'_>) -> Result<String, AllocError> {
    let mut cases = Vec::new(alloc);
    for member in &row.members {
        cases.push(case_value(alloc, member.case)?)?;
    }
    let value = json!(in alloc; {
        "group": group_value(alloc, latest, row)?,
        "cases": Value::Array(cases),
    })?;
    json_text(alloc, &value)
}

// The fields of a group.
fn group_value(alloc: Global, latest: u64, row: &GroupRow<'_>) -> Result<Value, AllocError> {
    let labels = labels_of(alloc, &row.members)?;
    let escaped = is_escaped(row, &labels);
    json!(in alloc; {
        "signal": signal_value(alloc, row.crash.signal)?,
        "program": text_value(alloc, &row.crash.program, escaped)?,
        "perhaps": numbers_value(alloc, &row.members, true)?,
        "missing": row.crash.signature.is_missing,
        "last": time_value(alloc, last_time(latest, &row.members))?,
        "labels": labels_value(alloc, &row.members, &labels, escaped)?,
        "group": string_value(alloc, group_name(alloc, row.crash)?.as_slice())?,
        "frames": words_value(alloc, row.crash.signature.words.as_slice(), escaped)?,
        "first": time_value(alloc, first_time(latest, &row.members))?,
        "escaped": escaped,
        "cases": numbers_value(alloc, &row.members, false)?,
    })
}

// Whether a text of a group can't be printed as it is.
fn is_escaped(row: &GroupRow<'_>, labels: &[&[u8]]) -> bool {
    !is_plain(&row.crash.program)
        || row
            .crash
            .signature
            .words
            .iter()
            .any(|word| !is_plain_word(word))
        || labels.iter().any(|label| !is_plain(label))
}

// A word that is no mark, and could be taken for one, is escaped.
fn is_plain_word(word: &Word) -> bool {
    let text = word.text.as_slice();
    let is_clear = word.is_mark || !(text.starts_with(b"<") || text.starts_with(b"?"));
    is_clear && is_plain(text)
}

fn is_plain(text: &[u8]) -> bool {
    !text.contains(&0) && str::from_utf8(text).is_ok()
}

// A text of UTF-8.
fn string_value(alloc: Global, text: &[u8]) -> Result<Value, AllocError> {
    match str::from_utf8(text) {
        Ok(text) => Ok(Value::String(format!(in alloc; "{text}")?)),
        Err(_) => Ok(Value::Null),
    }
}

fn text_value(alloc: Global, text: &[u8], escaped: bool) -> Result<Value, AllocError> {
    if !escaped {
        return string_value(alloc, text);
    }
    let mut kept = KeptText::new(alloc);
    let mut reply = Reply::new(&mut kept);
    reply.print_text(text);
    match reply.finish() {
        Ok(()) => string_value(alloc, &kept.into_text()),
        Err(_) => Err(AllocError),
    }
}

fn word_value(alloc: Global, word: &Word, escaped: bool) -> Result<Value, AllocError> {
    if !escaped {
        return string_value(alloc, word.text.as_slice());
    }
    let mut kept = KeptText::new(alloc);
    let mut reply = Reply::new(&mut kept);
    print_word(&mut reply, word);
    match reply.finish() {
        Ok(()) => string_value(alloc, &kept.into_text()),
        Err(_) => Err(AllocError),
    }
}

fn words_value(alloc: Global, words: &[Word], escaped: bool) -> Result<Value, AllocError> {
    let mut values = Vec::new(alloc);
    for word in words {
        values.push(word_value(alloc, word, escaped)?)?;
    }
    Ok(Value::Array(values))
}

// Each label, and how many cores have it.
fn labels_value(
    alloc: Global,
    members: &[GroupMember<'_>],
    labels: &[&[u8]],
    escaped: bool,
) -> Result<Value, AllocError> {
    let mut values = Vec::new(alloc);
    for label in labels {
        let count = members
            .iter()
            .filter(|member| member.case.label.as_slice() == *label)
            .count();
        let value = json!(in alloc; {
            "label": text_value(alloc, label, escaped)?,
            "cases": count as u64,
        })?;
        values.push(value)?;
    }
    Ok(Value::Array(values))
}

// The numbers of the cases that are certain, or of the others.
fn numbers_value(
    alloc: Global,
    members: &[GroupMember<'_>],
    is_perhaps: bool,
) -> Result<Value, AllocError> {
    let mut values = Vec::new(alloc);
    for member in members {
        if member.is_perhaps == is_perhaps {
            values.push(Value::from(u64::from(member.case.seq)))?;
        }
    }
    Ok(Value::Array(values))
}

// A time that is known, or null. From 2^53 on many readers of JSON round a number, so it is a string of its digits.
fn time_value(alloc: Global, time: u64) -> Result<Value, AllocError> {
    if time == 0 {
        return Ok(Value::Null);
    }
    if time < FIRST_LARGE {
        return Ok(Value::from(time));
    }
    Ok(Value::String(format!(in alloc; "{time}")?))
}

// A signal's name; or its number, if it has none; or null.
fn signal_value(alloc: Global, signal: u32) -> Result<Value, AllocError> {
    if signal == 0 {
        return Ok(Value::Null);
    }
    if signal < 64 {
        if let Some(name) = signal_name(signal as i32) {
            return Ok(Value::String(format!(in alloc; "SIG{name}")?));
        }
    }
    Ok(Value::from(u64::from(signal)))
}
