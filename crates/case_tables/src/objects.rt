// The cases of an archive as JSON.
ghost use Rattle.std.specs.Prelude.{◌≡◌, ◌≢◌, ◌++◌, ◌∷◌, [], true, false, map, IfOk, OnOk, string_bytes};
ghost use Rattle.std.specs.List.{list_any};
ghost use Rattle.std.specs.Str.{is_utf8, IsAscii};
ghost use Rattle.serde_json.specs.View.{view};
ghost use Rattle.journal_layout.specs.Case.{Case, case_of};
ghost use Rattle.script_words.specs.Printing.{shown};
ghost use Rattle.case_tables.specs.Hidden.{Prints};
ghost use Rattle.case_tables.specs.Json.{case_json, cases_json, found_json, is_escaped, is_text, is_zero, kind_word, known_json, number_json, origin_json, part_json, signal_json, text_json};

use crate::hidden::json_text;
use crate::name_parts::{host_in, program_in, user_in};
use crate::signals::name_of;
use journal_layout::{Entry, Kind};
use script_words::print_byte;
use serde_json::{Value, json};
use std::alloc::{AllocError, Global};
use std::str;

// The first number that is too large for a JSON number: many readers of JSON round it.
const FIRST_LARGE: u64 = 1 << 53;

/// A JSON array of an object for each case, as it is printed.
///
/// # Errors
///
/// There is no memory.
pub fn json_of(alloc: Global, cases: &[&Entry]) -> Result<String, AllocError>
    ensures { IfOk result (λ text. Prints (cases_json (map (λ e. case_of e.now) cases.now)) (string_bytes text)) }
{
    let mut values = Vec::new(alloc);
    for case in cases {
        push_case(alloc, &mut values, case)?;
    }
    json_text(alloc, &Value::Array(values))
}

// Adds an object for a case.
fn push_case(alloc: Global, values: &mut Vec<Value>, case: &Entry) -> Result<(), AllocError>
    ensures { OnOk result (map view values.new.items ≡ map view values.old.items ++ case_json (case_of case.now) ∷ []) }
{
    values.push(case_value(alloc, case)?)?;
    Ok(())
}

/// An object with the known fields of a case. If the name or the label is no UTF-8
/// or has a NUL, both have the form that a script prints, and `escaped` says so.
///
/// # Errors
///
/// There is no memory.
pub fn case_value(alloc: Global, case: &Entry) -> Result<Value, AllocError>
    ensures { IfOk result (λ value. view value ≡ case_json (case_of case.now)) }
{
    let escaped = is_escaped(case);
    // Members stand in the order of their names. Given from the last to the first, each comes before all others.
    json!(in alloc; {
        "time": known_value(alloc, case.time)?,
        "size": number_value(alloc, case.length)?,
        "signal": signal_value(alloc, case.signal)?,
        "pid": known_value(alloc, u64::from(case.pid))?,
        "origin": origin_value(alloc, case)?,
        "name": text_value(alloc, case.name.as_slice(), escaped)?,
        "label": text_value(alloc, case.label.as_slice(), escaped)?,
        "kind": kind_word(case.kind),
        "kept": case.pinned,
        "escaped": escaped,
        "case": case.seq,
    })
}

// The user, the host and the program that the name of a case says, each null if the name does not say it.
#[tactic(auto, unfolding(crate::specs::Json::origin_json))]
fn origin_value(alloc: Global, case: &Entry) -> Result<Value, AllocError>
    ensures { IfOk result (λ value. view value ≡ origin_json (case_of case.now)) }
{
    let escaped = is_escaped(case);
    json!(in alloc; {
        "user": found_value(user_in(case)),
        "program": part_value(alloc, program_in(case), escaped)?,
        "host": part_value(alloc, host_in(case), escaped)?,
    })
}

// A number, if there is one, or null.
fn found_value(number: Option<u32>) -> Value
    ensures { view result ≡ found_json number }
{
    match number {
        Some(number) => Value::from(number),
        None => Value::Null,
    }
}

// A part of a name, or null if it is empty.
fn part_value(alloc: Global, part: &[u8], escaped: bool) -> Result<Value, AllocError>
    ensures { IfOk result (λ value. view value ≡ part_json escaped part.now) }
{
    if is_text(part) {
        text_value(alloc, part, escaped)
    } else {
        text_value(alloc, part, true)
    }
}

// Whether JSON can't have the name or the label as it is.
fn is_escaped(case: &Entry) -> bool
    ensures { result ≡ is_escaped (case_of case.now) }
{
    !is_text(case.name.as_slice()) || !is_text(case.label.as_slice())
}

// Whether bytes are UTF-8 without a NUL.
fn is_text(bytes: &[u8]) -> bool
    ensures { result ≡ is_text bytes.now }
{
    is_utf8(bytes) && !has_zero(bytes)
}

fn has_zero(bytes: &[u8]) -> bool
    ensures { result ≡ list_any is_zero bytes.now }
{
    bytes.iter().any(|byte| *byte == 0)
}

fn is_utf8(bytes: &[u8]) -> bool
    ensures { result ≡ is_utf8 bytes.now }
{
    match str::from_utf8(bytes) {
        Ok(_) => true,
        Err(_) => false,
    }
}

fn kind_word(kind: Kind) -> &'static str
    ensures { result.now ≡ kind_word kind }
{
    match kind {
        Kind::Core => "core",
        Kind::Exec => "exec",
    }
}

// A number that is known, or null.
fn known_value(alloc: Global, number: u64) -> Result<Value, AllocError>
    ensures { IfOk result (λ value. view value ≡ known_json number) }
{
    if number == 0 {
        return Ok(Value::Null);
    }
    number_value(alloc, number)
}

// A number; from `FIRST_LARGE` on its decimal digits, as a string.
fn number_value(alloc: Global, number: u64) -> Result<Value, AllocError>
    ensures { IfOk result (λ value. view value ≡ number_json number) }
{
    if number < FIRST_LARGE {
        return Ok(Value::from(number));
    }
    Ok(Value::String(format!(in alloc; "{number}")?))
}

// A signal's name; or its number if it has no name; or null for 0.
fn signal_value(alloc: Global, signal: u32) -> Result<Value, AllocError>
    ensures { IfOk result (λ value. view value ≡ signal_json signal) }
{
    match name_of(signal) {
        Some(name) => Ok(Value::String(format!(in alloc; "SIG{name}")?)),
        None => known_value(alloc, u64::from(signal)),
    }
}

// A text, or null if it is empty.
fn text_value(alloc: Global, text: &[u8], escaped: bool) -> Result<Value, AllocError>
    requires { escaped ≡ false → is_utf8 text.now ≡ true }
    ensures { IfOk result (λ value. view value ≡ text_json escaped text.now) }
{
    if text.is_empty() {
        return Ok(Value::Null);
    }
    if escaped {
        return Ok(Value::String(printed(alloc, text)?));
    }
    match str::from_utf8(text) {
        Ok(text) => Ok(Value::String(format!(in alloc; "{text}")?)),
        Err(_) => Ok(Value::String(printed(alloc, text)?)),
    }
}

// How a text prints that is not empty. A minus alone would stand for an empty text.
fn printed(alloc: Global, text: &[u8]) -> Result<String, AllocError>
    requires { text.now ≢ [] }
    ensures { IfOk result (λ value. string_bytes value ≡ shown text.now) }
{
    let mut value = String::new(alloc);
    if text == b"-".as_slice() {
        value.push_str("\\x2d")?;
        return Ok(value);
    }
    for byte in text {
        push_letters(&mut value, &print_byte(*byte))?;
    }
    Ok(value)
}

// Adds letters, each of which is one of ASCII.
pub(crate) fn push_letters(value: &mut String, letters: &[u8]) -> Result<(), AllocError>
    requires { IsAscii letters.now }
    ensures { OnOk result (string_bytes value.new ≡ string_bytes value.old ++ letters.now) }
{
    for letter in letters {
        value.push(char::from(*letter))?;
    }
    Ok(())
}
