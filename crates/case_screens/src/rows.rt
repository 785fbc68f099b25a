// The rows of a reply as JSON.
ghost use Rattle.std.specs.Prelude.{◌<◌, length, IfSome};

use crate::auxiliary::auxv_name;
use crate::shapes::{Field, FieldKind, field_of, form_of};
use bstr::ByteSlice;
use case_tables::json_text;
use script_words::{Words, parse_number, print_byte, print_decimal};
use serde_json::{Map, Value, put};
use std::alloc::{AllocError, Global};
use std::str;

// The first number that may not be printed as a JSON number.
const TOO_LARGE: u64 = 9_007_199_254_740_992;

/// The rows of a reply as a JSON array of objects, a field for each word, by the forms that they have.
///
/// # Errors
///
/// There is no memory.
pub fn rows_json(alloc: Global, rows: &[u8], forms: &[&str]) -> Result<String, AllocError> {
    let mut values = Vec::new(alloc);
    let mut rest = rows.lines();
    while let Some(line) = rest.next() {
        let mut map = Map::new(alloc);
        put_row(alloc, &mut map, line, forms)?;
        values.push(Value::Object(map))?;
    }
    json_text(alloc, &Value::Array(values))
}

/// Why something is refused, as a JSON object.
///
/// # Errors
///
/// There is no memory.
pub fn refusal_json(alloc: Global, reason: &[u8]) -> Result<String, AllocError> {
    json_text(alloc, &refusal_value(alloc, reason)?)
}

pub(crate) fn refusal_value(alloc: Global, reason: &[u8]) -> Result<Value, AllocError> {
    let mut map = Map::new(alloc);
    put(&mut map, alloc, "refused", string_value(alloc, reason)?)?;
    Ok(Value::Object(map))
}

// Puts a text; or null, if it is empty. If it is no UTF-8 it is printed as a script prints it, and `escaped` says so.
pub(crate) fn put_text(
    alloc: Global,
    map: &mut Map<String, Value>,
    name: &str,
    text: &[u8],
) -> Result<(), AllocError> {
    if text.is_empty() {
        return put(map, alloc, name, Value::Null);
    }
    if str::from_utf8(text).is_ok() {
        return put(map, alloc, name, string_value(alloc, text)?);
    }
    put(map, alloc, "escaped", Value::Bool(true))?;
    put(map, alloc, name, printed_value(alloc, text)?)
}

// A text as a script prints it.
fn printed_value(alloc: Global, text: &[u8]) -> Result<Value, AllocError> {
    let mut value = String::new(alloc);
    for byte in text {
        for letter in &print_byte(*byte) {
            value.push(char::from(*letter))?;
        }
    }
    Ok(Value::String(value))
}

// Puts the fields of a row into an object. A row of no form is one field.
fn put_row(
    alloc: Global,
    map: &mut Map<String, Value>,
    line: &[u8],
    forms: &[&str],
) -> Result<(), AllocError> {
    let Some(form) = form_of(line, forms) else {
        return put(map, alloc, "row", string_value(alloc, line)?);
    };
    let escaped = has_other_bytes(alloc, line, form)?;
    if escaped {
        put(map, alloc, "escaped", Value::Bool(true))?;
    }
    let mut words = Words::new(line);
    for part in form.split(' ') {
        let word = words.next().unwrap_or(b"");
        if let Some(field) = field_of(part) {
            put(
                map,
                alloc,
                field.name,
                field_value(alloc, field, word, escaped)?,
            )?;
        }
    }
    Ok(())
}

// Whether a text of a row is no UTF-8.
fn has_other_bytes(alloc: Global, line: &[u8], form: &str) -> Result<bool, AllocError> {
    let mut words = Words::new(line);
    for part in form.split(' ') {
        let word = words.next().unwrap_or(b"");
        if is_text(part) && str::from_utf8(&text_of(alloc, word)?).is_err() {
            return Ok(true);
        }
    }
    Ok(false)
}

fn is_text(part: &str) -> bool {
    match field_of(part) {
        Some(field) => matches!(field.kind, FieldKind::Text | FieldKind::Place),
        None => false,
    }
}

fn field_value(
    alloc: Global,
    field: Field<'_>,
    word: &[u8],
    escaped: bool,
) -> Result<Value, AllocError> {
    if is_none(field.kind, word) {
        return Ok(Value::Null);
    }
    match field.kind {
        FieldKind::Word => word_value(alloc, word),
        FieldKind::Auxv => auxv_value(alloc, word),
        FieldKind::Digits => string_value(alloc, word),
        FieldKind::Text | FieldKind::Place if escaped => string_value(alloc, word),
        FieldKind::Text | FieldKind::Place => string_value(alloc, &text_of(alloc, word)?),
    }
}

fn is_none(kind: FieldKind, word: &[u8]) -> bool {
    match kind {
        FieldKind::Word => word == b"-".as_slice() || word == b"?".as_slice(),
        FieldKind::Place => word == b"?".as_slice(),
        FieldKind::Text | FieldKind::Digits => word == b"-".as_slice(),
        FieldKind::Auxv => false,
    }
}

// The name of a type of the auxiliary vector, also if a script has no name for it; or its number.
fn auxv_value(alloc: Global, word: &[u8]) -> Result<Value, AllocError> {
    match auxv_name(word) {
        Some(name) => string_value(alloc, name.as_bytes()),
        None => word_value(alloc, word),
    }
}

// A decimal number that a JSON number holds, or a string.
fn word_value(alloc: Global, word: &[u8]) -> Result<Value, AllocError> {
    let (digits, negative) = match word.split_first() {
        Some((first, digits)) if *first == b'-' => (digits, true),
        _ => (word, false),
    };
    if !digits.iter().all(|byte| byte.is_ascii_digit()) {
        return string_value(alloc, word);
    }
    match parse_number(digits) {
        Some(number) if number < TOO_LARGE => {
            let number = number as i64;
            Ok(Value::from(if negative { 0 - number } else { number }))
        }
        _ => string_value(alloc, word),
    }
}

// A number that a JSON number holds, or a string.
pub(crate) fn number_value(alloc: Global, number: u64) -> Result<Value, AllocError> {
    word_value(alloc, print_decimal(u128::from(number)).as_slice())
}

// A text that is UTF-8 as a string.
pub(crate) fn string_value(alloc: Global, text: &[u8]) -> Result<Value, AllocError> {
    let mut value = String::new(alloc);
    if let Ok(text) = str::from_utf8(text) {
        value.push_str(text)?;
    }
    Ok(Value::String(value))
}

// The text of a word, in which `\xHH` is a byte.
fn text_of(alloc: Global, word: &[u8]) -> Result<Vec<u8>, AllocError> {
    let mut text = Vec::new(alloc);
    let mut rest = word;
    while let Some((byte, after)) = next_byte(rest) {
        text.push(byte)?;
        rest = after;
    }
    Ok(text)
}

fn next_byte(rest: &[u8]) -> Option<(u8, &[u8])>
    ensures { IfSome result (λ found. length found.1.now < length rest.now) }
{
    match rest {
        [b'\\', b'x', high, low, after @ ..] => Some((16 * digit(*high) + digit(*low), after)),
        [byte, after @ ..] => Some((*byte, after)),
        [] => None,
    }
}

fn digit(letter: u8) -> u8
    ensures { result < 16 }
{
    match char::from(letter).to_digit(16) {
        Some(digit) => digit as u8,
        None => 0,
    }
}
