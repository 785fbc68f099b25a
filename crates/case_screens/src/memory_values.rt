// The facts that are found in the memory of a core, as JSON.
use crate::answer::CoreAnswers;
use crate::files::stored_number;
use crate::frames::frame_file;
use crate::note_values::{hex_value, reason_value};
use crate::reason::{core_reason, missing, no_thread};
use crate::rows::{number_value, put_text, string_value};
use address_space::Attached;
use build_replies::{BuildAnswer, verdict};
use core_notes::{FileMap, Files};
use frame_replies::{FrameAnswer, FramesAnswer, SourceLine, line_of, stop_fault, stop_name};
use journal_layout::Entry;
use memory_replies::Location;
use script_words::{print_hex_row, print_hexadecimal};
use serde_json::{Map, Value, put};
use std::alloc::{AllocError, Global};
use unwind::Stop;

// Puts the frames of a thread, and why they end.
pub(crate) fn put_frames(
    alloc: Global,
    map: &mut Map<String, Value>,
    files: Option<Files<'_>>,
    frames: &Option<FramesAnswer<'_>>,
) -> Result<(), AllocError> {
    let Some(answer) = frames else {
        return put(map, alloc, "frames", reason_value(alloc, &no_thread())?);
    };
    let mut values = Vec::new(alloc);
    for frame in &answer.frames {
        let mut map = Map::new(alloc);
        let row = values.len();
        put_frame(alloc, &mut map, row, frame)?;
        put_frame_file(alloc, &mut map, frame_file(files, frame), frame.pc)?;
        put_source(alloc, &mut map, line_of(&answer.lines, row))?;
        values.push(Value::Object(map))?;
    }
    put(map, alloc, "frames", Value::Array(values))?;
    put_stop(alloc, map, answer.stop)
}

fn put_frame(
    alloc: Global,
    map: &mut Map<String, Value>,
    row: usize,
    frame: &FrameAnswer<'_>,
) -> Result<(), AllocError> {
    put(map, alloc, "frame", Value::from(row))?;
    put(map, alloc, "pc", hex_value(alloc, frame.pc)?)?;
    match (frame.signal, frame.function) {
        (true, _) => put_text(alloc, map, "where", b"signal")?,
        (false, Some(place)) => put_text(alloc, map, "where", &text_of_place(alloc, place)?)?,
        (false, None) => put(map, alloc, "where", Value::Null)?,
    }
    put(map, alloc, "sp", known_value(alloc, frame.stack)?)?;
    if row == 0 {
        put(map, alloc, "ra", known_value(alloc, frame.returns)?)?;
    }
    Ok(())
}

// Puts the file that is mapped at a frame, and the place of the frame's pc in it.
fn put_frame_file(
    alloc: Global,
    map: &mut Map<String, Value>,
    file: Option<FileMap<'_>>,
    pc: u64,
) -> Result<(), AllocError> {
    match file {
        Some(file) => {
            put_text(alloc, map, "file", file.name)?;
            let place = u128::from(pc.saturating_sub(file.start)) + u128::from(file.offset);
            let place = print_hexadecimal(place);
            put(map, alloc, "offset", string_value(alloc, place.as_slice())?)
        }
        None => {
            put_text(alloc, map, "file", b"")?;
            put(map, alloc, "offset", Value::Null)
        }
    }
}

// Puts the source line of a frame: the file, and the number of the line.
fn put_source(
    alloc: Global,
    map: &mut Map<String, Value>,
    source: Option<&SourceLine>,
) -> Result<(), AllocError> {
    match source {
        Some(source) => {
            put_text(alloc, map, "source", &source.file)?;
            put(map, alloc, "line", Value::from(source.line))
        }
        None => {
            put(map, alloc, "source", Value::Null)?;
            put(map, alloc, "line", Value::Null)
        }
    }
}

// A place in a function; a function without a name is `-`.
fn text_of_place(alloc: Global, place: Location<'_>) -> Result<Vec<u8>, AllocError> {
    let mut text = Vec::new(alloc);
    text.extend_from_slice(place.name)?;
    if text.is_empty() {
        text.push(b'-')?;
    }
    text.push(b'+')?;
    text.extend_from_slice(print_hexadecimal(place.distance).as_slice())?;
    Ok(text)
}

fn known_value(alloc: Global, number: Option<u64>) -> Result<Value, AllocError> {
    match number {
        Some(number) => hex_value(alloc, number),
        None => Ok(Value::Null),
    }
}

fn put_stop(alloc: Global, map: &mut Map<String, Value>, stop: Stop) -> Result<(), AllocError> {
    let name = stop_name(stop).as_bytes();
    put(map, alloc, "stop", string_value(alloc, name)?)?;
    if let Some((field, entry)) = stop_fault(stop) {
        put(map, alloc, "field", string_value(alloc, field.as_bytes())?)?;
        put(map, alloc, "entry", number_value(alloc, entry)?)?;
    }
    Ok(())
}

// The mapped files, with the case of each that is stored, or why they are not shown.
pub(crate) fn files_value(
    alloc: Global,
    cases: &[Entry],
    answers: &CoreAnswers<'_, '_>,
) -> Result<Value, AllocError> {
    match (&answers.core, answers.builds) {
        (Err(fault), _) => reason_value(alloc, &core_reason(*fault)),
        (Ok(_), Some(rows)) => rows_value(alloc, cases, rows),
        (Ok(_), None) => reason_value(alloc, &missing()),
    }
}

fn rows_value(
    alloc: Global,
    cases: &[Entry],
    rows: &[BuildAnswer<'_>],
) -> Result<Value, AllocError> {
    let mut values = Vec::new(alloc);
    for row in rows {
        let mut map = Map::new(alloc);
        put_file(alloc, &mut map, cases, row)?;
        values.push(Value::Object(map))?;
    }
    Ok(Value::Array(values))
}

fn put_file(
    alloc: Global,
    map: &mut Map<String, Value>,
    cases: &[Entry],
    row: &BuildAnswer<'_>,
) -> Result<(), AllocError> {
    let (name, core, stored) = (row.front.name, row.front.id(), row.chosen.id());
    put_text(alloc, map, "name", name)?;
    put(map, alloc, "core", digits_value(alloc, core)?)?;
    put(map, alloc, "stored", digits_value(alloc, stored)?)?;
    let verdict = string_value(alloc, verdict(core, stored))?;
    put(map, alloc, "verdict", verdict)?;
    let how = string_value(alloc, row.chosen.how())?;
    put(map, alloc, "how", how)?;
    put(map, alloc, "debug", case_value(cases, row.debug))?;
    put(map, alloc, "case", case_value(cases, row.chosen.used()))
}

// The number of the case as which a file is stored, or null.
fn case_value(cases: &[Entry], file: Option<Attached<'_>>) -> Value {
    let Some(file) = file else {
        return Value::Null;
    };
    match stored_number(cases, file.path) {
        Some(number) => Value::from(number),
        None => Value::Null,
    }
}

// Hexadecimal digits, or null.
fn digits_value(alloc: Global, bytes: Option<&[u8]>) -> Result<Value, AllocError> {
    let Some(bytes) = bytes else {
        return Ok(Value::Null);
    };
    let mut digits = Vec::new(alloc);
    for byte in bytes {
        digits.extend_from_slice(print_hex_row(&[*byte]).as_slice())?;
    }
    string_value(alloc, &digits)
}
