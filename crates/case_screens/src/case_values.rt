// The known facts of a case as JSON.
use crate::answer::{CaseAnswers, CoreAnswers};
use crate::memory_values::{files_value, put_frames};
use crate::note_values::{cause_value, header_value, process_value, put_thread, reason_value};
use crate::reason::core_reason;
use crate::rows::number_value;
use crate::told_notes::thread_count;
use case_tables::{case_value, json_text};
use journal_layout::Entry;
use serde_json::{Map, Value, put};
use std::alloc::{AllocError, Global};
use thread_regs::threads;

/// A JSON object with the facts of a case that `print_case_screen` shows: the fields that `list` has, those of its image, and those that are
/// found in its memory.
///
/// # Errors
///
/// There is no memory.
pub fn case_json(
    alloc: Global,
    case: &Entry,
    cases: &[Entry],
    answers: &CaseAnswers<'_, '_>,
) -> Result<String, AllocError> {
    let mut value = case_value(alloc, case)?;
    if let Some(map) = value.as_object_mut() {
        match answers {
            CaseAnswers::Core(answers) => put_core(alloc, map, cases, answers)?,
            CaseAnswers::Exec(header) => {
                put(map, alloc, "header", header_value(alloc, header)?)?;
            }
        }
    }
    json_text(alloc, &value)
}

fn put_core(
    alloc: Global,
    map: &mut Map<String, Value>,
    cases: &[Entry],
    answers: &CoreAnswers<'_, '_>,
) -> Result<(), AllocError> {
    put(map, alloc, "process", process_value(alloc, &answers.core)?)?;
    put(map, alloc, "whole", whole_value(alloc, answers.whole)?)?;
    put(map, alloc, "cause", cause_value(alloc, &answers.core)?)?;
    let count = match &answers.core {
        Ok(core) => thread_count(core),
        Err(_) => 0,
    };
    put(map, alloc, "thread_count", Value::from(count))?;
    put(map, alloc, "threads", threads_value(alloc, answers)?)?;
    let files = files_value(alloc, cases, answers)?;
    put(map, alloc, "files", files)
}

// How many bytes a core has if it is whole, or null.
fn whole_value(alloc: Global, whole: Option<u64>) -> Result<Value, AllocError> {
    match whole {
        Some(whole) => number_value(alloc, whole),
        None => Ok(Value::Null),
    }
}

fn threads_value(alloc: Global, answers: &CoreAnswers<'_, '_>) -> Result<Value, AllocError> {
    let core = match &answers.core {
        Ok(core) => core,
        Err(fault) => return reason_value(alloc, &core_reason(*fault)),
    };
    let files = core.notes().files();
    let mut threads = threads(core.notes());
    let mut values = Vec::new(alloc);
    for frames in answers.unwound {
        let Some(thread) = threads.next() else {
            break;
        };
        let mut map = Map::new(alloc);
        put_thread(alloc, &mut map, values.len(), &thread)?;
        put_frames(alloc, &mut map, files, frames)?;
        values.push(Value::Object(map))?;
    }
    Ok(Value::Array(values))
}
