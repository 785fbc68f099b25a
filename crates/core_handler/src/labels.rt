// Labels of cases, as a line of a script gives them.
use archive_files::Refusal;
use arrayvec::ArrayVec;
use command_words::push_escaped;
use script_lines::{Call, Question, parse_question};
use std::alloc::Global;

// A label of these bytes, whatever they are.
pub(crate) fn escaped_label(alloc: Global, text: &str) -> Result<ArrayVec<u8, 64>, Refusal> {
    let mut line = b"label 1 ".to_vec(alloc)?;
    push_escaped(&mut line, text)?;
    label_in(&line)
}

/// The label that a line gives.
///
/// # Errors
///
/// `BadLine` if the line gives none.
pub fn label_in(line: &[u8]) -> Result<ArrayVec<u8, 64>, Refusal> {
    match parse_question(line) {
        Some(Question::Call(Call::Label { label, .. })) => Ok(label),
        _ => Err(Refusal::BadLine),
    }
}
