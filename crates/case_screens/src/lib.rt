//! Screens of a case: texts and JSON of its facts, of those of its image and of those that are found in its memory,
//! which are handed in as values. And rows of words of its memory.
#![tactic(auto)]

mod answer;
mod auxiliary;
mod case_values;
mod codes;
mod files;
mod frames;
mod laws;
mod memory_values;
mod note_values;
mod process;
mod quotes;
mod reason;
mod register_places;
mod rows;
mod screen;
mod shapes;
mod signal;
mod texts;
mod threads;
mod told_notes;
mod word_rows;

pub use answer::{CaseAnswers, CoreAnswers};
pub use case_values::case_json;
pub use codes::{SignalCode, code_of_signal};
pub use files::stored_number;
pub use frames::{file_place, frame_file, map_at};
pub use laws::quoted_names_are_read_again;
pub use reason::{Reason, core_reason, elf_reason, missing, no_thread};
pub use register_places::{RegisterPlace, register_place};
pub use rows::{refusal_json, rows_json};
pub use screen::print_case_screen;
pub use texts::{print_named, print_refusal};
pub use threads::MOST_THREADS;
pub use told_notes::thread_count;
pub use word_rows::{WordMemory, print_register, print_word};
