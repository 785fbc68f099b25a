//! The words of the command line: their grammar, their help, and the meaning of a reason. No archive is known here.
//! And the help of each line of a script, in words for people.
//!
//! [`help_of`] finds the help of a line by its first word. [`LINES`] has all of them, in the order in which help shows them.
#![tactic(auto)]

mod ask_help;
mod ask_tables;
mod care_tables;
mod commands;
mod contexts;
mod digest_tables;
mod given;
mod grammar;
mod groups_tables;
mod handler_words;
mod help_finding;
mod help_line;
mod help_lines;
mod help_rows;
mod helps;
mod info_tables;
mod line_texts;
mod list_tables;
mod notes;
mod prune_tables;
mod raw_words;
mod reasons;
mod report_tables;
mod search_tables;
mod tables;
mod text_digits;
mod troubles;
mod unpack_tables;
mod watched;
mod wrong_values;
mod wrong_words;

pub use contexts::{Context, context_of, meaning_of_words};
pub use given::{Given, Unread};
pub use handler_words::in_order;
pub use help_finding::help_of;
pub use help_line::LineHelp;
pub use help_lines::LINES;
pub use help_rows::rows_of;
pub use helps::{
    asked_help, asked_reason, line_in_place_of_a_command, print_help, print_how_it_is_asked,
    print_reason, usage_told,
};
pub use line_texts::{line_of, push_text};
pub use notes::print_notes;
pub use raw_words::{is_text, push_escaped, words_of};
pub use text_digits::digits_of;
pub use troubles::print_meaning;
pub use watched::{LastLine, Watched};
pub use wrong_values::{option_without_blocks, print_wrong_word};
pub use wrong_words::{asked_case, print_no_line, print_word};
