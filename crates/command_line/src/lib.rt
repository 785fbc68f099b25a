//! The program but for its `main`: the words of its command line, and the tasks that they name. Also `info ARCHIVE --metrics`: the facts of an
//! archive as the text of Prometheus and of OpenMetrics.
#![tactic(auto)]

mod ask_words;
mod asked;
mod begin_line;
mod endings;
mod handle_words;
mod list_words;
mod metrics_command;
mod metrics_text;
mod named_files;
mod named_words;
mod prune_words;
mod store_words;
mod words;

pub use metrics_command::info_metrics;
pub use metrics_text::print_metrics;
pub use words::{run_program, run_watched, run_words};
