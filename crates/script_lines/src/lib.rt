//! The meaning of the lines of a script.
#![tactic(auto)]

mod command;
mod keys;
mod laws;
mod names;
mod process;
mod query;
mod question;

pub use command::{Command, Request, parse_line, parse_question, parse_text};
pub use laws::every_query_can_be_said;
pub use names::{NameWord, Needle};
pub use process::{Process, ProcessWords};
pub use query::{BuildQuery, ImageQuery, MemoryQuery, Query};
pub use question::{Call, Question};
