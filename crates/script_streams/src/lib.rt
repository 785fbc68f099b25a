//! A script's input by lines and parts, and the text of its replies.
#![tactic(auto)]

mod kept_line;
mod laws;
mod reader;
mod replies;
mod reply;
mod streams;

pub use kept_line::KeptLine;
pub use laws::{lines_are_cut_one_way, printing_adds_up, reading_adds_up};
pub use reader::{LineEnding, ReadStop, ScriptBuffer};
pub use replies::{print_no, print_ok};
pub use reply::{Reply, write_whole};
pub use streams::{Input, Output, ReadInput, StreamFault, WriteOutput};
