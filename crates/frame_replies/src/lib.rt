//! The answers to the lines of a script that ask for frames by call frame information, and to the one that asks for the source line of an address:
//! slices in, text out.
//!
//! A core is a [`image_replies::CoreImage`], and the executables for its mapped files are handed over as
//! [`address_space::Attached`] images, as for the lines of memory_replies.
#![tactic(auto)]

mod described;
mod executables;
mod known;
mod laws;
mod line;
mod line_sections;
mod lines;
mod process;
mod refused;
mod registers;
mod source;
mod source_executable;
mod source_line;
mod source_reader;
mod sources;
mod stops;
mod values;
mod walk;

pub use laws::{by_path_where_unknown, each_frame_shown_stands_on_a_rule, never_another};
pub use line::print_line;
pub use line_sections::LineSections;
pub use lines::{Shown, print_frame_place, print_unwind, print_walked};
pub use process::{UnwoundExecutables, UnwoundProcess};
pub use registers::{print_frame, print_walked_frame};
pub use source::{NoTables, line_source};
pub use source_line::SourceLine;
pub use sources::line_of;
pub use stops::{print_stop, print_stop_words, stop_fault, stop_name};
pub use values::{FrameAnswer, FramesAnswer};
pub use walk::{Walk, WalkFault};
