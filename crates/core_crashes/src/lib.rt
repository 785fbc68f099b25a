//! The crash of a core: the program, the signal and the signature of the frames of the thread that dumped, and the place where it
//! crashed. Values in, values out: the frames are those of [`frame_replies::FramesAnswer`], and nothing is read.
#![tactic(auto)]

mod crash;
mod frames;
mod handled;
mod notes;
mod pieces;
mod place;
mod program;
mod reading;
mod words;

pub use crash::{crash_of, crash_without_thread, refused_crash};
pub use handled::signal_stack;
pub use reading::handled_in_case;
pub use words::{word_in_case, words_in_case};
