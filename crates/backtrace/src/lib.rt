//! The frames of a thread's stack, by the chain of frame pointers.
//!
//! [`Frames`] goes from a pc and a frame pointer up the stack, one frame an item, and says by [`Frames::stop`] why it
//! ended.
#![tactic(auto)]

mod frames;
mod laws;
mod words;

pub use frames::{Frame, Frames, Stop, needs_words};
pub use laws::the_frames_are_the_chain;
pub use words::StackBytes;
