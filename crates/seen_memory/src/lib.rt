//! The memory of a process by some bytes of its core's image: a word is known, or bytes are wanted that are not at hand.
#![tactic(auto)]

mod at_hand;
mod gathered;
mod laws;
mod memory;
mod part;
mod words;

pub use gathered::{GatherFault, gather};
pub use laws::unread_bytes_are_not_told;
pub use memory::{SeenMemory, Unread};
pub use part::Part;
