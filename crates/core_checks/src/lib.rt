//! How many bytes a core file wants by its program headers. And notes of a core that can't be read as intended, as warnings for people.
#![tactic(auto)]

mod notes;
mod whole;

pub use notes::{UnreadNotes, unread_notes};
pub use whole::whole_length;
