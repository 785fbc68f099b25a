//! Files that get their own name only once they are whole, and in which order the calls come that make them.
#![tactic(auto)]

mod facts;
mod faults;
mod making;
mod names;
mod naming;
mod new_file;
mod part_file;

pub use facts::{FileFacts, Looks};
pub use faults::NameFault;
pub use making::{begin, clear, clear_part, make};
pub use names::{folder_of, is_named, is_same, open_looked};
pub use naming::{give_name, remove, take_place};
pub use new_file::{Linked, NewFile};
pub use part_file::PartFile;
