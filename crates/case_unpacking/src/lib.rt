//! `unpack`: a case, its executables and the commands of debuggers, in a new directory.
#![tactic(auto)]

mod command;
mod contents;
mod copying;
mod folder;
mod gdb_commands;
mod laws;
mod names;
mod places;
mod printing;

pub use command::unpack;
pub use gdb_commands::{Unpacked, print_gdb, print_lldb};
pub use laws::{places_are_apart, places_are_inside, plain_names_are_kept};
pub use places::{NamedCase, Place, places_of};
