//! The build ID of an ELF64 executable for RISC-V 64 Linux: the descriptor of its note NT_GNU_BUILD_ID.
#![tactic(auto)]

mod build_names;
mod debug_files;
mod front;
mod ids;
mod laws;
mod notes;
mod padding;

pub use build_names::{build_name, debug_name, has_name, id_of_name};
pub use debug_files::{debug_id, is_debug, told_name};
pub use front::{ShortFront, build_id_by_front};
pub use ids::build_id;
pub use laws::{a_name_is_of_one_build, the_notes_are_the_run};
pub use padding::Padding;
