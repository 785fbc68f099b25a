//! The answers to the lines of a script that ask for a process's memory: slices in, text out.
//!
//! A core is a [`image_replies::CoreImage`]. The executables for its mapped files are handed over as
//! [`address_space::Attached`] images, in one order; those that pass the checks of their headers are attached.
#![tactic(auto)]

mod at;
mod attached;
mod debug_file;
mod dump;
mod file_names;
mod frames;
mod function_names;
mod functions;
mod laws;
mod maps;
mod named;
mod named_executable;
mod naming;
mod outcome;
mod search;
mod stack;
mod stacks;
mod symbol;
mod symbolized_executable;
mod symbolized_executables;
mod texts;
mod window;
mod words;

pub use at::{mapping_at, print_at, print_at_with_debugs};
pub use attached::{space_and_images, space_with};
pub use dump::{is_out_of_range, print_dump};
pub use file_names::FileNames;
pub use frames::{print_bt, print_bt_with_debugs};
pub use laws::{
    a_sound_front_names_the_files, a_sound_front_shows_the_mappings, debug_replaces_unknown,
};
pub use maps::print_maps;
pub use named::{Location, place_of, print_place};
pub use named_executable::NamedExecutable;
pub use naming::{function_of, named_executables, of_path};
pub use outcome::Outcome;
pub use search::print_find;
pub use stack::{has_frames, stack_range};
pub use stacks::{has_address, threads_of};
pub use symbol::{print_symbol, print_symbol_with_debug};
pub use symbolized_executables::SymbolizedExecutables;
pub use texts::print_strings;
pub use window::Window;
pub use words::print_hex_word;
