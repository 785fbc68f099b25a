//! The replies to the lines of a script that read one image: slices in, text out.
#![tactic(auto)]

mod auxiliary;
mod core_image;
mod faults;
mod files;
mod header;
mod laws;
mod note_lines;
mod process;
mod signal;
mod threads;
mod words;

pub use auxiliary::print_auxv;
pub use core_image::{CoreFault, CoreImage};
pub use faults::{print_core_fault, print_elf_fault, print_note_fault};
pub use files::print_files;
pub use header::{flag_letters, print_header};
pub use laws::{a_sound_front_answers, replies_are_read_one_way};
pub use note_lines::print_notes;
pub use process::print_process;
pub use signal::print_signal;
pub use threads::{print_regs, print_threads};
