//! Borrowed views of ELF64 images of RISC-V 64 Linux: core files and executables.
//!
//! [`Elf::read`] accepts an image if and only if its table of checks passes, and otherwise names the first bad field. The
//! views that it gives are slices of the image and numbers read from it; nothing is copied.
#![tactic(auto)]

mod checks;
mod faults;
mod laws;
mod loads;
mod note_lists;
mod numbers;
mod program_headers;
pub mod sample;
mod section_names;
mod sections;
mod view;

pub use faults::{ElfFault, ElfField, SectionFault, Want};
pub use laws::{
    a_sound_front_is_enough, accepted_segments_fit, note_lists_make_a_core_sound,
    notes_are_the_grammar, soundness_has_no_order, the_fault_is_the_first,
};
pub use loads::{Load, Loads};
pub use note_lists::{Note, Notes};
pub use numbers::{part, text_before_nul, u16_at, u32_at, u64_at};
pub use program_headers::{Segment, Segments};
pub use sections::Section;
pub use view::{Elf, Header};
