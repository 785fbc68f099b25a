//! The typed notes of a core file of a RISC-V 64 Linux process, as views of their descriptors.
#![tactic(auto)]

mod auxiliary;
mod core_view;
pub mod descriptors;
mod faults;
mod file_list;
mod first_notes;
mod laws;
mod process_info;
mod signal_info;
mod thread_state;

pub use auxiliary::{Auxv, AuxvPair, AuxvPairs};
pub use core_view::{CoreNotes, Statuses};
pub use faults::{NoteFault, NoteField};
pub use file_list::{FileEntry, FileMap, FileMaps, Files};
pub use laws::{the_errno_is_before_the_code, the_typed_notes_are_whole};
pub use process_info::PsInfo;
pub use signal_info::SigInfo;
pub use thread_state::Status;
