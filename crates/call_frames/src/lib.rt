//! Call frame information of an ELF64 image for RISC-V: which instructions describe the frame of the code at an address.
//!
//! [`CallFrames::read`] takes the entries of `.eh_frame` and `.debug_frame` of an image. [`CallFrames::find`] gives the one
//! that describes an address, or the first fault of those that can't be read.
#![tactic(auto)]

mod augmentation;
mod call_frames;
mod common;
mod debug_frames;
mod entries;
mod faults;
mod indexed;
mod laws;
mod leb;
mod pointers;
mod spans;
mod spots;
mod table_data;
mod tables;
mod walk;

pub use call_frames::CallFrames;
pub use common::Cie;
pub use entries::Entry;
pub use faults::{CfiFault, CfiField, NoEntry};
pub use laws::{a_number_is_its_groups, the_entries_are_the_walk};
pub use leb::{sized, sleb, uleb};
