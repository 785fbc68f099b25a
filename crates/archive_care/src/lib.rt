//! The care of an archive: its cases copied into a new archive of another shape.
#![tactic(auto)]

mod bytes;
mod copying;
mod faults;
mod images;
mod placing;
mod planning;
mod writing;

pub use copying::{CopyWish, copy_archive};
pub use faults::CopyFault;
