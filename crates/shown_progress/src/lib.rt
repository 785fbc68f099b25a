//! The progress of a command, shown on a terminal; and streams
//! and disks that report each byte that passes to an onlooker.
#![tactic(auto)]

mod counted_disk;
mod counted_input;
mod counted_output;
mod listener;
mod meter;
mod work_text;

pub use counted_disk::CountedDisk;
pub use counted_input::CountedInput;
pub use counted_output::CountedOutput;
pub use listener::Listener;
pub use meter::Meter;
pub use work_text::{Work, print_work};
