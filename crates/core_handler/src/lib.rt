//! The kernel's handler of core files, and the log of each case that is stored.
#![tactic(auto)]

mod berth;
mod checking;
mod config;
mod config_file;
mod counting;
mod examine;
mod file_limit;
mod flush;
mod fronts;
mod handling;
mod keys;
mod labels;
mod line_numbers;
mod lock_watch;
mod log;
mod notes;
mod outcome_lines;
mod patient_input;
mod printer;
mod requesting;
mod spool_paths;
mod spool_store;
mod time_source;
mod twin;
mod values;

pub use config::{Burst, Config};
pub use file_limit::write_trouble;
pub use handling::{HandleWords, handle, print_lost_words};
pub use keys::{Fault, Key, entry_fault};
pub use labels::label_in;
pub use log::Log;
pub use notes::Notes;
pub use printer::{Printer, Source, Spooling, store_build_told, store_told};
pub use requesting::{order_of, policy_within};
pub use spool_store::{SpoolWords, store_spooled};
