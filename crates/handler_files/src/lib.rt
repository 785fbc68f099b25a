//! What a handler keeps beside its archive: the cores that wait in the spool, and how often each outcome came.
//!
//! A core goes to a spool first, a directory in which it waits for its archive: how it gets there, which files of it stay after the attempt to
//! store it, and the spool's entries in a directory. [`Counts`] has how many cores a handler stored, cut, kept, dropped and lost, and
//! the text of the file that keeps these counts.
#![tactic(auto)]

mod core_files;
mod counters;
mod counts;
mod counts_file;
mod entries;
mod fate;
mod folder;
mod kept_words;
mod laws;
mod outcomes;
mod piece;
mod reading;
mod reasons;
mod reception;
mod settlement;
mod spool_name;
mod stream;

pub use core_files::{CoreFiles, CorePaths};
pub use counters::{ALL, COUNTERS, Counter, each_counter_has_its_place};
pub use counts::Counts;
pub use counts_file::{CountsFault, counts_path, read_counts};
pub use entries::{Entry, oldest_first, taken_bytes};
pub use fate::{Fate, fate_of};
pub use folder::{FolderFault, Listing, entries_in, folder_fault};
pub use kept_words::{read_words, words_text};
pub use laws::only_what_is_done_goes;
pub use outcomes::{Outcome, outcome_of};
pub use piece::Piece;
pub use reasons::Reason;
pub use reception::{NotSpooled, Room, Unspooled, begin_part, discard, receive, rest_of};
pub use settlement::{Spooled, SpooledFacts, settle, settle_words};
pub use spool_name::{SpoolName, Stage};
pub use stream::{End, Passed, pass_on};
