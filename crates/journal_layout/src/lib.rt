//! The layout of an archive's journal: its records, the spelling
//! of each, their meaning together, and the checks of an opening.
#![tactic(auto)]

mod entry;
mod faults;
mod laws;
mod shape;

pub use entry::{Entry, Kind, Label, Name};
pub use faults::{Field, OpenFault};
pub use laws::{
    a_snapshot_says_all, an_opening_has_one_answer, an_upgrade_says_the_same,
    labels_are_of_version_two, labels_take_their_records, live_cases_are_sound,
    no_record_begins_another, records_are_read_again, the_other_half_is_apart,
    what_a_drop_leaves_fits, what_is_read_is_a_record,
};
pub use shape::{BLOCK, BadShape, Half, Shape};
