//! Images on their way into an archive, and the archive of them.
#![tactic(auto)]

mod archive;
mod blocks;
mod buffer;
mod dropping;
mod faults;
mod laws;
mod names;
mod opening;
mod part;
mod ranges;
mod reading;
mod retiring;
mod slots;
mod space;
mod stream;

pub use archive::{Archive, Settings};
pub use case_journal::{FormatFault, format};
pub use faults::ArchiveFault;
pub use laws::{
    a_case_is_found, a_case_is_there_between, a_reopening_is_a_stop, a_state_tells_what_lasts,
    an_answer_is_one, an_image_is_what_was_taken, an_upgrade_leaves_the_cases, calls_are_marks,
    calls_lead_from_mark_to_mark, calls_lead_on, found_after_a_stop, images_are_whole,
    kept_over_many_stops, labels_are_of_version_two, nothing_else_is_left, numbers_are_given_once,
    numbers_stay_given, runs_are_the_fewest, the_next_number_is_above, what_calls_leave,
    what_is_closed_is_found, what_stands_is_one,
};
pub use ranges::ByteRange;
pub use space::Space;
