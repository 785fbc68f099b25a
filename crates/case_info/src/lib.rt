//! The outputs for people about an archive's file: `info` of a case or of the archive, the rows of a line as JSON, and the
//! builds that its cores want; the cases that a prune of it drops; and the files that are unpacked of a case.
#![tactic(auto)]

mod addresses;
mod archive;
mod case;
mod crash_search;
mod crashes;
mod front;
mod gathered;
mod gathering;
mod groups;
mod kept_files;
mod laws;
mod mapped;
mod plan;
mod printing;
mod prune;
mod report;
mod rows;
mod stack;
mod unpacked_files;
mod unpacking;
mod wanted;
mod wants;
mod words;

pub use addresses::{question_at, question_with, register_in};
pub use archive::{facts_over, info_archive};
pub use case::{InfoWords, info_case};
pub use groups::{GroupsWords, group_archive};
pub use laws::{wants_then_stored, what_is_wanted_is_told_once};
pub use prune::{PruneWords, prune_archive};
pub use report::report_archive;
pub use rows::ask_rows;
pub use unpacked_files::{DebugFile, UnpackedFile};
pub use unpacking::{Unpacking, unpacking_of};
pub use wants::{WantsWords, print_wants};
pub use words::{CoreLine, CoreQuestion, DumpedPlace, ask_core, dumped_words, thread_words};
