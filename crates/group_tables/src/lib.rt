//! The groups of cores that crashed alike, as a table for people and as JSON.
#![tactic(auto)]

mod cells;
mod columns;
mod identity;
mod json;
mod kept;
mod labels;
mod numbers;
mod rows;
mod summary;
mod table;
mod wanted;
mod words;

pub use identity::group_name;
pub use json::{group_json, groups_json, print_group_lines};
pub use labels::labels_of;
pub use numbers::{CrashPlace, CrashedCore, numbered};
pub use rows::{Crash, GroupMember, GroupRow, rows_of};
pub use summary::{certain_count, last_time, newest, perhaps_count};
pub use table::{print_group, print_groups};
pub use wanted::wanted_cores;
