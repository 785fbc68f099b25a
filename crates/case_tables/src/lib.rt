//! The cases of an archive as a table for people, and the screen of an archive.
#![tactic(auto)]

mod archive_object;
mod archive_screen;
mod columns;
mod day_bars;
mod days;
mod hidden;
mod laws;
mod lines;
mod list;
mod moments;
mod name_parts;
mod named;
mod objects;
mod order;
mod signals;
mod sizes;
mod table;
mod tally;
mod texts;
mod times;
mod wanted;
mod zones;

pub use archive_object::archive_json;
pub use archive_screen::{ArchiveFacts, print_archive_screen};
pub use day_bars::cores_by_day;
pub use hidden::json_text;
pub use laws::nothing_printed_is_hidden;
pub use list::{list_json, print_list, print_list_lines};
pub use moments::read_time;
pub use name_parts::{host_in, program_in, user_in};
pub use named::{case_of_name, number_named};
pub use objects::{case_value, json_of};
pub use order::Order;
pub use signals::{print_signal, read_signal};
pub use sizes::print_size;
pub use table::{print_spaces, print_table};
pub use tally::{Tally, tally_of};
pub use texts::shown_length;
pub use times::{print_day, print_time, print_time_in};
pub use wanted::Wanted;
pub use zones::Zone;
