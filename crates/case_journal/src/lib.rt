//! The journal of an archive: gated records of cases in two halves of a disk. `format` makes it, `Journal::open` opens it,
//! and it grows by appends. A crash leaves each append undone or done.
#![tactic(auto)]

mod compacting;
mod faults;
mod formatting;
mod front;
mod journal;
mod labels;
mod laws;
mod live_entries;
mod open;
mod publish;
mod room;
mod settling;

pub use faults::{FormatFault, JournalFault};
pub use formatting::format;
pub use journal::Journal;
pub use journal_layout::{BadShape, Entry, Kind, Name, OpenFault, Shape};
pub use laws::{data_blocks_keep, settling_is_enough};
pub use open::Opened;
pub use settling::settle;
