//! A disk that others change while it is read: looked at under its lock, and read between two looks without it.
//! A journal is also looked at without the lock: bytes that are read in order, and again, are those of the journal at one moment.
#![tactic(auto)]

mod chain;
mod heads;
mod laws;
mod lockless;
mod look;
mod looked;
mod reads;
mod scripted;
mod scripted_share;
mod shared;
mod shared_file;
mod unlocked;
mod watched;

pub use chain::WatchFault;
pub use laws::{
    a_half_grows_only, each_moment_is_an_archive, looks_at_a_disk_at_rest_are_taken,
    two_readings_are_a_moment, what_is_seen_is_a_moment, what_is_written_rising_rises,
    writes_are_steps,
};
pub use look::{Seen, look_once};
pub use looked::Looked;
pub use scripted::ScriptedDisk;
pub use scripted_share::ScriptedShare;
pub use shared::{LookFault, SharedDisk};
pub use shared_file::SharedFile;
pub use unlocked::Unlocked;
pub use watched::WatchedDisk;
