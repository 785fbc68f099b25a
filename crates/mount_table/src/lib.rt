//! The kind of the file system that a file lies on, from `/proc/self/mountinfo`, and the concern about that kind; and which process holds
//! the lock of a file, from `/proc/locks`.
#![tactic(auto)]

mod concerns;
mod devices;
mod laws;
mod lines;
mod locks;
mod mounts;
mod nearest;
mod pieces;
mod points;

pub use concerns::{Concern, concern_of};
pub use devices::{device_text, major, minor};
pub use laws::{a_point_is_above, a_point_reads_back, the_nearest_is_the_longest};
pub use locks::{holder_in, locked_file};
pub use nearest::kind_of;
