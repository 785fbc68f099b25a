//! Disks as an archive sees them: the bytes that reads give, and those that a crash may leave.
#![tactic(auto)]

mod agree;
mod backing;
mod cached_disk;
mod calls;
mod crash;
mod disk;
mod faulty;
mod file_disk;
mod file_fault;
mod fuse;
mod gathered;
mod gathering;
mod held_facts;
mod held_file;
mod mem_disk;
mod note;
mod one_fault;
mod open_file;
mod raw_file;
mod stable;

pub use agree::agrees_outside_writes;
pub use backing::Backing;
pub use cached_disk::CachedDisk;
pub use calls::honest_calls_tell_of_a_disk;
pub use crash::Pick;
pub use disk::{Disk, DiskFault};
pub use faulty::{Faulty, Plan};
pub use file_disk::FileDisk;
pub use file_fault::FileFault;
pub use fuse::{Fuse, Limit};
pub use gathering::Gathering;
pub use held_facts::{HeldFacts, Hold};
pub use held_file::HeldFile;
pub use mem_disk::MemDisk;
pub use one_fault::{OneCall, OneFault};
pub use open_file::OpenFile;
pub use raw_file::RawFile;
pub use stable::write_stable;
