//! The blocks of an image: runs of blocks, lists of runs, the set of free blocks, and a block's bytes on a disk.
#![tactic(auto)]

mod block;
mod free_map;
mod levels;
mod run_list;

pub use block::{read_block, write_block};
pub use free_map::{FreeMap, UseFault};
pub use run_list::{Run, RunList};
