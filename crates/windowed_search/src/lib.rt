//! The search of bytes that come window by window, in little memory.
#![tactic(auto)]

mod laws;
mod memory_scan;
mod memory_search;
mod memory_texts;
mod rising;
mod search;
mod steps;
mod within;

pub use laws::{
    a_held_byte_is_in_the_file, a_match_across_windows_is_found, a_plan_tells_the_values,
    a_rising_memory_is_searched_by_address, places_are_occurrences, texts_that_are_found_are_whole,
    windows_have_all_places,
};
pub use memory_scan::{Found, MemoryScan, Sought};
pub use memory_search::MemorySearch;
pub use memory_texts::{FoundTexts, MemoryTexts};
pub use search::Search;
pub use steps::{Step, plan};
