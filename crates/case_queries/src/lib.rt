//! The answers to lines that ask the image of a case in an archive.
#![tactic(auto)]

mod asked;
mod builds;
mod by_build;
mod by_front;
mod code;
mod collect_executables;
mod executable_cases;
mod facts;
mod find;
mod found;
mod frames;
mod front;
mod inspect;
mod kept_image;
mod laws;
mod memory;
mod pieces;
mod prepared;
mod stack;
mod told;
mod walk;
mod wanted;
mod window;
mod with_builds;

pub use collect_executables::{
    StoredExecutable, chosen_executables, stored_debug_files, stored_executables,
};
pub use executable_cases::ExecutableCases;
pub use facts::{CoreFacts, core_facts, core_facts_with};
pub use front::read_front;
pub use inspect::answer_query;
pub use kept_image::{Images, KeptImage};
pub use laws::answers_are_of_the_case;
pub use prepared::PreparedExecutables;
pub use told::{ToldFiles, told_files};
pub use walk::{CaseImage, WalkFault};
