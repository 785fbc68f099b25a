//! The signature of a crash, and the groups of the cores that have one signature.
#![tactic(auto)]

mod frames;
mod groups;
mod laws;
mod names;
mod program;
mod recursion;
mod signature;
mod steps;
mod tables;
mod words;

pub use frames::{FrameFacts, MappedFile, place_of, word_of};
pub use groups::{Core, Group, grouped};
pub use laws::{
    a_recursion_is_turned, a_signature_is_short, each_core_is_in_one_group,
    moved_alike_is_signed_alike, perhaps_has_one_home, same_group_iff_same_signature,
};
pub use program::{Program, ProgramFacts, program_of};
pub use signature::{HandledSignal, Signature, signature_of, signature_of_refused};
pub use words::{Text, Word, Words};
