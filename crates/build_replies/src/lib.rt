//! The answers to the lines of a script that ask for the builds of a core's mapped files: slices in, text out.
//!
//! A core is a [`image_replies::CoreImage`]. The executables that are stored, under the names of its mapped files or of their builds, are handed over
//! as [`address_space::Attached`] images.
#![tactic(auto)]

mod alike;
mod answers;
mod builds;
mod choosing;
mod ids;
mod mapped;
mod names;
mod places;
mod stored_names;
mod table;
mod used;
mod wanted;

pub use alike::{are_same_files, chosen_files};
pub use answers::{BuildAnswer, build_answers};
pub use builds::{BuildsAsked, print_builds, print_told, verdict};
pub use choosing::{ChosenExecutables, ChosenFile};
pub use ids::{FrontId, listed, told_ids};
pub use mapped::MappedFiles;
pub use places::{FrontPlace, FrontPlaces};
pub use stored_names::{StoredNames, build_names, debug_names};
pub use used::NumberedCase;
pub use wanted::{WantedBuild, wanted_builds};
