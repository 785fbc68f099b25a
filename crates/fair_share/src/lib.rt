//! Which core goes if users share an archive fairly.
#![tactic(auto)]

mod choosing;
mod laws;
mod owners;
mod totals;

pub use choosing::{Scope, fairest};
pub use laws::the_heaviest_user_gives;
pub use owners::{program_of, user_of};
