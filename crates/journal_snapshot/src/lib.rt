//! Writing a journal anew into its other half: closing that half's gate, filling the half, and taking it.
#![tactic(auto)]

mod cases;
mod change;
mod closing;
mod filling;
mod half;
mod measure;
mod rewriting;
mod taking;
mod target;

pub use change::{Change, is_listed};
pub use measure::{Measure, measured};
pub use rewriting::rewrite;
pub use target::Target;
