//! The texts of replies to lines over an archive.
#![tactic(auto)]

mod reasons;
mod replies;

pub use reasons::reason;
pub use replies::{
    print_begun, print_cases, print_free, print_outcome, print_retired, print_stored,
};
