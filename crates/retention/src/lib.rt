//! Which cases of an archive are dropped, by a policy.
#![tactic(auto)]

mod laws;
mod rule;

pub use laws::{a_decision_is_one, what_goes_and_what_stays};
pub use rule::decide;

/// The fields of a case that the rule reads.
#[derive(Clone, Copy, PartialEq, Eq, Debug)]
pub struct Brief {
    /// Its number.
    pub seq: u32,
    /// When it was made, in seconds since the epoch.
    pub time: u64,
    /// Its bytes.
    pub length: u64,
    /// It is never dropped.
    pub pinned: bool,
}

/// The limits that an archive is brought down to. An absent limit is always met.
#[derive(Clone, Copy, PartialEq, Eq, Debug)]
pub struct Policy {
    /// The most cases that stay.
    pub keep: Option<u64>,
    /// The most bytes that stay.
    pub bytes: Option<u64>,
    /// No unpinned case from before this time stays, in seconds since the epoch.
    pub before: Option<u64>,
}

/// The decision of the rule about an archive's cases.
#[derive(Drop)]
pub struct Decision {
    /// The numbers of the cases that are dropped, rising.
    pub dropped: Vec<u32>,
    /// `keep` or `bytes` does not hold even when all of them are dropped.
    pub unmet: bool,
}
