//! Which cases of an archive a prune drops: cores by a policy, and then the executables and debug files of builds that no core that
//! stays needs.
#![tactic(auto)]

mod cases;
mod dropping;
mod kept;
mod laws;

pub use cases::{Content, LiveCase, MappedFile};
pub use dropping::{Pruning, prune};
pub use laws::{
    cores_that_go_need_no_files, prune_changes_no_answer, prune_is_done, prunes_exactly, spares,
};
