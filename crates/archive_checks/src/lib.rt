//! Whether an archive is sound, the place of the damage, and whether the other half of its journal may be the right one.
#![tactic(auto)]

mod checking;
mod gaps;
mod lines;
mod shapes;
mod verdict;

pub use checking::{CheckFault, check_archive};
pub use gaps::{Gap, find_gap};
pub use lines::{print_facts, print_gap};
pub use shapes::shape_on;
pub use verdict::{Verdict, print_gone, print_verdict, verdict_of};
