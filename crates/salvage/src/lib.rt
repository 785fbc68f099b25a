//! A damaged archive: the place of its first bad record or gate, and a copy of the cases that can still be read.
#![tactic(auto)]

mod cases;
mod cases_found;
mod choosing;
mod copying;
mod doubts;
mod finding;
mod fronted;
mod fronts;
mod held_bytes;
mod laws;
mod mending;
mod noting;
mod printing;
mod records;
mod restored;
mod shown;
mod shut;
mod source;
mod stretched;

pub use cases_found::{Found, More, find_cases, find_mended};
pub use copying::{copy_cases, copy_shown};
pub use finding::{Sight, find_sight};
pub use held_bytes::HeldBytes;
pub use laws::{each_readable_case_is_told, what_opens_is_kept, what_stands_is_kept};
pub use mending::{Mend, Mended, ShapeWish, find_shape};
pub use printing::print_cases;
pub use restored::Restored;
pub use shown::{Patch, Shown};
pub use source::Source;
