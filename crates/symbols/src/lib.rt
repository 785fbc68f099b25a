//! The function names of an ELF64 image.
//!
//! [`Symbols::read`] takes the functions of an image's symbol table, or names the first field of the table that is at
//! fault. [`Symbols::lookup`] gives the function that covers an address.
#![tactic(auto)]

mod covering;
mod faults;
mod functions;
mod laws;
mod names;
mod offsets;
mod sorted;
mod tables;

pub use faults::{SymbolError, SymbolFault, SymbolField};
pub use laws::{no_function_is_named_past_its_end, the_nearest_covering_function_is_named};
pub use names::{Symbol, Symbols};
pub use offsets::vaddr_of_offset;
