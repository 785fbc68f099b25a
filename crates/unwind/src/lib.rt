//! The frames of a thread's stack, by call frame information.
//!
//! [`Frames`] goes from the registers of a thread up the stack, one frame a call, and says why no other comes.
#![tactic(auto)]

mod by_call;
mod by_entry;
mod by_trampoline;
mod code;
pub mod columns;
mod executable;
mod execution;
mod faults;
mod frame;
mod frames;
mod instructions;
mod laws;
mod operands;
mod row_faults;
mod row_laws;
mod rows;
mod start;
mod values;

pub use by_trampoline::is_trampoline;
pub use executable::UnwoundExecutable;
pub use faults::{RowFault, Stop};
pub use frame::{Callee, Frame, Registers};
pub use frames::Frames;
pub use laws::{
    a_return_address_is_used_once, callers_are_of_their_calls, each_frame_stands_on_a_rule,
    no_entry_is_sure, nothing_is_guessed, the_frames_are_unwound, the_stack_rises,
    the_start_is_outermost,
};
pub use row_faults::RowField;
pub use row_laws::a_row_lasts_to_the_next_location;
pub use rows::{Cfa, Row, Rule};
