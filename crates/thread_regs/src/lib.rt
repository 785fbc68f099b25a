//! The threads of a core file of a RISC-V 64 Linux process, their registers and signals.
#![tactic(auto)]

mod laws;
mod registers;
mod signals;
mod thread_list;

pub use laws::a_register_is_its_own_word;
pub use registers::Reg;
pub use signals::signal_name;
pub use thread_list::{Thread, ThreadList, threads};
