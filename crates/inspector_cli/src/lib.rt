//! The script of an archive: its lines, their replies, and the session that answers them.
#![tactic(auto)]

mod answers;
mod ask;
mod begin;
mod burst;
mod copying;
mod deleting;
mod extract;
mod fitting;
mod front;
mod laws;
mod life;
mod memory_life;
mod parts;
mod retiring;
mod run;
mod script;
mod session;
mod stated;
mod store;
mod store_life;
mod stored;

pub use archive_replies::reason;
pub use ask::open_and_ask;
pub use begin::line_stream;
pub use burst::Burst;
pub use copying::{CopyFault, copy_image};
pub use deleting::open_and_delete;
pub use extract::{ImageFault, read_image, write_image};
pub use laws::{
    a_fault_has_its_cause, a_script_has_one_cut, a_session_is_crash_safe,
    a_settled_archive_is_safe, a_store_is_crash_safe, a_stored_case_was_answered, a_text_is_one,
    retiring_is_for_a_stream, sessions_are_runs, the_oldest_core_goes_first,
};
pub use life::open_and_run;
pub use memory_life::memory_session;
pub use run::run_session;
pub use script_lines::{Call, Question, parse_question};
pub use script_streams::{Input, Output, ReadInput, StreamFault, WriteOutput};
pub use session::{LifeFault, MemoryFault, Order, SessionFault, StoreOptions, StoreOutcome};
pub use store::store_stream;
pub use store_life::open_and_store;
pub use stored::{a_stored_case_is_found, a_stored_case_is_kept};
pub use stream_names::{Naming, NewStream};
