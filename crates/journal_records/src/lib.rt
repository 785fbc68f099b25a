//! The codec of journal records: the spelling of each, and the meaning
//! of the records of a half, its cases and the number of the next one.
#![tactic(auto)]

mod cases;
mod dropped;
mod fields;
mod head;
mod kind;
mod label;
mod laws;
mod live_cases;
mod names;
mod next;
mod padding;
mod pin;
mod reading;
mod runs;
mod spelling;
mod store;

pub(crate) use fields::{damaged, rounded, u16_at, u32_at, u64_at};
pub use laws::a_faulty_record_is_not_skipped;
pub use names::{NameKey, name_key};
pub use reading::{Replayed, replay};
pub use spelling::{
    GATE_OPEN, PIN_SIZE, case_size, drop_record, drop_size, label_record, label_size, next_record,
    pin_record, spell_label, spell_store, store_record, store_size,
};
