//! The cases of an archive's file as people ask for them: `list`,
//! a case by its name, and the cases that `retire` would drop. Also `digest`, the SHA-256 of the images of cases, and `search`, the cases whose
//! images have a text.
#![tactic(auto)]

mod case_words;
mod containing;
mod digest_command;
mod digest_walk;
mod dump;
mod foreseen;
mod hashing;
mod having;
mod laws;
mod listing;
mod machine_zone;
mod plain;
mod plain_text;
mod search_command;

pub use case_words::{NamedLine, ask_case, extract_case, find_case, latest_time, named_question};
pub use digest_command::digest;
pub use digest_walk::{ImageDigest, digest_unlocked};
pub use foreseen::{foreseen_by, would_retire};
pub use laws::printed_texts_are_read_by_people;
pub use listing::{ListWords, list, list_lines_over, list_over};
pub use machine_zone::MachineZone;
pub use plain::ask_plain;
pub use plain_text::{print_plain, send_plain};
pub use search_command::{SearchWords, search};
