//! The work of commands over the file of an archive: it is made, opened, locked, asked and stored in, and each failure is reported.
//! An archive is also read while others change it: the lock is held while it is looked at, and not while a case is read.
#![tactic(auto)]

mod archive_path;
mod archives;
mod asking;
mod build_store;
mod checks;
mod collected;
mod copies;
mod copy_over;
mod failures;
mod file_store;
mod file_systems;
mod folders;
mod gaps;
mod held;
mod look_session;
mod looking;
mod making;
mod outcomes;
mod over_disk;
mod salvaging;
mod single;
mod storing;
mod unlocked_asks;
mod unlocked_checks;
mod unlocked_copies;
mod unlocked_faults;
mod unlocked_finding;
mod unlocked_images;
mod unlocked_laws;
mod unlocked_places;
mod unsent;

pub use archive_checks::shape_on;
pub use archive_path::ArchivePath;
pub use archives::{
    Access, NewArchive, WAITING, make_archive, names_output, print_trouble, take_disk,
};
pub use asking::{ask_looked, unasked};
pub use build_store::{BuildFault, BuildRequest, read_whole, refuse_file};
pub use checks::check;
pub use collected::Collected;
pub use copies::{CopyWords, copy_archive_file, resize_archive_file};
pub use copy_over::copy_disk;
pub use failures::{
    Danger, Failure, FileWord, NamedFile, Refusal, WordPart, print_failure, print_stall,
    print_unwritten, reason_of,
};
pub use file_store::{refuse_taken, store_file, store_taken};
pub use file_systems::{holder_of, note_file_system};
pub use folders::{note_shared, shared_folder};
pub use gaps::note_gap;
pub use held::Held;
pub use look_session::look;
pub use looking::{take_look, unlocked_told};
pub use making::what_is_made_lasts;
pub use outcomes::ask_told;
pub use over_disk::{ask_over, run_over};
pub use salvage::ShapeWish;
pub use salvaging::{Salvaged, fault_found, salvage, salvage_onto};
pub use single::{ask, extract};
pub use storing::{StoreRequest, StoreWords};
pub use unlocked_asks::{ask_unlocked, stay};
pub use unlocked_checks::check_unlocked;
pub use unlocked_copies::copy_unlocked;
pub use unlocked_faults::{AskFault, UnlockedCheckFault, UnlockedFault};
pub use unlocked_laws::{
    checks_are_exact, copies_are_of_the_case, gone_cases_are_noticed, looks_hold_an_archive,
};
pub use unlocked_places::{Places, Reads, find_cases};
pub use whole_files::{is_same, open_looked};
