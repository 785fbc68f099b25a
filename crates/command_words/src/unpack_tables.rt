// The words of `unpack`.
use crate::care_tables::QUIET;
use crate::tables::{ARCHIVE, CommandWords, NO_WAIT, Takes, Word};

pub(crate) static UNPACK: CommandWords = CommandWords {
    name: "unpack",
    about: "Write a crash into a new directory for a debugger: its core, the executables that are used for it, and commands for GDB and LLDB",
    after_help: Some(UNPACK_NOTES),
    words: &[ARCHIVE, UNPACKED_CASE, FOLDER, NO_WAIT, QUIET],
};

// The text that help shows after the words of `unpack`.
const UNPACK_NOTES: &str =
    "It prints N PLACE for each executable: the number of its case, and its place in DIR. Start the debugger in DIR:\n\
     \x20\x20cd DIR && gdb-multiarch -x gdb\n\
     \x20\x20cd DIR && lldb -s lldb\n\
     DIR is there whole, or not at all. What a stopped command leaves is called DIR.part, and may be removed.";

// The case that is unpacked.
const UNPACKED_CASE: Word = Word {
    id: "case",
    shown: "CASE",
    takes: Takes::Place,
    default: None,
    help: "A case: its number, its name, last or latest",
};

// The directory that is made.
const FOLDER: Word = Word {
    id: "dir",
    shown: "DIR",
    takes: Takes::Place,
    default: None,
    help: "The directory to make, which only its owner may read and write; one that exists is refused",
};
