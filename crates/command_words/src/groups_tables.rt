// The words of `groups`.
use crate::list_tables::{
    JSON, JSON_LINES, LABEL_PART, LAST, LOCAL, NAME_PART, PID, PINNED, PROGRAM_PART, SIGNAL, SINCE,
    UNTIL, USER,
};
use crate::tables::{ARCHIVE, CommandWords, NO_WAIT, Takes, Word};

pub(crate) static GROUPS: CommandWords = CommandWords {
    name: "groups",
    about: "Group the cores that crashed alike, the most frequent crash first",
    after_help: Some(GROUPS_NOTES),
    words: &[
        ARCHIVE,
        GROUPS_CASE,
        JSON,
        JSON_LINES,
        LOCAL,
        NAME_PART,
        USER,
        PROGRAM_PART,
        PID,
        SIGNAL,
        SINCE,
        UNTIL,
        LABEL_PART,
        PINNED,
        LAST,
        NO_WAIT,
    ],
};

// The text that help shows after the words of `groups`.
const GROUPS_NOTES: &str =
    "A row has the cores of one program that died by one signal with the same innermost functions (FRAMES). CORES counts them; behind +\n\
     are those that crashed at the same place, of which frames are missing. NEWEST is the newest core: look at that one. `..` ends FRAMES\n\
     if frames are missing. Functions are named by the stored executables, as `unwind` does: see `corekeep wants`.";

// The case whose group is shown.
const GROUPS_CASE: Word = Word {
    id: "case",
    shown: "CASE",
    takes: Takes::NewPlace,
    default: None,
    help: "A core: its number, its name, last or latest; its group is shown, with the cores that are in it",
};
