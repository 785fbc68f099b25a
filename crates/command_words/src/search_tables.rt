// The words of `search`.
use crate::list_tables::{
    JSON, JSON_LINES, KIND, LABEL_PART, LAST, LOCAL, NAME_PART, PID, PINNED, PROGRAM_PART, SIGNAL,
    SINCE, SORT, UNTIL, USER,
};
use crate::tables::{ARCHIVE, CommandWords, NO_WAIT, Takes, Word};

pub(crate) static SEARCH: CommandWords = CommandWords {
    name: "search",
    about: "List the cases whose images have a text, as grep -l finds files",
    after_help: Some(SEARCH_NOTES),
    words: &[
        ARCHIVE,
        SOUGHT,
        JSON,
        JSON_LINES,
        LOCAL,
        SORT,
        KIND,
        NAME_PART,
        USER,
        PROGRAM_PART,
        PID,
        SIGNAL,
        SINCE,
        UNTIL,
        LABEL_PART,
        PINNED,
        LAST,
        NO_WAIT,
    ],
};

// The text that help shows after the words of `search`.
const SEARCH_NOTES: &str =
    "The images of the cases that pass the filters are read one after the other, in constant memory. The text is sought in their bytes as they\n\
     are stored: `corekeep ask ARCHIVE find N --text TEXT` finds the addresses in the memory of one core. The status is 1 if no case has it.";

// The text to search for.
const SOUGHT: Word = Word {
    id: "text",
    shown: "TEXT",
    takes: Takes::Text,
    default: None,
    help: "The text that an image must have",
};
