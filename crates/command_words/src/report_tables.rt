// The words of `report`.
use crate::tables::{ARCHIVE, CommandWords, NO_WAIT, Takes, Word};

pub(crate) static REPORT: CommandWords = CommandWords {
    name: "report",
    about: "Print one HTML page: what crashed in the archive and the newest crash of each kind, or some cases",
    after_help: Some(REPORT_NOTES),
    words: &[ARCHIVE, REPORTED_CASES, NO_WAIT],
};

// The text that help shows after the words of `report`.
const REPORT_NOTES: &str =
    "The page is one file without scripts; it loads nothing, and can be attached to a ticket:\n\
     \x20\x20corekeep report ARCHIVE last > crash.html\n\
     It has arguments, paths and file names of the processes, and of their memory registers and 256 bytes of stack of each.";

// The cases that the page is about.
const REPORTED_CASES: Word = Word {
    id: "word",
    shown: "CASE",
    takes: Takes::Words(0),
    default: None,
    help: "Cases, each by its number, by its name, or as last; the page has these alone, in this order",
};
