// The words of `list`.
use crate::tables::{ARCHIVE, CommandWords, NO_WAIT, Takes, Word};

pub(crate) static LIST: CommandWords = CommandWords {
    name: "list",
    about: "List the cases of an archive",
    after_help: None,
    words: &[
        ARCHIVE,
        NO_WAIT,
        JSON,
        JSON_LINES,
        LOCAL,
        SORT,
        KIND,
        NAME_PART,
        USER,
        PROGRAM_PART,
        PID,
        SIGNAL,
        SINCE,
        UNTIL,
        LABEL_PART,
        PINNED,
        LAST,
    ],
};

// Whether JSON is printed.
pub(crate) const JSON: Word = Word {
    id: "json",
    shown: "",
    takes: Takes::Flag,
    default: None,
    help: "Print JSON, for programs",
};

// Whether JSON is printed by lines.
pub(crate) const JSON_LINES: Word = Word {
    id: "json-lines",
    shown: "",
    takes: Takes::FlagWithoutJson,
    default: None,
    help: "Print JSON, an object on each line and nothing else",
};

// Whether times are of this machine's zone.
pub(crate) const LOCAL: Word = Word {
    id: "local",
    shown: "",
    takes: Takes::Flag,
    default: None,
    help: "Show times in the zone of this machine, and read WHEN in it, and not in UTC",
};

// In which order cases are shown.
pub(crate) const SORT: Word = Word {
    id: "sort",
    shown: "BY",
    takes: Takes::Text,
    default: None,
    help: "Show them by time, size or name, and not by number",
};

// Of which kind a case is.
pub(crate) const KIND: Word = Word {
    id: "kind",
    shown: "KIND",
    takes: Takes::Text,
    default: None,
    help: "Only core files (core) or executables (exec)",
};

// A part of its name.
pub(crate) const NAME_PART: Word = Word {
    id: "name",
    shown: "TEXT",
    takes: Takes::Text,
    default: None,
    help: "Only cases with this text in the name",
};

// The user in its name.
pub(crate) const USER: Word = Word {
    id: "user",
    shown: "UID",
    takes: Takes::Bytes,
    default: None,
    help: "Only cores of this user: by their names, as core.UID.HOST.PROGRAM.PID.TIME has it",
};

// A part of the program in its name.
pub(crate) const PROGRAM_PART: Word = Word {
    id: "program",
    shown: "TEXT",
    takes: Takes::Text,
    default: None,
    help: "Only cores with this text in the program of such a name",
};

// Its process.
pub(crate) const PID: Word = Word {
    id: "pid",
    shown: "PID",
    takes: Takes::Bytes,
    default: None,
    help: "Only cores of this process",
};

// Its signal.
pub(crate) const SIGNAL: Word = Word {
    id: "signal",
    shown: "SIGNAL",
    takes: Takes::Text,
    default: None,
    help: "Only cores of this signal: its number, or its name such as SEGV or SIGSEGV",
};

// The earliest time.
pub(crate) const SINCE: Word = Word {
    id: "since",
    shown: "WHEN",
    takes: Takes::Text,
    default: None,
    help: "Only cores of this time or later, in UTC (or see --local): today, yesterday, 2026-11-25, '2026-11-25 14:03', 2026-11-25T14:03:11Z, @SECONDS since the epoch, or 90s, 30m, 2h or 3d ago",
};

// The time before which it is.
pub(crate) const UNTIL: Word = Word {
    id: "until",
    shown: "WHEN",
    takes: Takes::Text,
    default: None,
    help: "Only cores from before this time",
};

// A part of its label.
pub(crate) const LABEL_PART: Word = Word {
    id: "label",
    shown: "TEXT",
    takes: Takes::Text,
    default: None,
    help: "Only cases with this text in the label",
};

// Whether it is pinned.
pub(crate) const PINNED: Word = Word {
    id: "pinned",
    shown: "",
    takes: Takes::Flag,
    default: None,
    help: "Only pinned cases",
};

// How many are printed.
pub(crate) const LAST: Word = Word {
    id: "last",
    shown: "K",
    takes: Takes::Bytes,
    default: None,
    help: "Only the K newest of these cases, by number",
};
