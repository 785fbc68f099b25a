// The words of `info` and of `wants`.
use crate::list_tables::JSON;
use crate::tables::{ARCHIVE, CommandWords, NO_WAIT, Takes, Word};

pub(crate) static INFO: CommandWords = CommandWords {
    name: "info",
    about: "Show a crash on one screen, or the state of an archive",
    after_help: None,
    words: &[
        ARCHIVE,
        INFO_CASE,
        THREADS,
        JSON,
        LOCAL_SHOWN,
        METRICS,
        NO_WAIT,
    ],
};

pub(crate) static WANTS: CommandWords = CommandWords {
    name: "wants",
    about: "Print which executables and libraries to store, by their build IDs",
    after_help: Some(WANTS_NOTES),
    words: &[ARCHIVE, WANTS_CASE, IDS, JSON, NO_WAIT],
};

// The text that help shows after the words of `wants`.
const WANTS_NOTES: &str =
    "Each line is NAME ID: a file that a process had mapped when it dumped core, and the build ID that its core has of it. No stored\n\
     executable is of that build. Bring the file (file, or readelf -n, shows its build ID), and store it:\n\
     \x20\x20corekeep store ARCHIVE FILE --build";

// The core whose files they are.
const WANTS_CASE: Word = Word {
    id: "case",
    shown: "CASE",
    takes: Takes::NewPlace,
    default: None,
    help: "A core: its number, its name, last or latest; without it, all cores",
};

// Whether the IDs alone are printed.
const IDS: Word = Word {
    id: "ids",
    shown: "",
    takes: Takes::Flag,
    default: None,
    help: "Print the build IDs alone, for programs, and then ok",
};

// The case that is shown.
const INFO_CASE: Word = Word {
    id: "case",
    shown: "CASE",
    takes: Takes::NewPlace,
    default: None,
    help: "A case: its number, its name, last or latest; without it, the archive is shown",
};

// Whether times are of this machine's zone.
const LOCAL_SHOWN: Word = Word {
    id: "local",
    shown: "",
    takes: Takes::Flag,
    default: None,
    help: "Show times in the zone of this machine, and not in UTC; the days of an archive's cores stay those of UTC",
};

// Whether the archive is shown as metrics.
const METRICS: Word = Word {
    id: "metrics",
    shown: "",
    takes: Takes::FlagWithoutJson,
    default: None,
    help: "Print the state of the archive as metrics, for Prometheus and OpenMetrics; it waits for no other process",
};

// Whether all threads are shown.
const THREADS: Word = Word {
    id: "threads",
    shown: "",
    takes: Takes::Flag,
    default: None,
    help: "Show the frames of each thread",
};
