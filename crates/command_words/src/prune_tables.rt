// The words of `prune`.
use crate::tables::{ARCHIVE, CommandWords, NO_WAIT, Takes, Word};

pub(crate) static PRUNE: CommandWords = CommandWords {
    name: "prune",
    about: "Delete executables and debug files of builds that no core needs, and first the oldest cores, if limits say so",
    after_help: Some(PRUNE_NOTES),
    words: &[ARCHIVE, CORES, CORE_BYTES, CORE_BEFORE, YES, NO_WAIT],
};

// The text that help shows after the words of `prune`.
const PRUNE_NOTES: &str =
    "Without --yes it changes nothing, and prints `drop N NAME` for each case that it would delete.\n\
     Only executables and debug files that are stored by their build IDs (store --build) are deleted, and only those that no core that\n\
     stays needs. A pinned case stays, and so does an executable that is stored under a path.";

// How many cores stay.
const CORES: Word = Word {
    id: "cores",
    shown: "K",
    takes: Takes::Text,
    default: None,
    help: "Delete the oldest unpinned cores until at most K cores are left",
};

// How many bytes the cores that stay have.
const CORE_BYTES: Word = Word {
    id: "bytes",
    shown: "B",
    takes: Takes::Text,
    default: None,
    help: "Delete the oldest unpinned cores until the rest have at most B bytes together",
};

// The time before which cores go.
const CORE_BEFORE: Word = Word {
    id: "before",
    shown: "T",
    takes: Takes::Text,
    default: None,
    help: "Delete the unpinned cores whose time is before T, in seconds since 1970",
};

// Whether anything is deleted.
const YES: Word = Word {
    id: "yes",
    shown: "",
    takes: Takes::Flag,
    default: None,
    help: "Delete them",
};
