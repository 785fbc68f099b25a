// The words of `digest`.
use crate::care_tables::QUIET;
use crate::tables::{ARCHIVE, CommandWords, NO_WAIT, Takes, Word};

pub(crate) static DIGEST: CommandWords = CommandWords {
    name: "digest",
    about: "Print the SHA-256 of the images of cases",
    after_help: Some(
        "A line for each case: 64 hexadecimal digits, the image's length in bytes, and the case's number. The first case that is refused ends\n\
         it, and the refusal goes to standard error.",
    ),
    words: &[ARCHIVE, DIGESTED, NO_WAIT, QUIET],
};

// The cases.
const DIGESTED: Word = Word {
    id: "word",
    shown: "CASE",
    takes: Takes::Words(1),
    default: None,
    help: "Cases: each by its number, its name, last or latest",
};
