// The words of `ask`.
use crate::ask_help::ASK_HELP;
use crate::list_tables::JSON;
use crate::tables::{ARCHIVE, BUILDS, CommandWords, NO_WAIT, Takes, Word};

pub(crate) static ASK: CommandWords = CommandWords {
    name: "ask",
    about: "Carry out one line of a script over an archive, and print its reply; the status is 1 if it is refused",
    after_help: Some(ASK_HELP),
    words: &[ARCHIVE, LINE, JSON, NO_WAIT, TEXT, PLAIN, WORDS, BUILDS],
};

// The words of a line.
const LINE: Word = Word {
    id: "word",
    shown: "WORD",
    takes: Takes::Words(1),
    default: None,
    help: "The line, such as `delete 3`, `pin 3`, `retire keep=10` or `free`",
};

// The text that `find` searches for.
const TEXT: Word = Word {
    id: "text",
    shown: "TEXT",
    takes: Takes::Text,
    default: None,
    help: "For `find N`: look for these bytes, whatever they are, instead of HEX",
};

// Whether people read the reply.
const PLAIN: Word = Word {
    id: "plain",
    shown: "",
    takes: Takes::FlagWithoutJson,
    default: None,
    help: "Print the reply for people: each \\xHH as the byte itself, if that is a space or prints, and each row of `dump` as text too",
};

// Whether memory is printed as words.
const WORDS: Word = Word {
    id: "words",
    shown: "",
    takes: Takes::FlagWithoutJson,
    default: None,
    help: "For `dump`: print the memory as words of 8 bytes, each with what it points to",
};
