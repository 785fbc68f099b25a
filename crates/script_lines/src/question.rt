//! The question of one line about an archive.
ghost use Rattle.std.specs.Prelude.{◌≡◌, ◌≤◌, length, option_map};
ghost use Rattle.script_words.specs.WordsLeft.{words_left};
ghost use Rattle.script_words.specs.Text.{text_of};
ghost use Rattle.script_lines.specs.Said.{only_looks, said_choosing, case_alone, pins, label_text, short_label, label_said, retire_said, list_said, free_said, upgrade_said, inspect_said, case_words_said};
ghost use Rattle.script_lines.specs.Commands.{question_said, call_said, label_bytes};
ghost use Rattle.script_lines.specs.LineWords.{AreWords};

use crate::keys::{Keys, are_pairs, large_at};
use crate::query::{Query, parse_query};
use arrayvec::ArrayVec;
use retention::Policy;
use script_words::{Words, decode_text, parse_case_number};

/// A line's question about an archive. One line does it: it does not begin, feed, end or drop a stream.
#[derive(Drop)]
pub enum Question {
    /// Something is asked of the image of a case.
    Inspect {
        /// The number of the case, from 1 on.
        seq: u32,
        /// The query.
        query: Query,
    },
    /// Anything else is a call of the archive.
    Call(Call),
}

/// A call of an archive that needs no stream.
#[derive(Drop)]
pub enum Call {
    /// The case is dropped.
    Delete {
        /// The number of the case, from 1 on.
        seq: u32,
    },
    /// The case is kept from deletion, or no longer.
    Pin {
        /// The number of the case, from 1 on.
        seq: u32,
        /// It is kept.
        flag: bool,
    },
    /// The case gets a label.
    Label {
        /// The number of the case, from 1 on.
        seq: u32,
        /// The label's bytes, at most 64: escapes are read. It is empty if the line gives no text.
        label: ArrayVec<u8, 64>,
    },
    /// The cases that the rule drops are dropped.
    Retire {
        /// The policy whose limits the archive is brought down to.
        policy: Policy,
    },
    /// The cases.
    ListCases,
    /// The free data blocks.
    CountFree,
    /// The archive is brought to version 2 of the layout, which keeps labels.
    Upgrade,
}

impl Call {
    // Whether it changes nothing.
    fn only_looks(&self) -> bool
        ensures { result ≡ only_looks (call_said self.now) }
    {
        matches!(self, Call::ListCases | Call::CountFree)
    }
}

impl Question {
    /// The same question if executables are chosen by build, and by whether they are: then `dump`, `at`, `find`, `strings` and `bt` attach
    /// those of the builds that were mapped, not those that are stored under the paths, and `at`, `bt` and `symbol` name functions by
    /// their debug files too. Any other question stays.
    pub fn choosing(self, by_build: bool) -> Question
        ensures { question_said result ≡ said_choosing by_build (question_said self) }
    {
        match self {
            Question::Inspect { seq, query } if by_build => Question::Inspect {
                seq,
                query: query.by_build(),
            },
            other => other,
        }
    }

    /// Whether the question only reads an archive: `list`, `free` and the lines that inspect do, whatever the answer is. Any other
    /// may change the archive's content.
    pub fn only_looks(&self) -> bool
        ensures { result ≡ only_looks (question_said self.now) }
    {
        match self {
            Question::Inspect { .. } => true,
            Question::Call(call) => call.only_looks(),
        }
    }
}

// The meaning of the words of a line about cases, or about the archive as a whole.
pub(crate) fn parse_case_words(command: &[u8], words: Words<'_>) -> Option<Question>
    requires { AreWords (words_left words) }
    ensures { option_map question_said result ≡ case_words_said command.now (words_left words.entry) }
{
    if command == b"delete".as_slice() {
        Some(Question::Call(Call::Delete {
            seq: parse_case_alone(words)?,
        }))
    } else if command == b"pin".as_slice() {
        Some(Question::Call(parse_pin(words, true)?))
    } else if command == b"unpin".as_slice() {
        Some(Question::Call(parse_pin(words, false)?))
    } else if command == b"label".as_slice() {
        Some(Question::Call(parse_label(words)?))
    } else if command == b"retire".as_slice() {
        Some(Question::Call(parse_retire(words)?))
    } else if command == b"list".as_slice() {
        Some(Question::Call(parse_list(words)?))
    } else if command == b"free".as_slice() {
        Some(Question::Call(parse_free(words)?))
    } else if command == b"upgrade".as_slice() {
        Some(Question::Call(parse_upgrade(words)?))
    } else {
        parse_inspect(command, words)
    }
}

// The number of a case and nothing else.
fn parse_case_alone(words: Words<'_>) -> Option<u32>
    ensures { result ≡ case_alone (words_left words.entry) }
{
    let mut rest = words;
    let seq = rest.next()?;
    if rest.next().is_some() {
        return None;
    }
    parse_case_number(seq)
}

// `pin` and `unpin`: the number of a case.
fn parse_pin(words: Words<'_>, flag: bool) -> Option<Call>
    ensures { option_map call_said result ≡ pins flag (case_alone (words_left words.entry)) }
{
    Some(Call::Pin {
        seq: parse_case_alone(words)?,
        flag,
    })
}

// `label`: the number of a case, and its label.
fn parse_label(words: Words<'_>) -> Option<Call>
    requires { AreWords (words_left words) }
    ensures { option_map call_said result ≡ label_said (words_left words.entry) }
{
    let mut rest = words;
    let seq = rest.next()?;
    Some(Call::Label {
        seq: parse_case_number(seq)?,
        label: parse_label_text(rest)?,
    })
}

// The label after the number of its case: a text, or nothing for the empty label.
fn parse_label_text(words: Words<'_>) -> Option<ArrayVec<u8, 64>>
    requires { AreWords (words_left words) }
    ensures { option_map label_bytes result ≡ label_text (words_left words.entry) }
{
    let mut rest = words;
    let Some(text) = rest.next() else {
        return Some(ArrayVec::new());
    };
    if rest.next().is_some() {
        return None;
    }
    decode_label(text)
}

// The label of a word, unless that is too long.
fn decode_label(word: &[u8]) -> Option<ArrayVec<u8, 64>>
    requires { length word.now ≤ 1024 }
    ensures { option_map label_bytes result ≡ short_label (text_of word.now) }
{
    let text = decode_text(word)?;
    ArrayVec::try_from(text.as_slice()).ok()
}

// `retire`: the limits.
fn parse_retire(words: Words<'_>) -> Option<Call>
    requires { AreWords (words_left words) }
    ensures { option_map call_said result ≡ retire_said (words_left words.entry) }
{
    if !are_pairs(Keys::Retire, words) {
        return None;
    }
    Some(Call::Retire {
        policy: Policy {
            keep: large_at(words, b"keep"),
            bytes: large_at(words, b"bytes"),
            before: large_at(words, b"before"),
        },
    })
}

// `list`: nothing else.
fn parse_list(words: Words<'_>) -> Option<Call>
    ensures { option_map call_said result ≡ list_said (words_left words.entry) }
{
    let mut rest = words;
    if rest.next().is_some() {
        return None;
    }
    Some(Call::ListCases)
}

// `free`: nothing else.
fn parse_free(words: Words<'_>) -> Option<Call>
    ensures { option_map call_said result ≡ free_said (words_left words.entry) }
{
    let mut rest = words;
    if rest.next().is_some() {
        return None;
    }
    Some(Call::CountFree)
}

// `upgrade`: nothing else.
fn parse_upgrade(words: Words<'_>) -> Option<Call>
    ensures { option_map call_said result ≡ upgrade_said (words_left words.entry) }
{
    let mut rest = words;
    if rest.next().is_some() {
        return None;
    }
    Some(Call::Upgrade)
}

// A line that inspects: the number of a case, and the query about its image.
fn parse_inspect(command: &[u8], words: Words<'_>) -> Option<Question>
    ensures { option_map question_said result ≡ inspect_said command.now (words_left words.entry) }
{
    let mut rest = words;
    let seq = rest.next()?;
    Some(Question::Inspect {
        seq: parse_case_number(seq)?,
        query: parse_query(command, rest)?,
    })
}
