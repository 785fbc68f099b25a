//! The meaning of a line of a script.
ghost use Rattle.std.specs.Prelude.{◌≡◌, ◌<◌, ◌≤◌, ℕ, List, length, option_map, is_some, IfSome};
ghost use Rattle.script_words.specs.Words.{words_of};
ghost use Rattle.script_words.specs.WordsLeft.{words_left};
ghost use Rattle.script_words.specs.Text.{text_of};
ghost use Rattle.script_lines.specs.Said.{said, is_question, begin_said, exec_said, core_said, part_said, slot_alone, words_said, short_line_said};
ghost use Rattle.script_lines.specs.Commands.{said_by, asked_by, name_text, question_said};
ghost use Rattle.script_lines.specs.LineWords.{AreWords};
ghost use Rattle.script_streams.specs.Lines.{KeepsLine};

use crate::names::NameWord;
use crate::process::ProcessWords;
use crate::question::{Question, parse_case_words};
use script_streams::KeptLine;
use script_words::{
    Words, decode_text, is_blank_or_comment, is_plain, parse_part_length, parse_slot,
};

/// The request of a line, or why the line requests nothing.
#[derive(Drop)]
pub enum Command<'a> {
    /// So many bytes more for a stream, which follow the line.
    Part {
        /// The slot of the stream, 0 to 7.
        slot: u8,
        /// How many bytes follow the line, 0 to 65,536.
        count: u32,
    },
    /// Something that is done with this line.
    Ask(Question),
    /// Any other line.
    Plain(Request<'a>),
}

/// A line that requests nothing, or a step of a stream, and that no bytes follow.
#[derive(Drop)]
pub enum Request<'a> {
    /// Nothing, and it has no reply.
    Silence,
    /// Nothing that is known.
    BadLine,
    /// It has more than 1,024 bytes.
    LineTooLong,
    /// A stream of an executable of this name.
    BeginExec {
        /// The slot of the stream, 0 to 7.
        slot: u8,
        /// The path of the executable.
        name: NameWord,
    },
    /// A stream of the core of this process.
    BeginCore {
        /// The slot of the stream, 0 to 7.
        slot: u8,
        /// The words that describe the process.
        process: ProcessWords<'a>,
    },
    /// The stream becomes a case.
    End {
        /// The slot of the stream, 0 to 7.
        slot: u8,
    },
    /// The stream is dropped.
    Drop {
        /// The slot of the stream, 0 to 7.
        slot: u8,
    },
}

/// The meaning of a line that a reader of lines has kept.
pub fn parse_line(line: &KeptLine) -> Command<'_>
    requires { (text : List ℕ) × KeepsLine text line.now }
    ensures { (text : List ℕ) → KeepsLine text line.now → said_by result ≡ said text }
{
    if line.is_blank_or_comment() {
        return Command::Plain(Request::Silence);
    }
    if line.is_too_long() {
        return Command::Plain(Request::LineTooLong);
    }
    parse_short_line(line.text())
}

/// The meaning of a line that is at hand whole, without its newline.
pub fn parse_text(line: &[u8]) -> Command<'_>
    ensures { said_by result ≡ said line.now }
{
    if is_blank_or_comment(line) {
        return Command::Plain(Request::Silence);
    }
    if line.len() > 1024 {
        return Command::Plain(Request::LineTooLong);
    }
    parse_short_line(line)
}

// The meaning of a line that has a reply and is not too long.
fn parse_short_line(line: &[u8]) -> Command<'_>
    requires { length line.now ≤ 1024 }
    ensures { said_by result ≡ short_line_said line.now }
{
    if !is_plain(line) {
        return Command::Plain(Request::BadLine);
    }
    match parse_words(Words::new(line)) {
        Some(command) => command,
        None => Command::Plain(Request::BadLine),
    }
}

// The meaning of the words of a line.
fn parse_words(words: Words<'_>) -> Option<Command<'_>>
    requires { AreWords (words_left words) }
    ensures { option_map said_by result ≡ words_said (words_left words.entry) }
{
    let mut rest = words;
    let command = rest.next()?;
    if command == b"begin".as_slice() {
        Some(Command::Plain(parse_begin(rest)?))
    } else if command == b"part".as_slice() {
        parse_part(rest)
    } else if command == b"end".as_slice() {
        Some(Command::Plain(Request::End {
            slot: parse_slot_alone(rest)?,
        }))
    } else if command == b"drop".as_slice() {
        Some(Command::Plain(Request::Drop {
            slot: parse_slot_alone(rest)?,
        }))
    } else {
        Some(Command::Ask(parse_case_words(command, rest)?))
    }
}

// `begin`: the kind, and the words for that kind.
fn parse_begin(words: Words<'_>) -> Option<Request<'_>>
    requires { AreWords (words_left words) }
    ensures { option_map asked_by result ≡ begin_said (words_left words.entry) }
{
    let mut rest = words;
    let kind = rest.next()?;
    if kind == b"exec".as_slice() {
        parse_exec(rest)
    } else if kind == b"core".as_slice() {
        parse_core(rest)
    } else {
        None
    }
}

// `begin exec`: a slot and a name.
fn parse_exec(words: Words<'_>) -> Option<Request<'_>>
    requires { AreWords (words_left words) }
    ensures { option_map asked_by result ≡ exec_said (words_left words.entry) }
{
    let mut rest = words;
    let slot = rest.next()?;
    let name = rest.next()?;
    if rest.next().is_some() {
        return None;
    }
    Some(Request::BeginExec {
        slot: parse_slot(slot)?,
        name: parse_name(name)?,
    })
}

// The name of a word.
fn parse_name(word: &[u8]) -> Option<NameWord>
    requires some { 0 < length word.now }
    requires short { length word.now ≤ 1024 }
    ensures { option_map name_text result ≡ text_of word.now }
{
    let text = decode_text(word)?;
    Some(NameWord { text })
}

// `begin core`: a slot and the description of a process.
fn parse_core(words: Words<'_>) -> Option<Request<'_>>
    requires { AreWords (words_left words) }
    ensures { option_map asked_by result ≡ core_said (words_left words.entry) }
{
    let mut rest = words;
    let slot = rest.next()?;
    Some(Request::BeginCore {
        slot: parse_slot(slot)?,
        process: ProcessWords::of(rest)?,
    })
}

// `part`: a slot and a number of bytes.
fn parse_part(words: Words<'_>) -> Option<Command<'_>>
    ensures { option_map said_by result ≡ part_said (words_left words.entry) }
{
    let mut rest = words;
    let slot = rest.next()?;
    let count = rest.next()?;
    if rest.next().is_some() {
        return None;
    }
    Some(Command::Part {
        slot: parse_slot(slot)?,
        count: parse_part_length(count)?,
    })
}

// A slot and nothing else.
fn parse_slot_alone(words: Words<'_>) -> Option<u8>
    ensures { result ≡ slot_alone (words_left words.entry) }
{
    let mut rest = words;
    let slot = rest.next()?;
    if rest.next().is_some() {
        return None;
    }
    parse_slot(slot)
}

/// The question of a line, if one line is a complete request: `delete`, `pin`, `unpin`, `label`, `retire`, `list`, `free`,
/// `upgrade` and the lines that inspect are. A line that begins, feeds, ends or drops a stream is no question, and neither
/// is a line outside the grammar, or with no reply.
pub fn parse_question(line: &[u8]) -> Option<Question>
    ensures said { IfSome result (λ question. question_said question ≡ said line.now) }
    ensures asked { is_some result ≡ is_question (said line.now) }
{
    match parse_text(line) {
        Command::Ask(question) => Some(question),
        Command::Part { .. } => None,
        Command::Plain(_) => None,
    }
}
