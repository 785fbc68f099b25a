//! A line's query about an image.
ghost use Rattle.std.specs.Prelude.{◌≡◌, option_map};
ghost use Rattle.script_words.specs.WordsLeft.{words_left};
ghost use Rattle.script_words.specs.Hex.{needle_of};
ghost use Rattle.script_words.specs.Number.{number_of, number_within};
ghost use Rattle.script_lines.specs.Queries.{ask_dump, ask_frame, query_rows, memory_rows, build_rows, by_build, query_in, query_of, memory_query, needle_bytes, alone, one_word, ranged};

use crate::names::Needle;
use script_words::{Words, decode_hex, parse_number, parse_number_within};

/// A line's query about an image.
#[derive(Drop)]
pub enum Query {
    /// A query that the image alone answers.
    Image(ImageQuery),
    /// A query that a core answers, with the executables that its process had mapped.
    Memory(MemoryQuery),
    /// The same, if the executables of the builds that were mapped are attached, not those under the paths.
    ByBuild(MemoryQuery),
    /// The function of an executable that covers an address.
    Symbol {
        /// The address.
        address: u64,
    },
    /// The same, but the debug file of the executable's build is searched if no function of its own covers the address.
    SymbolByBuild {
        /// The address.
        address: u64,
    },
    /// The source line of an address of an executable, by line tables of its own or those in the debug file of its build.
    Line {
        /// The address.
        address: u64,
    },
}

impl Query {
    /// The same query if executables are chosen by build: `dump`, `at`, `find`, `strings` and `bt` attach those of the builds that
    /// were mapped, and `at`, `bt` and `symbol` name functions by their debug files too. Any other query chooses so already, or reads no executable.
    pub(crate) fn by_build(self) -> Query
        ensures { query_of result ≡ by_build (query_of self) }
    {
        match self {
            Query::Memory(query) => memory_by_build(query),
            Query::Symbol { address } => Query::SymbolByBuild { address },
            query => query,
        }
    }
}

/// The same of a query of a core's memory.
fn memory_by_build(query: MemoryQuery) -> Query
    ensures { query_of result ≡ by_build (memory_query query) }
{
    match query {
        MemoryQuery::Unwind { .. } => Query::Memory(query),
        MemoryQuery::Lines { .. } => Query::Memory(query),
        MemoryQuery::Frame { .. } => Query::Memory(query),
        MemoryQuery::Builds(_) => Query::Memory(query),
        _ => Query::ByBuild(query),
    }
}

/// A query that an image alone answers.
#[derive(Drop)]
pub enum ImageQuery {
    /// The header of the ELF file, and its segments.
    Header,
    /// The notes of a core.
    Notes,
    /// Its threads.
    Threads,
    /// The general registers of one of its threads.
    Registers {
        /// The place of the thread among the core's threads, from 0 on.
        thread: u64,
    },
    /// The process that dumped core.
    Process,
    /// The signal that ended it.
    Signal,
    /// Its auxiliary vector.
    AuxiliaryVector,
    /// The files that were mapped into its memory.
    Files,
    /// The stretches of its memory, and the content of each.
    Maps,
}

/// A query about a core's memory, to which the executables that its process had mapped belong.
#[derive(Drop)]
pub enum MemoryQuery {
    /// Bytes of it.
    Dump {
        /// The address of the first one.
        first: u64,
        /// How many bytes.
        length: u64,
    },
    /// The content of its memory at an address.
    At {
        /// The address.
        address: u64,
    },
    /// The places where bytes occur in it.
    Find {
        /// The bytes.
        needle: Needle,
    },
    /// The texts in it.
    Strings {
        /// The fewest bytes of a text, 1 to 1,024.
        least: u64,
    },
    /// The frames of one of the core's threads, by frame pointers.
    Backtrace {
        /// The place of the thread among the core's threads, from 0 on.
        thread: u64,
    },
    /// The same by call frame information.
    Unwind {
        /// The place of the thread among the core's threads, from 0 on.
        thread: u64,
    },
    /// The source lines of these frames.
    Lines {
        /// The place of the thread among the core's threads, from 0 on.
        thread: u64,
    },
    /// The registers of one of these frames.
    Frame {
        /// The place of the thread among the core's threads, from 0 on.
        thread: u64,
        /// The place of the frame among the thread's frames, from 0 on.
        frame: u64,
    },
    /// The builds of the files that were mapped into it.
    Builds(BuildQuery),
}

/// A query about the builds of the files that were mapped into a core's memory.
#[derive(Clone, Copy)]
pub enum BuildQuery {
    /// The build ID of each, and that of the executable that is stored for it.
    Compared,
    /// The case whose executable is used for each.
    Used,
    /// Those that no executable is used for, by their build IDs.
    Wanted,
}

// The table of the lines that inspect: the command of each, and the words that may follow the number of the case.
pub(crate) fn parse_query(command: &[u8], words: Words<'_>) -> Option<Query>
    ensures { option_map query_of result ≡ query_in query_rows command.now (words_left words.entry) }
{
    if command == b"header".as_slice() {
        alone(words, Query::Image(ImageQuery::Header))
    } else if command == b"notes".as_slice() {
        alone(words, Query::Image(ImageQuery::Notes))
    } else if command == b"threads".as_slice() {
        alone(words, Query::Image(ImageQuery::Threads))
    } else if command == b"regs".as_slice() {
        Some(Query::Image(ImageQuery::Registers {
            thread: parse_number_alone(words)?,
        }))
    } else if command == b"process".as_slice() {
        alone(words, Query::Image(ImageQuery::Process))
    } else if command == b"signal".as_slice() {
        alone(words, Query::Image(ImageQuery::Signal))
    } else if command == b"auxv".as_slice() {
        alone(words, Query::Image(ImageQuery::AuxiliaryVector))
    } else if command == b"files".as_slice() {
        alone(words, Query::Image(ImageQuery::Files))
    } else {
        parse_memory_query(command, words)
    }
}

// The rows of the table that ask of memory, frames and symbols.
fn parse_memory_query(command: &[u8], words: Words<'_>) -> Option<Query>
    ensures { option_map query_of result ≡ query_in memory_rows command.now (words_left words.entry) }
{
    if command == b"maps".as_slice() {
        alone(words, Query::Image(ImageQuery::Maps))
    } else if command == b"dump".as_slice() {
        parse_dump(words)
    } else if command == b"at".as_slice() {
        Some(Query::Memory(MemoryQuery::At {
            address: parse_number_alone(words)?,
        }))
    } else if command == b"find".as_slice() {
        Some(Query::Memory(MemoryQuery::Find {
            needle: parse_needle_alone(words)?,
        }))
    } else if command == b"strings".as_slice() {
        Some(Query::Memory(MemoryQuery::Strings {
            least: parse_least_alone(words)?,
        }))
    } else if command == b"bt".as_slice() {
        Some(Query::Memory(MemoryQuery::Backtrace {
            thread: parse_number_alone(words)?,
        }))
    } else if command == b"unwind".as_slice() {
        Some(Query::Memory(MemoryQuery::Unwind {
            thread: parse_number_alone(words)?,
        }))
    } else if command == b"lines".as_slice() {
        Some(Query::Memory(MemoryQuery::Lines {
            thread: parse_number_alone(words)?,
        }))
    } else if command == b"frame".as_slice() {
        parse_frame(words)
    } else {
        parse_build_query(command, words)
    }
}

// The rows of the table that ask of builds, symbols and source lines.
fn parse_build_query(command: &[u8], words: Words<'_>) -> Option<Query>
    ensures { option_map query_of result ≡ query_in build_rows command.now (words_left words.entry) }
{
    if command == b"builds".as_slice() {
        alone(
            words,
            Query::Memory(MemoryQuery::Builds(BuildQuery::Compared)),
        )
    } else if command == b"used".as_slice() {
        alone(words, Query::Memory(MemoryQuery::Builds(BuildQuery::Used)))
    } else if command == b"wants".as_slice() {
        alone(
            words,
            Query::Memory(MemoryQuery::Builds(BuildQuery::Wanted)),
        )
    } else if command == b"symbol".as_slice() {
        Some(Query::Symbol {
            address: parse_number_alone(words)?,
        })
    } else if command == b"line".as_slice() {
        Some(Query::Line {
            address: parse_number_alone(words)?,
        })
    } else {
        None
    }
}

// A query with nothing after its case.
fn alone(words: Words<'_>, query: Query) -> Option<Query>
    ensures { option_map query_of result ≡ alone (query_of query) (words_left words.entry) }
{
    let mut rest = words;
    if rest.next().is_some() {
        return None;
    }
    Some(query)
}

// A number and nothing else.
fn parse_number_alone(words: Words<'_>) -> Option<u64>
    ensures { result ≡ one_word number_of (words_left words.entry) }
{
    let mut rest = words;
    let number = rest.next()?;
    if rest.next().is_some() {
        return None;
    }
    parse_number(number)
}

// The bytes of a needle and nothing else.
fn parse_needle_alone(words: Words<'_>) -> Option<Needle>
    ensures { option_map needle_bytes result ≡ one_word needle_of (words_left words.entry) }
{
    let mut rest = words;
    let needle = rest.next()?;
    if rest.next().is_some() {
        return None;
    }
    let bytes = decode_hex(needle)?;
    Some(Needle { bytes })
}

// The least length of a text and nothing else.
fn parse_least_alone(words: Words<'_>) -> Option<u64>
    ensures { result ≡ one_word (number_within 1 1024) (words_left words.entry) }
{
    let mut rest = words;
    let least = rest.next()?;
    if rest.next().is_some() {
        return None;
    }
    parse_number_within(least, 1, 1_024)
}

// `dump`: an address and a number of bytes.
fn parse_dump(words: Words<'_>) -> Option<Query>
    ensures { option_map query_of result ≡ ranged ask_dump (words_left words.entry) }
{
    let mut rest = words;
    let first = rest.next()?;
    let length = rest.next()?;
    if rest.next().is_some() {
        return None;
    }
    Some(Query::Memory(MemoryQuery::Dump {
        first: parse_number(first)?,
        length: parse_number(length)?,
    }))
}

// `frame`: the place of a thread and that of a frame.
fn parse_frame(words: Words<'_>) -> Option<Query>
    ensures { option_map query_of result ≡ ranged ask_frame (words_left words.entry) }
{
    let mut rest = words;
    let thread = rest.next()?;
    let frame = rest.next()?;
    if rest.next().is_some() {
        return None;
    }
    Some(Query::Memory(MemoryQuery::Frame {
        thread: parse_number(thread)?,
        frame: parse_number(frame)?,
    }))
}
