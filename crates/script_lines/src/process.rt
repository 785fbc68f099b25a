// The description that a line gives of a process that dumped core.
ghost use Rattle.std.specs.Prelude.{◌≡◌, option_map};
ghost use Rattle.script_words.specs.WordsLeft.{words_left};
ghost use Rattle.script_lines.specs.LineWords.{AreWords, AreWords-prop};

use crate::keys::{Keys, are_pairs, large_at, small_at, text_at};
use arrayvec::ArrayVec;
use script_words::Words;

/// The description that a line gives of a process that dumped core: a key that the line leaves out is empty or 0.
#[derive(Drop)]
pub struct Process {
    /// The name of its command.
    pub comm: ArrayVec<u8, 1024>,
    /// The path of its executable.
    pub exe: ArrayVec<u8, 1024>,
    /// The name of its host.
    pub host: ArrayVec<u8, 1024>,
    /// The process.
    pub pid: u32,
    /// The thread that got the signal.
    pub tid: u32,
    /// The number of the signal.
    pub signal: u32,
    /// Its real user.
    pub uid: u32,
    /// Its real group.
    pub gid: u32,
    /// Its dump mode.
    pub mode: u32,
    /// When it dumped core, in seconds since the epoch.
    pub time: u64,
    /// Its limit on the size of a core file, in bytes.
    pub limit: u64,
}

/// The words that describe a process that dumped core: pairs of a key and a value. They are read only when they are needed,
/// since a full description takes some 3 KB.
#[derive(Clone, Copy)]
pub struct ProcessWords<'a> {
    words: Words<'a>,
    ghost short: { AreWords (words_left words) } by { AreWords-prop (words_left words) },
}

impl<'a> ProcessWords<'a> {
    ghost use Rattle.script_lines.specs.Said.{process_said};
    ghost use Rattle.script_lines.specs.Commands.{process_of, process_told};

    // The words, if they are pairs that describe a process.
    pub(crate) fn of(words: Words<'a>) -> Option<Self>
        requires { AreWords (words_left words) }
        ensures { option_map process_told result ≡ process_said (words_left words.entry) }
    {
        if !are_pairs(Keys::Core, words) {
            return None;
        }
        Some(ProcessWords { words })
    }

    /// The description that they give.
    pub fn read(&self) -> Process
        ensures { process_of result ≡ process_told self.now }
    {
        let words = self.words;
        Process {
            comm: text_at(words, b"comm"),
            exe: text_at(words, b"exe"),
            host: text_at(words, b"host"),
            pid: small_at(words, b"pid"),
            tid: small_at(words, b"tid"),
            signal: small_at(words, b"sig"),
            uid: small_at(words, b"uid"),
            gid: small_at(words, b"gid"),
            mode: small_at(words, b"mode"),
            time: large_at(words, b"time").unwrap_or(0),
            limit: large_at(words, b"limit").unwrap_or(0),
        }
    }
}
