// The names that the files of a core have in the spool.
ghost use Rattle.std.specs.Prelude.{◌≡◌, IfOk, IfSome, string_bytes};
ghost use Rattle.handler_files.specs.Names as spec;

use script_words::parse_number;
use std::alloc::{AllocError, Global};

/// The stage of a core, or of its words: a file has another name until it is whole.
#[derive(Clone, Copy, PartialEq, Eq)]
pub enum Stage {
    /// It is on its way, or was cut on it.
    Part,
    /// It is whole.
    Whole,
}

/// The name of a core in the spool, without its end: `STAMP.PID`.
#[derive(Clone, Copy, PartialEq, Eq)]
pub struct SpoolName {
    /// When it came, in nanoseconds since 1970.
    pub stamp: u64,
    /// The number of its process.
    pub pid: u64,
}

impl SpoolName {
    /// The name of its core once that is whole.
    pub fn core(self, alloc: Global) -> Result<String, AllocError>
        ensures { IfOk result (λ name. string_bytes name ≡ spec.core_name self) }
    {
        format!(in alloc; "{}.{}.core", self.stamp, self.pid)
    }

    /// The name of its core until then.
    pub fn part(self, alloc: Global) -> Result<String, AllocError>
        ensures { IfOk result (λ name. string_bytes name ≡ spec.part_name self) }
    {
        format!(in alloc; "{}.{}.core.part", self.stamp, self.pid)
    }

    /// The name of its words.
    pub fn words(self, alloc: Global) -> Result<String, AllocError>
        ensures { IfOk result (λ name. string_bytes name ≡ spec.words_name self) }
    {
        format!(in alloc; "{}.{}.words", self.stamp, self.pid)
    }

    /// The name of its words until they are whole.
    pub fn words_part(self, alloc: Global) -> Result<String, AllocError>
        ensures { IfOk result (λ name. string_bytes name ≡ spec.words_part_name self) }
    {
        format!(in alloc; "{}.{}.words.part", self.stamp, self.pid)
    }

    /// The core with this file name, and its stage, if a core has the name.
    pub fn read(alloc: Global, name: &str) -> Option<(SpoolName, Stage)>
        ensures { IfSome result (λ found. name.now ≡ spec.name_of found.0 found.1) }
    {
        let found = read_loosely(name, ".core")?;
        let written = written(alloc, found.0, found.1).ok()?;
        if written.as_str() == name {
            Some(found)
        } else {
            None
        }
    }

    /// The core whose words have this file name, and their stage. A
    /// file with any other name is none of the spool's words.
    pub fn read_words(alloc: Global, name: &str) -> Option<(SpoolName, Stage)>
        ensures { IfSome result (λ found. name.now ≡ spec.words_of found.0 found.1) }
    {
        let found = read_loosely(name, ".words")?;
        let written = written_words(alloc, found.0, found.1).ok()?;
        if written.as_str() == name {
            Some(found)
        } else {
            None
        }
    }
}

// The name of a core at this stage.
fn written(alloc: Global, name: SpoolName, stage: Stage) -> Result<String, AllocError>
    ensures { IfOk result (λ text. string_bytes text ≡ spec.name_of name stage) }
{
    match stage {
        Stage::Part => name.part(alloc),
        Stage::Whole => name.core(alloc),
    }
}

// The name of its words at this stage.
fn written_words(alloc: Global, name: SpoolName, stage: Stage) -> Result<String, AllocError>
    ensures { IfOk result (λ text. string_bytes text ≡ spec.words_of name stage) }
{
    match stage {
        Stage::Part => name.words_part(alloc),
        Stage::Whole => name.words(alloc),
    }
}

// The core that may have this file name, whose file has this end once it is whole.
fn read_loosely(name: &str, end: &str) -> Option<(SpoolName, Stage)> {
    let (whole, stage) = match name.strip_suffix(".part") {
        Some(whole) => (whole, Stage::Part),
        None => (name, Stage::Whole),
    };
    let (stamp, pid) = whole.strip_suffix(end)?.split_once('.')?;
    let stamp = parse_number(stamp.as_bytes())?;
    let pid = parse_number(pid.as_bytes())?;
    Some((SpoolName { stamp, pid }, stage))
}
