// The files of a core in the spool, as the operating system has them. No clause can describe the system, so this file must be read with care. Each
// method makes one call, and notes the facts that are known then.
use crate::outcomes::Outcome;
use crate::settlement::{Spooled, SpooledFacts};
use crate::spool_name::Stage;
use std::fs::File;
use std::io::ErrorKind;
use std::rt::Files;
use std::{fs, io};

/// The paths of a core's files.
#[derive(Clone, Copy)]
pub struct CorePaths<'a> {
    /// The core until it is whole.
    pub part: &'a str,
    /// The core from then on.
    pub whole: &'a str,
    /// Its words.
    pub words: &'a str,
}

/// A core in the spool and its words. Its owner has the lock of the core; or that of the words, if their core is gone.
#[derive(Drop)]
pub struct CoreFiles<'a, R: Files<File = File>> {
    rt: &'a R,
    paths: CorePaths<'a>,
    stage: Stage,
    facts: SpooledFacts,
}

impl<'a, R: Files<File = File>> CoreFiles<'a, R> {
    /// The core at this stage, and its words.
    pub fn new(rt: &'a R, paths: CorePaths<'a>, stage: Stage) -> CoreFiles<'a, R> {
        CoreFiles {
            rt,
            paths,
            stage,
            facts: SpooledFacts {
                outcome: None,
                has_core: true,
                is_sought: false,
                has_words: true,
            },
        }
    }
}

// Whether nothing is under a path.
fn is_free<R: Files<File = File>>(rt: &R, path: &str) -> bool {
    match fs::symlink_metadata(rt, path) {
        Err(error) => error.kind() == ErrorKind::NotFound,
        Ok(_) => false,
    }
}

impl<'a, R: Files<File = File>> Spooled for CoreFiles<'a, R> {
    ghost facts = { λ f. f.facts };

    fn print(&mut self, outcome: Outcome) {
        self.facts.outcome = Some(outcome);
    }

    fn is_core_gone(&mut self) -> bool {
        let is_gone = is_free(self.rt, self.paths.part) && is_free(self.rt, self.paths.whole);
        self.facts.has_core = self.facts.has_core && !is_gone;
        self.facts.is_sought = true;
        is_gone
    }

    fn remove_core(&mut self) -> io::Result<()> {
        let path = match self.stage {
            Stage::Part => self.paths.part,
            Stage::Whole => self.paths.whole,
        };
        let removed = fs::remove_file(self.rt, path);
        self.facts.has_core = self.facts.has_core && removed.is_err();
        removed
    }

    fn remove_words(&mut self) -> io::Result<()> {
        // A core that was stopped early has none, and another flush may have removed them.
        let removed = match fs::remove_file(self.rt, self.paths.words) {
            Err(error) if error.kind() == ErrorKind::NotFound => Ok(()),
            removed => removed,
        };
        self.facts.has_words = self.facts.has_words && removed.is_err();
        removed
    }
}
