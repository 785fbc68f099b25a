// The paths of a core's files in the spool.
use handler_files::{CorePaths, SpoolName, Stage};
use std::alloc::{AllocError, Global};

// The paths of a core's files.
#[derive(Drop)]
pub(crate) struct SpoolPaths {
    // The core, once it is whole.
    pub(crate) core: String,
    // The core until then.
    pub(crate) part: String,
    // Its words, once they are whole.
    pub(crate) words: String,
    // Its words until then.
    pub(crate) words_part: String,
}

impl SpoolPaths {
    // Those of a core that has this name in a directory.
    pub(crate) fn of(
        alloc: Global,
        folder: &str,
        name: SpoolName,
    ) -> Result<SpoolPaths, AllocError> {
        let core = name.core(alloc)?;
        let part = name.part(alloc)?;
        let words = name.words(alloc)?;
        let words_part = name.words_part(alloc)?;
        Ok(SpoolPaths {
            core: path_in(alloc, folder, core.as_str())?,
            part: path_in(alloc, folder, part.as_str())?,
            words: path_in(alloc, folder, words.as_str())?,
            words_part: path_in(alloc, folder, words_part.as_str())?,
        })
    }

    // That of the core at this stage.
    pub(crate) fn at(&self, stage: Stage) -> &str {
        match stage {
            Stage::Part => self.part.as_str(),
            Stage::Whole => self.core.as_str(),
        }
    }

    // The paths of the core, and of its words at this stage.
    pub(crate) fn with_words(&self, stage: Stage) -> CorePaths<'_> {
        CorePaths {
            part: self.part.as_str(),
            whole: self.core.as_str(),
            words: match stage {
                Stage::Part => self.words_part.as_str(),
                Stage::Whole => self.words.as_str(),
            },
        }
    }
}

// The path of a file in a directory.
pub(crate) fn path_in(alloc: Global, folder: &str, name: &str) -> Result<String, AllocError> {
    let mut path = String::from_str(alloc, folder)?;
    path.push_str("/")?;
    path.push_str(name)?;
    Ok(path)
}
