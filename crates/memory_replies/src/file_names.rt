// The names of a core's mapped files.
ghost use Rattle.std.specs.Prelude.{◌≡◌, ℕ, List, IfOk};
ghost use Rattle.std.specs.List.{list_any};
ghost use Rattle.core_notes.specs.FileList.{files_of};
ghost use Rattle.core_notes.specs.FileWords.{files_bytes};
ghost use Rattle.image_replies.specs.CoreWords.{core_bytes};
ghost use Rattle.memory_replies.specs.Memory as spec;

use core_notes::Files;
use image_replies::CoreImage;
use std::alloc::{AllocError, Global};
use std::collections::BTreeSet;

/// The names that a core's NT_FILE has, looked up in logarithmic time.
#[derive(Drop)]
pub struct FileNames<'a> {
    pub(crate) names: BTreeSet<&'a [u8]>,
}

impl<'a> FileNames<'a> {
    ghost use Rattle.memory_replies.specs.FileNameWords.{AreNamesOf, is_among};

    /// Those of an NT_FILE.
    fn listed(alloc: Global, files: &Files<'a>) -> Result<FileNames<'a>, AllocError>
        ensures { IfOk result (λ names. (name : List ℕ)
            → is_among names name ≡ list_any (spec.has_name name) (files_of (files_bytes files.now))) }
    {
        let mut names = BTreeSet::new(alloc);
        for map in files.maps() {
            names.insert(map.name)?;
        }
        Ok(FileNames { names })
    }

    /// Those of a core. The error is that there is no memory for them.
    pub fn of(alloc: Global, core: &CoreImage<'a>) -> Result<FileNames<'a>, AllocError>
        ensures { IfOk result (AreNamesOf (core_bytes core.now)) }
    {
        match core.notes().files() {
            Some(files) => FileNames::listed(alloc, &files),
            None => Ok(FileNames {
                names: BTreeSet::new(alloc),
            }),
        }
    }

    /// Whether one of the mapped files has that name.
    pub fn contains(&self, name: &[u8]) -> bool
        ensures { result ≡ is_among self.now name.now }
    {
        self.names.contains(name)
    }
}
