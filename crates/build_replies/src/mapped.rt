// The mapped files of a core.
ghost use Rattle.std.specs.Prelude.{◌≡◌, ◌<◌, IfOk, Some, length, slice_get};
ghost use Rattle.core_notes.specs.FileList.{files_of};
ghost use Rattle.core_notes.specs.FileWords.{files_bytes};
ghost use Rattle.image_replies.specs.CoreWords.{core_bytes};
ghost use Rattle.build_replies.specs.Mapped.{HasFiles, IsFoundOf, IsIdPlace, names_of};
ghost use Rattle.build_replies.specs.PlaceWords.{EndsWithin};

use crate::names::names;
use crate::places::{FrontPlace, FrontPlaces};
use crate::table::Table;
use core_notes::Files;
use image_replies::CoreImage;
use memory_replies::space_with;
use std::alloc::{AllocError, Global};

/// The names of a core's mapped files, each once, and the places of their fronts in its image.
#[derive(Drop)]
pub struct MappedFiles<'a> {
    pub(crate) names: Table<'a>,
    pub(crate) fronts: FrontPlaces<'a>,
}

impl<'a> MappedFiles<'a> {
    /// These files.
    fn of_files(
        alloc: Global,
        core: &CoreImage<'a>,
        size: u64,
        files: &Files<'a>,
    ) -> Result<MappedFiles<'a>, AllocError>
        ensures { IfOk result (HasFiles (core_bytes core.now) size (files_of (files_bytes files.now))) }
    {
        // No executable is attached: only the core's own bytes are wanted.
        let space = space_with(alloc, core, &[])?;
        Ok(MappedFiles {
            names: names(alloc, files)?,
            fronts: FrontPlaces::of(alloc, &space, size, files)?,
        })
    }

    /// Those of a core. `None` is a core without NT_FILE. The core may be the first bytes alone of an image of `size` bytes. The error is
    /// that there is no memory.
    pub fn of(
        alloc: Global,
        core: &CoreImage<'a>,
        size: u64,
    ) -> Result<Option<MappedFiles<'a>>, AllocError>
        ensures { IfOk result (IsFoundOf (core_bytes core.now) size) }
    {
        let Some(files) = core.notes().files() else {
            return Ok(None);
        };
        let mapped = MappedFiles::of_files(alloc, core, size, &files)?;
        Ok(Some(mapped))
    }

    /// How many names there are.
    pub fn count(&self) -> usize
        ensures { result ≡ length (names_of self.now) }
    {
        self.names.list.len()
    }

    /// The place in the core's image of the front that counts for name `i`, in the order of NT_FILE. Without a front it has no bytes.
    #[tactic(auto, using(crate::proofs::PlaceLemmas::row_at))]
    pub fn front(&self, i: usize) -> FrontPlace<'a>
        requires { i < length (names_of self.now) }
        ensures name { slice_get (names_of self.now) i ≡ Some result.path.now }
        ensures id { IsIdPlace self.now result }
        ensures within { EndsWithin self.now.fronts.size result }
    {
        match self.names.at(i) {
            Some(named) => self.fronts.front(named.path),
            None => unreachable!(),
        }
    }
}
