//! The cases of an archive, as a prune sees them.
ghost use Rattle.std.specs.Prelude.{◌≡◌, IfOk, map};
ghost use Rattle.std.specs.List.{filter};
ghost use Rattle.pruning.specs.Cases as spec;

use retention::Brief;
use std::alloc::{AllocError, Global};

/// A file that a core maps.
#[derive(Clone, Copy)]
pub struct MappedFile<'a> {
    /// Its name in the core's NT_FILE (core(5)).
    pub name: &'a [u8],
    /// The build ID that the core gives for it, if it gives one.
    pub told: Option<&'a [u8]>,
    /// The build ID of the executable that is used for it, if there is one and it has one.
    pub used: Option<&'a [u8]>,
}

/// The content of a case.
#[derive(Clone, Copy)]
pub enum Content<'t, 'a> {
    /// A core, which maps these files. One whose headers or notes have a fault, or that has no NT_FILE, maps none.
    Core(&'t [MappedFile<'a>]),
    /// An executable, or a debug file.
    Executable,
}

/// A case of an archive.
#[derive(Clone, Copy)]
pub struct LiveCase<'t, 'a> {
    /// Its name.
    pub name: &'a [u8],
    /// Its number, time and length, and whether it is pinned.
    pub brief: Brief,
    /// Its content.
    pub content: Content<'t, 'a>,
}

impl<'t, 'a> LiveCase<'t, 'a> {
    /// Whether it is a core.
    pub(crate) fn is_core(&self) -> bool
        ensures { result ≡ spec.is_core self.now }
    {
        match self.content {
            Content::Core(_) => true,
            Content::Executable => false,
        }
    }

    /// The files that it maps: none, if it is no core.
    pub(crate) fn mapped(&self) -> &'t [MappedFile<'a>]
        ensures { result.now ≡ spec.mapped_by self.now }
    {
        match self.content {
            Content::Core(files) => files,
            Content::Executable => &[],
        }
    }
}

/// The cores among these cases, as the retention rule sees them. The error is that there is no memory.
pub(crate) fn core_briefs(
    alloc: Global,
    cases: &[LiveCase<'_, '_>],
) -> Result<Vec<Brief>, AllocError>
    ensures { IfOk result (λ briefs. briefs.items ≡ spec.core_briefs cases.now) }
{
    cases
        .iter()
        .filter(|case| case.is_core())
        .map(|case| case.brief)
        .collect(alloc)
}
