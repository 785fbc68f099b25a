//! The builds and names that the cores that stay need.
ghost use Rattle.std.specs.Prelude.{◌≡◌, ◌||◌, false, ℕ, List, IfOk, OnOk, not, ◌&&◌};
ghost use Rattle.std.specs.List.{list_any};
ghost use Rattle.std.specs.List.Sorted.{IsStrictlyIncreasing};
ghost use Rattle.pruning.specs.Cases as spec;

use crate::cases::{LiveCase, MappedFile};
use std::alloc::{AllocError, Global};
use std::collections::BTreeSet;

/// The build IDs that the cores that stay need, and the names of the files that they map, looked up in logarithmic time.
#[derive(Drop)]
pub(crate) struct Kept<'a> {
    pub ids: BTreeSet<&'a [u8]>,
    pub names: BTreeSet<&'a [u8]>,
}

impl<'a> Kept<'a> {
    ghost use Rattle.pruning.specs.KeptWords.{has_id, has_name, Keeps};

    /// Those of no core.
    fn new(alloc: Global) -> Kept<'a>
        ensures ids { (id : List ℕ) → has_id result id ≡ false }
        ensures names { (name : List ℕ) → has_name result name ≡ false }
    {
        Kept {
            ids: BTreeSet::new(alloc),
            names: BTreeSet::new(alloc),
        }
    }

    /// One build ID more, if there is one.
    fn add_id(&mut self, id: Option<&'a [u8]>) -> Result<(), AllocError>
        ensures ids { OnOk result ((other : List ℕ) → has_id self.new other ≡ (has_id self.old other || spec.is_id other id.entry)) }
        ensures names { OnOk result ((name : List ℕ) → has_name self.new name ≡ has_name self.old name) }
    {
        if let Some(id) = id {
            self.ids.insert(id)?;
        }
        Ok(())
    }

    /// Adds the builds and names that one mapped file needs.
    fn add_file(&mut self, file: &MappedFile<'a>) -> Result<(), AllocError>
        ensures ids { OnOk result ((id : List ℕ) → has_id self.new id ≡ (has_id self.old id || spec.needs_id id file.now)) }
        ensures names { OnOk result ((name : List ℕ) → has_name self.new name ≡ (has_name self.old name || spec.is_named name file.now)) }
    {
        self.add_id(file.told)?;
        self.add_id(file.used)?;
        self.names.insert(file.name)?;
        Ok(())
    }

    /// Adds the builds and names that the files of one core need.
    fn add_files(&mut self, files: &[MappedFile<'a>]) -> Result<(), AllocError>
        ensures ids { OnOk result ((id : List ℕ) → has_id self.new id ≡ (has_id self.old id || list_any (spec.needs_id id) files.now)) }
        ensures names { OnOk result ((name : List ℕ) → has_name self.new name ≡ (has_name self.old name || list_any (spec.is_named name) files.now)) }
    {
        for file in files {
            self.add_file(file)?;
        }
        Ok(())
    }

    /// The builds and names that the cores need, except those of these
    /// numbers, which rise. The only error is that there is no memory.
    pub(crate) fn of(
        alloc: Global,
        cases: &[LiveCase<'_, 'a>],
        gone: &[u32],
    ) -> Result<Kept<'a>, AllocError>
        requires { IsStrictlyIncreasing gone.now }
        ensures { IfOk result (λ kept. Keeps kept (spec.cores_that_stay gone.now cases.now)) }
    {
        let mut kept = Kept::new(alloc);
        for case in cases {
            if stays(case, gone) {
                kept.add_files(case.mapped())?;
            }
        }
        Ok(kept)
    }

    /// Whether one of them needs that build ID.
    pub(crate) fn has_id(&self, id: &[u8]) -> bool
        ensures { result ≡ has_id self.now id.now }
    {
        self.ids.contains(id)
    }

    /// Whether one of them maps a file of that name.
    pub(crate) fn has_name(&self, name: &[u8]) -> bool
        ensures { result ≡ has_name self.now name.now }
    {
        self.names.contains(name)
    }
}

/// Whether this is a core that is not among those of these numbers, which rise.
fn stays(case: &LiveCase<'_, '_>, gone: &[u32]) -> bool
    requires { IsStrictlyIncreasing gone.now }
    ensures { result ≡ spec.stays gone.now case.now }
{
    case.is_core() && gone.binary_search(&case.brief.seq).is_err()
}
