// The executables that are attached.
ghost use Rattle.std.specs.Prelude.{◌≡◌, map};
ghost use Rattle.address_space.specs.AttachedWords.{attached_view};
ghost use Rattle.address_space.specs.PathWords.{AreNumbered};

use crate::by_path::ByPath;
use std::alloc::{AllocError, Global};

/// An executable, lent, that is attached for the mapped file of that path.
#[derive(Clone, Copy, Debug)]
pub struct Attached<'a> {
    /// The path.
    pub path: &'a [u8],
    /// The executable's bytes.
    pub image: &'a [u8],
}

/// Those that are attached, in their order, and a table of their paths.
#[derive(Drop)]
pub(crate) struct Executables<'a> {
    pub(crate) list: Vec<Attached<'a>>,
    pub(crate) paths: ByPath<'a>,
    /// Its numbers are theirs.
    ghost numbered: { AreNumbered paths (map attached_view list.items) },
}

impl<'a> Executables<'a> {
    ghost use Rattle.std.specs.Prelude.{◌++◌, ◌∷◌, [], OnOk, OnErr, find, slice_get, true};
    ghost use Rattle.std.specs.Option.{option_map};
    ghost use Rattle.address_space.specs.Source.{is_named};

    /// None yet.
    pub(crate) fn new(alloc: Global) -> Executables<'a>
        ensures { map attached_view result.list.items ≡ [] }
    {
        Executables {
            list: Vec::new(alloc),
            paths: ByPath::new(alloc),
        }
    }

    /// Whether it is empty.
    pub(crate) fn is_empty(&self) -> bool
        ensures { result ≡ true → map attached_view self.now.list.items ≡ [] }
    {
        self.list.as_slice().is_empty()
    }

    /// Appends an executable. If there is no memory the list stays as it is.
    pub(crate) fn push(&mut self, executable: Attached<'a>) -> Result<(), AllocError>
        ensures ok { OnOk result (map attached_view self.new.list.items
            ≡ map attached_view self.old.list.items ++ attached_view executable.entry ∷ []) }
        ensures err { OnErr result (map attached_view self.new.list.items ≡ map attached_view self.old.list.items) }
    {
        self.list.reserve(1)?;
        self.paths.add(executable.path, self.list.len())?;
        self.list.push(executable).unwrap();
        Ok(())
    }

    /// The one of that number.
    fn at(&self, number: usize) -> Option<Attached<'a>>
        ensures { option_map attached_view result ≡ slice_get (map attached_view self.now.list.items) number }
    {
        self.list.get(number).copied()
    }

    /// The first of that path.
    pub(crate) fn named(&self, path: &[u8]) -> Option<Attached<'a>>
        ensures { option_map attached_view result ≡ find (is_named path.now) (map attached_view self.now.list.items) }
    {
        match self.paths.number(path) {
            Some(number) => self.at(number),
            None => None,
        }
    }
}
