// Executables, or fronts of them, by their names.
ghost use Rattle.std.specs.Prelude.{◌≡◌, ◌++◌, ◌∷◌, [], IfOk, OnOk, find, map, slice_get};
ghost use Rattle.std.specs.Option.{option_map};
ghost use Rattle.address_space.specs.PathWords.{AreNumbered};
ghost use Rattle.address_space.specs.Source.{is_named};
ghost use Rattle.address_space.specs.SpaceWords.{attached_view};

use address_space::{Attached, ByPath};
use std::alloc::{AllocError, Global};

/// Executables in their order, or the bytes of their fronts, and a table of their names.
#[derive(Drop)]
pub(crate) struct Table<'a> {
    pub list: Vec<Attached<'a>>,
    pub paths: ByPath<'a>,
    /// Its numbers are theirs.
    ghost numbered: { AreNumbered paths (map attached_view list.items) },
}

impl<'a> Table<'a> {
    ghost use Rattle.build_replies.specs.TableWords.{is_new, table_rows};

    /// None yet.
    pub(crate) fn new(alloc: Global) -> Table<'a>
        ensures { table_rows result ≡ [] }
    {
        Table {
            list: Vec::new(alloc),
            paths: ByPath::new(alloc),
        }
    }

    /// Puts one after the others. The error is that there is no memory.
    pub(crate) fn push(&mut self, executable: Attached<'a>) -> Result<(), AllocError>
        ensures { OnOk result (table_rows self.new ≡ table_rows self.old ++ attached_view executable.entry ∷ []) }
    {
        self.list.reserve(1)?;
        self.paths.add(executable.path, self.list.len())?;
        self.list.push(executable).unwrap();
        Ok(())
    }

    /// Those of a list. The error is that there is no memory.
    pub(crate) fn of(alloc: Global, executables: &[Attached<'a>]) -> Result<Table<'a>, AllocError>
        ensures { IfOk result (λ table. table_rows table ≡ map attached_view executables.now) }
    {
        let mut table = Table::new(alloc);
        for executable in executables {
            table.push(*executable)?;
        }
        Ok(table)
    }

    /// The one of that number.
    pub(crate) fn at(&self, number: usize) -> Option<Attached<'a>>
        ensures { option_map attached_view result ≡ slice_get (table_rows self.now) number }
    {
        self.list.get(number).copied()
    }

    /// The first of that name.
    pub(crate) fn named(&self, name: &[u8]) -> Option<Attached<'a>>
        ensures { option_map attached_view result ≡ find (is_named name.now) (table_rows self.now) }
    {
        match self.paths.number(name) {
            Some(number) => self.at(number),
            None => None,
        }
    }

    /// Whether none has that name.
    pub(crate) fn is_new(&self, name: &[u8]) -> bool
        ensures { result ≡ is_new (table_rows self.now) name.now }
    {
        self.named(name).is_none()
    }
}
