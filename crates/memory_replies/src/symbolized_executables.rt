// The executables by whose symbols frames are named.
ghost use Rattle.std.specs.Prelude.{◌≡◌, ◌++◌, ◌∷◌, [], IfOk, None, OnOk, find, map, slice_get};
ghost use Rattle.std.specs.Option.{option_map};
ghost use Rattle.elf_view.specs.Sound.{first_fault};
ghost use Rattle.elf_view.specs.ViewWords.{image_of};
ghost use Rattle.elf_view.specs.declared.faults.Want.TheVariants.{Exec};
ghost use Rattle.address_space.specs.Source.{is_named};
ghost use Rattle.address_space.specs.PathWords.{AreNumbered};
ghost use Rattle.memory_replies.specs.Places as spec;
ghost use Rattle.memory_replies.specs.Memory.{attached_view};
ghost use Rattle.memory_replies.specs.NamedWords.{named_view};

use crate::symbolized_executable::SymbolizedExecutable;
use address_space::{Attached, ByPath};
use elf_view::Elf;
use std::alloc::{AllocError, Global};
use symbols::{SymbolError, Symbols};

/// The executables whose headers and symbols have no fault, in their order, and a table of their paths.
#[derive(Drop)]
pub struct SymbolizedExecutables<'a> {
    pub(crate) list: Vec<SymbolizedExecutable<'a>>,
    pub(crate) paths: ByPath<'a>,
    /// Its numbers are theirs.
    ghost numbered: { AreNumbered paths (map named_view list.items) },
}

/// Reads the symbols of an executable whose headers have no fault. `None` is one whose symbols have a fault; the error is
/// that there is no memory.
fn read_named<'a>(
    alloc: Global,
    executable: Attached<'a>,
    elf: Elf<'a>,
) -> Result<Option<SymbolizedExecutable<'a>>, AllocError>
    requires image { image_of elf ≡ executable.image.now }
    requires sound { None ≡ first_fault Exec executable.image.now }
    ensures { IfOk result (λ found. option_map named_view found ≡ spec.if_known (attached_view executable.entry)) }
{
    match Symbols::read(alloc, &elf) {
        Ok(symbols) => Ok(Some(SymbolizedExecutable {
            executable,
            elf,
            symbols,
        })),
        Err(SymbolError::Fault(_)) => Ok(None),
        Err(SymbolError::OutOfMemory) => Err(AllocError),
    }
}

impl<'a> SymbolizedExecutables<'a> {
    /// None yet.
    pub(crate) fn new(alloc: Global) -> SymbolizedExecutables<'a>
        ensures { map named_view result.list.items ≡ [] }
    {
        SymbolizedExecutables {
            list: Vec::new(alloc),
            paths: ByPath::new(alloc),
        }
    }

    /// Puts one after the others. The error is that there is no memory.
    fn push(&mut self, image: SymbolizedExecutable<'a>) -> Result<(), AllocError>
        ensures { OnOk result (map named_view self.new.list.items
            ≡ map named_view self.old.list.items ++ named_view image.entry ∷ []) }
    {
        self.list.reserve(1)?;
        self.paths.add(image.executable.path, self.list.len())?;
        self.list.push(image).unwrap();
        Ok(())
    }

    /// Adds an executable whose headers have no fault, unless its symbols have one. The error is that there is no memory.
    pub(crate) fn add(
        &mut self,
        alloc: Global,
        executable: Attached<'a>,
        elf: Elf<'a>,
    ) -> Result<(), AllocError>
        requires image { image_of elf ≡ executable.image.now }
        requires sound { None ≡ first_fault Exec executable.image.now }
        ensures { OnOk result (map named_view self.new.list.items
            ≡ map named_view self.old.list.items ++ spec.known_among (attached_view executable.entry ∷ [])) }
    {
        if let Some(image) = read_named(alloc, executable, elf)? {
            self.push(image)?;
        }
        Ok(())
    }

    /// The one of that number.
    fn at(&self, number: usize) -> Option<&SymbolizedExecutable<'a>>
        ensures { option_map (λ image. named_view image.now) result
            ≡ slice_get (map named_view self.now.list.items) number }
    {
        self.list.get(number)
    }

    /// The first executable that is attached for the file of that name.
    pub(crate) fn named(&self, name: &[u8]) -> Option<&SymbolizedExecutable<'a>>
        ensures { option_map (λ image. named_view image.now) result
            ≡ find (is_named name.now) (map named_view self.now.list.items) }
    {
        match self.paths.number(name) {
            Some(number) => self.at(number),
            None => None,
        }
    }
}
