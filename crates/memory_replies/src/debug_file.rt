// The debug file of an executable.
ghost use Rattle.std.specs.Prelude.{◌≡◌, IfOk};
ghost use Rattle.std.specs.Option.{option_map};
ghost use Rattle.elf_view.specs.ViewWords.{image_of};
ghost use Rattle.symbols.specs.SymbolWords.{symbol_view};
ghost use Rattle.memory_replies.specs.Naming as spec;

use crate::functions::{Functions, has_symbol_table};
use address_space::Attached;
use elf_view::{Elf, Want};
use std::alloc::{AllocError, Global};
use symbols::Symbol;

/// A debug file. It names by its complete symbol table alone, if that has no fault.
#[derive(Drop)]
pub(crate) struct DebugFile<'a> {
    pub file: Attached<'a>,
    pub functions: Option<Functions<'a>>,
    ghost own: { option_map (λ f. image_of f.elf) functions ≡ spec.naming_debug file.image.now },
}

/// The functions of a debug file: none, if it has no complete symbol table, or its headers have a fault. The error is that there is
/// no memory.
pub(crate) fn debug_functions<'a>(
    alloc: Global,
    image: &'a [u8],
) -> Result<Option<Functions<'a>>, AllocError>
    ensures { IfOk result (λ found. option_map (λ f. image_of f.elf) found ≡ spec.naming_debug image.now) }
{
    let Ok(elf) = Elf::read(image, Want::Exec) else {
        return Ok(None);
    };
    if !has_symbol_table(&elf) {
        return Ok(None);
    }
    Ok(Some(Functions::read(alloc, elf)?))
}

impl<'a> DebugFile<'a> {
    /// Reads its functions. The error is that there is no memory.
    pub(crate) fn read(alloc: Global, file: Attached<'a>) -> Result<DebugFile<'a>, AllocError>
        ensures { IfOk result (λ d. d.file ≡ file.entry) }
    {
        let functions = debug_functions(alloc, file.image)?;
        Ok(DebugFile { file, functions })
    }

    /// The function that covers an address.
    pub(crate) fn at(&self, address: u64) -> Option<Symbol<'a>>
        ensures { option_map symbol_view result ≡ spec.debug_symbol address self.now.file.image.now }
    {
        match &self.functions {
            Some(functions) => functions.at(address),
            None => None,
        }
    }
}
