// The functions of a file.
ghost use Rattle.std.specs.Prelude.{◌≡◌, ◌<◌, IfOk, None};
ghost use Rattle.std.specs.Option.{option_map};
ghost use Rattle.elf_view.specs.Sound.{first_fault};
ghost use Rattle.elf_view.specs.ViewWords.{image_of};
ghost use Rattle.elf_view.specs.declared.faults.Want.TheVariants.{Exec};
ghost use Rattle.symbols.specs.SymbolTable as table;
ghost use Rattle.symbols.specs.SymbolWords.{functions_in, strings_in, symbol_view};
ghost use Rattle.memory_replies.specs.Naming as spec;
ghost use Rattle.memory_replies.specs.OwnSymbols.{own_functions, own_strings};

use elf_view::Elf;
use std::alloc::{AllocError, Global};
use symbols::{Symbol, SymbolError, Symbols};

/// The type of a section that holds a complete symbol table.
const SHT_SYMTAB: u32 = 2;

/// The functions of a file whose headers have no fault: none, if its symbols have one.
#[derive(Drop)]
pub(crate) struct Functions<'a> {
    pub elf: Elf<'a>,
    pub symbols: Option<Symbols<'a>>,
    ghost functions: { option_map functions_in symbols ≡ own_functions (image_of elf) },
    ghost strings: { option_map strings_in symbols ≡ own_strings (image_of elf) },
}

impl<'a> Functions<'a> {
    /// Reads them. The error is that there is no memory.
    pub(crate) fn read(alloc: Global, elf: Elf<'a>) -> Result<Functions<'a>, AllocError>
        requires { None ≡ first_fault Exec (image_of elf) }
        ensures { IfOk result (λ f. f.elf ≡ elf.entry) }
    {
        match Symbols::read(alloc, &elf) {
            Ok(symbols) => Ok(Functions {
                elf,
                symbols: Some(symbols),
            }),
            Err(SymbolError::Fault(_)) => Ok(Functions { elf, symbols: None }),
            Err(SymbolError::OutOfMemory) => Err(AllocError),
        }
    }

    /// The one that covers an address.
    pub(crate) fn at(&self, address: u64) -> Option<Symbol<'a>>
        ensures { option_map symbol_view result ≡ spec.own_symbol (image_of self.now.elf) address }
    {
        match &self.symbols {
            Some(symbols) => symbols.lookup(address),
            None => None,
        }
    }
}

/// How many sections a file has; none, if the section headers have a fault.
fn section_count(elf: &Elf<'_>) -> u64
    ensures { result ≡ table.count_of_sections (image_of elf.now) }
{
    elf.section_count().unwrap_or(0)
}

/// The type of section `i`.
fn kind_of(elf: &Elf<'_>, i: u64) -> u32
    requires { i < table.count_of_sections (image_of elf.now) }
    ensures { result ≡ (table.section_at (image_of elf.now) i).kind }
{
    match elf.section(i) {
        Ok(section) => section.kind,
        Err(_) => unreachable!(),
    }
}

/// Whether a file has a complete symbol table.
pub(crate) fn has_symbol_table(elf: &Elf<'_>) -> bool
    ensures { result ≡ spec.has_symbol_table (image_of elf.now) }
{
    for i in 0..section_count(elf) {
        if kind_of(elf, i) == SHT_SYMTAB {
            return true;
        }
    }
    false
}
