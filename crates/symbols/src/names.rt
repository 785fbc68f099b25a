// The names of an image's functions by address.
ghost use Rattle.std.specs.Prelude.{◌≡◌, IfOk};
ghost use Rattle.std.specs.List.Sorted.{IsNonDecreasingBy, IsPermutation};
ghost use Rattle.std.specs.Option.{option_map};
ghost use Rattle.elf_view.specs.ViewWords.{image_of};
ghost use Rattle.symbols.specs.Covering as among;
ghost use Rattle.symbols.specs.Entry.{functions_of};
ghost use Rattle.symbols.specs.Reach.{greatest_ends};
ghost use Rattle.symbols.specs.SymbolTable as spec;
ghost use Rattle.symbols.specs.declared.functions.Function as numbers;

use crate::covering::named;
use crate::faults::SymbolError;
use crate::functions::Function;
use crate::sorted::{greatest_ends, sorted};
use crate::tables::symbol_table;
use elf_view::{Elf, part, text_before_nul};
use std::alloc::Global;

/// A function of an image.
#[derive(Clone, Copy, Debug)]
pub struct Symbol<'a> {
    /// Its name, without the NUL.
    pub name: &'a [u8],
    /// st_value: its address in the image.
    pub value: u64,
    /// st_size: how many bytes it has.
    pub size: u64,
}

/// The functions of an image's symbol table, to be found by address.
#[derive(Debug, Drop)]
pub struct Symbols<'a> {
    entries: &'a [u8],
    strings: &'a [u8],
    functions: Vec<Function>,
    ends: Vec<u64>,
    /// They are those of the table.
    ghost whole: { ∥ IsPermutation (functions_of entries.now) functions.items ∥₁ },
    /// They are sorted by value.
    ghost ordered: { IsNonDecreasingBy (λ (f : numbers.Function). f.value) functions.items },
    /// For each, the highest address that one up to it covers.
    ghost reach: { ends.items ≡ greatest_ends 0 functions.items },
}

/// The bytes from a place of the string table on, up to a NUL.
fn name_at(strings: &[u8], place: u32) -> &[u8]
    ensures { result.now ≡ spec.name_at strings.now place }
{
    text_before_nul(part(strings, u64::from(place), strings.len() as u64))
}

impl<'a> Symbols<'a> {
    ghost use Rattle.symbols.specs.SymbolWords.{fault_in, functions_in, strings_in, symbol_view};
    ghost use Rattle.symbols.specs.Names.{symbol_named};

    /// Reads the functions of an image: the symbols of type STT_FUNC with a section, in the first SHT_SYMTAB, else in the
    /// first SHT_DYNSYM. An image without sections, or without such a table, has none. The first fault is answered in
    /// this order: of the section headers e_shentsize, e_shoff; of the table sh_entsize, sh_size, sh_offset, sh_link; of
    /// its string table sh_offset; of each function, in the table's order, st_name. Other symbols are not looked at.
    pub fn read(alloc: Global, elf: &Elf<'a>) -> Result<Symbols<'a>, SymbolError>
        ensures fault { fault_in result ≡ spec.first_fault (image_of elf.now) }
        ensures functions { IfOk result (λ s. functions_in s ≡ functions_of (spec.entries_of (image_of elf.now))) }
        ensures strings { IfOk result (λ s. strings_in s ≡ spec.strings_of (image_of elf.now)) }
    {
        let table = symbol_table(elf)?;
        let functions = sorted(alloc, table.entries)?;
        let ends = greatest_ends(alloc, &functions)?;
        Ok(Symbols {
            entries: table.entries,
            strings: table.strings,
            functions,
            ends,
        })
    }

    /// The function that gives an address its name.
    fn covering(&self, address: u64) -> Option<Function>
        ensures { result ≡ among.named address (functions_in self.now) }
    {
        named(&self.functions, &self.ends, address)
    }

    /// The function that covers an address of the image: its value is the address, or the address is one of the `size`
    /// from there on. If several do, it is the one with the highest value, then by binding (GLOBAL, WEAK, LOCAL, others),
    /// then the first in the table.
    pub fn lookup(&self, address: u64) -> Option<Symbol<'a>>
        ensures { option_map symbol_view result
            ≡ symbol_named (strings_in self.now) (functions_in self.now) address }
    {
        let function = self.covering(address)?;
        Some(Symbol {
            name: name_at(self.strings, function.name),
            value: function.value,
            size: function.size,
        })
    }
}
