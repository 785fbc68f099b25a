// An executable with its symbols.
ghost use Rattle.std.specs.Prelude.{◌≡◌};
ghost use Rattle.elf_view.specs.ViewWords.{image_of};
ghost use Rattle.symbols.specs.Entry.{functions_of};
ghost use Rattle.symbols.specs.SymbolTable.{entries_of, strings_of};
ghost use Rattle.symbols.specs.SymbolWords.{functions_in, strings_in};

use address_space::Attached;
use elf_view::Elf;
use symbols::Symbols;

/// An executable whose headers and symbols have no fault.
#[derive(Drop)]
pub(crate) struct SymbolizedExecutable<'a> {
    pub executable: Attached<'a>,
    pub elf: Elf<'a>,
    pub symbols: Symbols<'a>,
    ghost image: { image_of elf ≡ executable.image.now },
    ghost functions: { functions_in symbols ≡ functions_of (entries_of (image_of elf)) },
    ghost strings: { strings_in symbols ≡ strings_of (image_of elf) },
}
