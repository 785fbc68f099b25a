ghost use Rattle.std.specs.Prelude.{◌≡◌};
ghost use Rattle.symbols.specs.FieldNames as names;
ghost use Rattle.symbols.specs.declared.faults.SymbolError.TheVariants as errors;

use std::alloc::AllocError;
use thiserror::Error;

/// The field, by its name in the System V gABI, at which a symbol table is refused.
#[derive(Clone, Copy, Debug, PartialEq, Eq, Error)]
pub enum SymbolField {
    /// There are sections, and e_shentsize is not 64.
    #[error("e_shentsize")]
    EShentsize,
    /// Section header 0, or the table of section headers, is not all in the image.
    #[error("e_shoff")]
    EShoff,
    /// The table's sh_entsize is not 24.
    #[error("sh_entsize")]
    ShEntsize,
    /// The table's sh_size is no multiple of 24.
    #[error("sh_size")]
    ShSize,
    /// The bytes of the table, or of its string table, are not all in the image.
    #[error("sh_offset")]
    ShOffset,
    /// The table's sh_link is the number of no section, or of one that is not SHT_STRTAB.
    #[error("sh_link")]
    ShLink,
    /// There is no NUL at or after the place in the string table where a function's name begins.
    #[error("st_name")]
    StName,
}

impl SymbolField {
    /// Its name in the System V gABI.
    pub fn name(self) -> &'static str
        ensures { result.now ≡ names.symbol_field_name self }
    {
        match self {
            SymbolField::EShentsize => "e_shentsize",
            SymbolField::EShoff => "e_shoff",
            SymbolField::ShEntsize => "sh_entsize",
            SymbolField::ShSize => "sh_size",
            SymbolField::ShOffset => "sh_offset",
            SymbolField::ShLink => "sh_link",
            SymbolField::StName => "st_name",
        }
    }

    /// Whether it is a field of a section header or of a symbol, of which there may be many.
    pub fn has_index(self) -> bool
        ensures { result ≡ names.has_index self }
    {
        !matches!(self, SymbolField::EShentsize | SymbolField::EShoff)
    }
}

/// The first fault of a symbol table.
#[derive(Clone, Copy, Debug, PartialEq, Eq, Error)]
#[error("{field} {index}")]
pub struct SymbolFault {
    /// The bad field.
    pub field: SymbolField,
    /// The number of the section, for `StName` that of the symbol, and for the fields of the header 0.
    pub index: u64,
}

/// Why the symbols of an image can't be read.
#[derive(Clone, Copy, Debug, PartialEq, Eq, Error)]
pub enum SymbolError {
    /// The symbol table has a fault.
    #[error("{0}")]
    Fault(SymbolFault),
    /// There is no memory for the functions.
    #[error("OutOfMemory")]
    OutOfMemory,
}

impl From<SymbolFault> for SymbolError {
    ghost from_gives = { λ f e. e ≡ errors.Fault f };

    fn from(fault: SymbolFault) -> SymbolError {
        SymbolError::Fault(fault)
    }
}

impl From<AllocError> for SymbolError {
    ghost from_gives = { λ f e. e ≡ errors.OutOfMemory };

    fn from(_error: AllocError) -> SymbolError {
        SymbolError::OutOfMemory
    }
}
