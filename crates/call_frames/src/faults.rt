// Why an entry of call frame information is left out, and why no entry is found.
ghost use Rattle.std.specs.Prelude.{◌≡◌};
ghost use Rattle.call_frames.specs.FieldNames as names;

use thiserror::Error;

/// The field at which an entry of call frame information is refused (DWARF 5, 6.4.1; LSB Core, "Exception Frames").
#[derive(Clone, Copy, Debug, PartialEq, Eq)]
pub enum CfiField {
    /// Fewer than four bytes are left for the length, it is that of 64-bit DWARF or reserved, or the entry does not fit in
    /// the section. No entry is looked for after this one.
    Length,
    /// The entry is too short for its CIE_id or CIE_pointer.
    Id,
    /// The version of a CIE is not 1 or 3, nor 4 in `.debug_frame`.
    Version,
    /// The augmentation string has no NUL within 8 bytes, or is neither empty nor `z` and different ones of `R`, `P`, `L`
    /// and `S`.
    Augmentation,
    /// The address_size of a CIE of version 4 is not 8, or its segment_selector_size not 0.
    AddressSize,
    /// The code_alignment_factor is no ULEB128.
    CodeAlign,
    /// The data_alignment_factor is no SLEB128.
    DataAlign,
    /// The return_address_register is not there, or is not 1 to 31.
    ReturnColumn,
    /// The length of the augmentation data is no ULEB128, or they do not fit.
    AugmentationLength,
    /// A part of a CIE's augmentation data does not fit, or is a pointer encoding that is not known.
    Encoding,
    /// The CIE_pointer of an FDE leads to no CIE, or to one with a bad field.
    Cie,
    /// The initial_location of an FDE does not fit.
    PcBegin,
    /// The address_range of an FDE does not fit.
    PcRange,
}

impl CfiField {
    /// Its name, in lower case.
    pub fn name(self) -> &'static str
        ensures { result.now ≡ names.cfi_field_name self }
    {
        match self {
            CfiField::Length => "length",
            CfiField::Id => "id",
            CfiField::Version => "version",
            CfiField::Augmentation => "augmentation",
            CfiField::AddressSize => "address_size",
            CfiField::CodeAlign => "code_align",
            CfiField::DataAlign => "data_align",
            CfiField::ReturnColumn => "return_column",
            CfiField::AugmentationLength => "augmentation_length",
            CfiField::Encoding => "encoding",
            CfiField::Cie => "cie",
            CfiField::PcBegin => "pc_begin",
            CfiField::PcRange => "pc_range",
        }
    }
}

/// The fault of an entry.
#[derive(Clone, Copy, Debug, PartialEq, Eq, Error)]
#[error("{field:?} {index}")]
pub struct CfiFault {
    /// The bad field.
    pub field: CfiField,
    /// The number of the entry in its section, from 0 on.
    pub index: u64,
}

/// Why no entry is found for an address.
#[derive(Clone, Copy, Debug, PartialEq, Eq, Error)]
pub enum NoEntry {
    /// The address is described by no entry.
    #[error("NoEntry")]
    Uncovered,
    /// The address is described by no entry without a fault. This is the first fault of `.eh_frame`, else of `.debug_frame`.
    #[error("{0}")]
    Faulty(CfiFault),
}
