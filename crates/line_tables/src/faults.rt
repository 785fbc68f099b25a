// Why a line table provides nothing, and why no line is found.
ghost use Rattle.std.specs.Prelude.{◌≡◌};
ghost use Rattle.line_tables.specs.FieldNames as names;

use thiserror::Error;

/// The field at which a line table is refused (DWARF 5, 6.2.4 and 6.2.5; versions 2 to 4: DWARF 4, 6.2.4 and 6.2.5). A field that does not
/// fit, or is not a LEB128 number where one must be, is refused by its own name.
#[derive(Clone, Copy, Debug, PartialEq, Eq)]
pub enum LineField {
    /// Fewer than four bytes are left, the length is that of 64-bit DWARF or reserved, or the table does not fit in the
    /// section. No table is looked for after this one.
    UnitLength,
    /// The version is not 2 to 5.
    Version,
    /// The address_size of version 5 is not 8.
    AddressSize,
    /// The segment_selector_size of version 5 is not 0.
    SegmentSelectorSize,
    /// The header goes past the table.
    HeaderLength,
    /// The minimum_instruction_length does not fit.
    MinimumInstructionLength,
    /// The maximum_operations_per_instruction of version 4 or 5 is not 1.
    MaximumOperationsPerInstruction,
    /// The default_is_stmt does not fit.
    DefaultIsStmt,
    /// The line_base does not fit.
    LineBase,
    /// The line_range is 0.
    LineRange,
    /// The opcode_base is 0.
    OpcodeBase,
    /// The standard_opcode_lengths do not fit.
    StandardOpcodeLengths,
    /// The include_directories of versions 2 to 4 do not end.
    IncludeDirectories,
    /// The directory_entry_format_count of version 5 does not fit.
    DirectoryEntryFormatCount,
    /// The directory_entry_format has an unknown form, or one that its content type must not have.
    DirectoryEntryFormat,
    /// There are directories and no format for them, or more than the section has bytes.
    DirectoriesCount,
    /// A directory does not fit, or its text is not in its section.
    Directories,
    /// The file_name_entry_format_count of version 5 does not fit.
    FileNameEntryFormatCount,
    /// The file_name_entry_format has an unknown form, or one that its content type must not have.
    FileNameEntryFormat,
    /// There are file names and no format for them, or more than the section has bytes.
    FileNamesCount,
    /// A file name does not fit, or its text is not in its section; in versions 2 to 4, the file names do not end.
    FileNames,
    /// The length of an extended opcode is 0, or goes past the table.
    Length,
    /// The length of DW_LNE_set_address is not 9.
    SetAddress,
    /// An operand does not fit.
    Operand,
    /// The last sequence has no end.
    EndSequence,
}

impl LineField {
    /// Its name in the standard.
    pub fn name(self) -> &'static str
        ensures { result.now ≡ names.line_field_name self }
    {
        match self {
            LineField::UnitLength => "unit_length",
            LineField::Version => "version",
            LineField::AddressSize => "address_size",
            LineField::SegmentSelectorSize => "segment_selector_size",
            LineField::HeaderLength => "header_length",
            LineField::MinimumInstructionLength => "minimum_instruction_length",
            LineField::MaximumOperationsPerInstruction => "maximum_operations_per_instruction",
            LineField::DefaultIsStmt => "default_is_stmt",
            LineField::LineBase => "line_base",
            LineField::LineRange => "line_range",
            LineField::OpcodeBase => "opcode_base",
            LineField::StandardOpcodeLengths => "standard_opcode_lengths",
            LineField::IncludeDirectories => "include_directories",
            LineField::DirectoryEntryFormatCount => "directory_entry_format_count",
            LineField::DirectoryEntryFormat => "directory_entry_format",
            LineField::DirectoriesCount => "directories_count",
            LineField::Directories => "directories",
            LineField::FileNameEntryFormatCount => "file_name_entry_format_count",
            LineField::FileNameEntryFormat => "file_name_entry_format",
            LineField::FileNamesCount => "file_names_count",
            LineField::FileNames => "file_names",
            LineField::Length => "length",
            LineField::SetAddress => "set_address",
            LineField::Operand => "operand",
            LineField::EndSequence => "end_sequence",
        }
    }
}

/// The fault of a unit of `.debug_line`.
#[derive(Clone, Copy, Debug, PartialEq, Eq, Error)]
#[error("{field:?} {index}")]
pub struct LineFault {
    /// The bad field.
    pub field: LineField,
    /// The number of the unit in its section, from 0 on.
    pub index: u64,
}

/// Why no source line is found for an address.
#[derive(Clone, Copy, Debug, PartialEq, Eq, Error)]
pub enum NoLine {
    /// No unit has the address, its line is 0, or its file has no name.
    #[error("NoLine")]
    Uncovered,
    /// No unit without a fault has the address. This is the first fault.
    #[error("{0}")]
    Faulty(LineFault),
}
