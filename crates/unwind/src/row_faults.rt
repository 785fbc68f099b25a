// Why the instructions of an entry make no row.
ghost use Rattle.std.specs.Prelude.{◌≡◌};
ghost use Rattle.unwind.specs.FieldNames as names;

/// Why the first call frame instruction that can't be executed is refused (DWARF 5, 6.4.2).
#[derive(Clone, Copy, PartialEq, Eq)]
pub enum RowField {
    /// The opcode is not known, or is an advance of the location in the program of a CIE.
    Opcode,
    /// An operand or a block does not fit, or is no LEB128.
    Operand,
    /// There are more than 65,536 instructions, those of the CIE counted.
    Instructions,
    /// Eight rows are remembered already.
    RememberState,
    /// No row is remembered.
    RestoreState,
}

impl RowField {
    /// Its name, in lower case.
    pub fn name(self) -> &'static str
        ensures { result.now ≡ names.row_field_name self }
    {
        match self {
            RowField::Opcode => "opcode",
            RowField::Operand => "operand",
            RowField::Instructions => "instructions",
            RowField::RememberState => "remember_state",
            RowField::RestoreState => "restore_state",
        }
    }
}
