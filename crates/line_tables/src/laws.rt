// Laws of the definitions that the contracts cite.
ghost use Rattle.std.specs.Prelude.{◌≡◌, ◌∷◌, [], ◌++◌, ℕ, true, List, drop, Some, Ok, Result};
ghost use Rattle.line_tables.specs.Chain.{and_then};
ghost use Rattle.line_tables.specs.Files.{text_of, with_slash};
ghost use Rattle.line_tables.specs.Finding.{TablesView, PlaceView, LineView, table_in, place_by, line_of, line_at, within};
ghost use Rattle.line_tables.specs.Grammar.{IsUnits, ArePlaced, IsProgram, Leads, IsStep, program_rows, rows_by};
ghost use Rattle.line_tables.specs.Header.{MachineView};
ghost use Rattle.line_tables.specs.Instructions.{StepView, steps_in};
ghost use Rattle.line_tables.specs.Sequences.{covers, row_at, sequences_in};
ghost use Rattle.line_tables.specs.Units.{UnitView, framed, unit_of, units_in};
ghost use Rattle.line_tables.specs.declared.faults.LineField as fields;
ghost use Rattle.line_tables.specs.declared.instructions.Instruction.TheVariants.{EndSequence};
ghost use Rattle.line_tables.specs.declared.registers.Row as rows;

/// A sequence that covers an address has a row of it: the first row at or
/// before the address whose next row is after it. This function does nothing.
pub fn a_step_crosses()
    ensures some { (v : ℕ) (s : List rows.Row) → covers v s ≡ true → (r : rows.Row) × (row_at v s ≡ Some r) }
    ensures first { (v : ℕ) (s : List rows.Row) (r : rows.Row) → row_at v s ≡ Some r → IsStep v s r }
{}

/// The rows and the sequences after the end of a sequence are those of the bytes from there on as a program of its own. This function
/// does nothing.
pub fn a_sequence_stands_alone()
    ensures rows { (version : ℕ) (m : MachineView) (bytes : List ℕ) (rest : List ℕ) (steps : List StepView) (last : StepView)
        → Leads version m bytes (steps ++ last ∷ []) rest → last.instruction ≡ EndSequence
        → program_rows version m bytes ≡ rows_by m (steps ++ last ∷ []) ++ program_rows version m rest }
    ensures sequences { (version : ℕ) (m : MachineView) (bytes : List ℕ) (rest : List ℕ) (steps : List StepView) (last : StepView)
        → Leads version m bytes (steps ++ last ∷ []) rest → last.instruction ≡ EndSequence
        → sequences_in (program_rows version m bytes) ≡ and_then (sequences_in (rows_by m (steps ++ last ∷ [])))
        (λ ss. and_then (sequences_in (program_rows version m rest)) (λ ts. Ok (ss ++ ts))) }
{}

/// The instructions of a program follow one another up to its end or to the first
/// with a fault, and there is no other such list. This function does nothing.
pub fn the_instructions_are_the_program()
    ensures program { (version : ℕ) (m : MachineView) (bytes : List ℕ) → IsProgram version m bytes (steps_in version m bytes) }
    ensures only { (version : ℕ) (m : MachineView) (bytes : List ℕ) (steps : List (Result StepView fields.LineField))
        → IsProgram version m bytes steps → steps ≡ steps_in version m bytes }
{}

/// The units of a section follow one another from its first byte on, there is
/// no other such list, and each is at its place. This function does nothing.
pub fn the_units_are_the_walk()
    ensures walk { (bytes : List ℕ) → IsUnits 0 0 bytes (units_in bytes) }
    ensures only { (bytes : List ℕ) (units : List UnitView) → IsUnits 0 0 bytes units → units ≡ units_in bytes }
    ensures places { (bytes : List ℕ) → ArePlaced bytes (units_in bytes) }
{}

/// A line that has the place of a table is that of the unit at that place, and its path in a directory is the directory, `/`, and its
/// path. This function does nothing.
pub fn a_line_is_in_a_compilation()
    ensures table { (t : TablesView) (v : ℕ) (l : LineView) (p : ℕ) → line_at t v ≡ Ok l → l.table ≡ Some p
        → (i : ℕ) × (found : PlaceView) × (place_by v (table_in t (unit_of i p (framed (drop p t.debug_line)))) ≡ Some found)
        × (line_of found ≡ Ok l) }
    ensures path { (t : TablesView) (v : ℕ) (l : LineView) (p : ℕ) (directory : List ℕ) → line_at t v ≡ Ok l → l.table ≡ Some p
        → text_of (within directory l).file ≡ with_slash directory ++ text_of l.file }
{}
