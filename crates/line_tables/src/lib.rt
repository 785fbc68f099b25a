//! Line tables of executables and debug files (DWARF 2 to 5): which line of which source file the code at an address
//! comes from.
#![tactic(auto)]

mod abbreviations;
mod compilations;
mod entries;
mod faults;
mod files;
mod forms;
mod header;
mod info_entries;
mod info_forms;
mod info_laws;
mod instructions;
mod laws;
mod line_tables;
mod lists;
mod registers;
mod rows;
mod sequences;
mod steps;
mod texts;
mod units;

pub use compilations::Compilations;
pub use faults::{LineFault, LineField, NoLine};
pub use files::FilePath;
pub use header::Header;
pub use info_laws::the_attributes_are_those_declared;
pub use laws::{
    a_line_is_in_a_compilation, a_sequence_stands_alone, a_step_crosses,
    the_instructions_are_the_program, the_units_are_the_walk,
};
pub use line_tables::{Line, LineTables};
pub use registers::Row;
pub use rows::Rows;
pub use texts::{first_byte, number, split, text, text_at};
pub use units::{Unit, Units};
