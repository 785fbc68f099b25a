// The line tables of a file.
ghost use Rattle.std.specs.Prelude.{◌≡◌};
ghost use Rattle.std.specs.Option.{option_map};
ghost use Rattle.line_tables.specs.Chain.{viewed};
ghost use Rattle.line_tables.specs.Finding as spec;
ghost use Rattle.line_tables.specs.HeaderWords.{header_view};
ghost use Rattle.line_tables.specs.UnitWords.{unit_view, units_left};

use crate::faults::{LineFault, LineField, NoLine};
use crate::files::FilePath;
use crate::forms::Strings;
use crate::header::Header;
use crate::registers::Row;
use crate::units::{Unit, Units};

/// The line tables of an executable or a debug file.
#[derive(Clone, Copy)]
pub struct LineTables<'a> {
    debug_line: &'a [u8],
    strings: Strings<'a>,
}

/// A line of a source file.
#[derive(Clone, Copy)]
pub struct Line<'a> {
    /// The path of the file.
    pub file: FilePath<'a>,
    /// The number of the line, from 1 on.
    pub line: u32,
    /// The place of its line table in `.debug_line`, if the path is in the directory of the compilation and the table does not
    /// have that directory (versions 2 to 4).
    pub table: Option<u64>,
}

/// The row of an address, with the place and the header of its table.
#[derive(Clone, Copy)]
pub(crate) struct Place<'a> {
    table: u64,
    header: Header<'a>,
    row: Row,
}

impl<'a> Place<'a> {
    ghost use Rattle.line_tables.specs.FileWords.{path_view};
    ghost use Rattle.line_tables.specs.FindingWords.{place_view, told};

    /// The place of the line table, if a path of it is in the directory of the compilation and the table does not have that
    /// directory.
    fn relative_to(&self, file: &FilePath<'a>) -> Option<u64>
        ensures { result ≡ spec.relative_to (place_view self.now) (path_view file.now) }
    {
        if self.header.version == 5 || file.is_absolute() {
            return None;
        }
        Some(self.table)
    }

    /// The line of a row.
    #[tactic(auto, unfolding(crate::specs::Finding::line_of))]
    fn line(&self) -> Result<Line<'a>, NoLine>
        ensures { told result ≡ spec.line_of (place_view self.now) }
    {
        if self.row.line == 0 {
            return Err(NoLine::Uncovered);
        }
        match self.header.file_path(self.row.file) {
            Some(file) => Ok(Line {
                file,
                line: self.row.line,
                table: self.relative_to(&file),
            }),
            None => Err(NoLine::Uncovered),
        }
    }
}

impl<'a> Line<'a> {
    ghost use Rattle.line_tables.specs.FindingWords.{line_view};

    /// The line with its path in a directory.
    pub fn within(self, directory: &'a [u8]) -> Line<'a>
        ensures { line_view result ≡ spec.within directory.now (line_view self.entry) }
    {
        let file = FilePath {
            base: directory,
            directory: self.file.directory,
            name: self.file.name,
        };
        Line {
            file,
            line: self.line,
            table: None,
        }
    }
}

impl<'a> LineTables<'a> {
    ghost use Rattle.line_tables.specs.FindingWords.{tables_view, place_view, told};

    /// The line tables in the bytes of the sections `.debug_line`, `.debug_line_str` and `.debug_str`; empty if a file does
    /// not have one of them.
    pub fn new(
        debug_line: &'a [u8],
        debug_line_str: &'a [u8],
        debug_str: &'a [u8],
    ) -> LineTables<'a>
        ensures { tables_view result ≡ spec.tables debug_line.now debug_line_str.now debug_str.now }
    {
        LineTables {
            debug_line,
            strings: Strings {
                debug_line_str,
                debug_str,
            },
        }
    }

    /// The units of `.debug_line`, in order: one line table each.
    pub fn units(&self) -> Units<'a>
        ensures { units_left result ≡ spec.units_of (tables_view self.now) }
    {
        Units::of(self.debug_line)
    }

    /// The header of a unit.
    ///
    /// # Errors
    ///
    /// The first bad field, in the order of the fields.
    pub fn header(&self, unit: &Unit<'a>) -> Result<Header<'a>, LineField>
        ensures { viewed header_view result ≡ spec.header_of (tables_view self.now) (unit_view unit.now) }
    {
        match unit.bytes {
            Some(bytes) => Header::read(&self.strings, self.debug_line.len() as u64, bytes),
            None => Err(LineField::UnitLength),
        }
    }

    /// The row of an address in a unit.
    fn place(&self, unit: &Unit<'a>, address: u64) -> Result<Option<Place<'a>>, LineField>
        ensures { viewed (option_map place_view) result
            ≡ spec.place_in (tables_view self.now) address (unit_view unit.now) }
    {
        let header = self.header(unit)?;
        match header.row_at(address)? {
            Some(row) => Ok(Some(Place {
                table: unit.place,
                header,
                row,
            })),
            None => Ok(None),
        }
    }

    /// The row of an address in a unit that has no fault, or the fault.
    fn looked(&self, unit: &Unit<'a>, address: u64) -> (Option<Place<'a>>, Option<LineFault>)
        ensures place { option_map place_view result.0
            ≡ spec.place_by address (spec.table_in (tables_view self.now) (unit_view unit.now)) }
        ensures fault { result.1 ≡ spec.fault_by unit.now.index (spec.table_in (tables_view self.now) (unit_view unit.now)) }
    {
        match self.place(unit, address) {
            Ok(place) => (place, None),
            Err(field) => {
                let index = unit.index;
                (None, Some(LineFault { field, index }))
            }
        }
    }

    /// The source line of the code at an address. A unit with a fault provides nothing. Of the others, the first sequence that
    /// covers the address has its row. It reads each unit up to that one, and takes no memory.
    ///
    /// # Errors
    ///
    /// - [`NoLine::Faulty`]: no unit without a fault has the address, and this is the first fault.
    /// - [`NoLine::Uncovered`]: no unit has the address, its line is 0, or its file has no name.
    #[tactic(auto, unfolding(crate::specs::Finding::line_at))]
    pub fn line_at(&self, address: u64) -> Result<Line<'a>, NoLine>
        ensures { told result ≡ spec.line_at (tables_view self.now) address }
    {
        let mut fault = None;
        let mut units = self.units();
        while let Some(unit) = units.next() {
            let (place, unit_fault) = self.looked(&unit, address);
            if let Some(place) = place {
                return place.line();
            }
            fault = fault.or(unit_fault);
        }
        match fault {
            Some(fault) => Err(NoLine::Faulty(fault)),
            None => Err(NoLine::Uncovered),
        }
    }
}
