// The sequences of a line number table, and the row of an address.
ghost use Rattle.std.specs.Prelude.{◌≡◌, ◌∷◌, Ok};
ghost use Rattle.line_tables.specs.Chain.{viewed};
ghost use Rattle.line_tables.specs.Cutting as cutting;
ghost use Rattle.line_tables.specs.HeaderWords.{header_view};
ghost use Rattle.line_tables.specs.RowWords.{rows_left};
ghost use Rattle.line_tables.specs.Rows.{rows_of};
ghost use Rattle.line_tables.specs.Sequences as spec;

use crate::faults::LineField;
use crate::header::Header;
use crate::registers::Row;
use crate::rows::Rows;

/// Whether a sequence covers an address, and its code was linked.
fn spans(address: u64, first: u64, last: u64) -> bool
    ensures { result ≡ spec.spans address first last }
{
    first != 0 && first <= address && address < last
}

/// The row of an address so far, once one row more is read.
fn crossed(address: u64, found: Option<Row>, last: Row, row: Row) -> Option<Row>
    ensures { result ≡ cutting.crossed address found last row }
{
    if found.is_some() {
        return found;
    }
    if last.address <= address && address < row.address {
        Some(last)
    } else {
        None
    }
}

/// Reads the rest of a sequence, of which the first row is read, and gives the row of an address if the sequence covers it.
fn rest_of_sequence(rows: &mut Rows<'_>, first: Row, address: u64) -> Result<Option<Row>, LineField>
    ensures { viewed (λ row. (row, rows_left rows.new)) result ≡ cutting.cut address (Ok first ∷ rows_left rows.old) }
{
    let mut last = first;
    let mut found = None;
    while !last.end_sequence {
        let Some(row) = rows.next() else {
            return Err(LineField::EndSequence);
        };
        let row = row?;
        found = crossed(address, found, last, row);
        last = row;
    }
    if spans(address, first.address, last.address) {
        Ok(found)
    } else {
        Ok(None)
    }
}

impl<'a> Header<'a> {
    /// The row of an address: of the first sequence that covers it, the first row at or before it whose next row is after it.
    /// A sequence whose first address is 0 does not count. It takes no memory.
    ///
    /// # Errors
    ///
    /// The first bad field in the program.
    pub fn row_at(&self, address: u64) -> Result<Option<Row>, LineField>
        ensures { result ≡ spec.row_in address (rows_of (header_view self.now)) }
    {
        let mut rows = self.rows();
        let mut found = None;
        while let Some(first) = rows.next() {
            let row = rest_of_sequence(&mut rows, first?, address)?;
            found = found.or(row);
        }
        Ok(found)
    }
}
