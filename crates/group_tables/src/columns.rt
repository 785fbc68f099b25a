//! Texts in columns.
ghost use Rattle.std.specs.Prelude.{◌≡◌, map};
ghost use Rattle.script_streams.specs.Replies.{PrintsText, printing};
ghost use Rattle.group_tables.specs.Columns as spec;
ghost use Rattle.group_tables.specs.Columns.{texts};

use case_tables::print_spaces;
use script_streams::{Output, Reply};

// The alignment of the texts of a column.
#[derive(Clone, Copy)]
pub(crate) enum Side {
    Left,
    Right,
    // At the end of the row: nothing follows them.
    End,
}

// A column: which text of a row it has, how that is aligned, and how wide the column is.
#[derive(Clone, Copy)]
pub(crate) struct Column {
    at: usize,
    side: Side,
    width: usize,
}

// The column of these texts, which is as wide as the widest of them.
pub(crate) fn column_of(at: usize, side: Side, rows: &[Vec<Vec<u8>>]) -> Column
    ensures { result ≡ spec.column_of at side (map texts rows.now) }
{
    let mut width = 0;
    for row in rows {
        width = width.max(text_at(row, at).len());
    }
    Column { at, side, width }
}

// A text of a row.
fn text_at(row: &Vec<Vec<u8>>, at: usize) -> &[u8]
    ensures { result.now ≡ spec.text_at at (texts row.now) }
{
    match row.as_slice().get(at) {
        Some(text) => text,
        None => b"",
    }
}

// Prints rows, each text in its column.
pub(crate) fn print_rows<O: Output>(
    reply: &mut Reply<'_, O>,
    columns: &[Column],
    rows: &[Vec<Vec<u8>>],
)
    ensures { PrintsText (printing O.Output reply.old reply.new) (spec.rows_text columns.now (map texts rows.now)) }
{
    for row in rows {
        print_row(reply, columns, row);
    }
}

fn print_row<O: Output>(reply: &mut Reply<'_, O>, columns: &[Column], row: &Vec<Vec<u8>>)
    ensures { PrintsText (printing O.Output reply.old reply.new) (spec.row_text columns.now (texts row.now)) }
{
    for column in columns {
        print_placed(reply, *column, text_at(row, column.at));
    }
    reply.print(b"\n");
}

fn print_placed<O: Output>(reply: &mut Reply<'_, O>, column: Column, text: &[u8])
    ensures { PrintsText (printing O.Output reply.old reply.new) (spec.by_side column.side column.width text.now) }
{
    let left = column.width.saturating_sub(text.len());
    match column.side {
        Side::Left => {
            reply.print(text);
            print_spaces(reply, left);
            reply.print(b"  ");
        }
        Side::Right => {
            print_spaces(reply, left);
            reply.print(text);
            reply.print(b"  ");
        }
        Side::End => reply.print(text),
    }
}
