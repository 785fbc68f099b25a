// The cases of an archive as a table for people.
ghost use Rattle.std.specs.Prelude.{◌≡◌, map};
ghost use Rattle.std.specs.List.{flat_map};
ghost use Rattle.journal_layout.specs.Case.{case_of};
ghost use Rattle.script_streams.specs.Replies.{PrintsText, printing};
ghost use Rattle.case_tables.specs.Cells.{cell, heading};
ghost use Rattle.case_tables.specs.Table.{width, widths_of, spaces, left_text, right_text, row_text, case_row, list_table};

use crate::columns::{Column, cell_length, print_cell};
use crate::zones::Zone;
use journal_layout::Entry;
use script_streams::{Output, Reply};

// How wide each column is but the last.
#[derive(Clone, Copy)]
pub(crate) struct Widths {
    pub(crate) number: usize,
    pub(crate) time: usize,
    pub(crate) pid: usize,
    pub(crate) signal: usize,
    pub(crate) size: usize,
    pub(crate) kept: usize,
    pub(crate) name: usize,
}

/// Prints a table of cases, with times of a zone: its heads, and a row for each case. Each column is as wide as it needs to be.
pub fn print_table<O: Output>(reply: &mut Reply<'_, O>, zone: Zone<'_>, cases: &[&Entry])
    ensures is_table { PrintsText (printing O.Output reply.old reply.new) (list_table zone.entry (map (λ e. case_of e.now) cases.now)) }
{
    let widths = widths_of(zone, cases);
    print_heads(reply, widths);
    print_rows(reply, zone, widths, cases);
}

fn widths_of(zone: Zone<'_>, cases: &[&Entry]) -> Widths
    ensures { result ≡ widths_of zone.entry (map (λ e. case_of e.now) cases.now) }
{
    Widths {
        number: width(zone, Column::Number, cases),
        time: width(zone, Column::Time, cases),
        pid: width(zone, Column::Pid, cases),
        signal: width(zone, Column::Signal, cases),
        size: width(zone, Column::Size, cases),
        kept: width(zone, Column::Kept, cases),
        name: width(zone, Column::Name, cases),
    }
}

// How wide a column is.
fn width(zone: Zone<'_>, column: Column, cases: &[&Entry]) -> usize
    ensures { result ≡ width zone.entry column (map (λ e. case_of e.now) cases.now) }
{
    let mut width = column.heading().len();
    for case in cases {
        width = width.max(cell_length(zone, column, case));
    }
    width
}

// Prints a row for each case.
fn print_rows<O: Output>(reply: &mut Reply<'_, O>, zone: Zone<'_>, widths: Widths, cases: &[&Entry])
    ensures { PrintsText (printing O.Output reply.old reply.new) (flat_map (case_row zone.entry widths) (map (λ e. case_of e.now) cases.now)) }
{
    for case in cases {
        print_row(reply, zone, widths, case);
    }
}

fn print_row<O: Output>(reply: &mut Reply<'_, O>, zone: Zone<'_>, widths: Widths, case: &Entry)
    ensures { PrintsText (printing O.Output reply.old reply.new) (case_row zone.entry widths (case_of case.now)) }
{
    print_right(reply, zone, widths.number, Column::Number, case);
    print_left(reply, zone, widths.time, Column::Time, case);
    print_left(reply, zone, widths.pid, Column::Pid, case);
    print_left(reply, zone, widths.signal, Column::Signal, case);
    print_left(reply, zone, widths.size, Column::Size, case);
    print_left(reply, zone, widths.kept, Column::Kept, case);
    print_left(reply, zone, widths.name, Column::Name, case);
    print_cell(reply, zone, Column::Label, case);
    reply.print(b"\n");
}

fn print_left<O: Output>(
    reply: &mut Reply<'_, O>,
    zone: Zone<'_>,
    width: usize,
    column: Column,
    case: &Entry,
)
    ensures { PrintsText (printing O.Output reply.old reply.new) (left_text width (cell zone.entry column (case_of case.now))) }
{
    let left = width.saturating_sub(cell_length(zone, column, case));
    print_cell(reply, zone, column, case);
    print_spaces(reply, left);
    reply.print(b"  ");
}

fn print_right<O: Output>(
    reply: &mut Reply<'_, O>,
    zone: Zone<'_>,
    width: usize,
    column: Column,
    case: &Entry,
)
    ensures { PrintsText (printing O.Output reply.old reply.new) (right_text width (cell zone.entry column (case_of case.now))) }
{
    let left = width.saturating_sub(cell_length(zone, column, case));
    print_spaces(reply, left);
    print_cell(reply, zone, column, case);
    reply.print(b"  ");
}

/// Prints this many spaces.
pub fn print_spaces<O: Output>(reply: &mut Reply<'_, O>, count: usize)
    ensures { PrintsText (printing O.Output reply.old reply.new) (spaces count) }
{
    for _ in 0..count {
        reply.print(b" ");
    }
}

fn print_heads<O: Output>(reply: &mut Reply<'_, O>, widths: Widths)
    ensures { PrintsText (printing O.Output reply.old reply.new) (row_text widths heading) }
{
    print_right_head(reply, widths.number, Column::Number);
    print_left_head(reply, widths.time, Column::Time);
    print_left_head(reply, widths.pid, Column::Pid);
    print_left_head(reply, widths.signal, Column::Signal);
    print_left_head(reply, widths.size, Column::Size);
    print_left_head(reply, widths.kept, Column::Kept);
    print_left_head(reply, widths.name, Column::Name);
    reply.print(Column::Label.heading());
    reply.print(b"\n");
}

fn print_left_head<O: Output>(reply: &mut Reply<'_, O>, width: usize, column: Column)
    ensures { PrintsText (printing O.Output reply.old reply.new) (left_text width (heading column)) }
{
    let head = column.heading();
    reply.print(head);
    print_spaces(reply, width.saturating_sub(head.len()));
    reply.print(b"  ");
}

fn print_right_head<O: Output>(reply: &mut Reply<'_, O>, width: usize, column: Column)
    ensures { PrintsText (printing O.Output reply.old reply.new) (right_text width (heading column)) }
{
    let head = column.heading();
    print_spaces(reply, width.saturating_sub(head.len()));
    reply.print(head);
    reply.print(b"  ");
}
