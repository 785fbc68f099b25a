// The columns of a table of cases.
ghost use Rattle.std.specs.Prelude.{◌≡◌, length, codes, if◌then◌else◌};
ghost use Rattle.journal_layout.specs.Case.{case_of};
ghost use Rattle.script_streams.specs.Replies.{PrintsText, printing};
ghost use Rattle.case_tables.specs.Cells.{cell, heading, known_number};

use crate::signals::{print_signal, signal_length};
use crate::sizes::{print_size, size_length};
use crate::texts::shown_length;
use crate::times::{print_time_in, time_length};
use crate::zones::Zone;
use journal_layout::Entry;
use script_streams::{Output, Reply};
use script_words::print_decimal;

// A column.
#[derive(Clone, Copy)]
pub(crate) enum Column {
    Number,
    Time,
    Pid,
    Signal,
    Size,
    Kept,
    Name,
    Label,
}

impl Column {
    // The text at its head.
    pub(crate) fn heading(self) -> &'static [u8]
        ensures { result.now ≡ heading self }
    {
        match self {
            Column::Number => b"CASE",
            Column::Time => b"TIME",
            Column::Pid => b"PID",
            Column::Signal => b"SIGNAL",
            Column::Size => b"SIZE",
            Column::Kept => b"KEPT",
            Column::Name => b"NAME",
            Column::Label => b"LABEL",
        }
    }
}

// Prints the cell of a column for a case.
pub(crate) fn print_cell<O: Output>(
    reply: &mut Reply<'_, O>,
    zone: Zone<'_>,
    column: Column,
    case: &Entry,
)
    ensures { PrintsText (printing O.Output reply.old reply.new) (cell zone.entry column (case_of case.now)) }
{
    match column {
        Column::Number => reply.print_decimal(u128::from(case.seq)),
        Column::Time => print_time_in(reply, zone, case.time),
        Column::Pid => print_known(reply, case.pid),
        Column::Signal => print_signal(reply, case.signal),
        Column::Size => print_size(reply, case.length),
        Column::Kept => reply.print(kept_word(case.pinned)),
        Column::Name => reply.print_text(case.name.as_slice()),
        Column::Label => reply.print_text(case.label.as_slice()),
    }
}

// How many bytes `print_cell` prints.
pub(crate) fn cell_length(zone: Zone<'_>, column: Column, case: &Entry) -> usize
    ensures { result ≡ length (cell zone.entry column (case_of case.now)) }
{
    match column {
        Column::Number => print_decimal(u128::from(case.seq)).len(),
        Column::Time => time_length(zone, case.time),
        Column::Pid => known_length(case.pid),
        Column::Signal => signal_length(case.signal),
        Column::Size => size_length(case.length),
        Column::Kept => kept_word(case.pinned).len(),
        Column::Name => shown_length(case.name.as_slice()),
        Column::Label => shown_length(case.label.as_slice()),
    }
}

// Prints a number if it is known, else `-`.
pub(crate) fn print_known<O: Output>(reply: &mut Reply<'_, O>, number: u32)
    ensures { PrintsText (printing O.Output reply.old reply.new) (known_number number) }
{
    if number == 0 {
        reply.print(b"-");
    } else {
        reply.print_decimal(u128::from(number));
    }
}

// How many bytes `print_known` prints.
pub(crate) fn known_length(number: u32) -> usize
    ensures { result ≡ length (known_number number) }
{
    if number == 0 {
        1
    } else {
        print_decimal(u128::from(number)).len()
    }
}

fn kept_word(pinned: bool) -> &'static [u8]
    ensures { result.now ≡ if pinned then codes "pinned" else codes "-" }
{
    if pinned { b"pinned" } else { b"-" }
}
