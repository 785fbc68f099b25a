//! The cells of the tables for a group and for its cores.
ghost use Rattle.std.specs.Prelude.{◌≡◌, IfOk, codes, map, if◌then◌else◌};
ghost use Rattle.script_streams.specs.Replies.{PrintsText, printing};
ghost use Rattle.case_tables.specs.Cells.{known_number};
ghost use Rattle.group_tables.specs.Cells as spec;
ghost use Rattle.group_tables.specs.Summary.{certain_count, labels as labels_of, perhaps_count};
ghost use Rattle.group_tables.specs.Values.{member_said, row_said};

use crate::kept::KeptText;
use crate::labels::print_labels;
use crate::rows::{GroupMember, GroupRow};
use crate::summary::{certain_count, first_time, last_time, newest, perhaps_count};
use crate::words::print_frames;
use case_tables::{Zone, print_signal, print_size, print_time_in};
use script_streams::{Output, Reply};
use std::alloc::{AllocError, Global};

// A column of the table of groups.
#[derive(Clone, Copy)]
pub(crate) enum GroupColumn {
    Cores,
    First,
    Last,
    Signal,
    Newest,
    Labels,
    Program,
    Frames,
}

// A column of the table of a group's cores.
#[derive(Clone, Copy)]
pub(crate) enum CaseColumn {
    Number,
    Time,
    Pid,
    Signal,
    Size,
    Kept,
    Name,
    Label,
}

impl GroupColumn {
    pub(crate) fn heading(self) -> &'static [u8]
        ensures { result.now ≡ spec.group_heading self }
    {
        match self {
            GroupColumn::Cores => b"CORES",
            GroupColumn::First => b"FIRST",
            GroupColumn::Last => b"LAST",
            GroupColumn::Signal => b"SIGNAL",
            GroupColumn::Newest => b"NEWEST",
            GroupColumn::Labels => b"LABELS",
            GroupColumn::Program => b"PROGRAM",
            GroupColumn::Frames => b"FRAMES",
        }
    }
}

impl CaseColumn {
    pub(crate) fn heading(self) -> &'static [u8]
        ensures { result.now ≡ spec.case_heading self }
    {
        match self {
            CaseColumn::Number => b"CASE",
            CaseColumn::Time => b"TIME",
            CaseColumn::Pid => b"PID",
            CaseColumn::Signal => b"SIGNAL",
            CaseColumn::Size => b"SIZE",
            CaseColumn::Kept => b"KEPT",
            CaseColumn::Name => b"NAME",
            CaseColumn::Label => b"LABEL",
        }
    }
}

// The text of a column of a group's row, with the labels of its cores.
pub(crate) fn group_cell(
    alloc: Global,
    zone: Zone<'_>,
    latest: u64,
    row: &GroupRow<'_>,
    labels: &[&[u8]],
    column: GroupColumn,
) -> Result<Vec<u8>, AllocError>
    requires { map (λ l. l.now) labels.now ≡ labels_of (row_said row.now).members }
    ensures { IfOk result (λ text. text.items ≡ spec.group_cell zone.entry latest (row_said row.now) column) }
{
    let mut text = KeptText::new(alloc);
    let mut reply = Reply::new(&mut text);
    print_group_cell(&mut reply, zone, latest, row, labels, column);
    match reply.finish() {
        Ok(()) => Ok(text.into_text()),
        Err(_) => Err(AllocError),
    }
}

fn print_group_cell<O: Output>(
    reply: &mut Reply<'_, O>,
    zone: Zone<'_>,
    latest: u64,
    row: &GroupRow<'_>,
    labels: &[&[u8]],
    column: GroupColumn,
)
    requires { map (λ l. l.now) labels.now ≡ labels_of (row_said row.now).members }
    ensures { PrintsText (printing O.Output reply.old reply.new) (spec.group_cell zone.entry latest (row_said row.now) column) }
{
    match column {
        GroupColumn::Cores => print_counts(reply, &row.members),
        GroupColumn::First => print_time_in(reply, zone, first_time(latest, &row.members)),
        GroupColumn::Last => print_time_in(reply, zone, last_time(latest, &row.members)),
        GroupColumn::Signal => print_signal(reply, row.crash.signal),
        GroupColumn::Newest => reply.print_decimal(u128::from(newest(&row.members))),
        GroupColumn::Labels => print_labels(reply, labels),
        GroupColumn::Program => reply.print_text(&row.crash.program),
        GroupColumn::Frames => print_frames(reply, &row.crash.signature),
    }
}

// Prints how many cores are certain, and behind a plus how many perhaps belong to the group.
fn print_counts<O: Output>(reply: &mut Reply<'_, O>, members: &[GroupMember<'_>])
    ensures { PrintsText (printing O.Output reply.old reply.new) (spec.counts_text (certain_count (map member_said members.now)) (perhaps_count (map member_said members.now))) }
{
    let perhaps = perhaps_count(members);
    reply.print_decimal(certain_count(members) as u128);
    if perhaps > 0 {
        reply.print(b"+");
        reply.print_decimal(perhaps as u128);
    }
}

// The text of a column of the row of a group's core.
pub(crate) fn case_cell(
    alloc: Global,
    zone: Zone<'_>,
    member: &GroupMember<'_>,
    column: CaseColumn,
) -> Result<Vec<u8>, AllocError>
    ensures { IfOk result (λ text. text.items ≡ spec.case_cell zone.entry (member_said member.now) column) }
{
    let mut text = KeptText::new(alloc);
    let mut reply = Reply::new(&mut text);
    print_case_cell(&mut reply, zone, member, column);
    match reply.finish() {
        Ok(()) => Ok(text.into_text()),
        Err(_) => Err(AllocError),
    }
}

fn print_case_cell<O: Output>(
    reply: &mut Reply<'_, O>,
    zone: Zone<'_>,
    member: &GroupMember<'_>,
    column: CaseColumn,
)
    ensures { PrintsText (printing O.Output reply.old reply.new) (spec.case_cell zone.entry (member_said member.now) column) }
{
    let case = member.case;
    match column {
        CaseColumn::Number => reply.print_decimal(u128::from(case.seq)),
        CaseColumn::Time => print_time_in(reply, zone, case.time),
        CaseColumn::Pid => print_known(reply, case.pid),
        CaseColumn::Signal => print_signal(reply, case.signal),
        CaseColumn::Size => print_size(reply, case.length),
        CaseColumn::Kept => reply.print(kept_word(case.pinned)),
        CaseColumn::Name => reply.print_text(case.name.as_slice()),
        CaseColumn::Label => print_label(reply, case.label.as_slice(), member.is_perhaps),
    }
}

// Prints a number if it is known, else `-`.
fn print_known<O: Output>(reply: &mut Reply<'_, O>, number: u32)
    ensures { PrintsText (printing O.Output reply.old reply.new) (known_number number) }
{
    if number == 0 {
        reply.print(b"-");
    } else {
        reply.print_decimal(u128::from(number));
    }
}

fn kept_word(pinned: bool) -> &'static [u8]
    ensures { result.now ≡ if pinned then codes "pinned" else codes "-" }
{
    if pinned { b"pinned" } else { b"-" }
}

// Prints a label, and whether the core perhaps belongs to the group.
fn print_label<O: Output>(reply: &mut Reply<'_, O>, label: &[u8], is_perhaps: bool)
    ensures { PrintsText (printing O.Output reply.old reply.new) (spec.label_text label.now is_perhaps) }
{
    reply.print_text(label);
    if is_perhaps {
        reply.print(b" ?");
    }
}
