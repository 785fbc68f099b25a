//! The tables of groups.
ghost use Rattle.std.specs.Prelude.{◌≡◌, ◌++◌, ◌∷◌, [], IfOk, OnErr, OnOk, filter, map};
ghost use Rattle.script_streams.specs.Replies.{PrintsText, printing};
ghost use Rattle.group_tables.specs.Cells.{case_columns, case_heading, group_cell, group_columns, group_heading};
ghost use Rattle.group_tables.specs.Columns.{texts};
ghost use Rattle.group_tables.specs.Table as spec;
ghost use Rattle.group_tables.specs.Values.{member_said, row_said};

use crate::cells::{CaseColumn, GroupColumn, case_cell, group_cell};
use crate::columns::{Column, Side, column_of, print_rows};
use crate::labels::labels_of;
use crate::rows::{GroupMember, GroupRow};
use case_tables::Zone;
use script_streams::{Output, Reply};
use std::alloc::{AllocError, Global};

// The columns, from the left.
static GROUP_COLUMNS: [GroupColumn; 8] = [
    GroupColumn::Cores,
    GroupColumn::First,
    GroupColumn::Last,
    GroupColumn::Signal,
    GroupColumn::Newest,
    GroupColumn::Labels,
    GroupColumn::Program,
    GroupColumn::Frames,
];

static CASE_COLUMNS: [CaseColumn; 8] = [
    CaseColumn::Number,
    CaseColumn::Time,
    CaseColumn::Pid,
    CaseColumn::Signal,
    CaseColumn::Size,
    CaseColumn::Kept,
    CaseColumn::Name,
    CaseColumn::Label,
];

/// Prints groups as a table, with times of a zone: its heads, and a row for each. Times before the
/// year 2000 and those after LATEST, in seconds since the epoch, do not count.
///
/// # Errors
///
/// There is no memory: nothing is printed.
pub fn print_groups<O: Output>(
    alloc: Global,
    reply: &mut Reply<'_, O>,
    zone: Zone<'_>,
    latest: u64,
    rows: &[GroupRow<'_>],
) -> Result<(), AllocError>
    ensures told { OnOk result (PrintsText (printing O.Output reply.old reply.new) (spec.groups_table zone.entry latest (map row_said rows.now))) }
    ensures refused { OnErr result (reply.new ≡ reply.old) }
{
    let texts = group_rows(alloc, zone, latest, rows)?;
    let columns = group_layout(&texts);
    print_rows(reply, &columns, &texts);
    Ok(())
}

/// Prints one group: its row, an empty line, and its cores as a list of cases;
/// those that perhaps belong to it come last, with ` ?` behind their labels.
///
/// # Errors
///
/// There is no memory: nothing is printed.
pub fn print_group<O: Output>(
    alloc: Global,
    reply: &mut Reply<'_, O>,
    zone: Zone<'_>,
    latest: u64,
    row: &GroupRow<'_>,
) -> Result<(), AllocError>
    ensures told { OnOk result (PrintsText (printing O.Output reply.old reply.new) (spec.group_screen zone.entry latest (row_said row.now))) }
    ensures refused { OnErr result (reply.new ≡ reply.old) }
{
    let head = group_row(alloc, zone, latest, row)?;
    let cores = case_rows(alloc, zone, &row.members)?;
    print_rows(reply, &group_layout(&head), &head);
    reply.print(b"\n");
    print_rows(reply, &case_layout(&cores), &cores);
    Ok(())
}

fn group_layout(rows: &[Vec<Vec<u8>>]) -> [Column; 8]
    ensures { result ≡ spec.group_layout (map texts rows.now) }
{
    [
        column_of(0, Side::Right, rows),
        column_of(1, Side::Left, rows),
        column_of(2, Side::Left, rows),
        column_of(3, Side::Left, rows),
        column_of(4, Side::Right, rows),
        column_of(5, Side::Left, rows),
        column_of(6, Side::Left, rows),
        column_of(7, Side::End, rows),
    ]
}

fn case_layout(rows: &[Vec<Vec<u8>>]) -> [Column; 8]
    ensures { result ≡ spec.case_layout (map texts rows.now) }
{
    [
        column_of(0, Side::Right, rows),
        column_of(1, Side::Left, rows),
        column_of(2, Side::Left, rows),
        column_of(3, Side::Left, rows),
        column_of(4, Side::Left, rows),
        column_of(5, Side::Left, rows),
        column_of(6, Side::Left, rows),
        column_of(7, Side::End, rows),
    ]
}

// The texts of the table of groups, with its heads.
fn group_rows(
    alloc: Global,
    zone: Zone<'_>,
    latest: u64,
    rows: &[GroupRow<'_>],
) -> Result<Vec<Vec<Vec<u8>>>, AllocError>
    ensures { IfOk result (λ all. map texts all.items ≡ spec.group_rows zone.entry latest (map row_said rows.now)) }
{
    let mut all = Vec::new(alloc);
    all.push(group_heads(alloc)?)?;
    for row in rows {
        all.push(group_texts(alloc, zone, latest, row)?)?;
    }
    Ok(all)
}

// The same of one group.
fn group_row(
    alloc: Global,
    zone: Zone<'_>,
    latest: u64,
    row: &GroupRow<'_>,
) -> Result<Vec<Vec<Vec<u8>>>, AllocError>
    ensures { IfOk result (λ all. map texts all.items ≡ spec.group_rows zone.entry latest (row_said row.now ∷ [])) }
{
    let mut all = Vec::new(alloc);
    all.push(group_heads(alloc)?)?;
    all.push(group_texts(alloc, zone, latest, row)?)?;
    Ok(all)
}

fn group_heads(alloc: Global) -> Result<Vec<Vec<u8>>, AllocError>
    ensures { IfOk result (λ all. texts all ≡ map group_heading group_columns) }
{
    let mut all = Vec::new(alloc);
    for column in &GROUP_COLUMNS {
        all.push(column.heading().to_vec(alloc)?)?;
    }
    Ok(all)
}

fn group_texts(
    alloc: Global,
    zone: Zone<'_>,
    latest: u64,
    row: &GroupRow<'_>,
) -> Result<Vec<Vec<u8>>, AllocError>
    ensures { IfOk result (λ all. texts all ≡ map (group_cell zone.entry latest (row_said row.now)) group_columns) }
{
    let labels = labels_of(alloc, &row.members)?;
    let mut all = Vec::new(alloc);
    for column in &GROUP_COLUMNS {
        all.push(group_cell(alloc, zone, latest, row, &labels, *column)?)?;
    }
    Ok(all)
}

// The texts of the table of a group's cores, with its heads.
fn case_rows(
    alloc: Global,
    zone: Zone<'_>,
    members: &[GroupMember<'_>],
) -> Result<Vec<Vec<Vec<u8>>>, AllocError>
    ensures { IfOk result (λ all. map texts all.items ≡ spec.case_rows zone.entry (map member_said members.now)) }
{
    let mut all = Vec::new(alloc);
    all.push(case_heads(alloc)?)?;
    add_cases(alloc, zone, &mut all, members, false)?;
    add_cases(alloc, zone, &mut all, members, true)?;
    Ok(all)
}

fn case_heads(alloc: Global) -> Result<Vec<Vec<u8>>, AllocError>
    ensures { IfOk result (λ all. texts all ≡ map case_heading case_columns) }
{
    let mut all = Vec::new(alloc);
    for column in &CASE_COLUMNS {
        all.push(column.heading().to_vec(alloc)?)?;
    }
    Ok(all)
}

// Adds the rows of those that are certain, or of the others.
fn add_cases(
    alloc: Global,
    zone: Zone<'_>,
    all: &mut Vec<Vec<Vec<u8>>>,
    members: &[GroupMember<'_>],
    is_perhaps: bool,
) -> Result<(), AllocError>
    ensures { OnOk result (map texts all.new.items ≡ map texts all.old.items ++ map (spec.case_row zone.entry) (filter (spec.is_so is_perhaps) (map member_said members.now))) }
{
    for member in members {
        if member.is_perhaps == is_perhaps {
            all.push(case_texts(alloc, zone, member)?)?;
        }
    }
    Ok(())
}

fn case_texts(
    alloc: Global,
    zone: Zone<'_>,
    member: &GroupMember<'_>,
) -> Result<Vec<Vec<u8>>, AllocError>
    ensures { IfOk result (λ all. texts all ≡ spec.case_row zone.entry (member_said member.now)) }
{
    let mut all = Vec::new(alloc);
    for column in &CASE_COLUMNS {
        all.push(case_cell(alloc, zone, member, *column)?)?;
    }
    Ok(all)
}
