//! The facts about a group.
ghost use Rattle.std.specs.Prelude.{◌≡◌, ◌++◌, ◌∷◌, [], IfOk, OnOk, map};
ghost use Rattle.crash_signatures.specs.Grouping.{group_said};
ghost use Rattle.journal_layout.specs.Case.{case_of};
ghost use Rattle.group_tables.specs.Rows as spec;
ghost use Rattle.group_tables.specs.Values.{member_said, row_said};

use crate::numbers::CrashedCore;
use crash_signatures::{Group, Signature};
use journal_layout::Entry;
use std::alloc::{AllocError, Global};

/// The facts that all cores of a group have in common.
#[derive(Drop)]
pub struct Crash {
    /// The program: a path or a name.
    pub program: Vec<u8>,
    /// The signal's number, or 0.
    pub signal: u32,
    /// The signature.
    pub signature: Signature,
}

/// A core of a group.
#[derive(Clone, Copy)]
pub struct GroupMember<'a> {
    /// Its case.
    pub case: &'a Entry,
    /// It is perhaps of the group: frames of it are missing.
    pub is_perhaps: bool,
}

/// A group of cores.
#[derive(Drop)]
pub struct GroupRow<'a> {
    /// The crash that they have in common.
    pub crash: &'a Crash,
    /// The cores, in the order of their numbers.
    pub members: Vec<GroupMember<'a>>,
}

/// The rows of groups, in their order. CASES are the cases of an archive, and the number of a signature is that of one of these cores.
///
/// # Errors
///
/// There is no memory.
pub fn rows_of<'a>(
    alloc: Global,
    cases: &'a [Entry],
    cores: &'a [CrashedCore],
    groups: &[Group],
) -> Result<Vec<GroupRow<'a>>, AllocError>
    ensures { IfOk result (λ rows. map row_said rows.items ≡ spec.rows_of (map case_of cases.entry.now) cores.entry.now (map group_said groups.now)) }
{
    let mut rows = Vec::new(alloc);
    for group in groups {
        add_row(alloc, &mut rows, cases, cores, group)?;
    }
    Ok(rows)
}

// Adds the row of a group.
fn add_row<'a>(
    alloc: Global,
    rows: &mut Vec<GroupRow<'a>>,
    cases: &'a [Entry],
    cores: &'a [CrashedCore],
    group: &Group,
) -> Result<(), AllocError>
    ensures { OnOk result (map row_said rows.new.items ≡ map row_said rows.old.items ++ spec.rows_of (map case_of cases.entry.now) cores.entry.now (group_said group.now ∷ [])) }
{
    let Some(core) = cores.get(group.signature) else {
        return Ok(());
    };
    let members = members_of(alloc, cases, group)?;
    rows.push(GroupRow {
        crash: &core.crash,
        members,
    })?;
    Ok(())
}

// The cores of a group.
fn members_of<'a>(
    alloc: Global,
    cases: &'a [Entry],
    group: &Group,
) -> Result<Vec<GroupMember<'a>>, AllocError>
    ensures { IfOk result (λ members. map member_said members.items ≡ spec.members_of (map case_of cases.entry.now) (group_said group.now)) }
{
    let mut members = Vec::new(alloc);
    for case in cases {
        add_member(&mut members, case, group)?;
    }
    Ok(members)
}

// Adds a case to the cores of a group, if it is one.
fn add_member<'a>(
    members: &mut Vec<GroupMember<'a>>,
    case: &'a Entry,
    group: &Group,
) -> Result<(), AllocError>
    ensures { OnOk result (map member_said members.new.items ≡ map member_said members.old.items ++ spec.members_of (case_of case.entry.now ∷ []) (group_said group.now)) }
{
    let Some(is_perhaps) = place_in(group, u64::from(case.seq)) else {
        return Ok(());
    };
    members.push(GroupMember { case, is_perhaps })?;
    Ok(())
}

// Whether the case of this number is perhaps of a group. None, if it is not of it at all.
fn place_in(group: &Group, number: u64) -> Option<bool>
    ensures { result ≡ spec.place_in (group_said group.now) number }
{
    if has_number(&group.cases, number) {
        Some(false)
    } else if has_number(&group.perhaps, number) {
        Some(true)
    } else {
        None
    }
}

fn has_number(numbers: &[u64], number: u64) -> bool
    ensures { result ≡ spec.is_among numbers.now number }
{
    numbers.iter().any(|its| *its == number)
}
