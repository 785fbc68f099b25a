//! Which cores are grouped.
ghost use Rattle.std.specs.Prelude.{◌≡◌, ◌++◌, ◌∷◌, [], IfOk, OnOk, map};
ghost use Rattle.journal_layout.specs.Case.{case_of};
ghost use Rattle.case_tables.specs.Wanted.{skipped};
ghost use Rattle.group_tables.specs.Chosen as spec;

use case_tables::Wanted;
use journal_layout::{Entry, Kind};
use std::alloc::{AllocError, Global};

/// The numbers of the cores that are wanted, in their order: those that a list with these words shows, of them the last so many.
///
/// # Errors
///
/// There is no memory.
pub fn wanted_cores(
    alloc: Global,
    cases: &[Entry],
    wanted: &Wanted<'_>,
) -> Result<Vec<u32>, AllocError>
    ensures { IfOk result (λ numbers. numbers.items ≡ spec.wanted_cores wanted.now (map case_of cases.now)) }
{
    let found = all_wanted(alloc, cases, wanted)?;
    let (_, last) = found.split_at(skipped(wanted.last, found.len()));
    last.to_vec(alloc)
}

// How many of so many are before the last ones.
fn skipped(last: Option<usize>, count: usize) -> usize
    ensures { result ≡ skipped last count }
{
    match last {
        Some(last) => count.saturating_sub(last),
        None => 0,
    }
}

// The same, however many they are.
fn all_wanted(alloc: Global, cases: &[Entry], wanted: &Wanted<'_>) -> Result<Vec<u32>, AllocError>
    ensures { IfOk result (λ numbers. numbers.items ≡ spec.all_wanted wanted.now (map case_of cases.now)) }
{
    let mut numbers = Vec::new(alloc);
    for case in cases {
        add_wanted(&mut numbers, case, wanted)?;
    }
    Ok(numbers)
}

// Adds the number of a case, if it is a core that is wanted.
fn add_wanted(numbers: &mut Vec<u32>, case: &Entry, wanted: &Wanted<'_>) -> Result<(), AllocError>
    ensures { OnOk result (numbers.new.items ≡ numbers.old.items ++ spec.all_wanted wanted.now (case_of case.now ∷ [])) }
{
    if !is_wanted_core(case, wanted) {
        return Ok(());
    }
    numbers.push(case.seq)?;
    Ok(())
}

fn is_wanted_core(case: &Entry, wanted: &Wanted<'_>) -> bool
    ensures { result ≡ spec.is_wanted_core wanted.now (case_of case.now) }
{
    match case.kind {
        Kind::Core => wanted.takes(case),
        Kind::Exec => false,
    }
}
