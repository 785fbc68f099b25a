//! The core that goes next.
ghost use Rattle.std.specs.Prelude.{◌≡◌, ◌≤◌, IfSome, Some, length, map, option_map};
ghost use Rattle.std.specs.List.{filter};
ghost use Rattle.journal_layout.specs.Case.{case_of};
ghost use Rattle.fair_share.specs.Fairness as spec;
ghost use Rattle.fair_share.specs.Fairness.{weight};
ghost use Rattle.fair_share.specs.Totals.{AreTotals};
ghost use Rattle.fair_share.specs.Weighing as weighing;
ghost use Rattle.fair_share.specs.Weighing.{IsWeighed, TakesUp, best_core, core_of};
ghost use Rattle.fair_share.specs.declared.choosing.Scope.TheVariants.{Program};

use crate::owners::{program_of, user_of};
use crate::totals::{Totals, totals_of};
use journal_layout::{Entry, Kind};
use std::alloc::Global;

/// Whose cores are counted together.
#[derive(Clone, Copy, PartialEq, Eq)]
pub enum Scope {
    /// All of them.
    All,
    /// Those of one user.
    User,
    /// Those of one program.
    Program,
}

/// Of cases in the order of their numbers the core that goes next. It belongs to the user whose unpinned cores have the most blocks, and to
/// that user's program whose unpinned cores have the most. Of its cores it is the last but one, if there are three or more, and else the last.
/// `None` if all cores are pinned.
///
/// It passes over the cases a few times, each in n log n steps. If there is no memory to count all owners' blocks at once, it makes a pass
/// for each owner.
pub fn fairest(alloc: Global, cases: &[Entry]) -> Option<&Entry>
    ensures { option_map (λ (e : _). case_of e.now) result ≡ spec.fairest (map case_of cases.now) }
{
    let user = heaviest(alloc, cases, Scope::All, &[], Scope::User)?;
    let program = heaviest(
        alloc,
        cases,
        Scope::User,
        user_of(&user.name),
        Scope::Program,
    )?;
    inner(cases, program_of(&program.name))
}

// A core, and the blocks of all that have its owner.
#[derive(Clone, Copy)]
pub(crate) struct Weighed<'a> {
    core: &'a Entry,
    blocks: u128,
}

// Of the cores of one owner the first whose user, or whose program, has the most blocks.
fn heaviest<'a>(
    alloc: Global,
    cases: &'a [Entry],
    wide: Scope,
    owner: &[u8],
    narrow: Scope,
) -> Option<&'a Entry>
    ensures { option_map (λ (e : _). case_of e.now) result ≡ spec.heaviest wide owner.now narrow (map case_of cases.now) }
{
    let totals = totals_of(alloc, cases, narrow);
    let mut best = None;
    for core in cases {
        best = with_core(best, core, cases, &totals, wide, owner, narrow);
    }
    core_in(best)
}

// The core that was weighed, if there is one.
fn core_in(best: Option<Weighed<'_>>) -> Option<&Entry>
    ensures { option_map (λ (e : _). case_of e.now) result ≡ best_core best.entry }
{
    match best {
        Some(found) => Some(found.core),
        None => None,
    }
}

// The heaviest core with this one, if it is of the owner.
#[tactic(auto, using(crate::proofs::WeighLemmas::passed_over, crate::proofs::WeighLemmas::taken_up))]
fn with_core<'a>(
    best: Option<Weighed<'a>>,
    core: &'a Entry,
    cases: &[Entry],
    totals: &Option<Totals<'_>>,
    wide: Scope,
    owner: &[u8],
    narrow: Scope,
) -> Option<Weighed<'a>>
    requires weighed { IsWeighed narrow (map case_of cases.now) best }
    requires totals { IfSome totals.now (λ t. AreTotals narrow t (map case_of cases.now)) }
    ensures takes { TakesUp wide owner.now narrow (map case_of cases.now) best.entry (case_of core.now) result }
    ensures weighed { IsWeighed narrow (map case_of cases.now) result }
{
    if !is_of(core, wide, owner) {
        return best;
    }
    Some(heavier(best, core, cases, totals, narrow))
}

// The heavier one of two cores; the first, if both are equally heavy.
fn heavier<'a>(
    best: Option<Weighed<'a>>,
    core: &'a Entry,
    cases: &[Entry],
    totals: &Option<Totals<'_>>,
    scope: Scope,
) -> Weighed<'a>
    requires weighed { IsWeighed scope (map case_of cases.now) best }
    requires totals { IfSome totals.now (λ t. AreTotals scope t (map case_of cases.now)) }
    ensures heavier { core_of result ≡ weighing.heavier (weight scope (map case_of cases.now)) (best_core best.entry) (case_of core.now) }
    ensures weighed { IsWeighed scope (map case_of cases.now) (Some result) }
{
    let Some(found) = best else {
        return weigh(core, cases, totals, scope);
    };
    if owner_of(scope, &found.core.name) == owner_of(scope, &core.name) {
        return found;
    }
    let other = weigh(core, cases, totals, scope);
    if other.blocks > found.blocks {
        return other;
    }
    found
}

// A core, with the blocks of all that have its owner.
fn weigh<'a>(
    core: &'a Entry,
    cases: &[Entry],
    totals: &Option<Totals<'_>>,
    scope: Scope,
) -> Weighed<'a>
    requires totals { IfSome totals.now (λ t. AreTotals scope t (map case_of cases.now)) }
    ensures core { core_of result ≡ case_of core.now }
    ensures blocks { result.blocks ≡ weight scope (map case_of cases.now) (case_of core.now) }
{
    let owner = owner_of(scope, &core.name);
    let blocks = match totals {
        Some(totals) => totals.total(owner),
        None => count_blocks(cases, scope, owner),
    };
    Weighed { core, blocks }
}

// The blocks of all unpinned cores of this owner.
#[tactic(auto, using(crate::proofs::WeighLemmas::blocks_step))]
fn count_blocks(cases: &[Entry], scope: Scope, owner: &[u8]) -> u128
    ensures { result ≡ spec.blocks_of scope owner.now (map case_of cases.now) }
{
    let mut blocks = 0;
    for core in cases {
        blocks += counted(core, scope, owner);
    }
    blocks
}

// The blocks of a core, if it is unpinned and of this owner.
pub(crate) fn counted(core: &Entry, scope: Scope, owner: &[u8]) -> u128
    ensures value { result ≡ weighing.counted scope owner.now (case_of core.now) }
    ensures small { result ≤ 18446744073709551615 }
{
    if is_of(core, scope, owner) {
        (u128::from(core.length) + 4095) / 4096
    } else {
        0
    }
}

// Of the unpinned cores of a program the one that goes.
#[tactic(auto, using(crate::proofs::WeighLemmas::place_here, crate::proofs::WeighLemmas::place_later, crate::proofs::WeighLemmas::place_other))]
fn inner<'a>(cases: &'a [Entry], program: &[u8]) -> Option<&'a Entry>
    ensures { option_map (λ (e : _). case_of e.now) result ≡ spec.inner (spec.cores_of Program program.now (map case_of cases.now)) }
{
    let mut left = place(count_cores(cases, program));
    for core in cases {
        if is_of(core, Scope::Program, program) {
            if left == 0 {
                return Some(core);
            }
            left -= 1;
        }
    }
    None
}

// Which of so many cores of one program goes, counted from 0.
fn place(count: usize) -> usize
    ensures { result ≡ spec.place count }
{
    if count > 2 {
        count - 2
    } else {
        count.saturating_sub(1)
    }
}

// How many unpinned cores of a program there are.
fn count_cores(cases: &[Entry], program: &[u8]) -> usize
    ensures { result ≡ length (filter (spec.is_entry_of Program program.now) cases.now) }
{
    let found = cases
        .iter()
        .filter(|core| is_of(core, Scope::Program, program));
    found.count()
}

// Whether this is an unpinned core of this owner.
fn is_of(core: &Entry, scope: Scope, owner: &[u8]) -> bool
    ensures { result ≡ spec.is_entry_of scope owner.now core.now }
{
    !core.pinned && core.kind == Kind::Core && owner_of(scope, &core.name) == owner
}

// Whose a name is.
pub(crate) fn owner_of(scope: Scope, name: &[u8]) -> &[u8]
    ensures { result.now ≡ spec.owner_of scope name.now }
{
    match scope {
        Scope::All => &[],
        Scope::User => user_of(name),
        Scope::Program => program_of(name),
    }
}
