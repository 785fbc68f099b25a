//! The rule.
ghost use Rattle.std.specs.Prelude.{◌≡◌, ◌≤◌, ◌<◌, ◌^◌, ℕ, Bool, not, List, [], ◌∷◌, ◌++◌, map, IfOk, OnOk, if◌then◌else◌};
ghost use Rattle.std.specs.List.Sorted.{IsStrictlyIncreasing};
ghost use Rattle.retention.specs.Rule.{IsDecision, seq_of, is_before, is_old, is_spare, is_within, meets, goes, stays};
ghost use Rattle.retention.specs.Counting.{TotalsAre, AreToGo, GoesOn, weight_if};

use crate::{Brief, Decision, Policy};
use std::alloc::{AllocError, Global};

/// Decides which cases are dropped. First all unpinned cases from before `before`. Then the shortest front of the other
/// unpinned ones, in the order of their numbers, after which at most `keep` cases and at most `bytes` bytes stay, pinned
/// ones counted. If there is no such front, all of them are dropped, and `unmet` is set.
///
/// # Errors
///
/// `AllocError` if there is no memory for the numbers.
pub fn decide(alloc: Global, cases: &[Brief], policy: &Policy) -> Result<Decision, AllocError>
    requires { IsStrictlyIncreasing (map seq_of cases.now) }
    ensures decision { IfOk result (λ decision.
        IsDecision policy.now cases.now decision.dropped.items decision.unmet) }
    ensures rising { IfOk result (λ decision. IsStrictlyIncreasing decision.dropped.items) }
{
    let (count, unmet) = spare_to_go(policy, cases);
    let dropped = dropped_numbers(alloc, policy, cases, count)?;
    Ok(Decision { dropped, unmet })
}

// How many cases there are, and how many bytes. The bytes' number can pass 64 bits, and never 128.
#[derive(Clone, Copy)]
struct Totals {
    count: u64,
    bytes: u128,
}

// The numbers of the cases that are dropped, `count` spare ones among them. Their memory is taken at once.
fn dropped_numbers(
    alloc: Global,
    policy: &Policy,
    cases: &[Brief],
    count: u64,
) -> Result<Vec<u32>, AllocError>
    ensures { IfOk result (λ dropped. dropped.items ≡ map seq_of (goes policy.now count cases.now)) }
{
    let mut dropped = Vec::with_capacity(alloc, most_dropped(policy, cases, count))?;
    let mut left = count;
    for case in cases {
        let (first, after) = goes_now(policy, left, case);
        push_if(&mut dropped, first, case.seq)?;
        left = after;
    }
    Ok(dropped)
}

// The most cases that are dropped if `count` spare ones are.
fn most_dropped(policy: &Policy, cases: &[Brief], count: u64) -> usize {
    let old = cases
        .iter()
        .filter(|case| is_old_case(policy, case))
        .count();
    old.saturating_add(count as usize)
}

// Given `left` spare cases still to drop: whether this case is dropped, and how many spare ones are still to drop after it.
fn goes_now(policy: &Policy, left: u64, case: &Brief) -> (bool, u64)
    ensures { GoesOn policy.now left case.now result.0 result.1 }
{
    if is_old_case(policy, case) {
        (true, left)
    } else if left > 0 && is_spare_case(policy, case) {
        (true, left - 1)
    } else {
        (false, left)
    }
}

// Adds a number, if it is to be added.
fn push_if(numbers: &mut Vec<u32>, wanted: bool, number: u32) -> Result<(), AllocError>
    ensures { OnOk result (numbers.new.items
        ≡ (if wanted then numbers.old.items ++ number ∷ [] else numbers.old.items)) }
{
    if wanted {
        numbers.push(number)?;
    }
    Ok(())
}

// How many of the spare cases are dropped, and whether no number of them meets the limits.
fn spare_to_go(policy: &Policy, cases: &[Brief]) -> (u64, bool)
    ensures { AreToGo policy.now cases.now result.0 result.1 }
{
    let mut left = totals_without_old(policy, cases);
    let mut count = 0;
    for case in cases {
        if is_met(policy, left) {
            return (count, false);
        }
        let weight = spare_weight(policy, case);
        left = Totals {
            count: left.count - weight.count,
            bytes: left.bytes - weight.bytes,
        };
        count += weight.count;
    }
    (count, !is_met(policy, left))
}

// The cases that are not old, and their bytes.
fn totals_without_old(policy: &Policy, cases: &[Brief]) -> Totals
    ensures { TotalsAre result (stays policy.now 0 cases.now) }
{
    let mut totals = Totals { count: 0, bytes: 0 };
    for case in cases {
        let weight = kept_weight(policy, case);
        totals = Totals {
            count: totals.count + weight.count,
            bytes: totals.bytes + weight.bytes,
        };
    }
    totals
}

// A case that is not old, and its bytes.
fn kept_weight(policy: &Policy, case: &Brief) -> Totals
    ensures weight { result ≡ weight_if (not (is_old policy.now case.now)) case.now }
    ensures few { result.count ≤ 1 }
    ensures small { result.bytes < 2 ^ 64 }
{
    weight(!is_old_case(policy, case), case)
}

// A spare case, and its bytes.
fn spare_weight(policy: &Policy, case: &Brief) -> Totals
    ensures weight { result ≡ weight_if (is_spare policy.now case.now) case.now }
    ensures few { result.count ≤ 1 }
    ensures small { result.bytes < 2 ^ 64 }
{
    weight(is_spare_case(policy, case), case)
}

fn weight(counted: bool, case: &Brief) -> Totals
    ensures weight { result ≡ weight_if counted case.now }
    ensures few { result.count ≤ 1 }
    ensures small { result.bytes < 2 ^ 64 }
{
    if counted {
        Totals {
            count: 1,
            bytes: u128::from(case.length),
        }
    } else {
        Totals { count: 0, bytes: 0 }
    }
}

fn is_met(policy: &Policy, totals: Totals) -> bool
    ensures { result ≡ meets policy.now totals.count totals.bytes }
{
    is_number_within(u128::from(totals.count), policy.keep)
        && is_number_within(totals.bytes, policy.bytes)
}

fn is_number_within(number: u128, limit: Option<u64>) -> bool
    ensures { result ≡ is_within number limit }
{
    match limit {
        None => true,
        Some(limit) => number <= u128::from(limit),
    }
}

fn is_old_case(policy: &Policy, case: &Brief) -> bool
    ensures { result ≡ is_old policy.now case.now }
{
    !case.pinned && is_time_before(case.time, policy.before)
}

fn is_spare_case(policy: &Policy, case: &Brief) -> bool
    ensures { result ≡ is_spare policy.now case.now }
{
    !case.pinned && !is_time_before(case.time, policy.before)
}

fn is_time_before(time: u64, limit: Option<u64>) -> bool
    ensures { result ≡ is_before time limit }
{
    match limit {
        None => false,
        Some(limit) => time < limit,
    }
}
