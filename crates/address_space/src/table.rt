// Rows sorted by address, of which no two have an address in common.
ghost use Rattle.std.specs.Prelude.{◌≡◌, ◌+◌, ◌-◌, ◌^◌, ◌<◌, ◌≤◌, ◌↔◌, ℕ, List, map, length, min, slice_index_or, Contains, AllPairs, MatchBool, MatchOption, IfOk, IsSome};
ghost use Rattle.std.specs.List.{AllAdjacentBelow};
ghost use Rattle.std.specs.List.Sorted.{IsNonDecreasingBy, IsPermutation};
ghost use Rattle.std.specs.Option.{option_map, ForSome};
ghost use Rattle.address_space.specs.Source.{first_from};
ghost use Rattle.address_space.specs.Disjoint.{AreApart, Extent, is_within, taking_from};
ghost use Rattle.address_space.specs.Ranges.{IsAlike};
ghost use Rattle.address_space.specs.Layers.{IsHeld, IsNumbered, IsSheet, holder};
ghost use Rattle.address_space.specs.ScanWords.{past_of, row_view};
ghost use Rattle.address_space.specs.declared.row.Row as row;

use crate::layers::layered;
use crate::row::Row;
use std::alloc::{AllocError, Global};

/// Rows sorted by address. None has an address of another.
#[derive(Drop)]
pub(crate) struct Table {
    pub(crate) rows: Vec<Row>,
    /// They are sorted by address.
    ghost rising: { IsNonDecreasingBy (λ r. r.start) rows.items },
    /// Each ends before the next begins.
    ghost apart: { AllAdjacentBelow (λ r s. past_of r ≤ s.start) rows.items (length rows.items) },
}

/// The rows, sorted by address.
fn sorted(mut rows: Vec<Row>) -> Vec<Row>
    ensures whole { (extents : List Extent) → map row_view rows.items ≡ taking_from 0 extents
        → IsPermutation (taking_from 0 extents) (map row_view result.items) }
    ensures rising { IsNonDecreasingBy (λ r. r.start) result.items }
{
    rows.sort_unstable_by_key(|row| row.start);
    rows
}

/// Whether each of these, which are sorted by address, ends before the next begins.
fn are_apart(rows: &[Row]) -> bool
    requires { IsNonDecreasingBy (λ r. r.start) rows.now }
    ensures { MatchBool result
        (AllAdjacentBelow (λ r s. past_of r ≤ s.start) rows.now (length rows.now))
        ((k : ℕ) × (k + 1 < length rows.now) × ((r : row.Row)
        → (slice_index_or rows.now (k + 1) r).start < past_of (slice_index_or rows.now k r))) }
{
    for next in 1..rows.len() {
        let row = rows[next - 1];
        if rows[next].start - row.start < row.size {
            return false;
        }
    }
    true
}

impl Table {
    /// The table of rows that have addresses. There is no table if two of them have an address in common.
    pub(crate) fn of(rows: Vec<Row>) -> Option<Table>
        ensures whole { (extents : List Extent) → map row_view rows.items ≡ taking_from 0 extents
            → ForSome result (λ t. ∥ IsPermutation (taking_from 0 extents) (map row_view t.rows.items) ∥₁) }
        ensures there { (extents : List Extent) → map row_view rows.items ≡ taking_from 0 extents
            → IsSome result ↔ AllPairs (AreApart is_within) extents }
    {
        let rows = sorted(rows);
        if !are_apart(&rows) {
            return None;
        }
        Some(Table { rows })
    }

    /// The table of rows that may have addresses in common: the first row that has an address decides it. The only error is
    /// that there is no memory for it.
    pub(crate) fn layered(alloc: Global, rows: &[Row]) -> Result<Table, AllocError>
        requires { IsNumbered 0 rows.now }
        ensures sheet { IfOk result (λ t. ∥ IsSheet t.rows.items ∥₁) }
        ensures same { IfOk result (λ t. (a : ℕ) → holder t.rows.items a ≡ holder rows.now a) }
    {
        let rows = layered(alloc, rows)?;
        Ok(Table { rows })
    }

    /// How many of them begin at an address or below it.
    fn count_to(&self, at: u64) -> usize
        ensures within { result ≤ length self.now.rows.items }
        ensures below { (k : ℕ) (r : row.Row) → k < result
            → (slice_index_or self.now.rows.items k r).start ≤ at }
        ensures above { (k : ℕ) (r : row.Row) → result ≤ k → k < length self.now.rows.items
            → at < (slice_index_or self.now.rows.items k r).start }
    {
        self.rows.partition_point(|row| row.start <= at)
    }

    /// The one that has the address, if there is one. Only the last of those that begin at the address or below it can.
    fn covering(&self, at: u64, count: usize) -> Option<Row>
        requires within { count ≤ length self.now.rows.items }
        requires below { (k : ℕ) (r : row.Row) → k < count
            → (slice_index_or self.now.rows.items k r).start ≤ at }
        ensures { MatchOption result
            ((k : ℕ) (r : row.Row) → k < count → past_of (slice_index_or self.now.rows.items k r) ≤ at)
            (λ row. Contains self.now.rows.items row × (row.start ≤ at) × (at < past_of row)) }
    {
        let last = count.checked_sub(1)?;
        let row = self.rows[last];
        if at - row.start < row.size {
            Some(row)
        } else {
            None
        }
    }

    /// How many of the `limit` addresses from `at` on come before those of the row of that number, which begins above.
    fn gap(&self, at: u64, count: usize, limit: u64) -> u64
        requires { (r : row.Row) → count < length self.now.rows.items
            → at < (slice_index_or self.now.rows.items count r).start }
        ensures before { (r : row.Row) → count < length self.now.rows.items
            → result ≡ min limit ((slice_index_or self.now.rows.items count r).start - at) }
        ensures all { length self.now.rows.items ≤ count → result ≡ limit }
    {
        match self.rows.get(count) {
            Some(next) => limit.min(next.start - at),
            None => limit,
        }
    }

    /// The row that has the address `at`, and how many addresses of the `limit` from there on it has too; or how many no
    /// row has.
    pub(crate) fn find(&self, at: u64, limit: u64) -> (Option<Row>, u64)
        requires { 0 < limit }
        ensures first { (extents : List Extent)
            → ∥ IsPermutation (taking_from 0 extents) (map row_view self.now.rows.items) ∥₁
            → option_map row_view result.0 ≡ first_from (is_within at) 0 extents }
        ensures alike { (extents : List Extent)
            → ∥ IsPermutation (taking_from 0 extents) (map row_view self.now.rows.items) ∥₁
            → IsAlike (λ a. first_from (is_within a) 0 extents) at limit result.1 }
        ensures number { ∥ IsSheet self.now.rows.items ∥₁
            → option_map (λ row. row.number) result.0 ≡ holder self.now.rows.items at }
        ensures held { ∥ IsSheet self.now.rows.items ∥₁ → IsHeld (holder self.now.rows.items) at limit result.1 }
    {
        let count = self.count_to(at);
        match self.covering(at, count) {
            Some(row) => {
                let left = row.size - (at - row.start);
                (Some(row), limit.min(left))
            }
            None => (None, self.gap(at, count, limit)),
        }
    }
}
