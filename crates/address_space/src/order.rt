// The rows of a sheet by their numbers: the addresses that each segment decides, one segment after the other.
ghost use Rattle.std.specs.Prelude.{◌≡◌, ◌+◌, ◌*◌, ◌^◌, ◌<◌, ◌≤◌, ℕ, IfOk, MatchOption, Contains, length, slice_index_or};
ghost use Rattle.std.specs.List.Sorted.{IsNonDecreasingBy, IsPermutation};
ghost use Rattle.address_space.specs.Orders.{key_of};
ghost use Rattle.address_space.specs.declared.row.Row as row;

use crate::row::Row;
use std::alloc::{AllocError, Global};

/// How many addresses there are.
const ALL: u128 = 1 << 64;

/// Rows by their numbers and then by address.
#[derive(Drop)]
pub(crate) struct Order {
    pub(crate) rows: Vec<Row>,
    ghost rising: { IsNonDecreasingBy key_of rows.items },
}

/// The key by which rows are ordered: the number, and then the first address.
fn key(number: u64, at: u64) -> u128
    ensures { result ≡ number * 2 ^ 64 + at }
{
    u128::from(number) * ALL + u128::from(at)
}

impl Order {
    /// These rows in order. The error is that there is no memory for them.
    pub(crate) fn of(alloc: Global, rows: &[Row]) -> Result<Order, AllocError>
        ensures { IfOk result (λ o. IsPermutation rows.now o.rows.items) }
    {
        let mut ordered = Vec::new(alloc);
        ordered.extend_from_slice(rows)?;
        ordered.sort_unstable_by_key(|row| key(row.number, row.start));
        Ok(Order { rows: ordered })
    }

    /// How many of them come before the addresses of a number after `at`.
    fn count_to(&self, number: u64, at: u64) -> usize
        ensures within { result ≤ length self.now.rows.items }
        ensures below { (k : ℕ) (r : row.Row) → k < result
            → key_of (slice_index_or self.now.rows.items k r) ≤ number * 2 ^ 64 + at }
        ensures above { (k : ℕ) (r : row.Row) → result ≤ k → k < length self.now.rows.items
            → number * 2 ^ 64 + at < key_of (slice_index_or self.now.rows.items k r) }
    {
        let last = key(number, at);
        self.rows
            .partition_point(|row| key(row.number, row.start) <= last)
    }

    /// The first row that begins after the address `at` of a number: one of that number, or of the next that has any.
    pub(crate) fn next(&self, number: u64, at: u64) -> Option<Row>
        ensures { MatchOption result
            ((s : row.Row) → Contains self.now.rows.items s → key_of s ≤ number * 2 ^ 64 + at)
            (λ r. Contains self.now.rows.items r × (number * 2 ^ 64 + at < key_of r) × ((s : row.Row) → Contains self.now.rows.items s
            → number * 2 ^ 64 + at < key_of s → key_of r ≤ key_of s)) }
    {
        let count = self.count_to(number, at);
        if count == self.rows.len() {
            return None;
        }
        Some(self.rows[count])
    }
}
