// Rows over one another: an address is decided by the first row that has it. They are laid out side by side, so that a
// search among them takes logarithmic time.
ghost use Rattle.std.specs.Prelude.{◌≡◌, ◌+◌, ◌^◌, ◌<◌, ◌≤◌, ℕ, List, ◌∷◌, None, IfOk, IfSome, MatchOption, length};
ghost use Rattle.address_space.specs.declared.row.Row as row;
ghost use Rattle.address_space.specs.ScanWords.{past_of};
ghost use Rattle.address_space.specs.Layers.{IsMerging, IsNext, IsNumbered, IsSheet, AreStrange, either_holder, holder};

use crate::row::Row;
use std::alloc::{AllocError, Global};

/// The address after the last of all.
const END: u128 = 1 << 64;

/// Two sheets of rows, one over the other, from an address on.
#[derive(Clone, Copy)]
struct Merge<'r> {
    over: &'r [Row],
    under: &'r [Row],
    at: u128,
}

/// The address after the last of a row.
fn past(row: Row) -> u128
    ensures value { result ≡ past_of row }
    ensures small { row.size < 2 ^ 64 }
{
    u128::from(row.start) + u128::from(row.size)
}

/// The rows without those at the front that end at the address or before it.
fn uncovered(rows: &[Row], at: u128) -> &[Row]
    ensures same { (a : ℕ) → at ≤ a → holder result.now a ≡ holder rows.now a }
    ensures merging { (over : List row.Row) → IsMerging over rows.now at → IsMerging over result.now at }
    ensures ends { (r : row.Row) (rest : List row.Row) → result.now ≡ r ∷ rest → at < past_of r }
{
    let mut ahead = rows;
    while let Some((row, rest)) = ahead.split_first() {
        if past(*row) > at {
            return ahead;
        }
        ahead = rest;
    }
    ahead
}

impl<'r> Merge<'r> {
    ghost use Rattle.address_space.specs.Layers.{IsHidden, IsTaken, ceiling_of};

    /// Where the first row on top begins, or the address after the last of all.
    fn ceiling(&self) -> u128
        ensures { result ≡ ceiling_of self.now.over.now }
    {
        match self.over.first() {
            Some(row) => u128::from(row.start),
            None => END,
        }
    }

    /// The part of the first row below that is visible before the first on top, if there is one.
    fn shown(&self) -> Option<Row>
        requires merging { IsMerging self.now.over.now self.now.under.now self.now.at }
        requires ends { (r : row.Row) (rest : List row.Row) → self.now.under.now ≡ r ∷ rest → self.now.at < past_of r }
        ensures { MatchOption result (IsHidden self.now.over.now self.now.under.now self.now.at)
            (λ r. IsNext (either_holder self.now.over.now self.now.under.now) self.now.at r
            × (past_of r ≤ ceiling_of self.now.over.now)) }
    {
        let (first, _) = self.under.split_first()?;
        let row = *first;
        let start = self.at.max(u128::from(row.start));
        let past = self.ceiling().min(past(row));
        if start >= past {
            return None;
        }
        Some(Row {
            number: row.number,
            start: start as u64,
            size: (past - start) as u64,
        })
    }

    /// The row that comes next, and the rows that are left after it.
    fn next(self) -> Option<(Row, Merge<'r>)>
        requires { IsMerging self.over.now self.under.now self.at }
        ensures { MatchOption result
            ((a : ℕ) → self.entry.at ≤ a → either_holder self.entry.over.now self.entry.under.now a ≡ None)
            (λ s. IsTaken self.entry.over.now self.entry.under.now self.entry.at s.0
            s.1.over.now s.1.under.now s.1.at) }
    {
        let under = uncovered(self.under, self.at);
        let ahead = Merge { under, ..self };
        if let Some(row) = ahead.shown() {
            let at = past(row);
            return Some((row, Merge { at, ..ahead }));
        }
        let (row, over) = ahead.over.split_first()?;
        let at = past(*row);
        Some((*row, Merge { over, under, at }))
    }
}

/// One sheet over another, as one.
fn overlaid(alloc: Global, over: &[Row], under: &[Row]) -> Result<Vec<Row>, AllocError>
    requires over { IsSheet over.now }
    requires under { IsSheet under.now }
    requires strange { AreStrange over.now under.now }
    ensures sheet { IfOk result (λ v. IsSheet v.items) }
    ensures same { IfOk result (λ v. (a : ℕ) → holder v.items a ≡ either_holder over.now under.now a) }
{
    let mut rows = Vec::new(alloc);
    let mut ahead = Merge { over, under, at: 0 };
    while let Some((row, rest)) = ahead.next() {
        rows.push(row)?;
        ahead = rest;
    }
    Ok(rows)
}

/// The sheet of rows: an address is decided by the first that has it.
pub(crate) fn layered(alloc: Global, rows: &[Row]) -> Result<Vec<Row>, AllocError>
    requires { IsNumbered 0 rows.now }
    ensures sheet { IfOk result (λ v. IsSheet v.items) }
    ensures same { IfOk result (λ v. (a : ℕ) → holder v.items a ≡ holder rows.now a) }
{
    if rows.len() < 2 {
        let mut alone = Vec::new(alloc);
        alone.extend_from_slice(rows)?;
        return Ok(alone);
    }
    let (first, others) = rows.split_at(rows.len() / 2);
    let over = layered(alloc, first)?;
    let under = layered(alloc, others)?;
    let sheet = overlaid(alloc, &over, &under)?;
    Ok(sheet)
}
