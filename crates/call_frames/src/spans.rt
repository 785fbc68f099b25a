// The part of the FDEs that is kept, sorted by address.
ghost use Rattle.std.specs.Prelude.{◌≡◌, ◌≤◌, IfOk, length, map, take};
ghost use Rattle.std.specs.List.Sorted.{IsNonDecreasingBy, IsPermutation};
ghost use Rattle.call_frames.specs.Covering as spec;
ghost use Rattle.call_frames.specs.EntryWords.{entry_view, table_view};
ghost use Rattle.call_frames.specs.Walk.{entries_of};

use crate::entries::{Entry, Table};
use crate::spots::Spot;
use crate::walk::Entries;
use std::alloc::{AllocError, Global};

/// The spot of an FDE, and the addresses that it describes.
#[derive(Clone, Copy)]
pub(crate) struct Span {
    /// The first address that it describes.
    pub(crate) begin: u64,
    /// How many addresses it describes.
    pub(crate) range: u64,
    /// Its spot in its section.
    pub(crate) spot: Spot,
}

/// The part of an FDE that is kept.
fn span_of(entry: &Entry<'_>) -> Span
    ensures { result ≡ spec.span_of (entry_view entry.now) }
{
    Span {
        begin: entry.begin,
        range: entry.range,
        spot: Spot {
            index: entry.index,
            place: entry.place,
        },
    }
}

/// The kept parts of the FDEs of a table, in its order.
fn collect(alloc: Global, table: &Table<'_>) -> Result<Vec<Span>, AllocError>
    ensures { IfOk result (λ v. v.items ≡ map spec.span_of (entries_of (table_view table.now))) }
{
    let mut all = Vec::new(alloc);
    let mut entries = Entries::new(table);
    while let Some(entry) = entries.next() {
        all.push(span_of(&entry))?;
    }
    Ok(all)
}

/// The kept parts of the FDEs of a table, sorted by the first address that they describe.
pub(crate) fn sorted(alloc: Global, table: &Table<'_>) -> Result<Vec<Span>, AllocError>
    ensures whole { IfOk result (λ v. IsPermutation (map spec.span_of (entries_of (table_view table.now))) v.items) }
    ensures ordered { IfOk result (λ v. IsNonDecreasingBy (λ s. s.begin) v.items) }
{
    let mut spans = collect(alloc, table)?;
    spans.sort_unstable_by_key(|span| span.begin);
    Ok(spans)
}

/// The last address that a span covers, 2^64 - 1 if it passes that.
fn last_of(span: Span) -> u64
    ensures { result ≡ spec.last_of span }
{
    span.begin.saturating_add(span.range.saturating_sub(1))
}

/// The highest last address among each span and those before it.
pub(crate) fn greatest_ends(alloc: Global, spans: &[Span]) -> Result<Vec<u64>, AllocError>
    ensures { IfOk result (λ v. v.items ≡ spec.greatest_ends 0 spans.now) }
{
    let mut ends = Vec::new(alloc);
    let mut greatest = 0;
    for span in spans {
        greatest = last_of(*span).max(greatest);
        ends.push(greatest)?;
    }
    Ok(ends)
}

/// Whether a span covers an address.
fn is_covering(span: Span, address: u64) -> bool
    ensures { result ≡ spec.is_covering address span }
{
    span.begin <= address && address - span.begin < span.range
}

/// The one of two that is first in the section.
fn earlier(one: Span, other: Option<Span>) -> Option<Span>
    ensures { result ≡ spec.earlier one other }
{
    match other {
        Some(other) if one.spot.index >= other.spot.index => Some(other),
        _ => Some(one),
    }
}

/// The earliest so far, once one more span is asked.
fn earliest_with(span: Span, best: Option<Span>, address: u64) -> Option<Span>
    ensures { result ≡ spec.earliest_with address span best }
{
    if is_covering(span, address) {
        earlier(span, best)
    } else {
        best
    }
}

/// The one that is first in the section, of those of the first `count` spans that cover an address. The spans are sorted by
/// their first address, each with the highest address that one up to it covers. It searches down from the last as far as
/// one may cover the address.
fn earliest_among(spans: &[Span], ends: &[u64], count: usize, address: u64) -> Option<Span>
    requires reach { ends.now ≡ spec.greatest_ends 0 spans.now }
    requires within { count ≤ length spans.now }
    ensures { result ≡ spec.earliest address (take count spans.now) }
{
    let mut best = None;
    let mut left = count;
    while left > 0 {
        left -= 1;
        if ends[left] < address {
            return best;
        }
        best = earliest_with(spans[left], best, address);
    }
    best
}

/// The one that is first in the section, of the spans that cover an address.
pub(crate) fn earliest(spans: &[Span], ends: &[u64], address: u64) -> Option<Span>
    requires ordered { IsNonDecreasingBy (λ s. s.begin) spans.now }
    requires reach { ends.now ≡ spec.greatest_ends 0 spans.now }
    ensures { result ≡ spec.earliest address spans.now }
{
    let count = spans.partition_point(|span| span.begin <= address);
    earliest_among(spans, ends, count, address)
}
