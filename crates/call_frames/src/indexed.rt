// A table with its FDEs sorted by address.
ghost use Rattle.std.specs.Prelude.{◌≡◌, IfOk, map};
ghost use Rattle.std.specs.List.Sorted.{IsNonDecreasingBy, IsPermutation};
ghost use Rattle.std.specs.Option.{option_map};
ghost use Rattle.call_frames.specs.Covering as spec;
ghost use Rattle.call_frames.specs.EntryWords.{data_table, entry_view};
ghost use Rattle.call_frames.specs.Walk as walk;
ghost use Rattle.call_frames.specs.declared.spans.Span as numbers;

use crate::entries::Entry;
use crate::faults::CfiFault;
use crate::spans::{Span, earliest, greatest_ends, sorted};
use crate::table_data::TableData;
use crate::walk::{first_fault, sound_entry};
use std::alloc::{AllocError, Global};

/// A table with its FDEs, to be found by address.
#[derive(Drop)]
pub(crate) struct Indexed<'a> {
    table: TableData<'a>,
    spans: Vec<Span>,
    ends: Vec<u64>,
    fault: Option<CfiFault>,
    /// The spans are those of the FDEs.
    ghost whole: { ∥ IsPermutation (map spec.span_of (walk.entries_of (data_table table))) spans.items ∥₁ },
    /// They are sorted by their first address.
    ghost ordered: { IsNonDecreasingBy (λ (s : numbers.Span). s.begin) spans.items },
    /// For each, the highest address that one up to it covers.
    ghost reach: { ends.items ≡ spec.greatest_ends 0 spans.items },
    /// The fault is the first of the table.
    ghost first: { fault ≡ walk.first_fault (data_table table) },
}

impl<'a> Indexed<'a> {
    ghost use Rattle.call_frames.specs.FindingWords.{table_in};

    /// Reads the entries of a table.
    pub(crate) fn read(alloc: Global, table: TableData<'a>) -> Result<Indexed<'a>, AllocError>
        ensures { IfOk result (λ i. table_in i ≡ data_table table.entry) }
    {
        let spans = sorted(alloc, &table.table())?;
        let ends = greatest_ends(alloc, &spans)?;
        let fault = first_fault(&table.table());
        Ok(Indexed {
            table,
            spans,
            ends,
            fault,
        })
    }

    /// The span of the first FDE that covers an address.
    fn span(&self, address: u64) -> Option<Span>
        ensures { result ≡ spec.earliest address (map spec.span_of (walk.entries_of (table_in self.now))) }
    {
        earliest(&self.spans, &self.ends, address)
    }

    /// The first FDE that covers an address.
    pub(crate) fn first_covering(&self, address: u64) -> Option<Entry<'_>>
        ensures { option_map entry_view result ≡ spec.first_covering address (table_in self.now) }
    {
        let span = self.span(address)?;
        sound_entry(&self.table.table(), span.spot)
    }

    /// The first fault of the table.
    pub(crate) fn fault(&self) -> Option<CfiFault>
        ensures { result ≡ walk.first_fault (table_in self.now) }
    {
        self.fault
    }
}
