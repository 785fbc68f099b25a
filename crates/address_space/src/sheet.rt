// The addresses that each segment decides, if PT_LOADs may have addresses in common.
ghost use Rattle.std.specs.Prelude.{not, is_some, ◌≡◌, ℕ, IfOk};
ghost use Rattle.std.specs.Option.{ForSome, option_map};
ghost use Rattle.elf_view.specs.Header.{SegmentView, segments_of};
ghost use Rattle.elf_view.specs.ViewWords.{image_of};
ghost use Rattle.address_space.specs.Source.{first_from, is_covering};
ghost use Rattle.address_space.specs.Layers.{IsSheet, holder};
ghost use Rattle.address_space.specs.Orders.{IsOrderOf};

use crate::order::Order;
use crate::row::segment_rows;
use crate::table::Table;
use elf_view::{Elf, accepted_segments_fit};
use std::alloc::{AllocError, Global};

/// Rows of addresses, each with the number of the segment that decides them: by address, and by number.
#[derive(Drop)]
pub(crate) struct Sheet {
    pub(crate) table: Table,
    pub(crate) order: Order,
}

impl Sheet {
    /// The sheet of a core's segments. The error is that there is no memory for it.
    pub(crate) fn of(alloc: Global, elf: &Elf<'_>) -> Result<Sheet, AllocError>
        ensures laid { IfOk result (λ s. ∥ IsSheet s.table.rows.items ∥₁) }
        ensures deciding { IfOk result (λ s. (a : ℕ) → holder s.table.rows.items a
            ≡ option_map (λ (d : ℕ × SegmentView). d.0) (first_from (is_covering a) 0 (segments_of (image_of elf.now)))) }
        ensures ordered { IfOk result (λ s. IsOrderOf (λ a. option_map (λ (d : ℕ × SegmentView). d.0)
            (first_from (is_covering a) 0 (segments_of (image_of elf.now)))) s.order.rows.items) }
    {
        accepted_segments_fit();
        let rows = segment_rows(alloc, elf.segments())?;
        let table = Table::layered(alloc, &rows)?;
        let order = Order::of(alloc, &table.rows)?;
        Ok(Sheet { table, order })
    }

    /// The sheet of a core's segments, or `None` if they have a table. The only error is that there is no memory for it.
    pub(crate) fn unless(
        has_table: bool,
        alloc: Global,
        elf: &Elf<'_>,
    ) -> Result<Option<Sheet>, AllocError>
        ensures there { IfOk result (λ o. is_some o ≡ not has_table) }
        ensures laid { IfOk result (λ o. ForSome o (λ s. ∥ IsSheet s.table.rows.items ∥₁)) }
        ensures deciding { IfOk result (λ o. ForSome o (λ s. (a : ℕ) → holder s.table.rows.items a
            ≡ option_map (λ (d : ℕ × SegmentView). d.0) (first_from (is_covering a) 0 (segments_of (image_of elf.now))))) }
        ensures ordered { IfOk result (λ o. ForSome o (λ s. IsOrderOf (λ a. option_map (λ (d : ℕ × SegmentView). d.0)
            (first_from (is_covering a) 0 (segments_of (image_of elf.now)))) s.order.rows.items)) }
    {
        if has_table {
            return Ok(None);
        }
        let sheet = Sheet::of(alloc, elf)?;
        Ok(Some(sheet))
    }
}
