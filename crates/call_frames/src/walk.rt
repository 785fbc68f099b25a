// The FDEs of a table, in order, and its first fault.
ghost use Rattle.std.specs.Prelude.{◌≡◌, ◌∷◌, [], MatchOption};
ghost use Rattle.std.specs.Option.{option_map};
ghost use Rattle.call_frames.specs.Entry.{entry_at};
ghost use Rattle.call_frames.specs.EntryWords.{table_view, entry_view};
ghost use Rattle.call_frames.specs.Walk as spec;
ghost use Rattle.call_frames.specs.WalkWords.{spots_left};

use crate::entries::{Entry, Table};
use crate::faults::CfiFault;
use crate::spots::{Spot, Spots};

/// The FDEs of a table that have no fault, in its order.
#[derive(Clone, Copy)]
pub(crate) struct Entries<'a> {
    table: Table<'a>,
    spots: Spots<'a>,
}

/// The entry at a spot, if it is an FDE without a fault.
pub(crate) fn sound_entry<'a>(table: &Table<'a>, spot: Spot) -> Option<Entry<'a>>
    ensures { option_map entry_view result ≡ spec.sound_entry (entry_at (table_view table.now) spot) }
{
    match Entry::at(table, spot) {
        Ok(entry) => entry,
        Err(_) => None,
    }
}

/// The FDE at the next spot that has one without a fault.
fn next_entry<'a>(table: &Table<'a>, spots: &mut Spots<'a>) -> Option<Entry<'a>>
    ensures { MatchOption result
        ((spec.entries_among (table_view table.now) (spots_left spots.old) ≡ [])
        × (spec.entries_among (table_view table.now) (spots_left spots.new) ≡ []))
        (λ entry. spec.entries_among (table_view table.now) (spots_left spots.old)
        ≡ entry_view entry ∷ spec.entries_among (table_view table.now) (spots_left spots.new)) }
{
    while let Some(spot) = spots.next() {
        match sound_entry(table, spot) {
            Some(entry) => return Some(entry),
            None => {}
        }
    }
    None
}

impl<'a> Entries<'a> {
    ghost use Rattle.call_frames.specs.WalkWords.{entries_left};

    /// The FDEs of a table.
    pub(crate) fn new(table: &Table<'a>) -> Entries<'a>
        ensures { entries_left result ≡ spec.entries_of (table_view table.now) }
    {
        Entries {
            table: *table,
            spots: Spots::new(table.bytes),
        }
    }
}

impl<'a> Iterator for Entries<'a> {
    ghost use Rattle.std.specs.Iterator.{YieldsFirstBy, item_count};
    ghost use Rattle.call_frames.specs.WalkWords.{entries_left};

    type Item = Entry<'a>;

    ghost next_gives = { YieldsFirstBy entry_view entries_left };

    ghost remaining = { item_count entries_left };

    fn next(&mut self) -> Option<Entry<'a>> {
        next_entry(&self.table, &mut self.spots)
    }
}

/// The first fault of a table.
pub(crate) fn first_fault(table: &Table<'_>) -> Option<CfiFault>
    ensures { result ≡ spec.first_fault (table_view table.now) }
{
    let mut spots = Spots::new(table.bytes);
    while let Some(spot) = spots.next() {
        match Entry::at(table, spot) {
            Ok(_) => {}
            Err(field) => {
                return Some(CfiFault {
                    field,
                    index: spot.index,
                });
            }
        }
    }
    None
}
