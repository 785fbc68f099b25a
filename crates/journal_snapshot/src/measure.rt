// How much of a half a journal takes that is written anew.
ghost use Rattle.std.specs.Prelude.{◌≡◌, ◌+◌, ◌≤◌, ◌^◌, length, Some, None, Option};
ghost use Rattle.journal_snapshot.specs.Changing.{IsOrdered};
ghost use Rattle.journal_snapshot.specs.Writing.{written_entry, written_added};
ghost use Rattle.journal_snapshot.specs.Measuring.{IsMeasure, Grows, AreShort, IsShort};

use crate::Change;
use journal_layout::Entry;
use journal_records::case_size;

/// The size of a journal that is written anew.
#[derive(Clone, Copy)]
pub struct Measure {
    /// The bytes of the header and the records.
    pub used: u64,
    /// The bytes of the records of that case whose records are longest.
    pub largest: u64,
}

// The bytes of a half's header and of the record of the next number.
const LEAST: u64 = 48;

impl Measure {
    // With records of `size` bytes more; `None` if the gate after them passes the end of the half.
    fn with(self, size: u64, half: u64) -> Option<Measure>
        requires half { half ≤ 16777216 }
        requires in_half { self.used + 1 ≤ half }
        ensures { Grows self size half result }
    {
        let used = self.used.checked_add(size)?;
        if half <= used {
            return None;
        }
        Some(Measure {
            used,
            largest: self.largest.max(size),
        })
    }

    // With the records of one more entry, if it stays.
    fn with_entry(self, entry: &Entry, change: &Change, half: u64) -> Option<Measure>
        requires order { IsOrdered change.now }
        requires short { length entry.now.runs ≤ 2 ^ 52 }
        requires half { half ≤ 16777216 }
        requires in_half { self.used + 1 ≤ half }
        ensures { Grows self (length (written_entry change.now entry.now)) half result }
    {
        match change.flag_of(entry) {
            Some(_) => self.with(case_size(entry, change.label_of(entry)), half),
            None => Some(self),
        }
    }

    // With the records of the case that comes, if one does.
    fn with_added(self, change: &Change, half: u64) -> Option<Measure>
        requires short { IsShort change.now }
        requires half { half ≤ 16777216 }
        requires in_half { self.used + 1 ≤ half }
        ensures { Grows self (length (written_added change.now)) half result }
    {
        match change {
            Change::Store(_, entry) => self.with(case_size(entry, &entry.label), half),
            Change::Nothing => Some(self),
            Change::Drop(_) => Some(self),
            Change::Pin(_, _) => Some(self),
            Change::Label(_, _) => Some(self),
            Change::Upgrade => Some(self),
        }
    }
}

/// Measures the cases after a change; `None` if they do not fit into a half of `half` bytes with the gate after them.
pub fn measured(entries: &[Entry], change: &Change, half: u64) -> Option<Measure>
    requires order { IsOrdered change.now }
    requires short { AreShort entries.now }
    requires short_added { IsShort change.now }
    requires half { 4096 ≤ half }
    requires small { half ≤ 16777216 }
    ensures { IsMeasure half change.now entries.now result }
{
    let mut sum = Measure {
        used: LEAST,
        largest: 0,
    };
    for entry in entries {
        sum = sum.with_entry(entry, change, half)?;
    }
    sum.with_added(change, half)
}
