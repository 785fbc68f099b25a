// The records of the cases, one write for each.
ghost use Rattle.std.specs.Prelude.{◌≡◌, ◌+◌, ◌≤◌, length, vec_capacity};
ghost use Rattle.disk_model.specs.Disk.{HasCause};
ghost use Rattle.journal_layout.specs.Record.{Label, spelling};
ghost use Rattle.journal_snapshot.specs.Changing.{IsOrdered};
ghost use Rattle.journal_snapshot.specs.Writing.{Writes, written, written_label, written_case, written_entry, written_entries, written_added, AreAtMost};

use crate::Change;
use crate::filling::fill;
use disk_model::{Disk, DiskFault};
use journal_layout::{Entry, Label};
use journal_records::{spell_label, spell_store};

// Writes the Store record of a case, its gate open, by one write. Returns the place where it ends.
fn write_store<D: Disk>(
    disk: &mut D,
    at: u64,
    seq: u32,
    entry: &Entry,
    pinned: bool,
    buffer: &mut Vec<u8>,
) -> Result<u64, DiskFault>
    requires small { length (written seq entry.now pinned) ≤ 16777216 }
    requires capacity { length (written seq entry.now pinned) ≤ vec_capacity buffer.old }
    requires in_half { at + length (written seq entry.now pinned) ≤ D.size disk.old }
    ensures writes { Writes D.Disk disk.old disk.new at (written seq entry.now pinned) result }
    ensures kept { vec_capacity buffer.old ≤ vec_capacity buffer.new }
    ensures cause { HasCause (D.failures disk.old) (D.failures disk.new) result }
{
    spell_store(buffer, seq, entry, pinned).unwrap();
    fill(disk, at, buffer)?;
    Ok(at + buffer.len() as u64)
}

// Writes the record of a label, its gate open, by one write. Returns the place where it ends.
fn write_text<D: Disk>(
    disk: &mut D,
    at: u64,
    seq: u32,
    label: &[u8],
    buffer: &mut Vec<u8>,
) -> Result<u64, DiskFault>
    requires short { length label.now ≤ 64 }
    requires capacity { length (spelling (Label seq label.now)) ≤ vec_capacity buffer.old }
    requires in_half { at + length (spelling (Label seq label.now)) ≤ D.size disk.old }
    ensures writes { Writes D.Disk disk.old disk.new at (spelling (Label seq label.now)) result }
    ensures kept { vec_capacity buffer.old ≤ vec_capacity buffer.new }
    ensures cause { HasCause (D.failures disk.old) (D.failures disk.new) result }
{
    spell_label(buffer, seq, label).unwrap();
    fill(disk, at, buffer)?;
    Ok(at + buffer.len() as u64)
}

// Writes the record of a case's label, if the label is not empty.
fn write_label<D: Disk>(
    disk: &mut D,
    at: u64,
    seq: u32,
    label: &Label,
    buffer: &mut Vec<u8>,
) -> Result<u64, DiskFault>
    requires capacity { length (written_label seq label.now.items) ≤ vec_capacity buffer.old }
    requires in_half { at + length (written_label seq label.now.items) ≤ D.size disk.old }
    ensures writes { Writes D.Disk disk.old disk.new at (written_label seq label.now.items) result }
    ensures kept { vec_capacity buffer.old ≤ vec_capacity buffer.new }
    ensures cause { HasCause (D.failures disk.old) (D.failures disk.new) result }
{
    if label.is_empty() {
        return Ok(at);
    }
    write_text(disk, at, seq, label.as_slice(), buffer)
}

// Writes the records of a case: its Store record, and that of its label after it.
fn write_case<D: Disk>(
    disk: &mut D,
    at: u64,
    seq: u32,
    entry: &Entry,
    pinned: bool,
    label: &Label,
    buffer: &mut Vec<u8>,
) -> Result<u64, DiskFault>
    requires small { length (written_case seq entry.now pinned label.now.items) ≤ 16777216 }
    requires capacity { length (written_case seq entry.now pinned label.now.items) ≤ vec_capacity buffer.old }
    requires in_half { at + length (written_case seq entry.now pinned label.now.items) ≤ D.size disk.old }
    ensures writes { Writes D.Disk disk.old disk.new at (written_case seq entry.now pinned label.now.items) result }
    ensures kept { vec_capacity buffer.old ≤ vec_capacity buffer.new }
    ensures cause { HasCause (D.failures disk.old) (D.failures disk.new) result }
{
    let at = write_store(disk, at, seq, entry, pinned, buffer)?;
    write_label(disk, at, seq, label, buffer)
}

// Writes the records of an entry, if it stays.
fn write_entry<D: Disk>(
    disk: &mut D,
    at: u64,
    entry: &Entry,
    change: &Change,
    buffer: &mut Vec<u8>,
) -> Result<u64, DiskFault>
    requires order { IsOrdered change.now }
    requires small { length (written_entry change.now entry.now) ≤ 16777216 }
    requires capacity { length (written_entry change.now entry.now) ≤ vec_capacity buffer.old }
    requires in_half { at + length (written_entry change.now entry.now) ≤ D.size disk.old }
    ensures writes { Writes D.Disk disk.old disk.new at (written_entry change.now entry.now) result }
    ensures kept { vec_capacity buffer.old ≤ vec_capacity buffer.new }
    ensures cause { HasCause (D.failures disk.old) (D.failures disk.new) result }
{
    let Some(pinned) = change.flag_of(entry) else {
        return Ok(at);
    };
    let label = change.label_of(entry);
    write_case(disk, at, entry.seq, entry, pinned, label, buffer)
}

/// Writes the records of those of these entries that stay, in their order, from place `at` on. Returns the place where they end.
pub(crate) fn write_entries<D: Disk>(
    disk: &mut D,
    start: u64,
    entries: &[Entry],
    change: &Change,
    buffer: &mut Vec<u8>,
) -> Result<u64, DiskFault>
    requires order { IsOrdered change.now }
    requires small { AreAtMost 16777216 change.now entries.now }
    requires capacity { AreAtMost (vec_capacity buffer.old) change.now entries.now }
    requires in_half { start + length (written_entries change.now entries.now) ≤ D.size disk.old }
    ensures writes { Writes D.Disk disk.old disk.new start (written_entries change.now entries.now) result }
    ensures kept { vec_capacity buffer.old ≤ vec_capacity buffer.new }
    ensures cause { HasCause (D.failures disk.old) (D.failures disk.new) result }
{
    let mut at = start;
    for entry in entries {
        at = write_entry(disk, at, entry, change, buffer)?;
    }
    Ok(at)
}

/// Writes the records of the case that comes by a change, if one does.
pub(crate) fn write_added<D: Disk>(
    disk: &mut D,
    at: u64,
    change: &Change,
    buffer: &mut Vec<u8>,
) -> Result<u64, DiskFault>
    requires small { length (written_added change.now) ≤ 16777216 }
    requires capacity { length (written_added change.now) ≤ vec_capacity buffer.old }
    requires in_half { at + length (written_added change.now) ≤ D.size disk.old }
    ensures writes { Writes D.Disk disk.old disk.new at (written_added change.now) result }
    ensures kept { vec_capacity buffer.old ≤ vec_capacity buffer.new }
    ensures cause { HasCause (D.failures disk.old) (D.failures disk.new) result }
{
    match change {
        Change::Store(seq, entry) => {
            write_case(disk, at, *seq, entry, entry.pinned, &entry.label, buffer)
        }
        Change::Nothing => Ok(at),
        Change::Drop(_) => Ok(at),
        Change::Pin(_, _) => Ok(at),
        Change::Label(_, _) => Ok(at),
        Change::Upgrade => Ok(at),
    }
}
