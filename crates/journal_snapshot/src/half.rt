// All that a half holds after its gate, written in order.
ghost use Rattle.std.specs.Prelude.{◌≡◌, ◌+◌, ◌≤◌, ◌++◌, ◌∷◌, [], length, vec_capacity, IsTrue, OnOk};
ghost use Rattle.disk_model.specs.Disk.{HasCause};
ghost use Rattle.disk_model.specs.Places.{part};
ghost use Rattle.disk_model.specs.Moments.{IsSettled};
ghost use Rattle.journal_layout.specs.Layout.{half_header};
ghost use Rattle.journal_snapshot.specs.Changing.{IsOrdered};
ghost use Rattle.journal_snapshot.specs.Filling.{Fills};
ghost use Rattle.journal_snapshot.specs.Writing.{Writes, written_added, AreAtMost};
ghost use Rattle.journal_snapshot.specs.Halves.{half_bytes};

use crate::cases::{write_added, write_entries};
use crate::filling::fill;
use crate::{Change, Target};
use byteorder::{ByteOrder, LittleEndian};
use disk_model::{Disk, DiskFault};
use journal_layout::Entry;
use journal_records::next_record;

// A half's header without its gate.
#[tactic(auto, unfolding(journal_layout::specs::Layout::half_header, journal_layout::specs::Layout::number_bytes))]
fn header(version: u32, generation: u64) -> [u8; 31]
    ensures bytes { result ≡ half_header version generation }
    ensures size { length result ≡ 31 }
{
    let mut bytes = [0; 31];
    LittleEndian::write_u32(&mut bytes[3..], version);
    LittleEndian::write_u64(&mut bytes[7..], generation);
    bytes
}

// Writes bytes by one write. Returns the place where they end.
fn write_bytes<D: Disk>(disk: &mut D, at: u64, bytes: &[u8]) -> Result<u64, DiskFault>
    requires { at + length bytes.now ≤ D.size disk.old }
    ensures writes { Writes D.Disk disk.old disk.new at bytes.now result }
    ensures cause { HasCause (D.failures disk.old) (D.failures disk.new) result }
{
    fill(disk, at, bytes)?;
    Ok(at + bytes.len() as u64)
}

// Writes the header after the gate, a record for each case, and one of the next number with a closed gate after it.
fn write_half<D: Disk>(
    disk: &mut D,
    target: Target,
    entries: &[Entry],
    change: &Change,
    buffer: &mut Vec<u8>,
) -> Result<u64, DiskFault>
    requires order { IsOrdered change.now }
    requires small { AreAtMost 16777216 change.now entries.now }
    requires capacity { AreAtMost (vec_capacity buffer.old) change.now entries.now }
    requires small_added { length (written_added change.now) ≤ 16777216 }
    requires capacity_added { length (written_added change.now) ≤ vec_capacity buffer.old }
    requires in_half { target.start + 1 + length (half_bytes target change.now entries.now) ≤ D.size disk.old }
    ensures writes { Writes D.Disk disk.old disk.new (target.start + 1) (half_bytes target change.now entries.now) result }
    ensures cause { HasCause (D.failures disk.old) (D.failures disk.new) result }
{
    let at = write_bytes(
        disk,
        target.start + 1,
        &header(target.version, target.generation),
    )?;
    let at = write_entries(disk, at, entries, change, buffer)?;
    let at = write_added(disk, at, change, buffer)?;
    write_bytes(disk, at, &next_record(target.next))
}

/// The same made stable.
pub(crate) fn fill_half<D: Disk>(
    disk: &mut D,
    target: Target,
    entries: &[Entry],
    change: &Change,
    buffer: &mut Vec<u8>,
) -> Result<(), DiskFault>
    requires order { IsOrdered change.now }
    requires small { AreAtMost 16777216 change.now entries.now }
    requires capacity { AreAtMost (vec_capacity buffer.old) change.now entries.now }
    requires small_added { length (written_added change.now) ≤ 16777216 }
    requires capacity_added { length (written_added change.now) ≤ vec_capacity buffer.old }
    requires in_half { target.start + 1 + length (half_bytes target change.now entries.now) ≤ D.size disk.old }
    ensures fills { Fills D.Disk disk.old disk.new (target.start + 1) (length (half_bytes target change.now entries.now)) }
    ensures there { IsTrue (D.is_honest disk.old) → OnOk result (part (D.seen disk.new) (target.start + 1) (length (half_bytes target change.now entries.now)) ≡ half_bytes target change.now entries.now) }
    ensures settled { IsTrue (D.is_honest disk.old) → OnOk result (IsSettled D.Disk disk.new) }
    ensures cause { HasCause (D.failures disk.old) (D.failures disk.new) result }
{
    write_half(disk, target, entries, change, buffer)?;
    disk.sync()
}
