// The reads of a look.
ghost use Rattle.std.specs.Prelude.{◌≡◌, ◌+◌, ◌<◌, ◌≤◌, ℕ, length, IsTrue, OnOk};
ghost use Rattle.disk_model.specs.Places.{SameOutside, part};
ghost use Rattle.journal_layout.specs.Layout.{data_start, half_start, half_length, disk_length, IsWithinLimits};
ghost use Rattle.journal_layout.specs.declared.shape.Half.TheVariants.{A, B};
ghost use Rattle.shared_disk.specs.JournalLooks.{IsRead};
ghost use Rattle.shared_disk.specs.Reading.{AreReadIn};
ghost use Rattle.shared_disk.specs.Watching.{HasRead, Runs};

use crate::watched::WatchedDisk;
use disk_model::DiskFault;
use journal_layout::{Half, Shape};

/// Reads as many bytes in both halves, from this place of each on.
pub(crate) fn read_both<D: WatchedDisk>(
    disk: &mut D,
    shape: Shape,
    offset: u64,
    a: &mut [u8],
    b: &mut [u8],
) -> Result<(), DiskFault>
    requires limits { IsWithinLimits shape }
    requires size { D.size disk.old ≡ disk_length shape }
    requires first { offset + length a.old ≤ 32 }
    requires second { offset + length b.old ≤ 32 }
    ensures first { OnOk result (IsTrue (D.is_honest disk.old) → AreReadIn (D.moments disk.old) (D.reached disk.old) (D.reached disk.new) (half_start shape A + offset) a.new) }
    ensures second { OnOk result (IsTrue (D.is_honest disk.old) → AreReadIn (D.moments disk.old) (D.reached disk.old) (D.reached disk.new) (half_start shape B + offset) b.new) }
    ensures runs { Runs D.WatchedDisk disk.old disk.new }
{
    disk.read_at(shape.half_start(Half::A) + offset, a)?;
    disk.read_at(shape.half_start(Half::B) + offset, b)
}

/// Reads n bytes from place `at` on into the same places of the front.
pub(crate) fn read_part<D: WatchedDisk>(
    disk: &mut D,
    front: &mut [u8],
    at: usize,
    n: usize,
) -> Result<(), DiskFault>
    requires front { at + n ≤ length front.old }
    requires disk { length front.old ≤ D.size disk.old }
    ensures read { OnOk result (IsTrue (D.is_honest disk.old) → AreReadIn (D.moments disk.old) (D.reached disk.old) (D.reached disk.new) at (part front.new at n)) }
    ensures others { SameOutside at n front.old front.new }
    ensures runs { Runs D.WatchedDisk disk.old disk.new }
{
    disk.read_at(at as u64, &mut front[at..at + n])
}

/// Reads the superblock, the headers of both halves and one half up to its gate at `behind` into the same places of the front.
pub(crate) fn read_front<D: WatchedDisk>(
    disk: &mut D,
    shape: Shape,
    half: Half,
    behind: u64,
    front: &mut [u8],
) -> Result<(), DiskFault>
    requires limits { IsWithinLimits shape }
    requires size { D.size disk.old ≡ disk_length shape }
    requires front { length front.old ≡ data_start shape }
    requires start { half_start shape half ≤ behind }
    requires in_half { behind < half_start shape half + half_length shape }
    ensures read { OnOk result (IsTrue (D.is_honest disk.old) → HasRead D.WatchedDisk disk.old disk.new front.new (IsRead shape half behind)) }
    ensures front { length front.new ≡ length front.old }
    ensures runs { Runs D.WatchedDisk disk.old disk.new }
{
    let start = shape.half_start(half);
    read_part(disk, front, 0, 24)?;
    read_part(disk, front, shape.half_start(Half::A) as usize, 32)?;
    read_part(disk, front, shape.half_start(Half::B) as usize, 32)?;
    read_part(disk, front, start as usize, (behind + 1 - start) as usize)
}
