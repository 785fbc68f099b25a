// Gates that are written again before a change builds on bytes that an earlier process wrote.
ghost use Rattle.std.specs.Prelude.{◌≡◌, ◌+◌, ◌≤◌, ◌∷◌, [], ℕ, IsTrue, OnOk, Err};
ghost use Rattle.std.specs.List.{All};
ghost use Rattle.disk_model.specs.Disk.{HasCause};
ghost use Rattle.disk_model.specs.Keeping.{KeepsDisk};
ghost use Rattle.journal_snapshot.specs.Filling.{Fills};
ghost use Rattle.case_journal.specs.Settling.{WritesAgain, Settles, gates_of};

use crate::{Journal, Opened};
use disk_model::{Disk, DiskFault};
use journal_layout::{Half, OpenFault};
use std::alloc::Global;

// Writes a byte again, as it reads, by a write of its own.
fn write_again<D: Disk>(disk: &mut D, place: u64) -> Result<(), DiskFault>
    requires { place + 1 ≤ D.size disk.old }
    ensures fills { Fills D.Disk disk.old disk.new place 1 }
    ensures seen { IsTrue (D.is_honest disk.old) → OnOk result (D.seen disk.new ≡ D.seen disk.old) }
    ensures cause { HasCause (D.failures disk.old) (D.failures disk.new) result }
{
    let mut byte = [0];
    disk.read_at(place, &mut byte)?;
    disk.write_at(place, &byte)
}

// Writes the bytes at these places again, one after the other.
fn write_each_again<D: Disk>(disk: &mut D, places: &[u64]) -> Result<(), DiskFault>
    requires { All (λ p. p + 1 ≤ D.size disk.old) places.now }
    ensures again { WritesAgain D.Disk places.now disk.old disk.new }
    ensures seen { IsTrue (D.is_honest disk.old) → OnOk result (D.seen disk.new ≡ D.seen disk.old) }
    ensures cause { HasCause (D.failures disk.old) (D.failures disk.new) result }
{
    for place in places {
        write_again(disk, *place)?;
    }
    Ok(())
}

impl Opened {
    // The gates whose writing an earlier process may have ended with.
    fn gates(&self) -> [u64; 5]
        ensures { result ≡ gates_of self.now.journal.standing self.now.last_gate }
    {
        let journal = &self.journal;
        let shape = journal.shape;
        let behind = shape.half_start(journal.half) + journal.used;
        let last = match self.last_gate {
            Some(last) => last,
            None => behind,
        };
        [
            0,
            shape.half_start(Half::A),
            shape.half_start(Half::B),
            last,
            behind,
        ]
    }
}

/// Opens the journal on a disk, and writes again, as they read, the gates of the superblock and of both halves, the gate of the last record,
/// and the one behind it: each by a write of one byte, and then makes them stable. All other bytes that the opening reads were made stable
/// by the process that wrote them, before it wrote one of these gates. So a later change builds on bytes that the device has.
///
/// The answer is that of the opening, or `Disk` if the disk failed later. A disk that can't be opened is only read.
pub fn settle<D: Disk>(alloc: Global, disk: &mut D) -> Result<(), OpenFault>
    ensures settles { IsTrue (D.is_honest disk.old) → Settles D.Disk disk.old disk.new result }
    ensures disk { KeepsDisk D.Disk disk.old disk.new (result ≡ Err OpenFault.Disk) }
{
    let opened = Journal::open(alloc, disk)?;
    let Ok(()) = write_each_again(disk, &opened.gates()) else {
        return Err(OpenFault::Disk);
    };
    let Ok(()) = disk.sync() else {
        return Err(OpenFault::Disk);
    };
    Ok(())
}
