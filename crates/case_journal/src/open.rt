// Opening a journal: the front of the archive, and then the records of the half that is taken.
ghost use Rattle.std.specs.Prelude.{◌≡◌, ℕ, List, ◌+◌, ◌-◌, ◌<◌, ◌≤◌, ◌^◌, false, length, IsTrue, IfOk, IfSome, OnOk, IsOkUnless, Ok, Err, option_map};
ghost use Rattle.std.specs.List.{All};
ghost use Rattle.disk_model.specs.Disk.{HasCause, HasRisen, Only};
ghost use Rattle.disk_model.specs.Moments.{LeavesOnly, IsSettled};
ghost use Rattle.disk_model.specs.Keeping.{KeepsDisk};
ghost use Rattle.journal_layout.specs.Layout.{disk_length, half_length, IsWithinLimits};
ghost use Rattle.journal_layout.specs.Stands.{Stands, records_start};
ghost use Rattle.journal_layout.specs.Standing.{Standing};
ghost use Rattle.journal_layout.specs.Live.{AreLive, AreLabelled};
ghost use Rattle.case_journal.specs.Keeping.{Keeps};
ghost use Rattle.case_journal.specs.Opening.{journal_of};
ghost use Rattle.case_journal.specs.Settling.{ShowsLast, gates_of};
ghost use Rattle.case_journal.specs.Viewing.{IsView, Shows, ShowsOpening, OnlyReads, IsOpenRefusal, FindsStanding};
ghost use Rattle.journal_records.specs.Kept.{AreNames, IsSpareMap};

use crate::Journal;
use crate::front::{ArchiveFront, read_front, read_part};
use crate::live_entries::LiveEntries;
use disk_model::Disk;
use extents::FreeMap;
use journal_layout::OpenFault;
use journal_records::{NameKey, replay};
use std::alloc::Global;
use std::collections::BTreeSet;

// The bytes of a half's header.
const HEADER: u64 = 32;

// Makes the written bytes stable, so that a crash leaves the bytes that reads give.
fn settle<D: Disk>(disk: &mut D) -> Result<(), OpenFault>
    ensures quiet { OnlyReads D.Disk disk.old disk.new }
    ensures settled { IsTrue (D.is_honest disk.old) → OnOk result (Only (D.seen disk.old) (D.may_leave disk.new)) }
    ensures only { IsOkUnless result OpenFault.Disk }
    ensures cause { HasCause (D.failures disk.old) (D.failures disk.new) result }
{
    let Ok(()) = disk.sync() else {
        return Err(OpenFault::Disk);
    };
    Ok(())
}

// Reads the bytes of the taken half after its header.
fn read_records<D: Disk>(
    alloc: Global,
    disk: &mut D,
    front: ArchiveFront,
) -> Result<Vec<u8>, OpenFault>
    requires limits { IsWithinLimits front.shape }
    requires size { D.size disk.old ≡ disk_length front.shape }
    ensures shows { (b : List ℕ) → IsView D.Disk disk.old b
        → IfOk result (λ v. Shows D.Disk disk.new (records_start front.shape front.half) v.items b) }
    ensures long { IfOk result (λ v. length v.items ≡ half_length front.shape - 32) }
    ensures quiet { OnlyReads D.Disk disk.old disk.new }
    ensures only { IsOpenRefusal result }
    ensures cause { result ≡ Err OpenFault.Disk
        → HasRisen (D.failures disk.old) (D.failures disk.new) }
    ensures later { D.failures disk.old ≤ D.failures disk.new }
{
    let size = front.shape.half_length() - HEADER;
    let Ok(mut bytes) = vec![in alloc; 0; size as usize] else {
        return Err(OpenFault::OutOfMemory);
    };
    read_part(
        disk,
        front.shape.half_start(front.half) + HEADER,
        &mut bytes,
    )?;
    Ok(bytes)
}

/// The result of an opening: the journal, and the facts that were gathered while its records were read.
#[derive(Drop)]
pub struct Opened {
    /// The open journal.
    pub journal: Journal,
    /// The place of the gate of its last record, if it has one.
    pub last_gate: Option<u64>,
    /// The names of its cases.
    pub names: BTreeSet<NameKey>,
    /// The data blocks that no case of it has.
    pub free: FreeMap,
}

// The place that is so many bytes after another one, if there is one.
fn place_after(at: u64, size: Option<u64>) -> Option<u64>
    requires { IfSome size (λ n. at + n < 2 ^ 64) }
    ensures { result ≡ option_map (λ n. at + n) size }
{
    match size {
        Some(size) => Some(at + size),
        None => None,
    }
}

// Reads the journal of a disk, whose front was read.
fn read_journal<D: Disk>(alloc: Global, disk: &mut D) -> Result<Opened, OpenFault>
    ensures shows { (b : List ℕ) → IsView D.Disk disk.old b
        → ShowsOpening D.Disk disk.new (journal_of result) }
    ensures size { IfOk result (λ o. D.size disk.new ≡ disk_length o.journal.standing.shape) }
    ensures runs { IfOk result (λ o. o.journal.stopped ≡ false) }
    ensures last { (b : List ℕ) → IsView D.Disk disk.old b
        → IfOk result (λ o. ShowsLast D.Disk disk.new o.journal.standing o.last_gate) }
    ensures gates { IfOk result (λ o. All (λ p. p + 1 ≤ D.size disk.new) (gates_of o.journal.standing o.last_gate)) }
    ensures names { IfOk result (λ o. AreNames o.journal.standing.cases o.names) }
    ensures free { IfOk result (λ o. IsSpareMap o.journal.standing.shape.data_blocks o.journal.standing.cases o.free) }
    ensures quiet { OnlyReads D.Disk disk.old disk.new }
    ensures cause { result ≡ Err OpenFault.Disk
        → HasRisen (D.failures disk.old) (D.failures disk.new) }
    ensures later { D.failures disk.old ≤ D.failures disk.new }
{
    let front = read_front(disk)?;
    let bytes = read_records(alloc, disk, front)?;
    let at = front.shape.half_start(front.half) + HEADER;
    let read = replay(alloc, &bytes, at, front.version, front.shape.data_blocks)?;
    Ok(Opened {
        journal: Journal {
            shape: front.shape,
            half: front.half,
            version: front.version,
            generation: front.generation,
            entries: LiveEntries::new(read.entries),
            next: read.next,
            used: HEADER + read.size,
            stopped: false,
        },
        last_gate: place_after(at, read.last),
        names: read.names,
        free: read.free,
    })
}

impl Journal {
    /// Opens the journal on a disk, beginning with a sync. It answers the first check of the layout that fails; none fails
    /// if a crash left bytes that encode some cases. It reads each half's header, and the rest of the half that is taken in
    /// one read. It also answers the names of the cases and the blocks that they leave free. `Disk`: the disk failed.
    /// `OutOfMemory`: there was no memory. Both may come before a check.
    pub fn open<D: Disk>(alloc: Global, disk: &mut D) -> Result<Opened, OpenFault>
        // The answer is the opening of some list of bytes as long as the disk, on an honest disk of its bytes.
        ensures gives { ShowsOpening D.Disk disk.old (journal_of result) }
        // The archive that the disk encodes is found, and only the disk and the memory refuse it.
        ensures found { (s : Standing) → IsTrue (D.is_honest disk.old) → Stands (D.seen disk.old) s
            → FindsStanding (journal_of result) s }
        ensures keeps { IfOk result (λ o. Keeps D.Disk disk.new o.journal) }
        // The invariants of the cases of any archive: their numbers rise, no block is used twice, and so on.
        ensures live { IfOk result (λ o. AreLive o.journal.standing.shape.data_blocks o.journal.standing.cases o.journal.standing.next) }
        // Version 2 of the layout keeps labels, and no other.
        ensures labels { IfOk result (λ o. AreLabelled o.journal.standing.version o.journal.standing.cases) }
        ensures runs { IfOk result (λ o. o.journal.stopped ≡ false) }
        // Where the gate of the last record is.
        ensures last { IfOk result (λ o. ShowsLast D.Disk disk.old o.journal.standing o.last_gate) }
        ensures gates { IfOk result (λ o. All (λ p. p + 1 ≤ D.size disk.new) (gates_of o.journal.standing o.last_gate)) }
        // The set has the names of the cases, and the map the data blocks that none of them has.
        ensures names { IfOk result (λ o. AreNames o.journal.standing.cases o.names) }
        ensures free { IfOk result (λ o. IsSpareMap o.journal.standing.shape.data_blocks o.journal.standing.cases o.free) }
        // A crash during the call leaves only disks that one before it could have left.
        ensures any_moment { IsTrue (D.is_honest disk.old)
            → LeavesOnly D.Disk disk.old disk.new (D.may_leave disk.old) }
        ensures seen { IsTrue (D.is_honest disk.old) → D.seen disk.new ≡ D.seen disk.old }
        // After it a crash leaves the bytes that reads give.
        ensures settled { IsTrue (D.is_honest disk.old) → OnOk result (IsSettled D.Disk disk.new) }
        ensures disk { KeepsDisk D.Disk disk.old disk.new (result ≡ Err OpenFault.Disk) }
    {
        settle(disk)?;
        read_journal(alloc, disk)
    }
}
