// The cases that a question may read: the places of their images, and whether they are there.
ghost use Rattle.std.specs.Prelude.{◌≡◌, false, IfErr, IfOk, OnOk};
ghost use Rattle.std.specs.List.{list_all};
ghost use Rattle.intake.specs.Parts.{state_of};
ghost use Rattle.intake.specs.declared.faults.ArchiveFault.TheVariants.{OutOfMemory};
ghost use Rattle.archive_files.specs.UnlockedFinding.{has_number};
ghost use Rattle.archive_files.specs.UnlockedPlaces.{CoversCases, FindsAll, FindsCases, IsThere};

use crate::unlocked_faults::AskFault;
use crate::unlocked_finding::has_number;
use disk_model::Disk;
use intake::{Archive, ArchiveFault, ByteRange, Settings};
use journal_layout::{Entry, Kind};
use std::alloc::Global;

/// Cases by their numbers, and the places of their images.
#[derive(Drop)]
pub struct Places {
    pub numbers: Vec<u32>,
    pub ranges: Vec<ByteRange>,
}

/// The parts of an archive that a question may read.
#[derive(Clone, Copy)]
pub enum Reads {
    /// No image.
    Nothing,
    /// That of one case.
    Image { seq: u32 },
    /// That of one case, and those of executables.
    Memory { seq: u32 },
    /// Those of all cases.
    All,
}

/// The cases that a question may read, and the places of their images.
///
/// # Errors
///
/// `Open` if the archive could not be opened. `Archive` if there is no memory.
pub fn find_cases<D: Disk + Drop>(alloc: Global, disk: D, reads: Reads) -> Result<Places, AskFault>
    ensures { FindsCases D.Disk disk result }
{
    match Archive::open(alloc, disk, Settings { limit: 0 }) {
        Ok(archive) => match places_of(alloc, &archive, reads) {
            Ok(places) => Ok(places),
            Err(fault) => Err(AskFault::Archive(fault)),
        },
        Err((fault, _)) => Err(AskFault::Open(fault)),
    }
}

fn places_of<D: Disk>(
    alloc: Global,
    archive: &Archive<D>,
    reads: Reads,
) -> Result<Places, ArchiveFault>
    requires runs { (state_of archive.now).stopped ≡ false }
    ensures covers { IfOk result (λ places. CoversCases D.Disk archive.now places.numbers.items places.ranges.items) }
    ensures memory { IfErr result (λ f. f ≡ OutOfMemory) }
{
    let mut places = Places {
        numbers: Vec::new(alloc),
        ranges: Vec::new(alloc),
    };
    let entries = archive.cases()?;
    for entry in entries {
        consider(archive, entry, reads, &mut places)?;
    }
    Ok(places)
}

// Adds a case of the archive, if it may be read.
fn consider<D: Disk>(
    archive: &Archive<D>,
    entry: &Entry,
    reads: Reads,
    places: &mut Places,
) -> Result<(), ArchiveFault>
    requires there { IsThere (state_of archive.now) entry.now.seq }
    requires covers { CoversCases D.Disk archive.now places.old.numbers.items places.old.ranges.items }
    ensures covers { OnOk result (CoversCases D.Disk archive.now places.new.numbers.items places.new.ranges.items) }
    ensures memory { IfErr result (λ f. f ≡ OutOfMemory) }
{
    if !may_read(reads, entry) {
        return Ok(());
    }
    add_place(archive, entry.seq, places)
}

fn may_read(reads: Reads, entry: &Entry) -> bool {
    match reads {
        Reads::Nothing => false,
        Reads::Image { seq } => entry.seq == seq,
        Reads::Memory { seq } => entry.seq == seq || entry.kind == Kind::Exec,
        Reads::All => true,
    }
}

fn add_place<D: Disk>(
    archive: &Archive<D>,
    seq: u32,
    places: &mut Places,
) -> Result<(), ArchiveFault>
    requires there { IsThere (state_of archive.now) seq }
    requires covers { CoversCases D.Disk archive.now places.old.numbers.items places.old.ranges.items }
    ensures covers { OnOk result (CoversCases D.Disk archive.now places.new.numbers.items places.new.ranges.items) }
    ensures memory { IfErr result (λ f. f ≡ OutOfMemory) }
{
    let ranges = archive.image_ranges(seq)?;
    places.ranges.extend_from_slice(&ranges)?;
    match places.numbers.push(seq) {
        Ok(()) => Ok(()),
        Err(_) => Err(ArchiveFault::OutOfMemory),
    }
}

// Whether the archive on a disk has all cases of these numbers.
pub(crate) fn has_all<D: Disk + Drop>(
    alloc: Global,
    disk: D,
    numbers: &[u32],
) -> Result<bool, AskFault>
    ensures { FindsAll D.Disk disk numbers.now result }
{
    match Archive::open(alloc, disk, Settings { limit: 0 }) {
        Ok(archive) => Ok(has_each(&archive, numbers)),
        Err((fault, _)) => Err(AskFault::Reopen(fault)),
    }
}

fn has_each<D: Disk>(archive: &Archive<D>, numbers: &[u32]) -> bool
    ensures { result ≡ list_all (has_number (state_of archive.now)) numbers.now }
{
    numbers.iter().all(|number| has_number(archive, *number))
}
