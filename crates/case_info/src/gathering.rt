// The cases of an archive, with the files that each core maps.
ghost use Rattle.std.specs.Prelude.{◌≡◌, IfOk, map};
ghost use Rattle.journal_layout.specs.Case.{case_of};
ghost use Rattle.intake.specs.Parts.{state_of};
ghost use Rattle.shared_disk.specs.Looks.{shared_of};
ghost use Rattle.case_info.specs.Gathering.{CasesOn, Gathers, GathersBetween, GathersOn, SeesEach, SeesFilesOf, case_value, file_view, files_view, is_core_kind, listed_view};

use crate::kept_files::{KeptFile, push_files};
use crate::mapped::files_in;
use archive_files::{ArchivePath, Places, Reads, Refusal, find_cases, stay, take_look, unasked};
use disk_model::Disk;
use intake::{Archive, ArchiveFault, Settings, a_case_is_there_between, the_next_number_is_above};
use journal_layout::{Entry, Kind};
use retention::Brief;
use shared_disk::{Looked, SharedDisk, Unlocked};
use std::alloc::{AllocError, Global};
use std::fs::File;
use std::rt::Files;

// How often an archive is looked at of which a case was deleted meanwhile.
const TRIES: usize = 3;

// A case of an archive.
#[derive(Drop)]
pub(crate) struct ListedCase {
    pub(crate) name: Vec<u8>,
    pub(crate) brief: Brief,
    pub(crate) is_core: bool,
}

// The cases of an archive in the order of their numbers, and for
// each the files that it maps: an empty list, if it is no core.
#[derive(Drop)]
pub(crate) struct Gathered {
    pub(crate) cases: Vec<ListedCase>,
    pub(crate) files: Vec<Vec<KeptFile>>,
}

// The facts of a case.
fn listed_case(alloc: Global, entry: &Entry) -> Result<ListedCase, AllocError>
    ensures { IfOk result (λ listed. listed_view listed ≡ case_value (case_of entry.now)) }
{
    Ok(ListedCase {
        name: entry.name.as_slice().to_vec(alloc)?,
        brief: Brief {
            seq: entry.seq,
            time: entry.time,
            length: entry.length,
            pinned: entry.pinned,
        },
        is_core: is_core(entry.kind),
    })
}

fn is_core(kind: Kind) -> bool
    ensures { result ≡ is_core_kind kind }
{
    match kind {
        Kind::Core => true,
        Kind::Exec => false,
    }
}

// The facts of these cases.
fn listed_cases(alloc: Global, entries: &[Entry]) -> Result<Vec<ListedCase>, AllocError>
    ensures { IfOk result (λ cases. map listed_view cases.items ≡ map case_value (map case_of entries.now)) }
{
    let mut cases = Vec::new(alloc);
    for entry in entries {
        cases.push(listed_case(alloc, entry)?)?;
    }
    Ok(cases)
}

// The facts of the cases of an archive.
fn cases_in<D: Disk>(alloc: Global, archive: &Archive<D>) -> Result<Vec<ListedCase>, Refusal>
    ensures { IfOk result (λ cases. map listed_view cases.items ≡ map case_value (state_of archive.now).cases) }
{
    match archive.cases() {
        Ok(entries) => Ok(listed_cases(alloc, entries)?),
        Err(fault) => Err(Refusal::Call(fault)),
    }
}

// The same of the archive on a disk.
pub(crate) fn cases_on<D: Disk + Drop>(alloc: Global, disk: D) -> Result<Vec<ListedCase>, Refusal>
    ensures { CasesOn D.Disk disk result }
{
    match Archive::open(alloc, disk, Settings { limit: 0 }) {
        Ok(archive) => cases_in(alloc, &archive),
        Err((fault, _)) => Err(Refusal::Open(fault)),
    }
}

// The files that a case maps.
fn files_of_case<D: Disk>(
    alloc: Global,
    case: &ListedCase,
    archive: &mut Archive<D>,
) -> Result<Vec<KeptFile>, Refusal>
    ensures { IfOk result (λ files. SeesFilesOf D.Disk archive.old (listed_view case.now) (map file_view files.items) archive.new) }
{
    if case.is_core {
        files_in(alloc, case.brief.seq, archive)
    } else {
        Ok(Vec::new(alloc))
    }
}

// The files that these cases map, one case after the other.
fn files_of_cases<D: Disk>(
    alloc: Global,
    cases: &[ListedCase],
    archive: &mut Archive<D>,
) -> Result<Vec<Vec<KeptFile>>, Refusal>
    ensures { IfOk result (λ files. SeesEach D.Disk archive.old (map listed_view cases.now) (map files_view files.items) archive.new) }
{
    let mut files = Vec::new(alloc);
    for case in cases {
        let kept = files_of_case(alloc, case, archive)?;
        push_files(&mut files, kept)?;
    }
    Ok(files)
}

// The cases of an archive, and the files that each maps.
pub(crate) fn gather<D: Disk>(alloc: Global, archive: &mut Archive<D>) -> Result<Gathered, Refusal>
    ensures { IfOk result (λ gathered. Gathers D.Disk archive.old gathered archive.new) }
{
    let cases = cases_in(alloc, archive)?;
    let files = files_of_cases(alloc, &cases, archive)?;
    Ok(Gathered { cases, files })
}

// The same of the archive on a disk.
fn gather_on<D: Disk + Drop>(alloc: Global, disk: D) -> Result<Gathered, Refusal>
    ensures { GathersOn D.Disk disk result }
{
    match Archive::open(alloc, disk, Settings { limit: 0 }) {
        Ok(archive) => {
            let mut archive = archive;
            gather(alloc, &mut archive)
        }
        Err((fault, _)) => Err(Refusal::Open(fault)),
    }
}

// The same from one look, if all cases are found again at the next.
fn gather_looked<S: SharedDisk + Drop>(
    alloc: Global,
    looked: Looked<S>,
) -> Result<Gathered, Refusal>
    ensures { GathersBetween S.SharedDisk ⟦<Unlocked<'static, S> as Disk>⟧ (shared_of looked) result }
{
    the_next_number_is_above();
    a_case_is_there_between();
    let places = match find_cases(alloc, looked.unlocked(Vec::new(alloc)), Reads::All) {
        Ok(places) => places,
        Err(fault) => return Err(unasked(fault)),
    };
    let Places { numbers, ranges } = places;
    let disk = looked.unlocked(ranges);
    let gathered = gather_on(alloc, disk)?;
    match stay(alloc, looked.into_shared(), &numbers) {
        Ok(()) => Ok(gathered),
        Err(fault) => Err(unasked(fault)),
    }
}

// The same of the archive in a file, which is looked at again if a case was deleted meanwhile.
pub(crate) fn gather_unlocked<R: AllocGlobal + Files<File = File>>(
    rt: &R,
    place: ArchivePath<'_>,
) -> Result<Gathered, Refusal> {
    for _ in 1..TRIES {
        match gather_looked(rt.alloc(), take_look(rt, place)?) {
            Err(Refusal::Call(ArchiveFault::NoCase)) => {}
            gathered => return gathered,
        }
    }
    gather_looked(rt.alloc(), take_look(rt, place)?)
}
