// `info` of an archive.
ghost use Rattle.case_info.specs.Archives.{AreFactsOf, FactsOn};
ghost use Rattle.extents.specs.FreeSet.{free_count};

use crate::printing::{shown, write_json, write_text};
use archive_files::{ArchivePath, Collected, Failure, Refusal, take_look};
use case_journal::{Journal, Opened};
use case_tables::{ArchiveFacts, Zone, archive_json, cores_by_day, print_archive_screen, tally_of};
use disk_model::Disk;
use script_streams::{Output, Reply};
use std::alloc::Global;
use std::fs::File;
use std::rt::Files;

/// Prints the facts of an archive, from one look at it, with times in a zone.
///
/// # Errors
///
/// The refusals of `take_look` of `archive_files` and of an opening. `OutOfMemory`: nothing is printed. `WriteFailed` if the text could
/// not be written.
pub fn info_archive<R: AllocGlobal + Files<File = File>, O: Output>(
    rt: &R,
    place: ArchivePath<'_>,
    is_json: bool,
    zone: Zone<'_>,
    output: &mut O,
) -> Result<(), Failure> {
    let alloc = rt.alloc();
    let found = match take_look(rt, place) {
        Ok(looked) => facts_over(alloc, looked.unlocked(Vec::new(alloc))),
        Err(refusal) => Err(refusal),
    };
    let done = match found {
        Ok(facts) => print_facts(alloc, &facts, is_json, zone, output),
        Err(refusal) => Err(Failure::Refused(refusal)),
    };
    shown(alloc, is_json, done, output)
}

fn print_facts<O: Output>(
    alloc: Global,
    facts: &ArchiveFacts,
    is_json: bool,
    zone: Zone<'_>,
    output: &mut O,
) -> Result<(), Failure> {
    if is_json {
        return write_json(&archive_json(alloc, facts)?, output);
    }
    let mut text = Collected::new(alloc);
    let mut reply = Reply::new(&mut text);
    print_archive_screen(&mut reply, zone, facts);
    match reply.finish() {
        Ok(()) => write_text(text.text(), output),
        Err(_) => Err(Failure::Refused(Refusal::OutOfMemory)),
    }
}

/// Opens the journal on a disk, and finds the facts of its archive.
///
/// # Errors
///
/// The refusals of an opening.
pub fn facts_over<D: Disk + Drop>(alloc: Global, disk: D) -> Result<ArchiveFacts, Refusal>
    ensures { FactsOn D.Disk disk result }
{
    let mut disk = disk;
    match Journal::open(alloc, &mut disk) {
        Ok(opened) => Ok(facts_of(&opened)),
        Err(fault) => Err(Refusal::Open(fault)),
    }
}

// The facts of an archive, by its journal and its free data blocks.
fn facts_of(opened: &Opened) -> ArchiveFacts
    ensures { AreFactsOf opened.now.journal.standing (free_count opened.now.free) result }
{
    let journal = &opened.journal;
    let tally = tally_of(journal.entries());
    ArchiveFacts {
        version: journal.version(),
        length: journal.shape().length().unwrap_or(0),
        data_blocks: journal.shape().data_blocks,
        free_blocks: u64::from(opened.free.free()),
        half: journal.shape().half_length(),
        used: journal.use_bytes(),
        cores: tally.cores,
        executables: tally.executables,
        pinned: tally.pinned,
        oldest: tally.oldest,
        newest: tally.newest,
        last_number: journal.next_seq().saturating_sub(1),
        days: cores_by_day(journal.entries(), tally.newest),
    }
}
