// `list`: the cases of an archive, for people or as JSON.
ghost use Rattle.std.specs.Prelude.{◌≡◌, ◌==◌, ◌++◌, ◌∷◌, [], IfOk, OnOk, false, length, map, not, true};
ghost use Rattle.std.specs.Io.KnownBytes.{Appends};
ghost use Rattle.std.specs.Option.{option_copied};
ghost use Rattle.case_tables.specs.Wanted.{chosen};
ghost use Rattle.intake.specs.Parts.{state_of};
ghost use Rattle.journal_layout.specs.Case.{case_of};
ghost use Rattle.case_listing.specs.Listing.{IsTimeSaid, IsWantedAt, Lists, ListsLines, ListsLinesOn, ListsOn, PrintsJson, PrintsTable, picks};

use archive_files::{ArchivePath, Failure, Refusal, take_look};
use case_tables::{Wanted, Zone, list_json, print_list, print_list_lines, read_time};
use disk_model::Disk;
use inspector_cli::SessionFault;
use intake::{Archive, Settings};
use journal_layout::Entry;
use script_streams::{Output, Reply};
use std::alloc::Global;
use std::fs::File;
use std::rt::Files;
use std::time::Clock;

/// The request of the words of `list`.
#[derive(Clone, Copy)]
pub struct ListWords<'a> {
    /// Which cases, but for their times.
    pub wanted: Wanted<'a>,
    /// The time of the first, as the words have it.
    pub since: Option<&'a str>,
    /// The time that the last is before, as the words have it.
    pub until: Option<&'a str>,
    /// They are printed as JSON.
    pub is_json: bool,
    /// They are printed as JSON, each in a line of its own.
    pub by_lines: bool,
}

impl<'a> ListWords<'a> {
    /// Whether only some cases are asked for.
    pub fn picks(&self) -> bool
        ensures { result ≡ picks self.now }
    {
        let wanted = &self.wanted;
        wanted.kind.is_some()
            || wanted.name.is_some()
            || wanted.pid.is_some()
            || wanted.user.is_some()
            || wanted.program.is_some()
            || wanted.signal.is_some()
            || self.since.is_some()
            || self.until.is_some()
            || wanted.label.is_some()
            || wanted.pinned
            || wanted.last.is_some()
    }

    /// The wanted cases, at this time. Their times are read and shown in a zone.
    ///
    /// # Errors
    ///
    /// `BadLine` if a time can't be read.
    pub fn wanted_at(&self, now: Option<u64>, zone: Zone<'a>) -> Result<Wanted<'a>, Refusal>
        ensures { IfOk result (IsWantedAt zone.entry now self.now) }
    {
        let mut wanted = self.wanted;
        wanted.since = time_said(self.since, now, zone)?;
        wanted.until = time_said(self.until, now, zone)?;
        wanted.zone = zone;
        Ok(wanted)
    }
}

fn time_said(text: Option<&str>, now: Option<u64>, zone: Zone<'_>) -> Result<Option<u64>, Refusal>
    ensures { IfOk result (IsTimeSaid zone.entry now (option_copied text.entry)) }
{
    let Some(text) = text else {
        return Ok(None);
    };
    match read_time(text, now, zone) {
        Some(time) => Ok(Some(time)),
        None => Err(Refusal::BadLine),
    }
}

/// Prints the cases that are asked for, from a look at the archive, with times in a zone.
///
/// # Errors
///
/// `BadLine` if a time can't be read. The refusals of `take_look` of `archive_files` and of an opening. `WriteFailed` if the list could
/// not be written. `Told` if only some cases are asked for, and no case is among them.
pub fn list<R: AllocGlobal + Files<File = File> + Clock, O: Output>(
    rt: &R,
    place: ArchivePath<'_>,
    words: ListWords<'_>,
    zone: Zone<'_>,
    output: &mut O,
) -> Result<(), Failure> {
    let now = rt.since_1970().ok().map(|time| time.as_secs());
    let wanted = words.wanted_at(now, zone)?;
    let looked = take_look(rt, place)?;
    let alloc = rt.alloc();
    let disk = looked.unlocked(Vec::new(alloc));
    let some = if words.by_lines {
        list_lines_over(alloc, disk, &wanted, output)?
    } else {
        list_over(alloc, disk, &wanted, words.is_json, output)?
    };
    if some || !words.picks() {
        Ok(())
    } else {
        Err(Failure::Told)
    }
}

/// Opens the archive on a disk, and prints the wanted cases. Returns whether there are any.
///
/// # Errors
///
/// The fault of an opening that is refused. `WriteFailed` if the list could not be written.
pub fn list_over<D: Disk + Drop, O: Output>(
    alloc: Global,
    disk: D,
    wanted: &Wanted<'_>,
    is_json: bool,
    output: &mut O,
) -> Result<bool, Failure>
    ensures { ListsOn D.Disk is_json wanted.now (O.taken output.old) (O.taken output.new) disk result }
{
    match Archive::open(alloc, disk, Settings { limit: 0 }) {
        Ok(archive) => list_archive(alloc, &archive, wanted, is_json, output),
        Err((fault, _)) => Err(Failure::Refused(Refusal::Open(fault))),
    }
}

/// Opens the archive on a disk, and prints the wanted cases as lines of JSON. Returns whether there are any.
///
/// # Errors
///
/// The fault of an opening that is refused. `OutOfMemory`: some lines
/// may be printed. `WriteFailed` if the lines could not be written.
pub fn list_lines_over<D: Disk + Drop, O: Output>(
    alloc: Global,
    disk: D,
    wanted: &Wanted<'_>,
    output: &mut O,
) -> Result<bool, Failure>
    ensures { ListsLinesOn D.Disk wanted.now (O.taken output.old) (O.taken output.new) disk result }
{
    match Archive::open(alloc, disk, Settings { limit: 0 }) {
        Ok(archive) => list_lines(alloc, &archive, wanted, output),
        Err((fault, _)) => Err(Failure::Refused(Refusal::Open(fault))),
    }
}

fn list_lines<D: Disk, O: Output>(
    alloc: Global,
    archive: &Archive<D>,
    wanted: &Wanted<'_>,
    output: &mut O,
) -> Result<bool, Failure>
    requires runs { archive.now.stopped ≡ false }
    ensures { IfOk result (ListsLines wanted.now (state_of archive.now).cases (O.taken output.old) (O.taken output.new)) }
{
    match archive.cases() {
        Ok(cases) => print_lines(alloc, cases, wanted, output),
        Err(fault) => Err(Failure::Refused(Refusal::Call(fault))),
    }
}

fn list_archive<D: Disk, O: Output>(
    alloc: Global,
    archive: &Archive<D>,
    wanted: &Wanted<'_>,
    is_json: bool,
    output: &mut O,
) -> Result<bool, Failure>
    requires runs { archive.now.stopped ≡ false }
    ensures { IfOk result (Lists is_json wanted.now (state_of archive.now).cases (O.taken output.old) (O.taken output.new)) }
{
    let cases = match archive.cases() {
        Ok(cases) => cases,
        Err(fault) => return Err(Failure::Refused(Refusal::Call(fault))),
    };
    if is_json {
        print_json(alloc, cases, wanted, output)
    } else {
        print_table(alloc, cases, wanted, output)
    }
}

fn print_table<O: Output>(
    alloc: Global,
    cases: &[Entry],
    wanted: &Wanted<'_>,
    output: &mut O,
) -> Result<bool, Failure>
    ensures told { IfOk result (λ some. PrintsTable wanted.now (map case_of cases.now) (O.taken output.old) (O.taken output.new)) }
    ensures some { IfOk result (λ some. some ≡ not (length (chosen wanted.now (map case_of cases.now)) == 0)) }
{
    let mut reply = Reply::new(output);
    let some = print_list(alloc, &mut reply, cases, wanted)?;
    match reply.finish() {
        Ok(()) => Ok(some),
        Err(_) => Err(Failure::Faulted(SessionFault::WriteFailed)),
    }
}

fn print_lines<O: Output>(
    alloc: Global,
    cases: &[Entry],
    wanted: &Wanted<'_>,
    output: &mut O,
) -> Result<bool, Failure>
    ensures { IfOk result (ListsLines wanted.now (map case_of cases.now) (O.taken output.old) (O.taken output.new)) }
{
    let mut reply = Reply::new(output);
    let some = print_list_lines(alloc, &mut reply, cases, wanted)?;
    match reply.finish() {
        Ok(()) => Ok(some),
        Err(_) => Err(Failure::Faulted(SessionFault::WriteFailed)),
    }
}

fn print_json<O: Output>(
    alloc: Global,
    cases: &[Entry],
    wanted: &Wanted<'_>,
    output: &mut O,
) -> Result<bool, Failure>
    ensures told { IfOk result (λ some. PrintsJson wanted.now (map case_of cases.now) (O.taken output.old) (O.taken output.new)) }
    ensures some { IfOk result (λ some. some ≡ not (length (chosen wanted.now (map case_of cases.now)) == 0)) }
{
    let (text, some) = list_json(alloc, cases, wanted)?;
    print_line(text.as_bytes(), output)?;
    Ok(some)
}

fn print_line<O: Output>(text: &[u8], output: &mut O) -> Result<(), Failure>
    ensures { OnOk result (Appends (O.taken output.old) (O.taken output.new) (text.now ++ 10 ∷ [])) }
{
    let mut reply = Reply::new(output);
    reply.print(text);
    reply.print(b"\n");
    match reply.finish() {
        Ok(()) => Ok(()),
        Err(_) => Err(Failure::Faulted(SessionFault::WriteFailed)),
    }
}
