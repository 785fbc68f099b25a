// `groups`: the cores of an archive that crashed alike.
ghost use Rattle.std.specs.Prelude.{◌≡◌, IfOk, OnOk, false, find, map};
ghost use Rattle.std.specs.List.{list_all};
ghost use Rattle.std.specs.Option.{option_map};
ghost use Rattle.group_tables.specs.Chosen.{wanted_cores};
ghost use Rattle.group_tables.specs.Table.{groups_table};
ghost use Rattle.group_tables.specs.Values.{row_said};
ghost use Rattle.intake.specs.Parts.{state_of};
ghost use Rattle.journal_layout.specs.Case.{case_of};
ghost use Rattle.script_streams.specs.Replies.{PrintsText, printing};
ghost use Rattle.archive_files.specs.UnlockedFinding.{has_number};
ghost use Rattle.case_info.specs.Groups.{FindsCrashes, FindsCrashesOn, IsText, IsTextOf, PrintsOn, PrintsRow, PrintsRows, PrintsThere, IsCoreIf, has_member};
ghost use Rattle.case_info.specs.Screens.{held};

use crate::case::{kind_of, number_of};
use crate::crash_search::crashes_of;
use crate::printing::{shown, write_text};
use crate::rows::print_refused;
use archive_files::{
    ArchivePath, AskFault, Collected, Failure, Places, Reads, Refusal, find_cases, take_look,
    unasked,
};
use case_listing::ListWords;
use case_tables::{Wanted, Zone};
use crash_signatures::grouped;
use disk_model::Disk;
use group_tables::{
    CrashedCore, GroupRow, group_json, groups_json, numbered, print_group, print_group_lines,
    print_groups, rows_of, wanted_cores,
};
use intake::{Archive, ArchiveFault, Settings};
use journal_layout::{Entry, Kind};
use script_streams::{Output, Reply};
use shared_disk::{Looked, SharedDisk};
use std::alloc::Global;
use std::fs::File;
use std::rt::Files;
use std::time::Clock;

// A day, in seconds: times that are more than a day ahead don't count.
const DAY: u64 = 86_400;

/// The request that the words of `groups` make.
#[derive(Clone, Copy)]
pub struct GroupsWords<'a> {
    /// The case whose group is wanted, as the words name it.
    pub case: Option<&'a str>,
    /// Which cores are looked at, and whether JSON is printed.
    pub list: ListWords<'a>,
}

// Which group is printed, and how.
#[derive(Clone, Copy)]
pub(crate) struct GroupsForm<'a> {
    // That of this case alone.
    case: Option<u32>,
    is_json: bool,
    // As JSON, each group in a line of its own.
    by_lines: bool,
    // The latest time that counts.
    latest: u64,
    // In which zone times are shown.
    zone: Zone<'a>,
}

// The results of the search for the cores that are wanted.
#[derive(Drop)]
enum Found {
    // The text, and whether there is a core.
    Text(Collected, bool),
    // The case is an executable.
    NotCore,
}

/// Prints the groups of the cores that crashed alike, from a look at the archive, with times in a zone: a row for each, or the row of the group that a case is in, and
/// the cores of the group. The cores are those that `list` with the same words shows. They are looked at one after the other, each with
/// the executables that `unwind` chooses for it. The text is held until the archive is looked at again: a core that was deleted meanwhile is
/// left out.
///
/// # Errors
///
/// `BadLine` if a time can't be read. The refusals of `take_look` of `archive_files` and of an opening. `NoCase`: there is no such case, it is
/// not among the cores that are wanted, or it or an executable was deleted meanwhile. `NotCore`: the case is an executable.
/// `OutOfMemory` and `Disk`: nothing is printed. `WriteFailed` if the text could not be written. `Told` if only some cases are asked for, and no
/// core is left.
pub fn group_archive<R: AllocGlobal + Files<File = File> + Clock, O: Output>(
    rt: &R,
    place: ArchivePath<'_>,
    words: GroupsWords<'_>,
    zone: Zone<'_>,
    output: &mut O,
) -> Result<(), Failure> {
    let now = rt.since_1970().ok().map(|time| time.as_secs());
    let alloc = rt.alloc();
    let done = match find_groups(rt, place, words, zone, now) {
        Ok(found) => write_found(alloc, found, words.list, output),
        Err(refusal) => Err(Failure::Refused(refusal)),
    };
    shown(
        alloc,
        words.list.is_json || words.list.by_lines,
        done,
        output,
    )
}

// Writes the results of the search.
fn write_found<O: Output>(
    alloc: Global,
    found: Found,
    words: ListWords<'_>,
    output: &mut O,
) -> Result<(), Failure> {
    match found {
        Found::NotCore if words.is_json || words.by_lines => print_refused(
            alloc,
            b"no NotCore\n",
            output,
        ),
        Found::NotCore => {
            write_text(b"no NotCore\n", output)?;
            Err(Failure::Told)
        }
        Found::Text(text, some) => {
            write_text(text.text(), output)?;
            if some || !words.picks() {
                Ok(())
            } else {
                Err(Failure::Told)
            }
        }
    }
}

// Looks at the archive, and finds the groups of it.
fn find_groups<R: AllocGlobal + Files<File = File>>(
    rt: &R,
    place: ArchivePath<'_>,
    words: GroupsWords<'_>,
    zone: Zone<'_>,
    now: Option<u64>,
) -> Result<Found, Refusal> {
    let alloc = rt.alloc();
    let wanted = words.list.wanted_at(now, zone)?;
    let latest = now.map_or(u64::MAX, |now| now.saturating_add(DAY));
    let looked = take_look(rt, place)?;
    let case = match words.case {
        Some(case) => {
            let disk = looked.unlocked(Vec::new(alloc));
            Some(number_of(alloc, disk, case.as_bytes(), latest)?)
        }
        None => None,
    };
    let form = GroupsForm {
        case,
        is_json: words.list.is_json || words.list.by_lines,
        by_lines: words.list.by_lines,
        latest,
        zone,
    };
    groups_looked(alloc, looked, &wanted, form)
}

// The groups from a look on. At the next look the executables must be there, and the case; other cores that are gone are left out.
fn groups_looked<S: SharedDisk + Drop>(
    alloc: Global,
    looked: Looked<S>,
    wanted: &Wanted<'_>,
    form: GroupsForm<'_>,
) -> Result<Found, Refusal> {
    let all = find_cases(alloc, looked.unlocked(Vec::new(alloc)), Reads::All);
    let Places { ranges, .. } = all.map_err(|fault| unasked(fault))?;
    let seq = form.case.unwrap_or(0);
    let kept = find_cases(
        alloc,
        looked.unlocked(Vec::new(alloc)),
        Reads::Memory { seq },
    );
    let Places { numbers, .. } = kept.map_err(|fault| unasked(fault))?;
    let found = find_crashes(alloc, looked.unlocked(ranges), wanted, form.case)?;
    let Some(crashes) = found else {
        return Ok(Found::NotCore);
    };
    let again = match Looked::look(alloc, looked.into_shared()) {
        Ok(again) => again,
        Err(fault) => return Err(unasked(AskFault::Look(fault))),
    };
    let disk = again.unlocked(Vec::new(alloc));
    let (text, some) = print_again(alloc, disk, &numbers, crashes, form)?;
    Ok(Found::Text(text, some))
}

// Opens the archive on a disk, and finds the crashes of the cores that are wanted. None, if the case is no core.
pub(crate) fn find_crashes<D: Disk + Drop>(
    alloc: Global,
    disk: D,
    wanted: &Wanted<'_>,
    case: Option<u32>,
) -> Result<Option<Vec<CrashedCore>>, Refusal>
    ensures { FindsCrashesOn D.Disk wanted.now case disk result }
{
    match Archive::open(alloc, disk, Settings { limit: 0 }) {
        Ok(archive) => {
            let mut archive = archive;
            crashes_in(alloc, &mut archive, wanted, case)
        }
        Err((fault, _)) => Err(Refusal::Open(fault)),
    }
}

// The same in an archive that is open.
fn crashes_in<D: Disk>(
    alloc: Global,
    archive: &mut Archive<D>,
    wanted: &Wanted<'_>,
    case: Option<u32>,
) -> Result<Option<Vec<CrashedCore>>, Refusal>
    ensures { IfOk result (λ found. FindsCrashes D.Disk archive.old wanted.now case found archive.new) }
{
    if !is_core(archive, case)? {
        return Ok(None);
    }
    let numbers = numbers_in(alloc, archive, wanted)?;
    Ok(Some(crashes_of(alloc, &numbers, archive)?))
}

// Whether the case is a core, if there is one.
fn is_core<D: Disk>(archive: &Archive<D>, case: Option<u32>) -> Result<bool, Refusal>
    ensures { IfOk result (IsCoreIf archive.now case) }
{
    let Some(seq) = case else {
        return Ok(true);
    };
    match kind_of(archive, seq)? {
        Kind::Core => Ok(true),
        Kind::Exec => Ok(false),
    }
}

// The numbers of the cores that are wanted.
fn numbers_in<D: Disk>(
    alloc: Global,
    archive: &Archive<D>,
    wanted: &Wanted<'_>,
) -> Result<Vec<u32>, Refusal>
    ensures { IfOk result (λ numbers. numbers.items ≡ wanted_cores wanted.now (state_of archive.now).cases) }
{
    match archive.cases() {
        Ok(cases) => Ok(wanted_cores(alloc, cases, wanted)?),
        Err(fault) => Err(Refusal::Call(fault)),
    }
}

// Opens the archive on a disk again, and puts the groups of those cores that are still there into a text. Says whether there are any.
fn print_again<D: Disk + Drop>(
    alloc: Global,
    disk: D,
    numbers: &[u32],
    crashes: Vec<CrashedCore>,
    form: GroupsForm<'_>,
) -> Result<(Collected, bool), Refusal>
    ensures { PrintsOn D.Disk numbers.now crashes.items form.entry disk result }
{
    match Archive::open(alloc, disk, Settings { limit: 0 }) {
        Ok(archive) => {
            if !has_each(&archive, numbers) {
                return Err(Refusal::Call(ArchiveFault::NoCase));
            }
            print_there(alloc, &archive, crashes, form)
        }
        Err((fault, _)) => Err(Refusal::Open(fault)),
    }
}

// Whether an archive has all cases of these numbers.
fn has_each<D: Disk>(archive: &Archive<D>, numbers: &[u32]) -> bool
    ensures { result ≡ list_all (has_number (state_of archive.now)) numbers.now }
{
    numbers.iter().all(|number| has_case(archive, *number))
}

pub(crate) fn has_case<D: Disk>(archive: &Archive<D>, number: u32) -> bool
    ensures { result ≡ has_number (state_of archive.now) number }
{
    match archive.case(number) {
        Ok(_) => true,
        Err(_) => false,
    }
}

// The groups of those of these cores that are there.
fn print_there<D: Disk>(
    alloc: Global,
    archive: &Archive<D>,
    crashes: Vec<CrashedCore>,
    form: GroupsForm<'_>,
) -> Result<(Collected, bool), Refusal>
    ensures { IfOk result (λ told. PrintsThere archive.now crashes.items form.entry told) }
{
    let mut there = crashes;
    there.retain(|crash| has_case(archive, crash.number));
    match archive.cases() {
        Ok(cases) => Ok((put_groups(alloc, cases, &there, form)?, !there.is_empty())),
        Err(fault) => Err(Refusal::Call(fault)),
    }
}

// Puts the groups of cores into a text.
fn put_groups(
    alloc: Global,
    cases: &[Entry],
    cores: &[CrashedCore],
    form: GroupsForm<'_>,
) -> Result<Collected, Refusal>
    ensures { IfOk result (λ text. form.entry.is_json ≡ false → IsTextOf (map case_of cases.now) cores.now form.entry (held text)) }
{
    let numbers = numbered(alloc, cores)?;
    let groups = grouped(alloc, &numbers)?;
    let rows = rows_of(alloc, cases, cores, &groups)?;
    Ok(put_rows(alloc, &rows, form)?)
}

// Puts groups, or the one with the case, into a text.
fn put_rows(
    alloc: Global,
    rows: &[GroupRow<'_>],
    form: GroupsForm<'_>,
) -> Result<Collected, Refusal>
    ensures { IfOk result (λ text. form.entry.is_json ≡ false → IsText (map row_said rows.now) form.entry (held text)) }
{
    let mut text = Collected::new(alloc);
    let mut reply = Reply::new(&mut text);
    print_rows(alloc, &mut reply, rows, form)?;
    match reply.finish() {
        Ok(()) => Ok(text),
        Err(_) => Err(Refusal::OutOfMemory),
    }
}

fn print_rows<O: Output>(
    alloc: Global,
    reply: &mut Reply<'_, O>,
    rows: &[GroupRow<'_>],
    form: GroupsForm<'_>,
) -> Result<(), Refusal>
    ensures { OnOk result (form.entry.is_json ≡ false → PrintsRows form.entry.zone form.entry.case form.entry.latest (map row_said rows.now) (PrintsText (printing O.Output reply.old reply.new))) }
{
    match form.case {
        Some(seq) => Ok(print_one(alloc, reply, rows, seq, form)?),
        None => Ok(print_all(alloc, reply, rows, form)?),
    }
}

// Prints all groups.
fn print_all<O: Output>(
    alloc: Global,
    reply: &mut Reply<'_, O>,
    rows: &[GroupRow<'_>],
    form: GroupsForm<'_>,
) -> Result<(), Refusal>
    ensures { OnOk result (form.entry.is_json ≡ false → PrintsText (printing O.Output reply.old reply.new) (groups_table form.entry.zone form.entry.latest (map row_said rows.now))) }
{
    if form.is_json {
        return print_all_json(alloc, reply, rows, form);
    }
    Ok(print_groups(alloc, reply, form.zone, form.latest, rows)?)
}

// Prints all groups as JSON: as an array, or a line for each.
fn print_all_json<O: Output>(
    alloc: Global,
    reply: &mut Reply<'_, O>,
    rows: &[GroupRow<'_>],
    form: GroupsForm<'_>,
) -> Result<(), Refusal> {
    if form.by_lines {
        return Ok(print_group_lines(alloc, reply, form.latest, rows)?);
    }
    print_json(reply, &groups_json(alloc, form.latest, rows)?);
    Ok(())
}

// Prints the group that a case is in.
fn print_one<O: Output>(
    alloc: Global,
    reply: &mut Reply<'_, O>,
    rows: &[GroupRow<'_>],
    seq: u32,
    form: GroupsForm<'_>,
) -> Result<(), Refusal>
    ensures { OnOk result (form.entry.is_json ≡ false → PrintsRow form.entry.zone form.entry.latest seq (map row_said rows.now) (PrintsText (printing O.Output reply.old reply.new))) }
{
    let Some(row) = row_with(rows, seq) else {
        return Err(Refusal::Call(ArchiveFault::NoCase));
    };
    if form.is_json {
        print_json(reply, &group_json(alloc, form.latest, row)?);
        return Ok(());
    }
    Ok(print_group(alloc, reply, form.zone, form.latest, row)?)
}

// The first group that a case is in.
pub(crate) fn row_with<'r, 'a>(rows: &'r [GroupRow<'a>], seq: u32) -> Option<&'r GroupRow<'a>>
    ensures { option_map (λ row. row_said row.now) result ≡ find (has_member seq) (map row_said rows.now) }
{
    rows.iter().find(|row| has_member(row, seq))
}

fn has_member(row: &GroupRow<'_>, seq: u32) -> bool
    ensures { result ≡ has_member seq (row_said row.now) }
{
    row.members.iter().any(|member| member.case.seq == seq)
}

fn print_json<O: Output>(reply: &mut Reply<'_, O>, json: &str) {
    reply.print(json.as_bytes());
    reply.print(b"\n");
}
