// `report`: a page of an archive, or of cases of it.
use crate::case::{InfoWords, kind_of, no_frames, number_of};
use crate::front::{CoreFront, core_in, front_of, header_in, size_of};
use crate::gathered::{builds_in, debug_files_of, executables_of, facts_of, told_of};
use crate::groups::{find_crashes, has_case, row_with};
use crate::printing::write_text;
use crate::stack::{StackPart, lent_stack, read_stack};
use archive_files::{
    ArchivePath, AskFault, Failure, Places, Reads, Refusal, find_cases, stay, take_look, unasked,
};
use build_replies::BuildAnswer;
use case_listing::latest_time;
use case_pages::{Page, PagedArchive, latest_of, put_archive, put_case, put_foot, put_head};
use case_queries::CaseImage;
use case_screens::{CaseAnswers, CoreAnswers};
use case_tables::{Order, Wanted, Zone};
use crash_signatures::{Group, grouped};
use disk_model::Disk;
use elf_view::Want;
use frame_replies::FramesAnswer;
use group_tables::{CrashedCore, GroupRow, newest, numbered, rows_of};
use intake::{Archive, Settings};
use journal_layout::{Entry, Kind};
use memory_replies::Window;
use script_streams::Output;
use shared_disk::{Looked, SharedDisk};
use std::alloc::{AllocError, Global};
use std::fs::File;
use std::rt::Files;
use std::slice;
use std::time::Clock;

// Of how many groups the newest core comes on the page of an archive.
const MOST_CASES: usize = 12;

// The frames of each thread that a page shows.
const ALL_THREADS: InfoWords = InfoWords {
    all_threads: true,
    is_json: false,
};

// All cores.
const ALL_CORES: Wanted<'static> = Wanted {
    kind: None,
    numbers: None,
    name: None,
    pid: None,
    user: None,
    program: None,
    signal: None,
    since: None,
    until: None,
    label: None,
    pinned: false,
    last: None,
    order: Order::Number,
    zone: Zone::Utc,
};

// The cores of an archive by their crashes, and their groups.
#[derive(Drop)]
struct GroupedCores {
    cores: Vec<CrashedCore>,
    groups: Vec<Group>,
}

/// Prints a page of these cases, in their order, each once; if there are none, of the archive: when its cores came, their groups, and the newest
/// certain core of each of the first groups. A case is named by its number, by its name, or as `last` or `latest`. The page is held until the
/// cases that are on it, and the executables, are found again. On the page of an archive a core that was deleted while the others were looked at
/// is left out.
///
/// # Errors
///
/// The refusals of `take_look` of `archive_files` and of an opening. `NoCase`: there is no such case, or one that the page shows, or an
/// executable, was deleted meanwhile. `OutOfMemory` and `Disk`: nothing is printed. `WriteFailed` if the page could not be written.
pub fn report_archive<R: AllocGlobal + Files<File = File> + Clock, O: Output>(
    rt: &R,
    place: ArchivePath<'_>,
    cases: &[&str],
    output: &mut O,
) -> Result<(), Failure> {
    let alloc = rt.alloc();
    let until = latest_time(rt);
    let found = match take_look(rt, place) {
        Ok(looked) => page_looked(alloc, looked, place.path.as_bytes(), cases, until),
        Err(refusal) => Err(refusal),
    };
    match found {
        Ok(page) => write_text(&page, output),
        Err(refusal) => Err(Failure::Refused(refusal)),
    }
}

// The page, from a look on.
fn page_looked<S: SharedDisk + Drop>(
    alloc: Global,
    looked: Looked<S>,
    name: &[u8],
    cases: &[&str],
    until: u64,
) -> Result<Vec<u8>, Refusal> {
    if !cases.is_empty() {
        let seqs = numbers_named(alloc, &looked, cases, until)?;
        return held_page(alloc, looked, name, &seqs, Vec::new(alloc));
    }
    let crashes = crashes_looked(alloc, &looked)?;
    let again = match Looked::look(alloc, looked.into_shared()) {
        Ok(again) => again,
        Err(fault) => return Err(unasked(AskFault::Look(fault))),
    };
    held_page(alloc, again, name, &[], crashes)
}

// The numbers of these cases, each once.
fn numbers_named<S: SharedDisk + Drop>(
    alloc: Global,
    looked: &Looked<S>,
    cases: &[&str],
    until: u64,
) -> Result<Vec<u32>, Refusal> {
    let mut seqs = Vec::new(alloc);
    for case in cases {
        let disk = looked.unlocked(Vec::new(alloc));
        let seq = number_of(alloc, disk, case.as_bytes(), until)?;
        add_once(&mut seqs, seq)?;
    }
    Ok(seqs)
}

fn add_once(seqs: &mut Vec<u32>, seq: u32) -> Result<(), AllocError> {
    if !seqs.contains(&seq) {
        seqs.push(seq)?;
    }
    Ok(())
}

// The crashes of all cores.
fn crashes_looked<S: SharedDisk + Drop>(
    alloc: Global,
    looked: &Looked<S>,
) -> Result<Vec<CrashedCore>, Refusal> {
    let all = find_cases(alloc, looked.unlocked(Vec::new(alloc)), Reads::All);
    let Places { ranges, .. } = all.map_err(|fault| unasked(fault))?;
    let found = find_crashes(alloc, looked.unlocked(ranges), &ALL_CORES, None)?;
    Ok(found.unwrap_or(Vec::new(alloc)))
}

// The page, once the cases that are on it and the executables are found again.
fn held_page<S: SharedDisk + Drop>(
    alloc: Global,
    looked: Looked<S>,
    name: &[u8],
    seqs: &[u32],
    crashes: Vec<CrashedCore>,
) -> Result<Vec<u8>, Refusal> {
    let all = find_cases(alloc, looked.unlocked(Vec::new(alloc)), Reads::All);
    let Places { ranges, .. } = all.map_err(|fault| unasked(fault))?;
    // No case has the number 0: these are the executables alone.
    let reads = Reads::Memory { seq: 0 };
    let kept = find_cases(alloc, looked.unlocked(Vec::new(alloc)), reads);
    let Places { numbers, .. } = kept.map_err(|fault| unasked(fault))?;
    let mut numbers = numbers;
    numbers.extend_from_slice(seqs)?;
    let page = page_over(
        alloc,
        looked.unlocked(ranges),
        name,
        seqs,
        crashes,
        &mut numbers,
    )?;
    match stay(alloc, looked.into_shared(), &numbers) {
        Ok(()) => Ok(page),
        Err(fault) => Err(unasked(fault)),
    }
}

// Opens the archive on a disk, and makes the page. The cases that are on it are put to the numbers.
fn page_over<D: Disk + Drop>(
    alloc: Global,
    disk: D,
    name: &[u8],
    seqs: &[u32],
    crashes: Vec<CrashedCore>,
    numbers: &mut Vec<u32>,
) -> Result<Vec<u8>, Refusal> {
    match Archive::open(alloc, disk, Settings { limit: 0 }) {
        Ok(archive) => {
            let mut archive = archive;
            if seqs.is_empty() {
                return whole_page(alloc, &mut archive, name, crashes, numbers);
            }
            cases_alone(alloc, &mut archive, name, seqs)
        }
        Err((fault, _)) => Err(Refusal::Open(fault)),
    }
}

// The page of these cases.
fn cases_alone<D: Disk>(
    alloc: Global,
    archive: &mut Archive<D>,
    name: &[u8],
    seqs: &[u32],
) -> Result<Vec<u8>, Refusal> {
    let mut page = Page::new(alloc)?;
    put_head(&mut page, name, seqs);
    page.close();
    for seq in seqs {
        page_case(alloc, archive, &mut page, *seq, None)?;
    }
    end_page(archive, page, name)
}

// The page of an archive.
fn whole_page<D: Disk>(
    alloc: Global,
    archive: &mut Archive<D>,
    name: &[u8],
    crashes: Vec<CrashedCore>,
    numbers: &mut Vec<u32>,
) -> Result<Vec<u8>, Refusal> {
    let mut page = Page::new(alloc)?;
    put_head(&mut page, name, &[]);
    let mut cores = crashes;
    cores.retain(|crash| has_case(archive, crash.number));
    let groups = grouped(alloc, &numbered(alloc, &cores)?)?;
    let grouped = GroupedCores { cores, groups };
    let shown = page_archive(alloc, archive, &mut page, &grouped)?;
    numbers.extend_from_slice(&shown)?;
    for seq in &shown {
        page_case(alloc, archive, &mut page, *seq, Some(&grouped))?;
    }
    end_page(archive, page, name)
}

fn end_page<D: Disk>(archive: &Archive<D>, page: Page, name: &[u8]) -> Result<Vec<u8>, Refusal> {
    let mut page = page;
    let last = match archive.cases() {
        Ok(cases) => cases.last().map_or(0, |case| case.seq),
        Err(fault) => return Err(Refusal::Call(fault)),
    };
    put_foot(&mut page, name, last);
    Ok(page.finish()?)
}

// Puts the facts of the archive, and gives the numbers of the cases that come on the page.
fn page_archive<D: Disk>(
    alloc: Global,
    archive: &Archive<D>,
    page: &mut Page,
    grouped: &GroupedCores,
) -> Result<Vec<u32>, Refusal> {
    let cases = match archive.cases() {
        Ok(cases) => cases,
        Err(fault) => return Err(Refusal::Call(fault)),
    };
    let rows = rows_of(alloc, cases, &grouped.cores, &grouped.groups)?;
    let numbers = shown_numbers(alloc, &rows)?;
    let paged = PagedArchive {
        cases,
        rows: &rows,
        latest: latest_of(alloc, &times_of(alloc, cases)?)?,
    };
    put_archive(alloc, page, &paged, &numbers)?;
    Ok(numbers)
}

// The times of cores, in the order in which they were stored.
fn times_of(alloc: Global, cases: &[Entry]) -> Result<Vec<u64>, AllocError> {
    let mut times = Vec::new(alloc);
    for case in cases {
        if case.kind == Kind::Core {
            times.push(case.time)?;
        }
    }
    Ok(times)
}

// The newest certain core of each of the first groups.
fn shown_numbers(alloc: Global, rows: &[GroupRow<'_>]) -> Result<Vec<u32>, AllocError> {
    let mut numbers = Vec::new(alloc);
    let (first, _) = rows.split_at(rows.len().min(MOST_CASES));
    for row in first {
        numbers.push(newest(&row.members))?;
    }
    Ok(numbers)
}

// Puts a case.
fn page_case<D: Disk>(
    alloc: Global,
    archive: &mut Archive<D>,
    page: &mut Page,
    seq: u32,
    grouped: Option<&GroupedCores>,
) -> Result<(), Refusal> {
    match kind_of(archive, seq)? {
        Kind::Core => page_core(alloc, archive, page, seq, grouped),
        Kind::Exec => page_exec(alloc, archive, page, seq),
    }
}

fn page_core<D: Disk>(
    alloc: Global,
    archive: &mut Archive<D>,
    page: &mut Page,
    seq: u32,
    grouped: Option<&GroupedCores>,
) -> Result<(), Refusal> {
    let size = size_of(seq, archive)?;
    let front = front_of(alloc, seq, size, Want::Core, archive)?;
    let said = core_in(&front);
    let Ok(core) = said.core else {
        let answers = core_answers(said, no_frames(), None);
        return Ok(page_answers(alloc, archive, page, seq, &answers, nothing(size), grouped)?);
    };
    let elf = core.elf();
    let image = CaseImage {
        seq,
        size,
        front: elf.image(),
    };
    let stack = read_stack(alloc, image, &core, archive)?;
    let told = told_of(alloc, image, &core, archive)?;
    let executables = executables_of(alloc, &told, archive)?;
    let debug_files = debug_files_of(alloc, &told, &executables, archive)?;
    let facts = facts_of(
        alloc,
        image,
        &core,
        told,
        &executables,
        &debug_files,
        ALL_THREADS,
        archive,
    )?;
    let answers = core_answers(said, &facts.unwound, builds_in(&facts));
    let window = lent_stack(size, &stack);
    Ok(page_answers(alloc, archive, page, seq, &answers, window, grouped)?)
}

// A core by the facts of its image, the frames of its threads and the builds of its files.
fn core_answers<'s, 'a>(
    said: CoreFront<'a>,
    unwound: &'s [Option<FramesAnswer<'a>>],
    builds: Option<&'s [BuildAnswer<'a>]>,
) -> CaseAnswers<'s, 'a> {
    CaseAnswers::Core(CoreAnswers {
        core: said.core,
        unwound,
        builds,
        whole: said.whole,
        unread: said.unread,
    })
}

// Nothing of an image of `size` bytes.
fn nothing<'w>(size: usize) -> Window<'w> {
    Window {
        size: size as u64,
        at: 0,
        bytes: &[],
    }
}

fn page_exec<D: Disk>(
    alloc: Global,
    archive: &mut Archive<D>,
    page: &mut Page,
    seq: u32,
) -> Result<(), Refusal> {
    let size = size_of(seq, archive)?;
    let front = front_of(alloc, seq, size, Want::Exec, archive)?;
    let answers = CaseAnswers::Exec(header_in(&front));
    page_answers(alloc, archive, page, seq, &answers, nothing(size), None)
}

// Puts a case by the facts that are known of it, and by the window of its image that has its stack.
fn page_answers<D: Disk>(
    alloc: Global,
    archive: &Archive<D>,
    page: &mut Page,
    seq: u32,
    answers: &CaseAnswers<'_, '_>,
    window: Window<'_>,
    grouped: Option<&GroupedCores>,
) -> Result<(), Refusal> {
    let case = match archive.case(seq) {
        Ok(case) => case,
        Err(fault) => return Err(Refusal::Call(fault)),
    };
    let cases = match archive.cases() {
        Ok(cases) => cases,
        Err(fault) => return Err(Refusal::Call(fault)),
    };
    let Some(grouped) = grouped else {
        return Ok(put_case(alloc, page, case, cases, answers, window, None)?);
    };
    let rows = rows_of(
        alloc,
        cases,
        &grouped.cores,
        group_with(&grouped.groups, seq),
    )?;
    let row = row_with(&rows, seq);
    Ok(put_case(alloc, page, case, cases, answers, window, row)?)
}

// The group that has a case, alone; or no group.
fn group_with(groups: &[Group], seq: u32) -> &[Group] {
    match groups.iter().find(|group| has_core(group, seq)) {
        Some(group) => slice::from_ref(group),
        None => &[],
    }
}

fn has_core(group: &Group, seq: u32) -> bool {
    let number = u64::from(seq);
    group.cases.iter().any(|its| *its == number) || group.perhaps.iter().any(|its| *its == number)
}
