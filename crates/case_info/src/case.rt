// `info` of a case: one screen of it.
ghost use Rattle.std.specs.Prelude.{◌≡◌, ℕ, false, IfOk, List, map};
ghost use Rattle.case_screens.specs.Screen.{info_answer};
ghost use Rattle.case_screens.specs.declared.answer.CaseAnswers.TheVariants.{Core};
ghost use Rattle.case_screens.specs.declared.answer.CoreAnswers.{CoreAnswers};
ghost use Rattle.intake.specs.Parts.{state_of};
ghost use Rattle.intake.specs.Step.{HasCase};
ghost use Rattle.journal_layout.specs.Case.{Case, case_of};
ghost use Rattle.case_info.specs.Fronts.{SaysCore};
ghost use Rattle.case_info.specs.Screens.{IsScreenBy, ShowsCase, ShowsCore, ShowsExec, ShowsOn, held};

use crate::front::{CoreFront, core_in, front_of, header_in, size_of};
use crate::gathered::{builds_in, debug_files_of, executables_of, facts_of, told_of};
use crate::printing::{shown, write_text};
use archive_files::{
    ArchivePath, Collected, Failure, Places, Reads, Refusal, find_cases, stay, take_look, unasked,
};
use build_replies::BuildAnswer;
use case_listing::{find_case, latest_time};
use case_queries::CaseImage;
use case_screens::{CaseAnswers, CoreAnswers, case_json, print_case_screen};
use case_tables::Zone;
use disk_model::Disk;
use elf_view::Want;
use frame_replies::FramesAnswer;
use intake::{Archive, Settings};
use journal_layout::{Entry, Kind};
use script_streams::{Output, Reply};
use script_words::parse_case_number;
use shared_disk::{Looked, SharedDisk};
use std::alloc::Global;
use std::fs::File;
use std::rt::Files;
use std::time::Clock;

/// The request that the words of `info` make.
#[derive(Clone, Copy)]
pub struct InfoWords {
    /// The frames of each thread are shown, in a text those of the first 256.
    pub all_threads: bool,
    /// It is printed as JSON.
    pub is_json: bool,
}

/// Prints the facts of a case, from a look at the archive, with its time in a zone. The case is named by its number, by its name, or as `last` or `latest`. The text, and
/// the executables that were read with it, are held until the case is found again.
///
/// # Errors
///
/// The refusals of `take_look` of `archive_files` and of an opening. `NoCase`: there is no such case, or it was deleted meanwhile.
/// `OutOfMemory` and `Disk`: nothing is printed. `WriteFailed` if the text could not be written.
pub fn info_case<R: AllocGlobal + Files<File = File> + Clock, O: Output>(
    rt: &R,
    place: ArchivePath<'_>,
    case: &str,
    words: InfoWords,
    zone: Zone<'_>,
    output: &mut O,
) -> Result<(), Failure> {
    let alloc = rt.alloc();
    let until = latest_time(rt);
    let told = match take_look(rt, place) {
        Ok(looked) => held_screen(alloc, looked, case.as_bytes(), until, words, zone),
        Err(refusal) => Err(refusal),
    };
    let done = match told {
        Ok(text) => write_text(text.text(), output),
        Err(refusal) => Err(Failure::Refused(refusal)),
    };
    shown(alloc, words.is_json, done, output)
}

// The text of a case, once all cases that were read are found again.
fn held_screen<S: SharedDisk + Drop>(
    alloc: Global,
    looked: Looked<S>,
    case: &[u8],
    until: u64,
    words: InfoWords,
    zone: Zone<'_>,
) -> Result<Collected, Refusal> {
    let seq = number_of(alloc, looked.unlocked(Vec::new(alloc)), case, until)?;
    let reads = Reads::Memory { seq };
    let found = find_cases(alloc, looked.unlocked(Vec::new(alloc)), reads);
    let Places { numbers, ranges } = found.map_err(|fault| unasked(fault))?;
    let text = screen_over(alloc, looked.unlocked(ranges), seq, words, zone)?;
    match stay(alloc, looked.into_shared(), &numbers) {
        Ok(()) => Ok(text),
        Err(fault) => Err(unasked(fault)),
    }
}

pub(crate) fn number_of<D: Disk + Drop>(
    alloc: Global,
    disk: D,
    case: &[u8],
    until: u64,
) -> Result<u32, Refusal> {
    match parse_case_number(case) {
        Some(number) => Ok(number),
        None => find_case(alloc, disk, case, until),
    }
}

// Opens the archive on a disk, sees the case, and puts its facts into a text.
fn screen_over<D: Disk + Drop>(
    alloc: Global,
    disk: D,
    seq: u32,
    words: InfoWords,
    zone: Zone<'_>,
) -> Result<Collected, Refusal>
    ensures { ShowsOn D.Disk seq zone.entry words disk result }
{
    match Archive::open(alloc, disk, Settings { limit: 0 }) {
        Ok(archive) => {
            let mut archive = archive;
            screen_in(alloc, &mut archive, seq, words, zone)
        }
        Err((fault, _)) => Err(Refusal::Open(fault)),
    }
}

// The same of an archive that is open.
fn screen_in<D: Disk>(
    alloc: Global,
    archive: &mut Archive<D>,
    seq: u32,
    words: InfoWords,
    zone: Zone<'_>,
) -> Result<Collected, Refusal>
    ensures { IfOk result (ShowsCase D.Disk archive.old seq zone.entry words) }
{
    match kind_of(archive, seq)? {
        Kind::Core => Ok(core_screen(alloc, archive, seq, words, zone)?),
        Kind::Exec => Ok(exec_screen(alloc, archive, seq, words, zone)?),
    }
}

pub(crate) fn kind_of<D: Disk>(archive: &Archive<D>, seq: u32) -> Result<Kind, Refusal>
    ensures { IfOk result (λ kind. (c : Case) × HasCase (state_of archive.now) seq c × (c.origin.kind ≡ kind)) }
{
    match archive.case(seq) {
        Ok(entry) => Ok(entry.kind),
        Err(fault) => Err(Refusal::Call(fault)),
    }
}

fn core_screen<D: Disk>(
    alloc: Global,
    archive: &mut Archive<D>,
    seq: u32,
    words: InfoWords,
    zone: Zone<'_>,
) -> Result<Collected, Refusal>
    ensures { IfOk result (λ text. words.is_json ≡ false → ShowsCore D.Disk archive.old seq zone.entry words text archive.new) }
{
    let size = size_of(seq, archive)?;
    let front = front_of(alloc, seq, size, Want::Core, archive)?;
    let said = core_in(&front);
    let Ok(core) = said.core else {
        return Ok(put_core(
            alloc,
            archive,
            seq,
            said,
            no_frames(),
            None,
            words.is_json,
            zone,
        )?);
    };
    let elf = core.elf();
    let image = CaseImage {
        seq,
        size,
        front: elf.image(),
    };
    let told = told_of(alloc, image, &core, archive)?;
    let executables = executables_of(alloc, &told, archive)?;
    let debug_files = debug_files_of(alloc, &told, &executables, archive)?;
    let facts = facts_of(
        alloc,
        image,
        &core,
        told,
        &executables,
        &debug_files,
        words,
        archive,
    )?;
    Ok(put_core(
        alloc,
        archive,
        seq,
        said,
        &facts.unwound,
        builds_in(&facts),
        words.is_json,
        zone,
    )?)
}

// The frames of no thread.
pub(crate) fn no_frames<'a>() -> &'a [Option<FramesAnswer<'a>>] {
    &[]
}

// Puts the facts of a core, and those of its memory, into a text.
fn put_core<D: Disk>(
    alloc: Global,
    archive: &Archive<D>,
    seq: u32,
    said: CoreFront<'_>,
    unwound: &[Option<FramesAnswer<'_>>],
    builds: Option<&[BuildAnswer<'_>]>,
    is_json: bool,
    zone: Zone<'_>,
) -> Result<Collected, Refusal>
    ensures { IfOk result (λ text. is_json ≡ false → IsScreenBy zone.entry archive.now seq (Core (record { core = said.entry.core; unwound = unwound.entry; builds = builds.entry; whole = said.entry.whole; unread = said.entry.unread })) text) }
{
    let answers = CaseAnswers::Core(CoreAnswers {
        core: said.core,
        unwound,
        builds,
        whole: said.whole,
        unread: said.unread,
    });
    put_text(alloc, archive, seq, &answers, is_json, zone)
}

fn exec_screen<D: Disk>(
    alloc: Global,
    archive: &mut Archive<D>,
    seq: u32,
    words: InfoWords,
    zone: Zone<'_>,
) -> Result<Collected, Refusal>
    ensures { IfOk result (λ text. words.is_json ≡ false → ShowsExec D.Disk archive.old seq zone.entry text archive.new) }
{
    let size = size_of(seq, archive)?;
    let front = front_of(alloc, seq, size, Want::Exec, archive)?;
    let answers = CaseAnswers::Exec(header_in(&front));
    Ok(put_text(alloc, archive, seq, &answers, words.is_json, zone)?)
}

// Puts the facts of a case into a text.
fn put_text<D: Disk>(
    alloc: Global,
    archive: &Archive<D>,
    seq: u32,
    answers: &CaseAnswers<'_, '_>,
    is_json: bool,
    zone: Zone<'_>,
) -> Result<Collected, Refusal>
    ensures { IfOk result (λ text. is_json ≡ false → IsScreenBy zone.entry archive.now seq answers.now text) }
{
    let case = match archive.case(seq) {
        Ok(case) => case,
        Err(fault) => return Err(Refusal::Call(fault)),
    };
    let cases = match archive.cases() {
        Ok(cases) => cases,
        Err(fault) => return Err(Refusal::Call(fault)),
    };
    if is_json {
        return put_json(alloc, case, cases, answers);
    }
    Ok(put_screen(alloc, zone, case, cases, answers)?)
}

fn put_json(
    alloc: Global,
    case: &Entry,
    cases: &[Entry],
    answers: &CaseAnswers<'_, '_>,
) -> Result<Collected, Refusal> {
    let mut text = Collected::new(alloc);
    let mut reply = Reply::new(&mut text);
    reply.print(case_json(alloc, case, cases, answers)?.as_bytes());
    reply.print(b"\n");
    match reply.finish() {
        Ok(()) => Ok(text),
        Err(_) => Err(Refusal::OutOfMemory),
    }
}

fn put_screen(
    alloc: Global,
    zone: Zone<'_>,
    case: &Entry,
    cases: &[Entry],
    answers: &CaseAnswers<'_, '_>,
) -> Result<Collected, Refusal>
    ensures { IfOk result (λ text. held text ≡ info_answer zone.entry (case_of case.now) (map case_of cases.now) answers.now) }
{
    let mut text = Collected::new(alloc);
    let mut reply = Reply::new(&mut text);
    print_case_screen(&mut reply, zone, case, cases, answers);
    match reply.finish() {
        Ok(()) => Ok(text),
        Err(_) => Err(Refusal::OutOfMemory),
    }
}
