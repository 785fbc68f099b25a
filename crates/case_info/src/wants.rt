// `wants`: the builds that cores have mapped files of, and for which no executable that is stored is used.
ghost use Rattle.std.specs.Prelude.{◌≡◌, map};
ghost use Rattle.build_replies.specs.BuildsWords.{wanted_view};
ghost use Rattle.script_streams.specs.Printing.{IsDelivered};
ghost use Rattle.shared_disk.specs.Looks.{shared_of};
ghost use Rattle.case_info.specs.Gathering.{FilesBetween};
ghost use Rattle.case_info.specs.Wants.{ids_reply, wants_reply};

use crate::gathering::{Gathered, cases_on, gather_unlocked};
use crate::kept_files::{KeptFile, push_files};
use crate::mapped::files_on;
use crate::printing::{shown, write_json, write_text};
use crate::rows::print_refused;
use crate::wanted::{WantedBuilds, print_builds, print_ids};
use archive_files::{
    ArchivePath, Collected, Failure, Places, Reads, Refusal, ask, find_cases, stay, take_look,
    unasked,
};
use bstr::ByteSlice;
use build_replies::WantedBuild;
use case_listing::{NamedLine, ask_case};
use case_screens::rows_json;
use diagnostics::Onlooker;
use disk_model::Disk;
use intake::{ArchiveFault, a_case_is_there_between, the_next_number_is_above};
use memchr::memrchr;
use script_lines::{BuildQuery, MemoryQuery, Query, Question};
use script_streams::{Output, Reply, StreamFault, print_ok};
use script_words::parse_case_number;
use shared_disk::{Looked, SharedDisk, Unlocked};
use std::alloc::Global;
use std::fs::File;
use std::rt::Files;
use std::time::Clock;

// How often a core is looked at before it is skipped, if a case was deleted meanwhile.
const TRIES: usize = 3;

// The words of a line.
const FORMS: [&str; 1] = ["<name:text> <id:digits>"];

/// How the builds are printed.
#[derive(Clone, Copy)]
pub struct WantsWords {
    /// Their IDs alone are printed, and then `ok`.
    pub ids_alone: bool,
    /// They are printed as JSON.
    pub is_json: bool,
}

/// Prints the builds that cores want: the IDs that they have for mapped files for which no executable is used, each with the first such
/// file. With a case it is the reply to `wants` of that case, which is named by its number, by its name, or as `last`. Else they are
/// those of all cores in the order of their numbers, each once. All cores are seen over one opening of the archive, and found again at
/// a second look. If a case is deleted meanwhile again and again, each core is looked at alone. A core that has a fault in its headers
/// or notes, has no NT_FILE, or is gone, wants no build. All is held until the last core was looked at.
///
/// # Errors
///
/// The refusals of `take_look` of `archive_files` and of an opening. `OutOfMemory` and `Disk`: nothing is printed. `Told`: the reply to
/// `wants` of the case is that it is refused. `WriteFailed` if the text could not be written.
pub fn print_wants<R: AllocGlobal + Files<File = File> + Clock, O: Output, W: Onlooker>(
    rt: &R,
    place: ArchivePath<'_>,
    case: Option<&str>,
    words: WantsWords,
    output: &mut O,
    onlooker: &mut W,
) -> Result<(), Failure> {
    let done = match case {
        Some(case) => print_case(rt, place, case, words, output, onlooker),
        None => print_all(rt, place, words, output),
    };
    shown(rt.alloc(), words.is_json, done, output)
}

// Prints the builds that one core wants.
fn print_case<R: AllocGlobal + Files<File = File> + Clock, O: Output, W: Onlooker>(
    rt: &R,
    place: ArchivePath<'_>,
    case: &str,
    words: WantsWords,
    output: &mut O,
    onlooker: &mut W,
) -> Result<(), Failure> {
    let alloc = rt.alloc();
    let mut reply = Collected::new(alloc);
    match ask_wants(rt, place, case, &mut reply, onlooker) {
        Ok(()) => print_form(alloc, reply.text(), words, output),
        Err(Failure::Told) if words.is_json => print_refused(alloc, reply.text(), output),
        Err(Failure::Told) => write_refused(reply.text(), output),
        Err(failure) => Err(failure),
    }
}

// Writes a reply that says why a line is refused.
fn write_refused<O: Output>(text: &[u8], output: &mut O) -> Result<(), Failure> {
    write_text(text, output)?;
    Err(Failure::Told)
}

// The builds that a core wants, as the reply to its line has them.
fn ask_wants<R: AllocGlobal + Files<File = File> + Clock, W: Onlooker>(
    rt: &R,
    place: ArchivePath<'_>,
    case: &str,
    reply: &mut Collected,
    onlooker: &mut W,
) -> Result<(), Failure> {
    match parse_case_number(case.as_bytes()) {
        Some(seq) => {
            let query = Query::Memory(MemoryQuery::Builds(BuildQuery::Wanted));
            ask(rt, place, Question::Inspect { seq, query }, reply, onlooker)
        }
        None => {
            let line = NamedLine {
                words: &["wants", case],
                by_build: false,
            };
            ask_case(rt, place, line, reply, onlooker)
        }
    }
}

// Prints the lines of a reply in the form that the words ask for.
fn print_form<O: Output>(
    alloc: Global,
    text: &[u8],
    words: WantsWords,
    output: &mut O,
) -> Result<(), Failure> {
    let rows = text.strip_suffix(b"ok\n".as_slice()).unwrap_or(text);
    match (words.is_json, words.ids_alone) {
        (true, _) => write_json(&rows_json(alloc, rows, &FORMS)?, output),
        (false, true) => cut_ids(rows, output),
        (false, false) => write_text(text, output),
    }
}

// Prints the last word of each line, and then `ok`.
fn cut_ids<O: Output>(rows: &[u8], output: &mut O) -> Result<(), Failure> {
    let mut reply = Reply::new(output);
    let mut rest = rows.lines();
    while let Some(line) = rest.next() {
        let (_, id) = line.split_at(memrchr(b' ', line).map_or(0, |at| at + 1));
        reply.print(id);
        reply.print(b"\n");
    }
    print_ok(&mut reply);
    Ok(reply.finish()?)
}

// Prints the builds that all cores want.
fn print_all<R: AllocGlobal + Files<File = File>, O: Output>(
    rt: &R,
    place: ArchivePath<'_>,
    words: WantsWords,
    output: &mut O,
) -> Result<(), Failure> {
    let alloc = rt.alloc();
    let cores = files_of_all(rt, place)?;
    let wanted = WantedBuilds::of(alloc, &cores)?;
    match (words.is_json, words.ids_alone) {
        (true, _) => print_json(alloc, &wanted.builds, output),
        (false, true) => Ok(print_all_ids(&wanted.builds, output)?),
        (false, false) => Ok(print_all_builds(&wanted.builds, output)?),
    }
}

// Prints builds as JSON.
fn print_json<O: Output>(
    alloc: Global,
    builds: &[WantedBuild<'_>],
    output: &mut O,
) -> Result<(), Failure> {
    let mut rows = Collected::new(alloc);
    let mut reply = Reply::new(&mut rows);
    print_builds(&mut reply, builds);
    match reply.finish() {
        Ok(()) => write_json(&rows_json(alloc, rows.text(), &FORMS)?, output),
        Err(_) => Err(Failure::Refused(Refusal::OutOfMemory)),
    }
}

// Prints builds, a line for each, and then `ok`.
fn print_all_builds<O: Output>(
    builds: &[WantedBuild<'_>],
    output: &mut O,
) -> Result<(), StreamFault>
    ensures { IsDelivered (O.taken output.old) (O.failures output.old) (O.taken output.new) (O.failures output.new) (wants_reply (map wanted_view builds.now)) result }
{
    let mut reply = Reply::new(output);
    print_builds(&mut reply, builds);
    print_ok(&mut reply);
    reply.finish()
}

// Prints the IDs of builds, a line for each, and then `ok`.
fn print_all_ids<O: Output>(builds: &[WantedBuild<'_>], output: &mut O) -> Result<(), StreamFault>
    ensures { IsDelivered (O.taken output.old) (O.failures output.old) (O.taken output.new) (O.failures output.new) (ids_reply (map wanted_view builds.now)) result }
{
    let mut reply = Reply::new(output);
    print_ids(&mut reply, builds);
    print_ok(&mut reply);
    reply.finish()
}

// The files that the cores of an archive map. If cases are deleted whenever all are looked at, each core is looked at alone.
fn files_of_all<R: AllocGlobal + Files<File = File>>(
    rt: &R,
    place: ArchivePath<'_>,
) -> Result<Vec<Vec<KeptFile>>, Refusal> {
    match gather_unlocked(rt, place) {
        Ok(Gathered { files, .. }) => Ok(files),
        Err(Refusal::Call(ArchiveFault::NoCase)) => files_of_each(rt, place),
        Err(refusal) => Err(refusal),
    }
}

// The same, each core by a look of its own. A core that is gone maps no file.
fn files_of_each<R: AllocGlobal + Files<File = File>>(
    rt: &R,
    place: ArchivePath<'_>,
) -> Result<Vec<Vec<KeptFile>>, Refusal> {
    let alloc = rt.alloc();
    let looked = take_look(rt, place)?;
    let cases = cases_on(alloc, looked.unlocked(Vec::new(alloc)))?;
    let mut cores = Vec::new(alloc);
    for case in &cases {
        if case.is_core {
            push_files(&mut cores, files_at(rt, place, case.brief.seq)?)?;
        }
    }
    Ok(cores)
}

// The files that a core maps, by a look of its own; an empty list, if it is
// gone. If an executable was deleted meanwhile the core is looked at again.
fn files_at<R: AllocGlobal + Files<File = File>>(
    rt: &R,
    place: ArchivePath<'_>,
    seq: u32,
) -> Result<Vec<KeptFile>, Refusal> {
    for _ in 0..TRIES {
        match files_looked(rt.alloc(), take_look(rt, place)?, seq) {
            Err(Refusal::Call(ArchiveFault::NoCase)) => {}
            seen => return seen,
        }
    }
    Ok(Vec::new(rt.alloc()))
}

// The files that a core maps, once all that was read is found again.
fn files_looked<S: SharedDisk + Drop>(
    alloc: Global,
    looked: Looked<S>,
    seq: u32,
) -> Result<Vec<KeptFile>, Refusal>
    ensures { FilesBetween S.SharedDisk ⟦<Unlocked<'static, S> as Disk>⟧ (shared_of looked) seq result }
{
    the_next_number_is_above();
    a_case_is_there_between();
    let reads = Reads::Memory { seq };
    let places = match find_cases(alloc, looked.unlocked(Vec::new(alloc)), reads) {
        Ok(places) => places,
        Err(fault) => return Err(unasked(fault)),
    };
    let Places { numbers, ranges } = places;
    let disk = looked.unlocked(ranges);
    let files = files_on(alloc, disk, seq)?;
    match stay(alloc, looked.into_shared(), &numbers) {
        Ok(()) => Ok(files),
        Err(fault) => Err(unasked(fault)),
    }
}
