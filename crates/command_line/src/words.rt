// The program: the request of its words, and the status that it ends with.
ghost use Rattle.std.specs.Prelude.{◌≡◌, ◌≤◌, false};
ghost use Rattle.command_words.specs.Notes.{IsQuietButForNotes, IsQuietButForSomeNotes, may_note, second_subject, subject};

use crate::ask_words::{AskedLine, Form};
use crate::asked::{Asked, Paths, ReadWords, SessionWords, naming_of, read_words};
use crate::endings::{Clues, Ending, print_ending};
use crate::metrics_command::info_metrics;
use crate::named_files::ending_of;
use archive_files::{
    Access, ArchivePath, Collected, Failure, NewArchive, Refusal, StoreRequest, ask, check,
    copy_archive_file, look, make_archive, names_output, note_file_system, note_gap, note_shared,
    print_trouble, resize_archive_file, run_over, salvage, take_disk,
};
use case_info::{
    CoreLine, PruneWords, ask_core, ask_rows, dumped_words, group_archive, info_archive, info_case,
    print_wants, prune_archive, question_at, register_in, report_archive, thread_words,
};
use case_listing::{
    MachineZone, NamedLine, ask_case, ask_plain, digest, extract_case, list, named_question,
    search, would_retire,
};
use case_tables::Zone;
use case_unpacking::unpack;
use command_words::{
    Context, Watched, asked_help, asked_reason, context_of, in_order, line_in_place_of_a_command,
    option_without_blocks, print_help, print_notes, print_reason, words_of,
};
use core_handler::{
    Log, Notes, Printer, Source, SpoolWords, handle, print_lost_words, store_build_told,
    store_spooled, store_told, write_trouble,
};
use diagnostics::{Nobody, Onlooker};
use inspector_cli::memory_session;
use intake::Settings;
use journal_layout::Shape;
use script_lines::Question;
use script_streams::{Output, ReadInput, Reply};
use shown_progress::Listener;
use std::alloc::{AllocError, Global};
use std::fs::File;
use std::io::Read;
use std::rt::{Env, Files};
use std::time::Clock;

/// The program but for its standard streams, which its `main` hands in. Its words are those of the process, of any bytes. It answers
/// the status that the program ends with, as `run_words` does. An onlooker is shown the progress.
pub fn run_program<
    R: Env + AllocGlobal + Files<File = File> + Clock + Clone + Drop,
    I: Read,
    O: Output,
    E: Output,
    W: Onlooker,
>(rt: &R, input: &mut I, output: &mut O, errors: &mut E, onlooker: &mut W) -> u8
    ensures most { result ≤ 2 }
    ensures quiet { result ≡ 0 → IsQuietButForSomeNotes E.Output errors.old errors.new }
{
    match words_of(rt) {
        Ok(words) => run_watched(rt, words.as_slice(), input, output, errors, onlooker),
        Err(_) => print_ending(
            rt.alloc(),
            &Ending::from(Refusal::OutOfMemory),
            Clues {
                context: Context::Other,
                last_line: b"",
                words: &[],
                line: None,
                trouble: None,
            },
            output,
            errors,
        ),
    }
}

/// Carries out the command in the words after the program's name. It answers the status that the program ends with.
///
/// An archive in a file is changed by one process at a time. A command that changes it waits until another one has ended. One that only
/// looks at it waits until none changes it. With `--no-wait` either is refused as `Busy` instead. While they wait they do not return;
/// the same holds if FILE is a pipe that nobody writes to.
///
/// - `format ARCHIVE --half N --data N` makes an archive in a new file, all of whose bytes are written; with `--sparse`
/// they are not. It is of version 1 of the layout, and with `--layout 2` of version 2, which keeps labels.
/// - `run ARCHIVE` runs the script of `input` over the archive in a file, and writes its replies to `output`.
/// - `memory --half N --data N` runs it over a fresh archive in memory.
/// - `store ARCHIVE FILE [KEY=VALUE..]` stores a file as a core with these pairs, and with `--exec NAME` instead of the pairs
/// as an executable of that name. Its replies are those of the lines `begin` and `end` of a script. FILE `-` is `input`. With
/// `--escape` the bytes of each VALUE and of NAME are taken unchanged. With `--keep K`, `--bytes B` or `--before T` the line `retire`
/// of a script with these limits is carried out first, in the same opening, and its reply goes before the others; if it is refused the
/// file is stored anyway. With `--label TEXT` the line `label` of a script gives the new case this label, and its reply follows the
/// others; if it is refused, such as in an archive of version 1 of the layout, the case stays. With `--pin` the line `pin` comes after
/// that, in the same way.
/// - `list ARCHIVE` shows the cases as a table, or as JSON; with filters, those that match. The status is 1 if none does.
/// - `search ARCHIVE --text TEXT` lists the cases whose images have these bytes, with the same filters. The status is 1 if none has them.
/// - `info ARCHIVE CASE` shows a case on one screen, and `info ARCHIVE` the archive.
/// - `ask ARCHIVE WORD..` carries out one line of a script, with `--plain` so that people read its reply, and `find N --text TEXT` looks
/// for these bytes. `extract ARCHIVE N [FILE]` writes the image of a case. A line that changes no case, and `extract`, need no right to
/// write the archive's file, and hold its lock only while they read its journal.
/// - `digest ARCHIVE CASE..` prints the SHA-256 of the images of cases, each with its length and its number.
/// - `report ARCHIVE` prints a page in HTML of the crashes in the archive, and `report ARCHIVE CASE..` one of these cases.
/// - `unpack ARCHIVE CASE DIR` writes the image of a case, its executables, and the commands of debuggers into a new
/// directory.
/// - `prune ARCHIVE` prints which executables and debug files are of builds that no core needs, and with `--cores K`, `--bytes B` or
/// `--before T` which cores go first; with `--yes` it deletes them.
/// - `look ARCHIVE` answers the lines of `input` that change no case, each as `ask` does.
/// - `check ARCHIVE` prints the contents of an archive, and that it is sound or where the damage is.
/// - `copy ARCHIVE NEW` copies it into a new file, and `resize ARCHIVE` into one that takes its place; `--half N` and `--data N` give
/// the new archive another size.
/// - `salvage ARCHIVE NEW` copies the cases of a damaged archive into a new file, and prints of each whether it is whole.
///
/// `run`, `memory` and `store` take `--template T` and `--uses-pid`, by which cores are named, and `--limit N`, the most bytes of an
/// image. Statuses: 0; 1 if something is refused, with one line `no REASON` on `output` (and its meaning in words on `errors`), or the
/// session ends before its script, with one line `fault NAME` on `errors`; 2 if the words are refused, with the reason on `errors`.
/// Help goes to `output`, and the status is 0 then. Refusals are looked for in this order: the words, the template, the shape, ARCHIVE,
/// FILE.
pub fn run_words<
    R: Env + AllocGlobal + Files<File = File> + Clock + Clone + Drop,
    I: Read,
    O: Output,
    E: Output,
>(rt: &R, words: &[String], input: &mut I, output: &mut O, errors: &mut E) -> u8
    // The status. If it is 0, nothing was written to the errors, except for a note on the case that `store` stored, on the archive that
    // `check` or `handle` looked at, or on a file or a directory that was made; and after it one on the file system of an archive that was
    // made or checked, on the spool, or on the case that was unpacked.
    ensures most { result ≤ 2 }
    ensures quiet { result ≡ 0 → may_note words.now ≡ false → errors.new ≡ errors.old }
    ensures notes { result ≡ 0 → IsQuietButForNotes (subject words.now) (second_subject words.now) E.Output errors.old errors.new }
{
    run_watched(rt, words, input, output, errors, &mut Nobody)
}

/// The same as `run_words`. An onlooker is shown the progress of `format`, `store`, `extract`, `digest`, `unpack`, `copy`, `resize` and `salvage`,
/// unless `--quiet` is there.
pub fn run_watched<
    R: Env + AllocGlobal + Files<File = File> + Clock + Clone + Drop,
    I: Read,
    O: Output,
    E: Output,
    W: Onlooker,
>(rt: &R, words: &[String], input: &mut I, output: &mut O, errors: &mut E, onlooker: &mut W) -> u8
    ensures most { result ≤ 2 }
    ensures quiet { result ≡ 0 → may_note words.now ≡ false → errors.new ≡ errors.old }
    ensures notes { result ≡ 0 → IsQuietButForNotes (subject words.now) (second_subject words.now) E.Output errors.old errors.new }
{
    let mut watched = Watched::new(output);
    let mut notes = Notes::new(rt.alloc());
    let mut listener = Listener::new(onlooker);
    let answered = answer_words(rt, words, input, &mut watched, &mut notes, &mut listener);
    let trouble = listener.trouble();
    let line = watched.into_line();
    print_notes(words, notes.subject.text(), notes.second.text(), errors);
    match answered {
        Ok(()) => 0,
        Err(ending) => {
            let clues = Clues {
                context: context_of(words, &line),
                last_line: line.text(),
                words,
                line: line_in_place_of_a_command(words),
                trouble,
            };
            print_ending(rt.alloc(), &ending, clues, output, errors)
        }
    }
}

// Does the task of the words, unless the log of it would overwrite a file that they name.
fn answer_words<
    R: Env + AllocGlobal + Files<File = File> + Clock + Clone + Drop,
    I: Read,
    O: Output,
    W: Onlooker,
>(
    rt: &R,
    words: &[String],
    input: &mut I,
    output: &mut O,
    notes: &mut Notes,
    listener: &mut Listener<'_, W>,
) -> Result<(), Ending> {
    if names_output(rt, words) {
        return Err(Ending::from(Failure::Aside(Refusal::Output)));
    }
    if let Some(help) = asked_help(words) {
        return print_help(help, output).map_err(|_| Ending::from(Failure::Told));
    }
    if let Some((reason, meaning)) = asked_reason(words) {
        return print_reason(reason, meaning, output).map_err(|_| Ending::from(Failure::Told));
    }
    if let Some(option) = option_without_blocks(words) {
        return Err(Ending::Wrong(format!(in rt.alloc();
            "error: {option} takes how many blocks there are to be: 262144 are 1 GiB\n"
        )?));
    }
    let ordered = in_order(rt.alloc(), words)?;
    let words = match &ordered {
        Some(ordered) => ordered.as_slice(),
        None => words,
    };
    match read_words(rt.alloc(), words) {
        Ok(read) => carry_out(rt, read, input, output, notes, listener),
        Err(ending) => {
            if ordered.is_some() && !matches!(ending, Ending::Help(_)) {
                print_lost_words(rt);
            }
            Err(aside_of_an_image(words, ending))
        }
    }
}

// Does the task that the words ask for, and notes first what people should know of the machine.
fn carry_out<
    R: Env + AllocGlobal + Files<File = File> + Clock + Clone + Drop,
    I: Read,
    O: Output,
    W: Onlooker,
>(
    rt: &R,
    read: ReadWords<'_>,
    input: &mut I,
    output: &mut O,
    notes: &mut Notes,
    listener: &mut Listener<'_, W>,
) -> Result<(), Ending> {
    let ReadWords {
        asked,
        is_quiet,
        is_local,
    } = read;
    if is_quiet {
        listener.hush();
    }
    let machine = machine_zone(rt, is_local, &mut notes.subject);
    let zone = match &machine {
        Some(machine) => machine.zone(),
        None => Zone::Utc,
    };
    if let Some(path) = asked.made() {
        note_shared(rt, path, &mut notes.subject);
    }
    let paths = asked.paths();
    match answer_asked(rt, asked, zone, input, output, notes, listener) {
        Ok(()) => Ok(()),
        Err(failure) => {
            let archive = paths.archive.or(notes.archive.as_deref());
            Err(ending_of(rt, failure, Paths { archive, ..paths }))
        }
    }
}

// The zone of this machine, if the words ask for its times. If it can't be read, a note says why.
fn machine_zone<R: AllocGlobal + Env + Files<File = File>>(
    rt: &R,
    is_local: bool,
    note: &mut Collected,
) -> Option<MachineZone> {
    if !is_local {
        return None;
    }
    match MachineZone::read(rt) {
        Ok(machine) => Some(machine),
        Err(why) => {
            let mut reply = Reply::new(note);
            reply.print(b"can't be read (");
            reply.print(why.as_bytes());
            reply.print(b"): times are in UTC");
            let _ = reply.finish();
            None
        }
    }
}

// Does the task, with times in a zone.
fn answer_asked<
    R: AllocGlobal + Files<File = File> + Clock + Clone + Drop,
    I: Read,
    O: Output,
    W: Onlooker,
>(
    rt: &R,
    asked: Asked<'_>,
    zone: Zone<'_>,
    input: &mut I,
    output: &mut O,
    notes: &mut Notes,
    onlooker: &mut W,
) -> Result<(), Failure> {
    match asked {
        Asked::Format { archive, wanted } => make_noting(rt, archive, wanted, notes, onlooker),
        Asked::Run {
            archive,
            settings,
            by_build,
        } => run_file(rt, archive, settings, by_build, input, output, onlooker),
        Asked::Memory {
            shape,
            settings,
            by_build,
        } => run_memory(rt, shape, settings, by_build, input, output),
        Asked::Store {
            archive,
            file,
            stall,
            request,
            log,
            spool,
        } => {
            let source = Source { path: file, stall };
            store_noting(
                rt, archive, source, request, log, &spool, input, output, notes, onlooker,
            )
        }
        Asked::StoreBuild {
            archive,
            file,
            build,
            log,
        } => {
            let printer = printer_of(rt.alloc(), archive, log);
            let note = &mut notes.subject;
            store_build_told(
                rt, printer, archive, file, build, input, output, note, onlooker,
            )
        }
        Asked::Extract {
            archive,
            case,
            file,
        } => extract_case(
            rt,
            archive,
            case,
            crate::asked::new_file(file),
            output,
            onlooker,
        ),
        Asked::Digest { archive, cases } => digest(rt, archive, &cases, output, onlooker),
        Asked::Unpack {
            archive,
            case,
            folder,
        } => unpack(
            rt,
            archive,
            case,
            folder,
            output,
            &mut notes.second,
            onlooker,
        ),
        Asked::Handle(words) => handle(rt, words, input, output, notes, onlooker),
        Asked::List { archive, wanted } => list(rt, archive, wanted, zone, output),
        Asked::Ask {
            archive,
            line,
            question,
        } => answer_line(rt, archive, &line, question, output, onlooker),
        Asked::Info {
            archive,
            case: Some(case),
            wanted,
        } => info_case(rt, archive, case, wanted, zone, output),
        Asked::Info {
            archive,
            case: None,
            wanted,
        } => info_archive(rt, archive, wanted.is_json, zone, output),
        Asked::Metrics(path) => info_metrics(rt, path, output),
        Asked::Wants {
            archive,
            case,
            wanted,
        } => print_wants(rt, archive, case, wanted, output, onlooker),
        Asked::Prune { archive, wanted } => prune(rt, archive, wanted, output, onlooker),
        Asked::Groups { archive, wanted } => group_archive(rt, archive, wanted, zone, output),
        Asked::Report { archive, cases } => report_archive(rt, archive, &cases, output),
        Asked::Search { archive, wanted } => search(rt, archive, wanted, zone, output),
        Asked::WouldRetire { archive, policy } => would_retire(rt, archive, &policy, output),
        Asked::Look { archive, by_build } => {
            look(rt, archive, by_build, &mut ReadInput::new(input), output)
        }
        Asked::Check {
            archive,
            sees_images,
        } => check_noting(rt, archive, sees_images, output, notes, onlooker),
        Asked::Copy {
            archive,
            new,
            wanted,
        } => Ok(copy_archive_file(rt, archive, new, wanted, onlooker)?),
        Asked::Resize { archive, wanted } => {
            Ok(resize_archive_file(rt, archive, wanted, onlooker)?)
        }
        Asked::Salvage { archive, new } => salvage(rt, archive, new, output, onlooker),
        Asked::Nothing => Ok(()),
    }
}

// The writer of a store's outcome to this log, if there is one.
fn printer_of<'a>(alloc: Global, archive: ArchivePath<'a>, log: Option<&'a str>) -> Printer<'a> {
    Printer {
        alloc,
        log: Log {
            path: log.unwrap_or(""),
            archive: Some(archive.path),
        },
        context: Context::Storing,
        mode: None,
        spooling: None,
        counts: false,
    }
}

// Stores a file, by way of a spool if there is one, and notes the facts that people should know.
fn store_noting<
    R: AllocGlobal + Files<File = File> + Clock + Clone + Drop,
    I: Read,
    O: Output,
    W: Onlooker,
>(
    rt: &R,
    archive: ArchivePath<'_>,
    source: Source<'_>,
    request: StoreRequest,
    log: Option<&str>,
    spool: &Option<SpoolWords<'_>>,
    input: &mut I,
    output: &mut O,
    notes: &mut Notes,
    onlooker: &mut W,
) -> Result<(), Failure> {
    let printer = printer_of(rt.alloc(), archive, log);
    match spool {
        Some(spool) => store_spooled(
            rt, spool, printer, archive, source, request, input, output, notes, onlooker,
        ),
        None => {
            let note = &mut notes.subject;
            let (ended, _) = store_told(
                rt, printer, archive, source, request, input, output, note, onlooker,
            );
            ended
        }
    }
}

// Makes an archive, and notes the limits of the file system that it lies on.
fn make_noting<R: AllocGlobal + Files<File = File>, W: Onlooker>(
    rt: &R,
    path: &str,
    wanted: NewArchive,
    notes: &mut Notes,
    onlooker: &mut W,
) -> Result<(), Failure> {
    make_archive(rt, path, wanted, onlooker)?;
    note_file_system(rt, path, &mut notes.second);
    Ok(())
}

// Prints whether the archive in a file is sound, and notes how its halves relate, and the limits of its file system.
fn check_noting<R: AllocGlobal + Files<File = File> + Clock, O: Output, W: Onlooker>(
    rt: &R,
    place: ArchivePath<'_>,
    sees_images: bool,
    output: &mut O,
    notes: &mut Notes,
    onlooker: &mut W,
) -> Result<(), Failure> {
    let checked = check(rt, place, sees_images, output, onlooker);
    note_gap(rt, place, &mut notes.subject);
    note_file_system(rt, place.path, &mut notes.second);
    checked
}

// Answers one line. Without a question its second word names a case, or its third one a register.
fn answer_line<R: AllocGlobal + Files<File = File> + Clock, O: Output, W: Onlooker>(
    rt: &R,
    place: ArchivePath<'_>,
    line: &AskedLine<'_>,
    question: Option<Question>,
    output: &mut O,
    onlooker: &mut W,
) -> Result<(), Failure> {
    let words = line.words(rt.alloc())?;
    if changes(rt.alloc(), &question, &words)? {
        refuse_unwritten(rt, place.path, onlooker)?;
    }
    let named = NamedLine {
        words: &words,
        by_build: line.by_build,
    };
    if let Some(asked) = core_line(line, &words) {
        return ask_core(rt, place, asked, output);
    }
    let question = match (question, register_in(&words)) {
        (None, Some(at)) => {
            let is_json = line.form == Form::Rows;
            Some(question_at(rt, place, named, at, is_json, output)?)
        }
        (question, _) => question,
    };
    answer_named(rt, place, named, line.form, question, output, onlooker)
}

// Answers one line in a form. Without a question its second word names a case.
fn answer_named<R: AllocGlobal + Files<File = File> + Clock, O: Output, W: Onlooker>(
    rt: &R,
    place: ArchivePath<'_>,
    named: NamedLine<'_>,
    form: Form,
    question: Option<Question>,
    output: &mut O,
    onlooker: &mut W,
) -> Result<(), Failure> {
    match (form, question) {
        (Form::Rows, question) => ask_rows(rt, place, named, question, output, onlooker),
        (Form::Plain, question) => ask_plain(rt, place, named, question, output, onlooker),
        (_, Some(question)) => ask(rt, place, question, output, onlooker),
        (_, None) => ask_case(rt, place, named, output, onlooker),
    }
}

// The question of a line about a core, if its answer is printed from values.
fn core_line<'w>(line: &AskedLine<'_>, words: &[&'w str]) -> Option<CoreLine<'w>> {
    match (line.form, line.by_build) {
        (Form::Words, _) => dumped_words(words),
        (Form::Plain, false) => thread_words(words),
        _ => None,
    }
}

// Whether a line changes the archive. Without a question its second word names a case.
fn changes(alloc: Global, question: &Option<Question>, words: &[&str]) -> Result<bool, AllocError> {
    match question {
        Some(question) => Ok(!question.only_looks()),
        None => {
            let named = named_question(alloc, words)?;
            Ok(named.is_some_and(|question| !question.only_looks()))
        }
    }
}

// Prunes an archive, or prints which cases would go.
fn prune<R: AllocGlobal + Files<File = File> + Clock, O: Output, W: Onlooker>(
    rt: &R,
    place: ArchivePath<'_>,
    wanted: PruneWords,
    output: &mut O,
    onlooker: &mut W,
) -> Result<(), Failure> {
    if wanted.deletes {
        refuse_unwritten(rt, place.path, onlooker)?;
    }
    prune_archive(rt, place, wanted, output, onlooker)
}

// Refuses to change an archive whose file has more bytes than the process may write, as if a write had failed.
fn refuse_unwritten<R: AllocGlobal + Files<File = File>, W: Onlooker>(
    rt: &R,
    path: &str,
    onlooker: &mut W,
) -> Result<(), Failure> {
    let Some(trouble) = write_trouble(rt, path) else {
        return Ok(());
    };
    onlooker.fail(trouble);
    Err(Failure::Refused(Refusal::Disk))
}

// Refusals of `extract` and `digest` go to another stream than their output, which is an image, or one line for each case, even if their words
// could not be read.
fn aside_of_an_image(words: &[String], ending: Ending) -> Ending {
    match ending {
        Ending::Failed(Failure::Refused(refusal), named) if asks_for_an_image(words) => {
            Ending::Failed(Failure::Aside(refusal), named)
        }
        other => other,
    }
}

fn asks_for_an_image(words: &[String]) -> bool {
    match words.first() {
        Some(word) => word.as_str() == "extract" || word.as_str() == "digest",
        None => false,
    }
}

// Runs a script over the archive in a file.
fn run_file<R: AllocGlobal + Files<File = File> + Clock, I: Read, O: Output, W: Onlooker>(
    rt: &R,
    place: ArchivePath<'_>,
    settings: SessionWords<'_>,
    by_build: bool,
    input: &mut I,
    output: &mut O,
    onlooker: &mut W,
) -> Result<(), Failure> {
    let naming = naming_of(settings, by_build)?;
    refuse_unwritten(rt, place.path, onlooker)?;
    let disk = take_disk(rt, place, Access::Changing, onlooker)?;
    let mut script = ReadInput::new(input);
    let (ended, disk) = run_over(
        rt.alloc(),
        disk,
        settings.limit,
        &naming,
        &mut script,
        output,
    );
    print_trouble(&disk, onlooker);
    ended
}

// Runs a script over a fresh archive in memory.
fn run_memory<R: AllocGlobal, I: Read, O: Output>(
    rt: &R,
    shape: Shape,
    settings: SessionWords<'_>,
    by_build: bool,
    input: &mut I,
    output: &mut O,
) -> Result<(), Failure> {
    let naming = naming_of(settings, by_build)?;
    let mut script = ReadInput::new(input);
    let limit = settings.limit;
    let ended = memory_session(
        rt.alloc(),
        shape,
        Settings { limit },
        &naming,
        &mut script,
        output,
    );
    Ok(ended?)
}
