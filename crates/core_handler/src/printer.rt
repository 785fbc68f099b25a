// The outcome of a case that is stored, written to a log.
ghost use Rattle.handler_files.specs.Spools.{spools};
ghost use Rattle.core_handler.specs.Printing.{IsPlaced};

use crate::counting::{count, dropped_count, reason_in, stored_counter, unstored_counter};
use crate::examine::{Seen, look_at_case};
use crate::file_limit::write_trouble;
use crate::lock_watch::LockWatch;
use crate::log::{Level, Log};
use crate::outcome_lines::{
    Place, lack_words, lacks_of, lost_line, reason_outcome, replies_outcome, stored_line, words_of,
};
use crate::patient_input::PatientInput;
use archive_files::{
    ArchivePath, BuildRequest, Collected, Failure, Held, Refusal, StoreRequest, print_stall,
    read_whole, reason_of, refuse_file, store_file,
};
use command_words::Context;
use diagnostics::{Onlooker, Trouble};
use disk_model::FileDisk;
use handler_files::{Counter, Fate, Outcome, fate_of};
use script_streams::{Output, Reply, write_whole};
use script_words::parse_case_number;
use std::alloc::Global;
use std::fs::File;
use std::io::Read;
use std::rt::Files;
use std::time::Clock;
use thread_regs::signal_name;

// The seconds from which on a wait for the archive's lock is logged.
const LONG_WAIT: u64 = 10;

/// The reporter of outcomes.
#[derive(Clone, Copy)]
pub struct Printer<'a> {
    /// The memory for its texts.
    pub alloc: Global,
    /// Its log.
    pub log: Log<'a>,
    /// The work whose outcomes it reports.
    pub context: Context,
    /// The dump mode of the process, if it is stated.
    pub mode: Option<u64>,
    /// The spool in which a core stays that can't be stored now, if it is in the spool.
    pub spooling: Option<Spooling<'a>>,
    /// Outcomes are counted in a file beside the archive.
    pub counts: bool,
}

/// The spool that a core is stored from.
#[derive(Clone, Copy)]
pub struct Spooling<'a> {
    /// Its directory.
    pub folder: &'a str,
    /// Cases go so that a core finds room.
    pub makes_room: bool,
}

/// The stream to store.
#[derive(Clone, Copy)]
pub struct Source<'a> {
    /// The path of a file, or - for the standard input.
    pub path: &'a str,
    /// For how many seconds a standard input that is non-blocking may give nothing, if that is bounded.
    pub stall: Option<u64>,
}

/// Stores a file, or the standard input, logs the outcome, and returns it. If a part of the case
/// can't be read, a note says so. An onlooker is shown the progress of the store, and the call
/// on the archive's file that failed, if one did. A long wait for the archive's lock is logged.
///
/// # Errors
///
/// Those of `store_file` of `archive_files`, and `WriteFailed` if the replies could not be written. `Disk`, before anything is read, if the
/// process may not write as far as the archive's file goes.
pub fn store_told<R: AllocGlobal + Files<File = File> + Clock, I: Read, O: Output, W: Onlooker>(
    rt: &R,
    printer: Printer<'_>,
    place: ArchivePath<'_>,
    source: Source<'_>,
    request: StoreRequest,
    input: &mut I,
    output: &mut O,
    note: &mut Collected,
    onlooker: &mut W,
) -> (Result<(), Failure>, Outcome) {
    let name = request.printed_name(printer.alloc);
    if let Some(trouble) = write_trouble(rt, place.path) {
        onlooker.fail(trouble);
        let failure = printer.refuse_unwritten(rt, place.path, name.text(), trouble);
        return (Err(failure), Outcome::Disk);
    }
    let has_label = request.has_label();
    let mut reply = Held::new(printer.alloc, output);
    let mut patient = PatientInput::new(rt, input, source.stall);
    let (ended, disk, waited) = store_timed(
        rt,
        place,
        source.path,
        request,
        &mut patient,
        &mut reply,
        onlooker,
    );
    printer.print_wait(rt, place.path, waited);
    let ended = with_stall(ended, reply.text(), patient.stalled());
    let outcome = printer.print_outcome(
        rt,
        place.path,
        name.text(),
        reply.text(),
        has_label,
        &ended,
        disk,
        note,
    );
    match reply.finish() {
        Ok(()) => (ended, outcome),
        Err(fault) => (Err(Failure::from(fault)), outcome),
    }
}

/// Stores a file, or the standard input, under the name that its build ID gives, and logs the outcome, as `store_told` does. The file
/// is read whole before the archive's lock is taken.
///
/// # Errors
///
/// Those of `store_told`, and those of `BuildRequest::for_image` and `read_whole` of `archive_files`, which come after a fault of the
/// archive.
pub fn store_build_told<
    R: AllocGlobal + Files<File = File> + Clock,
    I: Read,
    O: Output,
    W: Onlooker,
>(
    rt: &R,
    printer: Printer<'_>,
    place: ArchivePath<'_>,
    file: &str,
    build: BuildRequest,
    input: &mut I,
    output: &mut O,
    note: &mut Collected,
    onlooker: &mut W,
) -> Result<(), Failure> {
    let limit = build.limit;
    let refusal = match read_whole(rt, file, limit, input) {
        Ok(image) => match build.for_image(rt.alloc(), &image) {
            Ok(request) => {
                let source = Source {
                    path: "-",
                    stall: None,
                };
                let mut image = image.as_slice();
                let (ended, _) = store_told(
                    rt, printer, place, source, request, &mut image, output, note, onlooker,
                );
                return ended;
            }
            Err(refusal) => refusal,
        },
        Err(refusal) => refusal,
    };
    let (ended, disk) = refuse_file(rt, place, limit, refusal, onlooker);
    let name = b"an executable";
    printer.print_outcome(rt, place.path, name, b"", false, &ended, disk, note);
    ended
}

// Stores a file, or the standard input, and says for how many seconds the archive's lock was waited for.
fn store_timed<R: AllocGlobal + Files<File = File> + Clock, I: Read, O: Output, W: Onlooker>(
    rt: &R,
    place: ArchivePath<'_>,
    file: &str,
    request: StoreRequest,
    input: &mut I,
    output: &mut O,
    onlooker: &mut W,
) -> (Result<(), Failure>, Option<FileDisk>, u64) {
    let mut watch = LockWatch::new(rt, onlooker);
    let (ended, disk) = store_file(rt, place, file, request, input, output, &mut watch);
    (ended, disk, watch.waited())
}

impl<'a> Printer<'a> {
    // Logs for how many seconds the lock of an archive was waited for, if that was long.
    pub(crate) fn print_wait<R: Files<File = File>>(&self, rt: &R, archive: &str, seconds: u64) {
        if seconds < LONG_WAIT {
            return;
        }
        let mut line = Collected::new(self.alloc);
        let mut reply = Reply::new(&mut line);
        reply.print(b"waited ");
        reply.print_decimal(u128::from(seconds));
        reply.print(b" seconds for the lock of ");
        reply.print_text(archive.as_bytes());
        let _ = reply.finish();
        self.print(rt, Level::Warning, line.text());
    }

    // Logs a line.
    pub(crate) fn print<R: Files<File = File>>(&self, rt: &R, level: Level, text: &[u8]) {
        self.log.print(rt, self.alloc, level, text);
    }

    // The outcome of a core that is refused for this reason.
    fn outcome_by(&self, reason: &[u8]) -> Outcome {
        match &self.spooling {
            Some(spooling) => reason_outcome(reason, spooling.makes_room),
            None => Outcome::Unknown,
        }
    }

    // The place of a core after an outcome that does not store it:
    // in the spool, if it stays there, or lost by this archive.
    fn place_after<'b>(&'b self, archive: &'b str, outcome: Outcome) -> Place<'b>
        ensures { IsPlaced self.now.spooling archive.now (spools outcome) result }
    {
        let Some(spooling) = &self.spooling else {
            return Place::Lost(archive);
        };
        match fate_of(outcome) {
            Fate::Stay => Place::Kept(spooling.folder),
            Fate::Go => Place::Lost(archive),
        }
    }

    // Logs that a case is lost, or kept in the spool, with this reason and this meaning.
    pub(crate) fn print_lost<R: Files<File = File> + Clock>(
        &self,
        rt: &R,
        archive: &str,
        replies: &[u8],
        name: &[u8],
        reason: &[u8],
        words: &[u8],
    ) {
        let place = self.place_after(archive, self.outcome_by(reason));
        let level = match place {
            Place::Kept(_) => Level::Warning,
            Place::Lost(_) => Level::Error,
        };
        let line = lost_line(self.alloc, replies, name, place, reason, words, self.mode);
        self.print(rt, level, line.text());
        let counter = unstored_counter(place, reason_in(reason));
        self.count(rt, archive, counter, replies);
    }

    // Counts an outcome, and the cases that were dropped for it. If that fails, the log says so, and nothing else changes.
    pub(crate) fn count<R: Files<File = File> + Clock>(
        &self,
        rt: &R,
        archive: &str,
        counter: Counter,
        replies: &[u8],
    ) {
        if !self.counts || archive.is_empty() {
            return;
        }
        let Err(why) = count(rt, self.alloc, archive, counter, dropped_count(replies)) else {
            return;
        };
        let mut line = Collected::new(self.alloc);
        let mut reply = Reply::new(&mut line);
        reply.print(b"not counted: ");
        reply.print_text(archive.as_bytes());
        reply.print(b".counts ");
        reply.print(why.words());
        let _ = reply.finish();
        self.print(rt, Level::Warning, line.text());
    }

    // Logs that a case is lost since a write of the archive would get this error, and returns its refusal: as if the write had been made.
    fn refuse_unwritten<R: Files<File = File> + Clock>(
        &self,
        rt: &R,
        archive: &str,
        name: &[u8],
        trouble: Trouble,
    ) -> Failure {
        let words = words_of(self.alloc, self.context, None, b"Disk", Some(trouble));
        self.print_lost(rt, archive, b"", name, b"Disk", words.text());
        Failure::Refused(Refusal::Disk)
    }

    // Logs why a case is not stored: as its replies say, or why it has none.
    fn print_refused<R: Files<File = File> + Clock>(
        &self,
        rt: &R,
        archive: &str,
        replies: &[u8],
        name: &[u8],
        refused: &[u8],
        ended: &Result<(), Failure>,
        trouble: Option<Trouble>,
    ) -> Outcome {
        match ended {
            Err(Failure::Refused(refusal)) => {
                let reason = reason_of(self.alloc, *refusal);
                let words = words_of(
                    self.alloc,
                    self.context,
                    Some(*refusal),
                    reason.text(),
                    trouble,
                );
                self.print_lost(rt, archive, replies, name, reason.text(), words.text());
                self.outcome_by(reason.text())
            }
            Err(Failure::Stalled(seconds)) => {
                let words = stall_words(self.alloc, *seconds);
                self.print_lost(rt, archive, replies, name, refused, words.text());
                self.outcome_by(refused)
            }
            _ => {
                let words = words_of(self.alloc, self.context, None, refused, trouble);
                self.print_lost(rt, archive, replies, name, refused, words.text());
                self.outcome_by(refused)
            }
        }
    }

    // Logs a case that is stored. The disk is let go.
    fn print_stored<R: Files<File = File> + Clock>(
        &self,
        rt: &R,
        archive: &str,
        replies: &[u8],
        has_label: bool,
        number: &[u8],
        disk: FileDisk,
        note: &mut Collected,
    ) {
        let Some(seq) = parse_case_number(number) else {
            return;
        };
        let trouble = disk.trouble();
        let (seen, _) = look_at_case(self.alloc, disk, seq);
        let mut is_cut = replies_outcome(replies).cut.is_some();
        let details = details_of(self.alloc, &seen);
        let line = stored_line(
            self.alloc,
            replies,
            number,
            details.text(),
            archive,
            self.mode,
        );
        self.print(rt, Level::Info, line.text());
        self.print_lacks(rt, replies, has_label, number, trouble, note);
        if let Some(seen) = &seen {
            let cut = seen.cut(self.alloc);
            is_cut = is_cut || !cut.text().is_empty();
            self.print_trouble(rt, number, cut.text(), note);
            self.print_trouble(rt, number, seen.trouble(), note);
        }
        self.count(rt, archive, stored_counter(is_cut), replies);
    }

    // Logs the outcome of a case, by the replies of its store, and returns it. The disk is let go.
    fn print_outcome<R: Files<File = File> + Clock>(
        &self,
        rt: &R,
        archive: &str,
        name: &[u8],
        replies: &[u8],
        has_label: bool,
        ended: &Result<(), Failure>,
        disk: Option<FileDisk>,
        note: &mut Collected,
    ) -> Outcome {
        let outcome = replies_outcome(replies);
        match (outcome.stored, disk) {
            (Some(number), Some(disk)) => {
                self.print_stored(rt, archive, replies, has_label, number, disk, note);
                Outcome::Stored
            }
            (_, disk) => {
                let trouble = match &disk {
                    Some(disk) => disk.trouble(),
                    None => None,
                };
                self.print_refused(rt, archive, replies, name, outcome.refused, ended, trouble)
            }
        }
    }

    // Logs that a case has no label, or no pin, though it was to get one. People get the last reply apart from this: the replies before
    // it are noted.
    fn print_lacks<R: Files<File = File>>(
        &self,
        rt: &R,
        replies: &[u8],
        has_label: bool,
        number: &[u8],
        trouble: Option<Trouble>,
        note: &mut Collected,
    ) {
        let lacks = lacks_of(replies, has_label);
        if let Some(reason) = lacks.label {
            let words = lack_words(self.alloc, self.context, b"has no label", reason, trouble);
            self.print_case(rt, number, words.text());
            if lacks.pin_follows {
                self.note_case(number, words.text(), note);
            }
        }
        if let Some(reason) = lacks.pin {
            let words = lack_words(self.alloc, self.context, b"is not pinned", reason, trouble);
            self.print_case(rt, number, words.text());
        }
    }

    // Logs the part of a case that can't be read, if there is one, and notes it.
    fn print_trouble<R: Files<File = File>>(
        &self,
        rt: &R,
        number: &[u8],
        trouble: &[u8],
        note: &mut Collected,
    ) {
        if !trouble.is_empty() {
            self.print_case(rt, number, trouble);
            self.note_case(number, trouble, note);
        }
    }

    // Logs a text about a case.
    fn print_case<R: Files<File = File>>(&self, rt: &R, number: &[u8], words: &[u8]) {
        let mut told = Collected::new(self.alloc);
        let mut reply = Reply::new(&mut told);
        reply.print(b"case ");
        reply.print(number);
        reply.print(b" ");
        reply.print(words);
        let _ = reply.finish();
        self.print(rt, Level::Warning, told.text());
    }

    // Notes it. A second note is a line of its own.
    fn note_case(&self, number: &[u8], words: &[u8], note: &mut Collected) {
        let mut line = Collected::new(self.alloc);
        let mut reply = Reply::new(&mut line);
        if !note.text().is_empty() {
            reply.print(b"\ncorekeep: case ");
        }
        reply.print(number);
        reply.print(b" ");
        reply.print(words);
        let _ = reply.finish();
        let _ = write_whole(note, line.text());
    }
}

// How a store ended, if the input gave nothing for so many seconds: it is that for which the core was refused, if it could not be read.
fn with_stall(
    ended: Result<(), Failure>,
    replies: &[u8],
    stalled: Option<u64>,
) -> Result<(), Failure> {
    match (ended, stalled) {
        (Err(Failure::Told), Some(seconds))
            if replies_outcome(replies).refused == b"File".as_slice() => {
            Err(Failure::Stalled(seconds))
        }
        (ended, _) => ended,
    }
}

// That the input gave nothing for so many seconds.
pub(crate) fn stall_words(alloc: Global, seconds: u64) -> Collected {
    let mut words = Collected::new(alloc);
    let mut reply = Reply::new(&mut words);
    print_stall(&mut reply, seconds);
    let _ = reply.finish();
    words
}

// How many bytes a case has, and by which signal its process ended.
fn details_of(alloc: Global, seen: &Option<Seen>) -> Collected {
    let mut details = Collected::new(alloc);
    let mut reply = Reply::new(&mut details);
    if let Some(seen) = seen {
        reply.print(b" ");
        reply.print_decimal(u128::from(seen.length));
        reply.print(b" ");
        print_signal(&mut reply, seen.signal);
    }
    let _ = reply.finish();
    details
}

// Prints a signal by its name, or by its number if it has no name.
fn print_signal(reply: &mut Reply<'_, Collected>, signal: u32) {
    let name = match i32::try_from(signal) {
        Ok(number) => signal_name(number),
        Err(_) => None,
    };
    match name {
        Some(name) => {
            reply.print(b"SIG");
            reply.print(name.as_bytes());
        }
        None => {
            reply.print(b"signal ");
            reply.print_decimal(u128::from(signal));
        }
    }
}
