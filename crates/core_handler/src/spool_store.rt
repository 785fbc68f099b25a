// A core goes from the input to the spool first, and is stored from there.
ghost use Rattle.std.specs.Prelude.{◌≡◌, ◌^◌, ◌+◌, ◌-◌, true, false, None, Err, IfOk, IfSome, min};
ghost use Rattle.core_handler.specs.Spooling.{is_under_name, limit_in};
ghost use Rattle.whole_files.specs.Whole.{IsMade};

use crate::Config;
use crate::berth::{Berth, make_berth};
use crate::handling::{HANDLER_LIMIT, Handler};
use crate::line_numbers::number_in_line;
use crate::log::Level;
use crate::notes::Notes;
use crate::patient_input::PatientInput;
use crate::printer::{Printer, Source, stall_words};
use crate::spool_paths::SpoolPaths;
use archive_files::{ArchivePath, Collected, Failure, StoreRequest};
use diagnostics::Onlooker;
use disk_model::FileFault;
use handler_files::{
    CoreFiles, Counter, Fate, NotSpooled, Outcome, Reason, Room, SpoolName, Stage, Unspooled,
    discard, entries_in, fate_of, receive, rest_of, settle, taken_bytes, words_text,
};
use script_streams::{Output, Reply};
use std::fs::File;
use std::io::{Chain, Read, Seek, SeekFrom, Take};
use std::rt::Files;
use std::time::{Clock, Duration};
use std::{fs, io};
use toml::Value;
use whole_files::{NameFault, NewFile, PartFile};

/// The spool that a core goes to, and those of the core's words that it keeps.
#[derive(Drop)]
pub struct SpoolWords<'a> {
    /// The directory.
    pub folder: &'a str,
    /// The line of a script that begins the stream.
    pub begin: Vec<u8>,
    /// Cases go so that the core finds room.
    pub fit: bool,
}

// The words of a core that stay with it in the spool.
#[derive(Clone, Copy)]
pub(crate) struct KeptWords<'w> {
    // The line of a script that begins the stream.
    pub(crate) begin: &'w [u8],
    // How many bytes the core has, if that is stated.
    pub(crate) length: Option<u64>,
}

/// Stores a file, or the standard input, as `store_told` does. A core that is in no regular file goes into a spool first, and is stored from
/// there. A note says if it stays in the spool, or why it was not put there.
///
/// # Errors
///
/// Those of `store_told`.
pub fn store_spooled<
    R: AllocGlobal + Files<File = File> + Clock + Clone + Drop,
    I: Read,
    O: Output,
    W: Onlooker,
>(
    rt: &R,
    spool: &SpoolWords<'_>,
    printer: Printer<'_>,
    place: ArchivePath<'_>,
    source: Source<'_>,
    request: StoreRequest,
    input: &mut I,
    output: &mut O,
    notes: &mut Notes,
    onlooker: &mut W,
) -> Result<(), Failure> {
    let nothing = Value::Boolean(false);
    let config = Config {
        limit: Some(request.limit()),
        fit: spool.fit,
        stall: source.stall,
        spool: Some(spool.folder),
        ..Config::of(&nothing)
    };
    let handler = Handler { config, printer };
    let folder = spool.folder;
    let kept = KeptWords {
        begin: &spool.begin,
        length: request.stated_length(),
    };
    if source.path == "-" {
        return store_by_spool(
            rt, &handler, folder, kept, place, request, input, output, notes, onlooker,
        );
    }
    match stream_at(rt, source.path) {
        Some(file) => {
            let mut file = file;
            store_by_spool(
                rt, &handler, folder, kept, place, request, &mut file, output, notes, onlooker,
            )
        }
        None => {
            let (ended, _) = handler.store(
                rt, place, source, request, input, output, notes, onlooker,
            );
            ended
        }
    }
}

// The file under a path, if it is a pipe, a socket or a device. The others are whole where they are.
fn stream_at<R: Files<File = File>>(rt: &R, path: &str) -> Option<File> {
    let file = File::open(rt, path).ok()?;
    let about = file.metadata().ok()?;
    if about.is_file() || about.is_dir() {
        return None;
    }
    Some(file)
}

// Takes a core from the input into the spool, and stores it from there. A core that is not in the spool then is stored as it comes: the
// bytes that were taken of it, and the rest.
pub(crate) fn store_by_spool<
    R: AllocGlobal + Files<File = File> + Clock + Clone + Drop,
    I: Read,
    O: Output,
    W: Onlooker,
>(
    rt: &R,
    handler: &Handler<'_>,
    folder: &str,
    words: KeptWords<'_>,
    place: ArchivePath<'_>,
    request: StoreRequest,
    input: &mut I,
    output: &mut O,
    notes: &mut Notes,
    onlooker: &mut W,
) -> Result<(), Failure> {
    match prepare(rt, folder, words) {
        Ok((paths, berth)) => {
            let room = room_in(rt, handler, folder);
            take(
                rt, handler, place, request, &paths, berth, room, input, output, notes, onlooker,
            )
        }
        Err(why) => {
            print_unspooled(rt, handler, why, notes);
            let source = handler.input();
            let (ended, _) = handler.store(
                rt, place, source, request, input, output, notes, onlooker,
            );
            ended
        }
    }
}

// Makes the files of a core in the spool.
fn prepare<'a, R: AllocGlobal + Files<File = File> + Clock>(
    rt: &'a R,
    folder: &str,
    words: KeptWords<'_>,
) -> Result<(SpoolPaths, Berth<'a, R>), NotSpooled>
    ensures made { IfOk result (λ b. IsMade (⟦<PartFile<'a, R> as NewFile>⟧.facts b.1.file)) }
    ensures unsynced { IfOk result (λ b. (⟦<PartFile<'a, R> as NewFile>⟧.facts b.1.file).is_synced ≡ false) }
{
    let alloc = rt.alloc();
    let no_memory = NotSpooled::File(FileFault::OutOfMemory);
    let Ok(paths) = SpoolPaths::of(alloc, folder, spool_name(rt, words)) else {
        return Err(no_memory);
    };
    let Ok(text) = words_text(alloc, words.begin, words.length) else {
        return Err(no_memory);
    };
    match make_berth(rt, &paths, &text) {
        Ok(berth) => Ok((paths, berth)),
        Err(why) => Err(why),
    }
}

// The name of a core in the spool: when it came, and the number of its process.
fn spool_name<R: Clock>(rt: &R, words: KeptWords<'_>) -> SpoolName {
    SpoolName {
        stamp: nanoseconds_of(rt.since_1970()),
        pid: number_in_line(words.begin, b"pid=").unwrap_or(0),
    }
}

// A time in nanoseconds since 1970; 0 if it is not known.
fn nanoseconds_of(read: io::Result<Duration>) -> u64 {
    match read {
        Ok(time) => time
            .as_secs()
            .saturating_mul(1_000_000_000)
            .saturating_add(u64::from(time.subsec_nanos())),
        Err(_) => 0,
    }
}

// How much of a core is taken: one byte more than the limit says that it is too long.
fn room_in<R: AllocGlobal + Files<File = File> + Clone + Drop>(
    rt: &R,
    handler: &Handler<'_>,
    folder: &str,
) -> Room
    ensures most { result.most ≡ min (limit_in handler.now.config + 1) (2 ^ 64 - 1) }
{
    let limit = handler.config.limit.unwrap_or(HANDLER_LIMIT);
    let left = match handler.config.spool_bytes {
        Some(most) => Some(most.saturating_sub(bytes_in(rt, folder))),
        None => None,
    };
    Room {
        most: limit.saturating_add(1),
        left,
    }
}

// How many bytes the cores in a directory have. If it can't be read, there is no room in it.
fn bytes_in<R: AllocGlobal + Files<File = File> + Clone + Drop>(rt: &R, folder: &str) -> u64 {
    match entries_in(rt, folder) {
        Ok(found) => taken_bytes(&found.cores),
        Err(_) => u64::MAX,
    }
}

// Takes a core from the input into its file, and stores it from there; or else the
// bytes that were taken of it, and the rest. The lock of its file is kept until then.
fn take<'a, R: AllocGlobal + Files<File = File> + Clock, I: Read, O: Output, W: Onlooker>(
    rt: &'a R,
    handler: &Handler<'_>,
    place: ArchivePath<'_>,
    request: StoreRequest,
    paths: &SpoolPaths,
    berth: Berth<'a, R>,
    room: Room,
    input: &mut I,
    output: &mut O,
    notes: &mut Notes,
    onlooker: &mut W,
) -> Result<(), Failure>
    requires made { IsMade (⟦<PartFile<'a, R> as NewFile>⟧.facts berth.file) }
    requires unsynced { (⟦<PartFile<'a, R> as NewFile>⟧.facts berth.file).is_synced ≡ false }
{
    let Berth { file, back, piece } = berth;
    let mut file = file;
    let mut piece = piece;
    let mut patient = PatientInput::new(rt, input, handler.config.stall);
    let taken = receive(&mut file, &mut patient, &mut piece, room);
    let stalled = patient.stalled();
    let Some(unspooled) = unspooled_of(taken) else {
        let (ended, _) = store_kept(
            rt,
            handler,
            place,
            request,
            paths,
            Stage::Whole,
            output,
            notes,
            onlooker,
        );
        return ended;
    };
    if let Some(seconds) = stalled {
        let is_kept = keep_cut(&back, unspooled.bytes);
        if !is_kept {
            discard(&mut file, unspooled.why);
            let _ = fs::remove_file(rt, paths.words.as_str());
        }
        if is_kept {
            note_spool(
                handler,
                b"keeps the bytes that came, until `handle --flush` stores them",
                notes,
            );
        }
        return refuse_stalled(rt, handler, place.path, request, is_kept, seconds, output);
    }
    print_unspooled(rt, handler, unspooled.why, notes);
    let bytes = unspooled.bytes;
    let held = piece.bytes();
    let ended = store_rest(
        rt, handler, place, request, back, bytes, held, input, output, notes, onlooker,
    );
    discard(&mut file, unspooled.why);
    let _ = fs::remove_file(rt, paths.words.as_str());
    ended
}

// Stores a core that is not in the spool: the first bytes of its file, those that were read besides, and the rest of the input.
fn store_rest<R: AllocGlobal + Files<File = File> + Clock, I: Read, O: Output, W: Onlooker>(
    rt: &R,
    handler: &Handler<'_>,
    place: ArchivePath<'_>,
    request: StoreRequest,
    back: File,
    bytes: u64,
    held: &[u8],
    input: &mut I,
    output: &mut O,
    notes: &mut Notes,
    onlooker: &mut W,
) -> Result<(), Failure> {
    let Ok(front) = rewound(back) else {
        let why = b"lost: what was spooled of it could not be read";
        handler.print(rt, Level::Error, why);
        let counter = Counter::Lost(Reason::File);
        handler.printer.count(rt, place.path, counter, b"");
        return Err(Failure::Told);
    };
    let mut rest = Rest {
        reader: rest_of(front, bytes, held, input),
    };
    let source = handler.input();
    let (ended, _) = handler.store(
        rt, place, source, request, &mut rest, output, notes, onlooker,
    );
    ended
}

// Leaves the first bytes of a core in its file, of which there are so many. A flush stores them as a core that was cut on its way. Says
// whether there are any.
fn keep_cut(file: &File, bytes: u64) -> bool {
    if bytes == 0 {
        return false;
    }
    // If this fails, the file stays as it is.
    let _ = file.sync_all();
    true
}

// Refuses a core since the input gave nothing for so many seconds. Its first bytes may be kept in the spool.
fn refuse_stalled<R: AllocGlobal + Files<File = File> + Clock, O: Output>(
    rt: &R,
    handler: &Handler<'_>,
    archive: &str,
    request: StoreRequest,
    is_kept: bool,
    seconds: u64,
    output: &mut O,
) -> Result<(), Failure> {
    let name = request.printed_name(rt.alloc());
    let words = stall_words(rt.alloc(), seconds);
    let printer = if is_kept {
        handler.waiting().printer
    } else {
        handler.printer
    };
    printer.print_lost(rt, archive, b"", name.text(), b"File", words.text());
    let mut reply = Reply::new(output);
    reply.print(b"no File\n");
    reply.finish()?;
    Err(Failure::Stalled(seconds))
}

// The bytes that were taken of a core, and the rest of it.
#[derive(Drop)]
struct Rest<'x, I: Read> {
    reader: Chain<Chain<Take<File>, &'x [u8]>, &'x mut I>,
}

impl<'x, I: Read> Read for Rest<'x, I> {
    ghost remaining = { λ s. ⟦<Chain<Chain<Take<File>, &'x [u8]>, &'x mut I> as Read>⟧.remaining s.reader };

    fn read(&mut self, buf: &mut [u8]) -> io::Result<usize> {
        self.reader.read(buf)
    }
}

// A file from its first byte on.
fn rewound(file: File) -> io::Result<File> {
    let mut file = file;
    file.seek(SeekFrom::Start(0))?;
    Ok(file)
}

// Why a core is not in the spool, if it is not. One that is whole under its name is there, though that may not be durable.
fn unspooled_of(taken: Result<u64, Unspooled>) -> Option<Unspooled>
    ensures why { IfSome result (λ u. taken ≡ Err u) }
    ensures there { result ≡ None → is_under_name taken ≡ true }
{
    match taken {
        Ok(_) => None,
        Err(unspooled) => match unspooled.why {
            NotSpooled::Name(NameFault::Named(_)) => None,
            _ => Some(unspooled),
        },
    }
}

// Stores a core from the spool, and leaves it there or removes it, by its outcome.
pub(crate) fn store_kept<R: AllocGlobal + Files<File = File> + Clock, O: Output, W: Onlooker>(
    rt: &R,
    handler: &Handler<'_>,
    place: ArchivePath<'_>,
    request: StoreRequest,
    paths: &SpoolPaths,
    stage: Stage,
    output: &mut O,
    notes: &mut Notes,
    onlooker: &mut W,
) -> (Result<(), Failure>, Outcome) {
    let waiting = handler.waiting();
    let mut nothing: &[u8] = b"";
    let source = Source {
        path: paths.at(stage),
        stall: None,
    };
    let (ended, outcome) = waiting.store(
        rt,
        place,
        source,
        request,
        &mut nothing,
        output,
        notes,
        onlooker,
    );
    if fate_of(outcome) == Fate::Stay {
        note_spool(
            handler,
            b"keeps the core, until `handle --flush` stores it",
            notes,
        );
    }
    settle_files(rt, handler, paths, stage, outcome);
    (ended, outcome)
}

// Leaves a core in the spool or removes it, by its outcome.
pub(crate) fn settle_files<R: AllocGlobal + Files<File = File>>(
    rt: &R,
    handler: &Handler<'_>,
    paths: &SpoolPaths,
    stage: Stage,
    outcome: Outcome,
) {
    let mut files = CoreFiles::new(rt, paths.with_words(Stage::Whole), stage);
    if settle(&mut files, outcome).is_err() {
        print_unremoved(rt, handler, paths.at(stage));
    }
}

// Logs that a file of the spool was to be removed, and is not.
pub(crate) fn print_unremoved<R: AllocGlobal + Files<File = File>>(
    rt: &R,
    handler: &Handler<'_>,
    path: &str,
) {
    let mut line = Collected::new(rt.alloc());
    let mut reply = Reply::new(&mut line);
    reply.print_text(path.as_bytes());
    reply.print(b" can't be removed");
    let _ = reply.finish();
    handler.print(rt, Level::Warning, line.text());
}

// Logs that a core is not in the spool, and why.
fn print_unspooled<R: Files<File = File>>(
    rt: &R,
    handler: &Handler<'_>,
    why: NotSpooled,
    notes: &mut Notes,
) {
    let mut line = Collected::new(handler.printer.alloc);
    let mut reply = Reply::new(&mut line);
    reply.print(b"not spooled: ");
    reply.print(unspooled_text(why));
    let _ = reply.finish();
    handler.print(rt, Level::Warning, line.text());
    note_spool(handler, line.text(), notes);
}

// Notes the fate of a core in the spool.
fn note_spool(handler: &Handler<'_>, words: &[u8], notes: &mut Notes) {
    let Some(folder) = handler.config.spool else {
        return;
    };
    let mut line = Collected::new(handler.printer.alloc);
    let mut reply = Reply::new(&mut line);
    reply.print_text(folder.as_bytes());
    reply.print(b": ");
    reply.print(words);
    let _ = reply.finish();
    notes.second = line;
}

// Why a core is not in the spool, in words.
fn unspooled_text(why: NotSpooled) -> &'static [u8] {
    match why {
        NotSpooled::File(fault) => fault_text(fault),
        NotSpooled::Unwritten(FileFault::Full) => b"the file system is full",
        NotSpooled::Unwritten(_) => b"a write of its file failed",
        NotSpooled::Unread => b"the core could not be read",
        NotSpooled::Full => b"spool-bytes leaves no room for it",
        NotSpooled::Unsynced => b"a sync of its file failed",
        NotSpooled::Name(_) => b"its file did not get its name",
    }
}

// Why a file of the spool could not be made.
fn fault_text(fault: FileFault) -> &'static [u8] {
    match fault {
        FileFault::Missing => b"there is no such directory",
        FileFault::Denied => b"permission is denied",
        FileFault::Full => b"the file system is full",
        FileFault::OutOfMemory => b"there is no memory",
        FileFault::Busy | FileFault::Lock => b"its file could not be locked",
        _ => b"its file could not be made",
    }
}
