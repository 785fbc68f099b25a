// Why the program ends with a status other than 0, and how it says so.
ghost use Rattle.std.specs.Prelude.{◌≡◌, ◌≢◌, ◌≤◌, true};
ghost use Rattle.image_replies.specs.Reasons.{elf_reason};
ghost use Rattle.script_streams.specs.Replies.{PrintsText, printing, no_reply};
ghost use Rattle.script_streams.specs.Printing.{IsDelivered};
ghost use Rattle.archive_files.specs.Printing.{IfFaulted, IfRefused, IsKeptAs, IsToldAs, build_words, fault_line, fault_words, file_words, is_aside, open_words, refusal_words, stall_words, stalled_line};
ghost use Rattle.archive_files.specs.declared.failures.Failure.TheVariants.{Faulted, Refused};
ghost use Rattle.archive_files.specs.declared.failures.Refusal.{Refusal};
ghost use Rattle.inspector_cli.specs.declared.session.SessionFault.{SessionFault};

use crate::build_store::BuildFault;
use crate::collected::Collected;
use case_journal::FormatFault;
use disk_model::FileFault;
use elf_view::ElfFault;
use inspector_cli::{MemoryFault, SessionFault, reason};
use intake::ArchiveFault;
use journal_layout::{BadShape, OpenFault};
use script_streams::{Output, Reply, StreamFault, write_whole};
use std::alloc::{AllocError, Global};
use std::io;
use stream_names::TemplateFault;

/// Why the program did not carry out the command.
#[derive(Drop)]
pub enum Failure {
    /// It was refused.
    Refused(Refusal),
    /// It was refused, and the output is that of an image, so the refusal does not go there.
    Aside(Refusal),
    /// The session ended before its script.
    Faulted(SessionFault),
    /// The file of an image could not be written.
    Unwritten(io::ErrorKind),
    /// A step was refused, and its reply has said so.
    Told,
    /// The same, since standard input gave nothing for so many seconds.
    Stalled(u64),
}

/// Which word of the command line names a file.
#[derive(Clone, Copy, PartialEq, Eq)]
pub enum FileWord {
    /// ARCHIVE, an archive that is there.
    Archive,
    /// The archive of a handler, if nothing names one.
    Unnamed,
    /// FILE, which is read.
    File,
    /// ARCHIVE, the file of a new archive.
    NewArchive,
    /// FILE, which is made.
    NewFile,
    /// NEW, the file of a new archive.
    New,
    /// Whichever word names the file of a new archive.
    Made,
    /// DIR, a directory that is made.
    Folder,
    /// The name that DIR has until it is whole.
    FolderPart,
    /// The word that is shown for it. Its file is there under its name, and whole, and a later step failed, with this number of the
    /// system's error (errno(3)), if there is one.
    Named(&'static str, Option<i32>),
}

impl FileWord {
    // Its name in messages for people.
    pub(crate) fn shown(self) -> &'static str {
        match self {
            FileWord::Archive | FileWord::NewArchive => "ARCHIVE",
            FileWord::Unnamed => "no archive",
            FileWord::File | FileWord::NewFile => "FILE",
            FileWord::New => "NEW",
            FileWord::Made => "the new file",
            FileWord::Folder => "DIR",
            FileWord::FolderPart => "DIR.part",
            FileWord::Named(name, _) => name,
        }
    }

    // Whether a fault is that of the file under PATH.part, which another process is making, or which is no file.
    fn is_part(self, fault: FileFault) -> bool {
        match self {
            FileWord::NewArchive | FileWord::NewFile | FileWord::New | FileWord::Made => matches!(
                fault,
                FileFault::Folder | FileFault::Special | FileFault::Busy
            ),
            word => word == FileWord::FolderPart,
        }
    }

    // Whether its file is to be made. Then the missing part, if there is one, is the directory.
    fn is_made(self) -> bool {
        !matches!(self, FileWord::Archive | FileWord::Unnamed | FileWord::File)
    }
}

/// Why it isn't safe to put a file under the name that a word says.
#[derive(Clone, Copy, PartialEq, Eq)]
pub enum Danger {
    /// Another file is under that name, or under that of its .part.
    Exchanged,
    /// Others may write a directory on its path.
    SharedFolder,
    /// Its group or others have a right, or may have one by an access control list.
    Rights,
}

/// Which part of the command line is not UTF-8.
#[derive(Clone, Copy, PartialEq, Eq)]
pub enum WordPart {
    /// The VALUE of a pair, or NAME: `--escape` takes its bytes as they are.
    Value,
    /// Any other word.
    Other,
}

/// The reason in a line `no REASON`.
#[derive(Clone, Copy, PartialEq, Eq)]
pub enum Refusal {
    /// The words contradict one another.
    BadLine,
    /// The words are no line. A line that begins so has these words, if there is one.
    NoLine(&'static str),
    /// The template would hand cores to a program.
    Pipe,
    /// The template is too long.
    TemplateTooLong,
    /// The shape is outside its limits.
    BadShape,
    /// The file that a word names could not be made, opened or locked.
    File(FileWord, FileFault),
    /// It isn't safe to put a file under the name that a word says.
    Unsafe(FileWord, Danger),
    /// Standard output goes to a file that a word names.
    Output,
    /// A line of over 1,024 bytes.
    LineTooLong,
    /// A word is not UTF-8.
    NotUtf8(WordPart),
    /// There was no memory.
    OutOfMemory,
    /// The disk failed while the archive was made.
    Disk,
    /// The archive could not be opened.
    Open(OpenFault),
    /// The archive refused a call.
    Call(ArchiveFault),
    /// FILE can't be stored under the name of its build.
    Build(BuildFault),
}

impl From<Refusal> for Failure {
    fn from(refusal: Refusal) -> Self {
        Failure::Refused(refusal)
    }
}

impl From<SessionFault> for Failure {
    fn from(fault: SessionFault) -> Self {
        Failure::Faulted(fault)
    }
}

impl From<StreamFault> for Failure {
    fn from(_: StreamFault) -> Self {
        Failure::Faulted(SessionFault::WriteFailed)
    }
}

impl From<MemoryFault> for Failure {
    fn from(fault: MemoryFault) -> Self {
        match fault {
            MemoryFault::BadShape => Failure::Refused(Refusal::BadShape),
            MemoryFault::OutOfMemory => Failure::Refused(Refusal::OutOfMemory),
            MemoryFault::Session(fault) => Failure::Faulted(fault),
        }
    }
}

impl From<AllocError> for Failure {
    fn from(_: AllocError) -> Self {
        Failure::Refused(Refusal::OutOfMemory)
    }
}

impl From<TemplateFault> for Refusal {
    fn from(fault: TemplateFault) -> Self {
        match fault {
            TemplateFault::Pipe => Refusal::Pipe,
            TemplateFault::TemplateTooLong => Refusal::TemplateTooLong,
        }
    }
}

impl From<BadShape> for Refusal {
    fn from(_: BadShape) -> Self {
        Refusal::BadShape
    }
}

impl From<AllocError> for Refusal {
    fn from(_: AllocError) -> Self {
        Refusal::OutOfMemory
    }
}

impl From<FormatFault> for Refusal {
    fn from(fault: FormatFault) -> Self {
        match fault {
            FormatFault::BadShape => Refusal::BadShape,
            FormatFault::Disk => Refusal::Disk,
        }
    }
}

/// What is known of the file that a failure names.
#[derive(Clone, Copy)]
pub struct NamedFile<'a> {
    /// Its path as it is printed, so that a terminal acts on no byte of it, or nothing: then the word for it on the command line is printed.
    pub path: &'a str,
    /// The process that holds its lock.
    pub holder: Option<u32>,
    /// A directory has this path.
    pub is_folder: bool,
    /// The words about waiting for a process that has it.
    pub waiting: &'static str,
}

/// Prints why the program failed, and returns its status, which is 1.
pub fn print_failure<O: Output, E: Output>(
    alloc: Global,
    failure: &Failure,
    file: NamedFile<'_>,
    output: &mut O,
    errors: &mut E,
) -> u8
    ensures status { result ≡ 1 }
    ensures refused { IfRefused failure.now (λ r.
        IsToldAs (O.taken output.old) (O.taken output.new) (O.failures output.old) (O.failures output.new) (no_reply (refusal_words r))) }
    ensures aside { is_aside failure.now ≡ true → output.new ≡ output.old }
    ensures fault { IfFaulted failure.now (λ f.
        IsToldAs (E.taken errors.old) (E.taken errors.new) (E.failures errors.old) (E.failures errors.new) (fault_line f)) }
{
    match failure {
        Failure::Refused(refusal) => {
            print_in_words(alloc, *refusal, file, errors);
            print_refusal(*refusal, output)
        }
        Failure::Aside(refusal) => {
            print_in_words(alloc, *refusal, file, errors);
            print_refusal(*refusal, errors)
        }
        Failure::Faulted(fault) => print_fault(*fault, errors),
        Failure::Unwritten(kind) => {
            print_named(
                FileWord::NewFile,
                file,
                false,
                unwritten_words(*kind),
                errors,
            );
            print_fault(SessionFault::WriteFailed, errors)
        }
        Failure::Told => 1,
        Failure::Stalled(seconds) => print_stalled(*seconds, errors),
    }
}

// Reports to people that standard input gave nothing for so many seconds.
fn print_stalled<E: Output>(seconds: u64, errors: &mut E) -> u8
    ensures status { result ≡ 1 }
    ensures told { IsToldAs (E.taken errors.old) (E.taken errors.new) (E.failures errors.old) (E.failures errors.new) (stalled_line seconds) }
{
    let mut reply = Reply::new(errors);
    reply.print(b"corekeep: ");
    print_stall(&mut reply, seconds);
    reply.print(b"\n");
    let _ = reply.finish();
    1
}

/// The message that standard input gave nothing for so many seconds.
pub fn print_stall<O: Output>(reply: &mut Reply<'_, O>, seconds: u64)
    ensures { PrintsText (printing O.Output reply.old reply.new) (stall_words seconds) }
{
    reply.print(b"standard input gave nothing for ");
    reply.print_decimal(u128::from(seconds));
    reply.print(b" seconds");
}

/// The message for people why this file could not be written, if the file system has no room for it; nothing for other reasons.
pub fn print_unwritten<E: Output>(file: &[u8], kind: io::ErrorKind, errors: &mut E) {
    let why = unwritten_words(kind);
    if why.is_empty() {
        return;
    }
    let mut reply = Reply::new(errors);
    reply.print(b"corekeep: ");
    reply.print(file);
    reply.print(why.as_bytes());
    reply.print(b"\n");
    let _ = reply.finish();
}

// Why a file could not be written, if the file system has no room for it.
fn unwritten_words(kind: io::ErrorKind) -> &'static str {
    match kind {
        io::ErrorKind::StorageFull => ": the file system is full",
        io::ErrorKind::QuotaExceeded => ": the quota is used up",
        io::ErrorKind::FileTooLarge => ": the file may not grow so large",
        _ => "",
    }
}

// Prints what is said of the file that a word names, or of the one under its PATH.part: the path, and then the message, if there is one.
fn print_named<E: Output>(
    word: FileWord,
    file: NamedFile<'_>,
    is_part: bool,
    message: &str,
    errors: &mut E,
) {
    if message.is_empty() {
        return;
    }
    let mut reply = Reply::new(errors);
    reply.print(b"corekeep: ");
    if file.path.is_empty() {
        reply.print(word.shown().as_bytes());
    } else {
        reply.print(file.path.as_bytes());
        if is_part {
            reply.print(b".part");
        }
    }
    reply.print(message.as_bytes());
    reply.print(b"\n");
    let _ = reply.finish();
}

// The message for people that explains a reason for scripts.
fn print_in_words<E: Output>(alloc: Global, refusal: Refusal, file: NamedFile<'_>, errors: &mut E) {
    let text = match refusal {
        Refusal::File(word, fault) => {
            if let Ok(message) = file_text(alloc, word, fault, file) {
                print_named(word, file, word.is_part(fault), message.as_str(), errors);
            }
            return;
        }
        Refusal::Unsafe(word, danger) => {
            print_named(word, file, false, danger_text(danger), errors);
            return;
        }
        Refusal::Output => {
            "corekeep: standard output goes to a file that the command names, and would overwrite it\n"
        }
        Refusal::NotUtf8(WordPart::Value) => {
            "corekeep: the VALUE of a pair, or NAME, is not UTF-8, or has a character past U+10FF7F: --escape takes its bytes as they are\n"
        }
        Refusal::NotUtf8(WordPart::Other) => {
            "corekeep: a word is not UTF-8, or has a character past U+10FF7F: name the file otherwise, or write such bytes of a line as \\xHH\n"
        }
        _ => return,
    };
    let _ = write_whole(errors, text.as_bytes());
}

// The message if nothing names an archive, after `no archive`.
const UNNAMED: &str = " is named: give --archive, or archive in the configuration";

// The message if there is no archive, after its name.
const NO_ARCHIVE: &str =
    ": there is no such file: corekeep format ARCHIVE --half N --data N makes an archive";

// Why the file of a word is refused, after its name.
fn file_text(
    alloc: Global,
    word: FileWord,
    fault: FileFault,
    file: NamedFile<'_>,
) -> Result<String, AllocError> {
    if let FileWord::Named(_, number) = word {
        return named_text(alloc, number);
    }
    let NamedFile { path, waiting, .. } = file;
    match (fault, file.holder) {
        _ if word == FileWord::Unnamed => String::from_str(alloc, UNNAMED),
        (FileFault::Missing, _) if word == FileWord::Archive => {
            String::from_str(alloc, NO_ARCHIVE)
        }
        (FileFault::Exists, _) if word == FileWord::FolderPart => {
            String::from_str(alloc, " is there: an unpack was stopped; remove it")
        }
        (FileFault::Exists, _)
            if file.is_folder && matches!(word, FileWord::NewArchive | FileWord::New) => {
            format!(in alloc; ": it is a directory: name a file in it, such as {path}/archive")
        }
        (FileFault::Missing, _) if word.is_made() => {
            String::from_str(alloc, ": there is no such directory")
        }
        (FileFault::Folder, _) => String::from_str(alloc, ": it is a directory"),
        (FileFault::Busy, _) if word.is_part(fault) => {
            String::from_str(alloc, ": another process is making it")
        }
        (FileFault::Busy, Some(process)) => format!(in alloc;
            ": process {process} is using it ({waiting})"
        ),
        (FileFault::Busy, None) => format!(in alloc; ": another process is using it ({waiting})"),
        (fault, _) => format!(in alloc; ": {fault}"),
    }
}

// The message about a file that is there, if a later step failed, after its name.
fn named_text(alloc: Global, number: Option<i32>) -> Result<String, AllocError> {
    let why = match number {
        Some(number) => io::Error::from_raw_os_error(number),
        None => io::Error::from(io::ErrorKind::Other),
    };
    format!(in alloc;
        " is there, and whole: what failed is the removal of its .part, or the sync of its directory: {why}"
    )
}

// Why it isn't safe to put a file under the name that a word gives, and a way out, after the name.
fn danger_text(danger: Danger) -> &'static str {
    match danger {
        Danger::Exchanged =>
            ": another file was put under its name, or under that of its .part, meanwhile",
        Danger::SharedFolder =>
            ": others may write a directory on its path, and could put another file in its place: take that right away, or make the directory sticky if it is root's or yours",
        Danger::Rights =>
            ": its group or others have a right, and access control lists, extended attributes and labels would not come along: --drop-rights says that they need not, and leaves the owner's rights alone",
    }
}

// Prints the refusal.
fn print_refusal<O: Output>(refusal: Refusal, output: &mut O) -> u8
    ensures status { result ≡ 1 }
    ensures told { IsToldAs (O.taken output.old) (O.taken output.new) (O.failures output.old) (O.failures output.new) (no_reply (refusal_words refusal)) }
{
    let _ = write_refusal(refusal, output);
    1
}

// Writes the line with the refusal.
pub(crate) fn write_refusal<O: Output>(refusal: Refusal, output: &mut O) -> Result<(), StreamFault>
    ensures { IsDelivered (O.taken output.old) (O.failures output.old) (O.taken output.new) (O.failures output.new) (no_reply (refusal_words refusal)) result }
{
    let mut reply = Reply::new(output);
    reply.print(b"no ");
    print_reason(&mut reply, refusal);
    reply.print(b"\n");
    reply.finish()
}

/// The reason of a refusal, or a front of it if there is no memory.
pub fn reason_of(alloc: Global, refusal: Refusal) -> Collected
    ensures { IsKeptAs (⟦<Collected as Output>⟧.taken result) (⟦<Collected as Output>⟧.failures result) (refusal_words refusal) }
{
    let mut words = Collected::new(alloc);
    let mut reply = Reply::new(&mut words);
    print_reason(&mut reply, refusal);
    let _ = reply.finish();
    words
}

// Prints the reason of a refusal.
fn print_reason<O: Output>(reply: &mut Reply<'_, O>, refusal: Refusal)
    ensures { PrintsText (printing O.Output reply.old reply.new) (refusal_words refusal) }
{
    match refusal {
        Refusal::BadLine | Refusal::NoLine(_) => reply.print(b"BadLine"),
        Refusal::Pipe => reply.print(b"Pipe"),
        Refusal::TemplateTooLong => reply.print(b"TemplateTooLong"),
        Refusal::BadShape => reply.print(b"BadShape"),
        Refusal::File(_, fault) => reply.print(file_reason(fault)),
        Refusal::Unsafe(_, _) => reply.print(b"File"),
        Refusal::Output => reply.print(b"File"),
        Refusal::LineTooLong => reply.print(b"LineTooLong"),
        Refusal::NotUtf8(_) => reply.print(b"NotUtf8"),
        Refusal::OutOfMemory => reply.print(b"OutOfMemory"),
        Refusal::Disk => reply.print(b"Disk"),
        Refusal::Open(fault) => print_open_fault(reply, fault),
        Refusal::Call(fault) => reply.print(reason(fault)),
        Refusal::Build(fault) => print_build_fault(reply, fault),
    }
}

// Prints why a file can't be stored under the name of its build.
fn print_build_fault<O: Output>(reply: &mut Reply<'_, O>, fault: BuildFault)
    ensures { PrintsText (printing O.Output reply.old reply.new) (build_words fault) }
{
    match fault {
        BuildFault::Short => reply.print(b"Short"),
        BuildFault::TooLong => reply.print(b"TooLong"),
        BuildFault::Headers(fault) => print_header_fault(reply, fault),
        BuildFault::NoBuildId => reply.print(b"NoBuildId"),
        BuildFault::OtherBuild => reply.print(b"OtherBuild"),
    }
}

// Prints which field of the headers has the fault.
fn print_header_fault<O: Output>(reply: &mut Reply<'_, O>, fault: ElfFault)
    ensures { PrintsText (printing O.Output reply.old reply.new) (elf_reason fault) }
{
    reply.print(fault.field.name().as_bytes());
    if fault.field.has_index() {
        reply.print(b" ");
        reply.print_decimal(u128::from(fault.index));
    }
}

// The reason for which a file is refused.
fn file_reason(fault: FileFault) -> &'static [u8]
    ensures { result.now ≡ file_words fault }
{
    match fault {
        FileFault::Busy => b"Busy",
        FileFault::OutOfMemory => b"OutOfMemory",
        FileFault::Settle => b"Disk",
        _ => b"File",
    }
}

// Prints why an archive could not be opened.
fn print_open_fault<O: Output>(reply: &mut Reply<'_, O>, fault: OpenFault)
    ensures { PrintsText (printing O.Output reply.old reply.new) (open_words fault) }
{
    match fault {
        OpenFault::Disk => reply.print(b"Disk"),
        OpenFault::NotAnArchive => reply.print(b"NotAnArchive"),
        OpenFault::OutOfMemory => reply.print(b"OutOfMemory"),
        OpenFault::UnknownVersion(version) => {
            reply.print(b"UnknownVersion ");
            reply.print_decimal(u128::from(version));
        }
        OpenFault::Damaged { at, field } => {
            reply.print(b"Damaged ");
            reply.print_decimal(u128::from(at));
            reply.print(b" ");
            reply.print(field.name().as_bytes());
        }
    }
}

// Prints why a session ended before its script.
fn print_fault<E: Output>(fault: SessionFault, errors: &mut E) -> u8
    ensures status { result ≡ 1 }
    ensures told { IsToldAs (E.taken errors.old) (E.taken errors.new) (E.failures errors.old) (E.failures errors.new) (fault_line fault) }
{
    let mut reply = Reply::new(errors);
    reply.print(b"fault ");
    reply.print(fault_name(fault));
    reply.print(b"\n");
    let _ = reply.finish();
    1
}

fn fault_name(fault: SessionFault) -> &'static [u8]
    ensures { result.now ≡ fault_words fault }
{
    match fault {
        SessionFault::ReadFailed => b"ReadFailed",
        SessionFault::WriteFailed => b"WriteFailed",
        SessionFault::TooManyReads => b"TooManyReads",
    }
}
