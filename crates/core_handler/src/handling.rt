// The kernel's handler: a core from the input is stored as a configuration says, and the outcome is logged.
ghost use Rattle.std.specs.Prelude.{◌≡◌, codes, IfOk, IfErr, None};
ghost use Rattle.std.specs.Option.{option_copied};
ghost use Rattle.archive_files.specs.Printing.{IsToldAs};
ghost use Rattle.archive_files.specs.declared.failures.Refusal.TheVariants.{OutOfMemory};
ghost use Rattle.script_streams.specs.Replies.{no_reply};
ghost use Rattle.stream_names.specs.Template.{template_fault};
ghost use Rattle.core_handler.specs.Counting.{counts_by};
ghost use Rattle.core_handler.specs.Requesting.{AsksBy, IsRequested, IsTime, IsWanted, template_of};
ghost use Rattle.core_handler.specs.Printing as spec;

use crate::Config;
use crate::checking::check;
use crate::config_file::{DEFAULT_CONFIG, Document, Trouble, read_document};
use crate::flush::flush;
use crate::labels::escaped_label;
use crate::log::{KERNEL_LOG, Level, Log};
use crate::notes::Notes;
use crate::outcome_lines::{Place, lost_line, words_of};
use crate::printer::{Printer, Source, Spooling, store_told};
use crate::requesting::{is_limited, request_of, seconds_of};
use crate::spool_store::{KeptWords, store_by_spool};
use crate::time_source::TimeSource;
use archive_files::{ArchivePath, Collected, Failure, FileWord, Refusal, StoreRequest};
use arrayvec::ArrayVec;
use command_words::Context;
use diagnostics::Onlooker;
use disk_model::FileFault;
use handler_files::Outcome;
use script_streams::{Output, Reply};
use std::alloc::Global;
use std::fs::File;
use std::io::Read;
use std::rt::Files;
use std::time::Clock;
use stream_names::Template;

// How a handler names cores if its configuration doesn't say.
pub(crate) const HANDLER_TEMPLATE: &str = "core.%u.%h.%e.%p.%t";

// The template whose names are never refused.
const PLAIN_TEMPLATE: &str = "core.%u.%p.%t";

// The message if neither the configuration nor the pattern names an archive.
pub(crate) const UNNAMED: &[u8] = b"no archive is named";

// The most bytes of an image if the configuration doesn't say.
pub(crate) const HANDLER_LIMIT: u64 = 1 << 30;

/// The request of the words of `handle`.
#[derive(Drop)]
pub struct HandleWords<'a> {
    /// The path of the configuration, if one is named.
    pub config: Option<&'a str>,
    /// The archive, if the configuration names none.
    pub archive: Option<&'a str>,
    /// The line of a script that begins the stream.
    pub begin: Vec<u8>,
    /// The pairs that were left out of it.
    pub left_out: Vec<&'a str>,
    /// How many bytes the core has, if that is stated.
    pub length: Option<u64>,
    /// The word that states its length, and is no number.
    pub faulty_length: Option<&'a str>,
    /// For how many seconds the input may give nothing if it is non-blocking, if that is stated.
    pub stall: Option<u64>,
    /// The word that states that, and is no number.
    pub faulty_stall: Option<&'a str>,
    /// How many bytes its process allows a core file, the soft limit, if that is stated.
    pub core_limit: Option<u64>,
    /// The dump mode of its process, if that is stated.
    pub mode: Option<u64>,
    /// Nothing is stored, and the values of the configuration are printed.
    pub is_check: bool,
    /// No core is taken from the input, and those that wait in the spool are stored.
    pub is_flush: bool,
}

// The settings of a handler: a configuration, and the log of its outcomes.
#[derive(Clone, Copy)]
pub(crate) struct Handler<'a> {
    pub(crate) config: Config<'a>,
    pub(crate) printer: Printer<'a>,
}

impl<'a> HandleWords<'a> {
    // The configuration that is read.
    pub(crate) fn path(&self) -> &'a str {
        match self.config {
            Some(path) => path,
            None => DEFAULT_CONFIG,
        }
    }
}

/// Stores a core from the input as a configuration says, and logs its outcome. With `--check` nothing is stored,
/// and the values that hold are printed on the output; a difference between the two halves of the archive's
/// journal is a note. The archive that is named is noted for messages. With a spool the core goes there first, and with `--flush` those that wait there are stored.
///
/// # Errors
///
/// Those of `store_told`, and `File` if no archive is named. `Told`, with the reply `no Limit`, if the
/// configuration obeys the limit of the core's process, and that is less than a page. With `--check`
/// it is `Told` if not all is in order, and with `--flush` if not all cores that wait are stored.
pub fn handle<
    R: AllocGlobal + Files<File = File> + Clock + Clone + Drop,
    I: Read,
    O: Output,
    W: Onlooker,
>(
    rt: &R,
    words: HandleWords<'_>,
    input: &mut I,
    output: &mut O,
    notes: &mut Notes,
    onlooker: &mut W,
) -> Result<(), Failure> {
    let document = read_document(rt, words.path());
    let config = with_stall(Config::of(&document.value), words.stall);
    if words.is_check {
        return check(rt, &words, &document, output, &mut notes.subject);
    }
    let handler = handler_of(rt.alloc(), config, words.archive, words.mode);
    print_faults(rt, &handler, &words, &document);
    match handler.printer.log.archive {
        Some(archive) => {
            notes.archive = String::from_str(rt.alloc(), archive).ok();
            handle_in(rt, &handler, &words, archive, input, output, onlooker)
        }
        None => {
            handler.print_lost(rt, &words, "", b"File", UNNAMED);
            Err(Failure::Refused(Refusal::File(FileWord::Unnamed, FileFault::Missing)))
        }
    }
}

// A configuration. If it does not bound for how long the input may give nothing, the words may.
fn with_stall<'t>(config: Config<'t>, stall: Option<u64>) -> Config<'t> {
    Config {
        stall: config.stall.or(stall),
        ..config
    }
}

// The handler of a configuration. The words may name an archive.
fn handler_of<'a>(
    alloc: Global,
    config: Config<'a>,
    archive: Option<&'a str>,
    mode: Option<u64>,
) -> Handler<'a> {
    let printer = Printer {
        alloc,
        log: log_of(&config, archive),
        context: Context::Handling,
        mode,
        spooling: None,
        counts: counts_by(&config),
    };
    Handler { config, printer }
}

// Whether outcomes are counted: the configuration names a log.
fn counts_by(config: &Config<'_>) -> bool
    ensures { result ≡ counts_by (option_copied config.now.log) }
{
    match config.log {
        Some(path) => !path.is_empty(),
        None => false,
    }
}

// Stores the core in the archive of this path, or those that wait for it in the spool.
fn handle_in<
    R: AllocGlobal + Files<File = File> + Clock + Clone + Drop,
    I: Read,
    O: Output,
    W: Onlooker,
>(
    rt: &R,
    handler: &Handler<'_>,
    words: &HandleWords<'_>,
    archive: &str,
    input: &mut I,
    output: &mut O,
    onlooker: &mut W,
) -> Result<(), Failure> {
    let place = ArchivePath {
        path: archive,
        waits: !handler.config.no_wait,
    };
    if words.is_flush {
        return flush(rt, handler, place, output, onlooker);
    }
    let Some(request) = handler.wanted(rt, words)? else {
        return handler.refuse_limited(rt, words, archive, output);
    };
    // The kernel's handler has nobody who reads notes: the log has all of them.
    let mut notes = Notes::new(rt.alloc());
    match handler.config.spool {
        Some(folder) => {
            let kept = KeptWords {
                begin: &words.begin,
                length: words.length,
            };
            store_by_spool(
                rt, handler, folder, kept, place, request, input, output, &mut notes, onlooker,
            )
        }
        None => {
            let source = handler.input();
            let (ended, _) = handler.store(
                rt, place, source, request, input, output, &mut notes, onlooker,
            );
            ended
        }
    }
}

// The log to which a configuration has outcomes written, if the words name this archive.
pub(crate) fn log_of<'a>(config: &Config<'a>, archive: Option<&'a str>) -> Log<'a>
    ensures path { result.path.now ≡ spec.log_said (option_copied config.now.log) }
    ensures archive { option_copied result.archive ≡ spec.archive_said (option_copied config.now.archive) (option_copied archive.entry) }
{
    Log {
        path: config.log.unwrap_or(KERNEL_LOG),
        archive: config.archive.or(archive),
    }
}

/// Reports in the kernel's log a core that is lost since the words can't be read: no configuration names another log.
pub fn print_lost_words<R: AllocGlobal + Files<File = File>>(rt: &R) {
    let log = Log {
        path: KERNEL_LOG,
        archive: None,
    };
    let words = b"the words of handle are refused";
    let line = lost_line(
        rt.alloc(),
        b"",
        b"",
        Place::Lost(""),
        b"BadLine",
        words,
        None,
    );
    log.print(rt, rt.alloc(), Level::Error, line.text());
}

// Logs the bad parts of the configuration and the pairs, which are left out.
fn print_faults<R: AllocGlobal + Files<File = File>>(
    rt: &R,
    handler: &Handler<'_>,
    words: &HandleWords<'_>,
    document: &Document,
) {
    let is_missing_default = words.config.is_none() && document.trouble == Some(Trouble::Missing);
    if is_missing_default && words.archive.is_some() {
        return;
    }
    if let Some(fault) = document.trouble_line(rt.alloc(), words.path()) {
        handler.print(rt, Level::Warning, fault.text());
    }
    if let Ok(faults) = document.faults(rt.alloc(), words.path()) {
        for fault in &faults {
            handler.print(rt, Level::Warning, fault.text());
        }
    }
    for pair in &words.left_out {
        handler.print_left_out(rt, b"neither an option nor a pair of the grammar: ", pair);
    }
    if let Some(length) = words.faulty_length {
        handler.print_left_out(rt, b"no length: ", length);
    }
    if let Some(stall) = words.faulty_stall {
        handler.print_left_out(rt, b"no number of seconds: ", stall);
    }
}

impl<'a> Handler<'a> {
    // The same for a core that stays in the spool if it can't be stored now.
    pub(crate) fn waiting(&self) -> Handler<'a> {
        let spooling = match self.config.spool {
            Some(folder) => Some(Spooling {
                folder,
                makes_room: self.config.fit,
            }),
            None => None,
        };
        Handler {
            config: self.config,
            printer: Printer {
                spooling,
                ..self.printer
            },
        }
    }

    // The input, from which a core comes.
    pub(crate) fn input(&self) -> Source<'static> {
        Source {
            path: "-",
            stall: self.config.stall,
        }
    }

    // The same for a core whose process had this dump mode.
    pub(crate) fn with_mode(&self, mode: Option<u64>) -> Handler<'a> {
        Handler {
            config: self.config,
            printer: Printer {
                mode,
                ..self.printer
            },
        }
    }

    pub(crate) fn print<R: Files<File = File>>(&self, rt: &R, level: Level, text: &[u8]) {
        self.printer.print(rt, level, text);
    }

    // Logs that a word is left out, and why.
    fn print_left_out<R: AllocGlobal + Files<File = File>>(&self, rt: &R, why: &[u8], word: &str) {
        let mut line = Collected::new(rt.alloc());
        let mut reply = Reply::new(&mut line);
        reply.print(b"left out, since it is ");
        reply.print(why);
        reply.print_text(word.as_bytes());
        let _ = reply.finish();
        self.print(rt, Level::Warning, line.text());
    }

    // Logs that a core is lost before its archive is opened, with this reason and this meaning.
    pub(crate) fn print_lost<R: Files<File = File> + Clock>(
        &self,
        rt: &R,
        words: &HandleWords<'_>,
        archive: &str,
        reason: &[u8],
        meaning: &[u8],
    ) {
        let mut name = Collected::new(self.printer.alloc);
        if let Ok(request) = self.request(rt, words) {
            name = request.printed_name(self.printer.alloc);
        }
        self.printer
            .print_lost(rt, archive, b"", name.text(), reason, meaning);
    }

    // Refuses a core for the limit of its process.
    fn refuse_limited<R: Files<File = File> + Clock, O: Output>(
        &self,
        rt: &R,
        words: &HandleWords<'_>,
        archive: &str,
        output: &mut O,
    ) -> Result<(), Failure>
        ensures told { IsToldAs (O.taken output.old) (O.taken output.new) (O.failures output.old) (O.failures output.new) (no_reply (codes "Limit")) }
        ensures refused { IfOk result (λ done. ⊥) }
    {
        let meaning = words_of(self.printer.alloc, Context::Handling, None, b"Limit", None);
        self.print_lost(rt, words, archive, b"Limit", meaning.text());
        let mut reply = Reply::new(output);
        reply.print(b"no Limit\n");
        reply.finish()?;
        Err(Failure::Told)
    }

    // The request to store the core. Nothing if the core is lost for the limit of its process.
    fn wanted<R: Files<File = File> + TimeSource>(
        &self,
        rt: &R,
        words: &HandleWords<'_>,
    ) -> Result<Option<StoreRequest>, Refusal>
        ensures asked { IfOk result (IsWanted (R.TimeSource.gives rt.now) self.now.config words.now) }
        ensures refused { IfErr result (λ refusal. refusal ≡ OutOfMemory) }
    {
        if is_limited(&self.config, words.core_limit) {
            return Ok(None);
        }
        Ok(Some(self.request(rt, words)?))
    }

    // The request to store the core. A bad template, label or name is logged and left out.
    fn request<R: Files<File = File> + TimeSource>(
        &self,
        rt: &R,
        words: &HandleWords<'_>,
    ) -> Result<StoreRequest, Refusal>
        ensures asked { IfOk result (λ request. IsRequested (R.TimeSource.gives rt.now) self.now.config words.now.begin.items words.now.length request) }
        ensures refused { IfErr result (λ refusal. refusal ≡ OutOfMemory) }
    {
        let request = self.named(rt, words, self.template(rt))?;
        let Some(reason) = request.refusal() else {
            return Ok(request);
        };
        self.print_unnamed_by(rt, reason);
        self.named(rt, words, PLAIN_TEMPLATE)
    }

    // The same, named by this template.
    fn named<R: Files<File = File> + TimeSource>(
        &self,
        rt: &R,
        words: &HandleWords<'_>,
        template: &str,
    ) -> Result<StoreRequest, Refusal>
        ensures asked { IfOk result (λ request. AsksBy (R.TimeSource.gives rt.now) self.now.config words.now.begin.items words.now.length template.now request) }
        ensures refused { template_fault template.now ≡ None → IfErr result (λ refusal. refusal ≡ OutOfMemory) }
    {
        let now = self.time(rt);
        let Ok(begin) = words.begin.clone() else {
            return Err(Refusal::OutOfMemory);
        };
        let label = self.label(rt);
        match request_of(&self.config, begin, words.length, template, now, label) {
            Ok(request) => Ok(request),
            Err(fault) => Err(Refusal::from(fault)),
        }
    }

    // The template of the configuration, unless it has none, or none that is in order.
    fn template<R: Files<File = File>>(&self, rt: &R) -> &'a str
        ensures taken { result.now ≡ template_of (option_copied self.now.config.template) }
        ensures sound { template_fault result.now ≡ None }
    {
        let Some(text) = self.config.template else {
            return HANDLER_TEMPLATE;
        };
        let Err(_) = Template::parse(text.as_bytes()) else {
            return text;
        };
        let told = b"the template is left out: it has over 127 bytes, or begins with |";
        self.print(rt, Level::Warning, told);
        HANDLER_TEMPLATE
    }

    // Logs that a template is left out since the name that it gives is refused.
    fn print_unnamed_by<R: Files<File = File>>(&self, rt: &R, reason: &[u8]) {
        let mut line = Collected::new(self.printer.alloc);
        let mut reply = Reply::new(&mut line);
        reply.print(b"the template is left out, since the name is refused: no ");
        reply.print(reason);
        let _ = reply.finish();
        self.print(rt, Level::Warning, line.text());
    }

    fn label<R: Files<File = File>>(&self, rt: &R) -> Option<ArrayVec<u8, 64>>
        ensures { option_copied self.now.config.label ≡ None → result ≡ None }
    {
        let text = self.config.label?;
        match escaped_label(self.printer.alloc, text) {
            Ok(label) => Some(label),
            Err(_) => {
                self.print(
                    rt,
                    Level::Warning,
                    b"the label is left out: it has over 64 bytes",
                );
                None
            }
        }
    }

    // The time in seconds since 1970, if the configuration has an age, and the clock has a time.
    fn time<R: TimeSource>(&self, rt: &R) -> Option<u64>
        ensures { IsTime (R.TimeSource.gives rt.now) self.now.config.before result }
    {
        let Some(_) = self.config.before else {
            return None;
        };
        seconds_of(rt.moment())
    }

    // The request to store the core, under its name with this end.
    pub(crate) fn request_ended<R: Files<File = File> + Clock>(
        &self,
        rt: &R,
        words: &HandleWords<'_>,
        end: &str,
    ) -> Result<StoreRequest, Refusal> {
        if end.is_empty() {
            return self.request(rt, words);
        }
        let request = self.named(
            rt,
            words,
            ended(self.printer.alloc, self.template(rt), end)?.as_str(),
        )?;
        if request.refusal().is_none() {
            return Ok(request);
        }
        self.named(
            rt,
            words,
            ended(self.printer.alloc, PLAIN_TEMPLATE, end)?.as_str(),
        )
    }

    // Stores the core, and logs the outcome.
    pub(crate) fn store<
        R: AllocGlobal + Files<File = File> + Clock,
        I: Read,
        O: Output,
        W: Onlooker,
    >(
        &self,
        rt: &R,
        place: ArchivePath<'_>,
        source: Source<'_>,
        request: StoreRequest,
        input: &mut I,
        output: &mut O,
        notes: &mut Notes,
        onlooker: &mut W,
    ) -> (Result<(), Failure>, Outcome) {
        store_told(
            rt,
            self.printer,
            place,
            source,
            request,
            input,
            output,
            &mut notes.subject,
            onlooker,
        )
    }
}

// A template with this end.
fn ended(alloc: Global, template: &str, end: &str) -> Result<String, Refusal> {
    let mut text = String::from_str(alloc, template)?;
    text.push_str(end)?;
    Ok(text)
}
