// The outcome of a store by its replies, as a log has it.
ghost use Rattle.std.specs.Prelude.{◌≡◌, List, ℕ};
ghost use Rattle.archive_files.specs.Printing.{IsKeptAs};
ghost use Rattle.script_streams.specs.Replies.{PrintsText, printing};
ghost use Rattle.core_handler.specs.Printing as spec;

use archive_files::{Collected, FileWord, Refusal};
use command_words::{Context, print_meaning};
use diagnostics::Trouble;
use disk_model::FileFault;
use handler_files::{Outcome, outcome_of};
use script_streams::{Output, Reply};
use std::alloc::Global;
use std::str;

// The outcome of a store, by its replies.
#[derive(Clone, Copy)]
pub(crate) struct Replied<'a> {
    // The name of the case, printed.
    pub(crate) name: &'a [u8],
    // How many bytes are kept, printed, if the core was cut.
    pub(crate) cut: Option<&'a [u8]>,
    // The number of the case, printed, if it is stored.
    pub(crate) stored: Option<&'a [u8]>,
    // The last reason for which a step was refused.
    pub(crate) refused: &'a [u8],
}

// The text after a word and a space at the start of a line.
pub(crate) fn after<'a>(line: &'a [u8], word: &[u8]) -> Option<&'a [u8]> {
    line.strip_prefix(word)
}

// Reads the lines of the replies.
pub(crate) fn replies_outcome(replies: &[u8]) -> Replied<'_> {
    let mut outcome = Replied {
        name: b"a core",
        cut: None,
        stored: None,
        refused: b"",
    };
    for line in replies.split(|byte| *byte == b'\n') {
        outcome = with_line(outcome, line);
    }
    outcome
}

fn with_line<'a>(outcome: Replied<'a>, line: &'a [u8]) -> Replied<'a> {
    let mut outcome = outcome;
    if let Some(name) = after(line, b"name ") {
        outcome.name = name;
    }
    if let Some(kept) = after(line, b"cut ") {
        outcome.cut = Some(kept);
    }
    if let Some(number) = after(line, b"stored ") {
        outcome.stored = Some(number);
    }
    if let Some(reason) = after(line, b"no ") {
        outcome.refused = reason;
    }
    outcome
}

// The label or the pin that a case that is stored was to get, and did not: the reason, if so.
#[derive(Clone, Copy)]
pub(crate) struct Lacks<'a> {
    pub(crate) label: Option<&'a [u8]>,
    pub(crate) pin: Option<&'a [u8]>,
    // The pin was answered after the label.
    pub(crate) pin_follows: bool,
}

// Reads the replies behind those to the end of a stream: that to its label, if it was to have one, and that to its pin.
pub(crate) fn lacks_of(replies: &[u8], has_label: bool) -> Lacks<'_> {
    let mut lacks = Lacks {
        label: None,
        pin: None,
        pin_follows: false,
    };
    let mut behind: u32 = 0;
    for line in replies.split(|byte| *byte == b'\n') {
        if behind == 0 && after(line, b"stored ").is_none() || line.is_empty() {
            continue;
        }
        lacks = with_reply(lacks, behind, has_label, line);
        behind = behind.saturating_add(1);
    }
    lacks
}

// The line of this number, that of `stored` being 0, and its `ok` 1.
fn with_reply<'a>(lacks: Lacks<'a>, behind: u32, has_label: bool, line: &'a [u8]) -> Lacks<'a> {
    let refused = after(line, b"no ");
    match (behind, has_label) {
        (0 | 1, _) => lacks,
        (2, true) => Lacks {
            label: refused,
            ..lacks
        },
        (_, true) => Lacks {
            pin: refused,
            pin_follows: true,
            ..lacks
        },
        (_, false) => Lacks {
            pin: refused,
            ..lacks
        },
    }
}

// The text about a case that lacks this, with this reason.
pub(crate) fn lack_words(
    alloc: Global,
    context: Context,
    lack: &[u8],
    reason: &[u8],
    trouble: Option<Trouble>,
) -> Collected {
    let meaning = words_of(alloc, context, None, reason, trouble);
    let mut words = Collected::new(alloc);
    let mut reply = Reply::new(&mut words);
    reply.print(lack);
    reply.print(b": no ");
    reply.print(reason);
    if !meaning.text().is_empty() {
        reply.print(b": ");
        reply.print(meaning.text());
    }
    let _ = reply.finish();
    words
}

// The dump mode of a process that changed its user or group, or that others may not read (`suid_dumpable`, proc(5)).
const SAFE_MODE: u64 = 2;

// Adds to a line that the process had this dump mode, if it is known.
fn print_mode<O: Output>(reply: &mut Reply<'_, O>, mode: Option<u64>)
    ensures { PrintsText (printing O.Output reply.old reply.new) (spec.mode_words mode) }
{
    let Some(mode) = mode else {
        return;
    };
    if mode == SAFE_MODE {
        reply.print(b", mode 2");
    }
}

// Adds the numbers of the cases that were dropped to a line, as far as they fit.
fn print_dropped(reply: &mut Reply<'_, Collected>, replies: &[u8]) {
    let mut mark: &[u8] = b", dropped ";
    for line in replies.split(|byte| *byte == b'\n') {
        if let Some(number) = after(line, b"dropped ") {
            reply.print(mark);
            reply.print(number);
            mark = b" ";
        }
    }
}

// The same as a text.
fn dropped_text(alloc: Global, replies: &[u8]) -> Collected {
    let mut text = Collected::new(alloc);
    let mut reply = Reply::new(&mut text);
    print_dropped(&mut reply, replies);
    let _ = reply.finish();
    text
}

// The text about a core that is stored.
pub(crate) fn stored_line(
    alloc: Global,
    replies: &[u8],
    number: &[u8],
    details: &[u8],
    archive: &str,
    mode: Option<u64>,
) -> Collected
    ensures { (name kept more : List ℕ) × IsKeptAs (⟦<Collected as Output>⟧.taken result) (⟦<Collected as Output>⟧.failures result) (spec.stored_words kept number.now name details.now archive.now mode more) }
{
    let outcome = replies_outcome(replies);
    let cut = cut_text(alloc, outcome.name, outcome.cut);
    let dropped = dropped_text(alloc, replies);
    let mut line = Collected::new(alloc);
    let mut reply = Reply::new(&mut line);
    reply.print(cut.text());
    print_number(&mut reply, number, outcome.name);
    print_archive(&mut reply, details, archive);
    print_mode(&mut reply, mode);
    reply.print(dropped.text());
    let _ = reply.finish();
    line
}

// How many bytes are kept of a core of this name, if it was cut.
fn cut_text(alloc: Global, name: &[u8], cut: Option<&[u8]>) -> Collected {
    let mut text = Collected::new(alloc);
    let mut reply = Reply::new(&mut text);
    if let Some(kept) = cut {
        reply.print(b"cut ");
        reply.print(name);
        reply.print(b" at ");
        reply.print(kept);
        reply.print(b": ");
    }
    let _ = reply.finish();
    text
}

// The text that a core is stored as the case of this number.
fn print_number<O: Output>(reply: &mut Reply<'_, O>, number: &[u8], name: &[u8])
    ensures { PrintsText (printing O.Output reply.old reply.new) (spec.number_words number.now name.now) }
{
    reply.print(b"stored ");
    reply.print(number);
    reply.print(b" ");
    reply.print(name);
}

// Adds the known facts of a case, and its archive.
fn print_archive<O: Output>(reply: &mut Reply<'_, O>, details: &[u8], archive: &str)
    ensures { PrintsText (printing O.Output reply.old reply.new) (spec.archive_words details.now archive.now) }
{
    reply.print(details);
    reply.print(b" in ");
    reply.print_text(archive.as_bytes());
}

// The meaning of a refusal of this work with this reason, in words: for a file which one, and why it could not be opened; for a disk that failed which
// call of the system that was, if it is known.
pub(crate) fn words_of(
    alloc: Global,
    context: Context,
    refusal: Option<Refusal>,
    reason: &[u8],
    trouble: Option<Trouble>,
) -> Collected {
    let mut words = Collected::new(alloc);
    let mut reply = Reply::new(&mut words);
    match refusal.and_then(|refusal| file_text(alloc, refusal)) {
        Some(text) => reply.print(text.as_bytes()),
        None => print_meaning(&mut reply, context, &[], reason, trouble, None),
    }
    let _ = reply.finish();
    words
}

fn file_text(alloc: Global, refusal: Refusal) -> Option<String> {
    let text = match refusal {
        Refusal::File(FileWord::Archive, FileFault::Missing) => format!(in alloc;
            "there is no such file: corekeep format makes an archive"
        ),
        Refusal::File(FileWord::Archive, FileFault::Folder) => format!(in alloc;
            "it is a directory"
        ),
        Refusal::File(FileWord::Archive, fault) => format!(in alloc; "{fault}"),
        Refusal::File(FileWord::File, fault) => format!(in alloc; "FILE: {fault}"),
        _ => return None,
    };
    text.ok()
}

// The place of a core that is not stored.
#[derive(Clone, Copy)]
pub(crate) enum Place<'a> {
    // Nowhere: this archive has lost it.
    Lost(&'a str),
    // In this directory.
    Kept(&'a str),
}

// The outcome of a core that is refused for this reason. Cases may go for it or not.
pub(crate) fn reason_outcome(reason: &[u8], makes_room: bool) -> Outcome {
    let word = match reason.split(|byte| *byte == b' ').next() {
        Some(word) => word,
        None => reason,
    };
    match str::from_utf8(word) {
        Ok(word) => outcome_of(word, makes_room),
        Err(_) => Outcome::Unknown,
    }
}

// The text about a core that is lost or kept for this reason, with this meaning, and about the cases that were dropped even so. An unknown
// name or archive is printed as a minus.
pub(crate) fn lost_line(
    alloc: Global,
    replies: &[u8],
    name: &[u8],
    place: Place<'_>,
    reason: &[u8],
    words: &[u8],
    mode: Option<u64>,
) -> Collected
    ensures { (more : List ℕ) × IsKeptAs (⟦<Collected as Output>⟧.taken result) (⟦<Collected as Output>⟧.failures result) (spec.lost_words place.entry name.now reason.now words.now mode more) }
{
    let dropped = dropped_text(alloc, replies);
    let mut line = Collected::new(alloc);
    let mut reply = Reply::new(&mut line);
    print_unstored(&mut reply, name, place);
    print_why(&mut reply, reason, words);
    print_mode(&mut reply, mode);
    reply.print(dropped.text());
    let _ = reply.finish();
    line
}

// The text with the place of a core that is not stored.
fn print_unstored<O: Output>(reply: &mut Reply<'_, O>, name: &[u8], place: Place<'_>)
    ensures { PrintsText (printing O.Output reply.old reply.new) (spec.unstored_words place.entry name.now) }
{
    match place {
        Place::Lost(archive) => print_place(reply, b"lost ", name, archive),
        Place::Kept(folder) => print_place(reply, b"kept ", name, folder),
    }
}

fn print_place<O: Output>(reply: &mut Reply<'_, O>, what: &[u8], name: &[u8], path: &str)
    ensures { PrintsText (printing O.Output reply.old reply.new) (spec.place_words what.now name.now path.now) }
{
    reply.print(what);
    reply.print(name_or_minus(name));
    reply.print(b" in ");
    reply.print_text(path.as_bytes());
}

fn name_or_minus(name: &[u8]) -> &[u8]
    ensures { result.now ≡ spec.name_or_minus name.now }
{
    match name {
        [] => b"-",
        _ => name,
    }
}

// Adds the reason why a core is not stored, and its meaning.
fn print_why<O: Output>(reply: &mut Reply<'_, O>, reason: &[u8], words: &[u8])
    ensures { PrintsText (printing O.Output reply.old reply.new) (spec.why_words reason.now words.now) }
{
    reply.print(b": no ");
    reply.print(reason);
    print_meant(reply, words);
}

fn print_meant<O: Output>(reply: &mut Reply<'_, O>, words: &[u8])
    ensures { PrintsText (printing O.Output reply.old reply.new) (spec.meant_words words.now) }
{
    if !words.is_empty() {
        reply.print(b": ");
        reply.print(words);
    }
}
