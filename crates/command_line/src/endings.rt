// Why the program ends with a status other than 0, and how it says so.
ghost use Rattle.std.specs.Prelude.{◌≡◌, ◌≤◌};

use archive_files::{Collected, Failure, NamedFile, Refusal, print_failure, reason_of};
use command_words::{
    Context, LineHelp, Unread, asked_case, meaning_of_words, print_how_it_is_asked, print_meaning,
    print_no_line, print_word, print_wrong_word,
};
use diagnostics::Trouble;
use script_streams::{Output, Reply, write_whole};
use std::alloc::{AllocError, Global};
use std::str;

// Why the program did not carry out the command.
#[derive(Drop)]
pub(crate) enum Ending {
    // The words ask for this help.
    Help(String),
    // The words are outside the grammar, as this text says.
    Wrong(String),
    // It failed, or was refused, and this is known of the file that the failure names.
    Failed(Failure, Named),
}

// What is known of the file that a failure names. Nothing is if there was no memory for it.
#[derive(Drop)]
pub(crate) struct Named {
    pub(crate) path: Option<String>,
    // The process that holds its lock.
    pub(crate) holder: Option<u32>,
    // A directory has its path.
    pub(crate) is_folder: bool,
}

impl Named {
    // Nothing.
    pub(crate) fn nothing() -> Named {
        Named {
            path: None,
            holder: None,
            is_folder: false,
        }
    }
}

impl From<Unread> for Ending {
    fn from(unread: Unread) -> Self {
        match unread {
            Unread::Help(text) => Ending::Help(text),
            Unread::Wrong(text) => Ending::Wrong(text),
            Unread::OutOfMemory => Ending::from(Refusal::OutOfMemory),
        }
    }
}

impl From<Failure> for Ending {
    fn from(failure: Failure) -> Self {
        Ending::Failed(failure, Named::nothing())
    }
}

impl From<Refusal> for Ending {
    fn from(refusal: Refusal) -> Self {
        Ending::from(Failure::Refused(refusal))
    }
}

impl From<AllocError> for Ending {
    fn from(_: AllocError) -> Self {
        Ending::from(Refusal::OutOfMemory)
    }
}

// The texts that people are shown beside an ending.
#[derive(Clone, Copy)]
pub(crate) struct Clues<'a> {
    // The command that was carried out.
    pub(crate) context: Context,
    // The last line of the output: it has the reason for which a step was refused.
    pub(crate) last_line: &'a [u8],
    // The words of the command line.
    pub(crate) words: &'a [String],
    // The line of a script that the words begin with.
    pub(crate) line: Option<&'static LineHelp>,
    // The last call on an archive's file that failed.
    pub(crate) trouble: Option<Trouble>,
}

// Prints why the program ends, and returns its status. The meaning of a reason is shown to people. Help is no failure: it goes to the
// output, and the status is 0.
pub(crate) fn print_ending<O: Output, E: Output>(
    alloc: Global,
    ending: &Ending,
    clues: Clues<'_>,
    output: &mut O,
    errors: &mut E,
) -> u8
    ensures most { result ≤ 2 }
    ensures quiet { result ≡ 0 → errors.new ≡ errors.old }
{
    match ending {
        Ending::Help(text) => match write_whole(output, text.as_bytes()) {
            Ok(()) => 0,
            Err(_) => 1,
        },
        Ending::Wrong(text) => {
            let _ = write_whole(errors, text.as_bytes());
            if let Some(line) = clues.line {
                print_how_it_is_asked(line, errors);
            }
            2
        }
        Ending::Failed(failure, named) => {
            print_why(alloc, failure, named, clues, errors);
            let shown = shown_path(alloc, named);
            let file = NamedFile {
                path: str::from_utf8(shown.text()).unwrap_or(""),
                holder: named.holder,
                is_folder: named.is_folder,
                waiting: waiting_of(clues.words),
            };
            print_failure(alloc, failure, file, output, errors)
        }
    }
}

// The path of the file that a failure names as it is printed; empty if it is not known.
fn shown_path(alloc: Global, named: &Named) -> Collected {
    let mut shown = Collected::new(alloc);
    let mut reply = Reply::new(&mut shown);
    if let Some(path) = &named.path {
        print_word(&mut reply, path);
    }
    let _ = reply.finish();
    shown
}

// How to wait for a process that has the archive: by an option, if the command has it.
fn waiting_of(words: &[String]) -> &'static str {
    match words.first() {
        Some(command) if command.as_str() == "handle" => {
            "no-wait is set in the configuration: without it, corekeep waits until it is done"
        }
        Some(_) if words.iter().any(|word| word.as_str() == "--metrics") => {
            "--metrics never waits: run it again later"
        }
        _ => "without --no-wait, corekeep waits until it is done",
    }
}

// Explains the reason of a refusal to people.
fn print_why<E: Output>(
    alloc: Global,
    failure: &Failure,
    named: &Named,
    clues: Clues<'_>,
    errors: &mut E,
) {
    match failure {
        Failure::Refused(Refusal::NoLine(usage)) => print_no_line(usage, clues.words, errors),
        Failure::Refused(refusal) | Failure::Aside(refusal) => {
            if !is_told(*refusal) {
                print_words_of(reason_of(alloc, *refusal).text(), named, clues, errors);
            }
        }
        Failure::Told => {
            if let Some(reason) = reason_in(clues.last_line) {
                print_words_of(reason, named, clues, errors);
            }
        }
        _ => {}
    }
}

// The reason that a line of the output has: a reply's, or that of a JSON object.
fn reason_in(line: &[u8]) -> Option<&[u8]> {
    match line.strip_prefix(b"no ".as_slice()) {
        Some(reason) => Some(reason),
        None => line
            .strip_prefix(b"{\"refused\":\"".as_slice())?
            .strip_suffix(b"\"}".as_slice()),
    }
}

// Whether `print_failure` explains this refusal to people itself.
fn is_told(refusal: Refusal) -> bool {
    matches!(
        refusal,
        Refusal::File(_, _)
            | Refusal::Unsafe(_, _)
            | Refusal::NoLine(_)
            | Refusal::Output
            | Refusal::NotUtf8(_)
    )
}

// Explains a reason, if there are words for it.
fn print_words_of<E: Output>(reason: &[u8], named: &Named, clues: Clues<'_>, errors: &mut E) {
    let Clues { context, words, .. } = clues;
    if meaning_of_words(context, words, reason).is_empty() {
        return;
    }
    let is_of_a_word = reason == b"BadLine".as_slice() || reason == b"BadShape".as_slice();
    if is_of_a_word && print_wrong_word(words, errors) {
        return;
    }
    let mut reply = Reply::new(errors);
    reply.print(b"corekeep: ");
    let path = named.path.as_deref();
    let is_of_the_file = is_of_an_opening(reason);
    let subject = if reason == b"NoCase".as_slice() {
        asked_case(words)
    } else if is_of_the_file {
        path
    } else {
        None
    };
    if let Some(subject) = subject {
        print_word(&mut reply, subject);
        reply.print(b": ");
    }
    // A path that stands before the meaning is not printed once more.
    let within = if is_of_the_file { None } else { path };
    print_meaning(&mut reply, context, words, reason, clues.trouble, within);
    reply.print(b"\n");
    let _ = reply.finish();
}

// Whether a reason says why an archive does not open: its words are about the file.
fn is_of_an_opening(reason: &[u8]) -> bool {
    reason == b"NotAnArchive".as_slice()
        || reason.starts_with(b"UnknownVersion ")
        || reason.starts_with(b"Damaged ")
}
