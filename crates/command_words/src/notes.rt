// The notes for people although a command did its work: on a case that was stored, on an archive that was looked at, on a file that
// was made, and on the zone of the times that were shown.
ghost use Rattle.std.specs.Prelude.{◌≡◌, false};
ghost use Rattle.command_words.specs.Notes.{IsQuietButForANote, IsQuietButForNotes, asks_for_local, asks_to_check, checks_archive, makes_file, may_note, second_subject, shows_times, subject};

use script_streams::{Output, Reply};

/// Prints a note for people, if there is one: if the words ask to store a file, the part of the case that can't be read; if they ask to
/// look at an archive, that the half of its journal which is taken may be the wrong one; if they ask to make a file, that others may write
/// its directory; if they ask for the times of this machine's zone, that it can't be read. Then comes the second note, if there is one: on
/// the file system, if the words ask to make an archive or to check one; on the spool, if they ask to store a file; on the case, if they ask
/// to unpack it.
pub fn print_notes<E: Output>(words: &[String], note: &[u8], second: &[u8], errors: &mut E)
    ensures quiet { may_note words.now ≡ false → errors.new ≡ errors.old }
    ensures notes { IsQuietButForNotes (subject words.now) (second_subject words.now) E.Output errors.old errors.new }
{
    if !may_note(words) {
        return;
    }
    print_note_line(subject(words), note, errors);
    let on = second_subject(words);
    if on.is_empty() {
        return;
    }
    print_note_line(on, second, errors);
}

// The subject of a second note of these words. It is empty if they have none.
fn second_subject(words: &[String]) -> &'static [u8]
    ensures { result.now ≡ second_subject words.now }
{
    let Some(word) = words.first() else {
        return b"";
    };
    match word.as_str() {
        "format" | "check" => b"file system ",
        "store" => b"spool ",
        "unpack" => b"case ",
        _ => b"",
    }
}

// Whether anything is noted of these words. `handle` looks at an archive only if it is asked to check.
fn may_note(words: &[String]) -> bool
    ensures { result ≡ may_note words.now }
{
    let Some(word) = words.first() else {
        return false;
    };
    match word.as_str() {
        "store" | "check" => true,
        "handle" => asks_to_check(words),
        command if shows_times(command) => asks_for_local(words),
        command => makes_file(command),
    }
}

// Whether the words ask `handle` to check.
fn asks_to_check(words: &[String]) -> bool
    ensures { result ≡ asks_to_check words.now }
{
    words.iter().any(|word| word.as_str() == "--check")
}

// Whether the words ask for the times of this machine's zone.
fn asks_for_local(words: &[String]) -> bool
    ensures { result ≡ asks_for_local words.now }
{
    words.iter().any(|word| word.as_str() == "--local")
}

// The subject of a note of these words.
fn subject(words: &[String]) -> &'static [u8]
    ensures { result.now ≡ subject words.now }
{
    let Some(word) = words.first() else {
        return b"";
    };
    if word.as_str() == "store" {
        b"case "
    } else if checks_archive(word.as_str()) {
        b"archive "
    } else if makes_file(word.as_str()) {
        b"directory "
    } else if shows_times(word.as_str()) {
        b"time zone "
    } else {
        b""
    }
}

// Whether a command looks whether an archive is sound.
fn checks_archive(command: &str) -> bool
    ensures { result ≡ checks_archive command.now }
{
    command == "check" || command == "handle"
}

// Whether a command makes a file, or a directory.
fn makes_file(command: &str) -> bool
    ensures { result ≡ makes_file command.now }
{
    command == "format"
        || command == "extract"
        || command == "copy"
        || command == "resize"
        || command == "salvage"
        || command == "unpack"
}

// Whether a command shows times.
fn shows_times(command: &str) -> bool
    ensures { result ≡ shows_times command.now }
{
    command == "list" || command == "search" || command == "groups" || command == "info"
}

// Prints a note for people, if it is not empty.
fn print_note_line<E: Output>(subject: &[u8], note: &[u8], errors: &mut E)
    ensures { IsQuietButForANote subject.now E.Output errors.old errors.new }
{
    if note.is_empty() {
        return;
    }
    let mut reply = Reply::new(errors);
    reply.print(b"corekeep: ");
    reply.print(subject);
    reply.print(note);
    reply.print(b"\n");
    let _ = reply.finish();
}
