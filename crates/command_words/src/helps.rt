// `corekeep help LINE`: the purpose of a line of a script.
use crate::commands::commands;
use crate::help_finding::help_of;
use crate::help_line::LineHelp;
use crate::help_rows::rows_of;
use crate::reasons::meaning_of;
use script_streams::{Output, Reply, StreamFault};

// The words of the lines whose last word is often taken for a text as it is.
const FIND_USAGE: &str =
    "find N HEX: HEX is 1 to 64 bytes, each by two hexadecimal digits, without 0x; find N --text TEXT looks for a text of as many";

const LABEL_USAGE: &str =
    "label N [TEXT]: TEXT is one word of at most 64 bytes, in which a space is \\x20 and a backslash \\x5c";

const RETIRE_USAGE: &str =
    "retire [keep=K] [bytes=B] [before=T]: each a number, T in seconds since 1970";

/// The line whose help these words ask for. A line that is also a command has the command's help, and `would-retire`, which `ask` alone has,
/// that of `retire`.
pub fn asked_help(words: &[String]) -> Option<&'static LineHelp> {
    let [help, name] = words else {
        return None;
    };
    if help.as_str() != "help" || is_command(name) {
        return None;
    }
    if name.as_str() == "would-retire" {
        return help_of("retire");
    }
    help_of(name)
}

/// The reason whose meaning these words ask for, by `help REASON`, and its meaning.
pub fn asked_reason(words: &[String]) -> Option<(&str, &'static [u8])> {
    let [help, reason] = words else {
        return None;
    };
    let meaning = meaning_of(reason.as_bytes());
    if help.as_str() != "help" || meaning.is_empty() {
        return None;
    }
    Some((reason.as_str(), meaning))
}

/// Prints the meaning of a reason, behind the reply that has it.
///
/// # Errors
///
/// `StreamFault` if a write failed.
pub fn print_reason<O: Output>(
    reason: &str,
    meaning: &[u8],
    output: &mut O,
) -> Result<(), StreamFault> {
    let mut reply = Reply::new(output);
    reply.print(b"no ");
    reply.print(reason.as_bytes());
    reply.print(b": ");
    reply.print(meaning);
    reply.print(b"\n");
    reply.finish()
}

/// The help of the line that the first word is, if it stands in the place of a command.
pub fn line_in_place_of_a_command(words: &[String]) -> Option<&'static LineHelp> {
    let name = words.first()?;
    if is_command(name) {
        return None;
    }
    help_of(name)
}

/// Prints how such a line is asked.
pub fn print_how_it_is_asked<E: Output>(line: &LineHelp, errors: &mut E) {
    let mut reply = Reply::new(errors);
    reply.print(b"corekeep: this is a line of a script: corekeep ask ARCHIVE ");
    reply.print(line.usage.as_bytes());
    reply.print(b"\n");
    let _ = reply.finish();
}

/// The words of the line that begins with this word, for people whose words are not of its form; empty if there is no such line.
pub fn usage_told(name: &str) -> &'static str {
    match name {
        "find" => FIND_USAGE,
        "label" => LABEL_USAGE,
        "retire" => RETIRE_USAGE,
        _ => help_of(name).map_or("", |help| help.usage),
    }
}

fn is_command(name: &str) -> bool {
    for command in commands() {
        if command.name == name {
            return true;
        }
    }
    false
}

/// Prints the purpose of a line.
///
/// # Errors
///
/// `StreamFault` if a write failed.
pub fn print_help<O: Output>(help: &LineHelp, output: &mut O) -> Result<(), StreamFault> {
    let mut reply = Reply::new(output);
    reply.print(help.usage.as_bytes());
    print_part(&mut reply, b"\n\n    ", help.does);
    print_part(&mut reply, b"\n    reply:    ", help.reply);
    print_rows(&mut reply, help.name);
    print_part(&mut reply, b"\n    example:  ", help.example);
    print_part(&mut reply, b"\n    refused:  ", help.reasons);
    reply.print(b"\n");
    reply.finish()
}

// Prints the forms of the rows that `--json` shows, if there are any.
fn print_rows<O: Output>(reply: &mut Reply<'_, O>, name: &str) {
    for form in rows_of(name) {
        print_part(reply, b"\n    --json:   ", form);
    }
}

fn print_part<O: Output>(reply: &mut Reply<'_, O>, heading: &[u8], text: &str) {
    reply.print(heading);
    reply.print(text.as_bytes());
}
