// Words that are no line of a script: the message for people.
use script_streams::{Output, Reply};
use script_words::{parse_number, parse_number_within};

// A word of a line, as its usage names it, and the kind of text that stands there.
struct Part {
    name: &'static str,
    words: &'static [u8],
}

static PARTS: [Part; 6] = [
    Part {
        name: "N",
        words: b"the case: its number, its whole name, last or latest",
    },
    Part {
        name: "T",
        words: b"the number of a thread, from 0 on: threads N lists them",
    },
    Part {
        name: "I",
        words: b"the number of a frame, from 0 on: unwind N T lists them",
    },
    Part {
        name: "ADDR",
        words: b"an address, such as 0x11000; for dump and at also a register, such as sp or sp+0x10",
    },
    Part {
        name: "LEN",
        words: b"how many bytes",
    },
    Part {
        name: "MIN",
        words: b"the least bytes of a text, 1 to 1,024",
    },
];

// The fault in the words of a line.
enum Fault<'a> {
    // This one is not there.
    Missing(&'static Part),
    // This word is not of the kind that stands there.
    Wrong(&'a str, &'static Part),
    // This word is one too many.
    Surplus(&'a str),
}

/// Prints a word that was given so that a terminal acts on no byte of it: as it is within single quotes, if it is empty or has
/// spaces and all else prints.
pub fn print_word<O: Output>(reply: &mut Reply<'_, O>, word: &str) {
    let is_plain = word
        .as_bytes()
        .iter()
        .all(|byte| matches!(*byte, b' '..=b'~') && *byte != b'\'');
    if is_plain && (word.is_empty() || word.contains(' ')) {
        reply.print(b"'");
        reply.print(word.as_bytes());
        reply.print(b"'");
    } else {
        reply.print_bytes(word.as_bytes());
    }
}

/// Prints the usage of the line that the words of `ask` begin like, and which word is wrong. Without a usage no line begins so.
pub fn print_no_line<E: Output>(usage: &str, words: &[String], errors: &mut E) {
    let mut reply = Reply::new(errors);
    if usage.is_empty() {
        reply.print(b"corekeep: no line begins with ");
        // The command and the archive come first; options may stand anywhere.
        let mut given = words.iter().filter(|word| !word.starts_with("--")).skip(2);
        print_word(
            &mut reply,
            given.next().map_or("these words", |word| word.as_str()),
        );
        reply.print(b": corekeep ask --help lists the lines\n");
    } else {
        reply.print(b"corekeep: the line is: ");
        reply.print(usage.as_bytes());
        print_fault(&mut reply, fault_in(usage, words));
        reply.print(b"\n");
    }
    let _ = reply.finish();
}

// Prints which word is wrong, if that is known.
fn print_fault<E: Output>(reply: &mut Reply<'_, E>, fault: Option<Fault<'_>>) {
    match fault {
        Some(Fault::Missing(part)) => {
            reply.print(b"; ");
            reply.print(part.name.as_bytes());
            reply.print(b" is missing: ");
            reply.print(part.words);
        }
        Some(Fault::Wrong(word, part)) => {
            reply.print(b"; ");
            print_word(reply, word);
            reply.print(b" is no ");
            reply.print(part.name.as_bytes());
            reply.print(b": ");
            reply.print(part.words);
        }
        Some(Fault::Surplus(word)) => {
            reply.print(b"; ");
            print_word(reply, word);
            reply.print(b" is one word too many");
        }
        None => {}
    }
}

// The first word of these that is not as the usage has it. It is not looked for if a word may be left out, or is printed already.
fn fault_in<'a>(usage: &str, words: &'a [String]) -> Option<Fault<'a>> {
    if usage.contains('[') || usage.contains(':') || usage.contains('-') {
        return None;
    }
    // The command, the archive and the name of the line come first; options may stand anywhere.
    let mut given = words.iter().filter(|word| !word.starts_with("--")).skip(3);
    let takes_register = usage.starts_with("dump ");
    for name in usage.split(' ').skip(1) {
        let part = part_of(name)?;
        match given.next() {
            Some(word) if is_such(part, word) => {}
            // It may be a register. Whether there is such a one is not known here.
            Some(word) if takes_register && name == "ADDR" => {
                return Some(match given.next() {
                    Some(_) => Fault::Wrong(word.as_str(), part),
                    None => Fault::Missing(part_of("LEN")?),
                });
            }
            Some(word) => return Some(Fault::Wrong(word.as_str(), part)),
            None => return Some(Fault::Missing(part)),
        }
    }
    Some(Fault::Surplus(given.next()?.as_str()))
}

fn part_of(name: &str) -> Option<&'static Part> {
    for part in &PARTS {
        if part.name == name {
            return Some(part);
        }
    }
    None
}

// Whether a word can stand there. A case may have any name, and numbers begin at 1.
fn is_such(part: &Part, word: &str) -> bool {
    match part.name {
        "N" => parse_number(word.as_bytes()) != Some(0),
        "MIN" => parse_number_within(word.as_bytes(), 1, 1_024).is_some(),
        _ => parse_number(word.as_bytes()).is_some(),
    }
}

/// The word that names the one case that these words ask for, if they are of a command that takes one, and its place is certain.
pub fn asked_case(words: &[String]) -> Option<&str> {
    let command = words.first()?.as_str();
    let before: usize = match command {
        "ask" if !words.iter().any(|word| word.starts_with("--text")) => 3,
        "extract" | "info" | "wants" | "unpack" | "digest" | "report" => 2,
        // The filters of `groups` have values.
        "groups" if words.len() == 3 => 2,
        _ => return None,
    };
    let mut given = words
        .iter()
        .filter(|word| !word.starts_with("--"))
        .skip(before);
    let case = given.next()?;
    let takes_many = command == "digest" || command == "report";
    if takes_many && given.next().is_some() {
        return None;
    }
    Some(case.as_str())
}
