// Values of the command line that can't be read: the message for people.
use crate::wrong_words::print_word;
use script_streams::{Output, Reply};
use script_words::{parse_number, parse_number_within, parse_u32};

// What may stand as a value.
enum Allowed {
    // A number of 64 bits.
    Number,
    // A number of 32 bits.
    Small,
    // A number from 1 on, at most this one.
    Within(u64),
    // One of these words.
    One(&'static [&'static str]),
    // Any text of at least one byte.
    Text,
    // A time or a signal: whether it is one is not known here.
    Other,
}

// An option, what may stand as its value, and what the value is otherwise.
struct Valued {
    option: &'static str,
    allowed: Allowed,
    why: &'static [u8],
}

const NO_NUMBER: &[u8] = b"not a number";

const NO_TIME: &[u8] =
    b"not a time: today, yesterday, 2h, 3d, 2026-11-25, '2026-11-25 14:03', 2026-11-25T14:03:11Z or @SECONDS";

static VALUED: [Valued; 15] = [
    Valued {
        option: "--half",
        allowed: Allowed::Within(4_096),
        why: b"1 to 4,096 blocks",
    },
    Valued {
        option: "--data",
        allowed: Allowed::Within(16_777_216),
        why: b"1 to 16,777,216 blocks",
    },
    Valued {
        option: "--text",
        allowed: Allowed::Text,
        why: b"it is empty",
    },
    Valued {
        option: "--kind",
        allowed: Allowed::One(&["core", "exec"]),
        why: b"neither core nor exec",
    },
    Valued {
        option: "--sort",
        allowed: Allowed::One(&["time", "size", "name"]),
        why: b"not time, size or name",
    },
    Valued {
        option: "--user",
        allowed: Allowed::Small,
        why: b"not the number of a user",
    },
    Valued {
        option: "--pid",
        allowed: Allowed::Small,
        why: b"not the number of a process",
    },
    Valued {
        option: "--signal",
        allowed: Allowed::Other,
        why: b"not a signal: a number, or a name such as SEGV",
    },
    Valued {
        option: "--since",
        allowed: Allowed::Other,
        why: NO_TIME,
    },
    Valued {
        option: "--until",
        allowed: Allowed::Other,
        why: NO_TIME,
    },
    Valued {
        option: "--cores",
        allowed: Allowed::Number,
        why: NO_NUMBER,
    },
    Valued {
        option: "--keep",
        allowed: Allowed::Number,
        why: NO_NUMBER,
    },
    Valued {
        option: "--bytes",
        allowed: Allowed::Number,
        why: NO_NUMBER,
    },
    Valued {
        option: "--before",
        allowed: Allowed::Number,
        why: b"not seconds since 1970",
    },
    Valued {
        option: "--length",
        allowed: Allowed::Number,
        why: NO_NUMBER,
    },
];

// A word that can't be read: its option if it has one, and why.
#[derive(Clone, Copy)]
struct Wrong<'a> {
    option: &'static str,
    word: &'a str,
    why: &'static [u8],
}

/// The first of `--half` and `--data` whose value is no number of blocks. One with a sign could be meant as a change of their number.
pub fn option_without_blocks(words: &[String]) -> Option<&'static str> {
    if !takes_blocks(words.first()?) {
        return None;
    }
    for option in ["--half", "--data"] {
        match value_of(words, option) {
            Some(value) if parse_number(value.as_bytes()).is_none() => return Some(option),
            _ => {}
        }
    }
    None
}

fn takes_blocks(command: &str) -> bool {
    matches!(command, "format" | "memory" | "copy" | "resize" | "salvage")
}

/// Prints which word of a command that was refused as `BadLine` or `BadShape` can't be read, if the words alone say so, and whether they do.
pub fn print_wrong_word<E: Output>(words: &[String], errors: &mut E) -> bool {
    let Some(wrong) = wrong_word(words) else {
        return false;
    };
    let mut reply = Reply::new(errors);
    reply.print(b"corekeep: ");
    reply.print(wrong.option.as_bytes());
    if !wrong.option.is_empty() && !wrong.word.is_empty() {
        reply.print(b" ");
    }
    if !wrong.word.is_empty() {
        print_word(&mut reply, wrong.word);
    }
    reply.print(b": ");
    reply.print(wrong.why);
    reply.print(b"\n");
    let _ = reply.finish();
    true
}

fn wrong_word(words: &[String]) -> Option<Wrong<'_>> {
    match words.first()?.as_str() {
        "info" if words.iter().any(|word| word.as_str() == "--metrics") => Some(Wrong {
            option: "--metrics",
            word: "",
            why: b"it takes no CASE",
        }),
        "store" => wrong_pair(words).or(wrong_value(words)),
        "list" | "search" | "groups" | "prune" => wrong_value(words),
        "format" | "memory" | "copy" | "resize" => wrong_value(words),
        _ => None,
    }
}

// The first pair of `store` that can't be read. A word behind an option may be its value, and is passed over. ARCHIVE and FILE come
// before the pairs.
fn wrong_pair(words: &[String]) -> Option<Wrong<'_>> {
    let escapes = words.iter().any(|word| word.as_str() == "--escape");
    let mut is_value = false;
    let mut before = 2u32;
    for word in words.iter().skip(1) {
        let was_value = is_value;
        is_value = word.starts_with("--") && !word.contains('=');
        if was_value || word.starts_with("--") {
            continue;
        }
        if before > 0 && !word.contains('=') {
            before -= 1;
            continue;
        }
        if let Some(why) = fault_of_pair(word, escapes) {
            return Some(Wrong {
                option: "",
                word: word.as_str(),
                why,
            });
        }
    }
    None
}

// Why a word can't be read as a pair, if it can't. A space in a VALUE can if it is escaped.
fn fault_of_pair(word: &str, escapes: bool) -> Option<&'static [u8]> {
    let Some((key, value)) = word.split_once('=') else {
        return Some(b"not KEY=VALUE");
    };
    match key {
        "comm" | "exe" | "host" if value.contains(' ') && !escapes => Some(
            b"a space in a VALUE needs --escape",
        ),
        "comm" | "exe" | "host" => None,
        "pid" | "tid" | "sig" | "uid" | "gid" | "mode" | "time" | "limit" => {
            if parse_number(value.as_bytes()).is_none() {
                Some(NO_NUMBER)
            } else {
                None
            }
        }
        _ => Some(
            b"unknown KEY: it is comm, exe, host, pid, tid, sig, uid, gid, mode, time or limit",
        ),
    }
}

// The value of an option that can't be read, if it is the only one of which that may be so.
fn wrong_value(words: &[String]) -> Option<Wrong<'_>> {
    let mut found = None;
    for valued in &VALUED {
        let Some(value) = value_of(words, valued.option) else {
            continue;
        };
        if may_stand(&valued.allowed, value) {
            continue;
        }
        if found.is_some() {
            return None;
        }
        found = Some(Wrong {
            option: valued.option,
            word: value,
            why: valued.why,
        });
    }
    found
}

// The value of an option, if it is there.
fn value_of<'a>(words: &'a [String], option: &str) -> Option<&'a str> {
    let mut is_next = false;
    for word in words {
        if is_next {
            return Some(word.as_str());
        }
        is_next = word.as_str() == option;
        if let Some(behind) = word.strip_prefix(option) {
            if let Some(value) = behind.strip_prefix('=') {
                return Some(value);
            }
        }
    }
    None
}

// Whether a value is certainly what may stand there.
fn may_stand(allowed: &Allowed, value: &str) -> bool {
    match allowed {
        Allowed::Number => parse_number(value.as_bytes()).is_some(),
        Allowed::Small => parse_u32(value.as_bytes()).is_some(),
        Allowed::Within(most) => parse_number_within(value.as_bytes(), 1, *most).is_some(),
        Allowed::One(words) => words.contains(&value),
        Allowed::Text => !value.is_empty(),
        Allowed::Other => false,
    }
}
