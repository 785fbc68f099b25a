// Why a call on an archive's file failed, in words for people.
use crate::contexts::{Context, meaning_of_words};
use crate::wrong_words::{asked_case, print_word};
use diagnostics::{Call, Trouble};
use script_streams::{Output, Reply};

// An error of the system: its number on Linux (errno(3)), its name, and its meaning.
struct SystemError {
    number: i32,
    name: &'static [u8],
    words: &'static [u8],
}

// The errors that calls on files are likely to meet.
static ERRORS: [SystemError; 9] = [
    SystemError {
        number: 5,
        name: b"EIO",
        words: b"the device failed",
    },
    SystemError {
        number: 9,
        name: b"EBADF",
        words: b"the file is not open for that",
    },
    SystemError {
        number: 19,
        name: b"ENODEV",
        words: b"the device is gone",
    },
    SystemError {
        number: 27,
        name: b"EFBIG",
        words: b"the process may not write so far into a file: ulimit -f",
    },
    SystemError {
        number: 28,
        name: b"ENOSPC",
        words: b"the file system is full",
    },
    SystemError {
        number: 30,
        name: b"EROFS",
        words: b"the file system is read-only",
    },
    SystemError {
        number: 116,
        name: b"ESTALE",
        words: b"the file server has the file no longer",
    },
    SystemError {
        number: 117,
        name: b"EUCLEAN",
        words: b"the file system is damaged",
    },
    SystemError {
        number: 122,
        name: b"EDQUOT",
        words: b"the quota is used up",
    },
];

/// Prints the meaning of a reason after this work of these words. If the disk failed, now or before, so that the archive
/// is stopped, and the call of the system is known that failed, that is printed with the system's reason. If the path of the
/// archive is given, it stands instead of ARCHIVE, and a case that the words ask for stands instead of CASE.
pub fn print_meaning<O: Output>(
    reply: &mut Reply<'_, O>,
    context: Context,
    words: &[String],
    reason: &[u8],
    trouble: Option<Trouble>,
    path: Option<&str>,
) {
    match trouble {
        Some(trouble) if reason == b"Disk".as_slice() || reason == b"Stopped".as_slice() => {
            print_trouble(reply, trouble);
        }
        _ => print_about(
            reply,
            meaning_of_words(context, words, reason),
            path,
            asked_case(words),
        ),
    }
}

// Prints a meaning about the archive at this path and about the case of this name, if they are given.
fn print_about<O: Output>(
    reply: &mut Reply<'_, O>,
    meaning: &[u8],
    path: Option<&str>,
    case: Option<&str>,
) {
    let mut space: &[u8] = b"";
    for word in meaning.split(|byte| *byte == b' ') {
        reply.print(space);
        let given = if word == b"ARCHIVE".as_slice() {
            path
        } else if word == b"CASE".as_slice() {
            case
        } else {
            None
        };
        match given {
            Some(given) => print_word(reply, given),
            None => reply.print(word),
        }
        space = b" ";
    }
}

// Prints which call on the archive's file failed, and why.
fn print_trouble<O: Output>(reply: &mut Reply<'_, O>, trouble: Trouble) {
    let call: &[u8] = match trouble.call {
        Call::Read => b"a read",
        Call::Write => b"a write",
        Call::Sync => b"a sync",
    };
    reply.print(call);
    reply.print(b" of the archive failed: ");
    match trouble.errno {
        Some(number) => print_error(reply, number),
        None => reply.print(b"the file is shorter than it was"),
    }
}

// Prints an error of the system by its name, or by its number if it is not one of these.
fn print_error<O: Output>(reply: &mut Reply<'_, O>, number: i32) {
    for error in &ERRORS {
        if error.number == number {
            reply.print(error.name);
            reply.print(b" (");
            reply.print(error.words);
            reply.print(b")");
            return;
        }
    }
    reply.print(b"errno ");
    reply.print_signed(i64::from(number));
}
