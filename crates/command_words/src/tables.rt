// The program's commands and their words, as tables.
use crate::care_tables::QUIET;

// The value that replaces a word.
#[derive(Clone, Copy)]
pub(crate) enum Takes {
    // A word that must be there.
    Place,
    // A word that may be left out.
    NewPlace,
    // At least so many words.
    Words(usize),
    // Its name, or nothing.
    Flag,
    // The same, and not beside `--json`.
    FlagWithoutJson,
    // The same, and only beside `--build`.
    FlagWithBuild,
    // A text after its name.
    Text,
    // The same, and only beside `--build`.
    TextWithBuild,
    // The same, and not beside `--template`.
    TextWithoutTemplate,
    // The same, and beside neither `--cut` nor `--spool`.
    TextOfWhole,
    // A number below 2^32 after its name, which must be there.
    Blocks,
    // A number after its name, from one to another.
    Within(i64, i64),
    // A number below 2^64 after its name.
    Bytes,
}

// A number below 2^32 after its name, which may be left out.
pub(crate) const NEW_BLOCKS: Takes = Takes::Within(0, 4_294_967_295);

// A word of a command: its name in the program, its value in the help, and its value if it is left out.
pub(crate) struct Word {
    pub(crate) id: &'static str,
    pub(crate) shown: &'static str,
    pub(crate) takes: Takes,
    pub(crate) default: Option<&'static str>,
    pub(crate) help: &'static str,
}

// A command.
pub(crate) struct CommandWords {
    pub(crate) name: &'static str,
    pub(crate) about: &'static str,
    // The text that help shows after its words.
    pub(crate) after_help: Option<&'static str>,
    pub(crate) words: &'static [Word],
}

pub(crate) static FORMAT: CommandWords = CommandWords {
    name: "format",
    about: "Make an archive in a new file, with no case in it",
    after_help: None,
    words: &[NEW_ARCHIVE, SPARSE, LAYOUT, HALF, DATA, QUIET],
};

pub(crate) static RUN: CommandWords = CommandWords {
    name: "run",
    about: "Run the script on standard input over an archive, and write its replies to standard output",
    after_help: None,
    words: &[ARCHIVE, NO_WAIT, TEMPLATE, USES_PID, LIMIT, BUILDS],
};

pub(crate) static STORE: CommandWords = CommandWords {
    name: "store",
    about: "Store a core file as a case of an archive, named by the template, or an executable",
    after_help: None,
    words: &[
        ARCHIVE, FILE, PAIRS, EXEC, CORE_NAME, PIN, LABEL, ESCAPE, KEEP, BYTES, BEFORE, FIT, FAIR,
        CUT, NO_WAIT, TEMPLATE, USES_PID, LIMIT, LOG, QUIET, LENGTH, SHA256, STALL, SPOOL, BUILD,
        ID, DEBUG,
    ],
};

pub(crate) static HANDLE: CommandWords = CommandWords {
    name: "handle",
    about: "Store a core from standard input by a configuration, and log the outcome: the kernel's handler",
    after_help: None,
    words: &[HANDLER_PAIRS, HANDLER_ARCHIVE, CHECK, FLUSH, LENGTH, STALL],
};

pub(crate) static LOOK: CommandWords = CommandWords {
    name: "look",
    about: "Answer the lines on standard input that change nothing, while others may store cores",
    after_help: Some(
        "It ends with its input: on a terminal, with Ctrl-D. `ask --help` lists the lines.",
    ),
    words: &[ARCHIVE, NO_WAIT, BUILDS],
};

pub(crate) static EXTRACT: CommandWords = CommandWords {
    name: "extract",
    about: "Write the image of a case, byte for byte, and nothing else; a refusal goes to standard error",
    after_help: None,
    words: &[ARCHIVE, CASE, NEW_FILE, NO_WAIT, QUIET],
};

pub(crate) static MEMORY: CommandWords = CommandWords {
    name: "memory",
    about: "Run the script on standard input over a fresh archive in memory, which is gone at its end",
    after_help: None,
    words: &[HALF, DATA, TEMPLATE, USES_PID, LIMIT, BUILDS],
};

// The file of an archive to be made.
const NEW_ARCHIVE: Word = Word {
    id: "archive",
    shown: "ARCHIVE",
    takes: Takes::Place,
    default: None,
    help: "The file to make, which only its owner may read and write; a file that exists is refused",
};

// The file of an archive.
pub(crate) const ARCHIVE: Word = Word {
    id: "archive",
    shown: "ARCHIVE",
    takes: Takes::Place,
    default: None,
    help: "The archive's file",
};

// Whether the file's zeros are left out.
const SPARSE: Word = Word {
    id: "sparse",
    shown: "",
    takes: Takes::Flag,
    default: None,
    help: "Do not write the file's zeros: quick, but the file system may be full when a core arrives",
};

// The version of the layout.
const LAYOUT: Word = Word {
    id: "layout",
    shown: "VERSION",
    takes: Takes::Within(1, 2),
    default: Some("1"),
    help: "The version of the layout: 1, which older programs open too, or 2, which keeps labels",
};

// The blocks in each half of the journal.
const HALF: Word = Word {
    id: "half",
    shown: "N",
    takes: Takes::Blocks,
    default: None,
    help: "Blocks of 4096 bytes in each half of the journal, 1 to 4096",
};

// The data blocks.
const DATA: Word = Word {
    id: "data",
    shown: "N",
    takes: Takes::Blocks,
    default: None,
    help: "Data blocks of 4096 bytes, 1 to 16777216",
};

// Whether to be refused if another process has the archive.
pub(crate) const NO_WAIT: Word = Word {
    id: "no-wait",
    shown: "",
    takes: Takes::Flag,
    default: None,
    help: "Be refused (`no Busy`) if another process has the archive, instead of waiting for it",
};

// How executables are chosen.
pub(crate) const BUILDS: Word = Word {
    id: "builds",
    shown: "",
    takes: Takes::Flag,
    default: None,
    help: "For `dump`, `at`, `find`, `strings` and `bt`: also use executables that `store --build` stored, as `unwind` does. Without it they use only those that are stored by their paths (`store --exec`). `at`, `bt` and `symbol` name functions by debug files then too",
};

// How cores are named.
const TEMPLATE: Word = Word {
    id: "template",
    shown: "T",
    takes: Takes::Text,
    default: Some("core.%e.%p"),
    help: "How core files are named, a template of core(5)",
};

// Whether names have the process.
const USES_PID: Word = Word {
    id: "uses-pid",
    shown: "",
    takes: Takes::Flag,
    default: None,
    help: "Add a dot and the process to names whose template has no %p",
};

// The most bytes of an image.
const LIMIT: Word = Word {
    id: "limit",
    shown: "N",
    takes: Takes::Bytes,
    default: Some("1073741824"),
    help: "The most bytes that an image may have",
};

// The file to store.
const FILE: Word = Word {
    id: "file",
    shown: "FILE",
    takes: Takes::Place,
    default: None,
    help: "The file or pipe to store, or - for standard input",
};

// The facts of a core.
const PAIRS: Word = Word {
    id: "word",
    shown: "KEY=VALUE",
    takes: Takes::Words(0),
    default: None,
    help: "Facts about the core; KEY is comm, exe, host, pid, tid, sig, uid, gid, mode, time or limit; in a text, a byte outside 0x21 to 0x7e and a backslash are written \\xHH, unless --escape is given",
};

// The log of outcomes.
const LOG: Word = Word {
    id: "log",
    shown: "PATH",
    takes: Takes::Text,
    default: None,
    help: "Add a line to this file that says what became of FILE; the file is made if it does not exist; /dev/kmsg is the kernel's log",
};

// The configuration of a handler, and the facts of a core.
const HANDLER_PAIRS: Word = Word {
    id: "word",
    shown: "WORD",
    takes: Takes::Words(0),
    default: None,
    help: "The configuration's file [default: /etc/corekeep.conf], and then KEY=VALUE as `store --escape` takes them; an invalid pair is logged and ignored; after the first pair no word is an option",
};

// The archive of a handler.
const HANDLER_ARCHIVE: Word = Word {
    id: "archive",
    shown: "ARCHIVE",
    takes: Takes::Text,
    default: None,
    help: "The archive's file, if the configuration names none or can't be read",
};

// Whether a handler's configuration is printed, and nothing is stored.
const CHECK: Word = Word {
    id: "check",
    shown: "",
    takes: Takes::Flag,
    default: None,
    help: "Store nothing: print the meaning of the configuration, each fault with its line, and whether the archive is large enough",
};

// Whether the cores of the spool are stored, and none from the input.
const FLUSH: Word = Word {
    id: "flush",
    shown: "",
    takes: Takes::Flag,
    default: None,
    help: "Take no core from standard input: store the cores that wait in the configuration's spool, the oldest first",
};

// The name of an executable.
const EXEC: Word = Word {
    id: "exec",
    shown: "NAME",
    takes: Takes::Text,
    default: None,
    help: "Store an executable of this name instead of a core; a byte of the name outside 0x21 to 0x7e and a backslash are written \\xHH, unless --escape is given",
};

// The name of a core.
const CORE_NAME: Word = Word {
    id: "name",
    shown: "NAME",
    takes: Takes::TextWithoutTemplate,
    default: None,
    help: "Store the core under this name, and not as the template names it; its bytes are written as those of --exec",
};

// Whether the case is kept from retirement.
const PIN: Word = Word {
    id: "pin",
    shown: "",
    takes: Takes::Flag,
    default: None,
    help: "Pin the new case, so that nothing deletes it: for executables",
};

// The label of the case.
const LABEL: Word = Word {
    id: "label",
    shown: "TEXT",
    takes: Takes::Text,
    default: None,
    help: "Give the new case this label of at most 64 bytes; an archive of layout version 1 keeps no label, and stores the case anyway",
};

// Whether bytes are taken as they are.
const ESCAPE: Word = Word {
    id: "escape",
    shown: "",
    takes: Takes::Flag,
    default: None,
    help: "Take the bytes of each VALUE, of NAME and of TEXT as they are, since a process may call itself anything",
};

// How many cases stay, not counting the new one.
const KEEP: Word = Word {
    id: "keep",
    shown: "K",
    takes: Takes::Text,
    default: None,
    help: "First delete the oldest unpinned cases, until at most K are left beside the new one",
};

// How many bytes the cases that stay have.
const BYTES: Word = Word {
    id: "bytes",
    shown: "B",
    takes: Takes::Text,
    default: None,
    help: "First delete the oldest unpinned cases, until the rest have at most B bytes together",
};

// The time before which cases go.
const BEFORE: Word = Word {
    id: "before",
    shown: "T",
    takes: Takes::Text,
    default: None,
    help: "First delete the unpinned cases whose time is before T",
};

// Whether cases go while it is stored.
const FIT: Word = Word {
    id: "fit",
    shown: "",
    takes: Takes::Flag,
    default: None,
    help: "Delete the oldest unpinned cores while FILE is stored, as often as it finds no room; executables go once no core is left",
};

// Whether they go in the fair order.
const FAIR: Word = Word {
    id: "fair",
    shown: "",
    takes: Takes::Flag,
    default: None,
    help: "With --fit, delete a core of the user whose cores have the most blocks, instead of the oldest",
};

// Whether a core that is too large is cut.
const CUT: Word = Word {
    id: "cut",
    shown: "",
    takes: Takes::Flag,
    default: None,
    help: "Keep the first bytes of FILE, if it has more than the limit or finds no room",
};

// A case.
const CASE: Word = Word {
    id: "case",
    shown: "N",
    takes: Takes::Place,
    default: None,
    help: "The case: its number, its name, last or latest",
};

// A new file for an image.
const NEW_FILE: Word = Word {
    id: "file",
    shown: "FILE",
    takes: Takes::NewPlace,
    default: None,
    help: "A new file for the image, or - for standard output [default: -]",
};

// How many bytes FILE has.
const LENGTH: Word = Word {
    id: "length",
    shown: "N",
    takes: Takes::Text,
    default: None,
    help: "Store the file or the core only if it has exactly N bytes (otherwise `no Short` or `no TooLong`)",
};

// The digest that FILE has.
const SHA256: Word = Word {
    id: "sha256",
    shown: "HEX",
    takes: Takes::TextOfWhole,
    default: None,
    help: "Store FILE only if its bytes have this SHA-256, 64 hexadecimal digits (otherwise `no Differs`); a part of FILE has another one, so it goes without --cut, and without --spool, which would store FILE later without it",
};

// For how long standard input may give nothing.
const STALL: Word = Word {
    id: "stall",
    shown: "SECONDS",
    takes: Takes::Text,
    default: None,
    help: "Give up (`no File`) once standard input gave nothing for SECONDS, if it is a pipe or a socket that is non-blocking",
};

// The spool that a core goes to first.
const SPOOL: Word = Word {
    id: "spool",
    shown: "DIR",
    takes: Takes::Text,
    default: None,
    help: "Take a core that comes through a pipe into a file of this directory first, and store it from there: a slow sender keeps nobody waiting, and a core that the archive can't take now stays there until `handle --flush` stores it",
};

// Whether it is stored by its build ID.
const BUILD: Word = Word {
    id: "build",
    shown: "",
    takes: Takes::Flag,
    default: None,
    help: "Store an executable, a library or a debug file under the name that its build ID gives (.build-id/ab/cdef..): cores that mapped this build use it, whatever its path was",
};

// The build ID that it must have.
const ID: Word = Word {
    id: "id",
    shown: "ID",
    takes: Takes::TextWithBuild,
    default: None,
    help: "With --build, store FILE only if it has this build ID, in hexadecimal digits (otherwise `no OtherBuild`)",
};

// Whether it is stored as a debug file.
const DEBUG: Word = Word {
    id: "debug",
    shown: "",
    takes: Takes::FlagWithBuild,
    default: None,
    help: "With --build, store FILE as the debug file of its build, even if it has code",
};
