// The rows of the lines that ask an image, by the kind of each word.

/// The rows of a line of a script.
pub struct LineRows {
    /// The first word of the line.
    pub name: &'static str,
    /// Its rows, one for each form that they have. A word in angle brackets is a field: `<pid>` is a number or a word, `<name:text>` a
    /// text as a script prints it, `<where:place>` a place in a function or `?`, and `<bytes:digits>` hexadecimal digits.
    /// `<name:auxv>` is a type of the auxiliary vector, by its name or its number. Any other word is in the row as it is. A row is of the first form that it has.
    pub rows: &'static [&'static str],
}

/// The rows of the lines that ask headers and notes. They are two tables: one of all is too large for the prover.
static IMAGE_ROWS: [LineRows; 9] = [
    LineRows {
        name: "header",
        rows: &[
            "type <type> entry <entry> flags <flags> segments <segments>",
            "<segment> <type> <flags> <offset> <vaddr> <filesz> <memsz>",
        ],
    },
    LineRows {
        name: "notes",
        rows: &["<note> <name:text> <type> <length>"],
    },
    LineRows {
        name: "threads",
        rows: &["<thread> <tid> <signal> <pc>"],
    },
    LineRows {
        name: "regs",
        rows: &["<name> <value>"],
    },
    LineRows {
        name: "process",
        rows: &[
            "pid <pid> ppid <ppid> pgrp <pgrp> sid <sid>",
            "uid <uid> gid <gid>",
            "state <state> <sname:text> zomb <zomb> nice <nice> flag <flag>",
            "name <name:text>",
            "args <args:text>",
        ],
    },
    LineRows {
        name: "signal",
        rows: &[
            "signo <signo> <name> errno <errno> code <code>",
            "addr <addr>",
            "pid <pid> uid <uid>",
        ],
    },
    LineRows {
        name: "auxv",
        rows: &["<name:auxv> <value>"],
    },
    LineRows {
        name: "files",
        rows: &["<start> <past> <offset> <name:text>"],
    },
    LineRows {
        name: "maps",
        rows: &["<start> <past> <flags> <filesz> <offset> <name:text>"],
    },
];

/// The same of the lines that ask memory, frames, symbols and source lines.
static MEMORY_ROWS: [LineRows; 13] = [
    LineRows {
        name: "dump",
        rows: &[
            "<addr> file <file:digits>",
            "<addr> notdumped <notdumped> <offset> <name:text>",
            "<addr> cut <cut>",
            "<addr> unmapped <unmapped>",
            "<addr> <bytes:digits>",
        ],
    },
    LineRows {
        name: "at",
        rows: &[
            "at <addr> <start> <past> <flags> <source>",
            "file <offset> <name:text>",
            "function <where:place>",
            "stack <thread>",
        ],
    },
    LineRows {
        name: "find",
        rows: &["<addr>"],
    },
    LineRows {
        name: "strings",
        rows: &["<addr> <length> <text:text>"],
    },
    LineRows {
        name: "bt",
        rows: &[
            "<frame> <pc> <where:place> fp <fp> ra <ra>",
            "<frame> <pc> <where:place> fp <fp>",
            "stop <stop>",
        ],
    },
    LineRows {
        name: "unwind",
        rows: &[
            "<frame> <pc> <where:place> sp <sp> ra <ra>",
            "<frame> <pc> <where:place> sp <sp>",
            "stop <stop> <field> <entry>",
            "stop <stop>",
        ],
    },
    LineRows {
        name: "lines",
        rows: &[
            "<frame> <pc> <where:place> <file:place> <line>",
            "stop <stop> <field> <entry>",
            "stop <stop>",
        ],
    },
    LineRows {
        name: "frame",
        rows: &["<name> <value>"],
    },
    LineRows {
        name: "builds",
        rows: &["<name:text> <core:digits> <stored:digits> <verdict>"],
    },
    LineRows {
        name: "used",
        rows: &["<name:text> <case> <how> <debug>"],
    },
    LineRows {
        name: "wants",
        rows: &["<name:text> <id:digits>"],
    },
    LineRows {
        name: "symbol",
        rows: &["<name:text> <value> <size>"],
    },
    LineRows {
        name: "line",
        rows: &["<file:text> <line>"],
    },
];

/// The rows of the line that begins with this word; none if it is no line that asks an image.
pub fn rows_of(word: &str) -> &'static [&'static str] {
    match IMAGE_ROWS.iter().find(|line| line.name == word) {
        Some(line) => line.rows,
        None => memory_rows_of(word),
    }
}

fn memory_rows_of(word: &str) -> &'static [&'static str] {
    match MEMORY_ROWS.iter().find(|line| line.name == word) {
        Some(line) => line.rows,
        None => &[],
    }
}
