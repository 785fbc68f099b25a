// The file of a handler's configuration.
use crate::{Fault, entry_fault};
use archive_files::Collected;
use script_streams::Reply;
use std::alloc::{AllocError, Global};
use std::fs;
use std::fs::File;
use std::io::ErrorKind;
use std::rt::Files;
use toml::{Table, Value};

// The configuration of a handler whose words name none.
pub(crate) const DEFAULT_CONFIG: &str = "/etc/corekeep.conf";

// A configuration: its text, and its values.
#[derive(Drop)]
pub(crate) struct Document {
    pub(crate) text: String,
    pub(crate) value: Value,
    // The fault of the file as a whole, and its line.
    pub(crate) trouble: Option<Trouble>,
}

// Why a file is no configuration.
#[derive(Clone, Copy, PartialEq, Eq)]
pub(crate) enum Trouble {
    // The file is missing.
    Missing,
    // It could not be read, or is not UTF-8.
    Unreadable,
    // It is no TOML, from this line on.
    NotToml(usize),
}

// A document with nothing in it.
fn nothing(alloc: Global, trouble: Option<Trouble>) -> Document {
    Document {
        text: String::new(alloc),
        value: Value::Table(Table::new(alloc)),
        trouble,
    }
}

// Reads a configuration. One that can't be read sets nothing.
pub(crate) fn read_document<R: AllocGlobal + Files<File = File>>(rt: &R, path: &str) -> Document {
    match fs::read_to_string(rt, path) {
        Ok(text) => parse(rt.alloc(), text),
        Err(error) if error.kind() == ErrorKind::NotFound => {
            nothing(rt.alloc(), Some(Trouble::Missing))
        }
        Err(_) => nothing(rt.alloc(), Some(Trouble::Unreadable)),
    }
}

fn parse(alloc: Global, text: String) -> Document {
    match toml::table_from_str(alloc, text.as_str()) {
        Ok(table) => Document {
            text,
            value: Value::Table(table),
            trouble: None,
        },
        Err(error) => {
            let line = match error.span() {
                Some(span) => line_at(&text, span.start),
                None => 0,
            };
            nothing(alloc, Some(Trouble::NotToml(line)))
        }
    }
}

// The number of the line that has this place, from 1 on.
fn line_at(text: &str, at: usize) -> usize {
    let front = &text.as_bytes()[..at.min(text.len())];
    1 + front.iter().filter(|byte| **byte == b'\n').count()
}

// The number of the line on which a key is, from 1 on; 0 if it is on none.
fn line_of(text: &str, key: &str) -> usize {
    for (index, line) in text.lines().enumerate() {
        if begins_with_key(line, key) {
            return index + 1;
        }
    }
    0
}

fn begins_with_key(line: &str, key: &str) -> bool {
    match line.trim_start().strip_prefix(key) {
        Some(rest) => rest.trim_start().starts_with('='),
        None => false,
    }
}

// The fault of an entry, in words.
fn fault_words(fault: Fault) -> &'static [u8] {
    match fault {
        Fault::Unknown => b"is an unknown key",
        Fault::NotText => b"is no text",
        Fault::NotNumber => b"is no number from 0 on",
        Fault::NotFlag => b"is neither true nor false",
        Fault::NotAge => b"is no age, as \"30d\", \"12h\", \"45m\" or \"90s\"",
        Fault::NotBurst => b"is no table of two numbers, as { most = 3, seconds = 60 }",
    }
}

// One line on a fault: the file, the line, the key if it is one's, and the fault.
fn fault_line(
    alloc: Global,
    path: &str,
    line: usize,
    key: Option<&str>,
    words: &[u8],
) -> Collected {
    let mut told = Collected::new(alloc);
    let mut reply = Reply::new(&mut told);
    reply.print_text(path.as_bytes());
    if line > 0 {
        reply.print(b": line ");
        reply.print_decimal(line as u128);
    }
    reply.print(b": ");
    if let Some(key) = key {
        reply.print_text(key.as_bytes());
        reply.print(b" ");
    }
    reply.print(words);
    let _ = reply.finish();
    told
}

// The fault of the file as a whole.
fn line_on(alloc: Global, path: &str, trouble: Trouble) -> Collected {
    match trouble {
        Trouble::Missing => fault_line(alloc, path, 0, None, b"there is no such file"),
        Trouble::Unreadable => fault_line(alloc, path, 0, None, b"the file could not be read"),
        Trouble::NotToml(line) => fault_line(
            alloc,
            path,
            line,
            None,
            b"the file is not valid TOML, so all of it is ignored, with the archive's name",
        ),
    }
}

impl Document {
    // A line on the fault of the file as a whole, if it has one.
    pub(crate) fn trouble_line(&self, alloc: Global, path: &str) -> Option<Collected> {
        Some(line_on(alloc, path, self.trouble?))
    }

    // A line for each bad entry.
    pub(crate) fn faults(&self, alloc: Global, path: &str) -> Result<Vec<Collected>, AllocError> {
        let mut faults = Vec::new(alloc);
        let Some(table) = self.value.as_table() else {
            return Ok(faults);
        };
        for (key, value) in table {
            if let Some(fault) = entry_fault(key, value) {
                let line = line_of(&self.text, key);
                let words = fault_words(fault);
                faults.push(fault_line(alloc, path, line, Some(key), words))?;
            }
        }
        Ok(faults)
    }
}
