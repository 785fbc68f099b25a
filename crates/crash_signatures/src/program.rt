//! The program that crashed.
ghost use Rattle.std.specs.Prelude.{◌≡◌, ◌+◌, ◌<◌, ◌≤◌, ◌++◌, false, length};
ghost use Rattle.std.specs.Option.{option_map};
ghost use Rattle.arrayvec.specs.ArrayVec.{array_vec_len};
ghost use Rattle.crash_signatures.specs.Program as spec;
ghost use Rattle.crash_signatures.specs.ProgramViews.{facts_said, program_said};

use crate::names::without_deleted;
use crate::words::{Text, front};

/// The facts about the program that a core and its case give.
#[derive(Clone, Copy)]
pub struct ProgramFacts<'a> {
    /// The path of the file that is mapped at AT_ENTRY, by NT_FILE.
    pub entry: Option<&'a [u8]>,
    /// The process's name, by NT_PRPSINFO.
    pub process: Option<&'a [u8]>,
    /// The program in the case's name, by the template of the handler's names.
    pub template: Option<&'a [u8]>,
    /// The case's name.
    pub case_name: &'a [u8],
}

/// The program that crashed.
#[derive(Drop)]
pub enum Program<'a> {
    /// A path or a name that is known.
    Known(&'a [u8]),
    /// A case's name, with `#` for each number in it.
    ByCase(Text),
}

/// The program of a core: the path of the file at its entry, without ` (deleted)`; else
/// its process's name; else the program in the case's name; else the first 256 bytes of
/// the case's name, with `#` for each number in them. An empty text counts as unknown.
pub fn program_of<'a>(facts: &ProgramFacts<'a>) -> Program<'a>
    ensures { program_said result ≡ spec.program_of (facts_said facts.now) }
{
    match known_name(facts) {
        Some(name) => Program::Known(name),
        None => Program::ByCase(without_numbers(front(facts.case_name, 256))),
    }
}

// The first of the names that is known.
fn known_name<'a>(facts: &ProgramFacts<'a>) -> Option<&'a [u8]>
    ensures { option_map (λ name. name.now) result ≡ spec.known_name (facts_said facts.now) }
{
    if let Some(path) = facts.entry {
        let path = without_deleted(path);
        if !path.is_empty() {
            return Some(path);
        }
    }
    process_name(facts)
}

fn process_name<'a>(facts: &ProgramFacts<'a>) -> Option<&'a [u8]>
    ensures { option_map (λ name. name.now) result ≡ spec.process_name (facts_said facts.now) }
{
    if let Some(name) = facts.process {
        if !name.is_empty() {
            return Some(name);
        }
    }
    facts.template.filter(|name| !name.is_empty())
}

// A name with `#` for each number in it.
fn without_numbers(name: &[u8]) -> Text
    requires { length name.now ≤ 256 }
    ensures { result.items ≡ spec.without_numbers false name.now }
{
    let mut text = Text::new();
    let mut is_behind = false;
    for byte in name {
        add_byte(&mut text, *byte, is_behind);
        is_behind = byte.is_ascii_digit();
    }
    text
}

// Appends a byte, or `#` for the first digit of a number.
fn add_byte(text: &mut Text, byte: u8, is_behind: bool)
    requires { array_vec_len text.old < 256 }
    ensures value { text.new.items ≡ text.old.items ++ spec.shown is_behind byte }
    ensures count { array_vec_len text.new ≤ array_vec_len text.old + 1 }
{
    if !byte.is_ascii_digit() {
        text.push(byte);
    } else if !is_behind {
        text.push(b'#');
    }
}
