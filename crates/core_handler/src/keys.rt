// The keys of a configuration.
ghost use Rattle.std.specs.Prelude.{◌≡◌};
ghost use Rattle.toml.specs.View.{view};
ghost use Rattle.core_handler.specs.Keys as spec;

use crate::values::{age_in, burst_in, natural_in};
use toml::Value;

/// A key of a configuration.
#[derive(Clone, Copy, PartialEq, Eq)]
pub enum Key {
    /// The archive's file: a text.
    Archive,
    /// How many cases stay, not counting a new one: a number.
    Keep,
    /// How many bytes the images of the cases that stay have: a number.
    Bytes,
    /// How old a case may be: an age.
    Before,
    /// The most bytes of an image: a number.
    Limit,
    /// Cases go so that a core finds room, the oldest cores first: true or false.
    Fit,
    /// If cases go so, the first is a core of the user whose cores have the most blocks: true or false.
    Fair,
    /// A core that is too large, or finds no room, is cut: true or false.
    Cut,
    /// How many cores of one program are stored in how many seconds: a table of two numbers.
    Burst,
    /// A core whose process allows it less than a page is lost: true or false.
    ObeyLimit,
    /// How cores are named, a template of core(5): a text.
    Template,
    /// Names get a dot and the process if their template has no `%p`: true or false.
    UsesPid,
    /// A core is refused if another process has the archive: true or false.
    NoWait,
    /// For how many seconds a non-blocking input may give nothing: a number.
    Stall,
    /// The label of each new case: a text.
    Label,
    /// The file to which each outcome is logged: a text.
    Log,
    /// The directory into which a core goes first: a text.
    Spool,
    /// The most bytes of the cores in that directory: a number.
    SpoolBytes,
}

/// The fault of an entry of a configuration.
#[derive(Clone, Copy, PartialEq, Eq)]
pub enum Fault {
    /// There is no such key.
    Unknown,
    /// The value is no text.
    NotText,
    /// The value is no number from 0 on.
    NotNumber,
    /// The value is neither true nor false.
    NotFlag,
    /// The value is no age: a text of a number and `s`, `m`, `h` or `d`.
    NotAge,
    /// The value is no table with the numbers `most` and `seconds`.
    NotBurst,
}

// The key that is written so.
fn key_of(word: &str) -> Option<Key>
    ensures { result ≡ spec.key_of word.now }
{
    match word {
        "archive" => Some(Key::Archive),
        "keep" => Some(Key::Keep),
        "bytes" => Some(Key::Bytes),
        "before" => Some(Key::Before),
        "limit" => Some(Key::Limit),
        "fit" => Some(Key::Fit),
        "fair" => Some(Key::Fair),
        "cut" => Some(Key::Cut),
        "burst" => Some(Key::Burst),
        "obey-limit" => Some(Key::ObeyLimit),
        "template" => Some(Key::Template),
        "uses-pid" => Some(Key::UsesPid),
        "no-wait" => Some(Key::NoWait),
        "stall" => Some(Key::Stall),
        "label" => Some(Key::Label),
        "log" => Some(Key::Log),
        "spool" => Some(Key::Spool),
        "spool-bytes" => Some(Key::SpoolBytes),
        _ => None,
    }
}

// A value that is missing is this fault.
fn unless_there(fault: Fault, is_there: bool) -> Option<Fault>
    ensures { result ≡ spec.unless fault is_there }
{
    if is_there { None } else { Some(fault) }
}

/// The fault of an entry, if it has any: there is no such key, or its value is of another type.
pub fn entry_fault(word: &str, value: &Value) -> Option<Fault>
    ensures { result ≡ spec.entry_fault word.now (view value.now) }
{
    let Some(key) = key_of(word) else {
        return Some(Fault::Unknown);
    };
    match key {
        Key::Archive | Key::Template | Key::Label | Key::Log | Key::Spool => {
            unless_there(Fault::NotText, value.as_str().is_some())
        }
        Key::Keep | Key::Bytes | Key::Limit | Key::Stall | Key::SpoolBytes => {
            unless_there(Fault::NotNumber, natural_in(value).is_some())
        }
        Key::Before => unless_there(Fault::NotAge, age_in(value).is_some()),
        Key::Burst => unless_there(Fault::NotBurst, burst_in(value).is_some()),
        Key::Fit | Key::Fair | Key::Cut | Key::ObeyLimit | Key::UsesPid | Key::NoWait => {
            unless_there(Fault::NotFlag, value.as_bool().is_some())
        }
    }
}
