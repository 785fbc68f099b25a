//! Templates, and the names that they give.
ghost use Rattle.std.specs.Prelude.{◌≡◌, ℕ, List, ◌++◌, ◌||◌, MatchResult};
ghost use Rattle.stream_names.specs.Expansion.{is_pid_part, part_text, letter_text, name_of};
ghost use Rattle.stream_names.specs.Naming.{KeepsText};

use crate::facts::Facts;
use crate::part::{Part, next_part};
use crate::text::{NameText, front_of};
use arrayvec::ArrayVec;
use thiserror::Error;

/// A file's name: 1 to 128 bytes, none of them NUL.
pub type Name = ArrayVec<u8, 128>;

/// Why a text is no template.
#[derive(Clone, Copy, PartialEq, Eq, Debug, Error)]
pub enum TemplateFault {
    /// It begins with `|`: cores would go to a program.
    #[error("the template begins with a pipe")]
    Pipe,
    /// It has more than 127 bytes.
    #[error("the template has more than 127 bytes")]
    TemplateTooLong,
}

/// Why a template gives no name.
#[derive(Clone, Copy, PartialEq, Eq, Debug, Error)]
pub enum NameFault {
    /// Its text has no byte.
    #[error("the name is empty")]
    Empty,
    /// Its text has more than 128 bytes.
    #[error("the name has more than 128 bytes")]
    TooLong,
    /// There is a NUL among its bytes.
    #[error("there is a NUL in the name")]
    NulByte,
}

/// A name template of core(5), "Naming of core dump files".
#[derive(Drop)]
pub struct Template {
    bytes: ArrayVec<u8, 127>,
}

impl Template {
    ghost use Rattle.stream_names.specs.Template.{template_fault};
    ghost use Rattle.stream_names.specs.Expansion.{expansion};
    ghost use Rattle.stream_names.specs.Naming.{template_bytes};

    /// The template of a text.
    ///
    /// # Errors
    ///
    /// `Pipe` if the text starts with `|`, else `TemplateTooLong` if it has more than 127 bytes.
    pub fn parse(text: &[u8]) -> Result<Self, TemplateFault>
        ensures { MatchResult result
            (λ template. (template_fault text.now ≡ None) × (template_bytes template ≡ text.now))
            (λ fault. template_fault text.now ≡ Some fault) }
    {
        if let [b'|', ..] = text {
            return Err(TemplateFault::Pipe);
        }
        let mut bytes = ArrayVec::new();
        match bytes.try_extend_from_slice(text) {
            Ok(()) => Ok(Template { bytes }),
            Err(_) => Err(TemplateFault::TemplateTooLong),
        }
    }

    /// The name that the template gives for a process. With `uses_pid` (core(5), core_uses_pid) `.` and the process are
    /// added at the end, unless a part of the template is `%p`.
    ///
    /// # Errors
    ///
    /// `Empty` if the text has no byte, else `TooLong` if it has more than 128, else `NulByte` if one is NUL.
    pub fn expand(&self, facts: &Facts<'_>, uses_pid: bool) -> Result<Name, NameFault>
        ensures { MatchResult result
            (λ name. name_of (expansion (template_bytes self.now) facts.now uses_pid) ≡ Ok name.items)
            (λ fault. name_of (expansion (template_bytes self.now) facts.now uses_pid) ≡ Err fault) }
    {
        let mut text = NameText::new();
        let mut shows_pid = false;
        let mut rest = self.bytes.as_slice();
        while let Some((part, after)) = next_part(rest) {
            shows_pid = shows_pid_with(shows_pid, part);
            add_part(&mut text, facts, part);
            rest = after;
        }
        if uses_pid && !shows_pid {
            text.add(b".");
            text.add_number(u64::from(facts.pid));
        }
        named(&text)
    }
}

// Whether a part is `%p`, or one before it was.
fn shows_pid_with(shown: bool, part: Part) -> bool
    ensures { result ≡ (shown || is_pid_part part) }
{
    match part {
        Part::Letter(letter) => shown || letter == b'p',
        Part::Lone => shown,
        Part::Plain(_) => shown,
    }
}

// Appends the text that a part gives.
fn add_part(text: &mut NameText, facts: &Facts<'_>, part: Part)
    ensures { (so_far : List ℕ) → KeepsText so_far text.old → KeepsText (so_far ++ part_text facts.now part) text.new }
{
    match part {
        Part::Letter(letter) => add_letter(text, facts, letter),
        Part::Lone => {}
        Part::Plain(byte) => text.add(&[byte]),
    }
}

// Appends the text that a letter gives.
fn add_letter(text: &mut NameText, facts: &Facts<'_>, letter: u8)
    ensures { (so_far : List ℕ) → KeepsText so_far text.old → KeepsText (so_far ++ letter_text facts.now letter) text.new }
{
    match letter {
        b'%' => text.add(b"%"),
        b'c' => text.add_number(facts.limit),
        b'd' => text.add_number(u64::from(facts.mode)),
        b'e' => text.add(front_of(facts.comm, 15)),
        b'E' => text.add_path(facts.exe),
        b'g' => text.add_number(u64::from(facts.gid)),
        b'h' => text.add(facts.host),
        b'i' => text.add_number(u64::from(facts.tid)),
        b'I' => text.add_number(u64::from(facts.tid)),
        b'p' => text.add_number(u64::from(facts.pid)),
        b'P' => text.add_number(u64::from(facts.pid)),
        b's' => text.add_number(u64::from(facts.signal)),
        b't' => text.add_number(facts.time),
        b'u' => text.add_number(u64::from(facts.uid)),
        _ => {}
    }
}

// The name that a text is.
fn named(text: &NameText) -> Result<Name, NameFault>
    ensures { (whole : List ℕ) → KeepsText whole text.now
        → MatchResult result (λ name. name_of whole ≡ Ok name.items) (λ fault. name_of whole ≡ Err fault) }
{
    if text.front.is_empty() {
        return Err(NameFault::Empty);
    }
    let mut name = ArrayVec::new();
    let Ok(()) = name.try_extend_from_slice(text.front.as_slice()) else {
        return Err(NameFault::TooLong);
    };
    if name.as_slice().contains(&0) {
        return Err(NameFault::NulByte);
    }
    Ok(name)
}
