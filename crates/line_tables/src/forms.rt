// The forms of the parts of a directory or a file name.
ghost use Rattle.std.specs.Prelude.{◌≡◌};
ghost use Rattle.std.specs.Option.{option_map};
ghost use Rattle.line_tables.specs.EntryWords.{strings_view};
ghost use Rattle.line_tables.specs.Forms as spec;

use crate::texts::{number, split, text, text_at};
use call_frames::{sized, uleb};

/// The content of a form.
#[derive(Clone, Copy)]
pub(crate) enum Kind {
    /// A text.
    Text,
    /// A number.
    Number,
    /// Bytes that are neither.
    Opaque,
}

/// The sections that texts are in.
#[derive(Clone, Copy)]
pub(crate) struct Strings<'a> {
    pub(crate) debug_line_str: &'a [u8],
    pub(crate) debug_str: &'a [u8],
}

/// The content of a form, if it is known.
#[tactic(auto, unfolding(crate::specs::Forms::kind_of))]
pub(crate) fn kind_of(form: u64) -> Option<Kind>
    ensures { result ≡ spec.kind_of form }
{
    match form {
        0x08 | 0x1f | 0x0e => Some(Kind::Text),
        0x0f | 0x0b | 0x05 | 0x06 | 0x07 => Some(Kind::Number),
        0x1e | 0x09 => Some(Kind::Opaque),
        _ => None,
    }
}

/// The text that a form has at the front, and the bytes after it.
#[tactic(auto, unfolding(crate::specs::Forms::text_value))]
pub(crate) fn text_value<'a>(
    strings: &Strings<'a>,
    form: u64,
    bytes: &'a [u8],
) -> Option<(&'a [u8], &'a [u8])>
    ensures { option_map (λ r. (r.0.now, r.1.now)) result ≡ spec.text_value (strings_view strings.now) form bytes.now }
{
    if form == 0x08 {
        return text(bytes);
    }
    let (place, rest) = number(4, bytes)?;
    let section = if form == 0x1f {
        strings.debug_line_str
    } else {
        strings.debug_str
    };
    let found = text_at(section, place)?;
    Some((found, rest))
}

/// The number that a form has at the front, and the bytes after it.
#[tactic(auto, unfolding(crate::specs::Forms::number_value))]
pub(crate) fn number_value(form: u64, bytes: &[u8]) -> Option<(u64, &[u8])>
    ensures { option_map (λ r. (r.0, r.1.now)) result ≡ spec.number_value form bytes.now }
{
    match form {
        0x0b => number(1, bytes),
        0x05 => number(2, bytes),
        0x06 => number(4, bytes),
        0x07 => number(8, bytes),
        _ => uleb(bytes),
    }
}

/// The bytes that a form has at the front which is neither a text nor a number, and those after them.
pub(crate) fn opaque_value(form: u64, bytes: &[u8]) -> Option<(&[u8], &[u8])>
    ensures { option_map (λ r. (r.0.now, r.1.now)) result ≡ spec.opaque_value form bytes.now }
{
    if form == 0x1e {
        split(16, bytes)
    } else {
        sized(bytes)
    }
}
