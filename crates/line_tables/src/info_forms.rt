// The values of attributes.
ghost use Rattle.std.specs.Prelude.{◌≡◌, ◌⊎◌};
ghost use Rattle.std.specs.Option.{option_map};
ghost use Rattle.line_tables.specs.InfoForms as spec;

use crate::texts::{number, split, text};
use call_frames::{sized, sleb, uleb};

/// The form of a value whose form is in front of it.
const DW_FORM_INDIRECT: u64 = 0x16;

/// The rule for the end of a form's value.
#[derive(Clone, Copy)]
pub(crate) enum Shape {
    /// It has as many bytes.
    Fixed(u64),
    /// A length in one byte, and as many bytes.
    Block1,
    /// A length in two bytes, and as many bytes.
    Block2,
    /// A length in four bytes, and as many bytes.
    Block4,
    /// A length as a ULEB128, and as many bytes.
    Block,
    /// The bytes up to a NUL, and the NUL.
    Text,
    /// An SLEB128.
    Signed,
    /// A ULEB128.
    Unsigned,
}

/// The rule for the end of a form's value, if the form is known.
#[tactic(auto, unfolding(crate::specs::InfoForms::shape_of))]
fn shape_of(version: u8, form: u64) -> Option<Shape>
    ensures { result ≡ spec.shape_of version form }
{
    match form {
        0x19 => Some(Shape::Fixed(0)),
        0x0b | 0x0c | 0x11 => Some(Shape::Fixed(1)),
        0x05 | 0x12 => Some(Shape::Fixed(2)),
        0x06 | 0x0e | 0x13 | 0x17 => Some(Shape::Fixed(4)),
        0x01 | 0x07 | 0x14 | 0x20 => Some(Shape::Fixed(8)),
        0x10 if version == 2 => Some(Shape::Fixed(8)),
        0x10 => Some(Shape::Fixed(4)),
        0x0a => Some(Shape::Block1),
        0x03 => Some(Shape::Block2),
        0x04 => Some(Shape::Block4),
        0x09 | 0x18 => Some(Shape::Block),
        0x08 => Some(Shape::Text),
        0x0d => Some(Shape::Signed),
        0x0f | 0x15 => Some(Shape::Unsigned),
        _ => None,
    }
}

/// The bytes after a block whose length is in as many bytes.
fn behind_block(width: usize, bytes: &[u8]) -> Option<&[u8]>
    requires { (width ≡ 1) ⊎ ((width ≡ 2) ⊎ (width ≡ 4)) }
    ensures { option_map (λ r. r.now) result ≡ spec.behind_block width bytes.now }
{
    let (size, rest) = number(width, bytes)?;
    let (_, behind) = split(size, rest)?;
    Some(behind)
}

impl Shape {
    /// The bytes after the value at the front.
    fn behind(self, bytes: &[u8]) -> Option<&[u8]>
        ensures { option_map (λ r. r.now) result ≡ spec.behind_shape self bytes.now }
    {
        match self {
            Shape::Fixed(size) => Some(split(size, bytes)?.1),
            Shape::Block1 => behind_block(1, bytes),
            Shape::Block2 => behind_block(2, bytes),
            Shape::Block4 => behind_block(4, bytes),
            Shape::Block => Some(sized(bytes)?.1),
            Shape::Text => Some(text(bytes)?.1),
            Shape::Signed => Some(sleb(bytes)?.1),
            Shape::Unsigned => Some(uleb(bytes)?.1),
        }
    }
}

/// The form of a value, and the bytes that begin with the value: an indirect form is in front of the value.
#[tactic(auto, unfolding(crate::specs::InfoForms::resolved))]
pub(crate) fn resolved(form: u64, bytes: &[u8]) -> Option<(u64, &[u8])>
    ensures { option_map (λ r. (r.0, r.1.now)) result ≡ spec.resolved form bytes.now }
{
    if form == DW_FORM_INDIRECT {
        return uleb(bytes);
    }
    Some((form, bytes))
}

/// The bytes after the value of a form.
#[tactic(auto, unfolding(crate::specs::InfoForms::behind_value))]
pub(crate) fn behind_value(version: u8, form: u64, bytes: &[u8]) -> Option<&[u8]>
    ensures { option_map (λ r. r.now) result ≡ spec.behind_value version form bytes.now }
{
    shape_of(version, form)?.behind(bytes)
}
