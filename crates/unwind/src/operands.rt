// The operands of call frame instructions.
ghost use Rattle.std.specs.Prelude.{◌≡◌, ◌≤◌, length};
ghost use Rattle.std.specs.Option.{option_map};
ghost use Rattle.call_frames.specs.Leb as leb;
ghost use Rattle.elf_view.specs.Field.{field};
ghost use Rattle.unwind.specs.Instructions as spec;

use call_frames::{sized, sleb, uleb};
use elf_view::{u16_at, u32_at};

/// The kinds of operands that an opcode has (DWARF 5, 7.24).
#[derive(Clone, Copy)]
pub(crate) enum Shape {
    /// None.
    Nothing,
    /// A ULEB128.
    Unsigned,
    /// An SLEB128.
    Signed,
    /// Two ULEB128.
    TwoUnsigned,
    /// A ULEB128 and an SLEB128.
    UnsignedSigned,
    /// A block: its length as a ULEB128, and its bytes.
    Block,
    /// A ULEB128 and a block.
    UnsignedBlock,
    /// A number of one byte.
    OneByte,
    /// A number of two bytes.
    TwoBytes,
    /// A number of four bytes.
    FourBytes,
}

/// The numbers among the operands, 0 for a missing one, and the bytes after them. Signed ones are modulo 2^64.
#[derive(Clone, Copy)]
pub(crate) struct Operands<'a> {
    pub(crate) first: u64,
    pub(crate) second: u64,
    pub(crate) rest: &'a [u8],
}

/// The operands that an opcode below 0x40 has.
fn shape_below(opcode: u8) -> Option<Shape>
    ensures { result ≡ spec.shape_below opcode }
{
    match opcode {
        0x00 | 0x0a | 0x0b => Some(Shape::Nothing),
        0x06 | 0x07 | 0x08 | 0x0d | 0x0e | 0x2e => Some(Shape::Unsigned),
        0x13 => Some(Shape::Signed),
        0x05 | 0x09 | 0x0c | 0x14 => Some(Shape::TwoUnsigned),
        0x11 | 0x12 | 0x15 => Some(Shape::UnsignedSigned),
        0x0f => Some(Shape::Block),
        0x10 | 0x16 => Some(Shape::UnsignedBlock),
        0x02 => Some(Shape::OneByte),
        0x03 => Some(Shape::TwoBytes),
        0x04 => Some(Shape::FourBytes),
        _ => None,
    }
}

impl Shape {
    /// The operands that an opcode has, if it is known.
    #[tactic(auto, unfolding(crate::specs::Instructions::shape_of))]
    pub(crate) fn of(opcode: u8) -> Option<Shape>
        ensures { result ≡ spec.shape_of opcode }
    {
        if opcode < 0x40 {
            return shape_below(opcode);
        }
        if opcode / 0x40 == 2 {
            Some(Shape::Unsigned)
        } else {
            Some(Shape::Nothing)
        }
    }
}

/// The first of the bytes.
#[tactic(auto, using(crate::proofs::Running::one_byte))]
fn first_byte(bytes: &[u8]) -> u8
    requires { 1 ≤ length bytes.now }
    ensures { result ≡ field bytes.now 0 1 }
{
    bytes[0]
}

impl<'a> Operands<'a> {
    ghost use Rattle.unwind.specs.RowWords.{operands_view};

    /// A single number, and the bytes after it.
    fn one(number: Option<(u64, &'a [u8])>) -> Option<Operands<'a>>
        ensures { option_map operands_view result
            ≡ option_map spec.one_operand (option_map (λ n. (n.0, n.1.now)) number.entry) }
    {
        let (first, rest) = number?;
        Some(Operands {
            first,
            second: 0,
            rest,
        })
    }

    /// Two numbers, and the bytes after them.
    fn two(first: u64, number: Option<(u64, &'a [u8])>) -> Option<Operands<'a>>
        ensures { option_map operands_view result
            ≡ option_map (spec.two_operands first) (option_map (λ n. (n.0, n.1.now)) number.entry) }
    {
        let (second, rest) = number?;
        Some(Operands {
            first,
            second,
            rest,
        })
    }

    /// A number, and the bytes after a block.
    fn block(first: u64, bytes: &'a [u8]) -> Option<Operands<'a>>
        ensures { option_map operands_view result ≡ option_map (spec.behind_block first) (leb.sized bytes.now) }
    {
        let (_, rest) = sized(bytes)?;
        Some(Operands {
            first,
            second: 0,
            rest,
        })
    }

    /// A number of one byte.
    fn one_byte(bytes: &'a [u8]) -> Option<Operands<'a>>
        ensures { option_map operands_view result ≡ spec.fixed 1 bytes.now }
    {
        if bytes.is_empty() {
            return None;
        }
        Some(Operands {
            first: u64::from(first_byte(bytes)),
            second: 0,
            rest: &bytes[1..],
        })
    }

    /// A number of two bytes.
    fn two_bytes(bytes: &'a [u8]) -> Option<Operands<'a>>
        ensures { option_map operands_view result ≡ spec.fixed 2 bytes.now }
    {
        if bytes.len() < 2 {
            return None;
        }
        Some(Operands {
            first: u64::from(u16_at(bytes, 0)),
            second: 0,
            rest: &bytes[2..],
        })
    }

    /// A number of four bytes.
    fn four_bytes(bytes: &'a [u8]) -> Option<Operands<'a>>
        ensures { option_map operands_view result ≡ spec.fixed 4 bytes.now }
    {
        if bytes.len() < 4 {
            return None;
        }
        Some(Operands {
            first: u64::from(u32_at(bytes, 0)),
            second: 0,
            rest: &bytes[4..],
        })
    }

    /// A ULEB128, and the operand after it: a ULEB128, an SLEB128 or a block.
    fn with_column(shape: Shape, bytes: &'a [u8]) -> Option<Operands<'a>>
        ensures { option_map operands_view result ≡ spec.column_operands shape bytes.now }
    {
        let (first, rest) = uleb(bytes)?;
        match shape {
            Shape::TwoUnsigned => Operands::two(first, uleb(rest)),
            Shape::UnsignedSigned => Operands::two(first, sleb(rest)),
            _ => Operands::block(first, rest),
        }
    }

    /// The operands at the front of the bytes, if they are there.
    #[tactic(auto, unfolding(crate::specs::Instructions::operands_in))]
    pub(crate) fn read(shape: Shape, bytes: &'a [u8]) -> Option<Operands<'a>>
        ensures { option_map operands_view result ≡ spec.operands_in shape bytes.now }
    {
        match shape {
            Shape::Nothing => Some(Operands {
                first: 0,
                second: 0,
                rest: bytes,
            }),
            Shape::Unsigned => Operands::one(uleb(bytes)),
            Shape::Signed => Operands::one(sleb(bytes)),
            Shape::TwoUnsigned | Shape::UnsignedSigned | Shape::UnsignedBlock => {
                Operands::with_column(shape, bytes)
            }
            Shape::Block => Operands::block(0, bytes),
            Shape::OneByte => Operands::one_byte(bytes),
            Shape::TwoBytes => Operands::two_bytes(bytes),
            Shape::FourBytes => Operands::four_bytes(bytes),
        }
    }
}
