// The header of a line table.
ghost use Rattle.std.specs.Prelude.{◌≡◌, ◌<◌, IfSome};
ghost use Rattle.std.specs.Option.{option_map};
ghost use Rattle.line_tables.specs.Chain.{viewed};
ghost use Rattle.line_tables.specs.EntryWords.{strings_view};
ghost use Rattle.line_tables.specs.Header as spec;

use crate::faults::LineField;
use crate::forms::Strings;
use crate::lists::Lists;
use crate::texts::{first_byte, number, split};

/// The fields up to header_length.
#[derive(Clone, Copy)]
struct Lead<'a> {
    version: u8,
    /// The fields after header_length.
    fields: &'a [u8],
    program: &'a [u8],
}

/// The fields on which the opcodes of a line number program depend.
#[derive(Clone, Copy)]
pub(crate) struct Machine<'a> {
    /// Advances of the address are multiples of it.
    pub(crate) minimum_instruction_length: u8,
    /// The least advance of the line by a special opcode, as a signed byte.
    pub(crate) line_base: u8,
    /// How many advances of the line the special opcodes have.
    pub(crate) line_range: u8,
    /// The first special opcode.
    pub(crate) opcode_base: u8,
    /// How many operands each standard opcode has, from opcode 1 on.
    pub(crate) opcode_lengths: &'a [u8],
    ghost range: { 0 < line_range },
}

/// The header of a line table, and its program.
#[derive(Clone, Copy)]
pub struct Header<'a> {
    /// The version, 2 to 5.
    pub version: u8,
    pub(crate) machine: Machine<'a>,
    pub(crate) lists: Lists<'a>,
    /// The line number program.
    pub program: &'a [u8],
}

/// The version at the front, and the bytes after it.
#[tactic(auto, unfolding(crate::specs::Header::version_in))]
fn version_in(bytes: &[u8]) -> Option<(u8, &[u8])>
    ensures { option_map (λ r. (r.0, r.1.now)) result ≡ spec.version_in bytes.now }
{
    let (version, rest) = number(2, bytes)?;
    if version < 2 || version > 5 {
        return None;
    }
    Some((version as u8, rest))
}

/// The bytes after one that must have a value, if there is such a field.
#[tactic(auto, unfolding(crate::specs::Header::behind_byte))]
fn behind_byte(present: bool, wanted: u8, bytes: &[u8]) -> Option<&[u8]>
    ensures { option_map (λ r. r.now) result ≡ spec.behind_byte present wanted bytes.now }
{
    if !present {
        return Some(bytes);
    }
    let (byte, rest) = first_byte(bytes)?;
    if byte != wanted {
        return None;
    }
    Some(rest)
}

/// The first byte, which must not be 0, and the bytes after it.
#[tactic(auto, unfolding(crate::specs::Header::positive))]
fn positive(bytes: &[u8]) -> Option<(u8, &[u8])>
    ensures value { option_map (λ r. (r.0, r.1.now)) result ≡ spec.positive bytes.now }
    ensures above { IfSome result (λ r. 0 < r.0) }
{
    let (byte, rest) = first_byte(bytes)?;
    if byte == 0 {
        return None;
    }
    Some((byte, rest))
}

impl<'a> Lead<'a> {
    ghost use Rattle.line_tables.specs.HeaderWords.{lead_view};

    /// Reads the fields of a unit's bytes.
    #[tactic(auto, unfolding(crate::specs::Header::lead_in))]
    fn read(body: &'a [u8]) -> Result<Lead<'a>, LineField>
        ensures { viewed lead_view result ≡ spec.lead_in body.now }
    {
        let Some((version, rest)) = version_in(body) else {
            return Err(LineField::Version);
        };
        let Some(rest) = behind_byte(version == 5, 8, rest) else {
            return Err(LineField::AddressSize);
        };
        let Some(rest) = behind_byte(version == 5, 0, rest) else {
            return Err(LineField::SegmentSelectorSize);
        };
        let Some((size, rest)) = number(4, rest) else {
            return Err(LineField::HeaderLength);
        };
        let Some((fields, program)) = split(size, rest) else {
            return Err(LineField::HeaderLength);
        };
        Ok(Lead {
            version,
            fields,
            program,
        })
    }
}

impl<'a> Machine<'a> {
    ghost use Rattle.line_tables.specs.HeaderWords.{machine_view};

    /// Reads the fields after header_length, and gives the bytes after them.
    #[tactic(auto, unfolding(crate::specs::Header::machine_in))]
    fn read(version: u8, bytes: &'a [u8]) -> Result<(Machine<'a>, &'a [u8]), LineField>
        ensures { viewed (λ r. (machine_view r.0, r.1.now)) result ≡ spec.machine_in version bytes.now }
    {
        let Some((minimum_instruction_length, rest)) = first_byte(bytes) else {
            return Err(LineField::MinimumInstructionLength);
        };
        let Some(rest) = behind_byte(version >= 4, 1, rest) else {
            return Err(LineField::MaximumOperationsPerInstruction);
        };
        let Some((_, rest)) = first_byte(rest) else {
            return Err(LineField::DefaultIsStmt);
        };
        let Some((line_base, rest)) = first_byte(rest) else {
            return Err(LineField::LineBase);
        };
        let Some((line_range, rest)) = positive(rest) else {
            return Err(LineField::LineRange);
        };
        let Some((opcode_base, rest)) = positive(rest) else {
            return Err(LineField::OpcodeBase);
        };
        let Some((opcode_lengths, rest)) = split(u64::from(opcode_base - 1), rest) else {
            return Err(LineField::StandardOpcodeLengths);
        };
        let machine = Machine {
            minimum_instruction_length,
            line_base,
            line_range,
            opcode_base,
            opcode_lengths,
        };
        Ok((machine, rest))
    }
}

impl<'a> Header<'a> {
    ghost use Rattle.line_tables.specs.HeaderWords.{header_view};

    /// Reads the header in a unit's bytes, which are in a section of `limit` bytes.
    #[tactic(auto, unfolding(crate::specs::Header::header_in))]
    pub(crate) fn read(
        strings: &Strings<'a>,
        limit: u64,
        body: &'a [u8],
    ) -> Result<Header<'a>, LineField>
        ensures { viewed header_view result ≡ spec.header_in (strings_view strings.now) limit body.now }
    {
        let lead = Lead::read(body)?;
        let (machine, rest) = Machine::read(lead.version, lead.fields)?;
        let lists = Lists::read(lead.version, strings, limit, rest)?;
        Ok(Header {
            version: lead.version,
            machine,
            lists,
            program: lead.program,
        })
    }
}
