// The opcodes of a line number program.
ghost use Rattle.std.specs.Prelude.{◌≡◌, ◌<◌};
ghost use Rattle.std.specs.Option.{option_map};
ghost use Rattle.line_tables.specs.Chain.{viewed};
ghost use Rattle.line_tables.specs.Instructions as spec;

use crate::entries::{Entry, file_format};
use crate::faults::LineField;
use crate::forms::Strings;
use crate::header::Machine;
use crate::texts::{first_byte, number};
use call_frames::{sized, sleb, uleb};
use elf_view::u64_at;

/// The effect of an opcode (DWARF 5, 6.2.5).
#[derive(Clone, Copy)]
pub(crate) enum Instruction {
    /// A special opcode, less opcode_base: advances the address and the line, and makes a row.
    Special(u8),
    /// Makes a row.
    CopyRow,
    /// Advances the address by so many instructions.
    AdvancePc(u64),
    /// Advances the line, modulo 2^64.
    AdvanceLine(u64),
    /// Sets the file.
    SetFile(u64),
    /// Advances the address as special opcode 255 does.
    ConstAddPc,
    /// Advances the address by so many bytes.
    FixedAdvancePc(u64),
    /// Makes the row that ends a sequence.
    EndSequence,
    /// Sets the address.
    SetAddress(u64),
    /// Adds a file name.
    DefineFile,
    /// Changes no register that is kept.
    Nothing,
}

/// An instruction with the bytes around it.
#[derive(Clone, Copy)]
pub(crate) struct Step<'a> {
    pub(crate) instruction: Instruction,
    /// The bytes of an extended instruction after its opcode.
    pub(crate) content: &'a [u8],
    /// The bytes after the instruction.
    pub(crate) rest: &'a [u8],
}

/// The bytes after as many ULEB128.
fn behind_numbers(count: u8, bytes: &[u8]) -> Option<&[u8]>
    ensures { option_map (λ r. r.now) result ≡ spec.behind_numbers count bytes.now }
{
    let mut rest = bytes;
    for i in 0..count {
        let (_, behind) = uleb(rest)?;
        rest = behind;
    }
    Some(rest)
}

/// The operand of a standard opcode, and the bytes after its operands.
#[tactic(auto, unfolding(crate::specs::Instructions::standard_operand))]
fn standard_operand<'a>(lengths: &[u8], opcode: u8, bytes: &'a [u8]) -> Option<(u64, &'a [u8])>
    requires { 0 < opcode }
    ensures { option_map (λ r. (r.0, r.1.now)) result ≡ spec.standard_operand lengths.now opcode bytes.now }
{
    match opcode {
        9 => number(2, bytes),
        3 => sleb(bytes),
        2 | 4 | 5 | 12 => uleb(bytes),
        1 | 6 | 7 | 8 | 10 | 11 => Some((0, bytes)),
        _ => {
            let count = lengths.get(usize::from(opcode - 1)).copied().unwrap_or(0);
            let rest = behind_numbers(count, bytes)?;
            Some((0, rest))
        }
    }
}

/// The instruction of a standard opcode with its operand.
fn standard_of(opcode: u8, operand: u64) -> Instruction
    ensures { result ≡ spec.standard_of opcode operand }
{
    match opcode {
        1 => Instruction::CopyRow,
        2 => Instruction::AdvancePc(operand),
        3 => Instruction::AdvanceLine(operand),
        4 => Instruction::SetFile(operand),
        8 => Instruction::ConstAddPc,
        9 => Instruction::FixedAdvancePc(operand),
        _ => Instruction::Nothing,
    }
}

/// The instruction of an extended opcode with the bytes after it.
#[tactic(auto, unfolding(crate::specs::Instructions::extended_of))]
fn extended_of(version: u8, opcode: u8, content: &[u8]) -> Result<Instruction, LineField>
    ensures { result ≡ spec.extended_of version opcode content.now }
{
    match opcode {
        1 => Ok(Instruction::EndSequence),
        2 if content.len() == 8 => Ok(Instruction::SetAddress(u64_at(content, 0))),
        2 => Err(LineField::SetAddress),
        3 if version < 5 => {
            let strings = Strings {
                debug_line_str: &[],
                debug_str: &[],
            };
            match Entry::read(&strings, &file_format(), content) {
                Some(_) => Ok(Instruction::DefineFile),
                None => Err(LineField::Operand),
            }
        }
        _ => Ok(Instruction::Nothing),
    }
}

impl<'a> Step<'a> {
    ghost use Rattle.line_tables.specs.HeaderWords.{machine_view};
    ghost use Rattle.line_tables.specs.RowWords.{step_view};

    /// The standard instruction of an opcode.
    #[tactic(auto, unfolding(crate::specs::Instructions::standard))]
    fn standard(lengths: &[u8], opcode: u8, bytes: &'a [u8]) -> Result<Step<'a>, LineField>
        requires { 0 < opcode }
        ensures { viewed step_view result ≡ spec.standard lengths.now opcode bytes.now }
    {
        let Some((operand, rest)) = standard_operand(lengths, opcode, bytes) else {
            return Err(LineField::Operand);
        };
        Ok(Step {
            instruction: standard_of(opcode, operand),
            content: &[],
            rest,
        })
    }

    /// The extended instruction whose length is at the front.
    #[tactic(auto, unfolding(crate::specs::Instructions::extended))]
    fn extended(version: u8, bytes: &'a [u8]) -> Result<Step<'a>, LineField>
        ensures { viewed step_view result ≡ spec.extended version bytes.now }
    {
        let Some((block, rest)) = sized(bytes) else {
            return Err(LineField::Length);
        };
        let Some((opcode, content)) = first_byte(block) else {
            return Err(LineField::Length);
        };
        let instruction = extended_of(version, opcode, content)?;
        Ok(Step {
            instruction,
            content,
            rest,
        })
    }

    /// The instruction at the front.
    #[tactic(auto, unfolding(crate::specs::Instructions::step_in))]
    pub(crate) fn read(
        version: u8,
        machine: &Machine<'_>,
        bytes: &'a [u8],
    ) -> Result<Step<'a>, LineField>
        ensures { viewed step_view result ≡ spec.step_in version (machine_view machine.now) bytes.now }
    {
        let Some((opcode, rest)) = bytes.split_first() else {
            return Err(LineField::Operand);
        };
        let opcode = *opcode;
        if opcode >= machine.opcode_base {
            return Ok(Step {
                instruction: Instruction::Special(opcode - machine.opcode_base),
                content: &[],
                rest,
            });
        }
        if opcode == 0 {
            Step::extended(version, rest)
        } else {
            Step::standard(machine.opcode_lengths, opcode, rest)
        }
    }
}
