// Call frame instructions.
ghost use Rattle.std.specs.Prelude.{◌≡◌};
ghost use Rattle.unwind.specs.Instructions as spec;

use crate::operands::{Operands, Shape};
use crate::row_faults::RowField;
use crate::rows::Rule;

/// The operation of a call frame instruction (DWARF 5, 6.4.2). Columns may be any number. Offsets are modulo 2^64.
#[derive(Clone, Copy)]
pub(crate) enum Instruction {
    /// Advances the location by so many code_alignment_factors.
    Advance(u64),
    /// Sets the rule of a column.
    Set(u64, Rule),
    /// Sets the rule of a column to that of the row at the program's begin.
    Restore(u64),
    /// Does nothing.
    Nothing,
    /// Remembers the row.
    RememberState,
    /// Goes back to the row that was remembered last.
    RestoreState,
    /// Sets the CFA to a column and an offset.
    DefineCfa(u64, u64),
    /// Sets the column of the CFA.
    CfaRegister(u64),
    /// Sets the offset of the CFA.
    CfaOffset(u64),
    /// An expression gives the CFA.
    CfaExpression,
}

/// An instruction, and the bytes after it.
#[derive(Clone, Copy)]
pub(crate) struct Step<'a> {
    pub(crate) instruction: Instruction,
    pub(crate) rest: &'a [u8],
}

/// A factored operand times data_alignment_factor.
fn factored(align: u64, operand: u64) -> u64
    ensures { result ≡ spec.factored align operand }
{
    operand.wrapping_mul(align)
}

/// The operation of an opcode below 0x40 with its operands.
fn instruction_below(align: u64, opcode: u8, first: u64, second: u64) -> Instruction
    ensures { result ≡ spec.instruction_below align opcode first second }
{
    match opcode {
        0x02 | 0x03 | 0x04 => Instruction::Advance(first),
        0x05 | 0x11 => Instruction::Set(first, Rule::Offset(factored(align, second))),
        0x06 => Instruction::Restore(first),
        0x07 => Instruction::Set(first, Rule::Undefined),
        0x08 => Instruction::Set(first, Rule::Same),
        0x09 => Instruction::Set(first, Rule::Register(second)),
        0x0a => Instruction::RememberState,
        0x0b => Instruction::RestoreState,
        0x0c => Instruction::DefineCfa(first, second),
        0x0d => Instruction::CfaRegister(first),
        0x0e => Instruction::CfaOffset(first),
        0x0f => Instruction::CfaExpression,
        0x10 | 0x16 => Instruction::Set(first, Rule::Expression),
        0x12 => Instruction::DefineCfa(first, factored(align, second)),
        0x13 => Instruction::CfaOffset(factored(align, first)),
        0x14 | 0x15 => Instruction::Set(first, Rule::Value(factored(align, second))),
        _ => Instruction::Nothing,
    }
}

/// The operation of an opcode with its operands.
#[tactic(auto, unfolding(crate::specs::Instructions::instruction_of))]
fn instruction_of(align: u64, opcode: u8, first: u64, second: u64) -> Instruction
    ensures { result ≡ spec.instruction_of align opcode first second }
{
    if opcode < 0x40 {
        return instruction_below(align, opcode, first, second);
    }
    let low = u64::from(opcode % 0x40);
    match opcode / 0x40 {
        1 => Instruction::Advance(low),
        2 => Instruction::Set(low, Rule::Offset(factored(align, first))),
        _ => Instruction::Restore(low),
    }
}

impl<'a> Step<'a> {
    ghost use Rattle.unwind.specs.RowWords.{step_view, viewed};

    /// The instruction at the front of the bytes.
    #[tactic(auto, unfolding(crate::specs::Instructions::step_in))]
    pub(crate) fn read(align: u64, bytes: &'a [u8]) -> Result<Step<'a>, RowField>
        ensures { viewed step_view result ≡ spec.step_in align bytes.now }
    {
        let Some((opcode, bytes)) = bytes.split_first() else {
            return Err(RowField::Opcode);
        };
        let opcode = *opcode;
        let Some(shape) = Shape::of(opcode) else {
            return Err(RowField::Opcode);
        };
        let Some(operands) = Operands::read(shape, bytes) else {
            return Err(RowField::Operand);
        };
        Ok(Step {
            instruction: instruction_of(align, opcode, operands.first, operands.second),
            rest: operands.rest,
        })
    }
}
