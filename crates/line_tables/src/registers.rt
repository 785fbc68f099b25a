// The registers of the line number state machine, and its rows.
ghost use Rattle.std.specs.Prelude.{◌≡◌, ◌+◌};
ghost use Rattle.line_tables.specs.Rows as spec;
ghost use Rattle.line_tables.specs.declared.instructions.Instruction.TheVariants.{Special};

use crate::header::Machine;
use crate::instructions::Instruction;

/// A row of the line number table (DWARF 5, 6.2.2).
#[derive(Clone, Copy)]
pub struct Row {
    /// The address of the code.
    pub address: u64,
    /// The number of the source file.
    pub file: u64,
    /// The number of the source line, from 1 on; 0 if the code comes from no line.
    pub line: u32,
    /// The row ends a sequence: its address is the first after the sequence.
    pub end_sequence: bool,
}

/// The registers of the state machine that are kept.
#[derive(Clone, Copy)]
pub(crate) struct Registers {
    pub(crate) address: u64,
    pub(crate) file: u64,
    pub(crate) line: u32,
}

impl Registers {
    ghost use Rattle.line_tables.specs.HeaderWords.{machine_view};

    /// The registers at the start of a sequence.
    pub(crate) fn start() -> Registers
        ensures { result ≡ spec.start }
    {
        Registers {
            address: 0,
            file: 1,
            line: 1,
        }
    }

    /// The registers with the address advanced by so many instructions.
    fn advanced(self, machine: &Machine<'_>, count: u64) -> Registers
        ensures { result ≡ spec.at_address self (spec.advanced (machine_view machine.now) self count) }
    {
        let advance = u128::from(machine.minimum_instruction_length) * u128::from(count);
        Registers {
            address: ((u128::from(self.address) + advance) % (1 << 64)) as u64,
            file: self.file,
            line: self.line,
        }
    }

    /// The registers with the line advanced.
    fn with_line(self, advance: u64) -> Registers
        ensures { result ≡ spec.at_line self (self.line + advance) }
    {
        Registers {
            address: self.address,
            file: self.file,
            line: ((u128::from(self.line) + u128::from(advance)) % (1 << 32)) as u32,
        }
    }

    /// The registers after a special opcode.
    fn special(self, machine: &Machine<'_>, opcode: u8) -> Registers
        ensures { result ≡ spec.executed (machine_view machine.now) self (Special opcode) }
    {
        let base = u64::from(machine.line_base);
        let base = if base < 0x80 {
            base
        } else {
            base + 0xffff_ff00
        };
        self.advanced(machine, u64::from(opcode / machine.line_range))
            .with_line(base + u64::from(opcode % machine.line_range))
    }

    /// The registers after an instruction.
    pub(crate) fn executed(self, machine: &Machine<'_>, instruction: Instruction) -> Registers
        ensures { result ≡ spec.executed (machine_view machine.now) self instruction }
    {
        let mut next = self;
        match instruction {
            Instruction::Special(opcode) => return self.special(machine, opcode),
            Instruction::AdvancePc(count) => return self.advanced(machine, count),
            Instruction::AdvanceLine(advance) => return self.with_line(advance),
            Instruction::ConstAddPc => {
                let count = (255 - machine.opcode_base) / machine.line_range;
                return self.advanced(machine, u64::from(count));
            }
            Instruction::SetFile(file) => next.file = file,
            Instruction::FixedAdvancePc(size) => next.address = self.address.wrapping_add(size),
            Instruction::SetAddress(address) => next.address = address,
            _ => {}
        }
        next
    }

    /// The row that an instruction makes of the registers after it.
    pub(crate) fn row(self, instruction: Instruction) -> Option<Row>
        ensures { result ≡ spec.row_of self instruction }
    {
        let end_sequence = match instruction {
            Instruction::Special(_) | Instruction::CopyRow => false,
            Instruction::EndSequence => true,
            _ => return None,
        };
        Some(Row {
            address: self.address,
            file: self.file,
            line: self.line,
            end_sequence,
        })
    }
}
