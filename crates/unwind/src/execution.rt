// Execution of call frame instructions.
ghost use Rattle.std.specs.Prelude.{◌≡◌, ◌+◌, ◌*◌, ◌≤◌, false};
ghost use Rattle.call_frames.specs.EntryWords.{entry_view};
ghost use Rattle.unwind.specs.Execution as spec;
ghost use Rattle.unwind.specs.RowWords.{aim_of, state_of, viewed};

use crate::instructions::{Instruction, Step};
use crate::row_faults::RowField;
use crate::rows::Row;
use arrayvec::ArrayVec;
use call_frames::Entry;

/// How many instructions the programs of an entry may have.
const LIMIT: u32 = 65_536;

/// The aim of the execution of a program.
#[derive(Clone, Copy)]
pub(crate) struct Target {
    /// code_alignment_factor.
    pub(crate) code_align: u64,
    /// data_alignment_factor, modulo 2^64.
    pub(crate) data_align: u64,
    /// The row that restores go back to.
    pub(crate) initial: Row,
    /// The address whose row is wanted, if the program is that of an FDE.
    pub(crate) address: Option<u64>,
}

/// The state of an execution.
#[derive(Drop)]
pub(crate) struct Machine {
    pub(crate) row: Row,
    /// The rows that were remembered.
    stack: ArrayVec<Row, 8>,
    /// The location, which is never beyond the address.
    location: u64,
}

impl Machine {
    /// An execution that begins with a row at a location.
    pub(crate) fn new(row: Row, location: u64) -> Machine
        ensures { state_of result ≡ spec.start row location }
    {
        Machine {
            row,
            stack: ArrayVec::new(),
            location,
        }
    }

    /// The location once it is advanced.
    fn advanced(&self, target: &Target, advance: u64) -> u128
        ensures { result ≡ spec.advanced (aim_of target.now) (state_of self.now) advance }
    {
        u128::from(self.location) + u128::from(advance) * u128::from(target.code_align)
    }

    /// Whether an instruction ends the execution: an advance beyond the address.
    fn ends_at(&self, target: &Target, instruction: Instruction) -> bool
        ensures { result ≡ spec.ends_at (aim_of target.now) (state_of self.now) instruction }
    {
        match (instruction, target.address) {
            (Instruction::Advance(advance), Some(address)) => {
                self.advanced(target, advance) > u128::from(address)
            }
            _ => false,
        }
    }

    /// Advances the location, which stays at most the address.
    fn advance_below(&mut self, target: &Target, address: u64, advance: u64)
        requires { spec.advanced (aim_of target.now) (state_of self.old) advance ≤ address }
        ensures { state_of self.new ≡ spec.at_location (state_of self.old)
            (spec.advanced (aim_of target.now) (state_of self.old) advance) }
    {
        self.location = self.advanced(target, advance).min(u128::from(address)) as u64;
    }

    /// Advances the location, if there is an address.
    fn advance(&mut self, target: &Target, advance: u64) -> Result<(), RowField>
        requires { spec.is_beyond target.now.address (spec.advanced (aim_of target.now) (state_of self.old) advance) ≡ false }
        ensures { spec.advance_to target.now.address (state_of self.old)
            (spec.advanced (aim_of target.now) (state_of self.old) advance)
            ≡ viewed (λ u. state_of self.new) result }
    {
        let Some(address) = target.address else {
            return Err(RowField::Opcode);
        };
        self.advance_below(target, address, advance);
        Ok(())
    }

    /// Remembers the row.
    fn remember(&mut self) -> Result<(), RowField>
        ensures { spec.remembered (state_of self.old) ≡ viewed (λ u. state_of self.new) result }
    {
        if self.stack.is_full() {
            return Err(RowField::RememberState);
        }
        let row = self.row;
        self.stack.push(row);
        Ok(())
    }

    /// Goes back to the row that was remembered last.
    fn restore(&mut self) -> Result<(), RowField>
        ensures { spec.restored (state_of self.old) (spec.last_row (state_of self.old))
            ≡ viewed (λ u. state_of self.new) result }
    {
        let Some(row) = self.stack.pop() else {
            return Err(RowField::RestoreState);
        };
        self.row = row;
        Ok(())
    }

    /// Goes on with another row.
    fn set(&mut self, row: Row)
        ensures { state_of self.new ≡ spec.with_row (state_of self.old) row }
    {
        self.row = row;
    }

    /// Executes an instruction that does not end the execution.
    fn execute(&mut self, target: &Target, instruction: Instruction) -> Result<(), RowField>
        requires { spec.ends_at (aim_of target.now) (state_of self.old) instruction ≡ false }
        ensures { spec.executed (aim_of target.now) (state_of self.old) instruction
            ≡ viewed (λ u. state_of self.new) result }
    {
        let row = self.row;
        match instruction {
            Instruction::Advance(advance) => return self.advance(target, advance),
            Instruction::Set(column, rule) => self.set(row.with_rule(column, rule)),
            Instruction::Restore(column) => {
                self.set(row.with_rule(column, target.initial.rule(column)))
            }
            Instruction::Nothing => {}
            Instruction::RememberState => return self.remember(),
            Instruction::RestoreState => return self.restore(),
            Instruction::DefineCfa(column, offset) => {
                self.set(row.with_cfa(column, offset, false))
            }
            Instruction::CfaRegister(column) => {
                self.set(row.with_cfa(column, row.cfa.offset, false))
            }
            Instruction::CfaOffset(offset) => {
                self.set(row.with_cfa(row.cfa.column, offset, row.cfa.expression))
            }
            Instruction::CfaExpression => {
                self.set(row.with_cfa(row.cfa.column, row.cfa.offset, true))
            }
        }
        Ok(())
    }

    /// Executes a program up to its end, or up to the first advance beyond the address. At most `limit` instructions are
    /// executed; how many more may be is answered.
    fn run(&mut self, target: &Target, program: &[u8], limit: u32) -> Result<u32, RowField>
        ensures { viewed (λ count. spec.left self.new.row count) result
            ≡ spec.run limit (aim_of target.now) (state_of self.old) program.now }
    {
        let mut rest = program;
        let mut count = limit;
        while !rest.is_empty() {
            if count == 0 {
                return Err(RowField::Instructions);
            }
            count -= 1;
            let step = Step::read(target.data_align, rest)?;
            if self.ends_at(target, step.instruction) {
                return Ok(count);
            }
            self.execute(target, step.instruction)?;
            rest = step.rest;
        }
        Ok(count)
    }
}

impl Row {
    /// The row of an address that an entry describes: the program of its CIE is executed, then its own, up to the first
    /// advance beyond the address. The error is the first instruction that can't be executed; those after that advance
    /// are not examined. It takes no memory.
    #[tactic(auto, unfolding(crate::specs::Execution::row_of))]
    pub fn of(entry: &Entry<'_>, address: u64) -> Result<Row, RowField>
        ensures { result ≡ spec.row_of (entry_view entry.now) address }
    {
        let first = Row::first(entry.cie.column);
        let mut target = Target {
            code_align: entry.cie.code_align,
            data_align: entry.cie.data_align,
            initial: first,
            address: None,
        };
        let mut machine = Machine::new(first, 0);
        let left = machine.run(&target, entry.cie.program, LIMIT)?;
        target.initial = machine.row;
        target.address = Some(address);
        let mut machine = Machine::new(machine.row, entry.begin);
        machine.run(&target, entry.program, left)?;
        Ok(machine.row)
    }
}
