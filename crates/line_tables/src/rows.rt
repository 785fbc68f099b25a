// The rows of a line number table.
ghost use Rattle.std.specs.Prelude.{◌≡◌, ◌∷◌, [], MatchOption};
ghost use Rattle.line_tables.specs.Chain.{viewed};
ghost use Rattle.line_tables.specs.HeaderWords.{header_view, machine_view};
ghost use Rattle.line_tables.specs.RowWords.{step_view, steps_left};
ghost use Rattle.line_tables.specs.Rows as spec;

use crate::faults::LineField;
use crate::header::{Header, Machine};
use crate::instructions::{Instruction, Step};
use crate::registers::{Registers, Row};
use crate::steps::Steps;

/// The rows of a table in the order of its program, and the bad field as the last item if there is one.
#[derive(Clone, Copy)]
pub struct Rows<'a> {
    machine: Machine<'a>,
    steps: Steps<'a>,
    registers: Registers,
}

/// The row that a step makes or its fault, and the registers after it.
fn stepped(
    machine: &Machine<'_>,
    registers: Registers,
    step: Result<Step<'_>, LineField>,
) -> (Option<Result<Row, LineField>>, Registers)
    ensures { result ≡ spec.stepped (machine_view machine.now) registers (viewed step_view step.entry) }
{
    let step = match step {
        Ok(step) => step,
        Err(field) => return (Some(Err(field)), registers),
    };
    let executed = registers.executed(machine, step.instruction);
    let row = match executed.row(step.instruction) {
        Some(row) => Some(Ok(row)),
        None => None,
    };
    match step.instruction {
        Instruction::EndSequence => (row, Registers::start()),
        _ => (row, executed),
    }
}

/// The next row, or the fault of a step.
fn next_row<'a>(
    machine: &Machine<'_>,
    steps: &mut Steps<'a>,
    registers: &mut Registers,
) -> Option<Result<Row, LineField>>
    ensures { MatchOption result
        ((spec.rows_from (machine_view machine.now) registers.old (steps_left steps.old) ≡ [])
        × (spec.rows_from (machine_view machine.now) registers.new (steps_left steps.new) ≡ []))
        (λ row. spec.rows_from (machine_view machine.now) registers.old (steps_left steps.old)
        ≡ row ∷ spec.rows_from (machine_view machine.now) registers.new (steps_left steps.new)) }
{
    while let Some(step) = steps.next() {
        let (row, next) = stepped(machine, *registers, step);
        *registers = next;
        match row {
            Some(row) => return Some(row),
            None => {}
        }
    }
    None
}

impl<'a> Iterator for Rows<'a> {
    ghost use Rattle.std.specs.Iterator.{YieldsFirst, item_count};
    ghost use Rattle.line_tables.specs.RowWords.{rows_left};

    type Item = Result<Row, LineField>;

    ghost next_gives = { YieldsFirst rows_left };

    ghost remaining = { item_count rows_left };

    fn next(&mut self) -> Option<Result<Row, LineField>> {
        next_row(&self.machine, &mut self.steps, &mut self.registers)
    }
}

impl<'a> Header<'a> {
    ghost use Rattle.line_tables.specs.RowWords.{rows_left};

    /// The rows of the table, in the order of its program. If an instruction has a fault, its field is the last item.
    pub fn rows(&self) -> Rows<'a>
        ensures { rows_left result ≡ spec.rows_of (header_view self.now) }
    {
        let steps = Steps {
            version: self.version,
            machine: self.machine,
            rest: self.program,
        };
        Rows {
            machine: self.machine,
            steps,
            registers: Registers::start(),
        }
    }
}
