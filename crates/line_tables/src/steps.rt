// The instructions of a line number program, one after another.
ghost use Rattle.std.specs.Prelude.{◌≡◌};
ghost use Rattle.line_tables.specs.Chain.{viewed};
ghost use Rattle.line_tables.specs.Instructions as spec;
ghost use Rattle.line_tables.specs.RowWords.{step_view};

use crate::faults::LineField;
use crate::header::Machine;
use crate::instructions::Step;

/// The instructions of a program up to its end, or up to the first with a fault.
#[derive(Clone, Copy)]
pub(crate) struct Steps<'a> {
    pub(crate) version: u8,
    pub(crate) machine: Machine<'a>,
    pub(crate) rest: &'a [u8],
}

/// The bytes that are left to be read after a step.
fn behind_step<'a>(step: &Result<Step<'a>, LineField>) -> &'a [u8]
    ensures { result.now ≡ spec.behind_step (viewed step_view step.now) }
{
    match step {
        Ok(step) => step.rest,
        Err(_) => &[],
    }
}

impl<'a> Iterator for Steps<'a> {
    ghost use Rattle.std.specs.Iterator.{YieldsFirstBy, item_count};
    ghost use Rattle.line_tables.specs.RowWords.{steps_left};

    type Item = Result<Step<'a>, LineField>;

    ghost next_gives = { YieldsFirstBy (viewed step_view) steps_left };

    ghost remaining = { item_count steps_left };

    fn next(&mut self) -> Option<Result<Step<'a>, LineField>> {
        if self.rest.is_empty() {
            return None;
        }
        let step = Step::read(self.version, &self.machine, self.rest);
        self.rest = behind_step(&step);
        Some(step)
    }
}
