// Values of registers by the rules of a row.
ghost use Rattle.std.specs.Prelude.{◌≡◌, ◌<◌};
ghost use Rattle.seen_memory.specs.Seen.{ForEach};
ghost use Rattle.unwind.specs.Values as spec;

use crate::faults::Stop;
use crate::frame::{Registers, known};
use crate::rows::{Cfa, Row, Rule};
use seen_memory::{SeenMemory, Unread};

/// The value that a column has in the caller by a rule. The error is a byte that is not at hand.
pub(crate) fn value_by(
    memory: &SeenMemory<'_, '_>,
    registers: &Registers,
    cfa: u64,
    column: u64,
    rule: Rule,
) -> Result<Option<u64>, Unread>
    ensures { ForEach memory.now (λ space. spec.value_by space registers.now cfa column rule) result }
{
    match rule {
        Rule::Undefined => Ok(None),
        Rule::Same => Ok(known(registers, column)),
        Rule::Offset(offset) => memory.word(cfa.wrapping_add(offset)),
        Rule::Value(offset) => Ok(Some(cfa.wrapping_add(offset))),
        Rule::Register(other) => Ok(known(registers, other)),
        Rule::Expression => Ok(None),
    }
}

/// The same by the rule of a row; x0 is 0.
fn register_by(
    memory: &SeenMemory<'_, '_>,
    registers: &Registers,
    cfa: u64,
    row: &Row,
    column: usize,
) -> Result<Option<u64>, Unread>
    requires { column < 32 }
    ensures { ForEach memory.now (λ space. spec.register_by space registers.now cfa row.now column) result }
{
    if column == 0 {
        return Ok(Some(0));
    }
    let column = column as u64;
    value_by(memory, registers, cfa, column, row.rule(column))
}

/// The registers of the caller, by a row and its CFA.
#[tactic(auto, unfolding(crate::specs::Values::registers_by))]
pub(crate) fn registers_by(
    memory: &SeenMemory<'_, '_>,
    registers: &Registers,
    cfa: u64,
    row: &Row,
) -> Result<Registers, Unread>
    ensures { ForEach memory.now (λ space. spec.registers_by space registers.now cfa row.now) result }
{
    let mut values = [None; 32];
    for column in 0..32 {
        values[column] = register_by(memory, registers, cfa, row, column)?;
    }
    Ok(values)
}

/// The CFA, or why it is not known.
#[tactic(auto, unfolding(crate::specs::Values::cfa_by))]
pub(crate) fn cfa_by(registers: &Registers, cfa: Cfa) -> Result<u64, Stop>
    ensures { result ≡ spec.cfa_by registers.now cfa }
{
    if cfa.expression {
        return Err(Stop::Expression);
    }
    match known(registers, cfa.column) {
        Some(value) => Ok(value.wrapping_add(cfa.offset)),
        None => Err(Stop::Undefined),
    }
}

/// Why a value is not known by a rule.
pub(crate) fn unknown_by(rule: Rule) -> Stop
    ensures { result ≡ spec.unknown_by rule }
{
    match rule {
        Rule::Offset(_) => Stop::Unreadable,
        Rule::Expression => Stop::Expression,
        _ => Stop::Undefined,
    }
}

/// Whether a rule says that there is no value.
pub(crate) fn is_undefined(rule: Rule) -> bool
    ensures { result ≡ spec.is_undefined rule }
{
    matches!(rule, Rule::Undefined)
}
