// The code to which a signal handler returns.
ghost use Rattle.std.specs.Prelude.{◌≡◌, ◌<◌, is_some};
ghost use Rattle.std.specs.List.{list_all};
ghost use Rattle.seen_memory.specs.Seen.{ForEach};
ghost use Rattle.unwind.specs.ByTrampoline as spec;

use crate::columns::SP;
use crate::faults::Stop;
use crate::frame::{Frame, Registers, known};
use seen_memory::{SeenMemory, Unread};

/// `li a7, 139` (rt_sigreturn) and `ecall`.
const INSTRUCTIONS: u64 = 0x0000_0073_08b0_0893;

/// The place of the saved registers, from the stack pointer on: after a
/// siginfo of 128 bytes and the 176 of a ucontext that come before them.
const SAVED: u64 = 304;

/// Whether the two instructions are at an address.
fn is_return(memory: &SeenMemory<'_, '_>, address: u64) -> Result<bool, Unread>
    ensures { ForEach memory.now (λ space. spec.is_instructions (spec.word space address)) result }
{
    match memory.word(address)? {
        Some(word) => Ok(word == INSTRUCTIONS),
        None => Ok(false),
    }
}

/// Whether a frame whose pc is this one executes the code to which a signal handler returns: `li a7, 139` and `ecall` are
/// at the pc, or it is at the second of them. The error is a byte that is not at hand.
#[tactic(auto, unfolding(crate::specs::ByTrampoline::is_trampoline))]
pub fn is_trampoline(memory: &SeenMemory<'_, '_>, pc: u64) -> Result<bool, Unread>
    ensures { ForEach memory.now (λ space. spec.is_trampoline space pc) result }
{
    if is_return(memory, pc)? {
        return Ok(true);
    }
    if pc < 4 {
        return Ok(false);
    }
    is_return(memory, pc - 4)
}

/// A word that a signal saved.
#[tactic(auto, unfolding(crate::specs::ByTrampoline::saved_word))]
fn saved_word(memory: &SeenMemory<'_, '_>, stack: u64, word: usize) -> Result<Option<u64>, Unread>
    requires { word < 32 }
    ensures { ForEach memory.now (λ space. spec.saved_word space stack word) result }
{
    memory.word(stack.wrapping_add(SAVED + 8 * word as u64))
}

/// A register that a signal saved; x0 is 0.
fn saved_register(
    memory: &SeenMemory<'_, '_>,
    stack: u64,
    column: usize,
) -> Result<Option<u64>, Unread>
    requires { column < 32 }
    ensures { ForEach memory.now (λ space. spec.saved_register space stack column) result }
{
    if column == 0 {
        return Ok(Some(0));
    }
    saved_word(memory, stack, column)
}

/// The registers that a signal saved.
#[tactic(auto, unfolding(crate::specs::ByTrampoline::saved_registers))]
fn saved_registers(memory: &SeenMemory<'_, '_>, stack: u64) -> Result<Registers, Unread>
    ensures { ForEach memory.now (λ space. spec.saved_registers space stack) result }
{
    let mut registers = [None; 32];
    for column in 0..32 {
        registers[column] = saved_register(memory, stack, column)?;
    }
    Ok(registers)
}

/// Whether all registers are known.
fn are_known(registers: &Registers) -> bool
    ensures { result ≡ list_all is_some registers.now }
{
    registers.iter().all(|register| register.is_some())
}

/// The frame that a signal came to.
#[tactic(auto, unfolding(crate::specs::ByTrampoline::by_trampoline))]
pub(crate) fn by_trampoline(
    memory: &SeenMemory<'_, '_>,
    frame: &Frame,
) -> Result<Result<Frame, Stop>, Unread>
    ensures { ForEach memory.now (λ space. spec.by_trampoline space frame.now) result }
{
    let Some(stack) = known(&frame.registers, SP) else {
        return Ok(Err(Stop::Undefined));
    };
    let Some(pc) = saved_word(memory, stack, 0)? else {
        return Ok(Err(Stop::Unreadable));
    };
    let registers = saved_registers(memory, stack)?;
    if !are_known(&registers) {
        return Ok(Err(Stop::Unreadable));
    }
    Ok(Ok(Frame {
        pc,
        registers,
        exact: true,
        callee: None,
    }))
}
