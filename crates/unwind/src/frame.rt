// Frames, and their registers.
ghost use Rattle.std.specs.Prelude.{◌≡◌, ◌<◌};
ghost use Rattle.thread_regs.specs.ThreadWords.{thread_bytes};
ghost use Rattle.unwind.specs.Registers as spec;
ghost use Rattle.unwind.specs.Unwinding as unwinding;

use thread_regs::{Reg, Thread};

/// The registers of a frame, by their DWARF numbers: x0 to x31, each as far as it is known.
pub type Registers = [Option<u64>; 32];

/// The frame that a frame called.
#[derive(Clone, Copy, PartialEq, Eq)]
pub struct Callee {
    /// Its CFA, which is the least that the CFA of its caller may be.
    pub cfa: u64,
    /// Its pc.
    pub pc: u64,
}

/// A frame of a stack.
#[derive(Clone, Copy)]
pub struct Frame {
    /// The address at which execution is or was, or to which a call returns.
    pub pc: u64,
    /// Its registers.
    pub registers: Registers,
    /// Execution is or was at the pc itself. Else the pc is the address after a call.
    pub exact: bool,
    /// The frame before, if a call led from this one to it and its CFA is known.
    pub callee: Option<Callee>,
}

/// The known value of a register.
#[tactic(auto, unfolding(crate::specs::Registers::known))]
pub(crate) fn known(registers: &Registers, column: u64) -> Option<u64>
    ensures { result ≡ spec.known registers.now column }
{
    if column < 32 {
        registers[column as usize]
    } else {
        None
    }
}

/// The same registers, but one is not known.
#[tactic(auto, unfolding(crate::specs::Registers::without))]
pub(crate) fn without(registers: Registers, column: u64) -> Registers
    ensures { result ≡ spec.without registers column }
{
    let mut others = registers;
    if column < 32 {
        others[column as usize] = None;
    }
    others
}

/// A register of a thread; x0 is 0.
fn register_of(thread: &Thread<'_>, column: usize) -> Option<u64>
    requires { column < 32 }
    ensures { result ≡ unwinding.register_of (thread_bytes thread.now) column }
{
    if column == 0 {
        return Some(0);
    }
    Some(thread.register(Reg::of_word(column)))
}

/// The registers of a thread.
#[tactic(auto, unfolding(crate::specs::Unwinding::registers_of))]
fn registers_of(thread: &Thread<'_>) -> Registers
    ensures { result ≡ unwinding.registers_of (thread_bytes thread.now) }
{
    let mut registers = [None; 32];
    for column in 0..32 {
        registers[column] = register_of(thread, column);
    }
    registers
}

impl Frame {
    /// The known value of a register by its number: 0 to 31 are x0 to x31. Nothing is known of others.
    pub fn register(&self, column: u64) -> Option<u64>
        ensures { result ≡ spec.known self.now.registers column }
    {
        known(&self.registers, column)
    }

    /// The frame in which a thread stopped.
    pub(crate) fn first(thread: &Thread<'_>) -> Frame
        ensures { result ≡ unwinding.first_frame (thread_bytes thread.now) }
    {
        Frame {
            pc: thread.register(Reg::of_word(0)),
            registers: registers_of(thread),
            exact: true,
            callee: None,
        }
    }
}
