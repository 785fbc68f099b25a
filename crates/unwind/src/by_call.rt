// A call that led to no code, or to a stub of the procedure linkage table.
ghost use Rattle.std.specs.Prelude.{◌≡◌};
ghost use Rattle.std.specs.Option.{option_map};
ghost use Rattle.elf_view.specs.SectionWords.{section_view};
ghost use Rattle.seen_memory.specs.Seen.{InEach};
ghost use Rattle.unwind.specs.ByCall as spec;
ghost use Rattle.unwind.specs.Words.{code_view};

use crate::code::Code;
use crate::columns::{RA, SP};
use crate::frame::{Callee, Frame, known, without};
use elf_view::Section;
use seen_memory::SeenMemory;

/// The flag of a segment whose bytes can be executed.
const PF_X: u32 = 1;

/// The address that a call left in ra, if execution was at the pc.
#[tactic(auto, unfolding(crate::specs::ByCall::return_of))]
fn return_of(frame: &Frame) -> Option<u64>
    ensures { result ≡ spec.return_of frame.now }
{
    if !frame.exact {
        return None;
    }
    match known(&frame.registers, RA) {
        Some(address) if address != 0 && address != frame.pc => Some(address),
        _ => None,
    }
}

/// The callee of the frame that made a call.
fn callee_of(frame: &Frame) -> Option<Callee>
    ensures { result ≡ option_map (spec.callee_at frame.now.pc) (spec.stack_pointer frame.now) }
{
    let cfa = known(&frame.registers, SP)?;
    Some(Callee { cfa, pc: frame.pc })
}

/// The frame that made the call, if execution was at the address that the call led to.
fn caller_of(frame: &Frame) -> Option<Frame>
    ensures { result ≡ spec.caller_of frame.now }
{
    let pc = return_of(frame)?;
    Some(Frame {
        pc,
        registers: without(frame.registers, RA),
        exact: false,
        callee: callee_of(frame),
    })
}

/// Whether no code is at an address.
#[tactic(auto, unfolding(crate::specs::ByCall::is_no_code))]
fn is_no_code(memory: &SeenMemory<'_, '_>, address: u64) -> bool
    ensures { InEach memory.now (λ space. spec.is_no_code space address) result }
{
    match memory.flags(address) {
        Some(flags) => flags % 2 != PF_X,
        None => memory.spot(address).is_none(),
    }
}

/// The frame that made a call to no code.
#[tactic(auto, unfolding(crate::specs::ByCall::by_call))]
pub(crate) fn by_call(memory: &SeenMemory<'_, '_>, frame: &Frame) -> Option<Frame>
    ensures { InEach memory.now (λ space. spec.by_call space frame.now) result }
{
    if !is_no_code(memory, frame.pc) {
        return None;
    }
    caller_of(frame)
}

/// Whether an address is one of a section.
fn is_within(address: u64, section: &Section<'_>) -> bool
    ensures { result ≡ spec.is_within address (section_view section.now) }
{
    section.addr <= address && address - section.addr < section.size
}

/// Whether code is a stub of the procedure linkage table.
#[tactic(auto, unfolding(crate::specs::ByCall::is_stub))]
fn is_stub(code: &Code<'_, '_>) -> bool
    ensures { result ≡ spec.is_stub (code_view code.now) }
{
    match code.executable.elf.named_section(b".plt") {
        Some(section) => is_within(code.address, &section),
        None => false,
    }
}

/// The frame that called a stub.
#[tactic(auto, unfolding(crate::specs::ByCall::by_stub))]
pub(crate) fn by_stub(code: &Code<'_, '_>, frame: &Frame) -> Option<Frame>
    ensures { result ≡ spec.by_stub (code_view code.now) frame.now }
{
    if !is_stub(code) {
        return None;
    }
    caller_of(frame)
}
