// The caller of a frame by call frame information.
ghost use Rattle.std.specs.Prelude.{◌≡◌};
ghost use Rattle.std.specs.Option.{option_map};
ghost use Rattle.call_frames.specs.EntryWords.{entry_view};
ghost use Rattle.call_frames.specs.Finding.{entry_of};
ghost use Rattle.call_frames.specs.FindingWords.{found};
ghost use Rattle.elf_view.specs.ViewWords.{image_of};
ghost use Rattle.seen_memory.specs.Seen.{ForEach};
ghost use Rattle.unwind.specs.ByEntry as spec;
ghost use Rattle.unwind.specs.Words.{code_view, process_with};

use crate::by_call::by_stub;
use crate::code::{Code, Process};
use crate::executable::UnwoundExecutable;
use crate::faults::{RowFault, Stop};
use crate::frame::{Callee, Frame, Registers, without};
use crate::rows::{Row, Rule};
use crate::start::holds_start;
use crate::values::{cfa_by, is_undefined, registers_by, unknown_by, value_by};
use call_frames::{Entry, NoEntry};
use seen_memory::{SeenMemory, Unread};

/// The part of an entry that leads to the next frame.
#[derive(Clone, Copy)]
pub(crate) struct Return {
    /// The column of the return address.
    pub(crate) column: u64,
    /// A signal came there: the code is that to which its handler returns.
    pub(crate) signal: bool,
}

/// The row of an entry at an address.
#[tactic(auto, unfolding(crate::specs::ByEntry::row_at))]
fn row_at(entry: &Entry<'_>, address: u64) -> Result<Row, Stop>
    ensures { result ≡ spec.row_at (entry_view entry.now) address }
{
    match Row::of(entry, address) {
        Ok(row) => Ok(row),
        Err(field) => Err(Stop::FaultyRow(RowFault {
            field,
            index: entry.index,
        })),
    }
}

/// Whether a CFA is below that of the callee, or the same with the same pc.
fn is_below(callee: Option<Callee>, pc: u64, cfa: u64) -> bool
    ensures { result ≡ spec.is_below callee pc cfa }
{
    match callee {
        Some(callee) => cfa < callee.cfa || (cfa == callee.cfa && pc == callee.pc),
        None => false,
    }
}

/// The return address by its rule.
fn return_by(
    memory: &SeenMemory<'_, '_>,
    registers: &Registers,
    cfa: u64,
    column: u64,
    rule: Rule,
) -> Result<Result<u64, Stop>, Unread>
    ensures { ForEach memory.now (λ space. spec.return_by space registers.now cfa column rule) result }
{
    match value_by(memory, registers, cfa, column, rule)? {
        Some(pc) => Ok(Ok(pc)),
        None => Ok(Err(unknown_by(rule))),
    }
}

/// The frame that a row leads to.
fn led_to(frame: &Frame, cfa: u64, pc: u64, registers: Registers, back: Return) -> Frame
    ensures { result ≡ spec.led_to frame.now cfa pc registers back }
{
    if back.signal {
        return Frame {
            pc,
            registers,
            exact: true,
            callee: None,
        };
    }
    Frame {
        pc,
        registers: without(registers, back.column),
        exact: false,
        callee: Some(Callee { cfa, pc: frame.pc }),
    }
}

/// The frame that a return address leads to.
fn by_return(
    memory: &SeenMemory<'_, '_>,
    frame: &Frame,
    row: &Row,
    back: Return,
    cfa: u64,
    pc: u64,
) -> Result<Result<Frame, Stop>, Unread>
    ensures { ForEach memory.now (λ space. spec.by_return space frame.now row.now back cfa pc) result }
{
    if pc == 0 && !back.signal {
        return Ok(Err(Stop::ZeroPc));
    }
    let registers = registers_by(memory, &frame.registers, cfa, row)?;
    Ok(Ok(led_to(frame, cfa, pc, registers, back)))
}

/// The frame that a CFA leads to.
#[tactic(auto, unfolding(crate::specs::ByEntry::by_cfa))]
fn by_cfa(
    memory: &SeenMemory<'_, '_>,
    frame: &Frame,
    row: &Row,
    back: Return,
    cfa: u64,
) -> Result<Result<Frame, Stop>, Unread>
    ensures { ForEach memory.now (λ space. spec.by_cfa space frame.now row.now back cfa) result }
{
    if is_below(frame.callee, frame.pc, cfa) {
        return Ok(Err(Stop::NotRising));
    }
    let rule = row.rule(back.column);
    match return_by(memory, &frame.registers, cfa, back.column, rule)? {
        Ok(pc) => by_return(memory, frame, row, back, cfa, pc),
        Err(stop) => Ok(Err(stop)),
    }
}

/// The frame that a row leads to.
#[tactic(auto, unfolding(crate::specs::ByEntry::by_row))]
fn by_row(
    memory: &SeenMemory<'_, '_>,
    frame: &Frame,
    back: Return,
    row: &Row,
) -> Result<Result<Frame, Stop>, Unread>
    ensures { ForEach memory.now (λ space. spec.by_row space frame.now back row.now) result }
{
    if is_undefined(row.rule(back.column)) {
        return Ok(Err(Stop::Outermost));
    }
    match cfa_by(&frame.registers, row.cfa) {
        Ok(cfa) => by_cfa(memory, frame, row, back, cfa),
        Err(stop) => Ok(Err(stop)),
    }
}

/// The frame that an entry leads to, unless the program begins in its code.
fn by_covering(
    memory: &SeenMemory<'_, '_>,
    start: Option<u64>,
    frame: &Frame,
    entry: &Entry<'_>,
    address: u64,
) -> Result<Result<Frame, Stop>, Unread>
    ensures { ForEach memory.now (λ space. spec.by_covering space start frame.now address (entry_view entry.now)) result }
{
    if holds_start(start, frame, address, entry) {
        return Ok(Err(Stop::Outermost));
    }
    let back = Return {
        column: u64::from(entry.cie.column),
        signal: entry.cie.signal,
    };
    match row_at(entry, address) {
        Ok(row) => by_row(memory, frame, back, &row),
        Err(stop) => Ok(Err(stop)),
    }
}

/// The entry of an executable, or of its debug file, that covers an address.
fn entry_at<'e>(executable: &UnwoundExecutable<'e, '_>, address: u64) -> Result<Entry<'e>, NoEntry>
    ensures { found result ≡ entry_of (image_of executable.now.elf) (option_map image_of executable.now.debug) address }
{
    executable.frames.find(address)
}

/// Why no entry covers code.
fn no_entry(code: &Code<'_, '_>) -> Stop
    ensures { result ≡ spec.no_entry (code_view code.now) }
{
    if code.executable.frames.has_unread() {
        Stop::Compressed
    } else {
        Stop::NoEntry
    }
}

/// The frame that the first entry that covers the code's address leads to.
#[tactic(auto, unfolding(crate::specs::ByEntry::by_code))]
fn by_code(
    memory: &SeenMemory<'_, '_>,
    start: Option<u64>,
    frame: &Frame,
    code: &Code<'_, '_>,
) -> Result<Result<Frame, Stop>, Unread>
    ensures { ForEach memory.now (λ space. spec.by_code space start frame.now (code_view code.now)) result }
{
    match entry_at(&code.executable, code.address) {
        Ok(entry) => by_covering(memory, start, frame, &entry, code.address),
        Err(NoEntry::Faulty(fault)) => Ok(Err(Stop::FaultyEntry(fault))),
        Err(NoEntry::Uncovered) => Ok(by_stub(code, frame).ok_or(no_entry(code))),
    }
}

impl<'s, 'c, 'e, 'a> Process<'s, 'c, 'e, 'a> {
    /// The caller of a frame by call frame information.
    #[tactic(auto, unfolding(crate::specs::ByEntry::by_entry))]
    pub(crate) fn by_entry(&self, frame: &Frame) -> Result<Result<Frame, Stop>, Unread>
        ensures { ForEach self.now.memory (λ space. spec.by_entry (process_with space self.now.executables.now self.now.others.now self.now.start) frame.now) result }
    {
        match self.code_of(frame) {
            Ok(code) => by_code(&self.memory, self.start, frame, &code),
            Err(stop) => Ok(Err(stop)),
        }
    }
}
