// Which of the cases that stand before the first fault may be another than it says.
ghost use Rattle.std.specs.Prelude.{◌≡◌, ◌↔◌, ℕ, ◌+◌, ◌<◌, ◌≤◌, ◌&&◌, false, true, nat_lt, IfOk, IsTrue, OnOk, drop, length};
ghost use Rattle.std.specs.List.{Contains};
ghost use Rattle.case_journal.specs.Viewing.{IsOpenRefusal};
ghost use Rattle.journal_layout.specs.Case.{Case, case_of};
ghost use Rattle.journal_layout.specs.Layout.{data_start, half_length, half_start};
ghost use Rattle.salvage.specs.Alone.{ReadsAt};
ghost use Rattle.salvage.specs.Contests.{AreKnown, Contests, IsBehind, IsKnown, Knows, StayKnown};
ghost use Rattle.salvage.specs.declared.records.Read.{Read};
ghost use Rattle.salvage.specs.Doubting.{IsBound, bound_at, bound_by, generation_of, long_of, own_number, taken_half};

use crate::choosing::Blocks;
use crate::finding::is_of_front;
use crate::records::{Read, Span, byte_at, number_at, reads_alone};
use journal_layout::{Entry, Field, Half, OpenFault, Shape};
use journal_records::{NameKey, name_key};
use std::alloc::{AllocError, Global};
use std::collections::BTreeSet;

/// More than any number of a case.
pub(crate) const NO_BOUND: u64 = 1 << 32;

/// Why a case before the first fault is doubtful.
#[derive(Drop)]
pub(crate) struct Doubts {
    /// A case with this number or a greater one is doubtful.
    pub(crate) bound: u64,
    // The numbers, the names and the blocks of the cases that records behind the fault store.
    numbers: BTreeSet<u32>,
    names: BTreeSet<NameKey>,
    blocks: Blocks,
}

/// The place of the first fault, in bytes, and its field; a fault that belongs to no record and no gate has no place.
#[derive(Clone, Copy)]
pub(crate) struct Trouble {
    pub(crate) gate: usize,
    pub(crate) field: Field,
    /// The opening of the archive is refused for it.
    pub(crate) is_refused: bool,
}

// The number that the record at the front of these bytes has: that of the case, or the next one; 0 of another.
fn own_number(rest: &[u8]) -> u64
    ensures { result ≡ own_number rest.now }
{
    match byte_at(rest, 1) {
        1 => u64::from(number_at(rest, 8)),
        4 => long_in(rest),
        _ => 0,
    }
}

// The number in the eight bytes from the ninth one on.
fn long_in(rest: &[u8]) -> u64
    ensures { result ≡ long_of rest.now }
{
    u64::from(number_at(rest, 8)) + (u64::from(number_at(rest, 12)) << 32)
}

// The bytes from a place on.
fn rest_of(bytes: &[u8], place: usize) -> &[u8]
    ensures { result.now ≡ drop place bytes.now }
{
    match bytes.get(place..) {
        Some(rest) => rest,
        None => b"",
    }
}

/// The generation in the header of a half.
pub(crate) fn generation_at(front: &[u8], start: usize) -> u64
    ensures { result ≡ generation_of front.now start }
{
    long_in(rest_of(front, start))
}

// The number from which on cases are doubtful that come before a record with a fault.
fn bound_by(field: Field, alone: bool, own: u64) -> u64
    ensures { result ≡ bound_by field alone own }
{
    if is_of_front(field) {
        return 0;
    }
    if !alone {
        return NO_BOUND;
    }
    match field {
        Field::Seq | Field::Next => own,
        _ => 0,
    }
}

// The same of any fault.
fn bound_at(front: &[u8], start: usize, is_within: bool, trouble: Trouble, alone: bool) -> u64
    ensures { result ≡ bound_at front.now start is_within trouble alone }
{
    if is_within {
        if trouble.is_refused {
            return bound_by(
                trouble.field,
                alone,
                own_number(rest_of(front, trouble.gate)),
            );
        }
        return NO_BOUND;
    }
    let is_older = generation_at(front, trouble.gate) < generation_at(front, start);
    if is_older && !trouble.is_refused {
        NO_BOUND
    } else {
        0
    }
}

/// The half whose records stand.
pub(crate) fn taken_half(shape: Shape, gate: usize) -> Half
    ensures { result ≡ taken_half shape gate }
{
    let first = shape.half_start(Half::A) as usize;
    let second = shape.half_start(Half::B) as usize;
    if gate == first {
        Half::B
    } else if gate == second || gate < second {
        Half::A
    } else {
        Half::B
    }
}

/// The bytes of a half.
pub(crate) fn half_of(shape: Shape, half: Half) -> Span
    ensures start { result.start ≡ half_start shape half }
    ensures end { result.end ≡ half_start shape half + half_length shape }
{
    let start = shape.half_start(half);
    Span {
        start: start as usize,
        end: start.saturating_add(shape.half_length()) as usize,
    }
}

// Whether a place is behind the gate of a half, and within the half.
fn is_behind(half: Span, gate: usize) -> bool
    ensures { result ≡ nat_lt half.start gate && nat_lt gate half.end }
{
    half.start < gate && gate < half.end
}

// Whether the record with the fault reads by itself, if it is one of this half.
fn is_alone(
    alloc: Global,
    front: &[u8],
    half: Span,
    trouble: Trouble,
    blocks: u32,
) -> Result<bool, OpenFault>
    requires { half.end ≤ length front.now }
    ensures only { IsOpenRefusal result }
    ensures alone { IfOk result (λ alone. half.start < trouble.gate → trouble.gate < half.end → trouble.is_refused ≡ true
        → IsTrue alone ↔ ((size : ℕ) × ReadsAt blocks front.now half.end trouble.gate size)) }
{
    if !is_behind(half, trouble.gate) || !trouble.is_refused {
        return Ok(false);
    }
    let place = Span {
        start: trouble.gate,
        end: half.end,
    };
    reads_alone(alloc, front, place, blocks)
}

// From which number on the cases are doubtful that stand before the first fault.
fn bound_in(alloc: Global, front: &[u8], shape: Shape, trouble: Trouble) -> Result<u64, OpenFault>
    requires { data_start shape ≤ length front.now }
    ensures only { IsOpenRefusal result }
    ensures bound { IfOk result (IsBound shape front.now trouble) }
{
    let taken = half_of(shape, taken_half(shape, trouble.gate));
    let is_within = is_behind(taken, trouble.gate);
    let alone = is_alone(alloc, front, taken, trouble, shape.data_blocks)?;
    Ok(bound_at(front, taken.start, is_within, trouble, alone))
}

impl Doubts {
    // No record is behind the fault.
    fn new(alloc: Global, bound: u64, blocks: u32) -> Result<Doubts, AllocError>
        ensures bound { IfOk result (λ doubts. doubts.bound ≡ bound) }
    {
        Ok(Doubts {
            bound,
            numbers: BTreeSet::new(alloc),
            names: BTreeSet::new(alloc),
            blocks: Blocks::new(alloc, blocks)?,
        })
    }

    // Takes the case that a record behind the fault stores.
    fn take(&mut self, entry: &Entry) -> Result<(), AllocError>
        ensures bound { self.new.bound ≡ self.old.bound }
        ensures knows { OnOk result (Knows self.new (case_of entry.now)) }
        ensures stay { OnOk result (StayKnown self.old self.new) }
    {
        self.numbers.insert(entry.seq)?;
        self.names.insert(name_key(&entry.name))?;
        self.blocks.take(entry.runs.runs());
        Ok(())
    }

    // Takes the case of a read, if its record begins in this place.
    fn take_behind(&mut self, behind: Span, read: &Read) -> Result<(), AllocError>
        ensures bound { self.new.bound ≡ self.old.bound }
        ensures known { OnOk result (IsKnown self.new behind read.now) }
        ensures stay { OnOk result (StayKnown self.old self.new) }
    {
        if read.place.start < behind.start {
            return Ok(());
        }
        if behind.end <= read.place.start {
            return Ok(());
        }
        self.take(&read.entry)
    }

    /// The reasons why cases are doubtful: a bound, and the records that read and lie behind the fault.
    pub(crate) fn of(
        alloc: Global,
        bound: u64,
        blocks: u32,
        reads: &[Read],
        behind: Span,
    ) -> Result<Doubts, AllocError>
        ensures bound { IfOk result (λ doubts. doubts.bound ≡ bound) }
        ensures known { IfOk result (λ doubts. AreKnown doubts behind reads.now) }
    {
        let mut doubts = Doubts::new(alloc, bound, blocks)?;
        for read in reads {
            doubts.take_behind(behind, read)?;
        }
        Ok(doubts)
    }

    /// Whether a record behind the fault stores another case with the number, the name or a block of this one.
    pub(crate) fn contest(&self, entry: &Entry) -> bool
        ensures { result ≡ false → (c : Case) → Knows self.now c → Contests c (case_of entry.now) → ⊥ }
    {
        if self.numbers.contains(&entry.seq) {
            return true;
        }
        if self.names.contains(&name_key(&entry.name)) {
            return true;
        }
        self.blocks.has_any(entry.runs.runs())
    }
}

// The bytes of a half from a place on, or none if that is not behind its gate.
fn behind_in(half: Span, gate: usize) -> Span
    ensures start { half.start < gate → gate < half.end → result.start ≡ gate }
    ensures end { result.end ≡ half.end }
{
    let start = if is_behind(half, gate) {
        gate
    } else {
        half.end
    };
    Span {
        start,
        end: half.end,
    }
}

/// The reasons why cases before the first fault are doubtful.
pub(crate) fn doubts_of(
    alloc: Global,
    front: &[u8],
    shape: Shape,
    reads: &[Read],
    trouble: Trouble,
) -> Result<Doubts, OpenFault>
    requires { data_start shape ≤ length front.now }
    ensures only { IsOpenRefusal result }
    ensures bound { IfOk result (λ doubts. IsBound shape front.now trouble doubts.bound) }
    ensures known { IfOk result (λ doubts. (r : Read) → Contains reads.now r → IsBehind shape trouble.gate r.place.start → Knows doubts (case_of r.entry)) }
{
    let bound = bound_in(alloc, front, shape, trouble)?;
    let taken = half_of(shape, taken_half(shape, trouble.gate));
    let behind = behind_in(taken, trouble.gate);
    match Doubts::of(alloc, bound, shape.data_blocks, reads, behind) {
        Ok(doubts) => Ok(doubts),
        Err(_) => Err(OpenFault::OutOfMemory),
    }
}
