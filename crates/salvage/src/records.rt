// The records of a half that read by themselves, whatever the records before them say.
ghost use Rattle.std.specs.Prelude.{◌≡◌, ◌↔◌, ◌⊎◌, ℕ, ◌+◌, ◌*◌, ◌<◌, ◌≤◌, ◌^◌, [], ◌∷◌, ◌++◌, IfOk, IfSome, IsTrue, List, None, Ok, OnOk, length, slice_index};
ghost use Rattle.case_journal.specs.Viewing.{IsOpenRefusal};
ghost use Rattle.disk_model.specs.Places.{overwritten};
ghost use Rattle.journal_layout.specs.Case.{Case, case_of};
ghost use Rattle.journal_layout.specs.Record.{rounded};
ghost use Rattle.salvage.specs.Alone.{AreZeros, HasHead, IsOther, IsOtherBody, Reads, ReadsAt, StoresCase, alone, between, was_open};
ghost use Rattle.salvage.specs.Cases.{HasCase};
ghost use Rattle.salvage.specs.Reads.{AreAllRead, AreFrom, IsFrom, IsReadAt, IsStored, IsTaken, StayFrom, StayNamed, StayRead};
ghost use Rattle.salvage.specs.Records.{AreDrops, HasEachBut, IsDeleted, IsDeletedAt, AreIndexed, number_of};

use crate::cases::has_case;
use crate::finding::{GATE_OPEN, not_found};
use crate::shut::is_shut;
use byteorder::{ByteOrder, LittleEndian};
use case_journal::Journal;
use journal_layout::{Entry, OpenFault};
use journal_records::replay;
use std::alloc::{AllocError, Global};
use std::collections::BTreeMap;

/// The length of a record is a multiple of so many bytes, and its place in its half is one too.
pub(crate) const STEP: usize = 16;

// The bytes of a half's header.
const HEADER: usize = 32;

// The bytes of the kinds of records.
const STORE: u8 = 1;

const DROP: u8 = 2;

const PIN: u8 = 3;

const NEXT: u8 = 4;

const LABEL: u8 = 5;

// The layout with all kinds of records.
const VERSION: u32 = 2;

// The most data blocks of an archive.
const MOST_BLOCKS: u32 = 16_777_216;

/// The start and the end of a half of the journal, or of a record in it.
#[derive(Clone, Copy)]
pub(crate) struct Span {
    pub(crate) start: usize,
    pub(crate) end: usize,
}

/// The fate of a case that a record stores.
#[derive(Clone, Copy, PartialEq, Eq)]
pub(crate) enum Fate {
    /// It is copied.
    Copied,
    /// Another record stores the same case.
    Same,
    /// Its number is that of another case that is copied.
    Number,
    /// Its name is.
    Name,
    /// A block of it is.
    Block,
    /// The records that are copied leave it no room in a half.
    Room,
}

/// A Store record that reads by itself.
#[derive(Drop)]
pub(crate) struct Read {
    /// Its place among the archive's bytes.
    pub(crate) place: Span,
    /// The case that it stores, pinned or not as the last Pin record behind it says.
    pub(crate) entry: Entry,
    /// The place of the last Label record behind it that names the case.
    pub(crate) label: Option<Span>,
    pub(crate) fate: Fate,
}

/// A number that a Drop record names.
#[derive(Clone, Copy)]
pub(crate) struct Dropped {
    pub(crate) seq: u32,
    /// The place of the record among the archive's bytes.
    pub(crate) place: usize,
}

/// The facts of those records of the halves that read by themselves.
#[derive(Drop)]
pub(crate) struct Scan {
    /// The cases that are stored.
    pub(crate) reads: Vec<Read>,
    /// The numbers that Drop records name.
    drops: Vec<Dropped>,
    // Which of `drops` is the first of a number.
    dropped: BTreeMap<u32, usize>,
    // Which of `reads` is the last of a number, in the half that is read.
    latest: BTreeMap<u32, usize>,
}

/// The byte at a place; 0 past the end.
pub(crate) fn byte_at(bytes: &[u8], place: usize) -> u8
    ensures { result ≡ slice_index bytes.now place }
{
    match bytes.get(place) {
        Some(byte) => *byte,
        None => 0,
    }
}

/// The four bytes from a place on, as a number; 0 if they are not all there.
pub(crate) fn number_at(bytes: &[u8], place: usize) -> u32
    ensures { result ≡ number_of bytes.now place }
{
    if place > bytes.len() || bytes.len() - place < 4 {
        return 0;
    }
    LittleEndian::read_u32(&bytes[place..])
}

/// Whether a gate is open, or was before one of its bits changed.
pub(crate) fn was_open(gate: u8) -> bool
    ensures { result ≡ was_open gate }
{
    gate == GATE_OPEN || is_shut(gate)
}

/// Puts bytes in their place, if they fit.
pub(crate) fn put(into: &mut [u8], at: usize, bytes: &[u8])
    ensures long { length into.new ≡ length into.old }
    ensures there { at + length bytes.now ≤ length into.old → into.new ≡ overwritten into.old at bytes.now }
{
    if at > into.len() || bytes.len() > into.len() - at {
        return;
    }
    into[at..at + bytes.len()].copy_from_slice(bytes);
}

// So many bytes, rounded up as a record's.
fn rounded(bytes: usize) -> usize
    requires { bytes + 15 < 2 ^ 64 }
    ensures { result ≡ rounded bytes }
{
    (bytes + 15) / STEP * STEP
}

/// Whether the bytes from one place to another are zeros.
pub(crate) fn are_zeros(bytes: &[u8], start: usize, end: usize) -> bool
    ensures { IsTrue result ↔ AreZeros bytes.now start end }
{
    for place in start..end {
        if byte_at(bytes, place) != 0 {
            return false;
        }
    }
    true
}

// The length of a Label record with a text of so many bytes; 0 if others than zeros fill it up.
fn label_length(rest: &[u8], text: usize) -> usize
    requires { text ≤ 64 }
    ensures has { 0 < result → (result ≡ rounded (16 + text)) × AreZeros rest.now (16 + text) (rounded (16 + text)) }
    ensures each { AreZeros rest.now (16 + text) (rounded (16 + text)) → result ≡ rounded (16 + text) }
{
    let length = rounded(16 + text);
    if are_zeros(rest, 16 + text, length) {
        length
    } else {
        0
    }
}

// The length that the body of a record wants which is no Store record; 0 if it can't be one.
fn wanted(rest: &[u8]) -> usize
    ensures has { 0 < result → IsOtherBody rest.now result }
    ensures each { (size : ℕ) → IsOtherBody rest.now size → result ≡ size }
{
    match byte_at(rest, 1) {
        DROP if number_at(rest, 8) > 0 => rounded(12 + 4 * number_at(rest, 8) as usize),
        PIN if byte_at(rest, 12) <= 1 => STEP,
        NEXT => STEP,
        LABEL if number_at(rest, 12) <= 64 => label_length(rest, number_at(rest, 12) as usize),
        _ => 0,
    }
}

// The length of the record at the front of these bytes by its head; 0 if that is no record's.
fn head_length(rest: &[u8]) -> usize
    ensures has { 0 < result → HasHead rest.now result }
    ensures each { (size : ℕ) → HasHead rest.now size → result ≡ size }
    ensures small { result < 2 ^ 32 }
{
    let length = number_at(rest, 4) as usize;
    if !was_open(byte_at(rest, 0)) || byte_at(rest, 2) != 0 || byte_at(rest, 3) != 0 {
        return 0;
    }
    if length < STEP || length % STEP != 0 || rest.len() <= length {
        return 0;
    }
    length
}

/// Whether a record that is no Store record reads at the front of these bytes.
pub(crate) fn is_other(rest: &[u8]) -> bool
    ensures has { IsTrue result → IsOther rest.now (number_of rest.now 4) }
    ensures each { (size : ℕ) → IsOther rest.now size → IsTrue result }
{
    let length = head_length(rest);
    length > 0 && wanted(rest) == length
}

// The record at the front of these bytes, its gate open and the one behind it closed.
fn alone(alloc: Global, rest: &[u8], size: usize) -> Result<Vec<u8>, AllocError>
    ensures some { IfOk result (λ made. 1 ≤ length made.items) }
    ensures is { size ≤ length rest.now → IfOk result (λ made. made.items ≡ alone rest.now size) }
{
    let mut record = vec![in alloc; 0u8; size.saturating_add(1)]?;
    if let Some(from) = rest.get(..size) {
        put(&mut record, 0, from);
    }
    put(&mut record, 0, &[GATE_OPEN]);
    Ok(record)
}

// The case that a Store record says which reads as the only record of a half.
fn stored(
    alloc: Global,
    rest: &[u8],
    length: usize,
    blocks: u32,
) -> Result<Option<Entry>, OpenFault>
    requires { length < 2 ^ 32 }
    ensures only { IsOpenRefusal result }
    ensures stored { IsStored blocks rest.now length result }
{
    if blocks > MOST_BLOCKS {
        return Ok(None);
    }
    let Ok(record) = alone(alloc, rest, length) else {
        return Err(OpenFault::OutOfMemory);
    };
    match replay(alloc, &record, 0, VERSION, blocks) {
        Ok(said) => {
            let mut entries = said.entries;
            Ok(entries.pop())
        }
        Err(fault) => {
            not_found(fault)?;
            Ok(None)
        }
    }
}

/// Whether a record reads by itself at the start of a place, which ends with its half.
pub(crate) fn reads_alone(
    alloc: Global,
    front: &[u8],
    place: Span,
    blocks: u32,
) -> Result<bool, OpenFault>
    ensures only { IsOpenRefusal result }
    ensures reads { place.start ≤ place.end → place.end ≤ length front.now
        → IfOk result (λ alone. IsTrue alone ↔ ((size : ℕ) × ReadsAt blocks front.now place.end place.start size)) }
{
    let Some(rest) = front.get(place.start..place.end) else {
        return Ok(false);
    };
    if is_other(rest) {
        return Ok(true);
    }
    let length = head_length(rest);
    if length == 0 {
        return Ok(false);
    }
    if byte_at(rest, 1) != STORE {
        return Ok(false);
    }
    let stored = stored(alloc, rest, length, blocks)?;
    Ok(stored.is_some())
}

impl Scan {
    /// Nothing is read yet.
    pub(crate) fn new(alloc: Global) -> Scan
        ensures drops { result.drops.items ≡ [] }
        ensures reads { result.reads.items ≡ [] }
        ensures indexed { AreIndexed result.drops.items result.dropped }
    {
        Scan {
            reads: Vec::new(alloc),
            drops: Vec::new(alloc),
            dropped: BTreeMap::new(alloc),
            latest: BTreeMap::new(alloc),
        }
    }

    /// A record that names a number to delete its case, if one does that reads.
    pub(crate) fn deleting(&self, seq: u32) -> Option<usize>
        ensures deleted { IfSome result (λ place. IsDeleted self.now.drops.items seq) }
        ensures place { IsDeletedAt self.now.drops.items seq result }
        ensures none { AreIndexed self.now.drops.items self.now.dropped → result ≡ None → IsDeleted self.now.drops.items seq → ⊥ }
    {
        let index = *self.dropped.get(&seq)?;
        match self.drops.get(index) {
            Some(dropped) if dropped.seq == seq => Some(dropped.place),
            _ => None,
        }
    }

    // Takes a case that a record at this place stores.
    fn take_store(&mut self, place: Span, entry: Entry) -> Result<(), AllocError>
        ensures drops { self.new.drops ≡ self.old.drops }
        ensures dropped { self.new.dropped ≡ self.old.dropped }
        ensures stay { OnOk result (StayRead self.old.reads.items self.new.reads.items) }
        ensures has { OnOk result (IsReadAt self.new.reads.items place.start (case_of entry)) }
        ensures from { OnOk result ((blocks : ℕ) (bytes : List ℕ)
            → IsFrom blocks bytes (record { place = place; entry = entry; label = None; fate = Fate.Same })
            → AreFrom blocks bytes self.old.reads.items → AreFrom blocks bytes self.new.reads.items) }
    {
        self.latest.insert(entry.seq, self.reads.len())?;
        self.reads.push(Read {
            place,
            entry,
            label: None,
            fate: Fate::Same,
        })?;
        Ok(())
    }

    // Keeps which of `drops` is the first of a number. The next one has it.
    fn keep_number(&mut self, seq: u32) -> Result<(), AllocError>
        ensures drops { self.new.drops ≡ self.old.drops }
        ensures reads { self.new.reads ≡ self.old.reads }
        ensures indexed { OnOk result ((place : ℕ) → AreIndexed self.old.drops.items self.old.dropped
            → AreIndexed (self.old.drops.items ++ record { seq = seq; place = place } ∷ []) self.new.dropped) }
    {
        if self.dropped.get(&seq).is_none() {
            self.dropped.insert(seq, self.drops.len())?;
        }
        Ok(())
    }

    // Takes the number at a place of a Drop record.
    fn take_number(&mut self, front: &[u8], place: usize, index: usize) -> Result<(), AllocError>
        requires kind { slice_index front.now (place + 1) ≡ 2 }
        requires small { place + 12 + 4 * index < 2 ^ 64 }
        ensures drops { AreDrops front.now self.old.drops.items → AreDrops front.now self.new.drops.items }
        ensures reads { self.new.reads ≡ self.old.reads }
        ensures indexed { OnOk result (AreIndexed self.old.drops.items self.old.dropped → AreIndexed self.new.drops.items self.new.dropped) }
        ensures kept { OnOk result (StayNamed self.old.drops.items self.new.drops.items) }
        ensures named { OnOk result (IsDeleted self.new.drops.items (number_of front.now (place + 12 + 4 * index))) }
    {
        let seq = number_at(front, place + 12 + 4 * index);
        self.keep_number(seq)?;
        self.drops.push(Dropped { seq, place })?;
        Ok(())
    }

    // Takes the numbers that a Drop record at this place names.
    fn take_drop(&mut self, front: &[u8], place: Span) -> Result<(), AllocError>
        ensures drops { AreDrops front.now self.old.drops.items → AreDrops front.now self.new.drops.items }
        ensures reads { self.new.reads ≡ self.old.reads }
        ensures indexed { OnOk result (AreIndexed self.old.drops.items self.old.dropped → AreIndexed self.new.drops.items self.new.dropped) }
        ensures kept { OnOk result (StayNamed self.old.drops.items self.new.drops.items) }
        ensures named { OnOk result (slice_index front.now (place.start + 1) ≡ 2 → (index : ℕ) → index < number_of front.now (place.start + 8)
            → IsDeleted self.new.drops.items (number_of front.now (place.start + 12 + 4 * index))) }
    {
        let at = place.start;
        if at >= front.len() || byte_at(front, at + 1) != DROP {
            return Ok(());
        }
        for index in 0..number_at(front, at + 8) {
            self.take_number(front, at, index as usize)?;
        }
        Ok(())
    }

    // Takes the flag of a Pin record.
    fn take_pin(&mut self, seq: u32, flag: bool)
        ensures drops { self.new.drops ≡ self.old.drops }
        ensures dropped { self.new.dropped ≡ self.old.dropped }
        ensures stay { StayRead self.old.reads.items self.new.reads.items }
        ensures from { StayFrom self.old.reads.items self.new.reads.items }
    {
        let Some(index) = self.latest.get(&seq) else {
            return;
        };
        if *index < self.reads.len() {
            self.reads[*index].entry.pinned = flag;
        }
    }

    // Takes the place of the record of a label.
    fn take_label(&mut self, seq: u32, place: Span)
        ensures drops { self.new.drops ≡ self.old.drops }
        ensures dropped { self.new.dropped ≡ self.old.dropped }
        ensures stay { StayRead self.old.reads.items self.new.reads.items }
        ensures from { StayFrom self.old.reads.items self.new.reads.items }
    {
        let Some(index) = self.latest.get(&seq) else {
            return;
        };
        if *index < self.reads.len() {
            self.reads[*index].label = Some(place);
        }
    }

    // Takes the facts of a record that is no Store record.
    fn take_other(&mut self, front: &[u8], place: Span) -> Result<(), AllocError>
        ensures drops { AreDrops front.now self.old.drops.items → AreDrops front.now self.new.drops.items }
        ensures stay { StayRead self.old.reads.items self.new.reads.items }
        ensures from { StayFrom self.old.reads.items self.new.reads.items }
        ensures indexed { OnOk result (AreIndexed self.old.drops.items self.old.dropped → AreIndexed self.new.drops.items self.new.dropped) }
        ensures kept { OnOk result (StayNamed self.old.drops.items self.new.drops.items) }
        ensures named { OnOk result (slice_index front.now (place.start + 1) ≡ 2 → (index : ℕ) → index < number_of front.now (place.start + 8)
            → IsDeleted self.new.drops.items (number_of front.now (place.start + 12 + 4 * index))) }
    {
        let Some(rest) = front.get(place.start..) else {
            return Ok(());
        };
        let seq = number_at(rest, 8);
        match byte_at(rest, 1) {
            DROP => self.take_drop(front, place)?,
            PIN => self.take_pin(seq, byte_at(rest, 12) == 1),
            LABEL => self.take_label(seq, place),
            _ => {}
        }
        Ok(())
    }

    // Takes the facts of the record that reads at the start of a
    // place. Returns its length, or 0 if no record reads there.
    fn take(
        &mut self,
        alloc: Global,
        front: &[u8],
        place: Span,
        blocks: u32,
    ) -> Result<usize, OpenFault>
        ensures only { IsOpenRefusal result }
        ensures drops { AreDrops front.now self.old.drops.items → AreDrops front.now self.new.drops.items }
        ensures stay { OnOk result (StayRead self.old.reads.items self.new.reads.items) }
        ensures indexed { OnOk result (AreIndexed self.old.drops.items self.old.dropped → AreIndexed self.new.drops.items self.new.dropped) }
        ensures kept { OnOk result (StayNamed self.old.drops.items self.new.drops.items) }
        ensures from { OnOk result (AreFrom blocks front.now self.old.reads.items → AreFrom blocks front.now self.new.reads.items) }
        ensures length { IfOk result (λ size. 0 < size → Reads blocks (between front.now place.start place.end) size) }
        ensures taken { place.start ≤ place.end → place.end ≤ length front.now
            → OnOk result (IsTaken blocks (between front.now place.start place.end) place.start self.new.reads.items self.new.drops.items) }
    {
        let Some(rest) = front.get(place.start..place.end) else {
            return Ok(0);
        };
        let length = head_length(rest);
        let record = Span {
            start: place.start,
            end: place.start.saturating_add(length),
        };
        if is_other(rest) {
            return counted(self.take_other(front, record), length);
        }
        if length == 0 {
            return Ok(0);
        }
        if byte_at(rest, 1) != STORE {
            return Ok(0);
        }
        match stored(alloc, rest, length, blocks)? {
            Some(entry) => counted(self.take_store(record, entry), length),
            None => Ok(0),
        }
    }

    /// Reads the records of a half if its gate is not closed. The first record begins where the header ends, and each next record
    /// where the one before it ends. If no record can be read there, it may begin 16 bytes later. The records end with the half. They
    /// also end at a closed gate that follows the header, the first record or two records in a row: 16 bytes within a bad record
    /// may look like a record.
    pub(crate) fn read_half(
        &mut self,
        alloc: Global,
        front: &[u8],
        half: Span,
        blocks: u32,
    ) -> Result<(), OpenFault>
        ensures only { IsOpenRefusal result }
        ensures drops { AreDrops front.now self.old.drops.items → AreDrops front.now self.new.drops.items }
        ensures stay { OnOk result (StayRead self.old.reads.items self.new.reads.items) }
        ensures indexed { OnOk result (AreIndexed self.old.drops.items self.old.dropped → AreIndexed self.new.drops.items self.new.dropped) }
        ensures kept { OnOk result (StayNamed self.old.drops.items self.new.drops.items) }
        ensures from { OnOk result (AreFrom blocks front.now self.old.reads.items → AreFrom blocks front.now self.new.reads.items) }
        ensures all { half.end ≤ length front.now → OnOk result (AreAllRead blocks front.now half.start half.end self.new.reads.items self.new.drops.items) }
    {
        self.latest = BTreeMap::new(alloc);
        if !was_open(byte_at(front, half.start)) {
            return Ok(());
        }
        let end = half.end.min(front.len());
        let mut start = half.start.saturating_add(HEADER);
        // Behind the header a closed gate ends the records, and behind two in a row.
        let mut in_row = 2usize;
        while start < end {
            let length = self.take(alloc, front, Span { start, end }, blocks)?;
            if length == 0 && in_row >= 2 && !was_open(byte_at(front, start)) {
                return Ok(());
            }
            in_row = row_after(in_row, length);
            start = start.saturating_add(length.max(STEP));
        }
        Ok(())
    }

    // Whether a journal has a case, or a record deletes it that reads.
    fn keeps(&self, journal: &Journal, entry: &Entry) -> bool
        ensures { IsTrue result → HasCase journal.now.standing.cases (case_of entry.now) ⊎ IsDeleted self.now.drops.items entry.now.seq }
    {
        if has_case(journal, entry) {
            return true;
        }
        self.deleting(entry.seq).is_some()
    }

    /// Whether a journal has each case of another that no record deletes which reads.
    pub(crate) fn has_each(&self, journal: &Journal, first: &Journal) -> bool
        ensures { IsTrue result → HasEachBut self.now.drops.items journal.now.standing.cases first.now.standing.cases }
    {
        for entry in first.entries() {
            if !self.keeps(journal, entry) {
                return false;
            }
        }
        true
    }
}

// How many records stand in a row, after so many and one of this length, or none.
fn row_after(row: usize, length: usize) -> usize
    ensures none { length ≡ 0 → result ≡ 0 }
    ensures more { 0 < length → result ≤ row + 1 }
{
    if length == 0 {
        return 0;
    }
    row.saturating_add(1)
}

// So many bytes are read, if there was memory for their facts.
fn counted(taken: Result<(), AllocError>, length: usize) -> Result<usize, OpenFault>
    ensures only { IsOpenRefusal result }
    ensures taken { OnOk result (taken ≡ Ok tt) }
    ensures length { IfOk result (λ n. n ≡ length) }
{
    match taken {
        Ok(()) => Ok(length),
        Err(_) => Err(OpenFault::OutOfMemory),
    }
}
