// The meaning of the records so far, kept so that each look-up is short.
ghost use Rattle.std.specs.Prelude.{◌≡◌, ℕ, ◌+◌, ◌*◌, ◌^◌, ◌<◌, ◌≤◌, ◌==◌, ◌∷◌, ◌++◌, [], List, IfOk, OnOk, None, length, slice_index};
ghost use Rattle.journal_layout.specs.Layout.{field};
ghost use Rattle.journal_layout.specs.Case.{case_of};
ghost use Rattle.journal_layout.specs.Record.{Store, Drop, Pin, Next, Label};
ghost use Rattle.journal_layout.specs.Reading.{kind_at, drop_seqs, seq_count_at, case_at, label_at, record_at};
ghost use Rattle.journal_layout.specs.Folding.{nothing_yet, dropped, after};
ghost use Rattle.journal_layout.specs.Checks.{store_fault, drop_fault, pin_fault, first_failing, next_checks, label_fault, body_fault};
ghost use Rattle.journal_records.specs.Head.{IsHeaded, byte_of};
ghost use Rattle.journal_records.specs.Live.{cases_of, AreNumbered};
ghost use Rattle.journal_records.specs.Kept.{said_by, AreKept, Says, OnlyMemory, Reads, ReadsRecord};

use crate::dropped::check_drop;
use crate::head::check_head;
use crate::kind::RecordKind;
use crate::label::{check_label, label_at};
use crate::live_cases::LiveCases;
use crate::names::{NameKey, name_end, name_key, take_name};
use crate::next::read_next;
use crate::padding::check_padding;
use crate::pin::check_pin;
use crate::runs::read_runs;
use crate::store::{check_facts, check_image, entry_at};
use crate::u32_at;
use extents::FreeMap;
use journal_layout::{Entry, OpenFault};
use std::alloc::Global;
use std::collections::BTreeSet;

/// The version of the layout, the live cases, their names, the blocks that none of them holds, and the number of the next case.
#[derive(Drop)]
pub(crate) struct Cases {
    /// The version of the half's layout.
    pub version: u32,
    /// The live cases.
    pub live: LiveCases,
    /// The names of the live cases.
    pub names: BTreeSet<NameKey>,
    /// The data blocks that no live case holds.
    pub free: FreeMap,
    /// The number of the next case.
    pub next: u64,
}

impl Cases {
    /// The state before the first record of a half of this version, in an archive with this number of data blocks.
    /// `OutOfMemory`: there was no memory.
    pub fn new(alloc: Global, version: u32, data_blocks: u32) -> Result<Cases, OpenFault>
        requires { data_blocks ≤ 16777216 }
        ensures says { IfOk result (λ c. Says (nothing_yet version) data_blocks c) }
        ensures only { OnlyMemory result }
    {
        let Ok(free) = FreeMap::new(alloc, data_blocks) else {
            return Err(OpenFault::OutOfMemory);
        };
        Ok(Cases {
            version,
            live: LiveCases::new(alloc),
            names: BTreeSet::new(alloc),
            free,
            next: 1,
        })
    }

    // Ends the case of this number, if there is one: its name and its blocks are free again.
    fn drop_case(&mut self, seq: u32) -> Result<(), OpenFault>
        requires { AreKept self.old }
        ensures { Reads None (after (Drop (seq ∷ [])) (said_by self.old)) (length self.old.free) result self.new }
    {
        let Some(entry) = self.live.find(seq) else {
            return Ok(());
        };
        self.names.remove(&name_key(&entry.name));
        self.free.give_back(entry.runs.runs());
        self.live.end_case(seq)
    }

    // Ends the cases whose numbers a Drop record has.
    fn drop_cases(&mut self, rest: &[u8]) -> Result<(), OpenFault>
        requires kept { AreKept self.old }
        requires in_half { 12 + 4 * seq_count_at rest.now ≤ length rest.now }
        ensures { Reads None (after (Drop (drop_seqs rest.now)) (said_by self.old))
            (length self.old.free) result self.new }
    {
        for index in 0..u32_at(rest, 8) as usize {
            self.drop_case(u32_at(rest, 12 + 4 * index))?;
        }
        Ok(())
    }

    // Keeps a case under its number, which is not below the next one.
    fn push(&mut self, entry: Entry) -> Result<(), OpenFault>
        requires numbered { AreNumbered 0 self.old.next self.old.live.entries }
        requires end { self.old.live.end ≤ self.old.next }
        requires number { self.old.next ≤ entry.seq }
        ensures cases { OnOk result (cases_of self.new.live.entries
            ≡ cases_of self.old.live.entries ++ case_of entry ∷ []) }
        ensures numbered { OnOk result (AreNumbered 0 (entry.seq + 1) self.new.live.entries) }
        ensures end { OnOk result (self.new.live.end ≡ entry.seq + 1) }
        ensures next { OnOk result (self.new.next ≡ entry.seq + 1) }
        ensures bound { OnOk result (entry.seq < 2 ^ 32) }
        ensures version { self.new.version ≡ self.old.version }
        ensures names { self.new.names ≡ self.old.names }
        ensures free { self.new.free ≡ self.old.free }
        ensures only { OnlyMemory result }
    {
        let seq = entry.seq;
        self.live.push(entry)?;
        self.next = u64::from(seq) + 1;
        Ok(())
    }

    // Reads a Store record.
    fn read_store(&mut self, alloc: Global, rest: &[u8], at: u64) -> Result<(), OpenFault>
        requires kept { AreKept self.old }
        requires limit { length self.old.free ≤ 16777216 }
        requires head { IsHeaded rest.now }
        requires disk { at + length rest.now ≤ 2 ^ 63 }
        ensures { Reads (store_fault (length self.old.free) at rest.now (said_by self.old))
            (after (Store (case_at rest.now)) (said_by self.old)) (length self.old.free) result self.new }
    {
        check_facts(rest, at, self.next)?;
        let (runs, blocks) = read_runs(alloc, &mut self.free, rest, at)?;
        check_image(rest, at, blocks)?;
        let name = take_name(&mut self.names, rest, at)?;
        check_padding(rest, at, name_end(rest))?;
        self.push(entry_at(rest, name, runs))?;
        Ok(())
    }

    // Reads a Drop record.
    fn read_drop(&mut self, rest: &[u8], at: u64) -> Result<(), OpenFault>
        requires kept { AreKept self.old }
        requires head { IsHeaded rest.now }
        requires disk { at + length rest.now ≤ 2 ^ 63 }
        ensures { Reads (drop_fault at rest.now (said_by self.old))
            (after (Drop (drop_seqs rest.now)) (said_by self.old)) (length self.old.free) result self.new }
    {
        check_drop(&self.live, rest, at)?;
        self.drop_cases(rest)
    }

    // Reads a Pin record.
    fn read_pin(&mut self, rest: &[u8], at: u64) -> Result<(), OpenFault>
        requires kept { AreKept self.old }
        requires head { IsHeaded rest.now }
        requires disk { at + length rest.now ≤ 2 ^ 63 }
        ensures { Reads (pin_fault at rest.now (said_by self.old))
            (after (Pin (field rest.now 8 4) (slice_index rest.now 12 == 1)) (said_by self.old))
            (length self.old.free) result self.new }
    {
        check_pin(&self.live, rest, at)?;
        self.live.set_pin(u32_at(rest, 8), rest[12] == 1);
        Ok(())
    }

    // Reads a Next record.
    fn read_next(&mut self, rest: &[u8], at: u64) -> Result<(), OpenFault>
        requires kept { AreKept self.old }
        requires head { IsHeaded rest.now }
        requires disk { at + length rest.now ≤ 2 ^ 63 }
        ensures { Reads (first_failing at (next_checks rest.now (said_by self.old)))
            (after (Next (field rest.now 8 8)) (said_by self.old)) (length self.old.free) result self.new }
    {
        self.next = read_next(rest, at, self.next)?;
        Ok(())
    }

    // Reads a Label record.
    fn read_label(&mut self, rest: &[u8], at: u64) -> Result<(), OpenFault>
        requires kept { AreKept self.old }
        requires head { IsHeaded rest.now }
        requires disk { at + length rest.now ≤ 2 ^ 63 }
        ensures { Reads (label_fault at rest.now (said_by self.old))
            (after (Label (field rest.now 8 4) (label_at rest.now)) (said_by self.old))
            (length self.old.free) result self.new }
    {
        check_label(&self.live, rest, at)?;
        self.live.set_label(u32_at(rest, 8), label_at(rest));
        Ok(())
    }

    // Reads the bytes after the head of a record of this kind.
    fn read_body(
        &mut self,
        alloc: Global,
        kind: RecordKind,
        rest: &[u8],
        at: u64,
    ) -> Result<(), OpenFault>
        requires kind { byte_of kind ≡ kind_at rest.now }
        requires kept { AreKept self.old }
        requires limit { length self.old.free ≤ 16777216 }
        requires head { IsHeaded rest.now }
        requires disk { at + length rest.now ≤ 2 ^ 63 }
        ensures { Reads (body_fault (length self.old.free) at rest.now (said_by self.old))
            (after (record_at rest.now) (said_by self.old)) (length self.old.free) result self.new }
    {
        match kind {
            RecordKind::Store => self.read_store(alloc, rest, at),
            RecordKind::Drop => self.read_drop(rest, at),
            RecordKind::Pin => self.read_pin(rest, at),
            RecordKind::Next => self.read_next(rest, at),
            RecordKind::Label => self.read_label(rest, at),
        }
    }

    /// Reads the record that these bytes start with, whose gate is at byte `at` of the disk, and returns its length.
    /// `Damaged`: this field of it is the first bad one. `OutOfMemory`: there was no memory.
    pub fn read_record(&mut self, alloc: Global, rest: &[u8], at: u64) -> Result<usize, OpenFault>
        requires kept { AreKept self.old }
        requires limit { length self.old.free ≤ 16777216 }
        requires disk { at + length rest.now ≤ 2 ^ 63 }
        ensures { ReadsRecord at rest.now self.old result self.new }
    {
        let kind = check_head(self.version, rest, at)?;
        self.read_body(alloc, kind, rest, at)?;
        Ok(u32_at(rest, 4) as usize)
    }
}
