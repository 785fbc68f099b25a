// The live cases. They are stored in the order of their numbers, so a binary search finds each. One that ends stays where it
// is, and its number is noted: the ended ones are taken out once, at the end of a reading.
ghost use Rattle.std.specs.Prelude.{◌≡◌, ℕ, ◌+◌, ◌<◌, ◌≤◌, ◌++◌, ◌∷◌, [], false, not, length, is_some, IfSome, OnOk, IsTrue, None};
ghost use Rattle.std.specs.List.{HoldsAt, filter};
ghost use Rattle.std.specs.Option.{option_copied};
ghost use Rattle.std.specs.Map.{lookup, remove_entry, values_of};
ghost use Rattle.std.specs.BTreeMap.{is_at};
ghost use Rattle.std.specs.Ordering.{nat_cmp};
ghost use Rattle.journal_layout.specs.declared.entry.Entry.{Entry};
ghost use Rattle.journal_records.specs.Live.{with_flag, with_text, changed_in};
ghost use Rattle.journal_records.specs.Stored.{has_number, staying, AreInOrder};
ghost use Rattle.journal_records.specs.Kept.{OnlyMemory};

use journal_layout::{Entry, Label, OpenFault};
use std::alloc::Global;
use std::collections::BTreeSet;
use std::marker::Model;

/// The live cases. Contracts see them as entries under their numbers, with a number above all that were ever stored.
#[derive(Drop)]
pub(crate) struct LiveCases {
    // The cases that were stored, in the order of their numbers.
    stored: Vec<Entry>,
    // The numbers of those that ended.
    ended: BTreeSet<u32>,
}

impl Model for LiveCases {
    ghost use Rattle.journal_records.specs.Stored.{Numbered, has_number, staying, end_after, AreStored};

    ghost Value = { Numbered };

    ghost view = { λ l. record { entries = staying (has_number l.ended) l.stored.items; end = end_after 0 l.stored.items } };

    ghost invariant = { λ l. AreStored (has_number l.ended) l.stored.items };
}

impl LiveCases {
    /// No cases. They take no memory.
    pub fn new(alloc: Global) -> LiveCases
        ensures none { result.entries ≡ [] }
        ensures end { result.end ≡ 0 }
    {
        LiveCases {
            stored: Vec::new(alloc),
            ended: BTreeSet::new(alloc),
        }
    }

    /// The case of this number, if there is one.
    pub fn find(&self, seq: u32) -> Option<&Entry>
        ensures value { option_copied result ≡ lookup (is_at (nat_cmp seq)) self.now.entries }
    {
        entry_of(&self.stored, &self.ended, seq)
    }

    /// Pins the case of this number, or unpins it. If no case has it, nothing changes.
    pub fn set_pin(&mut self, seq: u32, flag: bool)
        ensures entries { self.new.entries ≡ changed_in seq (with_flag flag) self.old.entries }
        ensures end { self.new.end ≡ self.old.end }
    {
        if let Some(place) = place_of(&self.stored, &self.ended, seq) {
            self.stored[place].pinned = flag;
        }
    }

    /// Gives the case of this number a label. If no case has it, nothing changes.
    pub fn set_label(&mut self, seq: u32, label: Label)
        ensures entries { self.new.entries ≡ changed_in seq (with_text label) self.old.entries }
        ensures end { self.new.end ≡ self.old.end }
    {
        if let Some(place) = place_of(&self.stored, &self.ended, seq) {
            self.stored[place].label = label;
        }
    }

    /// Ends the case of this number, which there is. `OutOfMemory`: there was no memory.
    pub fn end_case(&mut self, seq: u32) -> Result<(), OpenFault>
        requires { IsTrue (is_some (lookup (is_at (nat_cmp seq)) self.old.entries)) }
        ensures entries { OnOk result (self.new.entries ≡ remove_entry (is_at (nat_cmp seq)) self.old.entries) }
        ensures end { self.new.end ≡ self.old.end }
        ensures only { OnlyMemory result }
    {
        let Ok(_) = self.ended.insert(seq) else {
            return Err(OpenFault::OutOfMemory);
        };
        Ok(())
    }

    /// Puts a case after the others. `OutOfMemory`: there was no memory.
    pub fn push(&mut self, entry: Entry) -> Result<(), OpenFault>
        requires { self.old.end ≤ entry.seq }
        ensures entries { OnOk result (self.new.entries ≡ self.old.entries ++ (entry.seq, entry) ∷ []) }
        ensures end { OnOk result (self.new.end ≡ entry.seq + 1) }
        ensures only { OnlyMemory result }
    {
        let Ok(()) = self.stored.push(entry) else {
            return Err(OpenFault::OutOfMemory);
        };
        Ok(())
    }

    /// The cases alone, in the order of their numbers.
    pub fn into_entries(self) -> Vec<Entry>
        ensures { result.items ≡ values_of self.entries }
    {
        let LiveCases { mut stored, ended } = self;
        take_out(&mut stored, &ended);
        stored
    }
}

// The place of the case of this number, unless it ended.
fn place_of(stored: &[Entry], ended: &BTreeSet<u32>, seq: u32) -> Option<usize>
    requires { AreInOrder 0 stored.now }
    ensures found { IfSome result (λ place. (place < length stored.now) × HoldsAt (λ (e : Entry). e.seq ≡ seq) stored.now place) }
    ensures live { IfSome result (λ place. has_number ended.now seq ≡ false) }
    ensures absent { result ≡ None
        → lookup (is_at (nat_cmp seq)) (staying (has_number ended.now) stored.now) ≡ None }
{
    if ended.contains(&seq) {
        return None;
    }
    stored.binary_search_by_key(&seq, |entry| entry.seq).ok()
}

// The case of this number, unless it ended.
fn entry_of<'a>(stored: &'a [Entry], ended: &BTreeSet<u32>, seq: u32) -> Option<&'a Entry>
    requires { AreInOrder 0 stored.now }
    ensures { option_copied result
        ≡ lookup (is_at (nat_cmp seq)) (staying (has_number ended.now) stored.now) }
{
    match place_of(stored, ended, seq) {
        Some(place) => Some(&stored[place]),
        None => None,
    }
}

// Takes out the cases of these numbers, and gives back the memory that they leave.
fn take_out(stored: &mut Vec<Entry>, ended: &BTreeSet<u32>)
    ensures { stored.new.items
        ≡ filter (λ (e : Entry). not (has_number ended.now e.seq)) stored.old.items }
{
    if ended.is_empty() {
        return;
    }
    stored.retain(|entry| !ended.contains(&entry.seq));
    stored.shrink_to_fit();
}
