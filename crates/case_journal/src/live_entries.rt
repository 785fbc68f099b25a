// The entries of the live cases. The oldest case is deleted most often: it is counted as gone, and nothing is moved.
ghost use Rattle.std.specs.Prelude.{◌≡◌, ◌+◌, ◌*◌, ◌<◌, ◌≤◌, ◌++◌, ◌∷◌, [], drop, length, map, IfSome, OnOk, None, option_map};
ghost use Rattle.std.specs.List.{HoldsAt, remove};
ghost use Rattle.journal_layout.specs.declared.entry.Entry.{Entry};
ghost use Rattle.journal_layout.specs.Case.{case_of};
ghost use Rattle.journal_layout.specs.Folding.{dropped, with_pin, with_label};
ghost use Rattle.journal_layout.specs.Live.{seq_of_case};
ghost use Rattle.journal_layout.specs.Soundness.{Rise, case_numbered};

use journal_layout::{Entry, Label};
use journal_snapshot::is_listed;
use std::alloc::{AllocError, Global};
use std::marker::Model;

/// The entries of the live cases, in the order in which they were put. Contracts see them as a list, with the number of
/// further ones that there is memory for.
#[derive(Drop)]
pub(crate) struct LiveEntries {
    // The live ones are after those that are gone.
    all: Vec<Entry>,
    // How many at the front are gone, never more than the live ones.
    first: usize,
}

impl Model for LiveEntries {
    ghost use Rattle.std.specs.Prelude.{◌≤◌, ◌-◌, ◌*◌, drop, length, vec_len, vec_capacity};
    ghost use Rattle.case_journal.specs.LiveList.{LiveList};

    ghost Value = { LiveList };

    ghost view = { λ l. record { entries = drop l.first l.all.items; spare = vec_capacity l.all - vec_len l.all } };

    ghost invariant = { λ l. 2 * l.first ≤ length l.all.items };
}

impl LiveEntries {
    /// These entries, all of them live.
    pub(crate) fn new(all: Vec<Entry>) -> LiveEntries
        ensures { result.entries ≡ all.items }
    {
        LiveEntries { all, first: 0 }
    }

    /// The entries as a slice.
    pub(crate) fn as_slice(&self) -> &[Entry]
        ensures { result.now ≡ self.now.entries }
    {
        self.all.split_at(self.first).1
    }

    /// The allocator that they were made with.
    pub(crate) fn allocator(&self) -> Global {
        *self.all.allocator()
    }

    /// Makes room for one more. `AllocError`: there was no memory for it.
    pub(crate) fn reserve(&mut self) -> Result<(), AllocError>
        ensures entries { self.new.entries ≡ self.old.entries }
        ensures spare { OnOk result (0 < self.new.spare) }
    {
        self.all.reserve(1)
    }

    /// Appends an entry, for which there is room.
    pub(crate) fn push(&mut self, entry: Entry)
        requires { 0 < self.old.spare }
        ensures { self.new.entries ≡ self.old.entries ++ entry ∷ [] }
    {
        self.all.push(entry).unwrap();
    }

    /// Leaves out the entries of these numbers, which rise as theirs do. For one number by itself its entry is looked up
    /// and taken out; for more of them each entry is looked at.
    pub(crate) fn leave_out(&mut self, seqs: &[u32])
        requires order { Rise 0 (map seq_of_case (map case_of self.old.entries)) }
        requires rise { Rise 0 seqs.now }
        ensures { map case_of self.new.entries ≡ dropped seqs.now (map case_of self.old.entries) }
    {
        match seqs {
            [seq] => self.leave_out_one(*seq),
            _ => self.keep_others(seqs),
        }
    }

    // Leaves out the entry of this number, if there is one.
    fn leave_out_one(&mut self, seq: u32)
        requires { Rise 0 (map seq_of_case (map case_of self.old.entries)) }
        ensures { map case_of self.new.entries ≡ dropped (seq ∷ []) (map case_of self.old.entries) }
    {
        if let Some(place) = place_of(self.as_slice(), seq) {
            self.take_out(place);
        }
    }

    // Takes out the entry at this place.
    fn take_out(&mut self, place: usize)
        requires { place < length self.old.entries }
        ensures { self.new.entries ≡ remove self.old.entries place }
    {
        let gone = take_one(&mut self.all, self.first, place);
        self.first = forget_if_many(&mut self.all, gone);
    }

    // Keeps the entries that have none of these numbers, which rise.
    fn keep_others(&mut self, seqs: &[u32])
        requires { Rise 0 seqs.now }
        ensures { map case_of self.new.entries ≡ dropped seqs.now (map case_of self.old.entries) }
    {
        forget_first(&mut self.all, self.first);
        self.first = 0;
        keep_unlisted(&mut self.all, seqs);
    }

    /// Sets the flag of the entry of this number, if there is one.
    pub(crate) fn set_pin(&mut self, seq: u32, flag: bool)
        requires { Rise 0 (map seq_of_case (map case_of self.old.entries)) }
        ensures { map case_of self.new.entries ≡ with_pin seq flag (map case_of self.old.entries) }
    {
        if let Some(place) = place_of(self.as_slice(), seq) {
            let at = self.first + place;
            self.all[at].pinned = flag;
        }
    }

    /// Sets the label of the entry of this number, if there is one.
    pub(crate) fn set_label(&mut self, seq: u32, label: Label)
        requires { Rise 0 (map seq_of_case (map case_of self.old.entries)) }
        ensures { map case_of self.new.entries ≡ with_label seq label.items (map case_of self.old.entries) }
    {
        if let Some(place) = place_of(self.as_slice(), seq) {
            let at = self.first + place;
            self.all[at].label = label;
        }
    }
}

// Takes out the entry at `place` of the live ones; the first `first` entries are gone already. The first live one is counted
// as gone too; for any other the rest moves up. Answers how many at the front are gone then.
fn take_one(entries: &mut Vec<Entry>, first: usize, place: usize) -> usize
    requires { first + place < length entries.old.items }
    ensures left { drop result entries.new.items ≡ remove (drop first entries.old.items) place }
    ensures within { result ≤ length entries.new.items }
{
    if place > 0 {
        entries.remove(first + place);
        return first;
    }
    first + 1
}

// Removes the entries at the front that are gone, if they are more than those after them. Answers how many at the front are
// gone then.
fn forget_if_many(entries: &mut Vec<Entry>, gone: usize) -> usize
    requires { gone ≤ length entries.old.items }
    ensures left { drop result entries.new.items ≡ drop gone entries.old.items }
    ensures few { 2 * result ≤ length entries.new.items }
{
    if gone <= entries.len() / 2 {
        return gone;
    }
    forget_first(entries, gone);
    0
}

// Removes the first `count` entries.
fn forget_first(entries: &mut Vec<Entry>, count: usize)
    requires { count ≤ length entries.old.items }
    ensures { entries.new.items ≡ drop count entries.old.items }
{
    entries.drain(..count);
}

// Keeps the entries that have none of these numbers, which rise.
fn keep_unlisted(entries: &mut Vec<Entry>, seqs: &[u32])
    requires { Rise 0 seqs.now }
    ensures { map case_of entries.new.items ≡ dropped seqs.now (map case_of entries.old.items) }
{
    entries.retain(|entry| !is_listed(seqs, entry.seq));
}

// The place of the entry of this number among entries whose numbers rise.
fn place_of(entries: &[Entry], seq: u32) -> Option<usize>
    requires { Rise 0 (map seq_of_case (map case_of entries.now)) }
    ensures found { IfSome result (λ place. (place < length entries.now) × HoldsAt (λ (e : Entry). e.seq ≡ seq) entries.now place) }
    ensures absent { result ≡ None → case_numbered seq (map case_of entries.now) ≡ None }
{
    entries.binary_search_by_key(&seq, |entry| entry.seq).ok()
}

/// The entry of this number among entries whose numbers rise, if there is one.
pub(crate) fn find_entry(entries: &[Entry], seq: u32) -> Option<&Entry>
    requires { Rise 0 (map seq_of_case (map case_of entries.now)) }
    ensures { option_map (λ (e : _). case_of e.now) result ≡ case_numbered seq (map case_of entries.now) }
{
    match place_of(entries, seq) {
        Some(place) => Some(&entries[place]),
        None => None,
    }
}
