// A change of a journal's cases.
ghost use Rattle.std.specs.Prelude.{◌≡◌, ◌==◌, ℕ, if◌then◌else◌, Some, None};
ghost use Rattle.journal_layout.specs.Folding.{is_among};
ghost use Rattle.journal_layout.specs.Soundness.{Rise};
ghost use Rattle.journal_layout.specs.Case.{case_of};
ghost use Rattle.journal_snapshot.specs.Changing.{flag_after, label_after, IsOrdered};

use journal_layout::{Entry, Label};

/// A change of a journal's cases.
#[derive(Clone, Copy)]
pub enum Change<'a> {
    /// They stay as they are.
    Nothing,
    /// One case more, under this number.
    Store(u32, &'a Entry),
    /// The cases of these numbers, which rise, are gone.
    Drop(&'a [u32]),
    /// The case of this number is pinned or not.
    Pin(u32, bool),
    /// The case of this number has this label.
    Label(u32, &'a Label),
    /// They stay as they are, in version 2 of the layout.
    Upgrade,
}

impl Change<'_> {
    /// Whether a case is pinned then; `None` if it is gone.
    pub(crate) fn flag_of(&self, entry: &Entry) -> Option<bool>
        requires { IsOrdered self.now }
        ensures { result ≡ flag_after self.now (case_of entry.now) }
    {
        match self {
            Change::Nothing => Some(entry.pinned),
            Change::Store(_, _) => Some(entry.pinned),
            Change::Drop(seqs) => kept_flag(entry, is_listed(seqs, entry.seq)),
            Change::Pin(seq, flag) => Some(pinned_flag(entry, *seq, *flag)),
            Change::Label(_, _) => Some(entry.pinned),
            Change::Upgrade => Some(entry.pinned),
        }
    }

    /// The label of a case then, if it is not gone.
    pub(crate) fn label_of<'b>(&'b self, entry: &'b Entry) -> &'b Label
        ensures { result.now.items ≡ label_after self.now (case_of entry.now) }
    {
        match self {
            Change::Nothing => &entry.label,
            Change::Store(_, _) => &entry.label,
            Change::Drop(_) => &entry.label,
            Change::Pin(_, _) => &entry.label,
            Change::Label(seq, label) => given_label(entry, *seq, label),
            Change::Upgrade => &entry.label,
        }
    }
}

// The flag of a case, unless it is gone.
fn kept_flag(entry: &Entry, gone: bool) -> Option<bool>
    ensures { result ≡ (if gone then None else Some entry.now.pinned) }
{
    if gone {
        return None;
    }
    Some(entry.pinned)
}

// The flag of a case once the one of this number has that flag.
fn pinned_flag(entry: &Entry, seq: u32, flag: bool) -> bool
    ensures { result ≡ (if entry.now.seq == seq then flag else entry.now.pinned) }
{
    if entry.seq == seq { flag } else { entry.pinned }
}

// The label of a case once the one of this number has that label.
fn given_label<'b>(entry: &'b Entry, seq: u32, label: &'b Label) -> &'b Label
    ensures { result.now.items ≡ (if entry.now.seq == seq then label.now.items else entry.now.label.items) }
{
    if entry.seq == seq {
        label
    } else {
        &entry.label
    }
}

/// Whether the number is one of these, which rise.
pub fn is_listed(seqs: &[u32], seq: u32) -> bool
    requires { Rise 0 seqs.now }
    ensures { result ≡ is_among seqs.now seq }
{
    seqs.binary_search(&seq).is_ok()
}
