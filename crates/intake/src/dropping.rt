// The blocks of cases that are dropped. Each is looked up by its number, so that no other case is looked at.
ghost use Rattle.std.specs.Prelude.{◌∷◌, [], map};
ghost use Rattle.journal_layout.specs.Folding.{used_blocks};
ghost use Rattle.journal_layout.specs.Live.{gone, seq_of_case};
ghost use Rattle.journal_layout.specs.Soundness.{Rise};
ghost use Rattle.intake.specs.Balance.{AreFree, AreHeld, Balances};

use crate::blocks::hold;
use case_journal::Journal;
use extents::FreeMap;

// Gives the blocks of the case of this number back, if there is one.
fn release_numbered(free: &mut FreeMap, journal: &Journal, seq: u32)
    requires order { Rise 0 (map seq_of_case journal.now.standing.cases) }
    requires held { AreHeld free.old (used_blocks (gone (seq ∷ []) journal.now.standing.cases)) }
    ensures { Balances free.old (used_blocks (gone (seq ∷ []) journal.now.standing.cases)) free.new [] }
{
    if let Some(entry) = journal.entry(seq) {
        free.give_back(entry.runs.runs());
    }
}

/// Gives the blocks of the cases of these numbers back.
pub(crate) fn release_listed(free: &mut FreeMap, journal: &Journal, seqs: &[u32])
    requires rise { Rise 0 seqs.now }
    requires order { Rise 0 (map seq_of_case journal.now.standing.cases) }
    requires held { AreHeld free.old (used_blocks (gone seqs.now journal.now.standing.cases)) }
    ensures { Balances free.old (used_blocks (gone seqs.now journal.now.standing.cases)) free.new [] }
{
    for seq in seqs {
        release_numbered(free, journal, *seq);
    }
}

// Marks the blocks of the case of this number as used, if there is one.
fn hold_numbered(free: &mut FreeMap, journal: &Journal, seq: u32)
    requires order { Rise 0 (map seq_of_case journal.now.standing.cases) }
    requires free { AreFree free.old (used_blocks (gone (seq ∷ []) journal.now.standing.cases)) }
    ensures { Balances free.old [] free.new (used_blocks (gone (seq ∷ []) journal.now.standing.cases)) }
{
    if let Some(entry) = journal.entry(seq) {
        hold(free, &entry.runs);
    }
}

/// Marks the blocks of the cases of these numbers as used.
pub(crate) fn hold_listed(free: &mut FreeMap, journal: &Journal, seqs: &[u32])
    requires rise { Rise 0 seqs.now }
    requires order { Rise 0 (map seq_of_case journal.now.standing.cases) }
    requires free { AreFree free.old (used_blocks (gone seqs.now journal.now.standing.cases)) }
    ensures { Balances free.old [] free.new (used_blocks (gone seqs.now journal.now.standing.cases)) }
{
    for seq in seqs {
        hold_numbered(free, journal, *seq);
    }
}
