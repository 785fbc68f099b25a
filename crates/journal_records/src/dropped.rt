// A Drop record: some cases end.
ghost use Rattle.std.specs.Prelude.{◌≡◌, ℕ, ◌+◌, ◌*◌, ◌^◌, ◌<◌, ◌≤◌, length, OnOk, nat_le, ◌||◌};
ghost use Rattle.std.specs.Result.{result_err};
ghost use Rattle.std.specs.Option.{option_map};
ghost use Rattle.journal_layout.specs.Record.{rounded};
ghost use Rattle.journal_layout.specs.Reading.{length_at, seq_count_at, drop_seqs};
ghost use Rattle.journal_layout.specs.Checks.{damaged, first_failing, count_checks, first_bad_seq, drop_fault, is_kept};
ghost use Rattle.journal_layout.specs.Folding.{Folded};
ghost use Rattle.journal_layout.specs.Soundness.{case_numbered};
ghost use Rattle.journal_layout.specs.declared.faults.Field.TheVariants as named;
ghost use Rattle.journal_records.specs.Head.{IsHeaded};
ghost use Rattle.journal_records.specs.Live.{AreNumbered, cases_of};

use crate::live_cases::LiveCases;
use crate::padding::check_padding;
use crate::{damaged, rounded, u32_at};
use journal_layout::{Field, OpenFault};

// A record has at least one number, and as many as fit its length.
fn check_count(rest: &[u8], at: u64) -> Result<(), OpenFault>
    requires head { IsHeaded rest.now }
    requires disk { at + length rest.now ≤ 2 ^ 63 }
    ensures fault { result_err result ≡ first_failing at (count_checks rest.now) }
    ensures fits { OnOk result (12 + 4 * seq_count_at rest.now ≤ length_at rest.now) }
{
    let count = u32_at(rest, 8) as u64;
    if count == 0 || rounded(12 + 4 * count) != u32_at(rest, 4) as u64 {
        return Err(damaged(at, Field::Count, 8));
    }
    Ok(())
}

// Whether a case may not be dropped: no case has this number, or it is pinned.
fn is_kept(live: &LiveCases, seq: u32) -> bool
    requires { AreNumbered 0 (2 ^ 32) live.now.entries }
    ensures { result ≡ is_kept (case_numbered seq (cases_of live.now.entries)) }
{
    match live.find(seq) {
        Some(entry) => entry.pinned,
        None => true,
    }
}

// Whether this number may not follow the number `last` in a Drop record.
fn is_bad_seq(live: &LiveCases, last: u32, seq: u32) -> bool
    requires { AreNumbered 0 (2 ^ 32) live.now.entries }
    ensures { result ≡ (nat_le seq last || is_kept (case_numbered seq (cases_of live.now.entries))) }
{
    seq <= last || is_kept(live, seq)
}

// The numbers rise, and each is that of a live case that is not pinned.
fn check_seqs(live: &LiveCases, rest: &[u8], at: u64) -> Result<(), OpenFault>
    requires numbered { AreNumbered 0 (2 ^ 32) live.now.entries }
    requires in_half { 12 + 4 * seq_count_at rest.now ≤ length rest.now }
    requires disk { at + length rest.now ≤ 2 ^ 63 }
    ensures { result_err result
        ≡ option_map (damaged at named.Seq) (first_bad_seq (cases_of live.now.entries) 0 12 (drop_seqs rest.now)) }
{
    let mut last = 0;
    for index in 0..u32_at(rest, 8) as usize {
        let place = 12 + 4 * index;
        let seq = u32_at(rest, place);
        if is_bad_seq(live, last, seq) {
            return Err(damaged(at, Field::Seq, place));
        }
        last = seq;
    }
    Ok(())
}

/// The checks of a Drop record.
pub(crate) fn check_drop(live: &LiveCases, rest: &[u8], at: u64) -> Result<(), OpenFault>
    requires numbered { AreNumbered 0 (2 ^ 32) live.now.entries }
    requires head { IsHeaded rest.now }
    requires disk { at + length rest.now ≤ 2 ^ 63 }
    ensures fault { (f : Folded) → result_err result
        ≡ drop_fault at rest.now (record f { cases = cases_of live.now.entries }) }
    ensures in_half { OnOk result (12 + 4 * seq_count_at rest.now ≤ length rest.now) }
{
    check_count(rest, at)?;
    check_seqs(live, rest, at)?;
    check_padding(rest, at, 12 + 4 * u32_at(rest, 8) as usize)
}
