// A Pin record: a case is kept from deletion from here on, or no longer.
ghost use Rattle.std.specs.Prelude.{◌≡◌, ℕ, ◌+◌, ◌^◌, ◌<◌, ◌≤◌, length, OnOk};
ghost use Rattle.std.specs.Result.{result_err};
ghost use Rattle.std.specs.Option.{is_none};
ghost use Rattle.journal_layout.specs.Folding.{Folded};
ghost use Rattle.journal_layout.specs.Soundness.{case_numbered};
ghost use Rattle.journal_layout.specs.Layout.{field};
ghost use Rattle.journal_layout.specs.Checks.{pin_fault};
ghost use Rattle.journal_records.specs.Head.{IsHeaded};
ghost use Rattle.journal_records.specs.Live.{AreNumbered, cases_of};

use crate::live_cases::LiveCases;
use crate::padding::check_padding;
use crate::{damaged, u32_at};
use journal_layout::{Field, OpenFault};

/// Whether there is no live case of this number.
pub(crate) fn is_missing(live: &LiveCases, seq: u32) -> bool
    requires { AreNumbered 0 (2 ^ 32) live.now.entries }
    ensures { result ≡ is_none (case_numbered seq (cases_of live.now.entries)) }
{
    live.find(seq).is_none()
}

/// The checks of a Pin record.
pub(crate) fn check_pin(live: &LiveCases, rest: &[u8], at: u64) -> Result<(), OpenFault>
    requires head { IsHeaded rest.now }
    requires disk { at + length rest.now ≤ 2 ^ 63 }
    requires numbered { AreNumbered 0 (2 ^ 32) live.now.entries }
    ensures fault { (f : Folded) → result_err result
        ≡ pin_fault at rest.now (record f { cases = cases_of live.now.entries }) }
{
    if u32_at(rest, 4) != 16 {
        return Err(damaged(at, Field::Length, 4));
    }
    if is_missing(live, u32_at(rest, 8)) {
        return Err(damaged(at, Field::Seq, 8));
    }
    if 1 < rest[12] {
        return Err(damaged(at, Field::Flag, 12));
    }
    check_padding(rest, at, 13)
}
