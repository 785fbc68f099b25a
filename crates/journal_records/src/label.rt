// A Label record: a case has a label from here on.
ghost use Rattle.std.specs.Prelude.{◌≡◌, ℕ, ◌+◌, ◌^◌, ◌<◌, ◌≤◌, length, OnOk};
ghost use Rattle.std.specs.Result.{result_err};
ghost use Rattle.journal_layout.specs.Folding.{Folded};
ghost use Rattle.journal_layout.specs.Layout.{field};
ghost use Rattle.journal_layout.specs.Reading.{label_length_at, label_at};
ghost use Rattle.journal_layout.specs.Checks.{label_fault};
ghost use Rattle.journal_records.specs.Head.{IsHeaded};
ghost use Rattle.journal_records.specs.Live.{AreNumbered, cases_of};

use crate::live_cases::LiveCases;
use crate::padding::check_padding;
use crate::pin::is_missing;
use crate::{damaged, rounded, u16_at, u32_at};
use journal_layout::{Field, Label, OpenFault};

/// The checks of a Label record.
pub(crate) fn check_label(live: &LiveCases, rest: &[u8], at: u64) -> Result<(), OpenFault>
    requires head { IsHeaded rest.now }
    requires disk { at + length rest.now ≤ 2 ^ 63 }
    requires numbered { AreNumbered 0 (2 ^ 32) live.now.entries }
    ensures fault { (f : Folded) → result_err result
        ≡ label_fault at rest.now (record f { cases = cases_of live.now.entries }) }
    ensures short { OnOk result (label_length_at rest.now ≤ 64) }
    ensures in_half { OnOk result (16 + label_length_at rest.now ≤ length rest.now) }
{
    if is_missing(live, u32_at(rest, 8)) {
        return Err(damaged(at, Field::Seq, 8));
    }
    let length = u16_at(rest, 12);
    if 64 < length {
        return Err(damaged(at, Field::LabelLength, 12));
    }
    if u16_at(rest, 14) != 0 {
        return Err(damaged(at, Field::Reserved, 14));
    }
    if rounded(16 + u64::from(length)) != u64::from(u32_at(rest, 4)) {
        return Err(damaged(at, Field::Length, 4));
    }
    check_padding(rest, at, 16 + usize::from(length))
}

/// The label that a Label record gives.
pub(crate) fn label_at(rest: &[u8]) -> Label
    requires short { label_length_at rest.now ≤ 64 }
    requires in_half { 16 + label_length_at rest.now ≤ length rest.now }
    ensures { result.items ≡ label_at rest.now }
{
    let length = u16_at(rest, 12) as usize;
    Label::try_from(&rest[16..16 + length]).unwrap()
}
