// A Next record: the number of the next case.
ghost use Rattle.std.specs.Prelude.{◌≡◌, ◌+◌, ◌^◌, ◌<◌, ◌≤◌, length, List, IfOk};
ghost use Rattle.std.specs.Result.{result_err};
ghost use Rattle.journal_layout.specs.Layout.{field};
ghost use Rattle.journal_layout.specs.Folding.{Folded};
ghost use Rattle.journal_layout.specs.Checks.{first_failing, next_checks};
ghost use Rattle.journal_records.specs.Head.{IsHeaded};

use crate::{damaged, u32_at, u64_at};
use journal_layout::{Field, OpenFault};

/// The number that a Next record gives, which may not be below `next` and is at most 2^32.
pub(crate) fn read_next(rest: &[u8], at: u64, next: u64) -> Result<u64, OpenFault>
    requires head { IsHeaded rest.now }
    requires disk { at + length rest.now ≤ 2 ^ 63 }
    ensures fault { (f : Folded) → result_err result
        ≡ first_failing at (next_checks rest.now (record f { next = next })) }
    ensures value { IfOk result (λ number. number ≡ field rest.now 8 8) }
    ensures bounds { IfOk result (λ number. (next ≤ number) × (number ≤ 2 ^ 32)) }
{
    if u32_at(rest, 4) != 16 {
        return Err(damaged(at, Field::Length, 4));
    }
    let number = u64_at(rest, 8);
    if number < next || 1 << 32 < number {
        return Err(damaged(at, Field::Next, 8));
    }
    Ok(number)
}
