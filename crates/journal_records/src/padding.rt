// The zeros that fill a record up.
ghost use Rattle.std.specs.Prelude.{◌≡◌, ◌+◌, ◌-◌, ◌^◌, ◌<◌, ◌≤◌, length, IfSome};
ghost use Rattle.std.specs.Result.{result_err};
ghost use Rattle.disk_model.specs.Places.{part};
ghost use Rattle.journal_layout.specs.Reading.{length_at};
ghost use Rattle.journal_layout.specs.Checks.{first_set, padding_fault};
ghost use Rattle.journal_records.specs.Head.{IsHeaded};

use crate::{damaged, u32_at};
use journal_layout::{Field, OpenFault};

// The place of the first of the bytes from `place` to `end` that is not zero.
fn first_set(rest: &[u8], place: usize, end: usize) -> Option<usize>
    requires order { place ≤ end }
    requires within { end ≤ length rest.now }
    ensures within { IfSome result (λ set. set < end) }
    ensures first { result ≡ first_set place (part rest.now place (end - place)) }
{
    for index in place..end {
        if rest[index] != 0 {
            return Some(index);
        }
    }
    None
}

/// The bytes of a record from `place` on are zeros.
pub(crate) fn check_padding(rest: &[u8], at: u64, place: usize) -> Result<(), OpenFault>
    requires head { IsHeaded rest.now }
    requires disk { at + length rest.now ≤ 2 ^ 63 }
    requires within { place ≤ length_at rest.now }
    ensures { result_err result ≡ padding_fault at rest.now place }
{
    let length = u32_at(rest, 4) as usize;
    match first_set(rest, place, length) {
        Some(set) => Err(damaged(at, Field::Padding, set)),
        None => Ok(()),
    }
}
