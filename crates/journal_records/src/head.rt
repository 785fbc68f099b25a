// The first fields of every record.
ghost use Rattle.std.specs.Prelude.{◌≡◌, ◌+◌, ◌^◌, ◌<◌, ◌≤◌, length, IfOk, OnOk};
ghost use Rattle.std.specs.Result.{result_err};
ghost use Rattle.journal_layout.specs.Reading.{kind_at, length_at};
ghost use Rattle.journal_layout.specs.Checks.{first_failing, head_checks};
ghost use Rattle.journal_records.specs.Head.{IsHeaded, byte_of};

use crate::kind::{RecordKind, kind_of};
use crate::{damaged, u16_at, u32_at};
use journal_layout::{Field, OpenFault};

/// The checks of a record's head: 17 bytes are left, the kind is one of this version's, the two bytes after it are zeros,
/// and the length is that of a record which lies in the half with the gate after it. Returns the kind.
pub(crate) fn check_head(version: u32, rest: &[u8], at: u64) -> Result<RecordKind, OpenFault>
    requires { at + length rest.now ≤ 2 ^ 63 }
    ensures fault { result_err result ≡ first_failing at (head_checks version rest.now) }
    ensures head { OnOk result (IsHeaded rest.now) }
    ensures kind { IfOk result (λ kind. byte_of kind ≡ kind_at rest.now) }
{
    if rest.len() < 17 {
        return Err(damaged(at, Field::Length, 4));
    }
    let Some(kind) = kind_of(version, rest[1]) else {
        return Err(damaged(at, Field::Kind, 1));
    };
    if u16_at(rest, 2) != 0 {
        return Err(damaged(at, Field::Reserved, 2));
    }
    let length = u32_at(rest, 4) as usize;
    if length < 16 || length % 16 != 0 || rest.len() < length + 1 {
        return Err(damaged(at, Field::Length, 4));
    }
    Ok(kind)
}
