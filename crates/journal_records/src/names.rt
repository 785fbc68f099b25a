// The name of a Store record, and names as a set keeps them.
ghost use Rattle.std.specs.Prelude.{◌≡◌, ℕ, ◌+◌, ◌*◌, ◌^◌, ◌<◌, ◌≤◌, ◌||◌, List, Some, None, if◌then◌else◌, length, IsTrue};
ghost use Rattle.std.specs.Str.{bytes_eq};
ghost use Rattle.journal_layout.specs.declared.faults.Field.TheVariants as named;
ghost use Rattle.journal_layout.specs.Reading.{name_place, name_at, name_length_at};
ghost use Rattle.journal_layout.specs.Checks.{damaged};
ghost use Rattle.journal_layout.specs.Folding.{is_among};
ghost use Rattle.journal_records.specs.Taken.{TakesName};
ghost use Rattle.journal_records.specs.Named.{has_name, key_of, last_number};

use crate::{damaged, u16_at, u32_at};
use byteorder::{BigEndian, ByteOrder};
use journal_layout::{Field, Name, OpenFault};
use std::collections::BTreeSet;

/// A name as a set of names keeps it, behind a number that differs for most names. Many names start alike and end in
/// other digits, so the number is that of the last bytes.
pub type NameKey = (u64, Name);

// The number that the last eight bytes spell, the highest first. Fewer bytes give 0.
fn last_number(bytes: &[u8]) -> u64
    ensures { result ≡ last_number bytes.now }
{
    if bytes.len() < 8 {
        return 0;
    }
    BigEndian::read_u64(bytes.split_at(bytes.len() - 8).1)
}

/// A name as a set of names keeps it.
pub fn name_key(name: &Name) -> NameKey
    ensures { result ≡ key_of name.now.items }
{
    let bytes = name.as_slice();
    (last_number(bytes), Name::try_from(bytes).unwrap())
}

/// The end of the name of a Store record.
pub(crate) fn name_end(rest: &[u8]) -> usize
    requires { 48 ≤ length rest.now }
    ensures { result ≡ name_place rest.now + name_length_at rest.now }
{
    48 + 8 * u32_at(rest, 40) as usize + u16_at(rest, 14) as usize
}

// The name that follows the runs.
fn name_at(rest: &[u8]) -> Name
    requires in_half { name_place rest.now + name_length_at rest.now ≤ length rest.now }
    requires short { name_length_at rest.now ≤ 128 }
    ensures { result.items ≡ name_at rest.now }
{
    let place = 48 + 8 * u32_at(rest, 40) as usize;
    let length = u16_at(rest, 14) as usize;
    Name::try_from(&rest[place..place + length]).unwrap()
}

/// The name of a Store record, which has no NUL and is not in this set. It is in the set from here on.
pub(crate) fn take_name(
    names: &mut BTreeSet<NameKey>,
    rest: &[u8],
    at: u64,
) -> Result<Name, OpenFault>
    requires in_half { name_place rest.now + name_length_at rest.now ≤ length rest.now }
    requires short { name_length_at rest.now ≤ 128 }
    requires disk { at + length rest.now ≤ 2 ^ 63 }
    ensures { TakesName at rest.now names.old result names.new }
{
    let name = name_at(rest);
    if name.as_slice().contains(&0) {
        return Err(damaged(at, Field::Name, 48 + 8 * u32_at(rest, 40) as usize));
    }
    match names.insert(name_key(&name)) {
        Ok(true) => Ok(name),
        Ok(false) => Err(damaged(at, Field::Name, 48 + 8 * u32_at(rest, 40) as usize)),
        Err(_) => Err(OpenFault::OutOfMemory),
    }
}
