// The numbers in a record's bytes, and the fault of a field.
ghost use Rattle.std.specs.Prelude.{◌≡◌, ◌+◌, ◌^◌, ◌<◌, ◌≤◌, length};
ghost use Rattle.journal_layout.specs.Layout.{field};
ghost use Rattle.journal_layout.specs.Checks.{damaged};
ghost use Rattle.journal_layout.specs.Record.{rounded};

use byteorder::{ByteOrder, LittleEndian};
use journal_layout::{Field, OpenFault};

/// The number in the two bytes from `place` on.
pub(crate) fn u16_at(bytes: &[u8], place: usize) -> u16
    requires { place + 2 ≤ length bytes.now }
    ensures { result ≡ field bytes.now place 2 }
{
    LittleEndian::read_u16(&bytes[place..])
}

/// The number in the four bytes from `place` on.
pub(crate) fn u32_at(bytes: &[u8], place: usize) -> u32
    requires { place + 4 ≤ length bytes.now }
    ensures { result ≡ field bytes.now place 4 }
{
    LittleEndian::read_u32(&bytes[place..])
}

/// The number in the eight bytes from `place` on.
pub(crate) fn u64_at(bytes: &[u8], place: usize) -> u64
    requires { place + 8 ≤ length bytes.now }
    ensures { result ≡ field bytes.now place 8 }
{
    LittleEndian::read_u64(&bytes[place..])
}

/// The fault of the field at `place` of the record whose gate is at byte `at` of the disk.
pub(crate) fn damaged(at: u64, field: Field, place: usize) -> OpenFault
    requires { at + place < 2 ^ 64 }
    ensures { result ≡ damaged at field place }
{
    OpenFault::Damaged {
        at: at + place as u64,
        field,
    }
}

/// The least multiple of 16 that is not below `size`.
pub(crate) fn rounded(size: u64) -> u64
    requires { size + 15 < 2 ^ 64 }
    ensures { result ≡ rounded size }
{
    (size + 15) / 16 * 16
}
