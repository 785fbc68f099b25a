// Numbers and ranges of bytes, as every structure of ELF64 is read.
ghost use Rattle.std.specs.Prelude.{◌≡◌, ◌+◌, ◌≤◌, ◌^◌, ◌<◌, length};
ghost use Rattle.elf_view.specs.Field as spec;

use byteorder::{ByteOrder, LittleEndian};
use memchr::memchr;

/// The little-endian number in the two bytes from place `at` on.

pub fn u16_at(bytes: &[u8], at: usize) -> u16
    requires { at + 2 ≤ length bytes.now }
    ensures { result ≡ spec.field bytes.now at 2 }
{
    LittleEndian::read_u16(&bytes[at..])
}

/// The little-endian number in the four bytes from place `at` on.

pub fn u32_at(bytes: &[u8], at: usize) -> u32
    requires { at + 4 ≤ length bytes.now }
    ensures { result ≡ spec.field bytes.now at 4 }
{
    LittleEndian::read_u32(&bytes[at..])
}

/// The little-endian number in the eight bytes from place `at` on.

pub fn u64_at(bytes: &[u8], at: usize) -> u64
    requires { at + 8 ≤ length bytes.now }
    ensures { result ≡ spec.field bytes.now at 8 }
{
    LittleEndian::read_u64(&bytes[at..])
}

/// Those of the `size` bytes from place `at` on that the slice has: fewer if it ends before.
pub fn part(bytes: &[u8], at: u64, size: u64) -> &[u8]
    ensures { result.now ≡ spec.part bytes.now at size }
{
    let length = bytes.len() as u64;
    let start = at.min(length) as usize;
    let rest = &bytes[start..];
    let end = size.min(rest.len() as u64) as usize;
    &rest[..end]
}

/// The bytes before the first NUL, or all of them if there is no NUL.
pub fn text_before_nul(bytes: &[u8]) -> &[u8]
    ensures { result.now ≡ spec.text_before_nul bytes.now }
{
    match memchr(0, bytes) {
        Some(end) => &bytes[..end],
        None => bytes,
    }
}
