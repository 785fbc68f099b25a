// Texts and numbers.
ghost use Rattle.std.specs.Prelude.{◌≡◌, ◌⊎◌, ◌≤◌, length};
ghost use Rattle.std.specs.List.{position};
ghost use Rattle.std.specs.Option.{option_map};
ghost use Rattle.elf_view.specs.Field.{field};
ghost use Rattle.memchr.specs.Find.{is_byte};
ghost use Rattle.line_tables.specs.Texts as spec;

use elf_view::{u16_at, u32_at, u64_at};
use memchr::memchr;

/// The place of the first NUL.
fn nul_place(bytes: &[u8]) -> Option<usize>
    ensures { result ≡ position (is_byte 0) bytes.now }
{
    memchr(0, bytes)
}

/// The bytes before the first NUL, and those after it.
#[tactic(auto, unfolding(crate::specs::Texts::text))]
pub fn text(bytes: &[u8]) -> Option<(&[u8], &[u8])>
    ensures { option_map (λ r. (r.0.now, r.1.now)) result ≡ spec.text bytes.now }
{
    let end = nul_place(bytes)?;
    Some((&bytes[..end], &bytes[end + 1..]))
}

/// The text at a place of a section.
#[tactic(auto, unfolding(crate::specs::Texts::text_at))]
pub fn text_at(section: &[u8], place: u64) -> Option<&[u8]>
    ensures { option_map (λ r. r.now) result ≡ spec.text_at section.now place }
{
    let start = place.min(section.len() as u64) as usize;
    let (found, _) = text(&section[start..])?;
    Some(found)
}

/// The first byte, and those after it.
pub fn first_byte(bytes: &[u8]) -> Option<(u8, &[u8])>
    ensures { option_map (λ r. (r.0, r.1.now)) result ≡ spec.first_byte bytes.now }
{
    let (first, rest) = bytes.split_first()?;
    Some((*first, rest))
}

/// The number that the first bytes are.
#[tactic(auto, using(crate::proofs::EntryLoops::one_byte))]
fn value(width: usize, bytes: &[u8]) -> u64
    requires known { (width ≡ 1) ⊎ ((width ≡ 2) ⊎ ((width ≡ 4) ⊎ (width ≡ 8))) }
    requires within { width ≤ length bytes.now }
    ensures { result ≡ field bytes.now 0 width }
{
    match width {
        1 => u64::from(bytes[0]),
        2 => u64::from(u16_at(bytes, 0)),
        4 => u64::from(u32_at(bytes, 0)),
        _ => u64_at(bytes, 0),
    }
}

/// The number in as many bytes at the front, and the bytes after it.
#[tactic(auto, unfolding(crate::specs::Texts::number))]
pub fn number(width: usize, bytes: &[u8]) -> Option<(u64, &[u8])>
    requires { (width ≡ 1) ⊎ ((width ≡ 2) ⊎ ((width ≡ 4) ⊎ (width ≡ 8))) }
    ensures { option_map (λ r. (r.0, r.1.now)) result ≡ spec.number width bytes.now }
{
    if bytes.len() < width {
        return None;
    }
    Some((value(width, bytes), &bytes[width..]))
}

/// As many bytes, and those after them.
#[tactic(auto, unfolding(crate::specs::Texts::split))]
pub fn split(size: u64, bytes: &[u8]) -> Option<(&[u8], &[u8])>
    ensures { option_map (λ r. (r.0.now, r.1.now)) result ≡ spec.split size bytes.now }
{
    if (bytes.len() as u64) < size {
        return None;
    }
    Some(bytes.split_at(size as usize))
}
