// Sections by their names.
ghost use Rattle.std.specs.Prelude.{◌≡◌, ◌+◌, ◌*◌, ◌≤◌, ◌<◌, Ok, Some, find, length};
ghost use Rattle.std.specs.List.{range_with_len};
ghost use Rattle.std.specs.Option.{option_map};
ghost use Rattle.elf_view.specs.SectionNames as spec;
ghost use Rattle.elf_view.specs.SectionTable.{section_count_of};
ghost use Rattle.elf_view.specs.SectionWords.{section_view};

use crate::numbers::{part, u16_at};
use crate::sections::{Section, section_at, section_count};

/// The type of a section whose bytes are not in the file.
const SHT_NOBITS: u32 = 8;

/// The flag of a section whose bytes are compressed.
const SHF_COMPRESSED: u64 = 0x800;

/// e_shstrndx if section header 0 holds the number of the section of the names.
const SHN_XINDEX: u16 = 0xffff;

/// Section `i` of `count`.
fn nth_section(image: &[u8], count: u64, i: u64) -> Section<'_>
    requires header { 64 ≤ length image.now }
    requires count { section_count_of image.now ≡ Ok count }
    requires within { i < count }
    ensures { section_view result ≡ spec.nth_section image.now i }
{
    match section_at(image, i) {
        Ok(section) => section,
        Err(_) => unreachable!(),
    }
}

/// The number of the section that holds the names.
#[tactic(auto, unfolding(crate::specs::SectionNames::names_number))]
fn names_number(image: &[u8], count: u64) -> u64
    requires header { 64 ≤ length image.now }
    requires count { section_count_of image.now ≡ Ok count }
    requires some { 0 < count }
    ensures { result ≡ spec.names_number image.now }
{
    let number = u16_at(image, 62);
    if number == SHN_XINDEX {
        u64::from(nth_section(image, count, 0).link)
    } else {
        u64::from(number)
    }
}

/// The names of `count` sections.
#[tactic(auto, unfolding(crate::specs::SectionNames::names_among))]
fn section_names(image: &[u8], count: u64) -> Option<&[u8]>
    requires header { 64 ≤ length image.now }
    requires count { section_count_of image.now ≡ Ok count }
    ensures { option_map (λ names. names.now) result ≡ spec.names_among image.now count }
{
    if count == 0 {
        return None;
    }
    let number = names_number(image, count);
    if number == 0 || number >= count {
        return None;
    }
    nth_section(image, count, number).bytes
}

/// Whether the names have a name at place `at`, and a NUL after it.
fn stands_at(names: &[u8], at: u32, name: &[u8]) -> bool
    ensures { result ≡ spec.stands_at names.now at name.now }
{
    let at = u64::from(at);
    let size = name.len() as u64;
    part(names, at, size) == name && part(names, at + size, 1) == b"\0".as_slice()
}

/// Whether a section has a name, and bytes that can be taken.
#[tactic(auto, unfolding(crate::specs::SectionNames::is_named))]
fn is_named(names: &[u8], name: &[u8], section: &Section<'_>) -> bool
    ensures { result ≡ spec.is_named names.now name.now (section_view section.now) }
{
    section.kind != SHT_NOBITS
        && section.flags & SHF_COMPRESSED == 0
        && section.bytes.is_some()
        && stands_at(names, section.name, name)
}

/// The first of `count` sections that has a name, and bytes that can be taken.
fn first_named<'a>(image: &'a [u8], count: u64, names: &[u8], name: &[u8]) -> Option<Section<'a>>
    requires header { 64 ≤ length image.now }
    requires count { section_count_of image.now ≡ Ok count }
    ensures { option_map section_view result ≡ spec.first_named image.now name.now count names.now }
{
    for i in 0..count {
        let section = nth_section(image, count, i);
        if is_named(names, name, &section) {
            return Some(section);
        }
    }
    None
}

/// The first section of an image that has a name, and bytes that can be taken.
pub(crate) fn named_section<'a>(image: &'a [u8], name: &[u8]) -> Option<Section<'a>>
    requires { 64 ≤ length image.now }
    ensures { option_map section_view result ≡ spec.named_section_of image.now name.now }
{
    let Ok(count) = section_count(image) else {
        return None;
    };
    let names = section_names(image, count)?;
    first_named(image, count, names, name)
}

/// Whether a section has a name, and bytes that are compressed.
#[tactic(auto, unfolding(crate::specs::SectionNames::is_compressed))]
fn is_compressed(names: &[u8], name: &[u8], section: &Section<'_>) -> bool
    ensures { result ≡ spec.is_compressed names.now name.now (section_view section.now) }
{
    section.kind != SHT_NOBITS
        && section.flags & SHF_COMPRESSED != 0
        && stands_at(names, section.name, name)
}

/// The first of `count` sections that has a name, and bytes that are compressed.
fn first_compressed<'a>(
    image: &'a [u8],
    count: u64,
    names: &[u8],
    name: &[u8],
) -> Option<Section<'a>>
    requires header { 64 ≤ length image.now }
    requires count { section_count_of image.now ≡ Ok count }
    ensures { option_map section_view result ≡ spec.first_compressed image.now name.now count names.now }
{
    for i in 0..count {
        let section = nth_section(image, count, i);
        if is_compressed(names, name, &section) {
            return Some(section);
        }
    }
    None
}

/// The first section of an image that has a name, and bytes that are compressed.
pub(crate) fn compressed_section<'a>(image: &'a [u8], name: &[u8]) -> Option<Section<'a>>
    requires { 64 ≤ length image.now }
    ensures { option_map section_view result ≡ spec.compressed_section_of image.now name.now }
{
    let Ok(count) = section_count(image) else {
        return None;
    };
    let names = section_names(image, count)?;
    first_compressed(image, count, names, name)
}
