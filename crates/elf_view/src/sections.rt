// Section headers, one by one.
ghost use Rattle.std.specs.Prelude.{◌≡◌, ◌+◌, ◌*◌, ◌≤◌, length};
ghost use Rattle.std.specs.Option.{option_map};
ghost use Rattle.elf_view.specs.SectionTable as spec;
ghost use Rattle.elf_view.specs.Header.{e_shoff};
ghost use Rattle.elf_view.specs.SectionWords.{section_view, section_result};

use crate::checks::is_within;
use crate::faults::SectionFault;
use crate::numbers::{part, u16_at, u32_at, u64_at};

/// A section header (System V gABI, "Section Header"), with its bytes.
#[derive(Clone, Copy, Debug)]
pub struct Section<'a> {
    /// sh_name: the place in the section names' string table at which the name begins.
    pub name: u32,
    /// sh_type: 2 is SHT_SYMTAB, 3 is SHT_STRTAB, 11 is SHT_DYNSYM.
    pub kind: u32,
    /// sh_flags.
    pub flags: u64,
    /// sh_addr.
    pub addr: u64,
    /// sh_offset: the place in the image at which the bytes begin.
    pub offset: u64,
    /// sh_size: how many bytes there are.
    pub size: u64,
    /// sh_link: the number of the section that this one goes with.
    pub link: u32,
    /// sh_info.
    pub info: u32,
    /// sh_addralign.
    pub addralign: u64,
    /// sh_entsize: how many bytes an entry has, in a table.
    pub entsize: u64,
    /// The `size` bytes from `offset` on, if all of them lie in the image.
    pub bytes: Option<&'a [u8]>,
}

/// The `size` bytes from place `at` on, if all of them lie in the image.
fn whole_part(image: &[u8], at: u64, size: u64) -> Option<&[u8]>
    ensures { option_map (λ bytes. bytes.now) result ≡ spec.whole_part image.now at size }
{
    if is_within(image, at, size) {
        Some(part(image, at, size))
    } else {
        None
    }
}

/// The section header from byte `at` of the image on.
#[tactic(auto, unfolding(crate::specs::SectionTable::section_from))]
fn section_from(image: &[u8], at: usize) -> Section<'_>
    requires { at + 64 ≤ length image.now }
    ensures { section_view result ≡ spec.section_from image.now at }
{
    let offset = u64_at(image, at + 24);
    let size = u64_at(image, at + 32);
    Section {
        name: u32_at(image, at),
        kind: u32_at(image, at + 4),
        flags: u64_at(image, at + 8),
        addr: u64_at(image, at + 16),
        offset,
        size,
        link: u32_at(image, at + 40),
        info: u32_at(image, at + 44),
        addralign: u64_at(image, at + 48),
        entsize: u64_at(image, at + 56),
        bytes: whole_part(image, offset, size),
    }
}

/// The number of sections by the headers.
#[tactic(auto, unfolding(crate::specs::SectionTable::told_sections))]
fn told_sections(image: &[u8], table: u64) -> u64
    requires header { 64 ≤ length image.now }
    requires place { table ≡ e_shoff image.now }
    requires section_zero { table + 64 ≤ length image.now }
    ensures { result ≡ spec.told_sections image.now }
{
    let count = u16_at(image, 60);
    if count == 0 {
        u64_at(image, table as usize + 32)
    } else {
        u64::from(count)
    }
}

/// The number of sections of an image.
#[tactic(auto, unfolding(crate::specs::SectionTable::section_count_of))]
pub(crate) fn section_count(image: &[u8]) -> Result<u64, SectionFault>
    requires { 64 ≤ length image.now }
    ensures { result ≡ spec.section_count_of image.now }
{
    let table = u64_at(image, 40);
    if table == 0 {
        return Ok(0);
    }
    if u16_at(image, 58) != 64 {
        return Err(SectionFault::EShentsize);
    }
    if !is_within(image, table, 64) {
        return Err(SectionFault::EShoff);
    }
    let count = told_sections(image, table);
    let rest = image.len() as u64 - table;
    if rest / 64 < count {
        return Err(SectionFault::EShoff);
    }
    Ok(count)
}

/// Section header `i` of an image.
#[tactic(auto, unfolding(crate::specs::SectionTable::section_count_of))]
pub(crate) fn section_at(image: &[u8], i: u64) -> Result<Section<'_>, SectionFault>
    requires { 64 ≤ length image.now }
    ensures { section_result result ≡ spec.section_of image.now i }
{
    let count = section_count(image)?;
    if i >= count {
        return Err(SectionFault::NoSection);
    }
    Ok(section_from(image, u64_at(image, 40) as usize + 64 * i as usize))
}
