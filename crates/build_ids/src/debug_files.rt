// Debug files, and the names by which files are stored.
ghost use Rattle.std.specs.Prelude.{◌≡◌, ◌<◌};
ghost use Rattle.std.specs.List.{flat_map, list_any};
ghost use Rattle.std.specs.Option.{option_map};
ghost use Rattle.elf_view.specs.SectionNames.{nth_section};
ghost use Rattle.elf_view.specs.SectionTable.{section_count_of};
ghost use Rattle.elf_view.specs.SectionWords.{section_view};
ghost use Rattle.elf_view.specs.ViewWords.{image_of};
ghost use Rattle.build_ids.specs.BuildId.{id_among};
ghost use Rattle.build_ids.specs.DebugFile as spec;

use crate::build_names::{build_name, debug_name, has_name};
use crate::ids::{build_id, id_in};
use crate::padding::Padding;
use arrayvec::ArrayVec;
use elf_view::{Elf, Section, Want};

/// The type of a section of notes.
const SHT_NOTE: u32 = 7;

/// The type of a section whose bytes are not in the file.
const SHT_NOBITS: u32 = 8;

/// The flags of a section that has memory, and of one of code.
const SHF_ALLOC: u64 = 2;

const SHF_EXECINSTR: u64 = 4;

/// How many sections there are; none, if the section table has a fault.
fn section_count(elf: &Elf<'_>) -> u64
    ensures { result ≡ spec.counted (section_count_of (image_of elf.now)) }
{
    match elf.section_count() {
        Ok(count) => count,
        Err(_) => 0,
    }
}

/// Section `i`.
fn section_at<'a>(elf: &Elf<'a>, i: u64) -> Section<'a>
    requires { i < spec.counted (section_count_of (image_of elf.now)) }
    ensures { section_view result ≡ nth_section (image_of elf.now) i }
{
    match elf.section(i) {
        Ok(section) => section,
        Err(_) => unreachable!(),
    }
}

/// Whether a section is one of code without bytes in the file.
#[tactic(auto, unfolding(crate::specs::DebugFile::is_empty_code))]
fn is_empty_code(section: &Section<'_>) -> bool
    ensures { result ≡ spec.is_empty_code (section_view section.now) }
{
    section.kind == SHT_NOBITS
        && section.flags & SHF_ALLOC != 0
        && section.flags & SHF_EXECINSTR != 0
}

/// Whether any section is.
fn has_empty_code(elf: &Elf<'_>) -> bool
    ensures { result ≡ list_any spec.is_empty_code (spec.sections_of (image_of elf.now)) }
{
    for i in 0..section_count(elf) {
        if is_empty_code(&section_at(elf, i)) {
            return true;
        }
    }
    false
}

/// Whether an image is a debug file, as `objcopy --only-keep-debug` makes it: an executable
/// without fault, of which some section of code (SHF_ALLOC and SHF_EXECINSTR) has no bytes in the
/// file (SHT_NOBITS). An image is no debug file if it has no section table, or one with a fault.
#[tactic(auto, unfolding(crate::specs::DebugFile::is_debug))]
pub fn is_debug(image: &[u8]) -> bool
    ensures { result ≡ spec.is_debug image.now }
{
    match Elf::read(image, Want::Exec) {
        Ok(elf) => has_empty_code(&elf),
        Err(_) => false,
    }
}

/// The build ID among the notes of a section.
#[tactic(auto, unfolding(crate::specs::DebugFile::section_notes))]
fn id_at<'a>(section: &Section<'a>) -> Option<&'a [u8]>
    ensures { option_map (λ id. id.now) result ≡ id_among (spec.section_notes (section_view section.now)) }
{
    match section.bytes {
        Some(bytes) if section.kind == SHT_NOTE => id_in(bytes, Padding::by(section.addralign)),
        _ => None,
    }
}

/// The build ID among those of all sections.
fn id_by_sections<'a>(elf: &Elf<'a>) -> Option<&'a [u8]>
    ensures { option_map (λ id. id.now) result ≡ id_among (flat_map spec.section_notes (spec.sections_of (image_of elf.now))) }
{
    for i in 0..section_count(elf) {
        if let Some(id) = id_at(&section_at(elf, i)) {
            return Some(id);
        }
    }
    None
}

/// The build ID of a debug file: that of the first note of a build ID in its sections of notes (SHT_NOTE), in table order. Its program
/// headers may be the executable's own, so that they describe bytes that are not in the file. Notes are padded to 4 bytes, and to 8 if
/// sh_addralign is 8. `None` if the bytes have a fault as an executable, or there is no such note.
#[tactic(auto, unfolding(crate::specs::DebugFile::debug_id_of))]
pub fn debug_id(image: &[u8]) -> Option<&[u8]>
    ensures { option_map (λ id. id.now) result ≡ spec.debug_id_of image.now }
{
    match Elf::read(image, Want::Exec) {
        Ok(elf) => id_by_sections(&elf),
        Err(_) => None,
    }
}

/// The name by which a file is stored: that of the debug file of its build if it is one, or is said to be one, else that of the
/// executable. `None` is a file without a build ID, or with one that gives no name.
#[tactic(auto, unfolding(crate::specs::DebugFile::told_name))]
pub fn told_name(debug: bool, image: &[u8]) -> Option<ArrayVec<u8, 128>>
    ensures { option_map (λ name. name.items) result ≡ spec.told_name debug image.now }
{
    if debug || is_debug(image) {
        let id = debug_id(image)?;
        if has_name(id) {
            Some(debug_name(id))
        } else {
            None
        }
    } else {
        let id = build_id(image)?;
        if has_name(id) {
            Some(build_name(id))
        } else {
            None
        }
    }
}
