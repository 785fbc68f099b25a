// The data of a section by its name.
ghost use Rattle.std.specs.Prelude.{◌≡◌, IfOk};
ghost use Rattle.std.specs.Option.{option_map};
ghost use Rattle.elf_view.specs.SectionWords.{section_view};
ghost use Rattle.elf_view.specs.ViewWords.{image_of};
ghost use Rattle.inflate.specs.Sections as spec;
ghost use Rattle.inflate.specs.SectionWords.{data_in, data_view, is_unread};

use crate::faults::InflateFault;
use crate::section_bytes::{SectionBytes, SectionData};
use crate::zlib::inflate;
use elf_view::{Elf, Section, u32_at, u64_at};
use std::alloc::{AllocError, Global};

/// The number of bytes of an Elf64_Chdr, the header in front of compressed data.
const HEADER_SIZE: usize = 24;

/// The ch_type of a zlib stream.
const ELFCOMPRESS_ZLIB: u32 = 1;

/// The data of a section, if an image has it.
#[derive(Drop)]
pub enum FoundSection<'a> {
    /// Its data.
    Data(SectionData<'a>),
    /// There is only a compressed one, which uses another method than zlib or is damaged.
    Unread,
    /// No section of that name has its bytes in the file.
    Missing,
}

/// The bytes of compressed data, with the header in front, if they are a zlib stream of as many bytes as the header says.
#[tactic(auto, unfolding(crate::specs::Sections::decompressed))]
fn decompress(alloc: Global, bytes: &[u8]) -> Result<Option<Vec<u8>>, AllocError>
    ensures { IfOk result (λ found. option_map (λ v. v.items) found ≡ spec.decompressed bytes.now) }
{
    if bytes.len() < HEADER_SIZE || u32_at(bytes, 0) != ELFCOMPRESS_ZLIB {
        return Ok(None);
    }
    let size = u64_at(bytes, 8);
    if size >= 1 << 63 {
        return Ok(None);
    }
    let (_, stream) = bytes.split_at(HEADER_SIZE);
    match inflate(alloc, stream, size as usize) {
        Ok(bytes) => Ok(Some(bytes)),
        Err(InflateFault::Invalid) => Ok(None),
        Err(InflateFault::OutOfMemory) => Err(AllocError),
    }
}

/// The data of a section that is not compressed.
fn stored_data<'a>(elf: &Elf<'a>, name: &[u8]) -> Option<SectionData<'a>>
    ensures { option_map data_view result ≡ spec.stored_data (image_of elf.now) name.now }
{
    let section = elf.named_section(name)?;
    let bytes = section.bytes?;
    Some(SectionData {
        addr: section.addr,
        bytes: SectionBytes::Stored(bytes),
    })
}

/// The data of a compressed section.
fn decompressed_in<'a>(
    alloc: Global,
    section: &Section<'a>,
) -> Result<Option<SectionData<'a>>, AllocError>
    ensures { IfOk result (λ found. option_map data_view found ≡ spec.decompressed_in (section_view section.now)) }
{
    let Some(bytes) = section.bytes else {
        return Ok(None);
    };
    let Some(bytes) = decompress(alloc, bytes)? else {
        return Ok(None);
    };
    Ok(Some(SectionData {
        addr: section.addr,
        bytes: SectionBytes::Decompressed(bytes),
    }))
}

/// The data of the first section of that name that is stored as it is. If there is none, the first compressed one is decompressed. Takes
/// memory only for decompressed bytes; the error is that there is none.
#[tactic(auto, unfolding(crate::specs::Sections::section_data, crate::specs::Sections::has_unread))]
pub fn read_section<'a>(
    alloc: Global,
    elf: &Elf<'a>,
    name: &[u8],
) -> Result<FoundSection<'a>, AllocError>
    ensures found { IfOk result (λ found. data_in found ≡ spec.section_data (image_of elf.now) name.now) }
    ensures unread { IfOk result (λ found. is_unread found ≡ spec.has_unread (image_of elf.now) name.now) }
{
    if let Some(data) = stored_data(elf, name) {
        return Ok(FoundSection::Data(data));
    }
    let Some(section) = elf.compressed_section(name) else {
        return Ok(FoundSection::Missing);
    };
    match decompressed_in(alloc, &section)? {
        Some(data) => Ok(FoundSection::Data(data)),
        None => Ok(FoundSection::Unread),
    }
}
