// Where the line tables of an executable are.
ghost use Rattle.std.specs.Prelude.{◌≡◌, IfOk};
ghost use Rattle.std.specs.Option.{option_map};
ghost use Rattle.elf_view.specs.ViewWords.{image_of};
ghost use Rattle.inflate.specs.SectionWords.{bytes_in};
ghost use Rattle.frame_replies.specs.Source as spec;
ghost use Rattle.frame_replies.specs.LineSourceWords.{FindsSources};
ghost use Rattle.frame_replies.specs.declared.source.NoTables.TheVariants as reasons;

use crate::line_sections::LineSections;
use elf_view::{Elf, Want};
use inflate::{FoundSection, SectionBytes, read_section};
use std::alloc::{AllocError, Global};

/// Why an executable has no line tables.
#[derive(Clone, Copy, PartialEq, Eq)]
pub enum NoTables {
    /// Its section `.debug_line`, or that of its debug file, is compressed and cannot be decompressed.
    Compressed,
    /// It has no section `.debug_line`, nor has its debug file.
    Missing,
    /// The memory for a section that is compressed was refused.
    OutOfMemory,
}

impl NoTables {
    /// The reason that replies give: `Compressed`, `NoLine` or `OutOfMemory`.
    pub fn reason(self) -> &'static [u8]
        ensures { result.now ≡ spec.no_tables_reason self }
    {
        match self {
            NoTables::Compressed => b"Compressed",
            NoTables::Missing => b"NoLine",
            NoTables::OutOfMemory => b"OutOfMemory",
        }
    }
}

impl From<AllocError> for NoTables {
    ghost from_gives = { λ _ reason. reason ≡ reasons.OutOfMemory };

    fn from(_error: AllocError) -> NoTables {
        NoTables::OutOfMemory
    }
}

/// The bytes of the section of that name, or none if there is no such section. The error is that there is no memory.
pub(crate) fn bytes_or_none<'a>(
    alloc: Global,
    elf: &Elf<'a>,
    name: &[u8],
) -> Result<SectionBytes<'a>, AllocError>
    ensures { IfOk result (λ bytes. bytes_in bytes ≡ spec.bytes_or_none (image_of elf.now) name.now) }
{
    match read_section(alloc, elf, name)? {
        FoundSection::Data(data) => Ok(data.bytes),
        FoundSection::Unread | FoundSection::Missing => Ok(SectionBytes::Stored(&[])),
    }
}

/// The sections that the line tables of a file are in.
#[tactic(auto, unfolding(crate::specs::Source::sources_in))]
fn sections_in<'a>(alloc: Global, elf: &Elf<'a>) -> Result<LineSections<'a>, NoTables>
    ensures { FindsSources result (spec.sources_in (image_of elf.now)) }
{
    let lines = match read_section(alloc, elf, b".debug_line")? {
        FoundSection::Data(data) => data.bytes,
        FoundSection::Unread => return Err(NoTables::Compressed),
        FoundSection::Missing => return Err(NoTables::Missing),
    };
    let line_texts = bytes_or_none(alloc, elf, b".debug_line_str")?;
    let texts = bytes_or_none(alloc, elf, b".debug_str")?;
    Ok(LineSections {
        elf: *elf,
        lines,
        line_texts,
        texts,
    })
}

/// The debug file, if there is one and its headers have no fault.
fn sound_debug<'a>(debug: Option<&'a [u8]>) -> Option<Elf<'a>>
    ensures { option_map image_of result ≡ spec.sound_debug (option_map (λ d. d.now) debug.entry) }
{
    Elf::read(debug?, Want::Exec).ok()
}

/// Those of the debug file of an executable that has none itself, for that reason.
fn debug_sections<'a>(
    alloc: Global,
    own: NoTables,
    debug: Option<&'a [u8]>,
) -> Result<LineSections<'a>, NoTables>
    ensures { FindsSources result (spec.sources_of_debug own (spec.sound_debug (option_map (λ d. d.now) debug.entry))) }
{
    let Some(debug) = sound_debug(debug) else {
        return Err(own);
    };
    match sections_in(alloc, &debug) {
        Err(NoTables::Missing) => Err(own),
        found => found,
    }
}

/// The sections that the line tables of an executable are in: its own, if it has a section `.debug_line` that can be read, or else those
/// of its debug file, if there is one and its headers have no fault. Takes memory only for sections that are compressed.
///
/// # Errors
///
/// - [`NoTables::Compressed`]: neither has such a section, and one of the two has a section `.debug_line` that is compressed by another
///   method than zlib, or damaged.
/// - [`NoTables::Missing`]: neither has such a section.
/// - [`NoTables::OutOfMemory`]: memory was refused.
#[tactic(auto, unfolding(crate::specs::Source::sources_for))]
pub fn line_source<'a>(
    alloc: Global,
    elf: &Elf<'a>,
    debug: Option<&'a [u8]>,
) -> Result<LineSections<'a>, NoTables>
    ensures { FindsSources result (spec.sources_for (image_of elf.now) (option_map (λ d. d.now) debug.entry)) }
{
    match sections_in(alloc, elf) {
        Ok(sections) => Ok(sections),
        Err(NoTables::OutOfMemory) => Err(NoTables::OutOfMemory),
        Err(own) => debug_sections(alloc, own, debug),
    }
}
