// The section `.debug_frame` of an executable, or of its debug file.
ghost use Rattle.std.specs.Prelude.{◌≡◌, IfOk, false, unwrap_or};
ghost use Rattle.std.specs.Option.{option_and_then, option_map, option_or};
ghost use Rattle.elf_view.specs.ViewWords.{image_of};
ghost use Rattle.call_frames.specs.EntryWords.{data_table};
ghost use Rattle.call_frames.specs.Tables as spec;
ghost use Rattle.call_frames.specs.Unread as unread;
ghost use Rattle.inflate.specs.SectionWords.{data_view};

use crate::common::Format;
use crate::table_data::TableData;
use elf_view::Elf;
use inflate::{FoundSection, SectionData, read_section};
use std::alloc::{AllocError, Global};

/// The section `.debug_frame` of a file, or of a file and its debug file.
#[derive(Drop)]
pub(crate) struct DebugFrames<'a> {
    /// The table, if there is one that can be read.
    pub(crate) table: Option<TableData<'a>>,
    /// There is compressed call frame information that is not read.
    pub(crate) unread: bool,
}

/// A section as a table.
fn table_of<'a>(section: SectionData<'a>) -> TableData<'a>
    ensures { data_table result ≡ spec.debug_frame_table (data_view section.entry) }
{
    TableData {
        format: Format::DebugFrame,
        address: section.addr,
        bytes: section.bytes,
    }
}

/// The section `.debug_frame` of a file.
#[tactic(auto, unfolding(crate::specs::Unread::has_unread_frames))]
fn in_file<'a>(alloc: Global, elf: &Elf<'a>) -> Result<DebugFrames<'a>, AllocError>
    ensures table { IfOk result (λ d. option_map data_table d.table ≡ spec.debug_frame_in_image (image_of elf.now)) }
    ensures unread { IfOk result (λ d. d.unread ≡ unread.has_unread_frames (image_of elf.now)) }
{
    let older = elf.named_section(b".zdebug_frame").is_some();
    match read_section(alloc, elf, b".debug_frame")? {
        FoundSection::Data(section) => Ok(DebugFrames {
            table: Some(table_of(section)),
            unread: older,
        }),
        FoundSection::Unread => Ok(DebugFrames {
            table: None,
            unread: true,
        }),
        FoundSection::Missing => Ok(DebugFrames {
            table: None,
            unread: older,
        }),
    }
}

/// The section `.debug_frame` of a debug file, if there is one.
fn in_debug_file<'a>(alloc: Global, debug: Option<Elf<'a>>) -> Result<DebugFrames<'a>, AllocError>
    ensures table { IfOk result (λ d. option_map data_table d.table ≡ option_and_then spec.debug_frame_in_image (option_map image_of debug.entry)) }
    ensures unread { IfOk result (λ d. d.unread ≡ unwrap_or (option_map unread.has_unread_frames (option_map image_of debug.entry)) false) }
{
    match debug {
        Some(debug) => in_file(alloc, &debug),
        None => Ok(DebugFrames {
            table: None,
            unread: false,
        }),
    }
}

/// The section `.debug_frame` of an executable, else of its debug file; and whether one of the two has some that is not read.
pub(crate) fn debug_frames<'a>(
    alloc: Global,
    elf: &Elf<'a>,
    debug: Option<Elf<'a>>,
) -> Result<DebugFrames<'a>, AllocError>
    ensures table { IfOk result (λ d. option_map data_table d.table
        ≡ option_or (spec.debug_frame_in_image (image_of elf.now)) (option_and_then spec.debug_frame_in_image (option_map image_of debug.entry))) }
    ensures unread { IfOk result (λ d. d.unread ≡ unread.have_unread_frames (image_of elf.now) (option_map image_of debug.entry)) }
{
    let own = in_file(alloc, elf)?;
    let other = in_debug_file(alloc, debug)?;
    let unread = own.unread || other.unread;
    let table = match own.table {
        Some(table) => Some(table),
        None => other.table,
    };
    Ok(DebugFrames { table, unread })
}
