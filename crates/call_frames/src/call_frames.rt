// The call frame information of an image.
ghost use Rattle.std.specs.Prelude.{◌≡◌, IfOk};
ghost use Rattle.std.specs.Option.{option_map};
ghost use Rattle.elf_view.specs.ViewWords.{image_of};
ghost use Rattle.call_frames.specs.Finding as spec;
ghost use Rattle.call_frames.specs.Tables as tables;
ghost use Rattle.call_frames.specs.Unread.{have_unread_frames};

use crate::common::Format;
use crate::debug_frames::debug_frames;
use crate::entries::Entry;
use crate::faults::NoEntry;
use crate::indexed::Indexed;
use crate::table_data::TableData;
use crate::tables::eh_frame;
use elf_view::Elf;
use std::alloc::{AllocError, Global};

/// The call frame information of an image: the FDEs of `.eh_frame` and of `.debug_frame`, to be found by address.
#[derive(Drop)]
pub struct CallFrames<'a> {
    eh_frame: Indexed<'a>,
    debug_frame: Indexed<'a>,
    unread: bool,
}

impl<'a> CallFrames<'a> {
    ghost use Rattle.call_frames.specs.FindingWords.{eh_frame_in, debug_frame_in, found, is_unread_in};

    /// Reads the call frame information of an image: the section `.eh_frame` (without one: the bytes that the first
    /// PT_GNU_EH_FRAME leads to) and the section `.debug_frame` (without a readable one: that of its debug file), which is
    /// decompressed if it is compressed. An image without has no entries. An entry with a fault is left out, and the first
    /// fault of each section is kept. It takes time n log n in the FDEs, and copies only their addresses and places, and the
    /// bytes that it decompresses. It is refused if there is no memory for these.
    #[tactic(auto, unfolding(crate::specs::Tables::debug_frame_of))]
    pub fn read(
        alloc: Global,
        elf: &Elf<'a>,
        debug: Option<Elf<'a>>,
    ) -> Result<CallFrames<'a>, AllocError>
        ensures eh_frame { IfOk result (λ c. eh_frame_in c ≡ tables.eh_frame_of (image_of elf.now)) }
        ensures debug_frame { IfOk result (λ c. debug_frame_in c ≡ tables.debug_frame_of (image_of elf.now) (option_map image_of debug.entry)) }
        ensures unread { IfOk result (λ c. is_unread_in c ≡ have_unread_frames (image_of elf.now) (option_map image_of debug.entry)) }
    {
        let eh_frame = Indexed::read(alloc, eh_frame(elf))?;
        let found = debug_frames(alloc, elf, debug)?;
        let unread = found.unread;
        let table = match found.table {
            Some(table) => table,
            None => TableData::empty(Format::DebugFrame),
        };
        let debug_frame = Indexed::read(alloc, table)?;
        Ok(CallFrames {
            eh_frame,
            debug_frame,
            unread,
        })
    }

    /// The entry that describes an address of the image: the first of `.eh_frame` that covers it, else the first of
    /// `.debug_frame`. If no entry does, the first fault is returned, of `.eh_frame`, else of `.debug_frame`, or that
    /// there is no fault. It takes no memory.
    pub fn find(&self, address: u64) -> Result<Entry<'_>, NoEntry>
        ensures { found result ≡ spec.entry_for address (eh_frame_in self.now) (debug_frame_in self.now) }
    {
        if let Some(entry) = self.eh_frame.first_covering(address) {
            return Ok(entry);
        }
        if let Some(entry) = self.debug_frame.first_covering(address) {
            return Ok(entry);
        }
        match self.eh_frame.fault().or(self.debug_frame.fault()) {
            Some(fault) => Err(NoEntry::Faulty(fault)),
            None => Err(NoEntry::Uncovered),
        }
    }

    /// Whether the image, or its debug file, has call frame information that is compressed and was not read: a section
    /// `.debug_frame` that is compressed otherwise than by zlib, or damaged, or a section `.zdebug_frame`.
    pub fn has_unread(&self) -> bool
        ensures { result ≡ is_unread_in self.now }
    {
        self.unread
    }
}
