// The facts that the first bytes of a case's image give.
ghost use Rattle.std.specs.Prelude.{◌≡◌, ℕ, List, IfOk};
ghost use Rattle.elf_view.specs.declared.faults.Want.{Want};
ghost use Rattle.case_queries.specs.Fronts.{HasSize};
ghost use Rattle.case_screens.specs.Core.{header_in};
ghost use Rattle.image_replies.specs.CoreWords.{core_bytes};
ghost use Rattle.intake.specs.Parts.{state_of};
ghost use Rattle.case_info.specs.Fronts.{IsFront, SaysCore, SeesFront};

use archive_files::Refusal;
use case_queries::read_front;
use core_checks::{UnreadNotes, unread_notes, whole_length};
use disk_model::Disk;
use elf_view::{Elf, ElfFault, Header, Want, a_sound_front_is_enough, soundness_has_no_order};
use image_replies::{CoreFault, CoreImage, a_sound_front_answers};
use intake::Archive;
use std::alloc::Global;

// How many first bytes are looked at for the facts of a core beside its headers and notes.
const FIRST: usize = 65_536;

// The facts that the first bytes of a core give.
#[derive(Clone, Copy)]
pub(crate) struct CoreFront<'a> {
    // The core, or the first fault of its headers, its notes and its typed notes.
    pub(crate) core: Result<CoreImage<'a>, CoreFault>,
    // The length that its program headers want, if they lie in these bytes.
    pub(crate) whole: Option<u64>,
    // Why notes of it are not read as they are meant, if some are not.
    pub(crate) unread: Option<UnreadNotes>,
}

// The size of a case's image.
pub(crate) fn size_of<D: Disk>(seq: u32, archive: &Archive<D>) -> Result<usize, Refusal>
    ensures { IfOk result (λ size. HasSize (state_of archive.now) seq size) }
{
    match archive.case(seq) {
        Ok(entry) => Ok(entry.length as usize),
        Err(fault) => Err(Refusal::Call(fault)),
    }
}

// The first bytes of a case's image, which has that size: as many as its headers and notes want.
pub(crate) fn front_of<D: Disk>(
    alloc: Global,
    seq: u32,
    size: usize,
    want: Want,
    archive: &mut Archive<D>,
) -> Result<Vec<u8>, Refusal>
    requires { HasSize (state_of archive.old) seq size }
    ensures { IfOk result (λ front. SeesFront D.Disk archive.old seq want front.items archive.new) }
{
    match read_front(alloc, seq, want, size, archive) {
        Ok(front) => Ok(front),
        Err(fault) => Err(Refusal::Call(fault)),
    }
}

// The facts of a core by its first bytes.
pub(crate) fn core_in(front: &[u8]) -> CoreFront<'_>
    ensures says { (image : List ℕ) → IsFront Want.Core front.now image → SaysCore image result.core result.whole result.unread }
    ensures bytes { IfOk result.core (λ core. core_bytes core ≡ front.now) }
{
    a_sound_front_answers();
    a_sound_front_is_enough();
    let (first, _) = front.split_at(front.len().min(FIRST));
    CoreFront {
        core: CoreImage::read(front),
        whole: whole_length(first),
        unread: unread_notes(first),
    }
}

// The facts of the file header of an executable, by its first bytes.
pub(crate) fn header_in(front: &[u8]) -> Result<Header, ElfFault>
    ensures { (image : List ℕ) → IsFront Want.Exec front.now image → result ≡ header_in image }
{
    a_sound_front_is_enough();
    soundness_has_no_order();
    match Elf::read(front, Want::Exec) {
        Ok(elf) => Ok(elf.header()),
        Err(fault) => Err(fault),
    }
}
