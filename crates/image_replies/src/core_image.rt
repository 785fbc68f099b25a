// A core whose headers, notes and typed notes pass their checks.
ghost use Rattle.std.specs.Prelude.{◌≡◌, IfOk};
ghost use Rattle.std.specs.Result.{result_err};
ghost use Rattle.core_notes.specs.CoreWords.{notes_seen};
ghost use Rattle.elf_view.specs.ViewWords.{image_of, want_of, notes_of};
ghost use Rattle.elf_view.specs.declared.faults.Want.TheVariants.{Core};
ghost use Rattle.image_replies.specs.Core.{core_fault_of};

use core_notes::{CoreNotes, NoteFault};
use elf_view::{Elf, ElfFault, Want};

/// Why a core is not shown: the first fault of its headers and notes, or else that of its typed notes.
#[derive(Clone, Copy, PartialEq, Eq)]
pub enum CoreFault {
    /// A field of a header, of a program header or of a note is bad.
    Elf(ElfFault),
    /// The descriptor of a typed note is bad.
    Note(NoteFault),
}

/// A core whose headers, notes and typed notes pass their checks.
/// The values that it gives may be kept as long as the image.
#[derive(Clone, Copy)]
pub struct CoreImage<'a> {
    elf: Elf<'a>,
    notes: CoreNotes<'a>,
    /// It was read as a core.
    pub ghost is_core: { want_of elf ≡ Core },
    /// The typed notes are its own.
    pub ghost own: { notes_seen notes ≡ notes_of Core (image_of elf) },
}

impl<'a> CoreImage<'a> {
    ghost use Rattle.image_replies.specs.CoreWords.{core_bytes};

    /// Views an image as a core with typed notes.
    ///
    /// # Errors
    ///
    /// `Elf` with the first check of the headers and notes that fails, or else `Note` with the first fault of the typed
    /// notes.
    pub fn read(image: &'a [u8]) -> Result<CoreImage<'a>, CoreFault>
        ensures fault { result_err result ≡ core_fault_of image.now }
        ensures image { IfOk result (λ core. core_bytes core ≡ image.now) }
    {
        let elf = match Elf::read(image, Want::Core) {
            Ok(elf) => elf,
            Err(fault) => return Err(CoreFault::Elf(fault)),
        };
        match CoreNotes::of(&elf) {
            Ok(notes) => Ok(CoreImage { elf, notes }),
            Err(fault) => Err(CoreFault::Note(fault)),
        }
    }

    /// The image's headers and notes.
    pub fn elf(&self) -> Elf<'a>
        ensures image { image_of result ≡ core_bytes self.now }
        ensures want { want_of result ≡ Core }
    {
        self.elf
    }

    /// The typed notes.
    pub fn notes(&self) -> &CoreNotes<'a>
        ensures { notes_seen result.now ≡ notes_of Core (core_bytes self.now) }
    {
        &self.notes
    }
}
