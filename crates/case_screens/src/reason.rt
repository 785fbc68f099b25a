// Why something is not shown.
ghost use Rattle.std.specs.Prelude.{◌≡◌};
ghost use Rattle.case_screens.specs.Reasons as reasons;
ghost use Rattle.case_screens.specs.ReasonWords.{reason_view};

use elf_view::ElfFault;
use image_replies::CoreFault;

/// Why something is not shown.
#[derive(Clone, Copy)]
pub struct Reason<'a> {
    /// The name of the part with the fault.
    pub name: &'a [u8],
    /// Its number, if there may be many.
    pub index: Option<u64>,
}

/// The field of a header, of a program header or of a note that has the fault.
pub fn elf_reason(fault: ElfFault) -> Reason<'static>
    ensures { reason_view result ≡ reasons.elf_reason fault }
{
    Reason {
        name: fault.field.name().as_bytes(),
        index: if fault.field.has_index() {
            Some(fault.index)
        } else {
            None
        },
    }
}

/// Why a core is not shown.
pub fn core_reason(fault: CoreFault) -> Reason<'static>
    ensures { reason_view result ≡ reasons.core_reason fault }
{
    match fault {
        CoreFault::Elf(fault) => elf_reason(fault),
        CoreFault::Note(fault) => Reason {
            name: fault.field.name().as_bytes(),
            index: Some(fault.index),
        },
    }
}

/// A note that a core need not have is not there.
pub fn missing() -> Reason<'static>
    ensures { reason_view result ≡ reasons.missing }
{
    Reason {
        name: b"Missing",
        index: None,
    }
}

/// It has no such thread.
pub fn no_thread() -> Reason<'static>
    ensures { reason_view result ≡ reasons.no_thread }
{
    Reason {
        name: b"NoThread",
        index: None,
    }
}
