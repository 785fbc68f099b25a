// Why an archive is not copied.
ghost use Rattle.std.specs.Prelude.{◌≡◌};
ghost use Rattle.archive_care.specs.declared.faults.CopyFault.TheVariants.{OutOfMemory};

use journal_layout::OpenFault;
use std::alloc::AllocError;
use thiserror::Error;

/// Why an archive is not copied. They are looked for in this order, `OutOfMemory` at any time before the new disk is written.
#[derive(Clone, Copy, Debug, PartialEq, Eq, Error)]
pub enum CopyFault {
    /// The archive could not be opened.
    #[error("the archive could not be opened")]
    Open(OpenFault),
    /// The new shape is outside its limits, or is not that of the new disk.
    #[error("the shape is outside its limits or is not the new disk's")]
    BadShape,
    /// The images take more blocks than the new archive has.
    #[error("the images take more blocks than the new archive has")]
    SpaceFull,
    /// The records of the cases, and the gate after them, do not fit into a half of the new journal.
    #[error("the cases take more bytes than a half of the new journal has")]
    JournalFull,
    /// There was no memory.
    #[error("out of memory")]
    OutOfMemory,
    /// The archive could not be read.
    #[error("the archive could not be read")]
    Source,
    /// The new disk could not be written. Nothing is promised of it.
    #[error("the new archive could not be written")]
    Target,
}

impl From<AllocError> for CopyFault {
    ghost from_gives = { λ _ fault. fault ≡ OutOfMemory };

    fn from(_error: AllocError) -> CopyFault {
        CopyFault::OutOfMemory
    }
}
