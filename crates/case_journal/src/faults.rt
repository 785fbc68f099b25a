// Why a call of the journal is refused.
ghost use Rattle.std.specs.Prelude.{◌≡◌};
ghost use Rattle.case_journal.specs.declared.faults.FormatFault.TheVariants as format_faults;
ghost use Rattle.case_journal.specs.declared.faults.JournalFault.TheVariants as journal_faults;

use disk_model::DiskFault;
use std::alloc::AllocError;
use thiserror::Error;

/// Why an archive was not made.
#[derive(Clone, Copy, Debug, PartialEq, Eq, Error)]
pub enum FormatFault {
    /// The shape is outside its limits, or is not that of the disk. Nothing was written.
    #[error("the shape is outside its limits or is not the disk's")]
    BadShape,
    /// The disk failed. Nothing is promised of it until the format is done again.
    #[error("the disk failed")]
    Disk,
}

/// Why a record was not appended. They are checked in this order, `OldVersion` right after `Stopped`.
#[derive(Clone, Copy, Debug, PartialEq, Eq, Error)]
pub enum JournalFault {
    /// A disk fault has stopped the journal until it is opened again.
    #[error("stopped by a disk fault")]
    Stopped,
    /// The record and the gate after it do not fit into the half.
    #[error("the journal is full")]
    JournalFull,
    /// All case numbers are given.
    #[error("the case numbers are spent")]
    NumbersSpent,
    /// There was no memory.
    #[error("out of memory")]
    OutOfMemory,
    /// The disk failed. The record may be on it or not, and the journal is stopped.
    #[error("the disk failed")]
    Disk,
    /// The archive is of version 1 of the layout, which keeps no labels.
    #[error("the archive's version keeps no labels")]
    OldVersion,
}

impl From<DiskFault> for FormatFault {
    ghost from_gives = { λ _ fault. fault ≡ format_faults.Disk };

    fn from(_fault: DiskFault) -> FormatFault {
        FormatFault::Disk
    }
}

impl From<DiskFault> for JournalFault {
    ghost from_gives = { λ _ fault. fault ≡ journal_faults.Disk };

    fn from(_fault: DiskFault) -> JournalFault {
        JournalFault::Disk
    }
}

impl From<AllocError> for JournalFault {
    ghost from_gives = { λ _ fault. fault ≡ journal_faults.OutOfMemory };

    fn from(_error: AllocError) -> JournalFault {
        JournalFault::OutOfMemory
    }
}
