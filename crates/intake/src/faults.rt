// Why a call of the archive is refused.
ghost use Rattle.std.specs.Prelude.{◌≡◌};
ghost use Rattle.intake.specs.Faults.{fault_of};
ghost use Rattle.intake.specs.declared.faults.ArchiveFault.TheVariants.{Disk, OutOfMemory};

use case_journal::JournalFault;
use disk_model::DiskFault;
use std::alloc::AllocError;
use thiserror::Error;

/// Why a call of the archive is refused. A call checks those that it can give in this order, unless it says another.
#[derive(Clone, Copy, Debug, PartialEq, Eq, Error)]
pub enum ArchiveFault {
    /// A disk fault has stopped the archive until it is opened again.
    #[error("stopped by a disk fault")]
    Stopped,
    /// There is no such slot.
    #[error("there is no such slot")]
    BadSlot,
    /// A stream is open in the slot.
    #[error("a stream is open in the slot")]
    SlotBusy,
    /// A live case or an open stream has the name.
    #[error("the name is taken")]
    NameTaken,
    /// No stream is open in the slot.
    #[error("no stream is open in the slot")]
    NoStream,
    /// The image would pass the limit on its bytes.
    #[error("the image is too long")]
    TooLong,
    /// Every data block belongs to a live case or an open stream.
    #[error("no data block is free")]
    SpaceFull,
    /// No case has the number.
    #[error("no case has the number")]
    NoCase,
    /// The case is pinned.
    #[error("the case is pinned")]
    Pinned,
    /// Neither the record nor the live cases with it, written anew, fit into a half of the journal.
    #[error("the journal is full")]
    JournalFull,
    /// All case numbers are given.
    #[error("the case numbers are spent")]
    NumbersSpent,
    /// There was no memory.
    #[error("out of memory")]
    OutOfMemory,
    /// The disk failed. The archive is stopped, and no stream is open.
    #[error("the disk failed")]
    Disk,
    /// The archive is of version 1 of the layout, which keeps no labels.
    #[error("the archive's version keeps no labels")]
    OldVersion,
}

impl From<JournalFault> for ArchiveFault {
    ghost from_gives = { λ f a. a ≡ fault_of f };

    fn from(fault: JournalFault) -> ArchiveFault
        ensures { result ≡ fault_of fault }
    {
        match fault {
            JournalFault::Stopped => ArchiveFault::Stopped,
            JournalFault::JournalFull => ArchiveFault::JournalFull,
            JournalFault::NumbersSpent => ArchiveFault::NumbersSpent,
            JournalFault::OutOfMemory => ArchiveFault::OutOfMemory,
            JournalFault::Disk => ArchiveFault::Disk,
            JournalFault::OldVersion => ArchiveFault::OldVersion,
        }
    }
}

impl From<DiskFault> for ArchiveFault {
    ghost from_gives = { λ _ fault. fault ≡ Disk };

    fn from(_fault: DiskFault) -> ArchiveFault {
        ArchiveFault::Disk
    }
}

impl From<AllocError> for ArchiveFault {
    ghost from_gives = { λ _ fault. fault ≡ OutOfMemory };

    fn from(_error: AllocError) -> ArchiveFault {
        ArchiveFault::OutOfMemory
    }
}
