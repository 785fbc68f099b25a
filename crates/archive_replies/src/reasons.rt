// The names of refusals in replies.
ghost use Rattle.std.specs.Prelude.{◌≡◌};
ghost use Rattle.archive_replies.specs.Reasons.{reason_of};

use intake::ArchiveFault;

/// The name of a refusal, as a reply has it after `no `.
pub fn reason(fault: ArchiveFault) -> &'static [u8]
    ensures { result.now ≡ reason_of fault }
{
    match fault {
        ArchiveFault::Stopped => b"Stopped",
        ArchiveFault::BadSlot => b"BadSlot",
        ArchiveFault::SlotBusy => b"SlotBusy",
        ArchiveFault::NameTaken => b"NameTaken",
        ArchiveFault::NoStream => b"NoStream",
        ArchiveFault::TooLong => b"TooLong",
        ArchiveFault::SpaceFull => b"SpaceFull",
        ArchiveFault::NoCase => b"NoCase",
        ArchiveFault::Pinned => b"Pinned",
        ArchiveFault::JournalFull => b"JournalFull",
        ArchiveFault::NumbersSpent => b"NumbersSpent",
        ArchiveFault::OutOfMemory => b"OutOfMemory",
        ArchiveFault::Disk => b"Disk",
        ArchiveFault::OldVersion => b"OldVersion",
    }
}
