// The outcome of the attempt to store a core.
ghost use Rattle.std.specs.Prelude.{◌≡◌};
ghost use Rattle.handler_files.specs.Outcomes as spec;

/// The outcome of the attempt to store a core from the spool.
#[derive(Clone, Copy, PartialEq, Eq)]
pub enum Outcome {
    /// It is stored.
    Stored,
    /// Another process has the archive.
    Busy,
    /// The archive's file could not be opened.
    File,
    /// A call on the archive's file failed.
    Disk,
    /// The archive is damaged.
    Damaged,
    /// The file is no archive.
    NotAnArchive,
    /// The archive has a version that this program doesn't know.
    Version,
    /// The archive has no room for it, and no case may go for it.
    Full,
    /// All numbers of cases are given.
    Spent,
    /// A case has its name.
    NameTaken,
    /// There was no memory.
    OutOfMemory,
    /// Nobody has said why.
    Unknown,
    /// It has more bytes than an image may have, or than was stated.
    TooLong,
    /// It has fewer bytes than was stated.
    Short,
    /// The archive has no room for it, whichever cases go.
    TooLarge,
    /// Too many cores of its program were stored shortly before.
    Burst,
    /// Its process allowed it no core.
    Limit,
    /// Its name or its words are refused.
    Name,
}

/// The outcome, by the reason of the refusal in a reply, whose further words don't count. If cases may go for it, no room is left even so.
pub fn outcome_of(reason: &str, makes_room: bool) -> Outcome
    ensures { result ≡ spec.outcome_of reason.now makes_room }
{
    match reason {
        "Busy" => Outcome::Busy,
        "File" => Outcome::File,
        "Disk" | "Stopped" => Outcome::Disk,
        "Damaged" => Outcome::Damaged,
        "NotAnArchive" => Outcome::NotAnArchive,
        "UnknownVersion" | "OldVersion" => Outcome::Version,
        "SpaceFull" | "JournalFull" => full(makes_room),
        "NumbersSpent" => Outcome::Spent,
        "OutOfMemory" => Outcome::OutOfMemory,
        "TooLong" => Outcome::TooLong,
        "Short" => Outcome::Short,
        "Burst" => Outcome::Burst,
        "Limit" => Outcome::Limit,
        "NameTaken" => Outcome::NameTaken,
        "NulByte" | "Empty" | "BadLine" => Outcome::Name,
        _ => Outcome::Unknown,
    }
}

// No room is left, though cases may go, or while none may.
fn full(makes_room: bool) -> Outcome
    ensures { result ≡ spec.full makes_room }
{
    if makes_room {
        Outcome::TooLarge
    } else {
        Outcome::Full
    }
}
