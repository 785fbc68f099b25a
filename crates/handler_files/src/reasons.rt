// Why cores were lost.
ghost use Rattle.std.specs.Prelude.{◌≡◌, ◌++◌, codes};
ghost use Rattle.handler_files.specs.Counters as spec;

/// Why a core was lost, by the word that the log has.
#[derive(Clone, Copy, PartialEq, Eq)]
pub enum Reason {
    /// Another process had the archive.
    Busy,
    /// The archive's file, or the core, could not be opened or read.
    File,
    /// A call on the archive's file failed.
    Disk,
    /// The archive takes no more calls, since one on its file failed.
    Stopped,
    /// The archive is damaged.
    Damaged,
    /// The file is no archive.
    NotAnArchive,
    /// The archive has a version that this program doesn't know.
    UnknownVersion,
    /// The archive has an old version.
    OldVersion,
    /// Too few blocks were free.
    SpaceFull,
    /// The journal had no room.
    JournalFull,
    /// All numbers of cases are given.
    NumbersSpent,
    /// There was no memory.
    OutOfMemory,
    /// The core has more bytes than an image may have, or than was stated.
    TooLong,
    /// It has fewer bytes than was stated.
    Short,
    /// Too many cores of its program were stored shortly before.
    Burst,
    /// Its process allowed it no core.
    Limit,
    /// A case has its name.
    NameTaken,
    /// Its name has a byte 0.
    NulByte,
    /// Its name is empty.
    Empty,
    /// Its words are refused.
    BadLine,
    /// Another reason, or none is known.
    Other,
}

impl Reason {
    /// The reason that the log has as this word. A word that isn't here is another reason.
    pub fn of(word: &str) -> Reason
        ensures { result ≡ spec.reason_of word.now }
    {
        match word {
            "Busy" => Reason::Busy,
            "File" => Reason::File,
            "Disk" => Reason::Disk,
            "Stopped" => Reason::Stopped,
            "Damaged" => Reason::Damaged,
            "NotAnArchive" => Reason::NotAnArchive,
            "UnknownVersion" => Reason::UnknownVersion,
            "OldVersion" => Reason::OldVersion,
            "SpaceFull" => Reason::SpaceFull,
            "JournalFull" => Reason::JournalFull,
            "NumbersSpent" => Reason::NumbersSpent,
            "OutOfMemory" => Reason::OutOfMemory,
            "TooLong" => Reason::TooLong,
            "Short" => Reason::Short,
            "Burst" => Reason::Burst,
            "Limit" => Reason::Limit,
            "NameTaken" => Reason::NameTaken,
            "NulByte" => Reason::NulByte,
            "Empty" => Reason::Empty,
            "BadLine" => Reason::BadLine,
            _ => Reason::Other,
        }
    }

    /// The word that the log has.
    pub fn word(self) -> &'static [u8]
        ensures { result.now ≡ spec.reason_word self }
    {
        match self {
            Reason::Busy => b"Busy",
            Reason::File => b"File",
            Reason::Disk => b"Disk",
            Reason::Stopped => b"Stopped",
            Reason::Damaged => b"Damaged",
            Reason::NotAnArchive => b"NotAnArchive",
            Reason::UnknownVersion => b"UnknownVersion",
            Reason::OldVersion => b"OldVersion",
            Reason::SpaceFull => b"SpaceFull",
            Reason::JournalFull => b"JournalFull",
            Reason::NumbersSpent => b"NumbersSpent",
            Reason::OutOfMemory => b"OutOfMemory",
            Reason::TooLong => b"TooLong",
            Reason::Short => b"Short",
            Reason::Burst => b"Burst",
            Reason::Limit => b"Limit",
            Reason::NameTaken => b"NameTaken",
            Reason::NulByte => b"NulByte",
            Reason::Empty => b"Empty",
            Reason::BadLine => b"BadLine",
            Reason::Other => b"Other",
        }
    }
}
