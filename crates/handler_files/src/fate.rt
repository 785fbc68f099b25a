// The files of a core that stay in the spool.
ghost use Rattle.std.specs.Prelude.{◌≡◌};
ghost use Rattle.handler_files.specs.Spools as spec;

use crate::outcomes::Outcome;

/// The fate of the files of a core after the attempt to store it.
#[derive(Clone, Copy, PartialEq, Eq)]
pub enum Fate {
    /// Both stay.
    Stay,
    /// Both go.
    Go,
}

/// The fate of the files after this outcome.
pub fn fate_of(outcome: Outcome) -> Fate
    ensures { result ≡ spec.spools outcome }
{
    match outcome {
        Outcome::Stored
        | Outcome::TooLong
        | Outcome::Short
        | Outcome::TooLarge
        | Outcome::Burst
        | Outcome::Limit
        | Outcome::Name => Fate::Go,
        Outcome::Busy
        | Outcome::File
        | Outcome::Disk
        | Outcome::Damaged
        | Outcome::NotAnArchive
        | Outcome::Version
        | Outcome::Full
        | Outcome::Spent
        | Outcome::NameTaken
        | Outcome::OutOfMemory
        | Outcome::Unknown => Fate::Stay,
    }
}
