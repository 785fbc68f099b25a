// The counters.
ghost use Rattle.std.specs.Prelude.{◌≡◌, ◌<◌, Some};
ghost use Rattle.std.specs.List.{slice_get};
ghost use Rattle.handler_files.specs.Counters as spec;
ghost use Rattle.handler_files.specs.declared.counters.Counter.{Counter};

use crate::reasons::Reason;

/// The outcome of a core, as it is counted.
#[derive(Clone, Copy, PartialEq, Eq)]
pub enum Counter {
    /// It is stored whole.
    Stored,
    /// It is stored, and was cut.
    Cut,
    /// It was not stored, and stays in the spool.
    Kept,
    /// A case was dropped for a core.
    Dropped,
    /// It is lost for this reason.
    Lost(Reason),
}

/// How many counters there are.
pub const COUNTERS: usize = 25;

/// All counters, in the order of the file.
pub static ALL: [Counter; COUNTERS] = [
    Counter::Stored,
    Counter::Cut,
    Counter::Kept,
    Counter::Dropped,
    Counter::Lost(Reason::Busy),
    Counter::Lost(Reason::File),
    Counter::Lost(Reason::Disk),
    Counter::Lost(Reason::Stopped),
    Counter::Lost(Reason::Damaged),
    Counter::Lost(Reason::NotAnArchive),
    Counter::Lost(Reason::UnknownVersion),
    Counter::Lost(Reason::OldVersion),
    Counter::Lost(Reason::SpaceFull),
    Counter::Lost(Reason::JournalFull),
    Counter::Lost(Reason::NumbersSpent),
    Counter::Lost(Reason::OutOfMemory),
    Counter::Lost(Reason::TooLong),
    Counter::Lost(Reason::Short),
    Counter::Lost(Reason::Burst),
    Counter::Lost(Reason::Limit),
    Counter::Lost(Reason::NameTaken),
    Counter::Lost(Reason::NulByte),
    Counter::Lost(Reason::Empty),
    Counter::Lost(Reason::BadLine),
    Counter::Lost(Reason::Other),
];

impl Counter {
    // Its place among all counters.
    pub(crate) fn place(self) -> usize
        ensures place { result ≡ spec.place self }
        ensures few { result < 25 }
    {
        match self {
            Counter::Stored => 0,
            Counter::Cut => 1,
            Counter::Kept => 2,
            Counter::Dropped => 3,
            Counter::Lost(reason) => place_of(reason),
        }
    }

    /// The outcome of the core, in a word.
    pub fn outcome(self) -> &'static [u8]
        ensures { result.now ≡ spec.outcome_word self }
    {
        match self {
            Counter::Stored => b"stored",
            Counter::Cut => b"cut",
            Counter::Kept => b"kept",
            Counter::Dropped => b"dropped",
            Counter::Lost(_) => b"lost",
        }
    }

    /// The reason, if it is lost.
    pub fn reason(self) -> Option<Reason>
        ensures { result ≡ spec.reason_if_lost self }
    {
        match self {
            Counter::Lost(reason) => Some(reason),
            _ => None,
        }
    }
}

// The counter at a place in the order of the file.
#[tactic(auto, unfolding(crate::specs::Counters::counters))]
pub(crate) fn counter_at(index: usize) -> Counter
    requires { index < 25 }
    ensures { slice_get spec.counters index ≡ Some result }
{
    ALL[index]
}

fn place_of(reason: Reason) -> usize
    ensures place { result ≡ spec.reason_place reason }
    ensures few { result < 25 }
{
    match reason {
        Reason::Busy => 4,
        Reason::File => 5,
        Reason::Disk => 6,
        Reason::Stopped => 7,
        Reason::Damaged => 8,
        Reason::NotAnArchive => 9,
        Reason::UnknownVersion => 10,
        Reason::OldVersion => 11,
        Reason::SpaceFull => 12,
        Reason::JournalFull => 13,
        Reason::NumbersSpent => 14,
        Reason::OutOfMemory => 15,
        Reason::TooLong => 16,
        Reason::Short => 17,
        Reason::Burst => 18,
        Reason::Limit => 19,
        Reason::NameTaken => 20,
        Reason::NulByte => 21,
        Reason::Empty => 22,
        Reason::BadLine => 23,
        Reason::Other => 24,
    }
}

/// Each counter has its place in the order of the file.
pub fn each_counter_has_its_place()
    ensures { (counter : Counter) → slice_get spec.counters (spec.place counter) ≡ Some counter }
{}
