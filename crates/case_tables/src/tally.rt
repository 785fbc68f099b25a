// A count of the cases of an archive.
ghost use Rattle.std.specs.Prelude.{◌≡◌, ◌<◌, ◌-◌, ◌^◌, map};
ghost use Rattle.journal_layout.specs.Case.{case_of};
ghost use Rattle.case_tables.specs.Tally.{older, tally_of, with_case, with_core, with_exec, with_pin};

use journal_layout::{Entry, Kind};

/// The classes by which cases are counted.
#[derive(Clone, Copy, PartialEq, Eq)]
pub struct Tally {
    pub cores: u64,
    pub executables: u64,
    pub pinned: u64,
    /// The least time of a core in seconds since the epoch, of those that have one; or 0.
    pub oldest: u64,
    /// The latest time of a core; or 0.
    pub newest: u64,
}

/// Counts cases.
pub fn tally_of(cases: &[Entry]) -> Tally
    ensures counts { result ≡ tally_of (map case_of cases.now) }
{
    let mut tally = Tally {
        cores: 0,
        executables: 0,
        pinned: 0,
        oldest: 0,
        newest: 0,
    };
    for case in cases {
        tally = with_case(tally, case);
    }
    tally
}

// Counts one case more.
fn with_case(tally: Tally, case: &Entry) -> Tally
    requires cores { tally.cores < 2 ^ 64 - 1 }
    requires executables { tally.executables < 2 ^ 64 - 1 }
    requires pinned { tally.pinned < 2 ^ 64 - 1 }
    ensures { result ≡ with_case tally (case_of case.now) }
{
    let counted = with_pin(tally, case.pinned);
    match case.kind {
        Kind::Core => with_core(counted, case.time),
        Kind::Exec => with_exec(counted),
    }
}

fn with_pin(tally: Tally, pinned: bool) -> Tally
    requires { tally.pinned < 2 ^ 64 - 1 }
    ensures { result ≡ with_pin tally pinned }
{
    Tally {
        pinned: if pinned {
            tally.pinned + 1
        } else {
            tally.pinned
        },
        ..tally
    }
}

fn with_exec(tally: Tally) -> Tally
    requires { tally.executables < 2 ^ 64 - 1 }
    ensures { result ≡ with_exec tally }
{
    Tally {
        executables: tally.executables + 1,
        ..tally
    }
}

// Counts a core of this time; 0 is no time.
fn with_core(tally: Tally, time: u64) -> Tally
    requires { tally.cores < 2 ^ 64 - 1 }
    ensures { result ≡ with_core tally time }
{
    Tally {
        cores: tally.cores + 1,
        oldest: older(tally.oldest, time),
        newest: tally.newest.max(time),
        ..tally
    }
}

// The lesser of two times; 0 is no time.
fn older(first: u64, time: u64) -> u64
    ensures { result ≡ older first time }
{
    if first == 0 {
        time
    } else if time == 0 {
        first
    } else {
        first.min(time)
    }
}
