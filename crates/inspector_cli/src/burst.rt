// A program that crashes again and again: how many of its cores are stored.
ghost use Rattle.std.specs.Prelude.{◌≡◌, length, map};
ghost use Rattle.std.specs.List.{filter};
ghost use Rattle.journal_layout.specs.Case.{case_of};
ghost use Rattle.intake.specs.Parts.{state_of};
ghost use Rattle.stream_names.specs.Commands.{stream_begun, stream_found};
ghost use Rattle.inspector_cli.specs.Bursts as spec;

use disk_model::Disk;
use intake::Archive;
use journal_layout::{Entry, Kind, Name};
use stream_names::NewStream;

/// So many cores of one program, in so many seconds.
#[derive(Drop)]
pub struct Burst {
    /// The front that the names of its cores share.
    pub front: Name,
    /// How many of them are stored.
    pub most: u64,
    /// In how many seconds.
    pub seconds: u64,
}

/// The stream that may begin: the one that is found, unless it is a core whose time is known, and as many of its program's unpinned
/// cores as may be were made shortly before it. The reason is `Burst` then.
pub(crate) fn admitted<D: Disk>(
    burst: &Option<Burst>,
    found: Result<NewStream, &'static [u8]>,
    archive: &Archive<D>,
) -> Result<NewStream, &'static [u8]>
    ensures { stream_found result ≡ spec.admitted burst.now (state_of archive.now).stopped (state_of archive.now).cases (stream_found found.entry) }
{
    let Some(burst) = burst else {
        return found;
    };
    match found {
        Ok(stream) => {
            if is_over(burst, &stream, archive) {
                return Err(b"Burst");
            }
            Ok(stream)
        }
        Err(reason) => Err(reason),
    }
}

// Whether this stream is one too many.
fn is_over<D: Disk>(burst: &Burst, stream: &NewStream, archive: &Archive<D>) -> bool
    ensures { result ≡ spec.is_over burst.now (state_of archive.now).stopped (state_of archive.now).cases (stream_begun stream.now) }
{
    match archive.cases() {
        Ok(cases) => {
            stream.kind == Kind::Core && stream.time > 0 && is_full_burst(cases, burst, stream.time)
        }
        Err(_) => false,
    }
}

// Whether as many cores as may be are among the cases.
fn is_full_burst(cases: &[Entry], burst: &Burst, time: u64) -> bool
    ensures { result ≡ spec.is_full_burst burst.now time (map case_of cases.now) }
{
    count_recent(cases, burst, time) >= burst.most
}

// How many of the cases are cores of this program that were made not long before this time.
fn count_recent(cases: &[Entry], burst: &Burst, time: u64) -> u64
    ensures { result ≡ length (filter (spec.is_recent_entry burst.now time) cases.now) }
{
    let found = cases.iter().filter(|case| is_recent(case, burst, time));
    found.count() as u64
}

// Whether a case is a core of this program that was made not long before this time, and is not pinned.
fn is_recent(case: &Entry, burst: &Burst, time: u64) -> bool
    ensures { result ≡ spec.is_recent_entry burst.now time case.now }
{
    !case.pinned
        && case.kind == Kind::Core
        && case.name.starts_with(&burst.front)
        && is_within(case.time, time, burst.seconds)
}

// Whether a time is this one, or so many seconds before it at most.
fn is_within(earlier: u64, time: u64, seconds: u64) -> bool
    ensures { result ≡ spec.is_within earlier time seconds }
{
    earlier <= time && time - earlier <= seconds
}
