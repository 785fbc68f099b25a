// The times of cores that may be right.
ghost use Rattle.std.specs.Prelude.{◌≡◌, drop, filter, IfOk};
ghost use Rattle.case_pages.specs.Times as spec;

use std::alloc::{AllocError, Global};

// A day, in seconds.
const DAY: u64 = 86_400;

// The first second of the year 2000.
const FIRST_TIME: u64 = 946_684_800;

// The time of so many cores is taken as it is.
const FEW: usize = 3;

/// The latest time that counts, in seconds since the epoch: a day after the newest plausible one. The times are those of the cores, in the order
/// in which they were stored. A time is plausible if it is not before the year 2000 and fewer than three cores were stored later, or half of
/// these have a time that is at most a day before it.
///
/// # Errors
///
/// There is no memory.
pub fn latest_of(alloc: Global, times: &[u64]) -> Result<u64, AllocError>
    ensures { IfOk result (λ latest. latest ≡ spec.latest_of times.now) }
{
    let dated = dated(alloc, times)?;
    Ok(newest_of(&dated).saturating_add(DAY))
}

fn is_dated(time: u64) -> bool
    ensures { result ≡ spec.is_dated time }
{
    FIRST_TIME <= time
}

fn dated(alloc: Global, times: &[u64]) -> Result<Vec<u64>, AllocError>
    ensures { IfOk result (λ dated. dated.items ≡ filter spec.is_dated times.now) }
{
    let mut dated = Vec::new(alloc);
    for time in times {
        if is_dated(*time) {
            dated.push(*time)?;
        }
    }
    Ok(dated)
}

// The newest of the times that are plausible; 0 if there are no such times.
fn newest_of(times: &[u64]) -> u64
    ensures { result ≡ spec.newest_of times.now }
{
    let mut newest = 0;
    let mut at = times.len();
    while at > 0 {
        at -= 1;
        let (_, rest) = times.split_at(at);
        newest = newer(newest, rest);
    }
    newest
}

// The newest of these times, by that of all but the first.
fn newer(newest: u64, times: &[u64]) -> u64
    ensures { newest ≡ spec.newest_of (drop 1 times.now) → result ≡ spec.newest_of times.now }
{
    match times.split_first() {
        Some((time, later)) if newest < *time && is_plausible(*time, later) => *time,
        _ => newest,
    }
}

fn is_plausible(time: u64, later: &[u64]) -> bool
    ensures { result ≡ spec.is_plausible time later.now }
{
    later.len() < FEW || later.len() as u128 <= 2 * u128::from(support(time, later))
}

// How many of the times of cores that were stored later are at most a day before this one.
fn support(time: u64, later: &[u64]) -> u64
    ensures { result ≡ spec.support time later.now }
{
    let mut support = 0;
    for other in later {
        if time.saturating_sub(DAY) <= *other {
            support += 1;
        }
    }
    support
}
