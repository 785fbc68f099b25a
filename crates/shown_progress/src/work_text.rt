// The progress of a piece of work, in words.
use case_tables::print_size;
use script_streams::{Output, Reply};

const SECOND: u64 = 1_000;

const MINUTE: u64 = 60;

const HOUR: u64 = 3_600;

/// A piece of work, and its progress.
#[derive(Clone, Copy)]
pub struct Work {
    /// The work, as a word of the sentence that `corekeep` begins.
    pub name: &'static str,
    /// The bytes of all of it, if that is known.
    pub whole: Option<u64>,
    /// The bytes that are done.
    pub done: u64,
}

/// Prints the progress of a piece of work after so many milliseconds: the bytes, and their
/// rate; if the number of bytes is known, also the share that is done and the time that is
/// left. For work that has no bytes so far, and may have none, it prints only the name.
pub fn print_work<O: Output>(reply: &mut Reply<'_, O>, work: Work, millis: u64) {
    reply.print(work.name.as_bytes());
    if work.whole.is_none() && work.done == 0 {
        return;
    }
    reply.print(b" ");
    print_size(reply, work.done);
    if let Some(whole) = work.whole {
        reply.print(b" of ");
        print_size(reply, whole);
        reply.print(b", ");
        reply.print_decimal(u128::from(ratio(work.done, 100, whole)));
        reply.print(b" %");
    }
    reply.print(b", ");
    print_size(reply, ratio(work.done, SECOND, millis));
    reply.print(b"/s");
    if let Some(whole) = work.whole {
        let left = whole.saturating_sub(work.done);
        reply.print(b", ");
        print_time(reply, ratio(left, millis, work.done) / SECOND);
        reply.print(b" left");
    }
}

// So much times a factor, divided; 0 if there is nothing to divide by.
fn ratio(count: u64, factor: u64, by: u64) -> u64 {
    let product = u128::from(count) * u128::from(factor);
    match product.checked_div(u128::from(by)) {
        Some(quotient) => u64::try_from(quotient).unwrap_or(u64::MAX),
        None => 0,
    }
}

// Prints a time in seconds in its two largest units.
fn print_time<O: Output>(reply: &mut Reply<'_, O>, seconds: u64) {
    if seconds < MINUTE {
        print_unit(reply, seconds, b" s");
    } else if seconds < HOUR {
        print_unit(reply, seconds / MINUTE, b" min ");
        print_unit(reply, seconds % MINUTE, b" s");
    } else {
        print_unit(reply, seconds / HOUR, b" h ");
        print_unit(reply, seconds % HOUR / MINUTE, b" min");
    }
}

fn print_unit<O: Output>(reply: &mut Reply<'_, O>, count: u64, unit: &[u8]) {
    reply.print_decimal(u128::from(count));
    reply.print(unit);
}
