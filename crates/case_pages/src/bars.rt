// The bars of a plot: how many cores came in each span of time.
ghost use Rattle.std.specs.Prelude.{◌≡◌, ◌<◌, ◌≤◌, IfOk};
ghost use Rattle.case_pages.specs.Bars as spec;

use crate::span::Span;
use std::alloc::{AllocError, Global};

// How many bars a plot has at most.
const MOST: u64 = 60;

// How many seconds a bar has.
const HOUR: u64 = 3_600;

const SIX_HOURS: u64 = 21_600;

const DAY: u64 = 86_400;

const WEEK: u64 = 604_800;

const FOUR_WEEKS: u64 = 2_419_200;

// The bars for the times from the oldest to the newest: as few seconds a bar as 60 bars can have. If they need more than 60 bars of four weeks,
// these are the last 60.
pub(crate) fn span_of(oldest: u64, newest: u64) -> Span
    requires { oldest ≤ newest }
    ensures { spec.Spans oldest newest result }
{
    let step = step_of(oldest, newest);
    let last = newest / step;
    let first = (oldest / step).max(last.saturating_sub(MOST - 1));
    Span {
        step,
        first,
        count: last.saturating_sub(first) + 1,
    }
}

// Whether a time is in one of the bars.
pub(crate) fn is_among(span: Span, time: u64) -> bool
    ensures { result ≡ spec.is_among span.step span.first span.count time }
{
    let bar = time / span.step;
    span.first <= bar && bar.saturating_sub(span.first) < span.count
}

// How many seconds a bar has: as few as 60 bars can have, or four weeks.
fn step_of(oldest: u64, newest: u64) -> u64
    ensures some { 0 < result }
    ensures step { result ≡ spec.step_of oldest newest }
{
    if fits(HOUR, oldest, newest) {
        HOUR
    } else if fits(SIX_HOURS, oldest, newest) {
        SIX_HOURS
    } else if fits(DAY, oldest, newest) {
        DAY
    } else if fits(WEEK, oldest, newest) {
        WEEK
    } else {
        FOUR_WEEKS
    }
}

// Whether 60 bars of so many seconds are enough.
fn fits(step: u64, oldest: u64, newest: u64) -> bool
    requires { 0 < step }
    ensures { result ≡ spec.fits step oldest newest }
{
    (newest / step).saturating_sub(oldest / step) < MOST
}

// How many of these times each bar has.
pub(crate) fn bars_of(alloc: Global, span: Span, times: &[u64]) -> Result<Vec<u64>, AllocError>
    ensures { IfOk result (λ bars. bars.items ≡ spec.bars span.step span.first span.count times.now) }
{
    let mut bars = Vec::new(alloc);
    for at in 0..span.count {
        bars.push(height(times, span.step, span.first + at))?;
    }
    Ok(bars)
}

fn height(times: &[u64], step: u64, bar: u64) -> u64
    requires { 0 < step }
    ensures { result ≡ spec.height step bar times.now }
{
    let mut height = 0;
    for time in times {
        if *time / step == bar {
            height += 1;
        }
    }
    height
}
