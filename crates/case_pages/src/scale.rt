// The places of a plot.
ghost use Rattle.std.specs.Prelude.{◌≡◌, ◌<◌, ◌≤◌, ◌*◌};

// Where the bars are, in tenths of a pixel: the left edge, the width of all, the bottom, and the height of all.
const LEFT: u64 = 400;

const WIDTH: u64 = 9_120;

const BOTTOM: u64 = 1_940;

const HEIGHT: u64 = 1_820;

// The most cores of which the grid has at most five lines above the lowest.
const MOST_UNIT: u64 = 100_000_000_000_000_000;

// The places of so many bars, and of so many cores in them.
#[derive(Clone, Copy)]
pub(crate) struct Scale {
    bars: u64,
    // From one line of the grid to the next there are so many cores.
    pub(crate) tick: u64,
    // How many lines there are above the lowest.
    pub(crate) lines: u64,
    high: u64,
    ghost some: { (0 < bars) × (0 < high) },
}

impl Scale {
    // That of bars, the highest of which has so many cores.
    pub(crate) fn of(bars: u64, most: u64) -> Scale {
        let tick = tick_of(most);
        let lines = (most / tick).saturating_add(if most % tick > 0 { 1 } else { 0 });
        Scale {
            bars: bars.max(1),
            tick,
            lines,
            high: lines.saturating_mul(tick).max(1),
        }
    }

    // How wide a bar is, with the gap to the next.
    pub(crate) fn width(&self) -> u64
        ensures { result ≤ 9120 }
    {
        (WIDTH / self.bars).min(WIDTH)
    }

    // Where a bar begins.
    pub(crate) fn x(&self, bar: u64) -> u64
        ensures { result ≤ 9520 }
    {
        LEFT + (bar.saturating_mul(WIDTH) / self.bars).min(WIDTH)
    }

    // How high so many cores are.
    pub(crate) fn y(&self, cores: u64) -> u64
        ensures { result ≤ 1940 }
    {
        BOTTOM - (cores.saturating_mul(HEIGHT) / self.high).min(HEIGHT)
    }
}

// From one line of the grid to the next: 1, 2 or 5 cores, or ten, a hundred .. times as many, so that five lines are enough.
fn tick_of(most: u64) -> u64
    ensures some { 0 < result }
    ensures five { most ≤ 2_500_000_000_000_000_000 → most ≤ 5 * result }
{
    let mut unit = 1;
    while unit < MOST_UNIT && most > 25 * unit {
        unit *= 10;
    }
    if most <= 5 * unit {
        unit
    } else if most <= 10 * unit {
        2 * unit
    } else {
        5 * unit
    }
}
