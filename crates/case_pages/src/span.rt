// The bars of a plot.
ghost use Rattle.std.specs.Prelude.{◌<◌, ◌≤◌, ◌+◌, ◌^◌};

// Bars of a plot in a row. A bar has the times before which so many whole steps have gone since the epoch.
#[derive(Clone, Copy)]
pub(crate) struct Span {
    // How many seconds a bar has.
    pub(crate) step: u64,
    // The first bar.
    pub(crate) first: u64,
    // How many there are.
    pub(crate) count: u64,
    pub ghost some: { 0 < step },
    pub ghost fits: { first + count ≤ 2 ^ 64 },
}
