// A clock, as the request of a handler reads it.
ghost use Rattle.std.specs.Prelude.{Result};
ghost use Rattle.std.specs.declared.time.Duration.{Duration};
ghost use Rattle.std.specs.declared.io.Error.{Error};

use std::io;
use std::time::{Clock, Duration};

// A clock. The functions that read it are generic in it, so that they
// have no time but one that the clock gave, and their clauses say so.
pub(crate) trait TimeSource {
    // Whether it may give this time since 1970, or this failure.
    ghost gives: { Self → Result Duration Error → Type 0 };

    // The time since 1970.
    fn moment(&self) -> io::Result<Duration>
        ensures { gives self.now result };
}

// std promises nothing of a clock: it may give any time.
impl<R: Clock> TimeSource for R {
    ghost gives = { λ clock read. Unit {0} };

    fn moment(&self) -> io::Result<Duration> {
        self.since_1970()
    }
}
