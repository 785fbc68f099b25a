// How long the lock of an archive was waited for.
use archive_files::WAITING;
use diagnostics::{Onlooker, Trouble};
use std::time::{Clock, Duration};

// An onlooker as it is. It measures how long the lock of an archive is waited for.
#[derive(Drop)]
pub(crate) struct LockWatch<'w, R: Clock, W: Onlooker> {
    rt: &'w R,
    onlooker: &'w mut W,
    // The time at which the wait began, if it is under way.
    begun: Option<Duration>,
    // For how many seconds it was waited last.
    waited: u64,
}

impl<'w, R: Clock, W: Onlooker> LockWatch<'w, R, W> {
    pub(crate) fn new(rt: &'w R, onlooker: &'w mut W) -> LockWatch<'w, R, W> {
        LockWatch {
            rt,
            onlooker,
            begun: None,
            waited: 0,
        }
    }

    // For how many seconds the lock was waited for.
    pub(crate) fn waited(&self) -> u64 {
        self.waited
    }

    // How many seconds have passed since this time; 0 if the clock has no time.
    fn seconds_since(&self, begun: Duration) -> u64 {
        match self.rt.monotonic() {
            Ok(now) => now.saturating_sub(begun).as_secs(),
            Err(_) => 0,
        }
    }
}

impl<R: Clock, W: Onlooker> Onlooker for LockWatch<'_, R, W> {
    fn begin(&mut self, work: &'static str, whole: Option<u64>) {
        self.begun = if work == WAITING {
            self.rt.monotonic().ok()
        } else {
            None
        };
        self.onlooker.begin(work, whole);
    }

    fn advance(&mut self, count: u64) {
        self.onlooker.advance(count);
    }

    fn end(&mut self) {
        self.onlooker.end();
        if let Some(begun) = self.begun {
            self.begun = None;
            self.waited = self.seconds_since(begun);
        }
    }

    fn fail(&mut self, trouble: Trouble) {
        self.onlooker.fail(trouble);
    }
}
