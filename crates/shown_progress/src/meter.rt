// A line on a terminal that shows the progress of the work.
use crate::work_text::{Work, print_work};
use diagnostics::{Onlooker, Trouble};
use script_streams::{Output, Reply, write_whole};
use std::time::Clock;

// The milliseconds before anything is shown, and between two times that it is.
const FIRST: u64 = 1_000;

const BETWEEN: u64 = 100;

// The line anew: the terminal's cursor goes to its begin, and all behind it is erased (ECMA-48, EL).
const ANEW: &[u8] = b"\r\x1b[K";

/// Shows the progress of a command on a terminal: from the first second of a piece of work on, at most ten times a second. The line is
/// erased once the work ends. Without a terminal it shows nothing.
#[derive(Drop)]
pub struct Meter<'r, R: Clock, O: Output> {
    rt: &'r R,
    terminal: Option<O>,
    work: Work,
    // The time at which the work began, if it is under way.
    begun: Option<u64>,
    // The time at which the line was shown last, if it stands there.
    shown: Option<u64>,
}

// Writes the line of a piece of work after so many milliseconds.
fn write_line<O: Output>(terminal: &mut O, work: Work, millis: u64) {
    let mut reply = Reply::new(terminal);
    reply.print(ANEW);
    reply.print(b"corekeep ");
    print_work(&mut reply, work, millis);
    let _ = reply.finish();
}

impl<'r, R: Clock, O: Output> Meter<'r, R, O> {
    pub fn new(rt: &'r R, terminal: Option<O>) -> Meter<'r, R, O> {
        let work = Work {
            name: "",
            whole: None,
            done: 0,
        };
        Meter {
            rt,
            terminal,
            work,
            begun: None,
            shown: None,
        }
    }

    // The time in milliseconds.
    fn now(&self) -> Option<u64> {
        let time = self.rt.monotonic().ok()?;
        u64::try_from(time.as_millis()).ok()
    }

    // Whether the line is to be shown at this time.
    fn is_due(&self, now: u64, begun: u64) -> bool {
        let is_late = now.saturating_sub(begun) >= FIRST;
        match self.shown {
            Some(shown) => now.saturating_sub(shown) >= BETWEEN,
            None => is_late,
        }
    }

    // Shows the line if it is due.
    fn refresh(&mut self) {
        let (Some(begun), Some(now)) = (self.begun, self.now()) else {
            return;
        };
        if !self.is_due(now, begun) {
            return;
        }
        self.shown = Some(now);
        if let Some(terminal) = &mut self.terminal {
            write_line(terminal, self.work, now.saturating_sub(begun));
        }
    }
}

impl<R: Clock, O: Output> Onlooker for Meter<'_, R, O> {
    fn begin(&mut self, work: &'static str, whole: Option<u64>) {
        self.work = Work {
            name: work,
            whole,
            done: 0,
        };
        self.begun = self.now();
        self.shown = None;
    }

    fn advance(&mut self, count: u64) {
        self.work.done = self.work.done.saturating_add(count);
        if self.terminal.is_some() {
            self.refresh();
        }
    }

    fn end(&mut self) {
        self.begun = None;
        if self.shown.is_none() {
            return;
        }
        self.shown = None;
        if let Some(terminal) = &mut self.terminal {
            let _ = write_whole(terminal, ANEW);
        }
    }

    fn fail(&mut self, _trouble: Trouble) {}
}
