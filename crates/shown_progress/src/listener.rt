// The onlooker of a command's reports.
use diagnostics::{Onlooker, Trouble};

/// Keeps the last trouble that is reported, and passes on the progress of the work, unless it is hushed.
#[derive(Drop)]
pub struct Listener<'p, W: Onlooker> {
    onlooker: &'p mut W,
    is_hushed: bool,
    trouble: Option<Trouble>,
}

impl<'p, W: Onlooker> Listener<'p, W> {
    pub fn new(onlooker: &'p mut W) -> Listener<'p, W> {
        Listener {
            onlooker,
            is_hushed: false,
            trouble: None,
        }
    }

    /// From now on it passes on nothing.
    pub fn hush(&mut self) {
        self.is_hushed = true;
    }

    /// The last trouble that was reported.
    pub fn trouble(&self) -> Option<Trouble> {
        self.trouble
    }
}

impl<W: Onlooker> Onlooker for Listener<'_, W> {
    fn begin(&mut self, work: &'static str, whole: Option<u64>) {
        if !self.is_hushed {
            self.onlooker.begin(work, whole);
        }
    }

    fn advance(&mut self, count: u64) {
        if !self.is_hushed {
            self.onlooker.advance(count);
        }
    }

    fn end(&mut self) {
        if !self.is_hushed {
            self.onlooker.end();
        }
    }

    fn fail(&mut self, trouble: Trouble) {
        self.trouble = Some(trouble);
    }
}
