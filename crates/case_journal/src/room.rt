// Whether a record has room in an open journal.
ghost use Rattle.std.specs.Prelude.{◌≡◌, map};
ghost use Rattle.case_journal.specs.Rooming.{has_room};

use crate::journal::Journal;
use journal_snapshot::{Change, measured};

impl Journal {
    /// Whether a record of `size` bytes has room, and the gate after it: after those that are there, or in the other half, after
    /// the cases that are written anew. Whether a generation is left for that is not looked at.
    pub fn has_room(&self, size: u64) -> bool
        ensures { result ≡ has_room self.now.standing size }
    {
        if self.fits(size) {
            return true;
        }
        let half = self.shape.half_length();
        match measured(self.entries.as_slice(), &Change::Nothing, half) {
            Some(measure) => size < half - measure.used,
            None => false,
        }
    }
}
