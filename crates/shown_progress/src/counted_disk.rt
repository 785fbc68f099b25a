// A disk whose writes are counted.
ghost use Rattle.std.specs.Prelude.{◌≡◌};
ghost use Rattle.shown_progress.specs.Counted.{disk_below};

use diagnostics::Onlooker;
use disk_model::{Disk, DiskFault};

/// A disk as it is. It reports each byte that is written to it to an onlooker.
#[derive(Drop)]
pub struct CountedDisk<'p, D, W: Onlooker> {
    disk: D,
    onlooker: &'p mut W,
}

impl<'p, D: Disk, W: Onlooker> CountedDisk<'p, D, W> {
    pub fn new(disk: D, onlooker: &'p mut W) -> CountedDisk<'p, D, W>
        ensures below { disk_below result ≡ disk }
    {
        CountedDisk { disk, onlooker }
    }

    /// The disk below.
    pub fn into_disk(self) -> D
        ensures { result ≡ disk_below self.entry }
    {
        let CountedDisk { disk, onlooker: _ } = self;
        disk
    }
}

impl<D: Disk, W: Onlooker> Disk for CountedDisk<'_, D, W> {
    ghost size = { λ d. D.size d.disk };

    ghost seen = { λ d. D.seen d.disk };

    ghost is_honest = { λ d. D.is_honest d.disk };

    ghost failures = { λ d. D.failures d.disk };

    ghost clock = { λ d. D.clock d.disk };

    ghost may_leave = { λ d. D.may_leave d.disk };

    ghost left_since = { λ d. D.left_since d.disk };

    ghost addressed = { λ d. D.addressed d.disk };

    ghost whole = { λ d. D.whole d.disk };

    ghost sized = { λ d. D.sized d.disk };

    ghost seen_bytes = { λ d. D.seen_bytes d.disk };

    ghost left_bytes = { λ d. D.left_bytes d.disk };

    ghost seen_may_stay = { λ d. D.seen_may_stay d.disk };

    ghost counts_now = { λ d. D.counts_now d.disk };

    ghost only_now = { λ d. D.only_now d.disk };

    fn length(&self) -> u64 {
        self.disk.length()
    }

    fn read_at(&mut self, at: u64, into: &mut [u8]) -> Result<(), DiskFault> {
        self.disk.read_at(at, into)
    }

    fn write_at(&mut self, at: u64, from: &[u8]) -> Result<(), DiskFault> {
        self.onlooker.advance(from.len() as u64);
        self.disk.write_at(at, from)
    }

    fn sync(&mut self) -> Result<(), DiskFault> {
        self.disk.sync()
    }
}
