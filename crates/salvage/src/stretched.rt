// The bytes of a file as those of an archive of another length.
ghost use Rattle.std.specs.Prelude.{◌≡◌, ◌+◌, ◌-◌, ◌^◌, ◌<◌, ◌≤◌, ◌++◌, length, replicate, IsTrue, OnOk};
ghost use Rattle.disk_model.specs.Places.{part};
ghost use Rattle.salvage.specs.Mending.{stretched};
ghost use Rattle.salvage.specs.MendLaws.{stretched_bytes, stretched_length};

use crate::source::Source;
use disk_model::DiskFault;

/// A source of so many bytes: those of another, cut off there, or with zeros behind them.
#[derive(Drop)]
pub struct Stretched<'a, S: Source> {
    source: &'a S,
    length: u64,
    ghost small: { length < 2 ^ 64 },
}

impl<'a, S: Source> Stretched<'a, S> {
    ghost use Rattle.salvage.specs.Views.{beneath, length_of};

    /// Shows so many bytes.
    pub fn new(source: &'a S, length: u64) -> Stretched<'a, S>
        ensures source { beneath result ≡ source.now }
        ensures length { length_of result ≡ length }
    {
        Stretched { source, length }
    }

    // Reads the bytes from place `at` on that the other source has; zeros are in the place of the others.
    fn fetch(&self, at: u64, into: &mut [u8], there: usize) -> Result<(), DiskFault>
        requires within { at + there ≤ S.size self.now.source.now }
        requires fits { there ≤ length into.old }
        ensures { OnOk result (IsTrue (S.is_honest self.now.source.now)
            → into.new ≡ part (S.seen self.now.source.now) at there ++ replicate (length into.old - there) 0) }
    {
        into[there..].fill(0);
        self.source.read_at(at, &mut into[..there])
    }
}

impl<S: Source> Source for Stretched<'_, S> {
    ghost size = { λ s. s.length };

    ghost seen = { λ s. stretched s.length (S.seen s.source.now) };

    ghost is_honest = { λ s. S.is_honest s.source.now };

    ghost addressed = { λ s. s.small };

    ghost whole = { λ s honest. stretched_length s.length (S.seen s.source.now) };

    ghost seen_bytes = { λ s honest. stretched_bytes s.length (S.seen s.source.now) (S.seen_bytes s.source.now honest) };

    fn length(&self) -> u64 {
        self.length
    }

    fn read_at(&self, at: u64, into: &mut [u8]) -> Result<(), DiskFault> {
        let held = self.source.length();
        let from = at.min(held);
        let there = (held - from).min(into.len() as u64);
        self.fetch(from, into, there as usize)
    }
}
