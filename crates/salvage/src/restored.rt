// An archive's bytes, with another superblock, other headers or another length.
ghost use Rattle.std.specs.Prelude.{◌≡◌, ◌^◌, ◌<◌, ◌≤◌, length};
ghost use Rattle.disk_model.specs.Places.{AreBytes};
ghost use Rattle.salvage.specs.FrontLaws.{fronted_bytes, fronted_length};
ghost use Rattle.salvage.specs.MendLaws.{stretched_bytes, stretched_length};
ghost use Rattle.salvage.specs.Mending.{restored, stretched};

use crate::fronted::copy_part;
use crate::source::Source;
use crate::stretched::Stretched;
use disk_model::DiskFault;

/// A source as it is read with its mended parts.
#[derive(Drop)]
pub struct Restored<'a, S: Source> {
    source: &'a S,
    front: &'a [u8],
    count: u64,
    ghost within: { length front.now ≤ count },
    ghost small: { AreBytes front.now },
    ghost addressed: { count < 2 ^ 64 },
}

impl<'a, S: Source> Restored<'a, S> {
    ghost use Rattle.salvage.specs.Views.{count_in, front_in, restored_of};

    /// Shows so many bytes of a source, with zeros after its end, and this front instead of its own.
    pub fn new(source: &'a S, front: &'a [u8], count: u64) -> Restored<'a, S>
        requires { length front.now ≤ count }
        ensures source { restored_of result ≡ source.now }
        ensures front { front_in result ≡ front.now }
        ensures count { count_in result ≡ count }
    {
        Restored {
            source,
            front,
            count,
        }
    }
}

impl<S: Source> Source for Restored<'_, S> {
    ghost size = { λ r. r.count };

    ghost seen = { λ r. restored r.front.now r.count (S.seen r.source.now) };

    ghost is_honest = { λ r. S.is_honest r.source.now };

    ghost addressed = { λ r. r.addressed };

    ghost whole = { λ r honest. fronted_length r.front.now (stretched r.count (S.seen r.source.now)) r.count (stretched_length r.count (S.seen r.source.now)) r.within };

    ghost seen_bytes = { λ r honest. fronted_bytes r.front.now (stretched r.count (S.seen r.source.now)) r.small (stretched_bytes r.count (S.seen r.source.now) (S.seen_bytes r.source.now honest)) };

    fn length(&self) -> u64 {
        self.count
    }

    /// A read that crosses the end of the superblock and the journal is refused.
    fn read_at(&self, at: u64, into: &mut [u8]) -> Result<(), DiskFault> {
        let end = self.front.len() as u64;
        if at + into.len() as u64 <= end {
            copy_part(self.front, at as usize, into);
            return Ok(());
        }
        if at < end {
            return Err(DiskFault::Read);
        }
        Stretched::new(self.source, self.count).read_at(at, into)
    }
}
