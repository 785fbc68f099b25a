// An archive's bytes, with the first ones replaced.
ghost use Rattle.std.specs.Prelude.{◌≡◌, ◌+◌, ◌≤◌, length};
ghost use Rattle.disk_model.specs.Places.{AreBytes, part};
ghost use Rattle.salvage.specs.Fronts.{fronted};
ghost use Rattle.salvage.specs.FrontLaws.{fronted_bytes, fronted_length};

use crate::source::Source;
use disk_model::DiskFault;

/// A source whose first bytes are others, which are held in memory.
#[derive(Drop)]
pub struct Fronted<'a, S: Source> {
    source: &'a S,
    front: &'a [u8],
    ghost within: { length front.now ≤ S.size source.now },
    ghost small: { AreBytes front.now },
}

impl<'a, S: Source> Fronted<'a, S> {
    ghost use Rattle.salvage.specs.Views.{front_of, under};

    /// Shows these bytes instead of the first ones.
    pub fn new(source: &'a S, front: &'a [u8]) -> Fronted<'a, S>
        requires { length front.now ≤ S.size source.now }
        ensures source { under result ≡ source.now }
        ensures front { front_of result ≡ front.now }
    {
        Fronted { source, front }
    }
}

/// Copies the bytes from place `at` on.
pub(crate) fn copy_part(front: &[u8], at: usize, into: &mut [u8])
    requires { at + length into.old ≤ length front.now }
    ensures { into.new ≡ part front.now at (length into.old) }
{
    into.copy_from_slice(&front[at..at + into.len()]);
}

impl<S: Source> Source for Fronted<'_, S> {
    ghost size = { λ f. S.size f.source.now };

    ghost seen = { λ f. fronted f.front.now (S.seen f.source.now) };

    ghost is_honest = { λ f. S.is_honest f.source.now };

    ghost addressed = { λ f. S.addressed f.source.now };

    ghost whole = { λ f honest. fronted_length f.front.now (S.seen f.source.now) (S.size f.source.now) (S.whole f.source.now honest) f.within };

    ghost seen_bytes = { λ f honest. fronted_bytes f.front.now (S.seen f.source.now) f.small (S.seen_bytes f.source.now honest) };

    fn length(&self) -> u64 {
        self.source.length()
    }

    /// A read that crosses the end of the first bytes is refused.
    fn read_at(&self, at: u64, into: &mut [u8]) -> Result<(), DiskFault> {
        let end = self.front.len() as u64;
        if at + into.len() as u64 <= end {
            copy_part(self.front, at as usize, into);
            return Ok(());
        }
        if at < end {
            return Err(DiskFault::Read);
        }
        self.source.read_at(at, into)
    }
}
