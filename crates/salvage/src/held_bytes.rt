// An archive's bytes in memory.
ghost use Rattle.std.specs.Prelude.{◌≡◌, ◌^◌, ◌<◌, length, true};
ghost use Rattle.std.proofs.Common.{refl};
ghost use Rattle.disk_model.specs.Places.{AreBytes};

use crate::fronted::copy_part;
use crate::source::Source;
use disk_model::DiskFault;

/// A source whose bytes are all in memory, honest. So the clauses about honest sources are about something that exists.
#[derive(Drop)]
pub struct HeldBytes<'a> {
    bytes: &'a [u8],
    ghost small: { length bytes.now < 2 ^ 64 },
    ghost are: { AreBytes bytes.now },
}

impl<'a> HeldBytes<'a> {
    /// These bytes.
    pub fn new(bytes: &'a [u8]) -> HeldBytes<'a>
        ensures seen { ⟦<HeldBytes<'a> as Source>⟧.seen result ≡ bytes.now }
        ensures honest { ⟦<HeldBytes<'a> as Source>⟧.is_honest result ≡ true }
    {
        HeldBytes { bytes }
    }
}

impl Source for HeldBytes<'_> {
    ghost size = { λ h. length h.bytes.now };

    ghost seen = { λ h. h.bytes.now };

    ghost is_honest = { λ h. true };

    ghost addressed = { λ h. h.small };

    ghost whole = { λ h honest. refl };

    ghost seen_bytes = { λ h honest. h.are };

    fn length(&self) -> u64 {
        self.bytes.len() as u64
    }

    fn read_at(&self, at: u64, into: &mut [u8]) -> Result<(), DiskFault> {
        copy_part(self.bytes, at as usize, into);
        Ok(())
    }
}
