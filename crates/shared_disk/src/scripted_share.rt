// A disk that others change by a script.
ghost use Rattle.std.specs.Prelude.{◌≡◌, ◌+◌, ◌-◌, ◌*◌, ◌^◌, ◌<◌, ◌≤◌, ◌∷◌, [], length, slice_index, true, IfSome};
ghost use Rattle.disk_model.specs.Places.{AreBytes};
ghost use Rattle.shared_disk.specs.History.{moment};
ghost use Rattle.shared_disk.specs.Rows.{rows, row_bytes};
ghost use Rattle.shared_disk.specs.Scripted.{span};
ghost use Rattle.shared_disk.specs.ScriptedLaws.{row_size, held_size};

use crate::shared::{LookFault, SharedDisk};
use crate::unlocked::copy_part;
use disk_model::DiskFault;
use std::alloc::Global;

/// A shared disk in memory whose moments are given, honest. It shows that honest shared disks exist. The first look sees the first
/// moment, and each further look the moment that is `step` later, or the last one. A read between two looks meets a writer in its middle:
/// place p has the byte of the moment that is p after the last look, counted round and round up to the next look's.
#[derive(Drop)]
pub struct ScriptedShare {
    // The bytes of all moments, one moment after the other.
    bytes: Vec<u8>,
    size: usize,
    count: usize,
    // The moments of the last look and of the next one.
    seen: usize,
    next: usize,
    step: usize,
    ghost whole: { count * size ≡ length bytes.items },
    ghost small: { size < 2 ^ 64 },
    ghost are: { AreBytes bytes.items },
    ghost order: { seen ≤ next },
    ghost low: { next < count },
}

impl ScriptedShare {
    /// A disk of `count` moments of `size` bytes each. `None` if there are more or fewer bytes, or none.
    pub fn new(bytes: Vec<u8>, size: usize, count: usize, step: usize) -> Option<ScriptedShare>
        ensures first { IfSome result (λ d. ⟦<ScriptedShare as SharedDisk>⟧.meanwhile d ≡ moment (rows count size bytes.items) 0 ∷ []) }
        ensures honest { IfSome result (λ d. ⟦<ScriptedShare as SharedDisk>⟧.is_honest d ≡ true) }
        ensures size { IfSome result (λ d. ⟦<ScriptedShare as SharedDisk>⟧.size d ≡ size) }
    {
        let total = count.checked_mul(size)?;
        if count == 0 || total != bytes.len() {
            return None;
        }
        Some(ScriptedShare {
            bytes,
            size,
            count,
            seen: 0,
            next: 0,
            step,
        })
    }

    // The bytes of the moment of this number.
    fn row(&self, number: usize) -> &[u8]
        requires { number < self.now.count }
        ensures { result.now ≡ moment (rows self.now.count self.now.size self.now.bytes.items) number }
    {
        let start = number * self.size;
        &self.bytes[start..start + self.size]
    }

    // The next interval begins.
    fn go_on(&mut self)
        ensures bytes { self.new.bytes ≡ self.old.bytes }
        ensures size { self.new.size ≡ self.old.size }
        ensures count { self.new.count ≡ self.old.count }
        ensures seen { self.new.seen ≡ self.old.next }
    {
        self.seen = self.next;
        let last = self.count - 1;
        self.next = self.next.saturating_add(self.step).min(last);
    }
}

impl SharedDisk for ScriptedShare {
    ghost size = { λ d. d.size };

    ghost is_honest = { λ d. true };

    ghost looked = { λ d. moment (rows d.count d.size d.bytes.items) d.seen };

    ghost meanwhile = { λ d. span (rows d.count d.size d.bytes.items) d.seen (d.next - d.seen) };

    ghost addressed = { λ d. d.small };

    ghost whole = { λ d honest. row_size d.count d.size d.bytes.items d.seen d.next d.whole d.order d.low };

    ghost lists = { λ d c honest held. held_size d.count d.size d.bytes.items d.seen d.next d.whole d.order d.low c held };

    ghost looked_bytes = { λ d honest. row_bytes d.count d.size d.bytes.items d.seen d.are };

    fn length(&self) -> u64 {
        self.size as u64
    }

    fn read_between(&self, at: u64, into: &mut [u8]) -> Result<(), DiskFault> {
        for k in 0..into.len() {
            let place = at as usize + k;
            let number = self.seen + place % (self.next - self.seen + 1);
            into[k] = self.row(number)[place];
        }
        Ok(())
    }

    fn look(&mut self, _alloc: Global, into: &mut [u8]) -> Result<(), LookFault> {
        self.go_on();
        copy_part(self.row(self.seen), 0, into);
        Ok(())
    }
}
