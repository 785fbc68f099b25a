// A disk that is changed by a script.
ghost use Rattle.std.specs.Prelude.{◌≡◌, ◌+◌, ◌*◌, ◌^◌, ◌<◌, ◌≤◌, ℕ, length, slice_index, true, IfSome};
ghost use Rattle.std.proofs.Common.{sym, subst};
ghost use Rattle.disk_model.specs.Places.{AreBytes};
ghost use Rattle.shared_disk.specs.History.{moment};
ghost use Rattle.shared_disk.specs.Rows.{row_bytes, row_count, row_long, rows};

use crate::watched::WatchedDisk;
use disk_model::DiskFault;

/// A disk in memory whose moments are given, honest. Each byte of a read is that of the present moment. After every `pace` bytes that
/// are read the next moment comes, until the last. So a writer can be met in the middle of any read.
#[derive(Drop)]
pub struct ScriptedDisk {
    // The bytes of all moments, one moment after the other.
    bytes: Vec<u8>,
    size: usize,
    count: usize,
    // The present moment, and where its bytes begin.
    reached: usize,
    begin: usize,
    // Never, if 0.
    pace: u64,
    read: u64,
    ghost whole: { count * size ≡ length bytes.items },
    ghost small: { size < 2 ^ 64 },
    ghost are: { AreBytes bytes.items },
    ghost low: { reached < count },
    ghost place: { begin ≡ reached * size },
}

impl ScriptedDisk {
    /// A disk of `count` moments of `size` bytes each. `None` if there are more or fewer bytes, or none.
    pub fn new(bytes: Vec<u8>, size: usize, count: usize, pace: u64) -> Option<ScriptedDisk>
        ensures moments { IfSome result (λ d. ⟦<ScriptedDisk as WatchedDisk>⟧.moments d ≡ rows count size bytes.items) }
        ensures size { IfSome result (λ d. ⟦<ScriptedDisk as WatchedDisk>⟧.size d ≡ size) }
        ensures first { IfSome result (λ d. ⟦<ScriptedDisk as WatchedDisk>⟧.reached d ≡ 0) }
    {
        let total = count.checked_mul(size)?;
        if count == 0 || total != bytes.len() {
            return None;
        }
        Some(ScriptedDisk {
            bytes,
            size,
            count,
            reached: 0,
            begin: 0,
            pace,
            read: 0,
        })
    }

    // The byte at this place now.
    fn byte(&self, at: usize) -> u8
        requires { at < self.now.size }
        ensures { result ≡ slice_index (moment (rows self.now.count self.now.size self.now.bytes.items) self.now.reached) at }
    {
        self.bytes[self.begin + at]
    }

    // A byte was read.
    fn go_on(&mut self)
        ensures bytes { self.new.bytes ≡ self.old.bytes }
        ensures size { self.new.size ≡ self.old.size }
        ensures count { self.new.count ≡ self.old.count }
        ensures later { self.old.reached ≤ self.new.reached }
    {
        self.read = self.read.wrapping_add(1);
        if self.pace > 0 && self.read % self.pace == 0 && self.reached + 1 < self.count {
            self.reached += 1;
            self.begin += self.size;
        }
    }
}

impl WatchedDisk for ScriptedDisk {
    ghost size = { λ d. d.size };

    ghost is_honest = { λ d. true };

    ghost moments = { λ d. rows d.count d.size d.bytes.items };

    ghost reached = { λ d. d.reached };

    ghost addressed = { λ d. d.small };

    ghost within = { λ d honest. subst (λ (n : ℕ). d.reached < n) (sym (row_count d.count d.size d.bytes.items)) d.low };

    ghost whole = { λ d k honest within. row_long d.count d.size d.bytes.items k d.whole (subst (λ (n : ℕ). k < n) (row_count d.count d.size d.bytes.items) within) };

    ghost bytes = { λ d k honest within. row_bytes d.count d.size d.bytes.items k d.are };

    fn length(&self) -> u64 {
        self.size as u64
    }

    fn read_at(&mut self, at: u64, into: &mut [u8]) -> Result<(), DiskFault> {
        for k in 0..into.len() {
            into[k] = self.byte(at as usize + k);
            self.go_on();
        }
        Ok(())
    }
}
