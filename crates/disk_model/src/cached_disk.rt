// A disk in a file, as on Linux: the bytes that it keeps in memory, and the bytes that the device has.
ghost use Rattle.std.specs.Prelude.{◌≡◌, ◌↔◌, List, ℕ, IsTrue, IfOk};
ghost use Rattle.disk_model.specs.Anew.{IsMadeAnew};
ghost use Rattle.disk_model.specs.Disk.{IsNextCount, joined};
ghost use Rattle.disk_model.specs.NoteLaws.{held_kept, shown_bytes, shown_stays, now_counts, now_alone};

use crate::{Disk, DiskFault, MemDisk, Pick};
use diagnostics::after_failure;
use std::alloc::AllocError;

/// A disk with a cache, in memory, honest. Reads give the bytes of the cache. One sync may be lost:
/// its writes never reach the device, and the cache keeps them as if they had. From then on no sync
/// succeeds, since none could know which bytes the device has. A file that is opened anew reads as
/// its device again. `FileDisk` is used so; this disk is proved to keep to the disk model.
#[derive(Drop)]
pub struct CachedDisk {
    disk: MemDisk,
    // How many syncs succeed before one is lost.
    spared: u64,
    is_lost: bool,
    faults: u64,
}

impl CachedDisk {
    /// The cache of a disk that is stable. After `spared` syncs one is lost.
    pub fn new(disk: MemDisk, spared: u64) -> CachedDisk
        ensures honest { IsTrue (⟦<CachedDisk as Disk>⟧.is_honest result) }
        ensures size { ⟦<CachedDisk as Disk>⟧.size result ≡ ⟦<MemDisk as Disk>⟧.size disk }
        ensures seen { ⟦<CachedDisk as Disk>⟧.seen result ≡ ⟦<MemDisk as Disk>⟧.seen disk }
        ensures crash { (c : List ℕ) →
            ⟦<CachedDisk as Disk>⟧.may_leave result c ↔ ⟦<MemDisk as Disk>⟧.may_leave disk c }
    {
        CachedDisk {
            disk,
            spared,
            is_lost: false,
            faults: 0,
        }
    }

    /// Opens the file anew: bytes that still wait for a sync are written, unless a sync was lost, and the cache is dropped. So
    /// reads give the bytes of the device, which are one of the lists that a crash could have left. No later sync is lost.
    pub fn reopened(self) -> Result<CachedDisk, AllocError>
        ensures anew { IfOk result (λ d. IsMadeAnew ⟦<CachedDisk as Disk>⟧ self d) }
    {
        let CachedDisk {
            mut disk,
            is_lost,
            ..
        } = self;
        if !is_lost {
            let _ = disk.sync();
        }
        let device = disk.after_crash(Pick::Nothing)?;
        Ok(CachedDisk::new(device, u64::MAX))
    }

    /// The bytes that the device has once the machine stops: no byte that was not synced.
    pub fn after_stop(&self) -> Result<MemDisk, AllocError>
        ensures allowed { IfOk result (λ d. ⟦<CachedDisk as Disk>⟧.may_leave self.now (⟦<MemDisk as Disk>⟧.seen d)) }
    {
        self.disk.after_crash(Pick::Nothing)
    }

    // Whether this sync reaches the device.
    fn reaches_device(&mut self) -> bool
        ensures disk { self.new.disk ≡ self.old.disk }
        ensures reached { IsTrue result → self.new.faults ≡ self.old.faults }
        ensures lost { (IsTrue result → ⊥) → IsNextCount self.old.faults self.new.faults }
    {
        if self.is_lost || self.spared == 0 {
            self.is_lost = true;
            self.faults = after_failure(self.faults);
            return false;
        }
        self.spared -= 1;
        true
    }
}

impl Disk for CachedDisk {
    ghost size = { λ d. ⟦<MemDisk as Disk>⟧.size d.disk };

    ghost seen = { λ d. ⟦<MemDisk as Disk>⟧.seen d.disk };

    ghost is_honest = { λ d. ⟦<MemDisk as Disk>⟧.is_honest d.disk };

    ghost failures = { λ d. joined (⟦<MemDisk as Disk>⟧.failures d.disk) d.faults };

    ghost clock = { λ d. ⟦<MemDisk as Disk>⟧.clock d.disk };

    ghost may_leave = { λ d. ⟦<MemDisk as Disk>⟧.may_leave d.disk };

    ghost left_since = { λ d. ⟦<MemDisk as Disk>⟧.left_since d.disk };

    ghost addressed = { λ d. d.disk.small };

    ghost whole = { λ d honest. d.disk.sized };

    ghost sized = { λ d c honest left. (held_kept d.disk.first.items d.disk.notes.items d.disk.bytes d.disk.fit).left_length c left };

    ghost seen_bytes = { λ d honest. shown_bytes d.disk.first.items d.disk.notes.items d.disk.present.items d.disk.bytes d.disk.fit d.disk.shown };

    ghost left_bytes = { λ d c honest left. (held_kept d.disk.first.items d.disk.notes.items d.disk.bytes d.disk.fit).left_bytes c left };

    ghost seen_may_stay = { λ d honest. shown_stays d.disk.first.items d.disk.notes.items d.disk.present.items d.disk.bytes d.disk.fit d.disk.shown };

    ghost counts_now = { λ d t c le left. now_counts d.disk.first.items d.disk.notes.items t c le left };

    ghost only_now = { λ d c left. now_alone d.disk.first.items d.disk.notes.items c left };

    fn length(&self) -> u64 {
        self.disk.length()
    }

    fn read_at(&mut self, at: u64, into: &mut [u8]) -> Result<(), DiskFault> {
        self.disk.read_at(at, into)
    }

    fn write_at(&mut self, at: u64, from: &[u8]) -> Result<(), DiskFault> {
        self.disk.write_at(at, from)
    }

    fn sync(&mut self) -> Result<(), DiskFault> {
        if !self.reaches_device() {
            return Err(DiskFault::Sync);
        }
        self.disk.sync()
    }
}
