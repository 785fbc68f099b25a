// Archives over a disk whose device lacks bytes that memory has, although each later sync succeeds: so Linux leaves a file if it failed to
// write pages of it. A process settles the archive then, and the machine stops at one of its calls, or behind other cases.
ghost use Rattle.std.specs.Prelude.{◌≡◌, false};
ghost use Rattle.std.proofs.lemmas.Bool.{false≢true};
ghost use Rattle.disk_model.specs.Disk.{IsNextCount, joined};

use crate::bench::{SETTINGS, SHAPE, crashed, formatted, opened};
use crate::reopened::{Acknowledged, FIRST, is_there, store_anew, store_each};
use crate::stops::CUT;
use case_journal::settle;
use diagnostics::after_failure;
use disk_model::{Disk, DiskFault, Fuse, MemDisk, Pick};
use intake::Archive;
use std::alloc::Global;
use std::test::Fail;

// How many calls the settling of the archives here makes at most.
const CALLS: u64 = 16;

// Its syncs succeed but for one. The bytes that wait for that one never reach the device, and no later sync tries again. It keeps to no disk model.
#[derive(Drop)]
struct Forgetful {
    memory: MemDisk,
    // The bytes that it was given since the last sync are not stable.
    device: MemDisk,
    // How many syncs succeed before one is lost.
    spared: Option<u64>,
    faults: u64,
}

impl Forgetful {
    fn new(memory: MemDisk, spared: u64) -> Result<Forgetful, Fail> {
        let device = crashed(&memory, Pick::Nothing)?;
        Ok(Forgetful {
            memory,
            device,
            spared: Some(spared),
            faults: 0,
        })
    }

    // The bytes that the device may have once the machine stops.
    fn after_stop(&self, pick: Pick) -> Result<MemDisk, Fail> {
        crashed(&self.device, pick)
    }

    // Answers this fault, which is counted.
    fn failed(&mut self, fault: DiskFault) -> Result<(), DiskFault>
        ensures memory { self.new.memory ≡ self.old.memory }
        ensures fault { result ≡ Err fault }
        ensures counted { IsNextCount self.old.faults self.new.faults }
    {
        self.faults = after_failure(self.faults);
        Err(fault)
    }

    // Whether this sync is the one that is lost.
    fn loses(&mut self) -> bool
        ensures memory { self.new.memory ≡ self.old.memory }
        ensures faults { self.new.faults ≡ self.old.faults }
    {
        match self.spared {
            None => false,
            Some(0) => {
                self.spared = None;
                true
            }
            Some(left) => {
                self.spared = Some(left - 1);
                false
            }
        }
    }

    // The device forgets the bytes that wait for a sync.
    fn forget(&mut self)
        ensures memory { self.new.memory ≡ self.old.memory }
        ensures faults { self.new.faults ≡ self.old.faults }
    {
        if let Ok(device) = self.device.after_crash(Pick::Nothing) {
            self.device = device;
        }
    }
}

impl Disk for Forgetful {
    ghost size = { λ d. ⟦<MemDisk as Disk>⟧.size d.memory };

    ghost seen = { λ d. ⟦<MemDisk as Disk>⟧.seen d.memory };

    ghost is_honest = { λ d. false };

    ghost failures = { λ d. joined (⟦<MemDisk as Disk>⟧.failures d.memory) d.faults };

    ghost clock = { λ d. 0 };

    ghost may_leave = { λ d c. ⊥ };

    ghost left_since = { λ d t c. ⊥ };

    ghost addressed = { λ d. d.memory.small };

    ghost whole = { λ d honest. absurd (false≢true honest) };

    ghost sized = { λ d c honest left. absurd left };

    ghost seen_bytes = { λ d honest. absurd (false≢true honest) };

    ghost left_bytes = { λ d c honest left. absurd left };

    ghost seen_may_stay = { λ d honest. absurd (false≢true honest) };

    ghost counts_now = { λ d t c le left. left };

    ghost only_now = { λ d c left. left };

    fn length(&self) -> u64 {
        self.memory.length()
    }

    fn read_at(&mut self, at: u64, into: &mut [u8]) -> Result<(), DiskFault> {
        self.memory.read_at(at, into)
    }

    fn write_at(&mut self, at: u64, from: &[u8]) -> Result<(), DiskFault> {
        self.memory.write_at(at, from)?;
        let length = self.device.length();
        if length < at || length - at < from.len() as u64 {
            return self.failed(DiskFault::Write);
        }
        match self.device.write_at(at, from) {
            Ok(()) => Ok(()),
            Err(fault) => self.failed(fault),
        }
    }

    fn sync(&mut self) -> Result<(), DiskFault> {
        if self.loses() {
            self.forget();
            return self.failed(DiskFault::Sync);
        }
        match self.device.sync() {
            Ok(()) => Ok(()),
            Err(fault) => self.failed(fault),
        }
    }
}

// The last case that was acknowledged before a sync was lost, and what its process leaves. No later sync is lost.
fn lost(alloc: Global, spared: u64) -> Result<Option<(Acknowledged, Forgetful)>, Fail> {
    let disk = Forgetful::new(formatted(alloc, SHAPE)?, spared)?;
    match Archive::open(alloc, disk, SETTINGS) {
        Ok(archive) => {
            let mut archive = archive;
            let first = store_each(&mut archive, &FIRST)?;
            let mut disk = archive.close();
            disk.spared = None;
            Ok(Some((first, disk)))
        }
        Err(_) => Ok(None),
    }
}

// The machine stops after so many calls of the settling.
fn stop_meanwhile(alloc: Global, spared: u64, calls: u64) -> Result<(), Fail> {
    let Some((first, disk)) = lost(alloc, spared)? else {
        return Ok(());
    };
    let mut disk = Fuse::new(disk, calls);
    let _ = settle(alloc, &mut disk);
    let disk = disk.into_inner();
    for pick in &CUT {
        has_first(alloc, disk.after_stop(*pick)?, first)?;
    }
    Ok(())
}

// The archive is opened, and has the case.
fn has_first(alloc: Global, disk: MemDisk, case: Acknowledged) -> Result<(), Fail> {
    let mut archive = opened(alloc, disk)?;
    if is_there(&mut archive, case) {
        Ok(())
    } else {
        Err(Fail::from("a case that was acknowledged is lost"))
    }
}

// The machine stops behind other cases.
fn stop_later(alloc: Global, spared: u64) -> Result<(), Fail> {
    let Some((first, disk)) = lost(alloc, spared)? else {
        return Ok(());
    };
    let mut disk = disk;
    settle(alloc, &mut disk)?;
    let (later, disk) = store_anew(alloc, disk, first)?;
    has_first(alloc, disk.after_stop(Pick::Nothing)?, first)?;
    has_first(alloc, disk.after_stop(Pick::Nothing)?, later)
}

#[test]
fn a_stop_while_gates_are_settled_loses_no_case(rt: HostRuntime) -> Result<(), Fail> {
    for spared in 0..40 {
        for calls in 0..CALLS {
            stop_meanwhile(rt.alloc(), spared, calls)?;
        }
    }
    Ok(())
}

#[test]
fn no_case_is_lost_behind_settled_gates(rt: HostRuntime) -> Result<(), Fail> {
    for spared in 0..130 {
        stop_later(rt.alloc(), spared)?;
    }
    Ok(())
}
