// A disk whose writes are gathered.
ghost use Rattle.std.specs.Prelude.{◌≡◌, ◌≢◌, ◌+◌, ◌≤◌, ◌↔◌, List, ℕ, [], length, IsTrue, IfOk, OnOk, OnErr, IsOkUnless, Option};
ghost use Rattle.std.specs.Bool.{OnTrue};
ghost use Rattle.std.proofs.Common.{inl};
ghost use Rattle.disk_model.specs.Places.{part, overwritten};
ghost use Rattle.disk_model.specs.Disk.{Only, HasCause, joined, IsNextCount};
ghost use Rattle.disk_model.specs.Moments.{IsSettled};
ghost use Rattle.disk_model.specs.Gathering.{shown, MayStay, moment, stayed_since, IsQuiet, IsTaken};
ghost use Rattle.disk_model.specs.GatheringLaws.{shows_whole, shows_bytes, stays_sized, shown_may_stay, only_this_moment};
ghost use Rattle.disk_model.specs.declared.gathering.Durability.TheVariants.{Synced, Unknown};
ghost use Rattle.disk_model.specs.Gathers.{place_of, bytes_of, with_gathered, few_of, are_of};

use crate::gathered::Gathered;
use crate::{Backing, Disk, DiskFault};
use diagnostics::after_failure;
use std::alloc::{AllocError, Global};

// The part of a disk's bytes that is known to be stable.
#[derive(Clone, Copy, PartialEq, Eq)]
pub(crate) enum Durability {
    // All that reads give.
    Synced,
    // All but the bytes that were written since the last sync.
    Written,
    // A sync failed. Linux then keeps the written bytes in memory as if they were on the device, and reports that once.
    Unknown,
}

/// A disk that gathers adjoining writes, and hands them to the one below as one: before a write
/// that does not adjoin, before they are too many, and before a sync. Reads give the gathered
/// bytes too. If the disk below refuses a write, the call that met the refusal reports it,
/// which may be a later write or a sync, and the gathered bytes are kept to be written again.
///
/// A sync with nothing written since the last one asks nothing of the disk below. After a sync that failed no sync
/// succeeds: nobody knows which bytes are left to sync.
///
/// It is honest if the disk below is. A crash may leave of it the bytes that it may leave of the disk below, with any bytes
/// in the range that is gathered.
#[derive(Drop)]
pub struct Gathering<D: Backing> {
    disk: D,
    // None if writes are not gathered.
    gathered: Option<Gathered>,
    durability: Durability,
    // How often a sync was refused after one that failed.
    refused: u64,
    ghost within: { place_of gathered + length (bytes_of gathered) ≤ D.Disk.size disk },
    ghost settled: { durability ≡ Synced → IsTrue (D.Disk.is_honest disk) → Only (shown D.Disk (with_gathered disk gathered)) (MayStay D.Disk (with_gathered disk gathered)) },
}

impl<D: Backing + Drop> Gathering<D> {
    ghost use Rattle.disk_model.specs.Gatherings.{below_of, is_bare};

    /// Gathers writes to this disk, with none yet. Its first sync is one of the disk's.
    pub fn new(alloc: Global, disk: D) -> Result<Gathering<D>, AllocError>
        ensures honest { IfOk result (λ g. ⟦<Gathering<D> as Disk>⟧.is_honest g ≡ D.is_honest disk) }
        ensures size { IfOk result (λ g. ⟦<Gathering<D> as Disk>⟧.size g ≡ D.size disk) }
        ensures seen { IfOk result (λ g. IsTrue (D.is_honest disk)
            → ⟦<Gathering<D> as Disk>⟧.seen g ≡ D.seen disk) }
        ensures crash { IfOk result (λ g. IsTrue (D.is_honest disk) → (c : List ℕ)
            → ⟦<Gathering<D> as Disk>⟧.may_leave g c ↔ D.may_leave disk c) }
        ensures failures { IfOk result (λ g. ⟦<Gathering<D> as Disk>⟧.failures g ≡ joined (D.failures disk) 0) }
    {
        let gathered = Gathered::new(alloc)?;
        Ok(Gathering::written(disk, Some(gathered)))
    }
}

impl<D: Backing> Gathering<D> {
    ghost use Rattle.disk_model.specs.Gatherings.{below_of, is_bare};

    /// A disk of which something was written that is still to be made stable.
    pub(crate) fn written(disk: D, gathered: Option<Gathered>) -> Gathering<D>
        requires none { (place_of gathered ≡ 0) × (bytes_of gathered ≡ []) }
        ensures below { below_of result ≡ disk }
        ensures bare { is_bare result }
    {
        Gathering {
            disk,
            gathered,
            durability: Durability::Written,
            refused: 0,
        }
    }

    /// A disk whose bytes that reads give are all stable, if it is honest.
    pub(crate) fn synced(disk: D, gathered: Option<Gathered>) -> Gathering<D>
        requires none { (place_of gathered ≡ 0) × (bytes_of gathered ≡ []) }
        requires settled { IsTrue (D.is_honest disk) → IsSettled D.Disk disk }
        ensures below { below_of result ≡ disk }
        ensures bare { is_bare result }
    {
        Gathering {
            disk,
            gathered,
            durability: Durability::Synced,
            refused: 0,
        }
    }

    /// The disk below.
    pub(crate) fn below(&self) -> &D
        ensures { result.now ≡ below_of self.now }
    {
        &self.disk
    }

    // Writes the gathered bytes, and syncs the disk below.
    fn sync_written(&mut self) -> Result<(), DiskFault>
        ensures quiet { IsQuiet D.Disk (with_gathered self.old.disk self.old.gathered)
            (with_gathered self.new.disk self.new.gathered) }
        ensures durable { OnOk result (IsTrue (D.is_honest self.old.disk)
            → Only (shown D.Disk (with_gathered self.old.disk self.old.gathered))
            (MayStay D.Disk (with_gathered self.new.disk self.new.gathered))) }
        ensures cause { HasCause (D.failures self.old.disk) (D.failures self.new.disk) result }
        ensures refused { self.new.refused ≡ self.old.refused }
        ensures kind { IsOkUnless result DiskFault.Sync }
    {
        self.flush()?;
        self.sync_below()?;
        Ok(())
    }

    // Writes the gathered bytes before a sync.
    fn flush(&mut self) -> Result<(), DiskFault>
        ensures quiet { IsQuiet D.Disk (with_gathered self.old.disk self.old.gathered)
            (with_gathered self.new.disk self.new.gathered) }
        ensures none { OnOk result (bytes_of self.new.gathered ≡ []) }
        ensures cause { HasCause (D.failures self.old.disk) (D.failures self.new.disk) result }
        ensures refused { self.new.refused ≡ self.old.refused }
        ensures kind { IsOkUnless result DiskFault.Sync }
    {
        let Ok(()) = write_out(&mut self.disk, &mut self.gathered) else {
            return Err(DiskFault::Sync);
        };
        Ok(())
    }

    // Syncs the disk below, once nothing is gathered.
    fn sync_below(&mut self) -> Result<(), DiskFault>
        requires none { bytes_of self.old.gathered ≡ [] }
        ensures quiet { IsQuiet D.Disk (with_gathered self.old.disk self.old.gathered)
            (with_gathered self.new.disk self.new.gathered) }
        ensures durable { OnOk result (IsTrue (D.is_honest self.old.disk)
            → Only (shown D.Disk (with_gathered self.old.disk self.old.gathered))
            (MayStay D.Disk (with_gathered self.new.disk self.new.gathered))) }
        ensures lost { OnErr result (self.new.durability ≡ Unknown) }
        ensures cause { HasCause (D.failures self.old.disk) (D.failures self.new.disk) result }
        ensures refused { self.new.refused ≡ self.old.refused }
        ensures kind { IsOkUnless result DiskFault.Sync }
    {
        self.durability = Durability::Unknown;
        if let Err(fault) = self.disk.sync() {
            return Err(fault);
        }
        self.durability = Durability::Synced;
        Ok(())
    }

    // Refuses a sync after one that failed.
    fn refuse(&mut self) -> Result<(), DiskFault>
        ensures below { (self.new.disk ≡ self.old.disk) × (self.new.gathered ≡ self.old.gathered) }
        ensures cause { HasCause (joined (D.failures self.old.disk) self.old.refused) (joined (D.failures self.new.disk) self.new.refused) result }
        ensures refused { result ≡ Err DiskFault.Sync }
        ensures lost { self.new.durability ≡ self.old.durability }
    {
        self.refused = after_failure(self.refused);
        Err(DiskFault::Sync)
    }
}

// Something was written that no sync has made stable.
fn after_write(durability: Durability) -> Durability
    ensures unsynced { result ≢ Synced }
    ensures lost { durability ≡ Unknown → result ≡ Unknown }
{
    match durability {
        Durability::Synced => Durability::Written,
        Durability::Written => Durability::Written,
        Durability::Unknown => Durability::Unknown,
    }
}

// Writes the gathered bytes.
fn write_out<D: Backing>(disk: &mut D, gathered: &mut Option<Gathered>) -> Result<(), DiskFault>
    requires { place_of gathered.old + length (bytes_of gathered.old) ≤ D.size disk.old }
    ensures quiet { IsQuiet D.Disk (with_gathered disk.old gathered.old) (with_gathered disk.new gathered.new) }
    ensures none { OnOk result (bytes_of gathered.new ≡ []) }
    ensures within { place_of gathered.new + length (bytes_of gathered.new) ≤ D.size disk.new }
    ensures cause { HasCause (D.failures disk.old) (D.failures disk.new) result }
    ensures kind { IsOkUnless result DiskFault.Write }
{
    match gathered {
        Some(gathered) => gathered.write_out(disk),
        None => Ok(()),
    }
}

// Gathers these bytes, or writes them.
fn take<D: Backing>(
    disk: &mut D,
    gathered: &mut Option<Gathered>,
    at: u64,
    from: &[u8],
) -> Result<(), DiskFault>
    requires gathered { place_of gathered.old + length (bytes_of gathered.old) ≤ D.size disk.old }
    requires within { at + length from.now ≤ D.size disk.old }
    ensures taken { IsTaken D.Disk result at from.now (with_gathered disk.old gathered.old) (with_gathered disk.new gathered.new) }
    ensures within { place_of gathered.new + length (bytes_of gathered.new) ≤ D.size disk.new }
    ensures cause { HasCause (D.failures disk.old) (D.failures disk.new) result }
    ensures kind { IsOkUnless result DiskFault.Write }
{
    match gathered {
        Some(gathered) => gathered.write(disk, at, from),
        None => disk.put(at, from),
    }
}

// Lays the gathered bytes over bytes that were read from place `at` of the disk on.
fn lay_over(gathered: &Option<Gathered>, at: u64, into: &mut [u8])
    ensures laid { (l : List ℕ) → at + length into.old ≤ length l
        → place_of gathered.now + length (bytes_of gathered.now) ≤ length l
        → into.old ≡ part l at (length into.old)
        → into.new ≡ part (overwritten l (place_of gathered.now) (bytes_of gathered.now)) at (length into.old) }
{
    if let Some(gathered) = gathered {
        gathered.lay_over(at, into);
    }
}

impl<D: Backing> Disk for Gathering<D> {
    ghost size = { λ g. D.size g.disk };

    ghost seen = { λ g. shown D.Disk (with_gathered g.disk g.gathered) };

    ghost is_honest = { λ g. D.is_honest g.disk };

    ghost failures = { λ g. joined (D.failures g.disk) g.refused };

    ghost clock = { λ g. moment D.Disk (with_gathered g.disk g.gathered) };

    ghost may_leave = { λ g. MayStay D.Disk (with_gathered g.disk g.gathered) };

    ghost left_since = { λ g. stayed_since D.Disk (with_gathered g.disk g.gathered) };

    ghost addressed = { λ g. D.addressed g.disk };

    ghost whole = { λ g honest. shows_whole (record { size = D.size; seen = D.seen; is_honest = D.is_honest; failures = D.failures; clock = D.clock; may_leave = D.may_leave; left_since = D.left_since }) (record { whole = D.whole; sized = D.sized; seen_bytes = D.seen_bytes; left_bytes = D.left_bytes; seen_may_stay = D.seen_may_stay; counts_now = D.counts_now; only_now = D.only_now }) (with_gathered g.disk g.gathered) g.within honest };

    ghost sized = { λ g c honest left. stays_sized _ (record { whole = D.whole; sized = D.sized; seen_bytes = D.seen_bytes; left_bytes = D.left_bytes; seen_may_stay = D.seen_may_stay; counts_now = D.counts_now; only_now = D.only_now }) (with_gathered g.disk g.gathered) c left };

    ghost seen_bytes = { λ g honest. shows_bytes (record { size = D.size; seen = D.seen; is_honest = D.is_honest; failures = D.failures; clock = D.clock; may_leave = D.may_leave; left_since = D.left_since }) (record { whole = D.whole; sized = D.sized; seen_bytes = D.seen_bytes; left_bytes = D.left_bytes; seen_may_stay = D.seen_may_stay; counts_now = D.counts_now; only_now = D.only_now }) (with_gathered g.disk g.gathered) (are_of g.gathered) honest };

    ghost left_bytes = { λ g c honest left. left.are };

    ghost seen_may_stay = { λ g honest. shown_may_stay _ (record { whole = D.whole; sized = D.sized; seen_bytes = D.seen_bytes; left_bytes = D.left_bytes; seen_may_stay = D.seen_may_stay; counts_now = D.counts_now; only_now = D.only_now }) (with_gathered g.disk g.gathered) g.within (are_of g.gathered) honest };

    ghost counts_now = { λ g t c le left. inl left };

    ghost only_now = { λ g c since. only_this_moment _ (record { whole = D.whole; sized = D.sized; seen_bytes = D.seen_bytes; left_bytes = D.left_bytes; seen_may_stay = D.seen_may_stay; counts_now = D.counts_now; only_now = D.only_now }) (with_gathered g.disk g.gathered) c (few_of g.gathered) since };

    fn length(&self) -> u64 {
        self.disk.length()
    }

    fn read_at(&mut self, at: u64, into: &mut [u8]) -> Result<(), DiskFault> {
        self.disk.fetch(at, into)?;
        lay_over(&self.gathered, at, into);
        Ok(())
    }

    fn write_at(&mut self, at: u64, from: &[u8]) -> Result<(), DiskFault> {
        self.durability = after_write(self.durability);
        take(&mut self.disk, &mut self.gathered, at, from)
    }

    fn sync(&mut self) -> Result<(), DiskFault> {
        match self.durability {
            Durability::Synced => Ok(()),
            Durability::Written => self.sync_written(),
            Durability::Unknown => self.refuse(),
        }
    }
}
