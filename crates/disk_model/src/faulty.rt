// A disk that fails by plan.
ghost use Rattle.std.specs.Prelude.{◌≡◌, ◌+◌, ◌-◌, ◌^◌, ◌≤◌, ◌↔◌, ℕ, Bool, List, Err, length, min, IsTrue, OnOk, IsOkUnless};
ghost use Rattle.disk_model.specs.Places.{part, overwritten, SameOutside};
ghost use Rattle.disk_model.specs.Disk.{Follows, Only, Elapses, HasCause, IsNextCount, joined};

use crate::{Disk, DiskFault};
use diagnostics::after_failure;

/// Which calls of a disk fail.
pub trait Plan: Copy {
    /// Whether the call after so many earlier ones passes.
    ghost passes: { Self → ℕ → Type 0 };

    /// Whether the call after `calls` earlier ones passes.
    fn admits(&self, calls: u64) -> bool
        ensures { IsTrue result ↔ passes self.now calls };
}

/// A disk that fails the calls (reads, writes and syncs) that its plan names, and passes all others to the one within.
#[derive(Drop)]
pub struct Faulty<D, P> {
    inner: D,
    plan: P,
    calls: u64,
    faults: u64,
}

impl<D: Disk, P: Plan> Faulty<D, P> {
    ghost use Rattle.disk_model.specs.Faulty.{faulty_inner, faulty_plan, faulty_calls};

    /// Follows this plan, with no call made yet.
    pub(crate) fn planned(inner: D, plan: P) -> Faulty<D, P>
        ensures inner { faulty_inner result ≡ inner }
        ensures plan { faulty_plan result ≡ plan }
        ensures calls { faulty_calls result ≡ 0 }
    {
        Faulty {
            inner,
            plan,
            calls: 0,
            faults: 0,
        }
    }

    /// How many reads, writes and syncs were made, with those that failed; it stays at the highest `u64`.
    pub fn calls(&self) -> u64
        ensures { result ≡ faulty_calls self.now }
    {
        let Faulty { calls, .. } = self;
        *calls
    }

    /// The disk within.
    pub fn into_inner(self) -> D
        ensures inner { result ≡ faulty_inner self }
        ensures honest { D.is_honest result ≡ ⟦<Faulty<D, P> as Disk>⟧.is_honest self }
        ensures size { D.size result ≡ ⟦<Faulty<D, P> as Disk>⟧.size self }
        ensures seen { D.seen result ≡ ⟦<Faulty<D, P> as Disk>⟧.seen self }
        ensures crash { (c : List ℕ) → D.may_leave result c ↔
            ⟦<Faulty<D, P> as Disk>⟧.may_leave self c }
    {
        let Faulty {
            inner,
            plan: _,
            calls: _,
            faults: _,
        } = self;
        inner
    }

    // Counts a call, and returns whether it is passed to the disk within.
    fn admits(&mut self) -> bool
        ensures verdict { IsTrue result ↔ P.passes self.old.plan self.old.calls }
        ensures calls { self.new.calls ≡ min (self.old.calls + 1) (2 ^ 64 - 1) }
        ensures plan { self.new.plan ≡ self.old.plan }
        ensures inner { self.new.inner ≡ self.old.inner }
        ensures passed { IsTrue result → self.new.faults ≡ self.old.faults }
        ensures failed { (IsTrue result → ⊥) → IsNextCount self.old.faults self.new.faults }
    {
        let admitted = self.plan.admits(self.calls);
        self.calls = self.calls.saturating_add(1);
        if !admitted {
            self.faults = after_failure(self.faults);
        }
        admitted
    }
}

impl<D: Disk, P: Plan> Disk for Faulty<D, P> {
    ghost use Rattle.disk_model.specs.Faulty.{faulty_inner, faulty_plan, faulty_calls};

    ghost size = { λ f. D.size f.inner };

    ghost seen = { λ f. D.seen f.inner };

    ghost is_honest = { λ f. D.is_honest f.inner };

    ghost failures = { λ f. joined (D.failures f.inner) f.faults };

    ghost clock = { λ f. D.clock f.inner };

    ghost may_leave = { λ f. D.may_leave f.inner };

    ghost left_since = { λ f. D.left_since f.inner };

    ghost addressed = { λ f. D.addressed f.inner };

    ghost whole = { λ f. D.whole f.inner };

    ghost sized = { λ f. D.sized f.inner };

    ghost seen_bytes = { λ f. D.seen_bytes f.inner };

    ghost left_bytes = { λ f. D.left_bytes f.inner };

    ghost seen_may_stay = { λ f. D.seen_may_stay f.inner };

    ghost counts_now = { λ f. D.counts_now f.inner };

    ghost only_now = { λ f. D.only_now f.inner };

    fn length(&self) -> u64 {
        self.inner.length()
    }

    fn read_at(&mut self, at: u64, into: &mut [u8]) -> Result<(), DiskFault>
        requires { at + length into.old ≤ ⟦<Faulty<D, P> as Disk>⟧.size self.old }
        ensures calls { faulty_calls self.new ≡ min (faulty_calls self.old + 1) (2 ^ 64 - 1) }
        ensures plan { faulty_plan self.new ≡ faulty_plan self.old }
        ensures failed { (P.passes (faulty_plan self.old) (faulty_calls self.old) → ⊥)
            → result ≡ Err DiskFault.Read }
        ensures kept { (P.passes (faulty_plan self.old) (faulty_calls self.old) → ⊥)
            → faulty_inner self.new ≡ faulty_inner self.old }
        ensures passed { P.passes (faulty_plan self.old) (faulty_calls self.old)
            → HasCause (D.failures (faulty_inner self.old))
            (D.failures (faulty_inner self.new)) result }
        ensures bytes { OnOk result (IsTrue (⟦<Faulty<D, P> as Disk>⟧.is_honest self.old)
            → into.new ≡ part (⟦<Faulty<D, P> as Disk>⟧.seen self.old) at (length into.old)) }
        ensures seen { IsTrue (⟦<Faulty<D, P> as Disk>⟧.is_honest self.old)
            → ⟦<Faulty<D, P> as Disk>⟧.seen self.new ≡ ⟦<Faulty<D, P> as Disk>⟧.seen self.old }
        ensures crash { IsTrue (⟦<Faulty<D, P> as Disk>⟧.is_honest self.old) → (c : List ℕ)
            → ⟦<Faulty<D, P> as Disk>⟧.may_leave self.new c → ⟦<Faulty<D, P> as Disk>⟧.may_leave self.old c }
        ensures time { Elapses ⟦<Faulty<D, P> as Disk>⟧.clock ⟦<Faulty<D, P> as Disk>⟧.may_leave
            ⟦<Faulty<D, P> as Disk>⟧.left_since self.old self.new }
        ensures cause { HasCause (⟦<Faulty<D, P> as Disk>⟧.failures self.old)
            (⟦<Faulty<D, P> as Disk>⟧.failures self.new) result }
        ensures kind { IsOkUnless result DiskFault.Read }
        ensures honesty { ⟦<Faulty<D, P> as Disk>⟧.is_honest self.new ≡
            ⟦<Faulty<D, P> as Disk>⟧.is_honest self.old }
        ensures size { ⟦<Faulty<D, P> as Disk>⟧.size self.new ≡ ⟦<Faulty<D, P> as Disk>⟧.size self.old }
    {
        if !self.admits() {
            return Err(DiskFault::Read);
        }
        self.inner.read_at(at, into)
    }

    fn write_at(&mut self, at: u64, from: &[u8]) -> Result<(), DiskFault>
        requires { at + length from.now ≤ ⟦<Faulty<D, P> as Disk>⟧.size self.old }
        ensures calls { faulty_calls self.new ≡ min (faulty_calls self.old + 1) (2 ^ 64 - 1) }
        ensures plan { faulty_plan self.new ≡ faulty_plan self.old }
        ensures failed { (P.passes (faulty_plan self.old) (faulty_calls self.old) → ⊥)
            → result ≡ Err DiskFault.Write }
        ensures kept { (P.passes (faulty_plan self.old) (faulty_calls self.old) → ⊥)
            → faulty_inner self.new ≡ faulty_inner self.old }
        ensures passed { P.passes (faulty_plan self.old) (faulty_calls self.old)
            → HasCause (D.failures (faulty_inner self.old))
            (D.failures (faulty_inner self.new)) result }
        ensures written { OnOk result (IsTrue (⟦<Faulty<D, P> as Disk>⟧.is_honest self.old)
            → ⟦<Faulty<D, P> as Disk>⟧.seen self.new ≡ overwritten
            (⟦<Faulty<D, P> as Disk>⟧.seen self.old) at from.now) }
        ensures others { IsTrue (⟦<Faulty<D, P> as Disk>⟧.is_honest self.old)
            → SameOutside at (length from.now) (⟦<Faulty<D, P> as Disk>⟧.seen self.old)
            (⟦<Faulty<D, P> as Disk>⟧.seen self.new) }
        ensures crash { IsTrue (⟦<Faulty<D, P> as Disk>⟧.is_honest self.old)
            → Follows (SameOutside at (length from.now)) (⟦<Faulty<D, P> as Disk>⟧.may_leave self.old)
            (⟦<Faulty<D, P> as Disk>⟧.may_leave self.new) }
        ensures time { Elapses ⟦<Faulty<D, P> as Disk>⟧.clock ⟦<Faulty<D, P> as Disk>⟧.may_leave
            ⟦<Faulty<D, P> as Disk>⟧.left_since self.old self.new }
        ensures cause { HasCause (⟦<Faulty<D, P> as Disk>⟧.failures self.old)
            (⟦<Faulty<D, P> as Disk>⟧.failures self.new) result }
        ensures kind { IsOkUnless result DiskFault.Write }
        ensures honesty { ⟦<Faulty<D, P> as Disk>⟧.is_honest self.new ≡
            ⟦<Faulty<D, P> as Disk>⟧.is_honest self.old }
        ensures size { ⟦<Faulty<D, P> as Disk>⟧.size self.new ≡ ⟦<Faulty<D, P> as Disk>⟧.size self.old }
    {
        if !self.admits() {
            return Err(DiskFault::Write);
        }
        self.inner.write_at(at, from)
    }

    fn sync(&mut self) -> Result<(), DiskFault>
        ensures calls { faulty_calls self.new ≡ min (faulty_calls self.old + 1) (2 ^ 64 - 1) }
        ensures plan { faulty_plan self.new ≡ faulty_plan self.old }
        ensures failed { (P.passes (faulty_plan self.old) (faulty_calls self.old) → ⊥)
            → result ≡ Err DiskFault.Sync }
        ensures kept { (P.passes (faulty_plan self.old) (faulty_calls self.old) → ⊥)
            → faulty_inner self.new ≡ faulty_inner self.old }
        ensures passed { P.passes (faulty_plan self.old) (faulty_calls self.old)
            → HasCause (D.failures (faulty_inner self.old))
            (D.failures (faulty_inner self.new)) result }
        ensures durable { OnOk result (IsTrue (⟦<Faulty<D, P> as Disk>⟧.is_honest self.old)
            → Only (⟦<Faulty<D, P> as Disk>⟧.seen self.old) (⟦<Faulty<D, P> as Disk>⟧.may_leave self.new)) }
        ensures seen { IsTrue (⟦<Faulty<D, P> as Disk>⟧.is_honest self.old)
            → ⟦<Faulty<D, P> as Disk>⟧.seen self.new ≡ ⟦<Faulty<D, P> as Disk>⟧.seen self.old }
        ensures crash { IsTrue (⟦<Faulty<D, P> as Disk>⟧.is_honest self.old) → (c : List ℕ)
            → ⟦<Faulty<D, P> as Disk>⟧.may_leave self.new c → ⟦<Faulty<D, P> as Disk>⟧.may_leave self.old c }
        ensures time { Elapses ⟦<Faulty<D, P> as Disk>⟧.clock ⟦<Faulty<D, P> as Disk>⟧.may_leave
            ⟦<Faulty<D, P> as Disk>⟧.left_since self.old self.new }
        ensures cause { HasCause (⟦<Faulty<D, P> as Disk>⟧.failures self.old)
            (⟦<Faulty<D, P> as Disk>⟧.failures self.new) result }
        ensures kind { IsOkUnless result DiskFault.Sync }
        ensures honesty { ⟦<Faulty<D, P> as Disk>⟧.is_honest self.new ≡
            ⟦<Faulty<D, P> as Disk>⟧.is_honest self.old }
        ensures size { ⟦<Faulty<D, P> as Disk>⟧.size self.new ≡ ⟦<Faulty<D, P> as Disk>⟧.size self.old }
    {
        if !self.admits() {
            return Err(DiskFault::Sync);
        }
        self.inner.sync()
    }
}
