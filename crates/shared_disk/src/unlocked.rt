// A disk that is read between two looks, as one that nobody changes.
ghost use Rattle.std.specs.Prelude.{◌≡◌, ◌+◌, ◌≤◌, ◌&&◌, length, is_ok, true, IsTrue, OnOk, IsOkUnless};
ghost use Rattle.std.proofs.Common.{refl, sym, ap, subst, ◌∙◌};
ghost use Rattle.disk_model.specs.Disk.{HasCause};
ghost use Rattle.disk_model.specs.Places.{AreBytes, part};
ghost use Rattle.shared_disk.specs.Front.{IsFront};
ghost use Rattle.shared_disk.specs.Steady.{are_steady, holds_part, is_in_one};
ghost use Rattle.shared_disk.specs.SteadyLaws.{both_first};

use crate::shared::SharedDisk;
use diagnostics::after_failure;
use disk_model::{Disk, DiskFault};
use intake::ByteRange;

/// A disk between two looks. It gives the front as the last look saw it, and the bytes of its ranges as they are read now, without
/// the lock. Any other read is answered `Read`, and nothing is written. It is honest if the disk that others change is, and nobody
/// changes the ranges until the next look. Whether anybody did is known at the next look. It promises nothing about a stop of the
/// machine: that ends its reader too.
#[derive(Drop)]
pub struct Unlocked<'a, S: SharedDisk> {
    shared: &'a S,
    front: &'a [u8],
    ranges: Vec<ByteRange>,
    // The number of the range that was read last.
    near: usize,
    failures: u64,
    ghost seen: { IsFront S.SharedDisk shared.now front.now },
}

impl<'a, S: SharedDisk> Unlocked<'a, S> {
    ghost use Rattle.shared_disk.specs.Looks.{ranges_of, under};

    // A disk whose last look saw this front.
    pub(crate) fn over(shared: &'a S, front: &'a [u8], ranges: Vec<ByteRange>) -> Unlocked<'a, S>
        requires { IsFront S.SharedDisk shared.now front.now }
        ensures under { under result ≡ shared.now }
        ensures ranges { ranges_of result ≡ ranges.items }
    {
        Unlocked {
            shared,
            front,
            ranges,
            near: 0,
            failures: 0,
        }
    }

    // Reads the bytes from place `at` on.
    fn fetch(&self, at: u64, into: &mut [u8]) -> Result<(), DiskFault>
        requires { at + length into.old ≤ S.size self.now.shared.now }
        ensures bytes { OnOk result (IsTrue (S.is_honest self.now.shared.now && are_steady self.now.ranges.items (S.looked self.now.shared.now) (S.meanwhile self.now.shared.now))
            → into.new ≡ part (S.looked self.now.shared.now) at (length into.old)) }
    {
        if at + into.len() as u64 <= self.front.len() as u64 {
            copy_part(self.front, at as usize, into);
            return Ok(());
        }
        if !self.may_read(at, into.len() as u64) {
            return Err(DiskFault::Read);
        }
        self.shared.read_between(at, into)?;
        Ok(())
    }

    // Whether n bytes from place `at` on lie in one of the ranges. The one that was read last is tried first.
    fn may_read(&self, at: u64, n: u64) -> bool
        ensures { result ≡ is_in_one self.now.ranges.items at n }
    {
        if self.is_in(self.near, at, n) {
            return true;
        }
        self.ranges.iter().any(|range| holds_part(*range, at, n))
    }

    // Whether they lie in the range of this number.
    fn is_in(&self, number: usize, at: u64, n: u64) -> bool
        ensures { result ≡ true → is_in_one self.now.ranges.items at n ≡ true }
    {
        match self.ranges.get(number) {
            Some(range) => holds_part(*range, at, n),
            None => false,
        }
    }

    // The number of the range in which they lie. Images are read front to back: so it is the one that was read last, or the next one.
    fn range_near(&self, at: u64, n: u64) -> usize {
        let next = self.near.saturating_add(1);
        if self.is_in(self.near, at, n) {
            return self.near;
        }
        if self.is_in(next, at, n) {
            return next;
        }
        let found = self
            .ranges
            .iter()
            .position(|range| holds_part(*range, at, n));
        found.unwrap_or(0)
    }

    // Counts a failure if there was one.
    fn counted(&mut self, outcome: Result<(), DiskFault>, fault: DiskFault) -> Result<(), DiskFault>
        ensures outcome { is_ok result ≡ is_ok outcome }
        ensures cause { HasCause self.old.failures self.new.failures result }
        ensures kind { IsOkUnless result fault }
        ensures under { self.new.shared.now ≡ self.old.shared.now }
        ensures ranges { self.new.ranges.items ≡ self.old.ranges.items }
    {
        if outcome.is_ok() {
            return Ok(());
        }
        self.failures = after_failure(self.failures);
        Err(fault)
    }
}

// Copies the bytes from place `at` on.
pub(crate) fn copy_part(front: &[u8], at: usize, into: &mut [u8])
    requires { at + length into.old ≤ length front.now }
    ensures { into.new ≡ part front.now at (length into.old) }
{
    into.copy_from_slice(&front[at..at + into.len()]);
}

// Whether n bytes from place `at` on lie in the range.
fn holds_part(range: ByteRange, at: u64, n: u64) -> bool
    ensures { result ≡ holds_part at n range }
{
    range.start <= at && n <= range.length && at - range.start <= range.length - n
}

impl<S: SharedDisk> Disk for Unlocked<'_, S> {
    ghost size = { λ u. S.size u.shared.now };

    ghost seen = { λ u. S.looked u.shared.now };

    ghost is_honest = { λ u. S.is_honest u.shared.now && are_steady u.ranges.items (S.looked u.shared.now) (S.meanwhile u.shared.now) };

    ghost failures = { λ u. u.failures };

    ghost clock = { λ u. 0 };

    ghost may_leave = { λ u c. c ≡ S.looked u.shared.now };

    ghost left_since = { λ u t c. c ≡ S.looked u.shared.now };

    ghost addressed = { λ u. S.addressed u.shared.now };

    ghost whole = { λ u honest. S.whole u.shared.now (both_first _ _ honest) };

    ghost sized = { λ u c honest left. ap length left ∙ S.whole u.shared.now (both_first _ _ honest) };

    ghost seen_bytes = { λ u honest. S.looked_bytes u.shared.now (both_first _ _ honest) };

    ghost left_bytes = { λ u c honest left. subst AreBytes (sym left) (S.looked_bytes u.shared.now (both_first _ _ honest)) };

    ghost seen_may_stay = { λ u honest. refl };

    ghost counts_now = { λ u t c le left. left };

    ghost only_now = { λ u c left. left };

    fn length(&self) -> u64 {
        self.shared.length()
    }

    fn read_at(&mut self, at: u64, into: &mut [u8]) -> Result<(), DiskFault> {
        self.near = self.range_near(at, into.len() as u64);
        let outcome = self.fetch(at, into);
        self.counted(outcome, DiskFault::Read)
    }

    fn write_at(&mut self, _at: u64, _from: &[u8]) -> Result<(), DiskFault> {
        self.counted(Err(DiskFault::Write), DiskFault::Write)
    }

    fn sync(&mut self) -> Result<(), DiskFault> {
        Ok(())
    }
}
