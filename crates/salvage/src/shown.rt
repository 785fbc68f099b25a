// An archive's bytes, with one of them shown as another.
ghost use Rattle.std.specs.Prelude.{◌≡◌, ℕ, ◌+◌, ◌<◌, ◌≤◌, [], ◌∷◌, length, is_ok, IsTrue, OnOk, IsOkUnless};
ghost use Rattle.std.proofs.Common.{refl, sym, ap, subst, ◌∙◌};
ghost use Rattle.disk_model.specs.Disk.{HasCause};
ghost use Rattle.disk_model.specs.Places.{AreBytes, overwritten, part};
ghost use Rattle.salvage.specs.Showing.{IsSmall, IsWithin, shown};
ghost use Rattle.salvage.specs.ShowLaws.{shown_bytes, shown_length};

use crate::source::Source;
use diagnostics::after_failure;
use disk_model::{Disk, DiskFault};

/// A byte that is shown as another.
#[derive(Clone, Copy, PartialEq, Eq)]
pub struct Patch {
    /// Its place.
    pub at: u64,
    /// The byte that is shown there.
    pub byte: u8,
}

/// The bytes of a source as a disk, with one of them shown as another, if that is wanted. It refuses writes. Of a stop of the machine
/// it says nothing: that ends its reader too.
#[derive(Drop)]
pub struct Shown<'a, S: Source> {
    source: &'a S,
    patch: Option<Patch>,
    failures: u64,
    ghost within: { IsWithin (S.size source.now) patch },
    ghost small: { IsSmall patch },
}

impl<'a, S: Source> Shown<'a, S> {
    ghost use Rattle.salvage.specs.Views.{patch_of, source_of};

    /// Shows the bytes of a source so.
    pub fn new(source: &'a S, patch: Option<Patch>) -> Shown<'a, S>
        requires { IsWithin (S.size source.now) patch }
        ensures source { source_of result ≡ source.now }
        ensures patch { patch_of result ≡ patch }
    {
        Shown {
            source,
            patch,
            failures: 0,
        }
    }

    // Reads the bytes from place `at` on, as they are shown.
    fn fetch(&self, at: u64, into: &mut [u8]) -> Result<(), DiskFault>
        requires { at + length into.old ≤ S.size self.now.source.now }
        ensures bytes { OnOk result (IsTrue (S.is_honest self.now.source.now)
            → into.new ≡ part (shown self.now.patch (S.seen self.now.source.now)) at (length into.old)) }
    {
        self.source.read_at(at, into)?;
        if let Some(patch) = self.patch {
            put_byte(into, at, patch);
        }
        Ok(())
    }

    // Counts a failure if there was one.
    fn counted(&mut self, outcome: Result<(), DiskFault>, fault: DiskFault) -> Result<(), DiskFault>
        ensures outcome { is_ok result ≡ is_ok outcome }
        ensures cause { HasCause self.old.failures self.new.failures result }
        ensures kind { IsOkUnless result fault }
        ensures source { self.new.source.now ≡ self.old.source.now }
        ensures patch { self.new.patch ≡ self.old.patch }
    {
        if outcome.is_ok() {
            return Ok(());
        }
        self.failures = after_failure(self.failures);
        Err(fault)
    }
}

// Puts a byte in its place, if the bytes from place `at` on have it.
fn put_byte(into: &mut [u8], at: u64, patch: Patch)
    ensures before { patch.at < at → into.new ≡ into.old }
    ensures after { at + length into.old ≤ patch.at → into.new ≡ into.old }
    ensures there { at ≤ patch.at → patch.at < at + length into.old
        → (k : ℕ) → k + at ≡ patch.at → into.new ≡ overwritten into.old k (patch.byte ∷ []) }
{
    if patch.at < at || patch.at - at >= into.len() as u64 {
        return;
    }
    let place = (patch.at - at) as usize;
    into[place..place + 1].copy_from_slice(&[patch.byte]);
}

impl<S: Source> Disk for Shown<'_, S> {
    ghost size = { λ v. S.size v.source.now };

    ghost seen = { λ v. shown v.patch (S.seen v.source.now) };

    ghost is_honest = { λ v. S.is_honest v.source.now };

    ghost failures = { λ v. v.failures };

    ghost clock = { λ v. 0 };

    ghost may_leave = { λ v c. c ≡ shown v.patch (S.seen v.source.now) };

    ghost left_since = { λ v t c. c ≡ shown v.patch (S.seen v.source.now) };

    ghost addressed = { λ v. S.addressed v.source.now };

    ghost whole = { λ v honest. shown_length v.patch (S.seen v.source.now) (subst (λ n. IsWithin n v.patch) (sym (S.whole v.source.now honest)) v.within) ∙ S.whole v.source.now honest };

    ghost sized = { λ v c honest left. ap length left ∙ shown_length v.patch (S.seen v.source.now) (subst (λ n. IsWithin n v.patch) (sym (S.whole v.source.now honest)) v.within) ∙ S.whole v.source.now honest };

    ghost seen_bytes = { λ v honest. shown_bytes v.patch (S.seen v.source.now) (S.seen_bytes v.source.now honest) v.small };

    ghost left_bytes = { λ v c honest left. subst AreBytes (sym left) (shown_bytes v.patch (S.seen v.source.now) (S.seen_bytes v.source.now honest) v.small) };

    ghost seen_may_stay = { λ v honest. refl };

    ghost counts_now = { λ v t c le left. left };

    ghost only_now = { λ v c left. left };

    fn length(&self) -> u64 {
        self.source.length()
    }

    fn read_at(&mut self, at: u64, into: &mut [u8]) -> Result<(), DiskFault> {
        let outcome = self.fetch(at, into);
        self.counted(outcome, DiskFault::Read)
    }

    fn write_at(&mut self, _at: u64, _from: &[u8]) -> Result<(), DiskFault> {
        self.counted(Err(DiskFault::Write), DiskFault::Write)
    }

    fn sync(&mut self) -> Result<(), DiskFault> {
        Ok(())
    }
}
