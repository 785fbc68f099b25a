//! Bytes on their way to a disk: writes that adjoin, which the disk then takes as one.
ghost use Rattle.std.specs.Prelude.{◌≡◌, ◌+◌, ◌^◌, ◌<◌, ◌≤◌, ◌++◌, List, ℕ, [], length, IfOk, OnOk, IsOkUnless};
ghost use Rattle.std.specs.Bool.{OnTrue, OnFalse};
ghost use Rattle.disk_model.specs.Places.{AreBytes, part, overwritten};
ghost use Rattle.disk_model.specs.Disk.{HasCause};
ghost use Rattle.disk_model.specs.Gathering.{laden, fronted, IsQuiet, IsTaken};

use crate::{Backing, DiskFault};
use std::alloc::{AllocError, Global};

// The most bytes that are gathered.
const MOST: usize = 65_536;

/// The bytes that are to be written to a disk from one place on. An archive writes its blocks one after the other, so one
/// call of the operating system takes many of them.
#[derive(Drop)]
pub(crate) struct Gathered {
    // The place of the first.
    at: u64,
    bytes: Vec<u8>,
    ghost few: { length bytes.items < 2 ^ 64 },
    ghost are: { AreBytes bytes.items },
}

impl Gathered {
    /// None yet. All memory is taken here.
    pub(crate) fn new(alloc: Global) -> Result<Gathered, AllocError>
        ensures none { IfOk result (λ g. (g.at ≡ 0) × (g.bytes.items ≡ [])) }
    {
        Ok(Gathered {
            at: 0,
            bytes: Vec::with_capacity(alloc, MOST)?,
        })
    }

    /// Takes bytes that are to be written from place `at` on. Those that were gathered are written before, if these do
    /// not adjoin them or have no room after them; bytes that have no room at all are written now.
    pub(crate) fn write<D: Backing>(
        &mut self,
        disk: &mut D,
        at: u64,
        from: &[u8],
    ) -> Result<(), DiskFault>
        requires gathered { self.old.at + length self.old.bytes.items ≤ D.size disk.old }
        requires within { at + length from.now ≤ D.size disk.old }
        ensures taken { IsTaken D.Disk result at from.now (laden disk.old self.old.at self.old.bytes.items)
            (laden disk.new self.new.at self.new.bytes.items) }
        ensures within { self.new.at + length self.new.bytes.items ≤ D.size disk.new }
        ensures cause { HasCause (D.failures disk.old) (D.failures disk.new) result }
        ensures kind { IsOkUnless result DiskFault.Write }
    {
        if self.takes(at, from) {
            return Ok(());
        }
        self.write_out(disk)?;
        if self.takes(at, from) {
            return Ok(());
        }
        disk.put(at, from)
    }

    /// Writes the gathered bytes. If that fails they are kept, to be written by a later call.
    pub(crate) fn write_out<D: Backing>(&mut self, disk: &mut D) -> Result<(), DiskFault>
        requires { self.old.at + length self.old.bytes.items ≤ D.size disk.old }
        ensures quiet { IsQuiet D.Disk (laden disk.old self.old.at self.old.bytes.items)
            (laden disk.new self.new.at self.new.bytes.items) }
        ensures none { OnOk result (self.new.bytes.items ≡ []) }
        ensures within { self.new.at + length self.new.bytes.items ≤ D.size disk.new }
        ensures cause { HasCause (D.failures disk.old) (D.failures disk.new) result }
        ensures kind { IsOkUnless result DiskFault.Write }
    {
        let bytes = self.bytes.as_slice();
        disk.put(self.at, bytes)?;
        self.bytes.clear();
        Ok(())
    }

    // Gathers these bytes if they adjoin the others and have room after them. Returns whether they do.
    fn takes(&mut self, at: u64, from: &[u8]) -> bool
        ensures taken { OnTrue result (self.new.bytes.items ≡ self.old.bytes.items ++ from.now) }
        ensures placed { OnTrue result (self.new.at + length self.old.bytes.items ≡ at) }
        ensures stays { OnTrue result (0 < length self.old.bytes.items → self.new.at ≡ self.old.at) }
        ensures refused { OnFalse result ((self.new.at ≡ self.old.at) × (self.new.bytes.items ≡ self.old.bytes.items)) }
    {
        let gathered = self.bytes.len();
        if gathered != 0 && self.at.checked_add(gathered as u64) != Some(at) {
            return false;
        }
        if self.bytes.capacity() - gathered < from.len() {
            return false;
        }
        if self.bytes.extend_from_slice(from).is_err() {
            return false;
        }
        if gathered == 0 {
            self.at = at;
        }
        true
    }

    /// Lays the gathered bytes over bytes that were read from place `at` of the disk on.
    pub(crate) fn lay_over(&self, at: u64, into: &mut [u8])
        ensures laid { (l : List ℕ) → at + length into.old ≤ length l → self.now.at + length self.now.bytes.items ≤ length l
            → into.old ≡ part l at (length into.old)
            → into.new ≡ part (overwritten l self.now.at self.now.bytes.items) at (length into.old) }
    {
        if at <= self.at {
            let skipped = (self.at - at) as usize;
            if skipped < into.len() {
                copy_front(&mut into[skipped..], &self.bytes);
            }
            return;
        }
        let skipped = (at - self.at) as usize;
        if skipped < self.bytes.len() {
            copy_front(into, &self.bytes[skipped..]);
        }
    }
}

// Copies as many bytes as both have, from the front.
fn copy_front(into: &mut [u8], from: &[u8])
    ensures copied { into.new ≡ fronted into.old from.now }
{
    let size = into.len().min(from.len());
    into[..size].copy_from_slice(&from[..size]);
}
