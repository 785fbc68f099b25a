// An archive, copied onto a new disk.
ghost use Rattle.std.specs.Prelude.{◌≡◌, ◌≤◌, true, ℕ, List, IsTrue, IsOkUnless, OnOk, Ok, Err, vec_capacity};
ghost use Rattle.disk_model.specs.Disk.{Only};
ghost use Rattle.disk_model.specs.Keeping.{KeepsDisk};
ghost use Rattle.disk_model.specs.Moments.{IsSettled};
ghost use Rattle.case_journal.specs.Viewing.{OnlyReads};
ghost use Rattle.journal_layout.specs.Front.{is_known};
ghost use Rattle.journal_layout.specs.Layout.{IsWithinLimits, disk_length, half_start};
ghost use Rattle.journal_layout.specs.Live.{AreLive, AreLabelled};
ghost use Rattle.journal_layout.specs.Standing.{fresh};
ghost use Rattle.journal_layout.specs.Stands.{Stands};
ghost use Rattle.journal_layout.specs.declared.shape.Half.TheVariants.{A, B};
ghost use Rattle.archive_care.specs.Bytes.{CopyCause};
ghost use Rattle.archive_care.specs.Copied.{CopyCall, HoldsCopy, HoldsImages, RightShape, copy_version};
ghost use Rattle.archive_care.specs.Planning.{HasSpace, IsPlan};

use crate::CopyFault;
use crate::images::copy_images;
use crate::planning::{Plan, plan_copy};
use crate::writing::write_cases;
use case_journal::{FormatFault, Journal, Opened, data_blocks_keep, format};
use disk_model::Disk;
use journal_layout::{Half, Shape};
use journal_snapshot::Target;
use std::alloc::Global;

/// The wish for a copy.
#[derive(Clone, Copy, PartialEq, Eq)]
pub struct CopyWish {
    /// The shape of the new archive.
    pub shape: Shape,
    /// It is of version 2 of the layout, whatever the archive's is.
    pub keeps_labels: bool,
}

// Whether the shape is within its limits, and that of the new disk. Answers `BadShape` if not.
fn check_shape<N: Disk>(onto: &N, shape: Shape) -> Result<(), CopyFault>
    ensures { RightShape (N.size onto.now) shape result }
{
    match shape.length() {
        Ok(length) if length == onto.length() => Ok(()),
        _ => Err(CopyFault::BadShape),
    }
}

// Makes an archive with no case on the new disk. Answers `Target`.
fn begin_copy<N: Disk>(onto: &mut N, shape: Shape) -> Result<(), CopyFault>
    requires limits { IsWithinLimits shape }
    requires size { N.size onto.old ≡ disk_length shape }
    ensures fresh { IsTrue (N.is_honest onto.old) → OnOk result (Stands (N.seen onto.new) (fresh shape A 1 1)) }
    ensures settled { IsTrue (N.is_honest onto.old) → OnOk result (IsSettled N.Disk onto.new) }
    ensures only { IsOkUnless result CopyFault.Target }
    ensures disk { KeepsDisk N.Disk onto.old onto.new (result ≡ Err CopyFault.Target) }
{
    match format(onto, shape) {
        Ok(()) => Ok(()),
        Err(FormatFault::BadShape) => Err(CopyFault::Target),
        Err(FormatFault::Disk) => Err(CopyFault::Target),
    }
}

// Makes the images stable. Answers `Target`.
fn settle<N: Disk>(onto: &mut N) -> Result<(), CopyFault>
    ensures durable { IsTrue (N.is_honest onto.old) → OnOk result (Only (N.seen onto.old) (N.may_leave onto.new)) }
    ensures seen { IsTrue (N.is_honest onto.old) → N.seen onto.new ≡ N.seen onto.old }
    ensures only { IsOkUnless result CopyFault.Target }
    ensures disk { KeepsDisk N.Disk onto.old onto.new (result ≡ Err CopyFault.Target) }
{
    match onto.sync() {
        Ok(()) => Ok(()),
        Err(_) => Err(CopyFault::Target),
    }
}

// The version of a copy's layout.
fn version_of(keeps_labels: bool, version: u32) -> u32
    requires { is_known version ≡ true }
    ensures version { result ≡ copy_version keeps_labels version }
    ensures known { is_known result ≡ true }
{
    if keeps_labels { 2 } else { version }
}

// The place for the records of the copy of a journal: the second half of a new archive.
fn target_of(journal: &Journal, wanted: CopyWish) -> Target
    ensures start { result.start ≡ half_start wanted.shape B }
    ensures version { result.version ≡ copy_version wanted.keeps_labels journal.now.standing.version }
    ensures known { is_known result.version ≡ true }
    ensures generation { result.generation ≡ 2 }
    ensures next { result.next ≡ journal.now.standing.next }
{
    Target {
        start: wanted.shape.half_start(Half::B),
        version: version_of(wanted.keeps_labels, journal.version()),
        generation: 2,
        next: journal.next_seq(),
    }
}

// Makes an archive with no case on the new disk, and copies the images of a journal's cases into it. Answers `Target`, or `Source`.
fn put_images<D: Disk, N: Disk>(
    from: &mut D,
    onto: &mut N,
    journal: &Journal,
    shape: Shape,
) -> Result<(), CopyFault>
    requires limits { IsWithinLimits shape }
    requires size { N.size onto.old ≡ disk_length shape }
    requires source { D.size from.old ≡ disk_length journal.now.standing.shape }
    requires live { AreLive journal.now.standing.shape.data_blocks journal.now.standing.cases journal.now.standing.next }
    requires room { HasSpace shape journal.now.standing }
    ensures holds { IsTrue (D.is_honest from.old) → IsTrue (N.is_honest onto.old)
        → OnOk result (HoldsImages N.Disk onto.new (D.seen from.old) journal.now.standing shape) }
    ensures quiet { OnlyReads D.Disk from.old from.new }
    ensures later { D.failures from.old ≤ D.failures from.new }
    ensures disk { KeepsDisk N.Disk onto.old onto.new (result ≡ Err CopyFault.Target) }
    ensures cause { CopyCause D.Disk N.Disk from.old from.new onto.old onto.new result }
{
    data_blocks_keep();
    begin_copy(onto, shape)?;
    copy_images(
        from,
        onto,
        journal.shape(),
        shape.data_start(),
        journal.entries(),
    )?;
    settle(onto)
}

// Writes a copy as it is planned. Answers `Target`, or `Source`.
fn put_copy<D: Disk, N: Disk>(
    from: &mut D,
    onto: &mut N,
    journal: &Journal,
    plan: &Plan,
    wanted: CopyWish,
    buffer: &mut Vec<u8>,
) -> Result<(), CopyFault>
    requires plan { IsPlan wanted.shape journal.now.standing (Ok plan.now) }
    requires size { N.size onto.old ≡ disk_length wanted.shape }
    requires source { D.size from.old ≡ disk_length journal.now.standing.shape }
    requires live { AreLive journal.now.standing.shape.data_blocks journal.now.standing.cases journal.now.standing.next }
    requires labels { AreLabelled journal.now.standing.version journal.now.standing.cases }
    requires capacity { plan.now.measure.largest ≤ vec_capacity buffer.old }
    ensures holds { IsTrue (D.is_honest from.old) → IsTrue (N.is_honest onto.old)
        → OnOk result ((c : List ℕ) → N.may_leave onto.new c
        → HoldsCopy (D.seen from.old) journal.now.standing wanted.shape (copy_version wanted.keeps_labels journal.now.standing.version) c) }
    ensures quiet { OnlyReads D.Disk from.old from.new }
    ensures later { D.failures from.old ≤ D.failures from.new }
    ensures disk { KeepsDisk N.Disk onto.old onto.new (result ≡ Err CopyFault.Target) }
    ensures cause { CopyCause D.Disk N.Disk from.old from.new onto.old onto.new result }
{
    put_images(from, onto, journal, wanted.shape)?;
    let target = target_of(journal, wanted);
    write_cases(
        onto,
        target,
        &plan.entries,
        plan.measure,
        wanted.shape.half_length(),
        buffer,
    )
}

/// Copies the cases of the archive on a disk onto a new disk, whose bytes may be any: an archive of the wanted shape, in which each
/// image lies in one run. The archive is only read. The next number is the archive's.
///
/// Answers, in this order: `Open` with the fault of the opening; `BadShape`; `SpaceFull`; `OutOfMemory`; `JournalFull`;
/// `OutOfMemory`; and then `Source` if the archive's disk failed, or `Target` if the new one did, after which nothing is promised of
/// that. Any other refusal leaves the new disk as it is.
pub fn copy_archive<D: Disk, N: Disk>(
    alloc: Global,
    from: &mut D,
    onto: &mut N,
    wanted: CopyWish,
) -> Result<(), CopyFault>
    ensures { CopyCall D.Disk N.Disk wanted from.old from.new onto.old onto.new result }
{
    let Opened { journal, .. } = match Journal::open(alloc, from) {
        Ok(opened) => opened,
        Err(fault) => return Err(CopyFault::Open(fault)),
    };
    check_shape(onto, wanted.shape)?;
    let plan = plan_copy(alloc, &journal, wanted.shape)?;
    let mut buffer = Vec::with_capacity(alloc, plan.measure.largest as usize)?;
    put_copy(from, onto, &journal, &plan, wanted, &mut buffer)
}
