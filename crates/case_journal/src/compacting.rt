// Writing a journal anew into its other half.
ghost use Rattle.std.specs.Prelude.{◌≡◌, ◌⊎◌, ◌+◌, ◌*◌, ◌^◌, ◌<◌, ◌≤◌, true, false, length, IsTrue, OnOk, Err, Some};
ghost use Rattle.disk_model.specs.Disk.{HasRisen};
ghost use Rattle.disk_model.specs.Moments.{LeavesOnly};
ghost use Rattle.disk_model.specs.Places.{SameOutside, part};
ghost use Rattle.disk_model.specs.Keeping.{KeepsDisk};
ghost use Rattle.journal_layout.specs.Layout.{IsWithinLimits, half_length};
ghost use Rattle.journal_layout.specs.Folding.{Folded};
ghost use Rattle.journal_layout.specs.Standing.{Standing};
ghost use Rattle.journal_layout.specs.Stands.{Stands};
ghost use Rattle.journal_layout.specs.Rewriting.{other_half, other_start, rewritten};
ghost use Rattle.journal_layout.specs.Front.{is_known};
ghost use Rattle.journal_layout.specs.Live.{AreLive, AreLabelled};
ghost use Rattle.journal_layout.specs.Standing.{folded_of};
ghost use Rattle.journal_snapshot.specs.Changing.{IsOrdered, changed};
ghost use Rattle.journal_snapshot.specs.Measuring.{AreShort, IsShort, IsMeasure};
ghost use Rattle.journal_snapshot.specs.Filling.{Fills};
ghost use Rattle.journal_snapshot.specs.Holding.{Holds};
ghost use Rattle.journal_snapshot.specs.Halves.{IsWrittenAs, half_bytes};
ghost use Rattle.case_journal.specs.Append.{RefusalLeaves};
ghost use Rattle.case_journal.specs.Doubting.{DoubtsGates};
ghost use Rattle.case_journal.specs.Compacting.{SnapshotStep, HasHeader, RunsSnapshot, CompactStep, MeasuresSnapshot, IsWriteAnswer, compacted, noted, moved, PutLeaves};
ghost use Rattle.case_journal.specs.Keeping.{Keeps, LeavesOutside};

use crate::{Journal, JournalFault};
use disk_model::Disk;
use journal_layout::{Entry, Half, Shape};
use journal_snapshot::{Change, Measure, Target, measured, rewrite};
use std::alloc::Global;

/// The place of the next record: the half that is taken, its generation, and the bytes of its header and records.
#[derive(Clone, Copy)]
pub(crate) struct JournalEnd {
    pub(crate) half: Half,
    pub(crate) generation: u64,
    pub(crate) used: u64,
}

// The half that this one is not.
fn other_half(half: Half) -> Half
    ensures { result ≡ other_half half }
{
    match half {
        Half::A => Half::B,
        Half::B => Half::A,
    }
}

/// Measures the snapshot of these cases after a change. `JournalFull`: it does not fit into a half with the gate after
/// it, or no generation is left for one.
pub(crate) fn measure_snapshot(
    entries: &[Entry],
    shape: Shape,
    generation: u64,
    change: &Change,
) -> Result<Measure, JournalFault>
    requires limits { IsWithinLimits shape }
    requires order { IsOrdered change.now }
    requires short { AreShort entries.now }
    requires short_added { IsShort change.now }
    ensures { MeasuresSnapshot shape generation change.now entries.now result }
{
    if generation == u64::MAX {
        return Err(JournalFault::JournalFull);
    }
    let Some(measure) = measured(entries, change, shape.half_length()) else {
        return Err(JournalFault::JournalFull);
    };
    Ok(measure)
}

/// Writes the snapshot of these cases after a change into the half that is not taken, and takes it. `OutOfMemory`, before
/// the first disk call; `Disk`. It takes as much memory as the longest record of a case has bytes.
pub(crate) fn write_snapshot<D: Disk>(
    alloc: Global,
    disk: &mut D,
    target: Target,
    entries: &[Entry],
    change: &Change,
    measure: Measure,
    half: u64,
) -> Result<(), JournalFault>
    requires order { IsOrdered change.now }
    requires measured { IsMeasure half change.now entries.now (Some measure) }
    requires small { half ≤ 16777216 }
    requires in_half { target.start + half ≤ D.size disk.old }
    ensures any_moment { (s : Standing) (f : Folded) → IsWrittenAs s f target change.now entries.now
        → IsTrue (D.is_honest disk.old) → Holds D.Disk disk.old s
        → LeavesOnly D.Disk disk.old disk.new (λ c. Stands c s ⊎ Stands c (rewritten s f)) }
    ensures taken { (s : Standing) (f : Folded) → IsWrittenAs s f target change.now entries.now
        → IsTrue (D.is_honest disk.old) → Holds D.Disk disk.old s
        → OnOk result (Holds D.Disk disk.new (rewritten s f)) }
    ensures doubts { (s : Standing) (f : Folded) → IsWrittenAs s f target change.now entries.now
        → IsTrue (D.is_honest disk.old) → Holds D.Disk disk.old s → DoubtsGates D.Disk disk.new s.shape }
    ensures fills { Fills D.Disk disk.old disk.new target.start half }
    ensures written { IsTrue (D.is_honest disk.old) → OnOk result (part (D.seen disk.new) (target.start + 1) (length (half_bytes target change.now entries.now)) ≡ half_bytes target change.now entries.now) }
    ensures only { IsWriteAnswer result }
    ensures untouched { RefusalLeaves result disk.old disk.new }
    ensures cause { result ≡ Err JournalFault.Disk → HasRisen (D.failures disk.old) (D.failures disk.new) }
    ensures later { D.failures disk.old ≤ D.failures disk.new }
{
    let mut buffer = Vec::with_capacity(alloc, measure.largest as usize)?;
    rewrite(disk, target, entries, change, &mut buffer)?;
    Ok(())
}

impl Journal {
    /// Rewrites the cases and the number of the next one into the other half, which is taken then: a snapshot of them,
    /// without the records that say nothing any more. It changes no case. All faults but `Disk` leave the journal and the
    /// disk as they are. Answers, in this order: `Stopped`; `JournalFull` if the snapshot with the gate after it does not
    /// fit into the half, or its generation would be 2^64; `OutOfMemory`, before the first disk call; `Disk`, after which
    /// the journal is stopped. It takes as much memory as the longest record of a case has bytes.
    pub fn compact<D: Disk>(&mut self, disk: &mut D) -> Result<(), JournalFault>
        requires keeps { Keeps D.Disk disk.old self.old }
        ensures step { CompactStep self.old result self.new }
        // A refusal leaves the disk as it is, unless the disk failed.
        ensures untouched { RefusalLeaves result disk.old disk.new }
        // Crash-safe at every moment: a crash since the start leaves bytes that encode the same cases and next number, in
        // the one half or in the other.
        ensures any_moment { IsTrue (D.is_honest disk.old) → self.old.stopped ≡ false
            → LeavesOnly D.Disk disk.old disk.new (λ c. Stands c self.old.standing ⊎ Stands c (compacted self.old.standing)) }
        ensures keeps { Keeps D.Disk disk.new self.new }
        // No byte outside the two halves is changed.
        ensures outside { IsTrue (D.is_honest disk.old)
            → LeavesOutside D.Disk disk.old disk.new self.old.standing }
        ensures others { IsTrue (D.is_honest disk.old)
            → SameOutside 4096 (2 * half_length self.old.standing.shape) (D.seen disk.old) (D.seen disk.new) }
        // Its header is spelled with zeros where the layout has zeros.
        ensures header { IsTrue (D.is_honest disk.old) → OnOk result (HasHeader self.old.standing self.old.standing.version (D.seen disk.new)) }
        // It writes only the half that is not taken.
        ensures written { self.old.stopped ≡ false
            → Fills D.Disk disk.old disk.new (other_start self.old.standing) (half_length self.old.standing.shape) }
        ensures disk { KeepsDisk D.Disk disk.old disk.new (result ≡ Err JournalFault.Disk) }
    {
        if self.stopped {
            return Err(JournalFault::Stopped);
        }
        match self.put_snapshot(disk, &Change::Nothing, self.version, self.next) {
            Ok(place) => {
                self.move_to(place);
                Ok(())
            }
            Err(fault) => {
                self.note_fault(fault);
                Err(fault)
            }
        }
    }

    // Writes the journal after a change into the other half, which is taken then, in this version of the layout. Returns
    // the place of the next record.
    pub(crate) fn put_snapshot<D: Disk>(
        &self,
        disk: &mut D,
        change: &Change,
        version: u32,
        next: u64,
    ) -> Result<JournalEnd, JournalFault>
        requires keeps { Keeps D.Disk disk.old self.now }
        requires runs { self.now.stopped ≡ false }
        requires order { IsOrdered change.now }
        requires short { IsShort change.now }
        requires version { version ≡ (changed change.now (folded_of self.now.standing)).version }
        requires known { is_known version ≡ true }
        requires next { next ≡ (changed change.now (folded_of self.now.standing)).next }
        requires live { AreLive self.now.standing.shape.data_blocks (changed change.now (folded_of self.now.standing)).cases (changed change.now (folded_of self.now.standing)).next }
        requires labels { AreLabelled (changed change.now (folded_of self.now.standing)).version (changed change.now (folded_of self.now.standing)).cases }
        ensures step { SnapshotStep self.now.standing (changed change.now (folded_of self.now.standing)) result }
        ensures run { RunsSnapshot D.Disk disk.old disk.new self.now.standing (changed change.now (folded_of self.now.standing)) }
        ensures header { IsTrue (D.is_honest disk.old) → OnOk result (HasHeader self.now.standing version (D.seen disk.new)) }
        ensures holds { IsTrue (D.is_honest disk.old)
            → OnOk result (Holds D.Disk disk.new (rewritten self.now.standing (changed change.now (folded_of self.now.standing)))) }
        ensures untouched { PutLeaves result disk.old disk.new }
        ensures cause { result ≡ Err JournalFault.Disk → HasRisen (D.failures disk.old) (D.failures disk.new) }
    {
        let measure = measure_snapshot(
            self.entries.as_slice(),
            self.shape,
            self.generation,
            change,
        )?;
        let target = self.target(version, next);
        let half = self.shape.half_length();
        write_snapshot(
            self.alloc(),
            disk,
            target,
            self.entries.as_slice(),
            change,
            measure,
            half,
        )?;
        Ok(JournalEnd {
            half: other_half(self.half),
            generation: target.generation,
            used: measure.used,
        })
    }

    // The place at which the journal is written anew: the other half, with the next generation.
    fn target(&self, version: u32, next: u64) -> Target
        requires { self.now.standing.generation + 1 < 2 ^ 64 }
        ensures start { result.start ≡ other_start self.now.standing }
        ensures version { result.version ≡ version }
        ensures generation { result.generation ≡ self.now.standing.generation + 1 }
        ensures next { result.next ≡ next }
    {
        Target {
            start: self.shape.half_start(other_half(self.half)),
            version,
            generation: self.generation + 1,
            next,
        }
    }

    // A fault of the disk stops it.
    pub(crate) fn note_fault(&mut self, fault: JournalFault)
        requires { self.old.stopped ≡ false }
        ensures { self.new ≡ noted fault self.old }
    {
        self.stopped = fault == JournalFault::Disk;
    }

    // The next record goes there.
    pub(crate) fn move_to(&mut self, place: JournalEnd)
        requires header { 32 ≤ place.used }
        requires gate { place.used + 1 ≤ half_length self.old.standing.shape }
        ensures { self.new ≡ moved self.old place }
    {
        self.half = place.half;
        self.generation = place.generation;
        self.used = place.used;
    }
}
