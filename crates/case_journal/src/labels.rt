// Labels, and the version of the layout that keeps them.
ghost use Rattle.std.specs.Prelude.{◌≡◌, ◌⊎◌, ◌*◌, ◌≤◌, true, false, length, IsTrue, OnOk, IfOk, Err};
ghost use Rattle.disk_model.specs.Disk.{HasRisen};
ghost use Rattle.disk_model.specs.Moments.{LeavesOnly};
ghost use Rattle.disk_model.specs.Places.{SameOutside};
ghost use Rattle.disk_model.specs.Keeping.{KeepsDisk};
ghost use Rattle.journal_layout.specs.Layout.{half_length};
ghost use Rattle.journal_layout.specs.Front.{is_known};
ghost use Rattle.journal_layout.specs.Record.{Label};
ghost use Rattle.journal_layout.specs.Soundness.{IsLabel};
ghost use Rattle.journal_layout.specs.Stands.{Stands};
ghost use Rattle.journal_layout.specs.Rewriting.{fits, other_start, upgraded};
ghost use Rattle.case_journal.specs.Append.{MayFollow, MayLabel, AppendStep, LabelStep, RefusalLeaves};
ghost use Rattle.case_journal.specs.Compacting.{HasHeader, UpgradeStep, PutLeaves};
ghost use Rattle.case_journal.specs.Entering.{relabelled, in_two, PutStep};
ghost use Rattle.journal_snapshot.specs.Filling.{Fills};
ghost use Rattle.case_journal.specs.Journaled.{after_append};
ghost use Rattle.case_journal.specs.Keeping.{Keeps, LeavesEither, LeavesOutside};
ghost use Rattle.case_journal.specs.Putting.{RunsAppend, written_at, written_long};

use crate::compacting::JournalEnd;
use crate::front::LABELS;
use crate::{Journal, JournalFault};
use disk_model::Disk;
use journal_layout::Label;
use journal_records::{label_record, label_size};
use journal_snapshot::Change;

impl Journal {
    /// The version of the archive's layout: 1, or 2, which keeps labels.
    pub fn version(&self) -> u32
        ensures value { result ≡ self.now.standing.version }
        ensures known { is_known result ≡ true }
    {
        self.version
    }

    /// Appends the Label record of a live case, which then has this label. All faults but `Disk` leave the journal and the
    /// disk as they are. Answers, in this order: `Stopped`; `OldVersion` if the archive has version 1 of the layout;
    /// `JournalFull` if neither the record nor the cases with the label, written anew into the other half, have room;
    /// `OutOfMemory`; `Disk`, after which the journal is stopped.
    pub fn append_label<D: Disk>(
        &mut self,
        disk: &mut D,
        seq: u32,
        label: &[u8],
    ) -> Result<(), JournalFault>
        requires keeps { Keeps D.Disk disk.old self.old }
        requires labelable { MayLabel self.old.standing seq label.now }
        ensures step { LabelStep self.old seq label.now result self.new }
        // A refusal leaves the disk as it is, unless the disk failed.
        ensures untouched { RefusalLeaves result disk.old disk.new }
        // Crash-safe at every moment: a crash since the start leaves bytes that encode the cases before or after.
        ensures any_moment { IsTrue (D.is_honest disk.old) → self.old.stopped ≡ false
            → LeavesEither D.Disk disk.old disk.new self.old.standing (Label seq label.now) }
        ensures keeps { Keeps D.Disk disk.new self.new }
        ensures outside { IsTrue (D.is_honest disk.old)
            → LeavesOutside D.Disk disk.old disk.new self.old.standing }
        ensures others { IsTrue (D.is_honest disk.old)
            → SameOutside 4096 (2 * half_length self.old.standing.shape) (D.seen disk.old) (D.seen disk.new) }
        // It writes only one of the two halves: after the records of the taken one, or in the other.
        ensures written { self.old.stopped ≡ false
            → Fills D.Disk disk.old disk.new (written_at self.old.standing (Label seq label.now)) (written_long self.old.standing (Label seq label.now)) }
        ensures disk { KeepsDisk D.Disk disk.old disk.new (result ≡ Err JournalFault.Disk) }
    {
        if self.stopped {
            return Err(JournalFault::Stopped);
        }
        if self.version != LABELS {
            return Err(JournalFault::OldVersion);
        }
        self.enter_label(disk, seq, Label::try_from(label).unwrap())
    }

    // The same on a journal that runs, of version 2 of the layout.
    fn enter_label<D: Disk>(
        &mut self,
        disk: &mut D,
        seq: u32,
        label: Label,
    ) -> Result<(), JournalFault>
        requires keeps { Keeps D.Disk disk.old self.old }
        requires runs { self.old.stopped ≡ false }
        requires sound { MayFollow self.old.standing (Label seq label.items) }
        ensures step { AppendStep self.old (Label seq label.items) result self.new }
        ensures untouched { RefusalLeaves result disk.old disk.new }
        ensures any_moment { IsTrue (D.is_honest disk.old)
            → LeavesEither D.Disk disk.old disk.new self.old.standing (Label seq label.items) }
        ensures keeps { Keeps D.Disk disk.new self.new }
        ensures outside { IsTrue (D.is_honest disk.old)
            → LeavesOutside D.Disk disk.old disk.new self.old.standing }
        ensures others { IsTrue (D.is_honest disk.old)
            → SameOutside 4096 (2 * half_length self.old.standing.shape) (D.seen disk.old) (D.seen disk.new) }
        ensures written { Fills D.Disk disk.old disk.new (written_at self.old.standing (Label seq label.items)) (written_long self.old.standing (Label seq label.items)) }
        ensures disk { KeepsDisk D.Disk disk.old disk.new (result ≡ Err JournalFault.Disk) }
    {
        match self.put_label(disk, seq, &label) {
            Ok(place) => {
                self.move_to(place);
                self.label_entry(seq, label);
                Ok(())
            }
            Err(fault) => {
                self.note_fault(fault);
                Err(fault)
            }
        }
    }

    // Puts the record of a label, or writes the journal anew with it. The label is not set yet.
    fn put_label<D: Disk>(
        &self,
        disk: &mut D,
        seq: u32,
        label: &Label,
    ) -> Result<JournalEnd, JournalFault>
        requires keeps { Keeps D.Disk disk.old self.now }
        requires runs { self.now.stopped ≡ false }
        requires sound { MayFollow self.now.standing (Label seq label.now.items) }
        ensures step { PutStep self.now.standing (Label seq label.now.items) result }
        ensures lies { IfOk result (λ p. 32 ≤ p.used) }
        ensures run { RunsAppend D.Disk disk.old disk.new self.now.standing (Label seq label.now.items) }
        ensures kept { OnOk result (Keeps D.Disk disk.new (after_append self.now (Label seq label.now.items))) }
        ensures untouched { PutLeaves result disk.old disk.new }
        ensures cause { result ≡ Err JournalFault.Disk → HasRisen (D.failures disk.old) (D.failures disk.new) }
    {
        if !self.fits(label_size(label.as_slice())) {
            return self.put_snapshot(disk, &Change::Label(seq, label), self.version, self.next);
        }
        self.put_label_behind(disk, seq, label.as_slice())
    }

    // Puts the record of a label after the others, if it fits.
    fn put_label_behind<D: Disk>(
        &self,
        disk: &mut D,
        seq: u32,
        label: &[u8],
    ) -> Result<JournalEnd, JournalFault>
        requires keeps { Keeps D.Disk disk.old self.now }
        requires runs { self.now.stopped ≡ false }
        requires sound { MayFollow self.now.standing (Label seq label.now) }
        requires in_half { fits self.now.standing (Label seq label.now) ≡ true }
        ensures step { PutStep self.now.standing (Label seq label.now) result }
        ensures run { RunsAppend D.Disk disk.old disk.new self.now.standing (Label seq label.now) }
        ensures kept { OnOk result (Keeps D.Disk disk.new (after_append self.now (Label seq label.now))) }
        ensures untouched { PutLeaves result disk.old disk.new }
        ensures cause { result ≡ Err JournalFault.Disk → HasRisen (D.failures disk.old) (D.failures disk.new) }
    {
        let record = label_record(self.alloc(), seq, label, label_size(label))?;
        self.put_behind(disk, &record)
    }

    // Sets the label of the entry of this number.
    fn label_entry(&mut self, seq: u32, label: Label)
        requires version { self.old.standing.version ≡ 2 }
        requires label { IsLabel label.items }
        ensures { self.new ≡ relabelled self.old seq label.items }
    {
        self.entries.set_label(seq, label);
    }

    /// Rewrites the cases and the number of the next one into the other half, as `compact` does, in version 2 of the
    /// layout, which keeps labels; no case has one yet. On an archive of version 2 it does nothing. It changes no case. All
    /// faults but `Disk` leave the journal and the disk as they are. Answers, in this order: `Stopped`; `JournalFull` if
    /// the snapshot with the gate after it does not fit into the half, or its generation would be 2^64; `OutOfMemory`,
    /// before the first disk call; `Disk`, after which the journal is stopped.
    pub fn upgrade<D: Disk>(&mut self, disk: &mut D) -> Result<(), JournalFault>
        requires keeps { Keeps D.Disk disk.old self.old }
        ensures step { UpgradeStep self.old result self.new }
        // On version 2 the disk is as it was.
        ensures nothing { self.old.standing.version ≡ 2 → disk.new ≡ disk.old }
        // A refusal leaves the disk as it is, unless the disk failed.
        ensures untouched { RefusalLeaves result disk.old disk.new }
        // Crash-safe at every moment: a crash since the start leaves bytes that encode the same cases and next number, in
        // the one version or in the other.
        ensures any_moment { IsTrue (D.is_honest disk.old) → self.old.stopped ≡ false
            → LeavesOnly D.Disk disk.old disk.new (λ c. Stands c self.old.standing ⊎ Stands c (upgraded self.old.standing)) }
        ensures keeps { Keeps D.Disk disk.new self.new }
        ensures outside { IsTrue (D.is_honest disk.old)
            → LeavesOutside D.Disk disk.old disk.new self.old.standing }
        ensures others { IsTrue (D.is_honest disk.old)
            → SameOutside 4096 (2 * half_length self.old.standing.shape) (D.seen disk.old) (D.seen disk.new) }
        // Its header is spelled with zeros where the layout has zeros.
        ensures header { IsTrue (D.is_honest disk.old) → self.old.standing.version ≡ 1 → OnOk result (HasHeader self.old.standing 2 (D.seen disk.new)) }
        // It writes only the half that is not taken.
        ensures written { self.old.stopped ≡ false
            → Fills D.Disk disk.old disk.new (other_start self.old.standing) (half_length self.old.standing.shape) }
        ensures disk { KeepsDisk D.Disk disk.old disk.new (result ≡ Err JournalFault.Disk) }
    {
        if self.stopped {
            return Err(JournalFault::Stopped);
        }
        if self.version == LABELS {
            return Ok(());
        }
        match self.put_snapshot(disk, &Change::Upgrade, LABELS, self.next) {
            Ok(place) => {
                self.move_to(place);
                self.take_version();
                Ok(())
            }
            Err(fault) => {
                self.note_fault(fault);
                Err(fault)
            }
        }
    }

    // The version is 2 from here on.
    fn take_version(&mut self)
        ensures { self.new ≡ in_two self.old }
    {
        self.version = LABELS;
    }
}
