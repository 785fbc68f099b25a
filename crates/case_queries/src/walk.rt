// The image of a core, read window by window while its memory is searched.
ghost use Rattle.std.specs.Prelude.{◌≡◌, ◌+◌, ◌<◌, ◌≤◌, ◌^◌, ℕ, [], Err, OnErr, OnOk, length, vec_capacity};
ghost use Rattle.address_space.specs.Source.{Space};
ghost use Rattle.intake.specs.Parts.{Parts, state_of};
ghost use Rattle.case_queries.specs.Fronts.{HasSize};
ghost use Rattle.case_queries.specs.Walking.{HasStep, HasValues, IsAt, LeadsOn, Walks, address_after};
ghost use Rattle.windowed_search.specs.ScanWords.{Aim, HasScanned, aimed_at, next_address};
ghost use Rattle.windowed_search.specs.Runs.{values_from};
ghost use Rattle.windowed_search.specs.StepWords.{StepsFit, count_of, place_after};

use crate::window::read_range;
use address_space::ImageRange;
use disk_model::Disk;
use intake::{Archive, ArchiveFault};
use windowed_search::{MemoryScan, Step};

// How many bytes of an image are read at once.
pub(crate) const PIECE: u64 = 131_072;

/// The image of a case, of which the first bytes are at hand.
#[derive(Clone, Copy)]
pub struct CaseImage<'f> {
    /// The number of the case.
    pub seq: u32,
    /// How many bytes the image has.
    pub size: usize,
    /// The first of them.
    pub front: &'f [u8],
}

// The place up to which the image is read, the piece of it that was read last, and the search of the values so far.
#[derive(Drop)]
pub(crate) struct Walk<'n> {
    pub(crate) at: u64,
    pub(crate) buffer: Vec<u8>,
    pub(crate) search: MemoryScan<'n>,
}

/// Why a walk through an image stops.
#[derive(Clone, Copy)]
pub enum WalkFault {
    /// The image can't be read.
    Unread(ArchiveFault),
    /// There is no memory for the results.
    OutOfMemory,
}

impl<'n> Walk<'n> {
    // Reads the next `count` bytes of the image.
    fn read<D: Disk>(
        &mut self,
        image: CaseImage<'_>,
        count: u64,
        archive: &mut Archive<D>,
    ) -> Result<(), WalkFault>
        requires has { HasSize (state_of archive.old) image.seq image.size }
        requires within { self.old.at + count ≤ image.size }
        requires few { count ≤ 131072 }
        requires buffer { 131072 ≤ vec_capacity self.old.buffer }
        ensures has { OnOk result (HasSize (state_of archive.new) image.entry.seq image.entry.size) }
        ensures at { OnOk result (self.new.at ≡ self.old.at + count) }
        ensures search { self.new.search ≡ self.old.search }
        ensures buffer { 131072 ≤ vec_capacity self.new.buffer }
        ensures long { length self.new.buffer.items ≡ count }
        ensures walks { (before : Parts D) (space : Space) (aim : Aim) → IsAt D.Disk before space aim image.entry self.old archive.old
            → Walks D.Disk before space aim image.entry self.new archive.new result }
    {
        let range = ImageRange {
            start: self.at,
            past: self.at + count,
        };
        self.buffer.clear();
        match read_range(
            image.seq,
            image.size,
            image.front,
            range,
            &mut self.buffer,
            archive,
        ) {
            Ok(()) => {
                self.at += count;
                Ok(())
            }
            Err(fault) => Err(WalkFault::Unread(fault)),
        }
    }

    // Reads the next `count` bytes of the image, which are the values of the next addresses.
    fn take_piece<D: Disk>(
        &mut self,
        image: CaseImage<'_>,
        count: u64,
        archive: &mut Archive<D>,
    ) -> Result<(), WalkFault>
        requires has { HasSize (state_of archive.old) image.seq image.size }
        requires within { self.old.at + count ≤ image.size }
        requires few { count ≤ 131072 }
        requires buffer { 131072 ≤ vec_capacity self.old.buffer }
        requires fits { next_address self.old.search + count < 2 ^ 64 }
        ensures has { OnOk result (HasSize (state_of archive.new) image.entry.seq image.entry.size) }
        ensures at { OnOk result (self.new.at ≡ self.old.at + count) }
        ensures address { OnOk result (next_address self.new.search ≡ next_address self.old.search + count) }
        ensures buffer { 131072 ≤ vec_capacity self.new.buffer }
        ensures walks { (before : Parts D) (space : Space) (aim : Aim) → IsAt D.Disk before space aim image.entry self.old archive.old
            → HasValues space image.entry (next_address self.old.search) self.old.at count
            → Walks D.Disk before space aim image.entry self.new archive.new result }
    {
        self.read(image, count, archive)?;
        match self.search.feed(&self.buffer) {
            Ok(()) => Ok(()),
            Err(_) => Err(WalkFault::OutOfMemory),
        }
    }

    // The same of any number of bytes, piece by piece.
    fn take<D: Disk>(
        &mut self,
        image: CaseImage<'_>,
        count: u64,
        archive: &mut Archive<D>,
    ) -> Result<(), WalkFault>
        requires has { HasSize (state_of archive.old) image.seq image.size }
        requires within { self.old.at + count ≤ image.size }
        requires buffer { 131072 ≤ vec_capacity self.old.buffer }
        requires fits { next_address self.old.search + count < 2 ^ 64 }
        ensures has { OnOk result (HasSize (state_of archive.new) image.entry.seq image.entry.size) }
        ensures at { OnOk result (self.new.at ≡ self.old.at + count) }
        ensures address { OnOk result (next_address self.new.search ≡ next_address self.old.search + count) }
        ensures buffer { 131072 ≤ vec_capacity self.new.buffer }
        ensures walks { (before : Parts D) (space : Space) (aim : Aim) → IsAt D.Disk before space aim image.entry self.old archive.old
            → HasValues space image.entry (next_address self.old.search) self.old.at count
            → Walks D.Disk before space aim image.entry self.new archive.new result }
    {
        let mut left = count;
        while left > 0 {
            let piece = left.min(PIECE);
            self.take_piece(image, piece, archive)?;
            left -= piece;
        }
        Ok(())
    }

    // Reads the next `count` bytes of the image, which are the value of no address, or of none that is still to come.
    fn skip<D: Disk>(
        &mut self,
        image: CaseImage<'_>,
        count: u64,
        archive: &mut Archive<D>,
    ) -> Result<(), WalkFault>
        requires has { HasSize (state_of archive.old) image.seq image.size }
        requires within { self.old.at + count ≤ image.size }
        requires buffer { 131072 ≤ vec_capacity self.old.buffer }
        ensures has { OnOk result (HasSize (state_of archive.new) image.entry.seq image.entry.size) }
        ensures at { OnOk result (self.new.at ≡ self.old.at + count) }
        ensures search { self.new.search ≡ self.old.search }
        ensures buffer { 131072 ≤ vec_capacity self.new.buffer }
        ensures walks { (before : Parts D) (space : Space) (aim : Aim) → IsAt D.Disk before space aim image.entry self.old archive.old
            → Walks D.Disk before space aim image.entry self.new archive.new result }
    {
        let mut left = count;
        while left > 0 {
            let piece = left.min(PIECE);
            self.read(image, piece, archive)?;
            left -= piece;
        }
        Ok(())
    }

    // Goes on with values that are at hand.
    fn feed(&mut self, values: &[u8]) -> Result<(), WalkFault>
        requires fits { next_address self.old.search + length values.now < 2 ^ 64 }
        ensures others { (self.new.at ≡ self.old.at) × (self.new.buffer ≡ self.old.buffer) }
        ensures address { OnOk result (next_address self.new.search ≡ next_address self.old.search + length values.now) }
        ensures aim { aimed_at self.new.search ≡ aimed_at self.old.search }
        ensures searched { (space : Space) → HasScanned space self.old.search → values_from space (next_address self.old.search) (length values.now) ≡ values.now
            → OnOk result (HasScanned space self.new.search) }
        ensures fault { OnErr result (result ≡ Err WalkFault.OutOfMemory) }
    {
        match self.search.feed(values) {
            Ok(()) => Ok(()),
            Err(_) => Err(WalkFault::OutOfMemory),
        }
    }

    // Goes on behind addresses that have no value.
    fn pass(&mut self, count: u64) -> Result<(), WalkFault>
        requires fits { next_address self.old.search + count < 2 ^ 64 }
        ensures others { (self.new.at ≡ self.old.at) × (self.new.buffer ≡ self.old.buffer) }
        ensures address { OnOk result (next_address self.new.search ≡ next_address self.old.search + count) }
        ensures aim { aimed_at self.new.search ≡ aimed_at self.old.search }
        ensures searched { (space : Space) → HasScanned space self.old.search → values_from space (next_address self.old.search) count ≡ []
            → OnOk result (HasScanned space self.new.search) }
        ensures fault { OnErr result (result ≡ Err WalkFault.OutOfMemory) }
    {
        match self.search.pass(count) {
            Ok(()) => Ok(()),
            Err(_) => Err(WalkFault::OutOfMemory),
        }
    }

    // Goes on with a step.
    fn step<D: Disk>(
        &mut self,
        image: CaseImage<'_>,
        step: Step<'_>,
        archive: &mut Archive<D>,
    ) -> Result<(), WalkFault>
        requires has { HasSize (state_of archive.old) image.seq image.size }
        requires within { place_after self.old.at step ≤ image.size }
        requires buffer { 131072 ≤ vec_capacity self.old.buffer }
        requires fits { next_address self.old.search + count_of step < 2 ^ 64 }
        ensures has { OnOk result (HasSize (state_of archive.new) image.entry.seq image.entry.size) }
        ensures at { OnOk result (self.new.at ≡ place_after self.old.at step.entry) }
        ensures address { OnOk result (next_address self.new.search ≡ next_address self.old.search + count_of step.entry) }
        ensures buffer { 131072 ≤ vec_capacity self.new.buffer }
        ensures walks { (before : Parts D) (space : Space) (aim : Aim) → IsAt D.Disk before space aim image.entry self.old archive.old
            → HasStep space image.entry self.old.at (next_address self.old.search) step.entry
            → Walks D.Disk before space aim image.entry self.new archive.new result }
    {
        match step {
            Step::Core { skipped, count } => {
                self.skip(image, skipped, archive)?;
                self.take(image, count, archive)
            }
            Step::File(bytes) => self.feed(bytes),
            Step::Nothing { count } => self.pass(count),
        }
    }

    // Goes on with these steps.
    pub(crate) fn walk<D: Disk>(
        &mut self,
        image: CaseImage<'_>,
        steps: &[Step<'_>],
        archive: &mut Archive<D>,
    ) -> Result<(), WalkFault>
        requires has { HasSize (state_of archive.old) image.seq image.size }
        requires fit { StepsFit image.size self.old.at (next_address self.old.search) steps.now }
        requires buffer { 131072 ≤ vec_capacity self.old.buffer }
        ensures address { OnOk result (next_address self.new.search ≡ address_after (next_address self.old.search) steps.now) }
        ensures walks { (before : Parts D) (space : Space) (aim : Aim) (b : ℕ) → IsAt D.Disk before space aim image.entry self.old archive.old
            → LeadsOn space image.entry self.old.at (next_address self.old.search) steps.now b
            → Walks D.Disk before space aim image.entry self.new archive.new result }
    {
        for step in steps {
            self.step(image, *step, archive)?;
        }
        Ok(())
    }
}
