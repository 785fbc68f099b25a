// The cases of a damaged archive: those before the first fault, and those after it.
ghost use Rattle.std.specs.Prelude.{◌≡◌, ◌≢◌, ◌↔◌, ◌⊎◌, ◌+◌, ◌≤◌, length, false, true, IfOk, IsTrue, None, Ok, Some, map};
ghost use Rattle.journal_layout.specs.Case.{case_of};
ghost use Rattle.case_journal.specs.Viewing.{IsOpenRefusal};
ghost use Rattle.disk_model.specs.Places.{part};
ghost use Rattle.journal_layout.specs.Layout.{data_start};
ghost use Rattle.journal_layout.specs.Stands.{Stands};
ghost use Rattle.salvage.specs.Cases.{HasCase};
ghost use Rattle.salvage.specs.Contests.{IsUncontested, Knows, OfEachBehind};
ghost use Rattle.salvage.specs.Doubting.{IsBound, trouble_by};
ghost use Rattle.salvage.specs.Fronts.{fronted};
ghost use Rattle.salvage.specs.Readings.{FindsCases, FoundWithin, IsBelow, IsHeldBy, IsMore, IsWholeIn, cases_by, first_fault, reason_by};
ghost use Rattle.salvage.specs.Noting.{KeepsNoted, greatest_copied, next_by};
ghost use Rattle.salvage.specs.Reads.{AreFrom, AreHalvesRead, IsAmong, StayFrom, StayRead};
ghost use Rattle.salvage.specs.Records.{AreDrops, AreIndexed, HasEachBut, IsDeletedAt};
ghost use Rattle.salvage.specs.Shut.{IsShutFound};
ghost use Rattle.salvage.specs.Told.{HasAll, IsAll, copied_cases};
ghost use Rattle.salvage.specs.declared.cases_found.Loss.{Loss};
ghost use Rattle.salvage.specs.declared.cases_found.More.{More};

use crate::cases::has_case;
use crate::choosing::{choose, is_again, size_chosen};
use crate::doubts::{Doubts, Trouble, doubts_of, half_of, taken_half};
use crate::finding::{Sight, find_sight, open_shown};
use crate::fronted::Fronted;
use crate::fronts::make_front;
use crate::mending::Mend;
use crate::noting::{are_noted, last_of, next_by};
use crate::records::{Fate, Read, Scan, Span, number_at};
use crate::shut::find_shut;
use crate::source::Source;
use case_journal::Journal;
use journal_layout::{Entry, Field, Half, OpenFault, Shape};
use std::alloc::{AllocError, Global};

// The bytes of a record of the next number.
const NEXT: usize = 16;

/// A reading of the records of both halves: bytes that replace the superblock and the journal, and the journal that they have.
#[derive(Drop)]
pub struct More {
    pub(crate) front: Vec<u8>,
    pub(crate) journal: Journal,
}

/// The report on a case that is not copied.
#[derive(Clone, Copy, PartialEq, Eq)]
pub(crate) enum Loss {
    /// Its number is that of another case.
    Number,
    /// Its name is.
    Name,
    /// A block of it is.
    Block,
    /// Its records have no room.
    Room,
}

/// The cases of an archive.
#[derive(Drop)]
pub struct Found {
    /// How the archive is read.
    pub sight: Sight,
    /// The first damaged gate of an archive that opens: that of a half, or else that after its records.
    pub shut: Option<u64>,
    // The journal by the records before the first fault.
    pub(crate) first: Journal,
    // The facts of the records of both halves that read by themselves, if there is a fault.
    pub(crate) scan: Scan,
    // Why a case before the first fault is doubtful, if any is.
    doubts: Option<Doubts>,
    // The reading that is copied instead of the archive's records.
    pub(crate) more: Option<More>,
    /// The value that is assumed instead of a damaged superblock, the header of a half, or the file's length.
    pub mend: Option<Mend>,
}

impl Found {
    /// The cases that are copied, in the order of their numbers.
    pub fn entries(&self) -> &[Entry]
        ensures { map case_of result.now ≡ cases_by self.now.more self.now.first.standing }
    {
        match &self.more {
            Some(more) => more.journal.entries(),
            None => self.first.entries(),
        }
    }

    /// Whether a case is copied, with the same facts and the same blocks.
    pub(crate) fn has(&self, entry: &Entry) -> bool
        ensures { IsTrue result ↔ HasCase (cases_by self.now.more self.now.first.standing) (case_of entry.now) }
    {
        match &self.more {
            Some(more) => has_case(&more.journal, entry),
            None => has_case(&self.first, entry),
        }
    }

    /// The shape of the archive.
    pub fn shape(&self) -> Shape
        ensures { result ≡ self.now.first.standing.shape }
    {
        self.first.shape()
    }

    /// Why the opening is refused. If it isn't, the damaged gate, if there is one, as `Damaged` with the field `Gate`.
    pub fn fault(&self) -> Option<OpenFault>
        ensures { result ≡ first_fault self.now }
    {
        match self.shut {
            Some(at) => Some(OpenFault::Damaged {
                at,
                field: Field::Gate,
            }),
            None => self.sight.fault,
        }
    }

    /// The place of the record that deletes a case of this number, if one does that reads.
    pub(crate) fn deleted_at(&self, seq: u32) -> Option<u64>
        ensures { IsDeletedAt self.now.scan.drops.items seq result }
    {
        match self.scan.deleting(seq) {
            Some(place) => Some(place as u64),
            None => None,
        }
    }

    /// Whether there is no fault, or a case precedes the first fault, and neither that fault nor a record that reads makes it doubtful.
    pub fn is_whole(&self, entry: &Entry) -> bool
        ensures whole { IsTrue result → IsWholeIn self.now (case_of entry.now) }
        ensures sound { first_fault self.now ≡ None → self.now.mend ≡ None → result ≡ true }
    {
        if !self.is_held(entry) {
            return false;
        }
        if self.fault().is_none() {
            return true;
        }
        if !has_case(&self.first, entry) || !self.is_below(entry.seq) {
            return false;
        }
        if self.scan.deleting(entry.seq).is_some() || self.is_contested(entry) {
            return false;
        }
        true
    }

    // Whether the shape is the archive's without a doubt, and all blocks of a case are in the file.
    fn is_held(&self, entry: &Entry) -> bool
        ensures held { IsTrue result → IsHeldBy self.now.mend (case_of entry.now) }
        ensures own { self.now.mend ≡ None → result ≡ true }
    {
        match &self.mend {
            Some(mend) => mend.is_sure && mend.holds(entry),
            None => true,
        }
    }

    /// Whether a block of a case is behind the end of the file.
    pub(crate) fn is_cut(&self, entry: &Entry) -> bool
        ensures { IsTrue result → self.now.mend ≢ None }
    {
        match &self.mend {
            Some(mend) => !mend.holds(entry),
            None => false,
        }
    }

    // Whether a number is below the first one that makes a case doubtful.
    fn is_below(&self, seq: u32) -> bool
        ensures { IsTrue result → IsBelow self.now.doubts seq }
    {
        match &self.doubts {
            Some(doubts) => u64::from(seq) < doubts.bound,
            None => false,
        }
    }

    // Whether a record behind the fault stores another case with the number, the name or a block of this one.
    fn is_contested(&self, entry: &Entry) -> bool
        ensures { result ≡ false → IsUncontested self.now.doubts (case_of entry.now) }
    {
        match &self.doubts {
            Some(doubts) => doubts.contest(entry),
            None => true,
        }
    }

    // Why the opening of the archive is refused, as it is.
    fn first_reason(&self) -> Option<OpenFault>
        ensures { result ≡ reason_by self.now.mend self.now.sight.fault }
    {
        match self.mend {
            Some(mend) => Some(mend.fault),
            None => self.sight.fault,
        }
    }

    /// Whether each case that a record stores which reads is copied, and the version of the taken half is known.
    pub fn is_all(&self) -> bool
        ensures { IsTrue result ↔ IsAll self.now }
    {
        if matches!(self.first_reason(), Some(OpenFault::UnknownVersion(_))) {
            return false;
        }
        self.has_all(&self.scan.reads)
    }

    // Whether the case of each of these reads is copied.
    fn has_all(&self, reads: &[Read]) -> bool
        ensures { IsTrue result ↔ HasAll (copied_cases self.now) reads.now }
    {
        for read in reads {
            if !self.has(&read.entry) {
                return false;
            }
        }
        true
    }

    /// Why the case of a read is not copied; none if it is, or if one of the reads before it has it too.
    pub(crate) fn loss(&self, before: &[Read], read: &Read) -> Option<Loss>
        ensures none { result ≡ None → HasCase (copied_cases self.now) (case_of read.now.entry) ⊎ IsAmong before.now (case_of read.now.entry) }
        ensures some { (loss : Loss) → result ≡ Some loss → HasCase (copied_cases self.now) (case_of read.now.entry) → ⊥ }
    {
        if self.has(&read.entry) {
            return None;
        }
        if is_again(before, read) {
            return None;
        }
        Some(loss_of(read.fate))
    }
}

// The reason why a case is reported as lost.
fn loss_of(fate: Fate) -> Loss {
    match fate {
        Fate::Number => Loss::Number,
        Fate::Name => Loss::Name,
        Fate::Block => Loss::Block,
        Fate::Copied | Fate::Same | Fate::Room => Loss::Room,
    }
}

// The place of the first fault, if there is one.
fn trouble_in(sight: Sight, shut: Option<u64>) -> Option<Trouble>
    ensures sound { sight.fault ≡ None → shut ≡ None → result ≡ None }
    ensures trouble { result ≡ None → (sight.fault ≡ None) × (shut ≡ None) }
    ensures said { result ≡ trouble_by sight.fault sight.patch shut }
{
    if let Some(gate) = shut {
        return Some(Trouble {
            gate: gate as usize,
            field: Field::Gate,
            is_refused: false,
        });
    }
    let gate = match sight.patch {
        Some(patch) => patch.at as usize,
        None => 0,
    };
    match sight.fault? {
        OpenFault::Damaged { field, .. } => Some(Trouble {
            gate,
            field,
            is_refused: true,
        }),
        _ => Some(Trouble {
            gate,
            field: Field::Gate,
            is_refused: true,
        }),
    }
}

// The superblock and the journal of an archive of this shape.
pub(crate) fn read_front<S: Source>(
    alloc: Global,
    source: &S,
    shape: Shape,
) -> Result<Vec<u8>, OpenFault>
    ensures long { IfOk result (λ front. length front.items ≡ data_start shape) }
    ensures within { IfOk result (λ front. length front.items ≤ S.size source.now) }
    ensures bytes { IsTrue (S.is_honest source.now) → IfOk result (λ front. front.items ≡ part (S.seen source.now) 0 (data_start shape)) }
    ensures only { IsOpenRefusal result }
{
    let length = shape.data_start();
    if source.length() < length {
        return Err(OpenFault::Disk);
    }
    let Ok(mut front) = vec![in alloc; 0u8; length as usize] else {
        return Err(OpenFault::OutOfMemory);
    };
    let Ok(()) = source.read_at(0, &mut front) else {
        return Err(OpenFault::Disk);
    };
    Ok(front)
}

// The records of both halves that read by themselves.
pub(crate) fn read_halves(alloc: Global, front: &[u8], shape: Shape) -> Result<Scan, OpenFault>
    ensures only { IsOpenRefusal result }
    ensures drops { IfOk result (λ scan. AreDrops front.now scan.drops.items) }
    ensures indexed { IfOk result (λ scan. AreIndexed scan.drops.items scan.dropped) }
    ensures from { IfOk result (λ scan. AreFrom shape.data_blocks front.now scan.reads.items) }
    ensures all { data_start shape ≤ length front.now → IfOk result (λ scan. AreHalvesRead shape front.now scan.reads.items scan.drops.items) }
{
    let mut scan = Scan::new(alloc);
    scan.read_half(alloc, front, half_of(shape, Half::A), shape.data_blocks)?;
    scan.read_half(alloc, front, half_of(shape, Half::B), shape.data_blocks)?;
    Ok(scan)
}

// The number of the next case, after those that are copied.
fn next_of(first: &Journal, bound: u64, reads: &[Read]) -> u64
    ensures { result ≡ next_by first.now.standing.next bound (greatest_copied reads.now) }
{
    next_by(first.next_seq(), bound, last_of(reads))
}

// Whether the records of the cases that are copied leave room in a half for one of the next number, or it needs none.
fn has_room(reads: &[Read], next: u64, half: usize) -> bool {
    next <= u64::from(last_of(reads)) + 1 || size_chosen(reads) <= half
}

// The archive that has the cases which are chosen, if it opens.
fn read_more<S: Source>(
    alloc: Global,
    source: &S,
    front: Vec<u8>,
) -> Result<Option<More>, OpenFault>
    requires { length front.items ≤ S.size source.now }
    ensures long { IfOk result (λ o. (m : More) → o ≡ Some m → m.front.items ≡ front.items) }
    ensures stands { IsTrue (S.is_honest source.now) → IfOk result (λ o. (m : More) → o ≡ Some m → Stands (fronted m.front.items (S.seen source.now)) m.journal.standing) }
    ensures only { IsOpenRefusal result }
{
    let opened = open_front(alloc, source, &front);
    match opened {
        Ok(journal) => Ok(Some(More { front, journal })),
        Err(OpenFault::OutOfMemory) => Err(OpenFault::OutOfMemory),
        Err(OpenFault::Disk) => Err(OpenFault::Disk),
        Err(_) => Ok(None),
    }
}

// Opens the journal of an archive whose first bytes are replaced.
fn open_front<S: Source>(alloc: Global, source: &S, front: &[u8]) -> Result<Journal, OpenFault>
    requires { length front.now ≤ S.size source.now }
    ensures gives { IsTrue (S.is_honest source.now) → IfOk result (λ journal. Stands (fronted front.now (S.seen source.now)) journal.standing) }
{
    let view = Fronted::new(source, front);
    open_shown(alloc, &view, None)
}

// A reading. If it is of an archive of the same shape, has each case of a journal that no record deletes, and keeps the notes, it is given.
fn having_each(
    more: Option<More>,
    first: &Journal,
    scan: &Scan,
    front: &[u8],
    bound: u64,
) -> Option<More>
    ensures { (m : More) → result ≡ Some m → (more ≡ Some m) × HasEachBut scan.now.drops.items m.journal.standing.cases first.now.standing.cases
        × (m.journal.standing.shape ≡ first.now.standing.shape) × KeepsNoted front.now first.now.standing scan.now.reads.items bound m.journal.standing }
{
    let more = more?;
    if !scan.has_each(&more.journal, first) || !is_same_shape(more.journal.shape(), first.shape()) {
        return None;
    }
    if keeps_noted(&more.journal, first, &scan.reads, front, bound) {
        return Some(more);
    }
    None
}

// Whether a journal agrees with the notes about its cases, and has the right next number.
fn keeps_noted(journal: &Journal, first: &Journal, reads: &[Read], front: &[u8], bound: u64) -> bool
    ensures { IsTrue result → KeepsNoted front.now first.now.standing reads.now bound journal.now.standing }
{
    journal.next_seq() == next_of(first, bound, reads) && are_noted(front, reads, journal.entries())
}

fn is_same_shape(one: Shape, other: Shape) -> bool
    ensures { IsTrue result → one ≡ other }
{
    one.half_blocks == other.half_blocks && one.data_blocks == other.data_blocks
}

// The damaged gate of an archive that opens.
fn shut_of<S: Source>(
    alloc: Global,
    source: &S,
    sight: Sight,
    first: &Journal,
) -> Result<Option<u64>, OpenFault>
    ensures finds { IsTrue (S.is_honest source.now) → sight.fault ≡ None → Stands (S.seen source.now) first.now.standing
        → IsShutFound (S.seen source.now) first.now.standing result }
    ensures refused { sight.fault ≢ None → result ≡ Ok None }
{
    if sight.fault.is_some() {
        return Ok(None);
    }
    find_shut(alloc, source, first)
}

// Chooses again, if the records of the cases that are chosen leave no room for one of the next number.
fn choose_smaller(
    alloc: Global,
    scan: &mut Scan,
    first: &Journal,
    taken: Span,
    bound: u64,
) -> Result<(), AllocError>
    ensures drops { scan.new.drops ≡ scan.old.drops }
    ensures dropped { scan.new.dropped ≡ scan.old.dropped }
    ensures stay { StayRead scan.old.reads.items scan.new.reads.items }
    ensures from { StayFrom scan.old.reads.items scan.new.reads.items }
{
    let half = first.shape().half_length() as usize;
    let next = next_of(first, bound, &scan.reads);
    if has_room(&scan.reads, next, half) {
        return Ok(());
    }
    choose(alloc, scan, first, taken, half)
}

// Chooses among the cases that records store, and makes the front that says them.
fn choose_front(
    alloc: Global,
    front: &[u8],
    scan: &mut Scan,
    first: &Journal,
    taken: Span,
    bound: u64,
) -> Result<Vec<u8>, AllocError>
    ensures long { IfOk result (λ made. length made.items ≡ length front.now) }
    ensures drops { scan.new.drops ≡ scan.old.drops }
    ensures dropped { scan.new.dropped ≡ scan.old.dropped }
    ensures stay { IfOk result (λ made. StayRead scan.old.reads.items scan.new.reads.items) }
    ensures from { IfOk result (λ made. StayFrom scan.old.reads.items scan.new.reads.items) }
{
    let half = first.shape().half_length() as usize;
    choose(alloc, scan, first, taken, half.saturating_add(NEXT))?;
    choose_smaller(alloc, scan, first, taken, bound)?;
    let next = next_of(first, bound, &scan.reads);
    make_front(alloc, front, &scan.reads, first.version(), next)
}

// The result of a reading of the records of both halves.
fn look_on<S: Source>(
    alloc: Global,
    source: &S,
    first: &Journal,
    trouble: Trouble,
) -> Result<(Scan, Doubts, Option<More>), OpenFault>
    ensures within { IfOk result (λ r. (m : More) → r.2 ≡ Some m → length m.front.items ≤ S.size source.now) }
    ensures drops { IsTrue (S.is_honest source.now) → IfOk result (λ r. AreDrops (part (S.seen source.now) 0 (data_start first.now.standing.shape)) r.0.drops.items) }
    ensures indexed { IfOk result (λ r. AreIndexed r.0.drops.items r.0.dropped) }
    ensures from { IsTrue (S.is_honest source.now) → IfOk result (λ r. AreFrom first.now.standing.shape.data_blocks (part (S.seen source.now) 0 (data_start first.now.standing.shape)) r.0.reads.items) }
    ensures all { IsTrue (S.is_honest source.now) → IfOk result (λ r. AreHalvesRead first.now.standing.shape (part (S.seen source.now) 0 (data_start first.now.standing.shape)) r.0.reads.items r.0.drops.items) }
    ensures bound { IsTrue (S.is_honest source.now) → IfOk result (λ r. IsBound first.now.standing.shape (part (S.seen source.now) 0 (data_start first.now.standing.shape)) trouble r.1.bound) }
    ensures behind { IsTrue (S.is_honest source.now) → IfOk result (λ r. OfEachBehind first.now.standing.shape (part (S.seen source.now) 0 (data_start first.now.standing.shape)) trouble.gate (Knows r.1)) }
    ensures more { IsTrue (S.is_honest source.now) → IfOk result (λ r. (m : More) → r.2 ≡ Some m → IsMore (S.seen source.now) first.now.standing r.0.drops.items r.0.reads.items r.1.bound m) }
    ensures only { IsOpenRefusal result }
{
    let shape = first.shape();
    let front = read_front(alloc, source, shape)?;
    let mut scan = read_halves(alloc, &front, shape)?;
    let doubts = doubts_of(alloc, &front, shape, &scan.reads, trouble)?;
    let taken = half_of(shape, taken_half(shape, trouble.gate));
    let Ok(made) = choose_front(alloc, &front, &mut scan, first, taken, doubts.bound) else {
        return Err(OpenFault::OutOfMemory);
    };
    let more = having_each(
        read_more(alloc, source, made)?,
        first,
        &scan,
        &front,
        doubts.bound,
    );
    Ok((scan, doubts, more))
}

/// Finds the cases of an archive. Those of a sound archive are as its opening finds them. If the first
/// fault is of a record of the taken half, of a gate without which the archive opens without the records
/// after it, or of the header of a half, the cases are those of the records of both halves that read by
/// themselves, as far as they go with one another (see `choose`). Its errors are those of `find_sight`.
pub fn find_cases<S: Source>(alloc: Global, source: &S) -> Result<Found, OpenFault>
    ensures within { IfOk result (FoundWithin (S.size source.now)) }
    ensures finds { IsTrue (S.is_honest source.now) → FindsCases (S.seen source.now) result }
    ensures own { IfOk result (λ found. found.mend ≡ None) }
{
    let sight = find_sight(alloc, source)?;
    let first = open_shown(alloc, source, sight.patch)?;
    let shut = shut_of(alloc, source, sight, &first)?;
    let Some(trouble) = trouble_in(sight, shut) else {
        return Ok(Found {
            sight,
            shut,
            first,
            scan: Scan::new(alloc),
            doubts: None,
            more: None,
            mend: None,
        });
    };
    let (scan, doubts, more) = look_on(alloc, source, &first, trouble)?;
    Ok(Found {
        sight,
        shut,
        first,
        scan,
        doubts: Some(doubts),
        more,
        mend: None,
    })
}

/// The same of an archive that is read with another superblock, other headers or another length than its own.
pub fn find_mended<S: Source>(alloc: Global, source: &S, mend: Mend) -> Result<Found, OpenFault>
    ensures within { IfOk result (FoundWithin (S.size source.now)) }
    ensures finds { IsTrue (S.is_honest source.now) → FindsCases (S.seen source.now) result }
    ensures mend { IfOk result (λ found. found.mend ≡ Some mend) }
{
    let mut found = find_cases(alloc, source)?;
    found.mend = Some(mend);
    Ok(found)
}
