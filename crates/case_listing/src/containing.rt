// Whether an image has bytes somewhere.
ghost use Rattle.std.specs.Prelude.{◌≡◌, ◌+◌, ◌^◌, ◌<◌, ◌≤◌, ◌++◌, ℕ, List, IfOk, Ok, OnOk, Some, length};
ghost use Rattle.intake.specs.Part.{PartCall};
ghost use Rattle.intake.specs.Parts.{state_of};
ghost use Rattle.journal_layout.specs.Case.{Case};
ghost use Rattle.journal_layout.specs.Soundness.{case_numbered};
ghost use Rattle.windowed_search.specs.Places.{places};
ghost use Rattle.windowed_search.specs.SearchWords.{WasFed};
ghost use Rattle.case_listing.specs.Containing.{SeesWhether};
ghost use Rattle.case_queries.specs.Fronts.{HasSize};

use archive_files::Refusal;
use disk_model::Disk;
use intake::Archive;
use std::alloc::Global;
use windowed_search::Search;

// How many bytes of an image are read at a time.
const PIECE: usize = 65_536;

// Reads some bytes of a case's image, from a place on.
fn read_piece<D: Disk>(
    alloc: Global,
    seq: u32,
    at: usize,
    count: usize,
    archive: &mut Archive<D>,
) -> Result<Vec<u8>, Refusal>
    requires fits { (c : Case) → case_numbered seq (state_of archive.old).cases ≡ Some c → at + count ≤ c.len }
    ensures { IfOk result (λ piece. PartCall D.Disk archive.old seq at count (Ok tt) piece.items archive.new) }
{
    let Ok(piece) = Vec::with_capacity(alloc, count) else {
        return Err(Refusal::OutOfMemory);
    };
    let mut piece = piece;
    piece.resize(count, 0).unwrap();
    match archive.image_part(seq, at as u64, &mut piece) {
        Ok(()) => Ok(piece),
        Err(fault) => Err(Refusal::Call(fault)),
    }
}

// Reads the next bytes of a case's image, and searches them: the places of the wanted bytes that end in them are added.
fn search_piece<D: Disk>(
    alloc: Global,
    seq: u32,
    at: usize,
    count: usize,
    search: &mut Search<'_>,
    found: &mut Vec<u64>,
    archive: &mut Archive<D>,
) -> Result<(), Refusal>
    requires fits { (c : Case) → case_numbered seq (state_of archive.old).cases ≡ Some c → at + count ≤ c.len }
    requires small { search.old.first + length search.old.tail.items + count < 2 ^ 64 }
    ensures needle { search.new.needle ≡ search.old.needle }
    ensures next { OnOk result (search.new.first + length search.new.tail.items ≡ search.old.first + length search.old.tail.items + count) }
    ensures found { (fed : List ℕ) → WasFed search.old 0 fed → found.old.items ≡ places search.old.needle.now 0 fed
        → OnOk result ((bytes : List ℕ) × (length bytes ≡ count) × PartCall D.Disk archive.old seq at count (Ok tt) bytes archive.new
        × WasFed search.new 0 (fed ++ bytes) × (found.new.items ≡ places search.old.needle.now 0 (fed ++ bytes))) }
{
    let piece = read_piece(alloc, seq, at, count, archive)?;
    match search.feed(&piece, found) {
        Ok(()) => Ok(()),
        Err(_) => Err(Refusal::OutOfMemory),
    }
}

// Whether the image of a case of `size` bytes has these bytes somewhere. It is read piece by piece, to its end or to the first piece in which
// they end.
pub(crate) fn image_has<D: Disk>(
    alloc: Global,
    seq: u32,
    size: usize,
    sought: &[u8],
    archive: &mut Archive<D>,
) -> Result<bool, Refusal>
    requires has { HasSize (state_of archive.old) seq size }
    requires some { 0 < length sought.now }
    ensures { IfOk result (λ has. SeesWhether D.Disk archive.old seq size sought.now has archive.new) }
{
    let mut search = Search::new(alloc, sought);
    let mut found = Vec::new(alloc);
    let mut at = PIECE.min(size);
    search_piece(alloc, seq, 0, at, &mut search, &mut found, archive)?;
    while at < size && found.is_empty() {
        let count = PIECE.min(size - at);
        search_piece(alloc, seq, at, count, &mut search, &mut found, archive)?;
        at += count;
    }
    Ok(!found.is_empty())
}
