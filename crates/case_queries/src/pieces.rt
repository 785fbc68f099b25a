// Pieces of a core's image that are read one by one, as they are wanted.
ghost use Rattle.std.specs.Prelude.{◌≡◌, ◌+◌, ◌-◌, ◌<◌, ◌≤◌, ◌++◌, ℕ, List, IfOk, OnOk, length, map};
ghost use Rattle.intake.specs.Parts.{Parts, state_of};
ghost use Rattle.case_queries.specs.Fronts.{HasSize};
ghost use Rattle.case_queries.specs.Pieces.{ApartFrom, AreApart, AreBeside, BeginsWith, HasRead, IsBesidePiece, ReadsPiece, SeesMore, SeesPieces, piece_view};
ghost use Rattle.case_queries.specs.PieceWords.{lent_view};
ghost use Rattle.case_queries.specs.declared.window.Part as windows;

use crate::walk::{CaseImage, WalkFault};
use crate::window::Part;
use address_space::ImageRange;
use disk_model::Disk;
use intake::Archive;
use std::alloc::{AllocError, Global};

// How many bytes a piece has at most. It begins at a multiple of this, if the bytes from there on are not read yet.
const PIECE: u64 = 65_536;

// The most pieces of an image that are read for a line. If it wants more there is no memory for it.
pub(crate) const MOST: u64 = 4096;

// The pieces, lent. The error is that there is no memory for the list of them.
pub(crate) fn lent_pieces<'a>(
    alloc: Global,
    pieces: &'a [Part],
) -> Result<Vec<seen_memory::Part<'a>>, AllocError>
    ensures { IfOk result (λ v. map lent_view v.items ≡ map piece_view pieces.now) }
{
    let mut all = Vec::with_capacity(alloc, pieces.len())?;
    for piece in pieces {
        all.push(seen_memory::Part {
            at: piece.at,
            bytes: &piece.bytes,
        })?;
    }
    Ok(all)
}

// The places around one, of an image of `size` bytes, that are read together: they are not among its first bytes.
fn around(place: u64, first: u64, size: u64) -> ImageRange
    requires after { first ≤ place }
    requires within { place < size }
    ensures has { (result.start ≤ place) × (place < result.past) }
    ensures after { first ≤ result.start }
    ensures within { result.past ≤ size }
    ensures few { result.past - result.start ≤ 65536 }
{
    let begin = place - place % PIECE;
    ImageRange {
        start: begin.max(first),
        past: begin.saturating_add(PIECE).min(size),
    }
}

// Those of the places around one that are not in a piece.
fn without(range: ImageRange, place: u64, piece: &Part) -> ImageRange
    requires has { (range.start ≤ place) × (place < range.past) }
    requires beside { IsBesidePiece place piece.now }
    ensures has { (result.start ≤ place) × (place < result.past) }
    ensures inside { (range.start ≤ result.start) × (result.past ≤ range.past) }
    ensures apart { ApartFrom result.start result.past piece.now }
{
    if place < piece.at {
        return ImageRange {
            start: range.start,
            past: range.past.min(piece.at),
        };
    }
    let end = piece.at.saturating_add(piece.bytes.len() as u64);
    ImageRange {
        start: range.start.max(end),
        past: range.past,
    }
}

// The same of some pieces.
fn without_all(range: ImageRange, place: u64, pieces: &[Part]) -> ImageRange
    requires has { (range.start ≤ place) × (place < range.past) }
    requires beside { AreBeside place pieces.now }
    ensures has { (result.start ≤ place) × (place < result.past) }
    ensures inside { (range.start ≤ result.start) × (result.past ≤ range.past) }
    ensures apart { AreApart result.start result.past pieces.now }
{
    let mut left = range;
    for piece in pieces {
        left = without(left, place, piece);
    }
    left
}

// Reads a range of a case's image.
fn read_piece<D: Disk>(
    alloc: Global,
    image: CaseImage<'_>,
    range: ImageRange,
    archive: &mut Archive<D>,
) -> Result<Part, WalkFault>
    requires has { HasSize (state_of archive.old) image.seq image.size }
    requires range { range.start ≤ range.past }
    requires within { range.past ≤ image.size }
    ensures { ReadsPiece D.Disk archive.old image.entry.seq range.start (range.past - range.start) result archive.new }
{
    let count = (range.past - range.start) as usize;
    let Ok(mut bytes) = Vec::with_capacity(alloc, count) else {
        return Err(WalkFault::OutOfMemory);
    };
    bytes.resize(count, 0).unwrap();
    match archive.image_part(image.seq, range.start, &mut bytes) {
        Ok(()) => Ok(Part {
            at: range.start,
            bytes,
        }),
        Err(fault) => Err(WalkFault::Unread(fault)),
    }
}

// Reads the bytes around a place of a case's image that are not read yet. That one is not.
pub(crate) fn read_more<D: Disk>(
    alloc: Global,
    image: CaseImage<'_>,
    place: u64,
    pieces: &mut Vec<Part>,
    archive: &mut Archive<D>,
) -> Result<(), WalkFault>
    requires has { HasSize (state_of archive.old) image.seq image.size }
    requires after { length image.front.now ≤ place }
    requires beside { AreBeside place pieces.old.items }
    requires within { place < image.size }
    ensures sees { (before : Parts D) → SeesPieces D.Disk before image.entry pieces.old.items archive.old → SeesMore D.Disk before image.entry pieces.new.items result archive.new }
    ensures read { HasRead image.entry pieces.old.items result pieces.new.items }
    ensures behind { OnOk result ((more : List windows.Part) × (pieces.new.items ≡ pieces.old.items ++ more)) }
    ensures has { OnOk result (HasSize (state_of archive.new) image.entry.seq image.entry.size) }
{
    if pieces.len() as u64 >= MOST {
        return Err(WalkFault::OutOfMemory);
    }
    let around = around(place, image.front.len() as u64, image.size as u64);
    let range = without_all(around, place, pieces);
    let piece = read_piece(alloc, image, range, archive)?;
    let Ok(()) = pieces.push(piece) else {
        return Err(WalkFault::OutOfMemory);
    };
    Ok(())
}
