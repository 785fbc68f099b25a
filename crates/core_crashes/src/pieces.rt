// Pieces of an image of a case.
ghost use Rattle.std.specs.Prelude.{◌≡◌, ◌++◌, ◌∷◌, [], IfOk, OnOk, map};
ghost use Rattle.intake.specs.Parts.{state_of};
ghost use Rattle.core_crashes.specs.CaseReading.{HasLength, ReadsPiece, lent_view, piece_view};

use disk_model::Disk;
use intake::{Archive, ArchiveFault};
use seen_memory::Part;
use std::alloc::{AllocError, Global};

// How many bytes are read at once.
const PIECE: u64 = 512;

// Bytes of an image, from a place on.
#[derive(Drop)]
pub(crate) struct Piece {
    at: u64,
    bytes: Vec<u8>,
}

// The pieces, lent.
pub(crate) fn lent<'p>(alloc: Global, pieces: &'p [Piece]) -> Result<Vec<Part<'p>>, AllocError>
    ensures { IfOk result (λ parts. map lent_view parts.items ≡ map piece_view pieces.now) }
{
    let mut parts = Vec::new(alloc);
    for piece in pieces {
        parts.push(Part {
            at: piece.at,
            bytes: &piece.bytes,
        })?;
    }
    Ok(parts)
}

// Reads the bytes of a case's image from a place on; at most `PIECE`.
pub(crate) fn read_piece<D: Disk>(
    alloc: Global,
    seq: u32,
    size: usize,
    at: u64,
    archive: &mut Archive<D>,
) -> Result<Piece, ArchiveFault>
    requires { HasLength (state_of archive.old) seq size }
    ensures { IfOk result (λ piece. ReadsPiece D.Disk archive.old seq piece archive.new) }
{
    if at >= size as u64 {
        return Err(ArchiveFault::OutOfMemory);
    }
    let count = (size as u64 - at).min(PIECE) as usize;
    let mut bytes = Vec::with_capacity(alloc, count)?;
    bytes.resize(count, 0).unwrap();
    archive.image_part(seq, at, &mut bytes)?;
    Ok(Piece { at, bytes })
}

// Puts a piece after the others.
pub(crate) fn push_piece(pieces: &mut Vec<Piece>, piece: Piece) -> Result<(), AllocError>
    ensures { OnOk result (pieces.new.items ≡ pieces.old.items ++ piece ∷ []) }
{
    pieces.push(piece)?;
    Ok(())
}
