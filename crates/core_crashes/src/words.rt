// Words of memory, by pieces of the image.
ghost use Rattle.std.specs.Prelude.{◌≡◌, ◌+◌, ◌*◌, ◌^◌, ◌≤◌, ◌++◌, ◌∷◌, [], ℕ, List, IfOk, OnOk};
ghost use Rattle.address_space.specs.SpaceWords.{core_of, space_of};
ghost use Rattle.intake.specs.Parts.{Parts, state_of};
ghost use Rattle.core_crashes.specs.CaseReading.{HasLength, HasPieces, IsOnlyRead, IsSeenIn, IsWordAt, ReadsWord, ReadsWords};

use crate::pieces::{Piece, lent, push_piece, read_piece};
use address_space::AddressSpace;
use disk_model::Disk;
use intake::{Archive, ArchiveFault};
use seen_memory::{SeenMemory, Unread};
use std::alloc::{AllocError, Global};

// How often a word is looked for at most: each time one byte more of its eight is at hand.
const ROUNDS: u64 = 9;

// The word at an address, by these pieces of an image and its first bytes; or a place of the image whose byte is wanted.
fn look(
    alloc: Global,
    front: &[u8],
    size: usize,
    space: &AddressSpace<'_>,
    pieces: &[Piece],
    address: u64,
) -> Result<Result<Option<u64>, Unread>, AllocError>
    requires { front.now ≡ core_of space.now }
    ensures { IfOk result (IsSeenIn front.now size (space_of space.now) pieces.now address) }
{
    let parts = lent(alloc, pieces)?;
    let memory = SeenMemory {
        space,
        front,
        size: size as u64,
        parts: &parts,
    };
    Ok(memory.word(address))
}

// The word at an address. The pieces of the image that are wanted are read.
fn word_by<D: Disk>(
    alloc: Global,
    seq: u32,
    size: usize,
    front: &[u8],
    space: &AddressSpace<'_>,
    pieces: &mut Vec<Piece>,
    address: u64,
    archive: &mut Archive<D>,
) -> Result<Option<u64>, ArchiveFault>
    requires has { HasLength (state_of archive.old) seq size }
    requires own { front.now ≡ core_of space.now }
    ensures told { IfOk result (λ word. (start : Parts D) → IsOnlyRead D.Disk start archive.old → HasPieces D.Disk start seq size front.now pieces.old.items
        → IsWordAt D.Disk start seq size front.now (space_of space.now) address word) }
    ensures reads { IfOk result (λ word. (start : Parts D) → IsOnlyRead D.Disk start archive.old → IsOnlyRead D.Disk start archive.new) }
    ensures pieces { IfOk result (λ word. (start : Parts D) → IsOnlyRead D.Disk start archive.old → HasPieces D.Disk start seq size front.now pieces.old.items
        → HasPieces D.Disk start seq size front.now pieces.new.items) }
    ensures has { IfOk result (λ word. HasLength (state_of archive.new) seq size) }
{
    for _round in 0..ROUNDS {
        let seen = look(alloc, front, size, space, pieces, address)?;
        match seen {
            Ok(word) => return Ok(word),
            Err(unread) => {
                let piece = read_piece(alloc, seq, size, unread.place, archive)?;
                push_piece(pieces, piece)?;
            }
        }
    }
    Err(ArchiveFault::OutOfMemory)
}

/// The word at an address: the little-endian number in the eight bytes there, or `None` if the memory does not have one of them. The space is
/// that of the first bytes of the case's image. Of the rest only the bytes are read that give the word.
///
/// # Errors
///
/// Those of `image_part` of intake. `OutOfMemory`: there is no memory.
pub fn word_in_case<D: Disk>(
    alloc: Global,
    seq: u32,
    size: usize,
    front: &[u8],
    space: &AddressSpace<'_>,
    address: u64,
    archive: &mut Archive<D>,
) -> Result<Option<u64>, ArchiveFault>
    requires has { HasLength (state_of archive.old) seq size }
    requires own { front.now ≡ core_of space.now }
    ensures { IfOk result (λ word. ReadsWord D.Disk archive.old seq size front.now (space_of space.now) address word archive.new) }
{
    let mut pieces = Vec::new(alloc);
    let word = word_by(
        alloc,
        seq,
        size,
        front,
        space,
        &mut pieces,
        address,
        archive,
    )?;
    Ok(word)
}

// Puts a word after the others.
fn push_word(words: &mut Vec<Option<u64>>, word: Option<u64>) -> Result<(), AllocError>
    ensures { OnOk result (words.new.items ≡ words.old.items ++ word ∷ []) }
{
    words.push(word)?;
    Ok(())
}

/// The words at this many addresses, each eight after the one before: the little-endian number in
/// the eight bytes there, or `None` if the memory does not have one of them. The space is that of
/// the first bytes of the case's image. Of the rest only the bytes are read that give the words.
///
/// # Errors
///
/// Those of `image_part` of intake. `OutOfMemory`: there is no memory.
pub fn words_in_case<D: Disk>(
    alloc: Global,
    seq: u32,
    size: usize,
    front: &[u8],
    space: &AddressSpace<'_>,
    first: u64,
    count: u64,
    archive: &mut Archive<D>,
) -> Result<Vec<Option<u64>>, ArchiveFault>
    requires has { HasLength (state_of archive.old) seq size }
    requires own { front.now ≡ core_of space.now }
    requires in_range { first + 8 * count ≤ 2 ^ 64 }
    ensures { IfOk result (λ words. ReadsWords D.Disk archive.old seq size front.now (space_of space.now) first count words.items archive.new) }
{
    let mut pieces = Vec::new(alloc);
    let mut words = Vec::new(alloc);
    for index in 0..count {
        let address = first + 8 * index;
        let word = word_by(
            alloc,
            seq,
            size,
            front,
            space,
            &mut pieces,
            address,
            archive,
        )?;
        push_word(&mut words, word)?;
    }
    Ok(words)
}
