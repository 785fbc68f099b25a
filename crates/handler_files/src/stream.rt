// A stream goes to a file, piece by piece.
ghost use Rattle.std.specs.Prelude.{◌≡◌, ◌<◌, ◌≤◌, ℕ, List, [], None, Some, length, take, drop, OnOk, IsNone, IsSome, IfSome};
ghost use Rattle.std.specs.Io.KnownBytes.{Appends};
ghost use Rattle.handler_files.specs.Stream.{PassesOn, EndsAt, StepsTo};

use crate::piece::Piece;
use disk_model::FileFault;
use std::io::{Read, Write};

/// Why no more of a stream went on.
#[derive(Clone, Copy, PartialEq, Eq)]
pub enum End {
    /// It has ended: all of it has gone on.
    Whole,
    /// As many bytes as were wanted have gone on.
    Most,
    /// It could not be read.
    Unread,
    /// The file could not be written. The piece has the bytes that were read and have not gone on.
    Unwritten(FileFault),
}

/// How much of a stream has gone on.
#[derive(Clone, Copy, PartialEq, Eq)]
pub struct Passed {
    /// How many bytes.
    pub bytes: u64,
    /// Why no more.
    pub end: End,
}

/// Passes the bytes of a stream on to a writer, at most so many. No byte is lost, however it ends: the first ones were written, the next ones
/// are in the piece, and the others are still to come.
pub fn pass_on<I: Read, W: Write>(
    input: &mut I,
    writer: &mut W,
    piece: &mut Piece,
    most: u64,
) -> Passed
    ensures passes { (xs : List ℕ) → I.remaining input.old ≡ Some xs
        → PassesOn xs result.bytes (W.contents writer.old) (W.contents writer.new) piece.new (I.remaining input.new) }
    ensures ends { EndsAt result.end result.bytes most piece.new (I.remaining input.new) }
    ensures within { result.bytes ≤ most }
{
    piece.clear();
    let mut bytes = 0u64;
    while bytes < most {
        let (count, end) = pass_piece(input, writer, piece, most - bytes);
        bytes += count;
        match end {
            None => {}
            Some(end) => return Passed { bytes, end },
        }
    }
    Passed {
        bytes,
        end: End::Most,
    }
}

// Passes a piece of a stream on, of at most so many bytes. Returns how many bytes went on, and why no more follow.
fn pass_piece<I: Read, W: Write>(
    input: &mut I,
    writer: &mut W,
    piece: &mut Piece,
    most: u64,
) -> (u64, Option<End>)
    ensures passes { (xs : List ℕ) → I.remaining input.old ≡ Some xs
        → PassesOn xs result.0 (W.contents writer.old) (W.contents writer.new) piece.new (I.remaining input.new) }
    ensures within { result.0 ≤ most }
    ensures steps { 0 < most → StepsTo result.0 result.1 piece.new (I.remaining input.new) }
{
    let Ok(read) = piece.fill(input, most) else {
        return (0, Some(End::Unread));
    };
    if read == 0 {
        return (0, Some(End::Whole));
    }
    let (count, sent) = send(writer, piece.bytes());
    piece.skip(count);
    match sent {
        Ok(()) => (count as u64, None),
        Err(fault) => (count as u64, Some(End::Unwritten(fault))),
    }
}

// Writes bytes, in as many writes as it takes. Returns how many of them were taken.
fn send<W: Write>(writer: &mut W, bytes: &[u8]) -> (usize, Result<(), FileFault>)
    ensures count { result.0 ≤ length bytes.now }
    ensures written { Appends (W.contents writer.old) (W.contents writer.new) (take result.0 bytes.now) }
    ensures all { OnOk result.1 (result.0 ≡ length bytes.now) }
{
    let mut sent = 0;
    while sent < bytes.len() {
        match writer.write(bytes.split_at(sent).1) {
            Ok(0) => return (sent, Err(FileFault::Full)),
            Ok(count) => sent += count,
            Err(error) => return (sent, Err(FileFault::from(error))),
        }
    }
    (sent, Ok(()))
}
