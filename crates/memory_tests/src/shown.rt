//! The values of an address space that tests compare.
use address_space::{AddressSpace, FileSpot, Piece, PieceKind, Source};
use backtrace::{Frames, Stop};
use std::process::Abort;

/// How many addresses there are.
const ADDRESSES: u128 = 0x1_0000_0000_0000_0000;

/// A piece: its kind, first address and length; its bytes or the name of the file that is mapped there; its place in the
/// file.
type Shown<'a> = (&'static str, u64, u64, &'a [u8], u64);

/// The content of a piece.
fn shown(piece: Piece<'_>) -> Shown<'_> {
    let (kind, bytes, offset): (&str, &[u8], u64) = match piece.kind {
        PieceKind::Bytes(bytes) => ("held", bytes, 0),
        PieceKind::FromFile(bytes) => ("from a file", bytes, 0),
        PieceKind::NotDumped(Some(FileSpot { name, offset })) => ("not dumped", name, offset),
        PieceKind::NotDumped(None) => ("not dumped", &[], 0),
        PieceKind::Cut => ("cut", &[], 0),
        PieceKind::Unmapped => ("unmapped", &[], 0),
    };
    (kind, piece.first, piece.length, bytes, offset)
}

/// The first three pieces of a range, or none if it goes past the last address.
fn pieces_of<'a>(space: &AddressSpace<'a>, first: u64, length: u64) -> [Option<Shown<'a>>; 3] {
    if u128::from(first) + u128::from(length) > ADDRESSES {
        return [None; 3];
    }
    let mut pieces = space.pieces(first, length);
    [
        pieces.next().map(shown),
        pieces.next().map(shown),
        pieces.next().map(shown),
    ]
}

/// The first four places of a needle, which is not empty.
fn found(space: &AddressSpace<'_>, needle: &[u8]) -> [Option<u64>; 4] {
    if needle.is_empty() {
        return [None; 4];
    }
    let mut matches = space.find(needle);
    [
        matches.next(),
        matches.next(),
        matches.next(),
        matches.next(),
    ]
}

/// The first four texts of at least that length.
fn texts(space: &AddressSpace<'_>, least: u64) -> [Option<(u64, u128)>; 4] {
    let mut texts = space.strings(least);
    [texts.next(), texts.next(), texts.next(), texts.next()]
}

/// The content of an address: its byte, or a word.
fn source_of(space: &AddressSpace<'_>, address: u64) -> (&'static str, u8) {
    match space.at(address) {
        Source::Byte(byte) => ("byte", byte),
        Source::FromFile(byte) => ("from a file", byte),
        Source::NotDumped(_) => ("not dumped", 0),
        Source::Cut => ("cut", 0),
        Source::Unmapped => ("unmapped", 0),
    }
}

/// Whether these are the frames from this frame pointer on, if the pc is 0x10400, and they end for this reason.
fn has_frames(space: &AddressSpace<'_>, fp: u64, wanted: &[(u64, u64)], stop: Stop) -> bool {
    let mut frames = Frames::new(space, 0x10400, fp);
    for place in wanted {
        let found = frames.next().map(|frame| (frame.pc, frame.fp));
        if found != Some(*place) {
            return false;
        }
    }
    frames.next().is_none() && frames.stop() == Some(stop)
}

/// A look at an address space, with its expected result.
pub(crate) enum Look {
    /// The first three pieces of a range, by its first address and its length.
    Pieces(u64, u64, &'static [Option<Shown<'static>>]),
    /// The content of an address.
    Source(u64, (&'static str, u8)),
    /// The number at an address.
    Number(u64, Option<u64>),
    /// The first four places of a needle.
    Found(&'static [u8], &'static [Option<u64>]),
    /// The first four texts of at least that length.
    Texts(u64, &'static [Option<(u64, u128)>]),
    /// The frames from a frame pointer on, each by its pc and frame pointer, and why they end.
    Frames(u64, &'static [(u64, u64)], Stop),
}

/// Whether the look has its expected result. (A comparison that shows
/// both sides is a part of the check that takes as long as all others.)
fn finds(space: &AddressSpace<'_>, look: &Look) -> bool {
    match look {
        Look::Pieces(first, length, wanted) => {
            pieces_of(space, *first, *length).as_slice() == *wanted
        }
        Look::Source(address, wanted) => source_of(space, *address) == *wanted,
        Look::Number(address, wanted) => space.read_u64(*address) == *wanted,
        Look::Found(needle, wanted) => found(space, needle).as_slice() == *wanted,
        Look::Texts(least, wanted) => texts(space, *least).as_slice() == *wanted,
        Look::Frames(fp, wanted, stop) => has_frames(space, *fp, wanted, *stop),
    }
}

/// Each look has its expected result.
pub(crate) fn shows(rt: &impl Abort, space: &AddressSpace<'_>, looks: &[Look]) {
    for look in looks {
        assert!(rt; finds(space, look));
    }
}
