//! A name's text, as it is put together.
ghost use Rattle.std.specs.Prelude.{◌≡◌, ◌<◌, ◌≤◌, length, take};

use arrayvec::ArrayVec;
use itoa::Buffer;

// A text of any length. No more of it is kept than shows whether it is a name.
#[derive(Drop)]
pub(crate) struct NameText {
    pub(crate) front: ArrayVec<u8, 129>,
}

impl NameText {
    ghost use Rattle.std.specs.Prelude.{ℕ, List, [], ◌++◌, map, decimal};
    ghost use Rattle.stream_names.specs.Expansion.{without_slash};
    ghost use Rattle.stream_names.specs.Naming.{KeepsText};

    // The empty text.
    pub(crate) fn new() -> Self
        ensures { KeepsText [] result }
    {
        NameText {
            front: ArrayVec::new(),
        }
    }

    // Appends a text.
    pub(crate) fn add(&mut self, piece: &[u8])
        ensures { (text : List ℕ) → KeepsText text self.old → KeepsText (text ++ piece.now) self.new }
    {
        let room = self.front.remaining_capacity();
        let _ = self.front.try_extend_from_slice(front_of(piece, room));
    }

    // Appends a number in decimal.
    pub(crate) fn add_number(&mut self, number: u64)
        ensures { (text : List ℕ) → KeepsText text self.old → KeepsText (text ++ decimal number) self.new }
    {
        let mut buffer = Buffer::new();
        self.add(buffer.format(number).as_bytes());
    }

    // Appends a path, each `/` of it as `!`.
    pub(crate) fn add_path(&mut self, path: &[u8])
        ensures { (text : List ℕ) → KeepsText text self.old → KeepsText (text ++ map without_slash path.now) self.new }
    {
        for byte in path {
            self.add(&[if *byte == b'/' { b'!' } else { *byte }]);
        }
    }
}

// The first bytes of a piece, at most `most`.
pub(crate) fn front_of(piece: &[u8], most: usize) -> &[u8]
    ensures front { result.now ≡ take most piece.now }
    ensures short { length piece.now ≤ most → result.now ≡ piece.now }
    ensures long { most < length piece.now → length result.now ≡ most }
{
    if piece.len() <= most {
        piece
    } else {
        piece.split_at(most).0
    }
}
