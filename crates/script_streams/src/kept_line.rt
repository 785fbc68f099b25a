//! The part of a line that is kept.
ghost use Rattle.std.specs.Prelude.{◌≡◌, ℕ, ◌+◌, ◌<◌, ◌≤◌, List, ◌++◌, length};
ghost use Rattle.arrayvec.specs.ArrayVec.{array_vec_len};
ghost use Rattle.script_words.specs.Words.{first_visible_of};

use arrayvec::ArrayVec;
use script_words::first_visible;

/// The part that is kept of a line of any length: all of it, up to 1,024 bytes; of a
/// longer one the fact that it is longer; and the first byte that is no space, which
/// shows whether the line is blank or a comment, however long it is. It has a fixed size.
#[derive(Drop)]
pub struct KeptLine {
    bytes: ArrayVec<u8, 1025>,
    first_visible: Option<u8>,
}

impl KeptLine {
    ghost use Rattle.std.specs.Prelude.{◌==◌, nat_lt, [], None};
    ghost use Rattle.script_words.specs.Words.{is_blank_or_comment_line};
    ghost use Rattle.script_streams.specs.Lines.{KeepsLine};

    /// The empty line.
    pub fn new() -> Self
        ensures { KeepsLine [] result }
    {
        KeptLine {
            bytes: ArrayVec::new(),
            first_visible: None,
        }
    }

    /// The line, unless it is too long.
    pub fn text(&self) -> &[u8]
        ensures { (line : List ℕ) → KeepsLine line self.now → length line ≤ 1024 → result.now ≡ line }
    {
        self.bytes.as_slice()
    }

    /// Whether the line has more than 1,024 bytes.
    pub fn is_too_long(&self) -> bool
        ensures { (line : List ℕ) → KeepsLine line self.now → result ≡ nat_lt 1024 (length line) }
    {
        self.bytes.len() == 1025
    }

    /// Whether the line has no reply, however long it is: it is empty or all spaces, or its first byte after spaces is `#`.
    pub fn is_blank_or_comment(&self) -> bool
        ensures { (line : List ℕ) → KeepsLine line self.now → result ≡ is_blank_or_comment_line line }
    {
        match self.first_visible {
            None => true,
            Some(byte) => byte == b'#',
        }
    }

    // Whether the line has no byte.
    pub(crate) fn is_empty(&self) -> bool
        ensures { (line : List ℕ) → KeepsLine line self.now → result ≡ (length line == 0) }
    {
        self.bytes.len() == 0
    }

    // The empty line again.
    pub(crate) fn clear(&mut self)
        ensures { KeepsLine [] self.new }
    {
        self.bytes.clear();
        self.first_visible = None;
    }

    // Appends to the line.
    pub(crate) fn keep(&mut self, piece: &[u8])
        ensures { (line : List ℕ) → KeepsLine line self.old → KeepsLine (line ++ piece.now) self.new }
    {
        self.first_visible = visible_after(self.first_visible, piece);
        keep_front(&mut self.bytes, piece);
    }
}

// The first byte that is no space, of a line that continues.
fn visible_after(so_far: Option<u8>, piece: &[u8]) -> Option<u8>
    ensures { (line : List ℕ) → so_far ≡ first_visible_of line → result ≡ first_visible_of (line ++ piece.now) }
{
    match so_far {
        None => first_visible(piece),
        Some(byte) => Some(byte),
    }
}

// Adds as much of a piece as there is room for.
fn keep_front(bytes: &mut ArrayVec<u8, 1025>, piece: &[u8])
    ensures room { array_vec_len bytes.old ≤ 1025 }
    ensures whole { array_vec_len bytes.new < 1025 → bytes.new.items ≡ bytes.old.items ++ piece.now }
    ensures full { array_vec_len bytes.new ≡ 1025 → 1024 < array_vec_len bytes.old + length piece.now }
    ensures grows { array_vec_len bytes.old ≤ array_vec_len bytes.new }
{
    let room = bytes.remaining_capacity();
    let front = front_of(piece, room);
    let _ = bytes.try_extend_from_slice(front);
}

// The first bytes of a piece, at most `most`.
fn front_of(piece: &[u8], most: usize) -> &[u8]
    ensures short { length piece.now ≤ most → result.now ≡ piece.now }
    ensures long { most < length piece.now → length result.now ≡ most }
{
    if piece.len() <= most {
        piece
    } else {
        piece.split_at(most).0
    }
}
