//! The names and the bytes that lines give.
ghost use Rattle.std.specs.Prelude.{◌<◌, length};

use arrayvec::ArrayVec;

/// A name that is the text of a word, and thus not empty.
#[derive(Drop)]
pub struct NameWord {
    /// Its bytes: escapes are read.
    pub text: ArrayVec<u8, 1024>,
    ghost some: { 0 < length text.items },
}

/// Bytes that are looked for.
#[derive(Drop)]
pub struct Needle {
    /// The bytes, 1 to 64 of them.
    pub bytes: ArrayVec<u8, 64>,
    ghost some: { 0 < length bytes.items },
}
