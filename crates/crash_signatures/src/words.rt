//! The words of a signature.
ghost use Rattle.std.specs.Prelude.{◌≡◌, ◌+◌, ◌≤◌, ◌++◌, length, map, take};
ghost use Rattle.std.specs.Cmp.Lexicographic.{slice_cmp};
ghost use Rattle.arrayvec.specs.ArrayVec.{array_vec_len};
ghost use Rattle.crash_signatures.specs.Words as spec;
ghost use Rattle.crash_signatures.specs.WordViews.{said};

use arrayvec::ArrayVec;
use std::cmp::Ordering;

/// The bytes of a word.
pub type Text = ArrayVec<u8, 256>;

/// The words of a walk's frames, of which at most 96 are looked at.
pub type Words = ArrayVec<Word, 96>;

/// A word of a signature, for one frame.
#[derive(Default, PartialEq, Eq, PartialOrd, Ord, Drop)]
pub struct Word {
    /// The word's bytes.
    pub text: Text,
    /// The word says which kind of place the frame is at. Else it is a name.
    pub is_mark: bool,
}

// The first bytes, at most so many.
pub(crate) fn front(bytes: &[u8], most: usize) -> &[u8]
    ensures value { result.now ≡ take most bytes.now }
    ensures short { length result.now ≤ most }
{
    if bytes.len() <= most {
        return bytes;
    }
    &bytes[..most]
}

// Appends as many of these bytes as there is room for.
#[tactic(auto, using(crate::proofs::TextLemmas::filled))]
pub(crate) fn add(text: &mut Text, bytes: &[u8])
    ensures { text.new.items ≡ take 256 (text.old.items ++ bytes.now) }
{
    let part = front(bytes, 256 - text.len());
    let _ = text.try_extend_from_slice(part);
}

// One text behind another, cut after 256 bytes.
#[tactic(auto, using(crate::proofs::TextLemmas::joins))]
pub(crate) fn joined(front: &[u8], end: &[u8]) -> Text
    ensures { result.items ≡ take 256 (front.now ++ end.now) }
{
    let mut text = Text::new();
    add(&mut text, front);
    add(&mut text, end);
    text
}

// The order of two lists of words.
pub(crate) fn compare(a: &[Word], b: &[Word]) -> Ordering
    ensures { result ≡ slice_cmp spec.word_cmp (map said a.now) (map said b.now) }
{
    a.cmp(b)
}

// Whether two lists of words are the same.
pub(crate) fn are_same(a: &[Word], b: &[Word]) -> bool
    ensures { result ≡ spec.same_words (map said a.now) (map said b.now) }
{
    a == b
}

// A copy of a word.
pub(crate) fn copied(word: &Word) -> Word
    ensures { said result ≡ said word.now }
{
    let mut text = Text::new();
    let _ = text.try_extend_from_slice(word.text.as_slice());
    Word {
        text,
        is_mark: word.is_mark,
    }
}

// Appends copies of words.
pub(crate) fn add_words<const N: usize>(list: &mut ArrayVec<Word, N>, words: &[Word])
    requires room { array_vec_len list.old + length words.now ≤ N }
    ensures value { map said list.new.items ≡ map said list.old.items ++ map said words.now }
    ensures count { array_vec_len list.new ≡ array_vec_len list.old + length words.now }
{
    for word in words {
        list.push(copied(word));
    }
}
