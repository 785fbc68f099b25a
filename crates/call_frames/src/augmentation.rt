// The augmentation of a CIE.
ghost use Rattle.std.specs.Prelude.{◌≡◌, ◌≤◌, ◌<◌, length, IfSome};
ghost use Rattle.std.specs.List.{position};
ghost use Rattle.std.specs.Option.{option_map};
ghost use Rattle.memchr.specs.Find.{is_byte};
ghost use Rattle.call_frames.specs.Augmentation as spec;

use crate::pointers::Width;
use memchr::memchr;

/// The most bytes that an augmentation string has, with its NUL.
const LIMIT: usize = 8;

/// Whether a letter of an augmentation string is known.
fn is_letter(letter: u8) -> bool
    ensures { result ≡ spec.is_letter letter }
{
    matches!(letter, b'R' | b'P' | b'L' | b'S')
}

/// Whether a letter is known, and does not occur after it.
#[tactic(auto, unfolding(crate::specs::Augmentation::is_new_letter))]
fn is_new_letter(letter: u8, others: &[u8]) -> bool
    ensures { result ≡ spec.is_new_letter letter others.now }
{
    is_letter(letter) && !others.contains(&letter)
}

/// Whether all letters are known, and different.
fn are_letters(letters: &[u8]) -> bool
    ensures { result ≡ spec.are_letters letters.now }
{
    for (i, letter) in letters.iter().enumerate() {
        if !is_new_letter(*letter, &letters[i + 1..]) {
            return false;
        }
    }
    true
}

/// Whether a text is an augmentation string that is known.
fn is_augmentation(text: &[u8]) -> bool
    ensures { result ≡ spec.is_augmentation text.now }
{
    match text.split_first() {
        Some((first, letters)) => *first == b'z' && are_letters(letters),
        None => true,
    }
}

/// The place of the first NUL.
fn nul_place(bytes: &[u8]) -> Option<usize>
    ensures { result ≡ position (is_byte 0) bytes.now }
{
    memchr(0, bytes)
}

/// The bytes before the first NUL, which is to be among the first eight, and those after it.
#[tactic(auto, unfolding(crate::specs::Augmentation::split_text))]
fn split_text(bytes: &[u8]) -> Option<(&[u8], &[u8])>
    ensures { option_map (λ r. (r.0.now, r.1.now)) result ≡ spec.split_text bytes.now }
{
    let few = &bytes[..bytes.len().min(LIMIT)];
    let end = nul_place(few)?;
    Some((&bytes[..end], &bytes[end + 1..]))
}

/// The augmentation string at the front, and the bytes after it.
#[tactic(auto, unfolding(crate::specs::Augmentation::augmentation))]
pub(crate) fn augmentation(bytes: &[u8]) -> Option<(&[u8], &[u8])>
    ensures { option_map (λ r. (r.0.now, r.1.now)) result ≡ spec.augmentation bytes.now }
{
    let (text, behind) = split_text(bytes)?;
    if !is_augmentation(text) {
        return None;
    }
    Some((text, behind))
}

/// Whether the pointers of FDEs may have an encoding.
fn is_code_encoding(encoding: u8) -> bool
    ensures { result ≡ spec.is_code_encoding encoding }
{
    Width::of(encoding).is_some() && encoding / 16 < 2
}

/// How many of the bytes at the front are the encoding of a personality routine and the pointer to it.
fn personality_size(bytes: &[u8]) -> Option<usize>
    requires { 0 < length bytes.now }
    ensures size { result ≡ spec.personality_size bytes.now }
    ensures within { IfSome result (λ n. n ≤ length bytes.now) }
{
    let encoding = bytes[0];
    if encoding / 16 % 8 == 5 {
        return None;
    }
    let size = 1 + Width::of(encoding)?.size();
    if bytes.len() < size {
        return None;
    }
    Some(size)
}

/// How many of the bytes at the front are a letter's data, if they are there and sound.
#[tactic(auto, unfolding(crate::specs::Augmentation::letter_size))]
fn letter_size(letter: u8, bytes: &[u8]) -> Option<usize>
    ensures size { result ≡ spec.letter_size letter bytes.now }
    ensures within { IfSome result (λ n. n ≤ length bytes.now) }
{
    if letter == b'S' {
        return Some(0);
    }
    if bytes.is_empty() {
        return None;
    }
    match letter {
        b'R' if !is_code_encoding(bytes[0]) => None,
        b'P' => personality_size(bytes),
        _ => Some(1),
    }
}

/// The encoding of the FDEs' pointers, once the data of a letter are read.
fn encoding_with(letter: u8, bytes: &[u8], encoding: u8) -> u8
    ensures { result ≡ spec.encoding_with letter bytes.now encoding }
{
    if letter != b'R' {
        return encoding;
    }
    match bytes.first() {
        Some(encoding) => *encoding,
        None => 0,
    }
}

/// The encoding of the FDEs' pointers, if the data of the letters are sound.
pub(crate) fn encoding_among(letters: &[u8], bytes: &[u8]) -> Option<u8>
    ensures { result ≡ spec.encoding_among 0 letters.now bytes.now }
{
    let mut encoding = 0;
    let mut rest = bytes;
    for letter in letters {
        let size = letter_size(*letter, rest)?;
        encoding = encoding_with(*letter, rest, encoding);
        rest = &rest[size..];
    }
    Some(encoding)
}
