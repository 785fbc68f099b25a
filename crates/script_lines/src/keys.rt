// The words of a line that are pairs of a key and a value.
ghost use Rattle.std.specs.Prelude.{◌≡◌, ◌≤◌, ◌^◌, ◌-◌, length, option_map};
ghost use Rattle.script_words.specs.Pairs.{pair_of};
ghost use Rattle.script_words.specs.WordsLeft.{word_bytes, words_left};
ghost use Rattle.script_lines.specs.Keys.{is_text_key, is_small_key, is_large_key, core_kind, retire_kind, value_kind, is_good_value, value_if, value_of, is_first_pair, are_pairs, text_at, small_at, large_at};
ghost use Rattle.script_lines.specs.LineWords.{AreWords};

use arrayvec::ArrayVec;
use script_words::{Words, decode_text, parse_number, parse_u32, split_pair};

// The lines that hold pairs.
#[derive(Clone, Copy)]
pub(crate) enum Keys {
    // `begin core`.
    Core,
    // `retire`.
    Retire,
}

// The kind of value that a key has.
#[derive(Clone, Copy)]
pub(crate) enum ValueKind {
    // A text.
    Text,
    // A number of 32 bits.
    Small,
    // A number of 64 bits.
    Large,
}

// Whether each word is a pair of a key that the line knows and a value for it, and no key is there twice.
pub(crate) fn are_pairs(keys: Keys, words: Words<'_>) -> bool
    requires { AreWords (words_left words) }
    ensures { result ≡ are_pairs keys (words_left words.entry) }
{
    let mut rest = words;
    while let Some(word) = rest.next() {
        if !is_first_pair(keys, word, rest) {
            return false;
        }
    }
    true
}

// Whether a word is such a pair, and none of the words after it has its key.
fn is_first_pair(keys: Keys, word: &[u8], behind: Words<'_>) -> bool
    requires { length word.now ≤ 1024 }
    ensures { result ≡ is_first_pair keys word.now (words_left behind.entry) }
{
    let Some((key, value)) = split_pair(word) else {
        return false;
    };
    is_good_value(value_kind(keys, key), value) && value_of(behind, key).is_none()
}

// The kind of value that a key has, if the line knows the key.
fn value_kind(keys: Keys, key: &[u8]) -> Option<ValueKind>
    ensures { result ≡ value_kind keys key.now }
{
    match keys {
        Keys::Core => core_kind(key),
        Keys::Retire => retire_kind(key),
    }
}

// The kind of value that a key of `begin core` has.
fn core_kind(key: &[u8]) -> Option<ValueKind>
    ensures { result ≡ core_kind key.now }
{
    if is_text_key(key) {
        Some(ValueKind::Text)
    } else if is_small_key(key) {
        Some(ValueKind::Small)
    } else if is_large_key(key) {
        Some(ValueKind::Large)
    } else {
        None
    }
}

fn is_text_key(key: &[u8]) -> bool
    ensures { result ≡ is_text_key key.now }
{
    key == b"comm".as_slice() || key == b"exe".as_slice() || key == b"host".as_slice()
}

fn is_small_key(key: &[u8]) -> bool
    ensures { result ≡ is_small_key key.now }
{
    key == b"pid".as_slice()
        || key == b"tid".as_slice()
        || key == b"sig".as_slice()
        || key == b"uid".as_slice()
        || key == b"gid".as_slice()
        || key == b"mode".as_slice()
}

fn is_large_key(key: &[u8]) -> bool
    ensures { result ≡ is_large_key key.now }
{
    key == b"time".as_slice() || key == b"limit".as_slice()
}

// The kind of value that a key of `retire` has.
fn retire_kind(key: &[u8]) -> Option<ValueKind>
    ensures { result ≡ retire_kind key.now }
{
    if key == b"keep".as_slice() || key == b"bytes".as_slice() || key == b"before".as_slice() {
        Some(ValueKind::Large)
    } else {
        None
    }
}

// Whether a value is of a kind.
fn is_good_value(kind: Option<ValueKind>, value: &[u8]) -> bool
    requires { length value.now ≤ 1024 }
    ensures { result ≡ is_good_value kind value.now }
{
    match kind {
        None => false,
        Some(ValueKind::Text) => decode_text(value).is_some(),
        Some(ValueKind::Small) => parse_u32(value).is_some(),
        Some(ValueKind::Large) => parse_number(value).is_some(),
    }
}

// The value of the first pair of a key.
fn value_of<'a>(words: Words<'a>, key: &[u8]) -> Option<&'a [u8]>
    ensures { option_map word_bytes result ≡ value_of key.now (words_left words.entry) }
{
    let mut rest = words;
    while let Some(word) = rest.next() {
        if let Some(value) = value_if(word, key) {
            return Some(value);
        }
    }
    None
}

// The value of a word that is a pair of a key.
fn value_if<'a>(word: &'a [u8], key: &[u8]) -> Option<&'a [u8]>
    ensures { option_map word_bytes result ≡ value_if key.now (pair_of word.now) }
{
    let (name, value) = split_pair(word)?;
    if name == key { Some(value) } else { None }
}

// The text that a key is given, or the empty text.
pub(crate) fn text_at(words: Words<'_>, key: &[u8]) -> ArrayVec<u8, 1024>
    requires { AreWords (words_left words) }
    ensures { result.items ≡ text_at key.now (words_left words.entry) }
{
    let Some(value) = value_of(words, key) else {
        return ArrayVec::new();
    };
    match decode_text(value) {
        Some(text) => text,
        None => ArrayVec::new(),
    }
}

// The number of 32 bits that a key is given, or 0.
pub(crate) fn small_at(words: Words<'_>, key: &[u8]) -> u32
    ensures { result ≡ small_at key.now (words_left words.entry) }
{
    let Some(value) = value_of(words, key) else {
        return 0;
    };
    match parse_u32(value) {
        Some(number) => number,
        None => 0,
    }
}

// The number of 64 bits that a key is given, if it is given one.
pub(crate) fn large_at(words: Words<'_>, key: &[u8]) -> Option<u64>
    ensures { result ≡ large_at key.now (words_left words.entry) }
{
    parse_number(value_of(words, key)?)
}
