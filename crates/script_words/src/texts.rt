//! The texts, the bytes and the pairs of a script line.
ghost use Rattle.std.specs.Prelude.{◌≡◌, ◌<◌, ◌≤◌, ◌+◌, ◌*◌, ℕ, Option, None, Some, length, MatchOption};
ghost use Rattle.script_words.specs.Hex.{needle_of, bytes_of_hex};
ghost use Rattle.script_words.specs.Pairs.{pair_of};
ghost use Rattle.script_words.specs.Text.{text_of, with_byte, escape_of};

use arrayvec::ArrayVec;
use bstr::ByteSlice;

/// The text of a word: `\xHH`, with digits of either case, is one byte, and every other byte is itself. `None` if the
/// word has any other backslash.
pub fn decode_text(word: &[u8]) -> Option<ArrayVec<u8, 1024>>
    requires { length word.now ≤ 1024 }
    ensures { MatchOption result (text_of word.now ≡ None)
        (λ text. text_of word.now ≡ Some text.items) }
{
    let mut text = ArrayVec::new();
    let mut rest = word;
    while !rest.is_empty() {
        let (byte, after) = next_byte(rest)?;
        text.push(byte);
        rest = after;
    }
    Some(text)
}

/// The bytes of a word of hexadecimal digits, 1 to 64 of them, with no `0x` before them. `None` if the word has an odd
/// number of digits, none, more than 128, or another byte.
pub fn decode_hex(word: &[u8]) -> Option<ArrayVec<u8, 64>>
    ensures { MatchOption result (needle_of word.now ≡ None)
        (λ bytes. needle_of word.now ≡ Some bytes.items) }
{
    if word.len() < 2 || word.len() > 128 {
        return None;
    }
    decode_pairs(word)
}

/// The key and the value of a word: the bytes before its first `=` and after it. `None` if it has no `=`.
pub fn split_pair(word: &[u8]) -> Option<(&[u8], &[u8])>
    ensures { MatchOption result (pair_of word.now ≡ None)
        (λ pair. pair_of word.now ≡ Some (pair.0.now, pair.1.now)) }
{
    let at = word.find_byte(b'=')?;
    let (key, rest) = word.split_at(at);
    Some((key, rest.split_at(1).1))
}

// The bytes of at most 128 digits.
fn decode_pairs(word: &[u8]) -> Option<ArrayVec<u8, 64>>
    requires { length word.now ≤ 128 }
    ensures { MatchOption result (bytes_of_hex word.now ≡ None)
        (λ bytes. bytes_of_hex word.now ≡ Some bytes.items) }
{
    let mut bytes = ArrayVec::new();
    let mut rest = word;
    while !rest.is_empty() {
        let (byte, after) = next_pair(rest)?;
        bytes.push(byte);
        rest = after;
    }
    Some(bytes)
}

// The byte of the first two digits, and the text after them.
fn next_pair(word: &[u8]) -> Option<(u8, &[u8])>
    requires { 0 < length word.now }
    ensures byte { MatchOption result (bytes_of_hex word.now ≡ None)
        (λ found. bytes_of_hex word.now ≡ with_byte found.0 (bytes_of_hex found.1.now)) }
    ensures shorter { MatchOption result (Unit {0}) (λ found. length found.1.now + 2 ≤ length word.now) }
{
    let (high, rest) = word.split_first()?;
    let (low, rest) = rest.split_first()?;
    let high = (*high as char).to_digit(16)?;
    let low = (*low as char).to_digit(16)?;
    Some(((16 * high + low) as u8, rest))
}

// The first byte of a word's text, and the word after it.
fn next_byte(word: &[u8]) -> Option<(u8, &[u8])>
    requires { 0 < length word.now }
    ensures text { MatchOption result (text_of word.now ≡ None)
        (λ found. text_of word.now ≡ with_byte found.0 (text_of found.1.now)) }
    ensures shorter { MatchOption result (Unit {0}) (λ found. length found.1.now < length word.now) }
{
    let (first, rest) = word.split_first()?;
    if *first != b'\\' {
        return Some((*first, rest));
    }
    let byte = escaped_byte(rest)?;
    Some((byte, rest.split_at(3).1))
}

// The byte of `xHH` at the front of the text after a backslash.
fn escaped_byte(rest: &[u8]) -> Option<u8>
    ensures { result ≡ escape_of rest.now }
{
    match rest {
        [b'x', high, low, ..] => {
            let high = (*high as char).to_digit(16)?;
            let low = (*low as char).to_digit(16)?;
            Some((16 * high + low) as u8)
        }
        _ => None,
    }
}
