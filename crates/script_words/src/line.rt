//! A script line as its words.
ghost use Rattle.std.specs.Prelude.{◌≡◌, ◌<◌, ◌≤◌, ℕ, false, List, [], ◌∷◌, length, drop, MatchOption, slice_get, slice_index};
ghost use Rattle.script_words.specs.Words.{is_space, words_of, is_plain_line, first_visible_of, is_blank_or_comment_line};

use bstr::ByteSlice;

/// Whether each byte of a line is a space or one of 0x21 to 0x7e. A line that is not a comment has no other byte.
pub fn is_plain(line: &[u8]) -> bool
    ensures { result ≡ is_plain_line line.now }
{
    line.iter().all(|byte| *byte >= 0x20 && *byte <= 0x7e)
}

/// The first byte of a line that is no space.
pub fn first_visible(line: &[u8]) -> Option<u8>
    ensures { result ≡ first_visible_of line.now }
{
    without_spaces(line).first().copied()
}

/// Whether a line has no reply: it is empty or all spaces, or its first byte after spaces is `#`.
pub fn is_blank_or_comment(line: &[u8]) -> bool
    ensures { result ≡ is_blank_or_comment_line line.now }
{
    match first_visible(line) {
        None => true,
        Some(byte) => byte == b'#',
    }
}

// A line from its first byte on that is no space.
fn without_spaces(line: &[u8]) -> &[u8]
    ensures words { words_of result.now ≡ words_of line.now }
    ensures visible { first_visible_of line.now ≡ slice_get result.now 0 }
    ensures begins { 0 < length result.now → is_space (slice_index result.now 0) ≡ false }
{
    let start = line.find_not_byteset(b" ").unwrap_or(line.len());
    line.split_at(start).1
}

// The first word of the rest of a line, and the rest after it.
fn first_word(line: &[u8]) -> Option<(&[u8], &[u8])>
    ensures { MatchOption result (words_of line.now ≡ [])
        (λ found. words_of line.now ≡ found.0.now ∷ words_of found.1.now) }
{
    let text = without_spaces(line);
    if text.is_empty() {
        return None;
    }
    let end = text.find_byte(b' ').unwrap_or(text.len());
    Some(text.split_at(end))
}

/// The words of a line, first to last: the bytes between one or more spaces, spaces at either end not looked at.
#[derive(Clone, Copy)]
pub struct Words<'a> {
    rest: &'a [u8],
}

impl<'a> Words<'a> {
    ghost use Rattle.script_words.specs.WordsLeft.{words_left};

    /// The words of a line.
    pub fn new(line: &'a [u8]) -> Words<'a>
        ensures { words_left result ≡ words_of line.now }
    {
        Words { rest: line }
    }
}

impl<'a> Iterator for Words<'a> {
    ghost use Rattle.std.specs.Iterator.{YieldsFirstBy, item_count};
    ghost use Rattle.script_words.specs.WordsLeft.{word_bytes, words_left};

    type Item = &'a [u8];

    ghost next_gives = { YieldsFirstBy word_bytes words_left };

    ghost remaining = { item_count words_left };

    fn next(&mut self) -> Option<&'a [u8]> {
        match first_word(self.rest) {
            None => None,
            Some((word, rest)) => {
                self.rest = rest;
                Some(word)
            }
        }
    }
}
