// The words of a core, as a file has them.
ghost use Rattle.std.specs.Prelude.{◌≡◌, ℕ, List, Option, Some, IfOk};
ghost use Rattle.std.specs.Option.{option_map};
ghost use Rattle.handler_files.specs.WordsText.{words_text, length_line, HasNoNewline, IsLength, ReadsAs};

use memchr::memchr;
use script_words::{parse_number, print_decimal, printed_numbers_are_read_again};
use std::alloc::{AllocError, Global};

/// The text of a file that keeps the words of a core: the line that begins it, and its length if that is stated.
pub fn words_text(alloc: Global, line: &[u8], length: Option<u64>) -> Result<Vec<u8>, AllocError>
    ensures { IfOk result (λ text. text.items ≡ words_text line.now length) }
{
    let mut text = Vec::new(alloc);
    text.extend_from_slice(line)?;
    text.extend_from_slice(b"\n")?;
    if let Some(length) = length {
        text.extend_from_slice(b"length=")?;
        text.extend_from_slice(&print_decimal(u128::from(length)))?;
        text.extend_from_slice(b"\n")?;
    }
    Ok(text)
}

/// Reads the text of such a file: the line, and the length. Words
/// that were written this way are read back as the same words.
pub fn read_words(text: &[u8]) -> Option<(&[u8], Option<u64>)>
    ensures back { (line : List ℕ) → (length : Option ℕ) → HasNoNewline line → IsLength length
        → text.now ≡ words_text line length → ReadsAs line length (option_map (λ p. (p.0.now, p.1)) result) }
{
    let end = memchr(b'\n', text)?;
    let (line, rest) = text.split_at(end);
    let length = read_length(rest.split_at(1).1)?;
    Some((line, length))
}

// Reads the line that states a length, if there is one.
fn read_length(text: &[u8]) -> Option<Option<u64>>
    ensures back { (length : Option ℕ) → IsLength length → text.now ≡ length_line length → result ≡ Some length }
{
    printed_numbers_are_read_again();
    if text.is_empty() {
        return Some(None);
    }
    let stated = text.strip_prefix(b"length=".as_slice())?;
    if stated.is_empty() {
        return None;
    }
    let digits = stated.split_at(stated.len() - 1).0;
    let length = parse_number(digits)?;
    Some(Some(length))
}
