// Words of the command line that are bytes of any kind.
//
// A word is kept as text. If its bytes are UTF-8 it is that text; each byte that is not is kept as a character that
// stands for it, U+10FF80 for the byte 0x80 and so on to U+10FFFF for 0xff. If a word has such a character itself, each
// byte of the character is kept so. These are the last characters that Unicode has, for private use, so that no two words
// are kept alike.
ghost use Rattle.std.specs.Prelude.{◌≡◌, ◌++◌, ◌-◌, None, Some, IfOk, OnOk, if◌then◌else◌};
ghost use Rattle.std.specs.List.{flat_map};
ghost use Rattle.script_words.specs.Printing.{shown_byte};
ghost use Rattle.command_words.specs.RawWords.{bytes_kept, bytes_meant, is_own, is_text};

use script_words::print_byte;
use std::alloc::{AllocError, Global};
use std::env::FillError;
use std::rt::Env;

// More than Linux gives of a word (its MAX_ARG_STRLEN).
const LONGEST_WORD: usize = 131_072;

// The character that replaces the byte 0x80.
const FIRST_STAND_IN: u32 = 0x10_ff80;

/// The words of the command line after the program's name.
///
/// # Errors
///
/// `AllocError` if there is no memory for them.
pub fn words_of<R: Env + AllocGlobal>(rt: &R) -> Result<Vec<String>, AllocError> {
    let alloc = rt.alloc();
    let mut words = Vec::new(alloc);
    let mut buffer = vec![in alloc; 0u8; LONGEST_WORD]?;
    for index in 1..usize::MAX {
        match rt.arg(index, &mut buffer) {
            Ok(length) => words.push(kept(alloc, &buffer[..length])?)?,
            Err(FillError::NotPresent | FillError::TooLong) => break,
        }
    }
    Ok(words)
}

// How a word is kept.
fn kept(alloc: Global, bytes: &[u8]) -> Result<String, AllocError> {
    let mut word = String::new(alloc);
    for chunk in bytes.utf8_chunks() {
        keep_text(&mut word, chunk.valid())?;
        keep_bytes(&mut word, chunk.invalid())?;
    }
    Ok(word)
}

fn keep_text(word: &mut String, text: &str) -> Result<(), AllocError> {
    for character in text.chars() {
        if stood_for(character).is_some() {
            let mut buffer = [0u8; 4];
            keep_bytes(word, character.encode_utf8(&mut buffer).as_bytes())?;
        } else {
            word.push(character)?;
        }
    }
    Ok(())
}

fn keep_bytes(word: &mut String, bytes: &[u8]) -> Result<(), AllocError> {
    for byte in bytes {
        word.push(stand_in(*byte))?;
    }
    Ok(())
}

// The character that replaces a byte of 0x80 or more.
fn stand_in(byte: u8) -> char {
    char::from_u32(FIRST_STAND_IN - 0x80 + u32::from(byte)).unwrap_or(char::REPLACEMENT_CHARACTER)
}

// The byte in whose place a character is.
fn stood_for(character: char) -> Option<u8>
    ensures { result ≡ (if is_own character then None else Some (character - 1113856)) }
{
    let code = u32::from(character);
    if code < FIRST_STAND_IN {
        return None;
    }
    u8::try_from(code - FIRST_STAND_IN + 0x80).ok()
}

/// Whether a word was UTF-8.
pub fn is_text(word: &str) -> bool
    ensures { result ≡ is_text word.now }
{
    for character in word.chars() {
        if u32::from(character) >= FIRST_STAND_IN {
            return false;
        }
    }
    true
}

/// Adds the bytes of a word to a line of a script, each that the line's grammar does not take as itself as \xHH.
///
/// # Errors
///
/// `AllocError` if there is no memory for them.
pub fn push_escaped(line: &mut Vec<u8>, word: &str) -> Result<(), AllocError>
    ensures { OnOk result (line.new.items ≡ line.old.items ++ flat_map shown_byte (bytes_meant word.now)) }
{
    for character in word.chars() {
        push_shown(line, character)?;
    }
    Ok(())
}

// Words as they are printed: one with a byte outside 0x20 to 0x7e as a script prints it, the others as they are.
pub(crate) fn shown_words(alloc: Global, words: &[String]) -> Result<Vec<String>, AllocError> {
    let mut shown = Vec::new(alloc);
    for word in words {
        shown.push(shown_word(alloc, word)?)?;
    }
    Ok(shown)
}

fn shown_word(alloc: Global, word: &str) -> Result<String, AllocError> {
    if word.bytes().all(|byte| (0x20..=0x7e).contains(&byte)) {
        return String::from_str(alloc, word);
    }
    let mut line = Vec::new(alloc);
    push_escaped(&mut line, word)?;
    let mut shown = String::new(alloc);
    for byte in &line {
        shown.push(char::from(*byte))?;
    }
    Ok(shown)
}

fn push_shown(line: &mut Vec<u8>, character: char) -> Result<(), AllocError>
    ensures { OnOk result (line.new.items ≡ line.old.items ++ flat_map shown_byte (bytes_kept character)) }
{
    let mut buffer = [0u8; 4];
    match stood_for(character) {
        Some(byte) => push_spelled(line, &[byte])?,
        None => push_spelled(line, character.encode_utf8(&mut buffer).as_bytes())?,
    }
    Ok(())
}

// The bytes of a word.
pub(crate) fn bytes_of(alloc: Global, word: &str) -> Result<Vec<u8>, AllocError>
    ensures { IfOk result (λ bytes. bytes.items ≡ bytes_meant word.now) }
{
    let mut bytes = Vec::new(alloc);
    for character in word.chars() {
        push_kept(&mut bytes, character)?;
    }
    Ok(bytes)
}

fn push_kept(bytes: &mut Vec<u8>, character: char) -> Result<(), AllocError>
    ensures { OnOk result (bytes.new.items ≡ bytes.old.items ++ bytes_kept character) }
{
    let mut buffer = [0u8; 4];
    match stood_for(character) {
        Some(byte) => bytes.push(byte)?,
        None => bytes.extend_from_slice(character.encode_utf8(&mut buffer).as_bytes())?,
    }
    Ok(())
}

fn push_spelled(line: &mut Vec<u8>, bytes: &[u8]) -> Result<(), AllocError>
    ensures { OnOk result (line.new.items ≡ line.old.items ++ flat_map shown_byte bytes.now) }
{
    for byte in bytes {
        line.extend_from_slice(print_byte(*byte).as_slice())?;
    }
    Ok(())
}
