// A word of the command line as a needle of the script.
ghost use Rattle.std.specs.Prelude.{◌≡◌, ◌<◌, IfOk, string_bytes};
ghost use Rattle.std.specs.Char.{digit_char};
ghost use Rattle.command_words.specs.RawWords.{bytes_meant};
ghost use Rattle.script_words.specs.Hex.{hex_of};

use crate::raw_words::bytes_of;
use std::alloc::{AllocError, Global};

/// The bytes of a word, whatever they are, as the script has a needle of `find`: two hexadecimal digits for each, in lower case.
///
/// # Errors
///
/// `AllocError` if there is no memory for them.
pub fn digits_of(alloc: Global, word: &str) -> Result<String, AllocError>
    ensures { IfOk result (λ digits. string_bytes digits ≡ hex_of (bytes_meant word.now)) }
{
    let bytes = bytes_of(alloc, word)?;
    hex_of(alloc, &bytes)
}

// Bytes as pairs of hexadecimal digits.
fn hex_of(alloc: Global, bytes: &[u8]) -> Result<String, AllocError>
    ensures { IfOk result (λ digits. string_bytes digits ≡ hex_of bytes.now) }
{
    let mut digits = String::new(alloc);
    for byte in bytes {
        digits.push(hex_digit(byte / 16))?;
        digits.push(hex_digit(byte % 16))?;
    }
    Ok(digits)
}

fn hex_digit(value: u8) -> char
    requires { value < 16 }
    ensures digit { result ≡ digit_char value }
    ensures ascii { result < 128 }
{
    char::from_digit(u32::from(value), 16).unwrap_or('0')
}
