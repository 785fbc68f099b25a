//! Printed texts are read back.
ghost use Rattle.std.specs.Prelude.{◌≡◌, ◌<◌, ◌^◌, ℕ, List, [], Some, length, All, decimal};
ghost use Rattle.script_words.specs.Number.{number_of};
ghost use Rattle.script_words.specs.Hex.{hex_of, bytes_of_hex};
ghost use Rattle.script_words.specs.Text.{text_of};
ghost use Rattle.script_words.specs.Printing.{shown, hexadecimal};

/// A text that is not empty is read again as it was printed. (The empty text prints as `-`, which no text of one byte does.)
pub fn printed_texts_are_read_again()
    ensures { (text : List ℕ) → All (λ c. c < 256) text → 0 < length text → text_of (shown text) ≡ Some text }
{}

/// A number of 64 bits is read again as it was printed, in either form.
pub fn printed_numbers_are_read_again()
    ensures in_decimal { (n : ℕ) → n < 2 ^ 64 → number_of (decimal n) ≡ Some n }
    ensures in_hexadecimal { (n : ℕ) → n < 2 ^ 64 → number_of (hexadecimal n) ≡ Some n }
{}

/// Bytes are read again as they were printed in hexadecimal digits.
pub fn printed_bytes_are_read_again()
    ensures { (bytes : List ℕ) → All (λ c. c < 256) bytes → bytes_of_hex (hex_of bytes) ≡ Some bytes }
{}
