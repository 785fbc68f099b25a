//! The numbers of a script line.
ghost use Rattle.std.specs.Prelude.{◌≡◌, ◌≤◌, ◌^◌, ◌-◌, ℕ, Option};
ghost use Rattle.script_words.specs.Number.{numeral_of, number_of, number_within};
ghost use Rattle.script_words.specs.Digits.{next_value};

/// The number of a word: decimal digits, or `0x` and hexadecimal digits of either case. `None` if the word is anything
/// else (a sign, an underscore, `0X`, nothing), or its number is 2^64 or more. Leading zeros are accepted, however many.
pub fn parse_number(word: &[u8]) -> Option<u64>
    ensures { result ≡ number_of word.now }
{
    match word {
        [b'0', b'x', digits @ ..] => parse_numeral(digits, 16),
        _ => parse_numeral(word, 10),
    }
}

/// The number of a word, if it lies from `low` to `high`, both included.
pub fn parse_number_within(word: &[u8], low: u64, high: u64) -> Option<u64>
    ensures { result ≡ number_within low high word.now }
{
    let number = parse_number(word)?;
    if low <= number && number <= high {
        Some(number)
    } else {
        None
    }
}

/// A number that fits 32 bits.
pub fn parse_u32(word: &[u8]) -> Option<u32>
    ensures { result ≡ number_within 0 (2 ^ 32 - 1) word.now }
{
    let number = parse_number_within(word, 0, 0xffff_ffff)?;
    Some(number as u32)
}

/// The number of a case: 1 to 2^32 - 1.
pub fn parse_case_number(word: &[u8]) -> Option<u32>
    ensures { result ≡ number_within 1 (2 ^ 32 - 1) word.now }
{
    let number = parse_number_within(word, 1, 0xffff_ffff)?;
    Some(number as u32)
}

/// The slot of a stream: 0 to 7.
pub fn parse_slot(word: &[u8]) -> Option<u8>
    ensures { result ≡ number_within 0 7 word.now }
{
    let number = parse_number_within(word, 0, 7)?;
    Some(number as u8)
}

/// How many bytes a part has: 0 to 65,536.
pub fn parse_part_length(word: &[u8]) -> Option<u32>
    ensures { result ≡ number_within 0 65536 word.now }
{
    let number = parse_number_within(word, 0, 65_536)?;
    Some(number as u32)
}

// The number of digits in a base, if there is one at least, they are all digits, and their number is below 2^64.
fn parse_numeral(digits: &[u8], base: u32) -> Option<u64>
    requires least { 2 ≤ base }
    requires greatest { base ≤ 36 }
    ensures { result ≡ numeral_of base digits.now }
{
    if digits.is_empty() {
        return None;
    }
    let mut value = 0u64;
    for byte in digits {
        value = with_digit(value, *byte, base)?;
    }
    Some(value)
}

// The number of the digits so far and one more.
fn with_digit(value: u64, byte: u8, base: u32) -> Option<u64>
    requires least { 2 ≤ base }
    requires greatest { base ≤ 36 }
    ensures { result ≡ next_value base value byte }
{
    let digit = (byte as char).to_digit(base)?;
    value.checked_mul(base as u64)?.checked_add(digit as u64)
}
