//! How replies print numbers, and the bytes of texts.
ghost use Rattle.std.specs.Prelude.{◌≡◌, ◌<◌, ◌≤◌, ◌^◌, ℕ, false, decimal, drop, take, map, get_or, length, [], ◌∷◌};
ghost use Rattle.std.specs.List.{flat_map};
ghost use Rattle.std.specs.Fmt.{signed_decimal};
ghost use Rattle.std.specs.Int.Digits.{digits_of};
ghost use Rattle.std.specs.Char.{digit_char};
ghost use Rattle.script_words.specs.Hex.{hex_of};
ghost use Rattle.script_words.specs.Printing.{prints_itself, shown_byte, hexadecimal, hex_digits};

use arrayvec::ArrayVec;
use itoa::Buffer;

/// The printed form of a byte of a text: the byte itself, or `\xHH`
/// in lower case if it is a backslash or outside 0x21 to 0x7e.
pub fn print_byte(byte: u8) -> ArrayVec<u8, 4>
    ensures { result.items ≡ shown_byte byte }
{
    let mut spelling = ArrayVec::new();
    if prints_itself(byte) {
        spelling.push(byte);
    } else {
        spelling.push(b'\\');
        spelling.push(b'x');
        spelling.push(hex_digit(byte / 16));
        spelling.push(hex_digit(byte % 16));
    }
    spelling
}

/// How many bytes at the front of a text print as themselves: those up to the first that does not, or all of them.
pub fn plain_front(text: &[u8]) -> usize
    ensures within { result ≤ length text.now }
    ensures plain { flat_map shown_byte (take result text.now) ≡ take result text.now }
    ensures longest { (d : ℕ) → result < length text.now → prints_itself (get_or text.now result d) ≡ false }
{
    let mut count = 0;
    while count < text.len() && prints_itself(text[count]) {
        count += 1;
    }
    count
}

// Whether a byte prints as itself.
fn prints_itself(byte: u8) -> bool
    ensures { result ≡ prints_itself byte }
{
    (0x21..=0x7e).contains(&byte) && byte != b'\\'
}

/// At most 16 bytes as pairs of hexadecimal digits, in lower case, with nothing between them.
pub fn print_hex_row(bytes: &[u8]) -> ArrayVec<u8, 32>
    requires { length bytes.now ≤ 16 }
    ensures { result.items ≡ hex_of bytes.now }
{
    let mut digits = ArrayVec::new();
    for byte in bytes {
        digits.push(hex_digit(*byte / 16));
        digits.push(hex_digit(*byte % 16));
    }
    digits
}

/// A number in decimal. (More than 64 bits are taken, since a range of addresses can be as long as the address space.)
pub fn print_decimal(number: u128) -> ArrayVec<u8, 39>
    ensures { result.items ≡ decimal number }
{
    let mut buffer = Buffer::new();
    let mut text = ArrayVec::new();
    for digit in buffer.format(number).as_bytes() {
        text.push(*digit);
    }
    text
}

/// A signed number in decimal, with `-` before a negative one.
pub fn print_signed(number: i64) -> ArrayVec<u8, 20>
    ensures { result.items ≡ signed_decimal number }
{
    let mut buffer = Buffer::new();
    let mut text = ArrayVec::new();
    for byte in buffer.format(number).as_bytes() {
        text.push(*byte);
    }
    text
}

/// A number as `0x` and its hexadecimal digits, in lower case and with no leading zero. (More than 64 bits are taken, since
/// the place past the last address is 2^64.)
pub fn print_hexadecimal(number: u128) -> ArrayVec<u8, 34>
    ensures { result.items ≡ hexadecimal number }
{
    let mut digits = [0u8; 32];
    let start = write_hex_digits(&mut digits, number);
    let mut text = ArrayVec::new();
    text.push(b'0');
    text.push(b'x');
    if number == 0 {
        text.push(b'0');
        return text;
    }
    let (_, written) = digits.split_at(start);
    for digit in written {
        text.push(*digit);
    }
    text
}

// Writes a number's hexadecimal digits at the end of a buffer, none for 0, and returns the place where they start.
fn write_hex_digits(digits: &mut [u8; 32], number: u128) -> usize
    ensures within { result ≤ 32 }
    ensures written { drop result digits.new ≡ map digit_char (digits_of 16 number) }
{
    let mut at = 32;
    let mut rest = number;
    while rest > 0 && at > 0 {
        at -= 1;
        digits[at] = hex_digit((rest % 16) as u8);
        rest /= 16;
    }
    at
}

// The digit of a value below 16, in lower case.
fn hex_digit(value: u8) -> u8
    requires { value < 16 }
    ensures { result ≡ digit_char value }
{
    if value < 10 {
        b'0' + value
    } else {
        b'a' + (value - 10)
    }
}
