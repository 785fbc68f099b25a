//! The text of replies, on its way to an output.
ghost use Rattle.std.specs.Prelude.{◌≡◌, true, false, OnOk, ℕ, ◌+◌, ◌<◌, ◌≤◌, List, [], ◌++◌, length, take, Option, decimal};
ghost use Rattle.std.specs.List.{flat_map};
ghost use Rattle.std.specs.Fmt.{signed_decimal};
ghost use Rattle.script_words.specs.Hex.{hex_of};
ghost use Rattle.script_words.specs.Printing.{shown, shown_byte, hexadecimal};
ghost use Rattle.script_streams.specs.Writing.{Writes, PassesOn};

use crate::streams::{Output, StreamFault};
use arrayvec::ArrayVec;
use script_words::{
    plain_front, print_byte, print_decimal, print_hex_row, print_hexadecimal, print_signed,
};

// How many bytes are held at most.
const MOST_HELD: usize = 8192;

// How many bytes are printed as digits at a time.
const HEX_ROW: usize = 16;

/// The text of replies on its way to an output, which is borrowed while text is printed. Text waits in a buffer of a
/// fixed size. Once a write has failed no more is written, and `finish` reports it: no caller needs to check each write.
#[derive(Drop)]
pub struct Reply<'a, O: Output> {
    output: &'a mut O,
    unwritten: Unwritten,
}

// Printed text that the output has not taken yet, and whether a write has failed.
#[derive(Drop)]
struct Unwritten {
    held: ArrayVec<u8, 8192>,
    failed: bool,
}

impl Unwritten {
    // Whether a write has failed. No more is held than there is room for.
    fn has_failed(&self) -> bool
        ensures failed { result ≡ self.now.failed }
        ensures few { length self.now.held.items ≤ 8192 }
    {
        prove!(self.held.len() <= MOST_HELD);
        self.failed
    }
}

impl<'a, O: Output> Reply<'a, O> {
    ghost use Rattle.arrayvec.specs.ArrayVec.{array_vec_len};
    ghost use Rattle.script_streams.specs.Printing.{Told, Prints, IsDelivered, has_failed, held_text, sink};

    /// The reply to go to this output. Nothing was printed yet.
    pub fn new(output: &'a mut O) -> Self
        ensures told { Told (O.taken output.old) (O.failures output.old) output.entry.ghost_name (sink O.Output result) [] }
        ensures unfailed { has_failed result ≡ false }
    {
        Reply {
            output,
            unwritten: Unwritten {
                held: ArrayVec::new(),
                failed: false,
            },
        }
    }

    /// Prints a text as it is.
    pub fn print(&mut self, text: &[u8])
        ensures { Prints (sink O.Output self.old) (sink O.Output self.new) text.now }
    {
        if text.len() <= self.unwritten.held.remaining_capacity() {
            self.hold(text);
            return;
        }
        self.flush();
        if text.len() <= MOST_HELD {
            self.hold(text);
        } else {
            self.write_behind(text);
        }
    }

    /// Prints a text in its printable form: bytes outside 0x21 to 0x7e and backslashes as `\xHH`, the empty text as `-`,
    /// and the text `-` as `\x2d`.
    pub fn print_text(&mut self, text: &[u8])
        ensures { Prints (sink O.Output self.old) (sink O.Output self.new) (shown text.now) }
    {
        match text {
            [] => self.print(b"-"),
            [b'-'] => self.print(b"\\x2d"),
            _ => self.print_bytes(text),
        }
    }

    /// Prints the printable form of each byte of a text, one after the other. So a long text can be printed in pieces.
    pub fn print_bytes(&mut self, text: &[u8])
        ensures { Prints (sink O.Output self.old) (sink O.Output self.new) (flat_map shown_byte text.now) }
    {
        let mut rest = text;
        while !rest.is_empty() {
            let count = self.print_front(rest);
            rest = rest.split_at(count).1;
        }
    }

    // Prints the printable form of the front of a text: the bytes that print as themselves as one slice, or else the first
    // byte. Returns how many bytes that are.
    fn print_front(&mut self, text: &[u8]) -> usize
        requires { 0 < length text.now }
        ensures some { 0 < result }
        ensures within { result ≤ length text.now }
        ensures states { Prints (sink O.Output self.old) (sink O.Output self.new) (flat_map shown_byte (take result text.now)) }
    {
        let count = plain_front(text);
        if count > 0 {
            self.print(&text[..count]);
            return count;
        }
        self.print(print_byte(text[0]).as_slice());
        1
    }

    /// Prints bytes as pairs of hexadecimal digits, with nothing between them.
    pub fn print_hex(&mut self, bytes: &[u8])
        ensures { Prints (sink O.Output self.old) (sink O.Output self.new) (hex_of bytes.now) }
    {
        let mut rest = bytes;
        while !rest.is_empty() {
            let (row, left) = rest.split_at(rest.len().min(HEX_ROW));
            self.print(print_hex_row(row).as_slice());
            rest = left;
        }
    }

    /// Prints a number in decimal.
    pub fn print_decimal(&mut self, number: u128)
        ensures { Prints (sink O.Output self.old) (sink O.Output self.new) (decimal number) }
    {
        self.print(print_decimal(number).as_slice());
    }

    /// Prints a signed number in decimal, with `-` before a negative one.
    pub fn print_signed(&mut self, number: i64)
        ensures { Prints (sink O.Output self.old) (sink O.Output self.new) (signed_decimal number) }
    {
        self.print(print_signed(number).as_slice());
    }

    /// Prints a number as `0x` and its hexadecimal digits.
    pub fn print_hexadecimal(&mut self, number: u128)
        ensures { Prints (sink O.Output self.old) (sink O.Output self.new) (hexadecimal number) }
    {
        self.print(print_hexadecimal(number).as_slice());
    }

    /// Whether a write has failed: then nothing more is written.
    pub fn has_failed(&self) -> bool
        ensures failed { result ≡ has_failed self.now }
        ensures few { length (held_text self.now) ≤ 8192 }
    {
        self.unwritten.has_failed()
    }

    /// Writes the printed text that is not written yet.
    ///
    /// # Errors
    ///
    /// `StreamFault` if a write has failed, in this call or before. More may be printed then, and none of it is written.
    pub fn finish(&mut self) -> Result<(), StreamFault>
        ensures states { Prints (sink O.Output self.old) (sink O.Output self.new) [] }
        ensures delivered { (start : Option (List ℕ)) (count name : ℕ) (told : List ℕ)
            → Told start count name (sink O.Output self.old) told
            → IsDelivered start count (O.taken self.new.output.now) (O.failures self.new.output.now) told result }
        ensures same { self.new.output.ghost_name ≡ self.old.output.ghost_name }
        ensures unfailed { OnOk result (has_failed self.old ≡ false) }
    {
        self.flush();
        if self.unwritten.failed {
            Err(StreamFault)
        } else {
            Ok(())
        }
    }

    // Holds a text, for which there is room.
    fn hold(&mut self, text: &[u8])
        requires { length (held_text self.old) + length text.now ≤ 8192 }
        ensures { Prints (sink O.Output self.old) (sink O.Output self.new) text.now }
    {
        let _ = self.unwritten.held.try_extend_from_slice(text);
    }

    // Writes the held bytes.
    pub(crate) fn flush(&mut self)
        ensures states { Prints (sink O.Output self.old) (sink O.Output self.new) [] }
        ensures emptied { held_text self.new ≡ [] }
        ensures failed { has_failed self.old ≡ true → has_failed self.new ≡ true }
        ensures same { self.new.output.ghost_name ≡ self.old.output.ghost_name }
    {
        self.unwritten.failed = pass_on(
            self.unwritten.failed,
            self.output,
            self.unwritten.held.as_slice(),
        );
        self.unwritten.held.clear();
    }

    // Writes a text, if nothing is held.
    fn write_behind(&mut self, text: &[u8])
        requires { held_text self.old ≡ [] }
        ensures { Prints (sink O.Output self.old) (sink O.Output self.new) text.now }
    {
        self.unwritten.failed = pass_on(self.unwritten.failed, self.output, text);
    }
}

// Writes a text unless a write has failed before, and answers whether one has failed by now.
fn pass_on<O: Output>(failed: bool, output: &mut O, text: &[u8]) -> bool
    ensures { PassesOn failed (O.taken output.old) (O.taken output.new)
        (O.failures output.old) (O.failures output.new) text.now result }
{
    if failed {
        return true;
    }
    match write_whole(output, text) {
        Ok(()) => false,
        Err(_) => true,
    }
}

/// Writes a text, in as many writes as it takes.
///
/// # Errors
///
/// `StreamFault` if a write failed: the output has taken a front of the text.
pub fn write_whole<O: Output>(output: &mut O, text: &[u8]) -> Result<(), StreamFault>
    ensures { Writes (O.taken output.old) (O.taken output.new)
        (O.failures output.old) (O.failures output.new) text.now result }
{
    let mut rest = text;
    while !rest.is_empty() {
        let count = output.write(rest)?;
        rest = rest.split_at(count).1;
    }
    Ok(())
}
