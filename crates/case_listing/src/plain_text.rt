//! Replies without escapes, if people can do without them.
ghost use Rattle.std.specs.Prelude.{◌≡◌, ◌<◌, ◌≤◌, ◌++◌, ℕ, List, None, Some, drop, take, length, IfSome};
ghost use Rattle.script_streams.specs.Replies.{PrintsText, printing};
ghost use Rattle.script_streams.specs.Printing.{IsDelivered};
ghost use Rattle.case_listing.specs.PlainText.{front_escape, if_plain, plain_escape, plain_of};

use script_streams::{Output, Reply, StreamFault};

// How many bytes an escape has.
const ESCAPE: usize = 4;

/// Writes a reply as people read it: of its escapes `\xHH` each whose byte is a space or prints is that byte.
///
/// # Errors
///
/// `StreamFault` if a write failed: the output has taken a front of it.
pub fn send_plain<O: Output>(text: &[u8], output: &mut O) -> Result<(), StreamFault>
    ensures { IsDelivered (O.taken output.old) (O.failures output.old) (O.taken output.new) (O.failures output.new) (plain_of text.now) result }
{
    let mut reply = Reply::new(output);
    print_plain(&mut reply, text);
    reply.finish()
}

/// Prints a reply as people read it.
pub fn print_plain<O: Output>(reply: &mut Reply<'_, O>, text: &[u8])
    ensures { PrintsText (printing O.Output reply.old reply.new) (plain_of text.now) }
{
    let mut rest = text;
    while !rest.is_empty() {
        let count = print_front(reply, rest);
        rest = rest.split_at(count).1;
    }
}

// Prints the front of a reply: the byte of an escape, or the text
// before the next one. Returns how many bytes of the reply that is.
fn print_front<O: Output>(reply: &mut Reply<'_, O>, text: &[u8]) -> usize
    requires { 0 < length text.now }
    ensures some { 0 < result }
    ensures within { result ≤ length text.now }
    ensures states { (front : List ℕ) × PrintsText (printing O.Output reply.old reply.new) front × (plain_of text.now ≡ front ++ plain_of (drop result text.now)) }
{
    match front_escape(text) {
        Some(byte) => {
            reply.print(&[byte]);
            ESCAPE
        }
        None => {
            let count = plain_front(text);
            reply.print(&text[..count]);
            count
        }
    }
}

// The byte of the escape that a text begins with, if it is a space or prints.
fn front_escape(text: &[u8]) -> Option<u8>
    ensures byte { result ≡ front_escape text.now }
    ensures within { IfSome result (λ _. 4 ≤ length text.now) }
{
    let (first, rest) = text.split_first()?;
    if *first == b'\\' {
        plain_escape(rest)
    } else {
        None
    }
}

// The byte of `xHH` at the front of the text after a backslash, if it is a space or prints.
fn plain_escape(rest: &[u8]) -> Option<u8>
    ensures byte { result ≡ plain_escape rest.now }
    ensures within { IfSome result (λ _. 3 ≤ length rest.now) }
{
    match rest {
        [b'x', high, low, ..] => {
            let high = (*high as char).to_digit(16)?;
            let low = (*low as char).to_digit(16)?;
            if_plain((16 * high + low) as u8)
        }
        _ => None,
    }
}

fn if_plain(byte: u8) -> Option<u8>
    ensures { result ≡ if_plain (Some byte) }
{
    if byte >= 0x20 && byte <= 0x7e {
        Some(byte)
    } else {
        None
    }
}

// How many bytes at the front of a text that begins with no escape are read as themselves: those before the next backslash.
fn plain_front(text: &[u8]) -> usize
    requires some { 0 < length text.now }
    requires no_escape { front_escape text.now ≡ None }
    ensures some { 0 < result }
    ensures within { result ≤ length text.now }
    ensures plain { plain_of text.now ≡ take result text.now ++ plain_of (drop result text.now) }
{
    let mut count = 1;
    while count < text.len() && text[count] != b'\\' {
        count += 1;
    }
    count
}
