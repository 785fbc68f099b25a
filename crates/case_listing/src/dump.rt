// The reply to `dump` as people read it: after the bytes of each row they stand as text.
use crate::print_plain;
use archive_files::Failure;
use arrayvec::ArrayVec;
use case_tables::print_spaces;
use script_streams::{Output, Reply};
use script_words::{Words, decode_hex};

// The most bytes of a row.
const ROW: usize = 16;

// Prints the reply of `dump` that ended so.
pub(crate) fn deliver_dump<O: Output>(
    text: &[u8],
    asked: Result<(), Failure>,
    output: &mut O,
) -> Result<(), Failure> {
    let mut reply = Reply::new(output);
    for line in text.split(|byte| *byte == b'\n') {
        if !line.is_empty() {
            print_row(&mut reply, line);
        }
    }
    reply.finish()?;
    asked
}

// Prints a line of the reply, and the text of its bytes below that of the other rows.
fn print_row<O: Output>(reply: &mut Reply<'_, O>, line: &[u8]) {
    print_plain(reply, line);
    if let Some(bytes) = bytes_of(line) {
        print_spaces(reply, 2 + 2 * ROW.saturating_sub(bytes.len()));
        for byte in &bytes {
            reply.print(&[printed(*byte)]);
        }
    }
    reply.print(b"\n");
}

// The bytes of a row that has some: those of the core, or of an executable.
fn bytes_of(line: &[u8]) -> Option<ArrayVec<u8, 64>> {
    let mut words = Words::new(line).skip(1);
    let first = words.next()?;
    let digits = match words.next() {
        None => first,
        Some(second) if first == b"file".as_slice() => second,
        Some(_) => return None,
    };
    match words.next() {
        None => decode_hex(digits),
        Some(_) => None,
    }
}

// A byte as it prints, or a dot.
fn printed(byte: u8) -> u8 {
    match byte {
        0x20..=0x7e => byte,
        _ => b'.',
    }
}
