// Which process holds the lock of a file.
ghost use Rattle.std.specs.Prelude.{◌≡◌, IfOk, string_bytes};
ghost use Rattle.std.specs.Iterator.{YieldsFirstBy};
ghost use Rattle.std.specs.Option.{option_map};
ghost use Rattle.mount_table.specs.Locks.{holder_in, locked_file, process_among, words_among, words_left};
ghost use Rattle.mount_table.specs.Pieces.{pieces_of};
ghost use Rattle.mount_table.specs.PiecesLeft.{piece_bytes};

use crate::devices::{major, minor};
use crate::pieces::Pieces;
use script_words::parse_number_within;
use std::alloc::{AllocError, Global};

// The highest number of a process.
const MOST_PROCESS: u64 = 0x7fff_ffff;

/// A file as `/proc/locks` has it: MAJOR:MINOR:INODE, the first two in hexadecimal digits.
pub fn locked_file(alloc: Global, device: u64, inode: u64) -> Result<String, AllocError>
    ensures { IfOk result (λ text. string_bytes text ≡ locked_file device inode) }
{
    let major = major(device);
    let minor = minor(device);
    format!(in alloc; "{major:02x}:{minor:02x}:{inode}")
}

/// The process that holds a lock on a file by flock(2), by the text of `/proc/locks` (proc_locks(5)): that of the first line with the file.
/// Nothing if that process has no number here, such as one of another PID namespace.
pub fn holder_in(text: &[u8], file: &[u8]) -> Option<u32>
    ensures { result ≡ holder_in text.now file.now }
{
    let mut lines = Pieces::new(text, b'\n');
    while let Some(line) = lines.next() {
        if let Some(process) = process_in(line, file) {
            let number = parse_number_within(process, 1, MOST_PROCESS)?;
            return Some(number as u32);
        }
    }
    None
}

// The process of a line, if it has a lock on the file.
fn process_in<'a>(line: &'a [u8], file: &[u8]) -> Option<&'a [u8]>
    ensures { option_map (λ process. process.now) result ≡ process_among file.now (words_among (pieces_of 32 line.now)) }
{
    let mut words = Pieces::new(line, b' ');
    let _number = next_word(&mut words)?;
    let kind = next_word(&mut words)?;
    let _strength = next_word(&mut words)?;
    let _mode = next_word(&mut words)?;
    let process = next_word(&mut words)?;
    let place = next_word(&mut words)?;
    if kind == b"FLOCK".as_slice() && place == file {
        Some(process)
    } else {
        None
    }
}

// The next piece that is not empty.
fn next_word<'a>(pieces: &mut Pieces<'a>) -> Option<&'a [u8]>
    ensures { YieldsFirstBy piece_bytes words_left pieces.old result pieces.new }
{
    while let Some(piece) = pieces.next() {
        if !piece.is_empty() {
            return Some(piece);
        }
    }
    None
}
