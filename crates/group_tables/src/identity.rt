//! The name of a group.
ghost use Rattle.std.specs.Prelude.{◌≡◌, IfOk, length, map};
ghost use Rattle.sha2.specs.Sha256.{sha256};
ghost use Rattle.script_streams.specs.Replies.{PrintsText, printing};
ghost use Rattle.crash_signatures.specs.WordViews.{said};
ghost use Rattle.group_tables.specs.Identity as spec;
ghost use Rattle.group_tables.specs.Values.{crash_said};

use crate::kept::KeptText;
use crate::rows::Crash;
use crate::words::print_word;
use arrayvec::ArrayVec;
use case_tables::print_signal;
use crash_signatures::Word;
use script_streams::{Output, Reply};
use script_words::print_hex_row;
use sha2::{Digest, Sha256};
use std::alloc::{AllocError, Global};

/// The name of a group: 16 hexadecimal digits by its program, its signal and its signature. Archives whose cores are looked at with the
/// same executables have one name for one crash.
///
/// # Errors
///
/// There is no memory.
pub fn group_name(alloc: Global, crash: &Crash) -> Result<ArrayVec<u8, 32>, AllocError>
    ensures { IfOk result (λ name. name.items ≡ spec.group_name (crash_said crash.now)) }
{
    let lines = crash_lines(alloc, crash)?;
    let digest = Sha256::digest(lines.as_slice());
    Ok(print_hex_row(&digest[..8]))
}

// The lines that the name is computed from.
fn crash_lines(alloc: Global, crash: &Crash) -> Result<Vec<u8>, AllocError>
    ensures { IfOk result (λ lines. lines.items ≡ spec.crash_lines (crash_said crash.now)) }
{
    let mut text = KeptText::new(alloc);
    let mut reply = Reply::new(&mut text);
    print_lines(&mut reply, crash);
    match reply.finish() {
        Ok(()) => Ok(text.into_text()),
        Err(_) => Err(AllocError),
    }
}

fn print_lines<O: Output>(reply: &mut Reply<'_, O>, crash: &Crash)
    ensures { PrintsText (printing O.Output reply.old reply.new) (spec.crash_lines (crash_said crash.now)) }
{
    reply.print_text(&crash.program);
    reply.print(b"\n");
    print_signal(reply, crash.signal);
    reply.print(b"\n");
    print_word_lines(reply, crash.signature.words.as_slice());
    print_end(reply, crash.signature.is_missing);
}

// Prints a line for each word.
fn print_word_lines<O: Output>(reply: &mut Reply<'_, O>, words: &[Word])
    ensures { PrintsText (printing O.Output reply.old reply.new) (spec.word_lines (map said words.now)) }
{
    for word in words {
        print_word(reply, word);
        reply.print(b"\n");
    }
}

fn print_end<O: Output>(reply: &mut Reply<'_, O>, is_missing: bool)
    ensures { PrintsText (printing O.Output reply.old reply.new) (spec.missing_line is_missing) }
{
    if is_missing {
        reply.print(b"..\n");
    }
}
