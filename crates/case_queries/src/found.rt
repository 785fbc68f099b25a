// Prints the results of a search in a core's memory.
ghost use Rattle.std.specs.Prelude.{◌≡◌, is_ok};
ghost use Rattle.std.specs.List.{flat_map};
ghost use Rattle.memory_replies.specs.Answers.{is_done};
ghost use Rattle.memory_replies.specs.Find.{address_line};
ghost use Rattle.script_streams.specs.Replies.{PrintsText, printing};
ghost use Rattle.case_queries.specs.Finding.{found_lines, found_reply, line_of_text, lines_of_texts};

use crate::walk::WalkFault;
use archive_replies::reason;
use elf_view::part;
use memory_replies::{Outcome, print_hex_word};
use script_streams::{Output, Reply, print_no, print_ok};
use windowed_search::{Found, FoundTexts};

// Prints a line for each of these addresses.
fn print_addresses<O: Output>(reply: &mut Reply<'_, O>, found: &[u64])
    ensures { PrintsText (printing O.Output reply.old reply.new) (flat_map address_line found.now) }
{
    for i in 0..found.len() {
        print_address(reply, found[i]);
    }
}

// Prints the line of an address.
fn print_address<O: Output>(reply: &mut Reply<'_, O>, address: u64)
    ensures { PrintsText (printing O.Output reply.old reply.new) (address_line address) }
{
    reply.print_hexadecimal(u128::from(address));
    reply.print(b"\n");
}

// Prints the line of a text that begins at `start` and has these bytes.
fn print_text<O: Output>(reply: &mut Reply<'_, O>, start: u64, count: u64, bytes: &[u8])
    ensures { PrintsText (printing O.Output reply.old reply.new) (line_of_text (start, count) bytes.now) }
{
    print_hex_word(reply, start);
    reply.print_decimal(u128::from(count));
    reply.print(b" ");
    reply.print_text(bytes);
    reply.print(b"\n");
}

// Prints a line for each text.
fn print_texts<O: Output>(reply: &mut Reply<'_, O>, texts: &FoundTexts)
    ensures { PrintsText (printing O.Output reply.old reply.new) (lines_of_texts texts.now.places.items texts.now.bytes.items) }
{
    let mut rest = texts.bytes.as_slice();
    for i in 0..texts.places.len() {
        let (start, count) = texts.places[i];
        let text = part(rest, 0, count);
        print_text(reply, start, count, text);
        rest = &rest[text.len()..];
    }
}

// Prints the lines of the results.
fn print_lines<O: Output>(reply: &mut Reply<'_, O>, found: &Found)
    ensures { PrintsText (printing O.Output reply.old reply.new) (found_lines found.now) }
{
    match found {
        Found::Addresses(addresses) => print_addresses(reply, addresses),
        Found::Texts(texts) => print_texts(reply, texts),
    }
}

// Prints the results of a search. Returns the outcome.
pub(crate) fn print_found<O: Output>(
    reply: &mut Reply<'_, O>,
    found: Result<Found, WalkFault>,
) -> Outcome
    ensures states { PrintsText (printing O.Output reply.old reply.new) (found_reply found) }
    ensures done { is_done result ≡ is_ok found }
{
    match found {
        Ok(found) => {
            print_lines(reply, &found);
            print_ok(reply);
            Outcome::Done
        }
        Err(WalkFault::Unread(fault)) => {
            print_no(reply, reason(fault));
            Outcome::Refused
        }
        Err(WalkFault::OutOfMemory) => {
            print_no(reply, b"OutOfMemory");
            Outcome::OutOfMemory
        }
    }
}
