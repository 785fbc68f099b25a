// The reply to `notes`.
ghost use Rattle.std.specs.Prelude.{◌≡◌, ◌<◌, ◌^◌, length, Ok, is_ok};
ghost use Rattle.elf_view.specs.ViewWords.{image_of, notes_of, want_of};
ghost use Rattle.elf_view.specs.NoteWords.{note_view, notes_left};
ghost use Rattle.script_streams.specs.Replies.{PrintsText, printing, reply_of};
ghost use Rattle.image_replies.specs.Notes as spec;

use crate::faults::print_elf_fault;
use crate::words::{print_address, print_number};
use elf_view::{Elf, Note, Notes, Want};
use script_streams::{Output, Reply, print_ok};

/// Prints a line for each note of a core, or the first check of its headers and notes that fails. It does not look into typed
/// notes. Returns whether they are printed; if not, the reply is `no REASON`.
pub fn print_notes<O: Output>(reply: &mut Reply<'_, O>, image: &[u8]) -> bool
    ensures states { PrintsText (printing O.Output reply.old reply.new) (reply_of (spec.notes_answer image.now)) }
    ensures done { result ≡ is_ok (spec.notes_answer image.now) }
{
    match Elf::read(image, Want::Core) {
        Ok(elf) => {
            print_note_list(reply, notes_in(&elf));
            true
        }
        Err(fault) => {
            print_elf_fault(reply, fault);
            false
        }
    }
}

/// The notes of an image are so few that a number of 128 bits counts them. It does nothing.
#[tactic(auto, using(crate::proofs::CountLemmas::notes_few))]
pub(crate) fn notes_are_few(elf: &Elf<'_>)
    ensures { length (notes_of (want_of elf.now) (image_of elf.now)) < 2 ^ 128 }
{
    let _headers = elf.segments();
    let _length = elf.image().len();
}

/// The notes of an image.
fn notes_in<'a>(elf: &Elf<'a>) -> Notes<'a>
    ensures notes { notes_left result ≡ notes_of (want_of elf.now) (image_of elf.now) }
    ensures few { length (notes_left result) < 2 ^ 128 }
{
    notes_are_few(elf);
    elf.notes()
}

/// Prints the notes, and `ok`.
fn print_note_list<O: Output>(reply: &mut Reply<'_, O>, notes: Notes<'_>)
    requires { length (notes_left notes) < 2 ^ 128 }
    ensures { PrintsText (printing O.Output reply.old reply.new)
        (reply_of (Ok (spec.note_lines (notes_left notes.entry)))) }
{
    print_note_lines(reply, notes);
    print_ok(reply);
}

/// Prints a line for each note, the first being number 0.
fn print_note_lines<O: Output>(reply: &mut Reply<'_, O>, notes: Notes<'_>)
    requires { length (notes_left notes) < 2 ^ 128 }
    ensures { PrintsText (printing O.Output reply.old reply.new) (spec.note_lines (notes_left notes.entry)) }
{
    let mut rest = notes;
    let mut index: u128 = 0;
    while let Some(note) = rest.next() {
        print_note_line(reply, index, &note);
        index += 1;
    }
}

fn print_note_line<O: Output>(reply: &mut Reply<'_, O>, index: u128, note: &Note<'_>)
    ensures { PrintsText (printing O.Output reply.old reply.new) (spec.note_line index (note_view note.now)) }
{
    print_number(reply, index);
    reply.print_text(note.name);
    reply.print(b" ");
    print_address(reply, u64::from(note.kind));
    reply.print_decimal(note.desc.len() as u128);
    reply.print(b"\n");
}
