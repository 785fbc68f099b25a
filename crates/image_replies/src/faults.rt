// The text of the reason for which an image is refused.
ghost use Rattle.image_replies.specs.Reasons as reasons;
ghost use Rattle.script_streams.specs.Replies.{PrintsText, printing, no_reply};

use crate::core_image::CoreFault;
use core_notes::NoteFault;
use elf_view::ElfFault;
use script_streams::{Output, Reply, print_no};

/// Prints `no`, the name of a field and a number.
fn print_indexed<O: Output>(reply: &mut Reply<'_, O>, name: &[u8], index: u64)
    ensures { PrintsText (printing O.Output reply.old reply.new) (no_reply (reasons.indexed name.now index)) }
{
    reply.print(b"no ");
    reply.print(name);
    reply.print(b" ");
    reply.print_decimal(u128::from(index));
    reply.print(b"\n");
}

/// Prints why an image is not accepted: `no FIELD`, or `no FIELD INDEX` for a field of a program header or of a note.
pub fn print_elf_fault<O: Output>(reply: &mut Reply<'_, O>, fault: ElfFault)
    ensures { PrintsText (printing O.Output reply.old reply.new) (no_reply (reasons.elf_reason fault)) }
{
    let name = fault.field.name().as_bytes();
    if fault.field.has_index() {
        print_indexed(reply, name, fault.index);
    } else {
        print_no(reply, name);
    }
}

/// Prints which descriptor of a typed note is bad: `no FIELD INDEX`.
pub fn print_note_fault<O: Output>(reply: &mut Reply<'_, O>, fault: NoteFault)
    ensures { PrintsText (printing O.Output reply.old reply.new) (no_reply (reasons.note_reason fault)) }
{
    print_indexed(reply, fault.field.name().as_bytes(), fault.index);
}

/// Prints why a core is not shown: `no FIELD`, or `no FIELD INDEX`.
pub fn print_core_fault<O: Output>(reply: &mut Reply<'_, O>, fault: CoreFault)
    ensures { PrintsText (printing O.Output reply.old reply.new) (no_reply (reasons.core_reason fault)) }
{
    match fault {
        CoreFault::Elf(fault) => print_elf_fault(reply, fault),
        CoreFault::Note(fault) => print_note_fault(reply, fault),
    }
}
