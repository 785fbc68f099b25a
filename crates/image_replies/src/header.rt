// The reply to `header`.
ghost use Rattle.std.specs.Prelude.{◌≡◌, ◌<◌, ◌++◌, ◌^◌, length, Ok, is_ok};
ghost use Rattle.elf_view.specs.Header.{segments_of};
ghost use Rattle.elf_view.specs.ViewWords.{header_of, image_of};
ghost use Rattle.elf_view.specs.SegmentWords.{segment_view, segments_left};
ghost use Rattle.script_streams.specs.Replies.{PrintsText, printing, reply_of};
ghost use Rattle.image_replies.specs.Header as spec;

use crate::faults::print_elf_fault;
use crate::words::{print_address, print_number};
use elf_view::{Elf, Header, Segment, Segments, Want};
use script_streams::{Output, Reply, print_ok};

/// Prints the file header of an image and a line for each of its program headers, or the first of its checks that fails.
/// Returns whether they are printed; if not, the reply is `no REASON`.
pub fn print_header<O: Output>(reply: &mut Reply<'_, O>, image: &[u8], want: Want) -> bool
    ensures states { PrintsText (printing O.Output reply.old reply.new) (reply_of (spec.header_answer want image.now)) }
    ensures done { result ≡ is_ok (spec.header_answer want image.now) }
{
    match Elf::read(image, want) {
        Ok(elf) => {
            print_headers(reply, &elf);
            true
        }
        Err(fault) => {
            print_elf_fault(reply, fault);
            false
        }
    }
}

/// Prints the headers of an image, and `ok`.
fn print_headers<O: Output>(reply: &mut Reply<'_, O>, elf: &Elf<'_>)
    ensures { PrintsText (printing O.Output reply.old reply.new)
        (reply_of (Ok (spec.header_line (header_of (image_of elf.now)) ++ spec.segment_lines (segments_of (image_of elf.now))))) }
{
    print_header_line(reply, elf.header());
    print_segment_lines(reply, elf.segments());
    print_ok(reply);
}

fn print_header_line<O: Output>(reply: &mut Reply<'_, O>, header: Header)
    ensures { PrintsText (printing O.Output reply.old reply.new) (spec.header_line header) }
{
    reply.print(b"type ");
    reply.print_decimal(u128::from(header.kind));
    reply.print(b" entry ");
    reply.print_hexadecimal(u128::from(header.entry));
    reply.print(b" flags ");
    reply.print_hexadecimal(u128::from(header.flags));
    reply.print(b" segments ");
    reply.print_decimal(u128::from(header.segments));
    reply.print(b"\n");
}

/// Prints a line for each program header, the first being number 0.
fn print_segment_lines<O: Output>(reply: &mut Reply<'_, O>, segments: Segments<'_>)
    requires { length (segments_left segments) < 2 ^ 32 }
    ensures { PrintsText (printing O.Output reply.old reply.new) (spec.segment_lines (segments_left segments.entry)) }
{
    let mut rest = segments;
    let mut index: u64 = 0;
    while let Some(segment) = rest.next() {
        print_segment_line(reply, index, &segment);
        index += 1;
    }
}

fn print_segment_line<O: Output>(reply: &mut Reply<'_, O>, index: u64, segment: &Segment<'_>)
    ensures { PrintsText (printing O.Output reply.old reply.new)
        (spec.segment_line index (segment_view segment.now)) }
{
    print_number(reply, u128::from(index));
    print_type(reply, segment.kind);
    reply.print(b" ");
    reply.print(&flag_letters(segment.flags));
    reply.print(b" ");
    print_address(reply, segment.offset);
    print_address(reply, segment.vaddr);
    print_address(reply, segment.filesz);
    reply.print_hexadecimal(u128::from(segment.memsz));
    reply.print(b"\n");
}

/// Prints a p_type: `load`, `note` or its number.
fn print_type<O: Output>(reply: &mut Reply<'_, O>, kind: u32)
    ensures { PrintsText (printing O.Output reply.old reply.new) (spec.type_word kind) }
{
    match kind {
        1 => reply.print(b"load"),
        4 => reply.print(b"note"),
        _ => reply.print_hexadecimal(u128::from(kind)),
    }
}

/// How p_flags print: `r`, `w` and `x`, each of them `-` if its flag (PF_R, PF_W, PF_X) is not set.
pub fn flag_letters(flags: u32) -> [u8; 3]
    ensures { result ≡ spec.flag_letters flags }
{
    [
        flag_letter(flags, 2, b'r'),
        flag_letter(flags, 1, b'w'),
        flag_letter(flags, 0, b'x'),
    ]
}

fn flag_letter(flags: u32, bit: u32, letter: u8) -> u8
    requires { bit < 32 }
    ensures { result ≡ spec.flag_letter flags bit letter }
{
    if flags >> bit & 1 == 1 { letter } else { b'-' }
}
