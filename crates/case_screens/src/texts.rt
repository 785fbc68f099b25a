// The small texts of a screen.
ghost use Rattle.std.specs.Prelude.{◌≡◌, ◌+◌, ◌-◌, ◌<◌, ◌≤◌, length};
ghost use Rattle.std.specs.List.{flat_map};
ghost use Rattle.case_tables.specs.Table.{left_text};
ghost use Rattle.script_streams.specs.Replies.{PrintsText, printing};
ghost use Rattle.case_screens.specs.Reasons.{named};
ghost use Rattle.case_screens.specs.ReasonWords.{reason_view};
ghost use Rattle.case_screens.specs.Texts.{is_of_another_machine, label_at, more_words, name_text, plain_byte, plain_text, refusal_text, refused_line, rest_after, rest_line, without_space};

use crate::reason::Reason;
use case_tables::{print_spaces, shown_length};
use script_streams::{Output, Reply};
use script_words::print_byte;

// The text before a line that continues the one above it.
pub(crate) const MARGIN: &[u8] = b"          ";

// How many bytes of a name are shown at most.
const NAME_BYTES: usize = 256;

// Prints a line's label at the first of its rows, and as many spaces at the others.
pub(crate) fn print_label<O: Output>(reply: &mut Reply<'_, O>, label: &[u8], row: usize)
    ensures { PrintsText (printing O.Output reply.old reply.new) (label_at label.now row) }
{
    if row == 0 {
        reply.print(label);
    } else {
        reply.print(MARGIN);
    }
}

// Prints a text at the left of a column, and two spaces.
pub(crate) fn print_left<O: Output>(reply: &mut Reply<'_, O>, width: usize, text: &[u8])
    ensures { PrintsText (printing O.Output reply.old reply.new) (left_text width text.now) }
{
    reply.print(text);
    print_spaces(reply, width.saturating_sub(text.len()));
    reply.print(b"  ");
}

// Prints a name as a script prints it: its first bytes, and how many more it has.
pub(crate) fn print_name<O: Output>(reply: &mut Reply<'_, O>, name: &[u8])
    ensures { PrintsText (printing O.Output reply.old reply.new) (name_text name.now) }
{
    if name.len() > NAME_BYTES {
        reply.print_text(&name[..NAME_BYTES]);
        print_more(reply, name.len() - NAME_BYTES);
    } else {
        reply.print_text(name);
    }
}

fn print_more<O: Output>(reply: &mut Reply<'_, O>, count: usize)
    ensures { PrintsText (printing O.Output reply.old reply.new) (more_words count) }
{
    reply.print(b".. and ");
    reply.print_decimal(count as u128);
    reply.print(b" more");
}

// Prints how many more there are than that many, if there are more.
pub(crate) fn print_rest_after<O: Output>(
    reply: &mut Reply<'_, O>,
    label: &[u8],
    most: usize,
    count: usize,
)
    ensures { PrintsText (printing O.Output reply.old reply.new) (rest_after label.now most count) }
{
    if count > most {
        print_rest(reply, label, count - most);
    }
}

fn print_rest<O: Output>(reply: &mut Reply<'_, O>, label: &[u8], count: usize)
    ensures { PrintsText (printing O.Output reply.old reply.new) (rest_line label.now count) }
{
    reply.print(label);
    print_more(reply, count);
    reply.print(b"\n");
}

// How many spaces stand in a column of that width after a name, and so many bytes more.
pub(crate) fn room_after(width: usize, name: &[u8], more: usize) -> usize
    requires { width ≤ 128 }
    ensures { result ≡ width - (length (name_text name.now) + more) }
{
    if name.len() >= width {
        return 0;
    }
    width
        .saturating_sub(shown_length(name))
        .saturating_sub(more)
}

// A text without the space that may end it.
fn without_space(text: &[u8]) -> &[u8]
    ensures { result.now ≡ without_space text.now }
{
    let length = text.len();
    if length == 0 || text[length - 1] != b' ' {
        return text;
    }
    &text[..length - 1]
}

// Prints a text for people: its spaces are spaces.
pub(crate) fn print_plain<O: Output>(reply: &mut Reply<'_, O>, text: &[u8])
    ensures { PrintsText (printing O.Output reply.old reply.new) (plain_text text.now) }
{
    if text.is_empty() {
        reply.print(b"-");
    } else {
        print_plain_bytes(reply, without_space(text));
    }
}

fn print_plain_bytes<O: Output>(reply: &mut Reply<'_, O>, text: &[u8])
    ensures { PrintsText (printing O.Output reply.old reply.new) (flat_map plain_byte text.now) }
{
    for byte in text {
        print_plain_byte(reply, *byte);
    }
}

fn print_plain_byte<O: Output>(reply: &mut Reply<'_, O>, byte: u8)
    ensures { PrintsText (printing O.Output reply.old reply.new) (plain_byte byte) }
{
    if byte == b' ' {
        reply.print(b" ");
    } else {
        reply.print(print_byte(byte).as_slice());
    }
}

/// Prints why something is not shown.
pub fn print_refusal<O: Output>(reply: &mut Reply<'_, O>, reason: &Reason<'_>)
    ensures { PrintsText (printing O.Output reply.old reply.new) (refusal_text (reason_view reason.now)) }
{
    let name = reason.name;
    if name == b"Missing".as_slice() {
        reply.print(b"not in the core");
    } else if name == b"NoThread".as_slice() {
        reply.print(b"the core has no thread");
    } else if name == b"Magic".as_slice() {
        reply.print(b"no ELF file");
    } else if is_of_another_machine(name) {
        reply.print(b"of another machine: ");
        print_named(reply, reason);
    } else {
        reply.print(b"damaged: ");
        print_named(reply, reason);
    }
}

fn is_of_another_machine(name: &[u8]) -> bool
    ensures { result ≡ is_of_another_machine name.now }
{
    name == b"e_machine".as_slice()
        || name == b"EI_CLASS".as_slice()
        || name == b"EI_DATA".as_slice()
}

/// Prints a reason as a script does.
pub fn print_named<O: Output>(reply: &mut Reply<'_, O>, reason: &Reason<'_>)
    ensures { PrintsText (printing O.Output reply.old reply.new) (named reason.now.name.now reason.now.index) }
{
    reply.print(reason.name);
    if let Some(index) = reason.index {
        reply.print(b" ");
        reply.print_decimal(u128::from(index));
    }
}

// Prints a line that says why something is not shown.
pub(crate) fn print_refused<O: Output>(reply: &mut Reply<'_, O>, label: &[u8], reason: &Reason<'_>)
    ensures { PrintsText (printing O.Output reply.old reply.new) (refused_line label.now (reason_view reason.now)) }
{
    reply.print(label);
    print_refusal(reply, reason);
    reply.print(b"\n");
}
