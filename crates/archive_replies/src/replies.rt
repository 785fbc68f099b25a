// The texts of replies.
ghost use Rattle.std.specs.Prelude.{◌≡◌, ◌++◌, map};
ghost use Rattle.std.specs.List.{flat_map};
ghost use Rattle.journal_layout.specs.Case.{case_of};
ghost use Rattle.script_streams.specs.Replies.{ok_reply, no_reply, PrintsText, printing};
ghost use Rattle.archive_replies.specs.Texts.{plain_reply, begin_reply, end_reply, retire_reply, dropped_line, free_reply, number_word, case_line, label_word, kind_name, pin_name};

use crate::reasons::reason;
use intake::{ArchiveFault, Space};
use journal_layout::{Entry, Kind};
use retention::Decision;
use script_streams::{Output, Reply, print_no, print_ok};

/// Prints a call's answer that has no lines.
pub fn print_outcome<O: Output>(reply: &mut Reply<'_, O>, outcome: Result<(), ArchiveFault>)
    ensures { PrintsText (printing O.Output reply.old reply.new) (plain_reply outcome) }
{
    match outcome {
        Ok(()) => print_ok(reply),
        Err(fault) => print_no(reply, reason(fault)),
    }
}

/// Prints the name of a stream that was begun, or why it was not.
pub fn print_begun<O: Output>(
    reply: &mut Reply<'_, O>,
    name: &[u8],
    outcome: Result<(), ArchiveFault>,
)
    ensures { PrintsText (printing O.Output reply.old reply.new) (begin_reply name.now outcome) }
{
    match outcome {
        Ok(()) => {
            reply.print(b"name ");
            reply.print_text(name);
            reply.print(b"\n");
            print_ok(reply);
        }
        Err(fault) => print_no(reply, reason(fault)),
    }
}

/// Prints the number of a case that was stored, or why it was not.
pub fn print_stored<O: Output>(reply: &mut Reply<'_, O>, outcome: Result<u32, ArchiveFault>)
    ensures { PrintsText (printing O.Output reply.old reply.new) (end_reply outcome) }
{
    match outcome {
        Ok(seq) => {
            reply.print(b"stored ");
            reply.print_decimal(u128::from(seq));
            reply.print(b"\n");
            print_ok(reply);
        }
        Err(fault) => print_no(reply, reason(fault)),
    }
}

/// Prints the cases that were dropped, and whether the limits do not hold even so; or why none was dropped.
pub fn print_retired<O: Output>(reply: &mut Reply<'_, O>, outcome: Result<Decision, ArchiveFault>)
    ensures { PrintsText (printing O.Output reply.old reply.new) (retire_reply outcome) }
{
    match outcome {
        Ok(decision) => {
            print_dropped(reply, decision.dropped.as_slice());
            if decision.unmet {
                reply.print(b"unmet\n");
            }
            print_ok(reply);
        }
        Err(fault) => print_no(reply, reason(fault)),
    }
}

// Prints a line for each case that was dropped.
fn print_dropped<O: Output>(reply: &mut Reply<'_, O>, dropped: &[u32])
    ensures { PrintsText (printing O.Output reply.old reply.new) (flat_map dropped_line dropped.now) }
{
    for seq in dropped {
        reply.print(b"dropped ");
        reply.print_decimal(u128::from(*seq));
        reply.print(b"\n");
    }
}

/// Prints how many data blocks are free, and how many there are.
pub fn print_free<O: Output>(reply: &mut Reply<'_, O>, outcome: Result<Space, ArchiveFault>)
    ensures { PrintsText (printing O.Output reply.old reply.new) (free_reply outcome) }
{
    match outcome {
        Ok(space) => {
            reply.print(b"free ");
            reply.print_decimal(u128::from(space.free));
            reply.print(b" of ");
            reply.print_decimal(u128::from(space.data_blocks));
            reply.print(b"\n");
            print_ok(reply);
        }
        Err(fault) => print_no(reply, reason(fault)),
    }
}

/// Prints a line for each case of an archive of this version of the layout: version 2 keeps labels.
pub fn print_cases<O: Output>(reply: &mut Reply<'_, O>, version: u32, cases: &[Entry])
    ensures { PrintsText (printing O.Output reply.old reply.new) (flat_map (case_line version) (map case_of cases.now) ++ ok_reply) }
{
    for entry in cases {
        print_case(reply, version, entry);
    }
    print_ok(reply);
}

// Prints the line of a case.
fn print_case<O: Output>(reply: &mut Reply<'_, O>, version: u32, entry: &Entry)
    ensures { PrintsText (printing O.Output reply.old reply.new) (case_line version (case_of entry.now)) }
{
    print_number(reply, entry.seq as u64);
    reply.print(kind_word(entry.kind));
    reply.print(b" ");
    print_number(reply, entry.length);
    print_number(reply, entry.pid as u64);
    print_number(reply, entry.signal as u64);
    print_number(reply, entry.time);
    reply.print(pin_word(entry.pinned));
    reply.print(b" ");
    reply.print_text(entry.name.as_slice());
    print_label(reply, version, entry.label.as_slice());
    reply.print(b"\n");
}

// Prints a space and the label of a case, if the archive's version keeps labels.
fn print_label<O: Output>(reply: &mut Reply<'_, O>, version: u32, label: &[u8])
    ensures { PrintsText (printing O.Output reply.old reply.new) (label_word version label.now) }
{
    if version == 2 {
        reply.print(b" ");
        reply.print_text(label);
    }
}

// Prints a number and a space.
fn print_number<O: Output>(reply: &mut Reply<'_, O>, number: u64)
    ensures { PrintsText (printing O.Output reply.old reply.new) (number_word number) }
{
    reply.print_decimal(u128::from(number));
    reply.print(b" ");
}

fn kind_word(kind: Kind) -> &'static [u8]
    ensures { result.now ≡ kind_name kind }
{
    match kind {
        Kind::Core => b"core",
        Kind::Exec => b"exec",
    }
}

fn pin_word(pinned: bool) -> &'static [u8]
    ensures { result.now ≡ pin_name pinned }
{
    if pinned { b"pinned" } else { b"-" }
}
