// The report of a salvage on an archive, line by line.
ghost use Rattle.std.specs.Prelude.{◌≡◌, []};
ghost use Rattle.journal_layout.specs.Case.{case_of};
ghost use Rattle.script_streams.specs.Replies.{PrintsText, printing};
ghost use Rattle.salvage.specs.Texts.{case_line, deleting_words, fault_line, fault_words, front_lines, loss_words, mark_reason, mark_words, shape_line};
ghost use Rattle.salvage.specs.Told.{AreCopied, AreLost, IsLost, IsMarked, PrintsCases, PrintsLines, copied_cases};

use crate::cases_found::{Found, Loss};
use crate::records::Read;
use journal_layout::{Entry, OpenFault, Shape};
use script_streams::{Output, Reply};

/// The report on a case.
#[derive(Clone, Copy, PartialEq, Eq)]
pub(crate) enum Mark {
    /// It is copied, and is as it was stored.
    Whole,
    /// It is copied, and may be another or none. The record at this place deletes it, if one does.
    Doubtful(Option<u64>),
    /// It is copied, and a block of it is behind the end of the file.
    Cut,
    /// It is not copied. The record at this place deletes it, if one does.
    Lost(Loss, Option<u64>),
}

/// Reports the first fault of an archive, or that it is sound, and then for each copied case whether it is whole. The cases that a
/// record stores and that are not copied come last, each with its reason. Returns whether all was printed.
pub fn print_cases<O: Output>(found: &Found, output: &mut O) -> bool
    ensures { PrintsCases found.now (O.taken output.old) (O.taken output.new) (O.failures output.old) (O.failures output.new) result }
{
    let mut reply = Reply::new(output);
    print_front(&mut reply, found);
    print_copied(&mut reply, found);
    print_lost(&mut reply, found);
    let sent = reply.finish();
    sent.is_ok()
}

// Reports the first fault, and the shape that is assumed for the archive, if that is another than it says.
fn print_front<O: Output>(reply: &mut Reply<'_, O>, found: &Found)
    ensures { PrintsText (printing O.Output reply.old reply.new) (front_lines found.now) }
{
    let Some(mend) = found.mend else {
        print_fault(reply, found.fault());
        return;
    };
    print_fault(reply, Some(mend.fault));
    print_shape(reply, mend.shape);
    if found.fault().is_some() {
        print_fault(reply, found.fault());
    }
}

fn print_shape<O: Output>(reply: &mut Reply<'_, O>, shape: Shape)
    ensures { PrintsText (printing O.Output reply.old reply.new) (shape_line shape) }
{
    reply.print(b"shape --half ");
    reply.print_decimal(u128::from(shape.half_blocks));
    reply.print(b" --data ");
    reply.print_decimal(u128::from(shape.data_blocks));
    reply.print(b"\n");
}

// Reports the copied cases, in the order of their numbers.
fn print_copied<O: Output>(reply: &mut Reply<'_, O>, found: &Found)
    ensures { PrintsLines (printing O.Output reply.old reply.new) (AreCopied found.now (copied_cases found.now)) }
{
    for entry in found.entries() {
        let mark = mark_of(found, entry);
        print_case(reply, entry.seq, mark, entry.name.as_slice());
    }
}

// The report on a copied case.
fn mark_of(found: &Found, entry: &Entry) -> Mark
    ensures { IsMarked found.now (case_of entry.now) result }
{
    if found.is_whole(entry) {
        return Mark::Whole;
    }
    if found.is_cut(entry) {
        return Mark::Cut;
    }
    Mark::Doubtful(found.deleted_at(entry.seq))
}

// Reports the lost cases, in the order of their numbers.
fn print_lost<O: Output>(reply: &mut Reply<'_, O>, found: &Found)
    ensures { PrintsLines (printing O.Output reply.old reply.new) (AreLost found.now [] found.now.scan.reads.items) }
{
    let reads = found.scan.reads.as_slice();
    let mut left = reads.len();
    while left > 0 {
        left -= 1;
        print_if_lost(reply, found, &reads[..left], &reads[left]);
    }
}

// Reports a read, if its case is lost.
fn print_if_lost<O: Output>(reply: &mut Reply<'_, O>, found: &Found, before: &[Read], read: &Read)
    ensures { PrintsLines (printing O.Output reply.old reply.new) (IsLost found.now before.now (case_of read.now.entry)) }
{
    let Some(loss) = found.loss(before, read) else {
        return;
    };
    let mark = Mark::Lost(loss, found.deleted_at(read.entry.seq));
    print_case(reply, read.entry.seq, mark, read.entry.name.as_slice());
}

fn print_fault<O: Output>(reply: &mut Reply<'_, O>, fault: Option<OpenFault>)
    ensures { PrintsText (printing O.Output reply.old reply.new) (fault_line fault) }
{
    match fault {
        Some(fault) => {
            reply.print(b"fault ");
            print_reason(reply, fault);
            reply.print(b"\n");
        }
        None => reply.print(b"sound\n"),
    }
}

// Reports why an opening is refused.
fn print_reason<O: Output>(reply: &mut Reply<'_, O>, fault: OpenFault)
    ensures { PrintsText (printing O.Output reply.old reply.new) (fault_words fault) }
{
    match fault {
        OpenFault::Disk => reply.print(b"Disk"),
        OpenFault::NotAnArchive => reply.print(b"NotAnArchive"),
        OpenFault::OutOfMemory => reply.print(b"OutOfMemory"),
        OpenFault::UnknownVersion(version) => {
            reply.print(b"UnknownVersion ");
            reply.print_decimal(u128::from(version));
        }
        OpenFault::Damaged { at, field } => {
            reply.print(b"Damaged ");
            reply.print_decimal(u128::from(at));
            reply.print(b" ");
            reply.print(field.name().as_bytes());
        }
    }
}

fn print_case<O: Output>(reply: &mut Reply<'_, O>, seq: u32, mark: Mark, name: &[u8])
    ensures { PrintsText (printing O.Output reply.old reply.new) (case_line seq mark name.now) }
{
    reply.print_decimal(u128::from(seq));
    reply.print(words(mark));
    reply.print_text(name);
    print_reason_of(reply, mark);
    reply.print(b"\n");
}

fn words(mark: Mark) -> &'static [u8]
    ensures { result.now ≡ mark_words mark }
{
    match mark {
        Mark::Whole => b" whole ",
        Mark::Doubtful(_) | Mark::Cut => b" doubtful ",
        Mark::Lost(_, _) => b" lost ",
    }
}

// Reports why a case is lost, and which record deletes a case.
fn print_reason_of<O: Output>(reply: &mut Reply<'_, O>, mark: Mark)
    ensures { PrintsText (printing O.Output reply.old reply.new) (mark_reason mark) }
{
    match mark {
        Mark::Whole => {}
        Mark::Doubtful(place) => print_deleting(reply, b" deleted at ", place),
        Mark::Cut => reply.print(b" cut off"),
        Mark::Lost(loss, place) => {
            reply.print(loss_words(loss));
            print_deleting(reply, b", deleted at ", place);
        }
    }
}

fn print_deleting<O: Output>(reply: &mut Reply<'_, O>, words: &[u8], place: Option<u64>)
    ensures { PrintsText (printing O.Output reply.old reply.new) (deleting_words words.now place) }
{
    if let Some(place) = place {
        reply.print(words);
        reply.print_decimal(u128::from(place));
    }
}

fn loss_words(loss: Loss) -> &'static [u8]
    ensures { result.now ≡ loss_words loss }
{
    match loss {
        Loss::Number => b" number of another",
        Loss::Name => b" name of another",
        Loss::Block => b" block of another",
        Loss::Room => b" no room",
    }
}
