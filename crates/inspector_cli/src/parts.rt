// The bytes of a part.
ghost use Rattle.std.specs.Prelude.{◌≡◌, ℕ, ◌<◌, ◌≤◌, List, []};
ghost use Rattle.intake.specs.Parts.{Parts};
ghost use Rattle.script_lines.specs.Said.{part_of};
ghost use Rattle.script_streams.specs.Reading.{Stops, steps_left};
ghost use Rattle.inspector_cli.specs.Reply.{Takes};
ghost use Rattle.stream_names.specs.declared.naming.Naming.{Naming};
ghost use Rattle.script_streams.specs.Replies.{PrintsText, printing};
ghost use Rattle.inspector_cli.specs.Answering.{PieceEnds, PartEnds, PartAnswers, SkipEnds, reading};

use archive_replies::print_outcome;
use disk_model::Disk;
use intake::{Archive, ArchiveFault};
use script_streams::{Input, Output, ReadStop, Reply, ScriptBuffer, print_no};

// Answers a part. Returns whether all of its bytes were there.
pub(crate) fn answer_part<I: Input, O: Output, D: Disk>(
    slot: u8,
    count: u32,
    buffer: &mut ScriptBuffer,
    input: &mut I,
    reply: &mut Reply<'_, O>,
    archive: &mut Archive<D>,
) -> Result<bool, ReadStop>
    ensures answers { (naming : Naming) → PartAnswers D.Disk naming
        (reading I.Input input.old input.new buffer.old buffer.new)
        (printing O.Output reply.old reply.new)
        archive.old (part_of slot count) archive.new result }
    ensures stops { Stops (I.failures input.old) (I.failures input.new) buffer.new result }
{
    let (missing, verdict) = take_part(slot, count, buffer, input, reply, archive)?;
    if missing == 0 {
        print_outcome(reply, verdict);
        return Ok(true);
    }
    let _ = archive.abandon(slot);
    print_no(reply, b"Truncated");
    Ok(false)
}

// Takes the bytes of a part. Returns how many were missing if the input ended, and the archive's answer.
fn take_part<I: Input, O: Output, D: Disk>(
    slot: u8,
    count: u32,
    buffer: &mut ScriptBuffer,
    input: &mut I,
    reply: &mut Reply<'_, O>,
    archive: &mut Archive<D>,
) -> Result<(u32, Result<(), ArchiveFault>), ReadStop>
    ensures takes { PartEnds D.Disk
        (reading I.Input input.old input.new buffer.old buffer.new) archive.old slot count
        archive.new result }
    ensures stops { Stops (I.failures input.old) (I.failures input.new) buffer.new result }
    ensures states { PrintsText (printing O.Output reply.old reply.new) [] }
{
    let mut verdict = archive.advance(slot, 0);
    let mut missing = count;
    while missing > 0 {
        let (taken, answer) = take_piece(slot, missing, verdict, buffer, input, reply, archive)?;
        verdict = answer;
        if taken == 0 {
            return Ok((missing, verdict));
        }
        missing -= taken;
    }
    Ok((missing, verdict))
}

// Takes the next bytes of a part, or throws them away once it is refused.
fn take_piece<I: Input, O: Output, D: Disk>(
    slot: u8,
    most: u32,
    verdict: Result<(), ArchiveFault>,
    buffer: &mut ScriptBuffer,
    input: &mut I,
    reply: &mut Reply<'_, O>,
    archive: &mut Archive<D>,
) -> Result<(u32, Result<(), ArchiveFault>), ReadStop>
    requires { 0 < most }
    ensures takes { (begun : Parts D) (so_far : List ℕ)
        → Takes D.Disk begun slot so_far verdict archive.old
        → PieceEnds D.Disk (reading I.Input input.old input.new buffer.old buffer.new) begun slot so_far most verdict archive.new result }
    ensures stops { Stops (I.failures input.old) (I.failures input.new) buffer.new result }
    ensures states { PrintsText (printing O.Output reply.old reply.new) [] }
{
    match verdict {
        Ok(()) => fill_piece(slot, most, buffer, input, reply, archive),
        Err(fault) => {
            let skipped = skip_piece(most, buffer, input, reply)?;
            Ok((skipped, Err(fault)))
        }
    }
}

// Takes the next bytes of a part into the free part of the stream's block.
fn fill_piece<I: Input, O: Output, D: Disk>(
    slot: u8,
    most: u32,
    buffer: &mut ScriptBuffer,
    input: &mut I,
    reply: &mut Reply<'_, O>,
    archive: &mut Archive<D>,
) -> Result<(u32, Result<(), ArchiveFault>), ReadStop>
    requires { 0 < most }
    ensures takes { (begun : Parts D) (so_far : List ℕ)
        → Takes D.Disk begun slot so_far (Ok tt) archive.old
        → PieceEnds D.Disk (reading I.Input input.old input.new buffer.old buffer.new) begun slot so_far most (Ok tt) archive.new result }
    ensures stops { Stops (I.failures input.old) (I.failures input.new) buffer.new result }
    ensures states { PrintsText (printing O.Output reply.old reply.new) [] }
{
    let (lent, room) = archive.room(slot);
    if let Err(fault) = lent {
        return Ok((0, Err(fault)));
    }
    let size = room.len().min(most as usize);
    let taken = buffer.next_raw(input, &mut room[..size], reply)?;
    let answer = archive.advance(slot, taken);
    Ok((taken as u32, answer))
}

// Throws the next bytes of a part away.
fn skip_piece<I: Input, O: Output>(
    most: u32,
    buffer: &mut ScriptBuffer,
    input: &mut I,
    reply: &mut Reply<'_, O>,
) -> Result<u32, ReadStop>
    requires { 0 < most }
    ensures skips { SkipEnds
        (reading I.Input input.old input.new buffer.old buffer.new) most result }
    ensures stops { Stops (I.failures input.old) (I.failures input.new) buffer.new result }
    ensures states { PrintsText (printing O.Output reply.old reply.new) [] }
{
    let mut scratch = [0u8; 4096];
    let size = scratch.len().min(most as usize);
    let taken = buffer.next_raw(input, &mut scratch[..size], reply)?;
    Ok(taken as u32)
}
