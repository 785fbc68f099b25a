// Cases that are deleted one after the other, from the opening of their archive on.
ghost use Rattle.std.specs.Prelude.{◌≡◌, [], ℕ, List, IfErr, OnOk, Ok, Err};
ghost use Rattle.std.specs.List.{flat_map};
ghost use Rattle.archive_replies.specs.Texts.{dropped_line, unmet_line};
ghost use Rattle.intake.specs.Calls.{DeleteCall};
ghost use Rattle.intake.specs.Durable.{Durable};
ghost use Rattle.script_streams.specs.Replies.{PrintsReply, PrintsText, printing};
ghost use Rattle.stream_names.specs.declared.naming.Naming.{Naming};
ghost use Rattle.inspector_cli.specs.Asking.{line_streams};
ghost use Rattle.inspector_cli.specs.Deleting.{AreLines, DeletesAlone, DeletesAsLines, DeletesInTurn, IsLifeOfLines, IsSessionOfLines, TriesEach, told_of};
ghost use Rattle.inspector_cli.specs.Life.{LifeEnds};

use crate::fitting::print_gone;
use crate::laws::a_session_is_crash_safe;
use crate::run::close_streams;
use crate::session::{LifeFault, SessionFault};
use archive_replies::reason;
use disk_model::Disk;
use intake::{Archive, ArchiveFault, Settings, calls_lead_from_mark_to_mark, found_after_a_stop};
use script_streams::{Output, Reply, print_no, print_ok};
use std::alloc::Global;

/// Opens the archive on a disk, deletes the cases of these numbers in their order, each as the line `delete N` of a session does, and
/// hands the disk back. It prints `dropped N` for each, `unmet` if that is so, and `ok`. The first deletion that is refused ends it: the
/// cases before it are gone, and the reply ends with `no REASON`. It returns whether all are gone.
///
/// # Errors
///
/// `Open` if the archive could not be opened: nothing is written then, and the output is not touched. `Session` with `WriteFailed`
/// if the output failed: it has a front of the reply.
pub fn open_and_delete<O: Output, D: Disk>(
    alloc: Global,
    disk: D,
    settings: Settings,
    numbers: &[u32],
    unmet: bool,
    output: &mut O,
) -> (Result<bool, LifeFault>, D)
    ensures outcome { LifeEnds D.Disk settings.limit (line_streams [] result.0 (O.taken output.old) (O.taken output.new) (O.failures output.old) (O.failures output.new))
        disk result.0 result.1 (DeletesAlone D.Disk numbers.now unmet (O.taken output.old) (O.taken output.new)) }
    ensures headline { (naming : Naming) (line : ℕ → List ℕ) → AreLines line numbers.now → DeletesAsLines D.Disk naming line numbers.now disk result.0 result.1 }
{
    a_session_is_crash_safe::<D>();
    open_then_delete(alloc, disk, settings, numbers, unmet, output)
}

// Opens the archive on a disk, deletes the cases, and hands the disk back.
fn open_then_delete<O: Output, D: Disk>(
    alloc: Global,
    disk: D,
    settings: Settings,
    numbers: &[u32],
    unmet: bool,
    output: &mut O,
) -> (Result<bool, LifeFault>, D)
    ensures outcome { LifeEnds D.Disk settings.limit (line_streams [] result.0 (O.taken output.old) (O.taken output.new) (O.failures output.old) (O.failures output.new))
        disk result.0 result.1 (DeletesAlone D.Disk numbers.now unmet (O.taken output.old) (O.taken output.new)) }
    ensures lines { (naming : Naming) (line : ℕ → List ℕ) → AreLines line numbers.now → IsLifeOfLines D.Disk settings.limit naming line numbers.now disk result.0 result.1 }
{
    match Archive::open(alloc, disk, settings) {
        Ok(archive) => {
            let mut archive = archive;
            let deleted = delete_alone(numbers, unmet, output, &mut archive);
            let disk = archive.close();
            match deleted {
                Ok(is_done) => (Ok(is_done), disk),
                Err(fault) => (Err(LifeFault::Session(fault)), disk),
            }
        }
        Err((fault, disk)) => (Err(LifeFault::Open(fault)), disk),
    }
}

// Deletes the cases, as a session of such lines. Returns whether all are gone; if not, one is refused.
fn delete_alone<O: Output, D: Disk>(
    numbers: &[u32],
    unmet: bool,
    output: &mut O,
    archive: &mut Archive<D>,
) -> Result<bool, SessionFault>
    ensures outcome { DeletesAlone D.Disk numbers.now unmet (O.taken output.old) (O.taken output.new) result archive.old archive.new }
    ensures session { (naming : Naming) (line : ℕ → List ℕ) (before : List Durable) → AreLines line numbers.now
        → IsSessionOfLines D.Disk naming line numbers.now (record { archive = archive.old; in_doubt = before }) result archive.new }
{
    calls_lead_from_mark_to_mark::<D>();
    found_after_a_stop::<D>();
    let mut reply = Reply::new(output);
    let is_done = delete_in_turn(numbers, unmet, &mut reply, archive);
    close_streams(archive);
    let Ok(()) = reply.finish() else {
        return Err(SessionFault::WriteFailed);
    };
    Ok(is_done)
}

// Deletes the cases, and prints that. Returns whether all are gone.
fn delete_in_turn<O: Output, D: Disk>(
    numbers: &[u32],
    unmet: bool,
    reply: &mut Reply<'_, O>,
    archive: &mut Archive<D>,
) -> bool
    ensures { PrintsReply (printing O.Output reply.old reply.new) (λ text. DeletesInTurn D.Disk archive.old numbers.now unmet text result archive.new) }
{
    match delete_each(numbers, reply, archive) {
        Ok(()) => {
            print_unmet(unmet, reply);
            print_ok(reply);
            true
        }
        Err(fault) => {
            print_no(reply, reason(fault));
            false
        }
    }
}

// Prints that the limits do not hold, if that is so.
fn print_unmet<O: Output>(unmet: bool, reply: &mut Reply<'_, O>)
    ensures { PrintsText (printing O.Output reply.old reply.new) (unmet_line unmet) }
{
    if unmet {
        reply.print(b"unmet\n");
    }
}

// Deletes the cases up to the first that is refused, and prints those that are gone.
fn delete_each<O: Output, D: Disk>(
    numbers: &[u32],
    reply: &mut Reply<'_, O>,
    archive: &mut Archive<D>,
) -> Result<(), ArchiveFault>
    ensures { PrintsReply (printing O.Output reply.old reply.new) (λ text. (gone : List ℕ) × TriesEach D.Disk archive.old numbers.now result gone archive.new × (text ≡ flat_map dropped_line gone)) }
{
    for seq in numbers {
        delete_one(*seq, reply, archive)?;
    }
    Ok(())
}

// Deletes a case, and prints that.
fn delete_one<O: Output, D: Disk>(
    seq: u32,
    reply: &mut Reply<'_, O>,
    archive: &mut Archive<D>,
) -> Result<(), ArchiveFault>
    ensures deletes { DeleteCall D.Disk archive.old seq result archive.new }
    ensures states { PrintsText (printing O.Output reply.old reply.new) (told_of seq result) }
{
    archive.delete(seq)?;
    print_gone(reply, seq);
    Ok(())
}
