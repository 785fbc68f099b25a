// A session from its first line to its end.
ghost use Rattle.intake.specs.Durable.{Durable};
ghost use Rattle.inspector_cli.specs.Session.{SessionEnds, DropsStreams, streams_of};
ghost use Rattle.inspector_cli.specs.Answering.{session_fault};
ghost use Rattle.std.specs.Prelude.{◌≡◌, List};

use crate::script::{ScriptStop, answer_script};
use crate::session::SessionFault;
use disk_model::Disk;
use intake::{Archive, calls_lead_from_mark_to_mark, found_after_a_stop};
use script_streams::{Input, Output, ReadStop, Reply, ScriptBuffer};
use std::alloc::Global;
use stream_names::Naming;

/// Reads a script to its end, answers its commands in order, and drops the streams that are open then.
///
/// # Errors
///
/// `ReadFailed` if the input failed, and `TooManyReads` if 2^40 reads were made and each gave a byte: the commands
/// that are whole in the bytes that were read are answered. `WriteFailed` if the output failed: it has a front of the replies. No
/// line that was read after a write had failed is carried out, since its reply could not be seen.
/// In each case no stream is open.
pub fn run_session<I: Input, O: Output, D: Disk>(
    alloc: Global,
    input: &mut I,
    output: &mut O,
    archive: &mut Archive<D>,
    naming: &Naming,
) -> Result<(), SessionFault>
    ensures { (before : List Durable) → SessionEnds D.Disk naming.now (streams_of I.Input O.Output input.old input.new output.old output.new)
        (record { archive = archive.old; in_doubt = before }) archive.new result }
{
    calls_lead_from_mark_to_mark::<D>();
    found_after_a_stop::<D>();
    let mut buffer = ScriptBuffer::new();
    let mut reply = Reply::new(output);
    let answered = answer_script(alloc, &mut buffer, input, &mut reply, archive, naming);
    close_streams(archive);
    let Ok(()) = reply.finish() else {
        return Err(SessionFault::WriteFailed);
    };
    match answered {
        Ok(()) => Ok(()),
        Err(stop) => Err(session_fault(stop)),
    }
}

// The result of a session whose script was not answered to its end.
fn session_fault(stop: ScriptStop) -> SessionFault
    ensures { result ≡ session_fault stop }
{
    match stop {
        ScriptStop::Read(ReadStop::ReadFailed) => SessionFault::ReadFailed,
        ScriptStop::Read(ReadStop::TooManyReads) => SessionFault::TooManyReads,
        ScriptStop::Unheard => SessionFault::WriteFailed,
    }
}

// Drops the streams that are open.
pub(crate) fn close_streams<D: Disk>(archive: &mut Archive<D>)
    ensures { DropsStreams D.Disk archive.old archive.new }
{
    for slot in 0..8u8 {
        let _ = archive.abandon(slot);
    }
}
