// From the opening of an archive on.
ghost use Rattle.inspector_cli.specs.Session.{streams_of};
ghost use Rattle.inspector_cli.specs.Headline.{Headline};
ghost use Rattle.inspector_cli.specs.Life.{LifeEnds, RunsOver};

use crate::laws::a_session_is_crash_safe;
use crate::run::run_session;
use crate::session::LifeFault;
use disk_model::Disk;
use intake::{Archive, Settings};
use script_streams::{Input, Output};
use std::alloc::Global;
use stream_names::Naming;

/// Opens the archive on a disk, runs a session over it, and hands the disk back.
///
/// Crash safety, whole: on an honest disk that encodes an archive, after a stop of the machine or not, the session is one over
/// exactly that archive. Whenever the machine stops, in the opening or from then on, between two disk writes or within one,
/// an opening of the bytes that are left finds exactly the cases and images after a line of the script that is not before the last one
/// that was answered, or, if the disk failed, those that this line would have left. A disk fault is answered only if the
/// disk failed.
///
/// # Errors
///
/// `Open` if the archive could not be opened: nothing is written then, and no stream is touched. `Session` as
/// `run_session` ends.
pub fn open_and_run<I: Input, O: Output, D: Disk>(
    alloc: Global,
    disk: D,
    settings: Settings,
    naming: &Naming,
    input: &mut I,
    output: &mut O,
) -> (Result<(), LifeFault>, D)
    ensures crash_safe { let streams = streams_of I.Input O.Output input.old input.new output.old output.new in LifeEnds D.Disk settings.limit streams disk result.0 result.1 (RunsOver D.Disk naming.now streams) }
    ensures headline { Headline (Unit {0}) D.Disk naming.now (streams_of I.Input O.Output input.old input.new output.old output.new) disk result.0 result.1 }
{
    a_session_is_crash_safe::<D>();
    open_then_run(alloc, disk, settings, naming, input, output)
}

// Opens the archive on a disk, runs a session over it, and hands the disk back.
fn open_then_run<I: Input, O: Output, D: Disk>(
    alloc: Global,
    disk: D,
    settings: Settings,
    naming: &Naming,
    input: &mut I,
    output: &mut O,
) -> (Result<(), LifeFault>, D)
    ensures crash_safe { let streams = streams_of I.Input O.Output input.old input.new output.old output.new in LifeEnds D.Disk settings.limit streams disk result.0 result.1 (RunsOver D.Disk naming.now streams) }
{
    match Archive::open(alloc, disk, settings) {
        Ok(archive) => {
            let mut archive = archive;
            let ended = run_session(alloc, input, output, &mut archive, naming);
            let disk = archive.close();
            match ended {
                Ok(()) => (Ok(()), disk),
                Err(fault) => (Err(LifeFault::Session(fault)), disk),
            }
        }
        Err((fault, disk)) => (Err(LifeFault::Open(fault)), disk),
    }
}
