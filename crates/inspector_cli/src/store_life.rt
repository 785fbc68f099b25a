// One stream, stored from the opening of its archive on.
ghost use Rattle.stream_names.specs.Commands.{stream_found};
ghost use Rattle.inspector_cli.specs.Session.{streams_of};
ghost use Rattle.inspector_cli.specs.StoreHeadline.{StoreHeadline};
ghost use Rattle.inspector_cli.specs.Life.{LifeEnds, StoresOver};
ghost use Rattle.inspector_cli.specs.Storing.{options_asked};

use crate::laws::a_store_is_crash_safe;
use crate::session::{LifeFault, StoreOptions, StoreOutcome};
use crate::store::store_stream;
use disk_model::Disk;
use intake::{Archive, Settings};
use retention::Policy;
use script_streams::{Input, Output};
use std::alloc::Global;
use stream_names::NewStream;

/// Opens the archive on a disk, stores one stream as `store_stream` does, and hands the disk back. Crash safety is that of
/// `open_and_run` over those of the lines `retire`, `begin`, `end 0`, `label` and `pin` that were carried out. So a
/// machine that stops once cases are retired may have lost these cases, and not have the new one; and one that stops once the
/// case is stored may not have its label, nor its pin.
///
/// # Errors
///
/// `Open` if the archive could not be opened: nothing is written then, and no stream is touched. `Session` as
/// `store_stream` ends.
pub fn open_and_store<I: Input, O: Output, D: Disk>(
    alloc: Global,
    disk: D,
    settings: Settings,
    policy: Option<Policy>,
    found: Result<NewStream, &'static [u8]>,
    options: &StoreOptions,
    file: &mut I,
    output: &mut O,
) -> (Result<StoreOutcome, LifeFault>, D)
    ensures crash_safe { let streams = streams_of I.Input O.Output file.old file.new output.old output.new in LifeEnds D.Disk settings.limit streams disk result.0 result.1 (StoresOver D.Disk policy (stream_found found.entry) (options_asked options.now) streams) }
    ensures headline { StoreHeadline D.Disk (streams_of I.Input O.Output file.old file.new output.old output.new) policy (stream_found found.entry) (options_asked options.now) disk result.0 result.1 }
{
    a_store_is_crash_safe::<D>();
    open_then_store(alloc, disk, settings, policy, found, options, file, output)
}

// Opens the archive on a disk, stores one stream, and hands the disk back.
fn open_then_store<I: Input, O: Output, D: Disk>(
    alloc: Global,
    disk: D,
    settings: Settings,
    policy: Option<Policy>,
    found: Result<NewStream, &'static [u8]>,
    options: &StoreOptions,
    file: &mut I,
    output: &mut O,
) -> (Result<StoreOutcome, LifeFault>, D)
    ensures crash_safe { let streams = streams_of I.Input O.Output file.old file.new output.old output.new in LifeEnds D.Disk settings.limit streams disk result.0 result.1 (StoresOver D.Disk policy (stream_found found.entry) (options_asked options.now) streams) }
{
    match Archive::open(alloc, disk, settings) {
        Ok(archive) => {
            let mut archive = archive;
            let ended = store_stream(policy, found, options, file, output, &mut archive);
            let disk = archive.close();
            match ended {
                Ok(outcome) => (Ok(outcome), disk),
                Err(fault) => (Err(LifeFault::Session(fault)), disk),
            }
        }
        Err((fault, disk)) => (Err(LifeFault::Open(fault)), disk),
    }
}
