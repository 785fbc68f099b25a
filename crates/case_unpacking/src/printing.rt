// The report about the unpacked files.
ghost use Rattle.std.specs.Prelude.{◌≡◌, IfOk};
ghost use Rattle.std.specs.List.{flat_map, zip};
ghost use Rattle.case_info.specs.Screens.{held};
ghost use Rattle.script_streams.specs.Replies.{PrintsText, printing};
ghost use Rattle.script_streams.specs.Printing.{IsDelivered};
ghost use Rattle.case_unpacking.specs.GdbCommands.{gdb_text, lldb_text, text_of};
ghost use Rattle.case_unpacking.specs.Told.{place_line, unpacked_text};

use crate::{NamedCase, Place, Unpacked, print_gdb, print_lldb};
use archive_files::{Collected, Refusal};
use case_info::Unpacking;
use image_replies::{CoreFault, print_core_fault};
use script_streams::{Output, Reply, StreamFault};
use std::alloc::Global;

// The commands for GDB.
pub(crate) fn gdb_text(alloc: Global, unpacked: &Unpacked<'_>) -> Result<Collected, Refusal>
    ensures { IfOk result (λ text. held text ≡ gdb_text unpacked.now) }
{
    let mut text = Collected::new(alloc);
    let mut reply = Reply::new(&mut text);
    print_gdb(&mut reply, unpacked);
    match reply.finish() {
        Ok(()) => Ok(text),
        Err(_) => Err(Refusal::OutOfMemory),
    }
}

// The commands for LLDB.
pub(crate) fn lldb_text(alloc: Global, unpacked: &Unpacked<'_>) -> Result<Collected, Refusal>
    ensures { IfOk result (λ text. held text ≡ lldb_text unpacked.now) }
{
    let mut text = Collected::new(alloc);
    let mut reply = Reply::new(&mut text);
    print_lldb(&mut reply, unpacked);
    match reply.finish() {
        Ok(()) => Ok(text),
        Err(_) => Err(Refusal::OutOfMemory),
    }
}

// How a place is written.
pub(crate) fn place_text(alloc: Global, place: Place<'_>) -> Result<Collected, Refusal>
    ensures { IfOk result (λ text. held text ≡ text_of place.entry) }
{
    let mut text = Collected::new(alloc);
    let mut reply = Reply::new(&mut text);
    place.print(&mut reply);
    match reply.finish() {
        Ok(()) => Ok(text),
        Err(_) => Err(Refusal::OutOfMemory),
    }
}

// Prints for each executable the number of its case and its place, and how a debugger is started.
pub(crate) fn print_unpacked<O: Output>(
    named: &[NamedCase<'_>],
    places: &[Place<'_>],
    folder: &[u8],
    output: &mut O,
) -> Result<(), StreamFault>
    ensures { IsDelivered (O.taken output.old) (O.failures output.old) (O.taken output.new) (O.failures output.new) (unpacked_text named.now places.now folder.now) result }
{
    let mut reply = Reply::new(output);
    print_places(&mut reply, named, places);
    reply.print(b"cd ");
    reply.print_text(folder);
    reply.print(b" && gdb-multiarch -x gdb\n");
    reply.finish()
}

fn print_places<O: Output>(reply: &mut Reply<'_, O>, named: &[NamedCase<'_>], places: &[Place<'_>])
    ensures { PrintsText (printing O.Output reply.old reply.new) (flat_map place_line (zip named.now places.now)) }
{
    let count = named.len().min(places.len());
    for at in 0..count {
        print_place(reply, named[at], places[at]);
    }
}

fn print_place<O: Output>(reply: &mut Reply<'_, O>, file: NamedCase<'_>, place: Place<'_>)
    ensures { PrintsText (printing O.Output reply.old reply.new) (place_line (file.entry, place.entry)) }
{
    reply.print_decimal(u128::from(file.case));
    reply.print(b" ");
    place.print(reply);
    reply.print(b"\n");
}

// Notes why a core is unpacked without its files, if it is.
pub(crate) fn note_fault(alloc: Global, unpacking: &Unpacking, note: &mut Collected) {
    let Some(fault) = unpacking.fault else {
        return;
    };
    let reason = fault_text(alloc, fault);
    let mut reply = Reply::new(note);
    reply.print_decimal(u128::from(unpacking.seq));
    reply.print(b": its files are not known: ");
    reply.print(reason.text().trim_ascii_end());
    let _ = reply.finish();
}

fn fault_text(alloc: Global, fault: CoreFault) -> Collected {
    let mut text = Collected::new(alloc);
    let mut reply = Reply::new(&mut text);
    print_core_fault(&mut reply, fault);
    let _ = reply.finish();
    text
}
