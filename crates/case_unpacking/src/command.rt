// The command.
use crate::contents::Placed;
use crate::copying::copy_to_file;
use crate::folder::NewFolder;
use crate::printing::{gdb_text, lldb_text, note_fault, place_text, print_unpacked};
use archive_files::{ArchivePath, Collected, Failure, Refusal, take_look};
use case_info::{DebugFile, UnpackedFile, Unpacking, unpacking_of};
use case_listing::latest_time;
use diagnostics::Onlooker;
use script_streams::Output;
use std::fs::File;
use std::rt::Files;
use std::str;
use std::time::Clock;

/// Writes a case into a new directory: the image of a core, the executables that are used for its mapped files, their debug files, and
/// the commands by which GDB and LLDB open them. For an executable it writes only that. The directory has its name only once all is
/// whole and durable, and each case was found again: until then it is called DIR.part, and a failure leaves neither. For each
/// executable the number of its case and its place are printed then. The case is named by its number, by its name, or as `last` or
/// `latest`.
///
/// # Errors
///
/// `BadLine`: the directory has no name. `File`: DIR or DIR.part is there, or a file could not be made. The refusals of `take_look`
/// of
/// `archive_files` and of an opening. `NoCase`: there is no such case, or one was deleted meanwhile. `OutOfMemory` and `Disk`.
/// `WriteFailed` if the output failed.
pub fn unpack<R: AllocGlobal + Files<File = File> + Clock, O: Output, W: Onlooker>(
    rt: &R,
    place: ArchivePath<'_>,
    case: &str,
    folder: &str,
    output: &mut O,
    note: &mut Collected,
    onlooker: &mut W,
) -> Result<(), Failure> {
    let mut folder = NewFolder::at(rt, folder)?;
    let until = latest_time(rt);
    let unpacking = unpacking_of(rt.alloc(), take_look(rt, place)?, case.as_bytes(), until)?;
    let placed = Placed::of(rt.alloc(), &unpacking)?;
    onlooker.begin("unpacks", None);
    let made = make(rt, place, &unpacking, &placed, &mut folder, onlooker);
    onlooker.end();
    made?;
    note_fault(rt.alloc(), &unpacking, note);
    Ok(print_unpacked(
        &placed.named,
        &placed.places,
        folder.path().as_bytes(),
        output,
    )?)
}

// Makes the directory, and gives it its name.
fn make<R: AllocGlobal + Files<File = File>, W: Onlooker>(
    rt: &R,
    place: ArchivePath<'_>,
    unpacking: &Unpacking,
    placed: &Placed<'_>,
    folder: &mut NewFolder<'_, R>,
    onlooker: &mut W,
) -> Result<(), Refusal> {
    match fill(rt, place, unpacking, placed, folder, onlooker) {
        Ok(()) => folder.give_name(),
        Err(refusal) => {
            folder.remove();
            Err(refusal)
        }
    }
}

// Makes the files. The core is the last: a debugger warns of executables that are newer.
fn fill<R: AllocGlobal + Files<File = File>, W: Onlooker>(
    rt: &R,
    place: ArchivePath<'_>,
    unpacking: &Unpacking,
    placed: &Placed<'_>,
    folder: &mut NewFolder<'_, R>,
    onlooker: &mut W,
) -> Result<(), Refusal> {
    folder.begin()?;
    make_executables(rt, place, placed, folder, onlooker)?;
    make_debug_files(rt, place, &unpacking.files, folder, onlooker)?;
    let described = placed.described(unpacking);
    folder.make_text("gdb", gdb_text(rt.alloc(), &described)?.text())?;
    folder.make_text("lldb", lldb_text(rt.alloc(), &described)?.text())?;
    if unpacking.is_core {
        make_image(rt, place, unpacking.seq, b"core", folder, onlooker)?;
    }
    Ok(())
}

fn make_executables<R: AllocGlobal + Files<File = File>, W: Onlooker>(
    rt: &R,
    place: ArchivePath<'_>,
    placed: &Placed<'_>,
    folder: &mut NewFolder<'_, R>,
    onlooker: &mut W,
) -> Result<(), Refusal> {
    for (file, at) in placed.named.iter().zip(&placed.places) {
        let text = place_text(rt.alloc(), *at)?;
        make_image(rt, place, file.case, text.text(), folder, onlooker)?;
    }
    Ok(())
}

fn make_debug_files<R: AllocGlobal + Files<File = File>, W: Onlooker>(
    rt: &R,
    place: ArchivePath<'_>,
    files: &[UnpackedFile],
    folder: &mut NewFolder<'_, R>,
    onlooker: &mut W,
) -> Result<(), Refusal> {
    for file in files {
        make_debug_file(rt, place, &file.debug, folder, onlooker)?;
    }
    Ok(())
}

// Makes a debug file, if there is one.
fn make_debug_file<R: AllocGlobal + Files<File = File>, W: Onlooker>(
    rt: &R,
    place: ArchivePath<'_>,
    debug: &Option<DebugFile>,
    folder: &mut NewFolder<'_, R>,
    onlooker: &mut W,
) -> Result<(), Refusal> {
    let Some(debug) = debug else {
        return Ok(());
    };
    let mut text = Vec::new(rt.alloc());
    text.extend_from_slice(b"debug/")?;
    text.extend_from_slice(&debug.name)?;
    make_image(rt, place, debug.case, &text, folder, onlooker)
}

// Makes a file of the image of a case, unless it was made before.
fn make_image<R: AllocGlobal + Files<File = File>, W: Onlooker>(
    rt: &R,
    place: ArchivePath<'_>,
    seq: u32,
    at: &[u8],
    folder: &mut NewFolder<'_, R>,
    onlooker: &mut W,
) -> Result<(), Refusal> {
    let Ok(at) = str::from_utf8(at) else {
        return Err(Refusal::BadLine);
    };
    match folder.make_file(at)? {
        Some(file) => copy_to_file(rt, place, seq, &file, onlooker),
        None => Ok(()),
    }
}
