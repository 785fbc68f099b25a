// The mapped files of a core with the cases that are used for them, kept when the core and the executables are looked at no longer.
ghost use Rattle.std.specs.Prelude.{◌≡◌, ◌∷◌, [], IfOk, map};
ghost use Rattle.std.specs.Option.{option_map};
ghost use Rattle.address_space.specs.SpaceWords.{attached_view};
ghost use Rattle.build_replies.specs.Mapped.{build_view};
ghost use Rattle.case_screens.specs.Files.{exec_number, stored_number};
ghost use Rattle.core_notes.specs.DescriptorWords.{auxv_bytes, pairs_left};
ghost use Rattle.core_notes.specs.FileWords.{files_left};
ghost use Rattle.elf_view.specs.ViewWords.{notes_of};
ghost use Rattle.elf_view.specs.declared.faults.Want.TheVariants.{Core};
ghost use Rattle.frame_replies.specs.Processes.{start_among};
ghost use Rattle.image_replies.specs.CoreWords.{core_bytes};
ghost use Rattle.journal_layout.specs.Case.{case_of};
ghost use Rattle.case_info.specs.Unpacking.{debug_view, name_at, name_kept, number_of, own_file, program_in, stored_of, unpacked_of, unpacked_view, unpacked_with};

use address_space::Attached;
use build_replies::BuildAnswer;
use case_tables::case_of_name;
use core_notes::{AuxvPairs, FileMaps};
use image_replies::CoreImage;
use journal_layout::{Entry, Kind};
use std::alloc::{AllocError, Global};

// AT_ENTRY: the address at which the program begins.
const AT_ENTRY: u64 = 9;

/// A mapped file, with the cases of the executable and the debug file that are used for it.
#[derive(Drop)]
pub struct UnpackedFile {
    /// Its name.
    pub name: Vec<u8>,
    /// The number of the executable that is used for it, if one is.
    pub case: Option<u32>,
    /// The debug file of that executable, if it is stored.
    pub debug: Option<DebugFile>,
}

/// A debug file that is stored.
#[derive(Drop)]
pub struct DebugFile {
    /// The number of its case.
    pub case: u32,
    /// The name that its build gives it.
    pub name: Vec<u8>,
}

// The address at which the program begins, by pairs of an auxiliary vector.
fn start_among(pairs: AuxvPairs<'_>) -> Option<u64>
    ensures { result ≡ start_among (pairs_left pairs.entry) }
{
    let mut rest = pairs;
    while let Some(pair) = rest.next() {
        if pair.kind == AT_ENTRY {
            return Some(pair.value);
        }
    }
    None
}

// The name of the first file that is mapped at an address.
fn name_at<'a>(maps: FileMaps<'a>, address: u64) -> Option<&'a [u8]>
    ensures { option_map (λ name. name.now) result ≡ name_at (files_left maps.entry) address }
{
    let mut rest = maps;
    while let Some(map) = rest.next() {
        if map.start <= address && address < map.past {
            return Some(map.name);
        }
    }
    None
}

// The name of a core's program: that of the file at its entry.
pub(crate) fn program_of<'a>(core: &CoreImage<'a>) -> Option<&'a [u8]>
    ensures { option_map (λ name. name.now) result ≡ program_in (notes_of Core (core_bytes core.now)) }
{
    let notes = core.notes();
    let start = start_among(notes.auxv()?.pairs())?;
    name_at(notes.files()?.maps(), start)
}

// The number of the executable that is stored under a name.
fn stored_number(cases: &[Entry], name: &[u8]) -> Option<u32>
    ensures { result ≡ stored_number (map case_of cases.now) name.now }
{
    exec_number(case_of_name(cases, name))
}

// The number of a case, if it is an executable.
fn exec_number(case: Option<&Entry>) -> Option<u32>
    ensures { result ≡ exec_number (option_map (λ e. case_of e.now) case.entry) }
{
    let case = case?;
    match case.kind {
        Kind::Core => None,
        Kind::Exec => Some(case.seq),
    }
}

// The number of a stored executable, if there is one.
fn number_of(cases: &[Entry], file: Option<Attached<'_>>) -> Option<u32>
    ensures { result ≡ number_of (map case_of cases.now) (option_map attached_view file.entry) }
{
    stored_number(cases, file?.path)
}

// A debug file of one's own.
fn debug_file(
    alloc: Global,
    cases: &[Entry],
    file: Option<Attached<'_>>,
) -> Result<Option<DebugFile>, AllocError>
    ensures { IfOk result (λ kept. option_map debug_view kept ≡ stored_of (map case_of cases.now) (option_map attached_view file.entry)) }
{
    let Some(file) = file else {
        return Ok(None);
    };
    let Some(case) = stored_number(cases, file.path) else {
        return Ok(None);
    };
    Ok(Some(DebugFile {
        case,
        name: file.path.to_vec(alloc)?,
    }))
}

// A mapped file by these facts, with the cases of an archive.
fn unpacked_file(
    alloc: Global,
    cases: &[Entry],
    row: &BuildAnswer<'_>,
) -> Result<UnpackedFile, AllocError>
    ensures { IfOk result (λ file. unpacked_view file ≡ unpacked_of (map case_of cases.now) (build_view row.now)) }
{
    Ok(UnpackedFile {
        name: row.front.name.to_vec(alloc)?,
        case: number_of(cases, row.chosen.used()),
        debug: debug_file(alloc, cases, row.debug)?,
    })
}

// Those of these rows.
fn unpacked_rows(
    alloc: Global,
    cases: &[Entry],
    rows: &[BuildAnswer<'_>],
) -> Result<Vec<UnpackedFile>, AllocError>
    ensures { IfOk result (λ files. map unpacked_view files.items ≡ map (unpacked_of (map case_of cases.now)) (map build_view rows.now)) }
{
    let mut files = Vec::new(alloc);
    for row in rows {
        files.push(unpacked_file(alloc, cases, row)?)?;
    }
    Ok(files)
}

// The mapped files of a core, by the facts that were read. A core without NT_FILE has no files.
pub(crate) fn unpacked_files(
    alloc: Global,
    cases: &[Entry],
    rows: Option<&[BuildAnswer<'_>]>,
) -> Result<Vec<UnpackedFile>, AllocError>
    ensures { IfOk result (λ files. map unpacked_view files.items ≡ unpacked_with (map case_of cases.now) (option_map (λ rows. map build_view rows.now) rows.entry)) }
{
    match rows {
        Some(rows) => unpacked_rows(alloc, cases, rows),
        None => Ok(Vec::new(alloc)),
    }
}

// An executable, by its own name.
pub(crate) fn own_file(alloc: Global, case: &Entry) -> Result<Vec<UnpackedFile>, AllocError>
    ensures { IfOk result (λ files. map unpacked_view files.items ≡ own_file (case_of case.now) ∷ []) }
{
    let mut files = Vec::new(alloc);
    files.push(UnpackedFile {
        name: case.name.as_slice().to_vec(alloc)?,
        case: Some(case.seq),
        debug: None,
    })?;
    Ok(files)
}

// A name of one's own.
pub(crate) fn kept_name(alloc: Global, name: Option<&[u8]>) -> Result<Option<Vec<u8>>, AllocError>
    ensures { IfOk result (λ kept. name_kept kept ≡ option_map (λ name. name.now) name.entry) }
{
    match name {
        Some(name) => Ok(Some(name.to_vec(alloc)?)),
        None => Ok(None),
    }
}
