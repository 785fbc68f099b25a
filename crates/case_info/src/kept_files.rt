// The mapped files of a core, kept when the core and the executables are looked at no longer.
ghost use Rattle.std.specs.Prelude.{◌≡◌, ◌++◌, ◌∷◌, [], IfOk, OnOk, map};
ghost use Rattle.std.specs.Option.{option_map};
ghost use Rattle.build_replies.specs.ChoosingWords.{chosen_view};
ghost use Rattle.build_replies.specs.Mapped.{build_view};
ghost use Rattle.case_info.specs.Gathering.{file_of, file_view, files_view, files_with, id_kept, used_id};

use build_ids::build_id;
use build_replies::{BuildAnswer, ChosenFile};
use std::alloc::{AllocError, Global};

// A mapped file of a core.
#[derive(Drop)]
pub(crate) struct KeptFile {
    // Its name.
    pub(crate) name: Vec<u8>,
    // The build ID that the core has for it, if it has one.
    pub(crate) told: Option<Vec<u8>>,
    // Whether an executable that is stored is used for it.
    pub(crate) is_used: bool,
    // The build ID of this executable, if it has one.
    pub(crate) used: Option<Vec<u8>>,
}

// An ID of one's own.
fn kept_id(alloc: Global, id: Option<&[u8]>) -> Result<Option<Vec<u8>>, AllocError>
    ensures { IfOk result (λ kept. id_kept kept ≡ option_map (λ id. id.now) id.entry) }
{
    match id {
        Some(id) => Ok(Some(id.to_vec(alloc)?)),
        None => Ok(None),
    }
}

// An ID that is kept, borrowed.
pub(crate) fn lent_id(kept: &Option<Vec<u8>>) -> Option<&[u8]>
    ensures { option_map (λ id. id.now) result ≡ id_kept kept.now }
{
    match kept {
        Some(id) => Some(id.as_slice()),
        None => None,
    }
}

// The build ID of the executable that is used, if one is.
fn used_id<'a>(chosen: ChosenFile<'a>) -> Option<&'a [u8]>
    ensures { option_map (λ id. id.now) result ≡ used_id (chosen_view chosen.entry) }
{
    build_id(chosen.used()?.image)
}

// A mapped file by these facts.
fn kept_file(alloc: Global, row: &BuildAnswer<'_>) -> Result<KeptFile, AllocError>
    ensures { IfOk result (λ file. file_view file ≡ file_of (build_view row.now)) }
{
    Ok(KeptFile {
        name: row.front.name.to_vec(alloc)?,
        told: kept_id(alloc, row.front.id())?,
        is_used: row.chosen.used().is_some(),
        used: kept_id(alloc, used_id(row.chosen))?,
    })
}

// Those of these rows.
fn files_of_rows(alloc: Global, rows: &[BuildAnswer<'_>]) -> Result<Vec<KeptFile>, AllocError>
    ensures { IfOk result (λ files. map file_view files.items ≡ map file_of (map build_view rows.now)) }
{
    let mut files = Vec::new(alloc);
    for row in rows {
        files.push(kept_file(alloc, row)?)?;
    }
    Ok(files)
}

// The mapped files of a core, by the facts that were read. A core without NT_FILE has no files.
pub(crate) fn kept_files(
    alloc: Global,
    rows: Option<&[BuildAnswer<'_>]>,
) -> Result<Vec<KeptFile>, AllocError>
    ensures { IfOk result (λ files. map file_view files.items ≡ files_with (option_map (λ rows. map build_view rows.now) rows.entry)) }
{
    match rows {
        Some(rows) => files_of_rows(alloc, rows),
        None => Ok(Vec::new(alloc)),
    }
}

// Puts the files of a core after those of others.
pub(crate) fn push_files(
    cores: &mut Vec<Vec<KeptFile>>,
    files: Vec<KeptFile>,
) -> Result<(), AllocError>
    ensures { OnOk result (map files_view cores.new.items ≡ map files_view cores.old.items ++ files_view files ∷ []) }
{
    cores.push(files)?;
    Ok(())
}
