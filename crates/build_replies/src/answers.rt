// The build IDs of a core's mapped files, next to those of the executables that are stored for them.
ghost use Rattle.std.specs.Prelude.{◌≡◌, IfOk, map};
ghost use Rattle.std.specs.Option.{option_map};
ghost use Rattle.address_space.specs.SpaceWords.{attached_view};
ghost use Rattle.build_replies.specs.Builds.{build_value, values_of};
ghost use Rattle.build_replies.specs.Mapped.{answers_view, build_view, id_view, told_view};
ghost use Rattle.build_replies.specs.TableWords.{table_rows};

use crate::choosing::{ChosenFile, debug_of};
use crate::ids::FrontId;
use crate::table::Table;
use address_space::Attached;
use std::alloc::{AllocError, Global};

/// A mapped file, with the build ID of its front, and the stored executable that belongs to it.
#[derive(Drop)]
pub struct BuildAnswer<'a> {
    /// Its name, and the build ID of its front, as far as the core has it.
    pub front: FrontId<'a>,
    /// The executable that is stored under the name of its build or under its path, whether it is used or not.
    pub chosen: ChosenFile<'a>,
    /// The debug file of the executable that is used.
    pub debug: Option<Attached<'a>>,
}

/// The answer for a mapped file. The only error is that there is no memory.
fn answer<'a>(
    alloc: Global,
    table: &Table<'a>,
    file: &FrontId<'a>,
) -> Result<BuildAnswer<'a>, AllocError>
    ensures { IfOk result (λ row. build_view row ≡ build_value (table_rows table.now) (id_view file.now)) }
{
    let chosen = ChosenFile::for_file(table, file);
    Ok(BuildAnswer {
        front: FrontId::new(alloc, file.name, file.id())?,
        chosen,
        debug: debug_of(table, chosen),
    })
}

/// The answers for these mapped files, with the executables that are stored. The only error is that there is no memory.
fn answers_of<'a>(
    alloc: Global,
    files: &[FrontId<'a>],
    stored: &[Attached<'a>],
) -> Result<Vec<BuildAnswer<'a>>, AllocError>
    ensures { IfOk result (λ rows. map build_view rows.items ≡ values_of (map attached_view stored.now) (map id_view files.now)) }
{
    let table = Table::of(alloc, stored)?;
    let mut rows = Vec::new(alloc);
    for file in files {
        rows.push(answer(alloc, &table, file)?)?;
    }
    Ok(rows)
}

/// The answers for the mapped files of a core, with the executables that are stored.
/// `None` is a core without NT_FILE. The only error is that there is no memory.
pub fn build_answers<'a>(
    alloc: Global,
    told: &Option<Vec<FrontId<'a>>>,
    stored: &[Attached<'a>],
) -> Result<Option<Vec<BuildAnswer<'a>>>, AllocError>
    ensures { IfOk result (λ rows. answers_view rows ≡ option_map (values_of (map attached_view stored.now)) (told_view told.now)) }
{
    match told {
        Some(files) => Ok(Some(answers_of(alloc, files, stored)?)),
        None => Ok(None),
    }
}
