// Mapped files for which the same executables are chosen.
ghost use Rattle.std.specs.Prelude.{◌≡◌, ◌∷◌, ◌++◌, [], IfOk, IsTrue, OnOk, map};
ghost use Rattle.std.specs.Option.{option_map};
ghost use Rattle.address_space.specs.SpaceWords.{attached_view};
ghost use Rattle.build_replies.specs.Choosing.{choice_of};
ghost use Rattle.build_replies.specs.Mapped.{id_view};
ghost use Rattle.build_replies.specs.TableWords.{table_rows};

use crate::choosing::ChosenFile;
use crate::ids::FrontId;
use crate::table::Table;
use address_space::Attached;
use std::alloc::{AllocError, Global};

/// Puts a mapped file after others, if it has one of the executables. The error is that there is no memory.
fn add_chosen<'a>(
    alloc: Global,
    some: &mut Vec<FrontId<'a>>,
    stored: &Table<'_>,
    file: &FrontId<'a>,
) -> Result<(), AllocError>
    ensures { OnOk result (choice_of (map id_view some.new.items) (table_rows stored.now) ≡ choice_of (map id_view some.old.items ++ id_view file.now ∷ []) (table_rows stored.now)) }
{
    if let ChosenFile::Nothing = ChosenFile::for_file(stored, file) {
        return Ok(());
    }
    let copy = FrontId::new(alloc, file.name, file.id())?;
    some.push(copy)?;
    Ok(())
}

/// Those of mapped files that have one of these executables, used or not. The choice for them equals the choice for all. The only error
/// is that there is no memory.
pub fn chosen_files<'a>(
    alloc: Global,
    files: &[FrontId<'a>],
    stored: &[Attached<'_>],
) -> Result<Vec<FrontId<'a>>, AllocError>
    ensures { IfOk result (λ some. choice_of (map id_view some.items) (map attached_view stored.now) ≡ choice_of (map id_view files.now) (map attached_view stored.now)) }
{
    let table = Table::of(alloc, stored)?;
    let mut some = Vec::new(alloc);
    for file in files {
        add_chosen(alloc, &mut some, &table, file)?;
    }
    Ok(some)
}

/// Whether two IDs are the same, or none.
fn is_same_id(a: Option<&[u8]>, b: Option<&[u8]>) -> bool
    ensures { IsTrue result → option_map (λ id. id.now) a.entry ≡ option_map (λ id. id.now) b.entry }
{
    match (a, b) {
        (Some(a), Some(b)) => a == b,
        (None, None) => true,
        _ => false,
    }
}

fn is_same(a: &FrontId<'_>, b: &FrontId<'_>) -> bool
    ensures { IsTrue result → id_view a.now ≡ id_view b.now }
{
    a.name == b.name && is_same_id(a.id(), b.id())
}

/// Whether these are the same mapped files, with the same build IDs, in the same order.
pub fn are_same_files(a: &[FrontId<'_>], b: &[FrontId<'_>]) -> bool
    ensures { IsTrue result → map id_view a.now ≡ map id_view b.now }
{
    if a.len() != b.len() {
        return false;
    }
    for i in 0..a.len() {
        if !is_same(&a[i], &b[i]) {
            return false;
        }
    }
    true
}
