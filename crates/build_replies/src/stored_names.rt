// The names under which the executables of a core's mapped files may be stored.
ghost use Rattle.std.specs.Prelude.{◌≡◌, ◌∷◌, ◌++◌, [], IfOk, OnOk, map};
ghost use Rattle.std.specs.Option.{option_map};
ghost use Rattle.address_space.specs.SpaceWords.{attached_view};
ghost use Rattle.build_replies.specs.Mapped.{id_view};
ghost use Rattle.build_replies.specs.NameWords as spec;
ghost use Rattle.build_replies.specs.TableWords.{path_of, table_rows};

use crate::ids::FrontId;
use crate::table::Table;
use address_space::Attached;
use arrayvec::ArrayVec;
use build_ids::{build_id, build_name, debug_name, has_name};
use std::alloc::{AllocError, Global};

/// Puts the name of the build of an ID after the others, if it has one. The error is that there is no memory.
fn add_build(names: &mut Vec<ArrayVec<u8, 128>>, id: Option<&[u8]>) -> Result<(), AllocError>
    ensures { OnOk result (map spec.name_bytes names.new.items ≡ map spec.name_bytes names.old.items ++ spec.name_of_build (option_map (λ id. id.now) id.entry)) }
{
    let Some(id) = id else {
        return Ok(());
    };
    if !has_name(id) {
        return Ok(());
    }
    names.push(build_name(id))?;
    Ok(())
}

/// The names of the builds of mapped files, of those whose build ID has one. The error is that there is no memory.
pub fn build_names(
    alloc: Global,
    files: &[FrontId<'_>],
) -> Result<Vec<ArrayVec<u8, 128>>, AllocError>
    ensures { IfOk result (λ names. map spec.name_bytes names.items ≡ spec.builds_named (map id_view files.now)) }
{
    let mut names = Vec::new(alloc);
    for file in files {
        add_build(&mut names, file.id())?;
    }
    Ok(names)
}

/// Puts the name of the debug file of an ID after the others, if it has one. The error is that there is no memory.
fn add_debug(names: &mut Vec<ArrayVec<u8, 128>>, id: Option<&[u8]>) -> Result<(), AllocError>
    ensures { OnOk result (map spec.name_bytes names.new.items ≡ map spec.name_bytes names.old.items ++ spec.name_of_debug (option_map (λ id. id.now) id.entry)) }
{
    let Some(id) = id else {
        return Ok(());
    };
    if has_name(id) {
        names.push(debug_name(id))?;
    }
    Ok(())
}

/// The names of the debug files of executables, of those whose build ID has one. The error is that there is no memory.
pub fn debug_names(
    alloc: Global,
    used: &[Attached<'_>],
) -> Result<Vec<ArrayVec<u8, 128>>, AllocError>
    ensures { IfOk result (λ names. map spec.name_bytes names.items ≡ spec.debug_names (map attached_view used.now)) }
{
    let mut names = Vec::new(alloc);
    for executable in used {
        add_debug(&mut names, build_id(executable.image))?;
    }
    Ok(names)
}

/// Names, looked up in logarithmic time.
#[derive(Drop)]
pub struct StoredNames<'n> {
    pub(crate) names: Table<'n>,
}

/// Puts a name after the others. The error is that there is no memory.
fn add<'n>(names: &mut Table<'n>, name: &'n [u8]) -> Result<(), AllocError>
    ensures { OnOk result (map path_of (table_rows names.new) ≡ map path_of (table_rows names.old) ++ name.entry.now ∷ []) }
{
    names.push(Attached {
        path: name,
        image: &[],
    })
}

/// The names of mapped files.
fn names_of_files<'n>(alloc: Global, files: &'n [FrontId<'_>]) -> Result<Table<'n>, AllocError>
    ensures { IfOk result (λ names. map path_of (table_rows names) ≡ map spec.file_name (map id_view files.now)) }
{
    let mut names = Table::new(alloc);
    for file in files {
        add(&mut names, file.name)?;
    }
    Ok(names)
}

impl<'n> StoredNames<'n> {
    /// Those of mapped files, and of their builds. The error is that there is no memory.
    pub fn of(
        alloc: Global,
        files: &'n [FrontId<'_>],
        builds: &'n [ArrayVec<u8, 128>],
    ) -> Result<StoredNames<'n>, AllocError>
        ensures { IfOk result (λ stored. spec.names_in stored ≡ map spec.file_name (map id_view files.now) ++ map spec.name_bytes builds.now) }
    {
        let mut names = names_of_files(alloc, files)?;
        for build in builds {
            add(&mut names, build.as_slice())?;
        }
        Ok(StoredNames { names })
    }

    /// These alone. The error is that there is no memory.
    pub fn of_names(
        alloc: Global,
        names: &'n [ArrayVec<u8, 128>],
    ) -> Result<StoredNames<'n>, AllocError>
        ensures { IfOk result (λ stored. spec.names_in stored ≡ map spec.name_bytes names.now) }
    {
        let mut table = Table::new(alloc);
        for name in names {
            add(&mut table, name.as_slice())?;
        }
        Ok(StoredNames { names: table })
    }

    /// Whether a name is one of them.
    #[tactic(auto, using(crate::proofs::NameLemmas::one_of))]
    pub fn contains(&self, name: &[u8]) -> bool
        ensures { result ≡ spec.is_one_of (spec.names_in self.now) name.now }
    {
        !self.names.is_new(name)
    }
}
