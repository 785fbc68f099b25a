// The names of a core's mapped files, each once.
ghost use Rattle.std.specs.Prelude.{◌≡◌, IfOk, OnOk, map};
ghost use Rattle.core_notes.specs.FileList.{files_of};
ghost use Rattle.core_notes.specs.FileWords.{files_bytes};
ghost use Rattle.build_replies.specs.Builds as spec;
ghost use Rattle.build_replies.specs.TableWords.{path_of, table_rows, with_name};

use crate::table::Table;
use address_space::Attached;
use core_notes::Files;
use std::alloc::{AllocError, Global};

/// Puts a name after the others, if none has it. The error is that there is no memory.
fn add_name<'a>(table: &mut Table<'a>, name: &'a [u8]) -> Result<(), AllocError>
    ensures { OnOk result (table_rows table.new ≡ with_name (table_rows table.old) name.entry.now) }
{
    if table.is_new(name) {
        table.push(Attached {
            path: name,
            image: &[],
        })
    } else {
        Ok(())
    }
}

/// The names of a core's mapped files, each once, in the order of NT_FILE: as a table of executables that have no bytes. The
/// error is that there is no memory.
pub(crate) fn names<'a>(alloc: Global, files: &Files<'a>) -> Result<Table<'a>, AllocError>
    ensures { IfOk result (λ table. map path_of (table_rows table)
        ≡ spec.once (map spec.name_of (files_of (files_bytes files.now)))) }
{
    let mut table = Table::new(alloc);
    for map in files.maps() {
        add_name(&mut table, map.name)?;
    }
    Ok(table)
}
