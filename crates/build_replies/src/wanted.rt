// The builds that a core wants: it gives their IDs for mapped files that no executable is used for.
ghost use Rattle.std.specs.Prelude.{◌≡◌, IfOk, OnOk, map};
ghost use Rattle.std.specs.Option.{option_map};
ghost use Rattle.build_replies.specs.Builds as spec;
ghost use Rattle.build_replies.specs.BuildsWords.{AddsBuild, wanted_view};
ghost use Rattle.build_replies.specs.Mapped.{build_view};
ghost use Rattle.build_replies.specs.TableWords.{path_of, table_rows};

use crate::answers::BuildAnswer;
use crate::table::Table;
use address_space::Attached;
use build_ids::has_name;
use std::alloc::{AllocError, Global};

/// A build that a core wants.
#[derive(Clone, Copy)]
pub struct WantedBuild<'r> {
    /// The name of the first mapped file of that build for which no executable is used.
    pub name: &'r [u8],
    /// Its build ID, of 2 to 55 bytes.
    pub id: &'r [u8],
}

/// The build that a mapped file wants.
fn wanted_of<'r>(row: &'r BuildAnswer<'_>) -> Option<WantedBuild<'r>>
    ensures { option_map wanted_view result ≡ spec.wanted_of (build_view row.now) }
{
    let id = row.front.id()?;
    if has_name(id) && row.chosen.used().is_none() {
        Some(WantedBuild {
            name: row.front.name,
            id,
        })
    } else {
        None
    }
}

/// Appends a build, if it is not among the others. `ids` has their IDs. The only error is that there is no memory.
fn add<'r>(
    ids: &mut Table<'r>,
    builds: &mut Vec<WantedBuild<'r>>,
    wanted: Option<WantedBuild<'r>>,
) -> Result<(), AllocError>
    ensures { OnOk result (AddsBuild (map path_of (table_rows ids.old)) (map wanted_view builds.old.items) (option_map wanted_view wanted.entry) (map path_of (table_rows ids.new)) (map wanted_view builds.new.items)) }
{
    let Some(wanted) = wanted else {
        return Ok(());
    };
    if ids.is_new(wanted.id) {
        ids.push(Attached {
            path: wanted.id,
            image: &[],
        })?;
        builds.push(wanted)?;
    }
    Ok(())
}

/// The builds that are wanted for these mapped files, each once, with the first file that wants it. The error is that there is no memory.
pub fn wanted_builds<'r>(
    alloc: Global,
    rows: &'r [BuildAnswer<'_>],
) -> Result<Vec<WantedBuild<'r>>, AllocError>
    ensures { IfOk result (λ builds. map wanted_view builds.items ≡ spec.wants_of (map build_view rows.now)) }
{
    let mut ids = Table::new(alloc);
    let mut builds = Vec::new(alloc);
    for row in rows {
        add(&mut ids, &mut builds, wanted_of(row))?;
    }
    Ok(builds)
}
