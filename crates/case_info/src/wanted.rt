// The builds that cores want: they have their IDs for mapped files for which no executable is used.
ghost use Rattle.std.specs.Prelude.{◌≡◌, ◌++◌, ◌∷◌, [], IfOk, OnOk, Some, map};
ghost use Rattle.std.specs.List.{flat_map};
ghost use Rattle.std.specs.Option.{option_map};
ghost use Rattle.build_replies.specs.Builds.{wants_line};
ghost use Rattle.build_replies.specs.BuildsWords.{wanted_view, with_build};
ghost use Rattle.script_streams.specs.Replies.{PrintsText, printing};
ghost use Rattle.case_info.specs.Gathering.{file_view, files_view};
ghost use Rattle.case_info.specs.Wants.{AreIdsOf, id_line, wanted_of_file, with_all, with_each_core};

use crate::kept_files::KeptFile;
use build_ids::has_name;
use build_replies::WantedBuild;
use script_streams::{Output, Reply};
use std::alloc::{AllocError, Global};
use std::collections::BTreeSet;

// The build that a mapped file wants.
fn wanted_of(file: &KeptFile) -> Option<WantedBuild<'_>>
    ensures { option_map wanted_view result ≡ wanted_of_file (file_view file.now) }
{
    let Some(id) = &file.told else {
        return None;
    };
    if has_name(id) && !file.is_used {
        Some(WantedBuild {
            name: &file.name,
            id,
        })
    } else {
        None
    }
}

// Builds, each ID once. Whether an ID is there is looked up in logarithmic time.
#[derive(Drop)]
pub(crate) struct WantedBuilds<'a> {
    pub(crate) builds: Vec<WantedBuild<'a>>,
    ids: BTreeSet<&'a [u8]>,
    // They are their IDs.
    ghost same: { AreIdsOf ids (map wanted_view builds.items) },
}

impl<'a> WantedBuilds<'a> {
    ghost use Rattle.case_info.specs.WantWords.{builds_in};

    // None.
    fn new(alloc: Global) -> WantedBuilds<'a>
        ensures { builds_in result ≡ [] }
    {
        WantedBuilds {
            builds: Vec::new(alloc),
            ids: BTreeSet::new(alloc),
        }
    }

    // Puts a build after the others, if there is one and no other has its ID.
    fn add(&mut self, build: Option<WantedBuild<'a>>) -> Result<(), AllocError>
        ensures { OnOk result (builds_in self.new ≡ with_build (builds_in self.old) (option_map wanted_view build.entry)) }
    {
        let Some(build) = build else {
            return Ok(());
        };
        self.builds.reserve(1)?;
        let is_new = self.ids.insert(build.id)?;
        if is_new {
            self.builds.push(build).unwrap();
        }
        Ok(())
    }

    // Adds the builds that the files of a core want.
    fn add_files(&mut self, files: &'a [KeptFile]) -> Result<(), AllocError>
        ensures { OnOk result (builds_in self.new ≡ with_all (builds_in self.old) (map file_view files.entry.now)) }
    {
        for file in files {
            self.add(wanted_of(file))?;
        }
        Ok(())
    }

    // The builds that these cores want, each ID once over all.
    pub(crate) fn of(
        alloc: Global,
        cores: &'a [Vec<KeptFile>],
    ) -> Result<WantedBuilds<'a>, AllocError>
        ensures { IfOk result (λ wanted. builds_in wanted ≡ with_each_core [] (map files_view cores.entry.now)) }
    {
        let mut wanted = WantedBuilds::new(alloc);
        for files in cores {
            wanted.add_files(files)?;
        }
        Ok(wanted)
    }
}

// Prints the line of a build.
fn print_build<O: Output>(reply: &mut Reply<'_, O>, build: &WantedBuild<'_>)
    ensures { PrintsText (printing O.Output reply.old reply.new) (wants_line (wanted_view build.now)) }
{
    reply.print_text(build.name);
    reply.print(b" ");
    reply.print_hex(build.id);
    reply.print(b"\n");
}

// Prints a line for each build.
pub(crate) fn print_builds<O: Output>(reply: &mut Reply<'_, O>, builds: &[WantedBuild<'_>])
    ensures { PrintsText (printing O.Output reply.old reply.new) (flat_map wants_line (map wanted_view builds.now)) }
{
    for build in builds {
        print_build(reply, build);
    }
}

// Prints the ID of a build.
fn print_id<O: Output>(reply: &mut Reply<'_, O>, build: &WantedBuild<'_>)
    ensures { PrintsText (printing O.Output reply.old reply.new) (id_line (wanted_view build.now)) }
{
    reply.print_hex(build.id);
    reply.print(b"\n");
}

// Prints the ID of each build.
pub(crate) fn print_ids<O: Output>(reply: &mut Reply<'_, O>, builds: &[WantedBuild<'_>])
    ensures { PrintsText (printing O.Output reply.old reply.new) (flat_map id_line (map wanted_view builds.now)) }
{
    for build in builds {
        print_id(reply, build);
    }
}
