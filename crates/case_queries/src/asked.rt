// The questions of lines about a core that is read piece by piece.
ghost use Rattle.std.specs.Prelude.{◌≡◌, map};
ghost use Rattle.build_replies.specs.BuildsWords.{asking_view, numbered_view};
ghost use Rattle.case_queries.specs.Inspecting.{asking_by};

use build_replies::{BuildsAsked, NumberedCase};
use frame_replies::Shown;
use script_lines::BuildQuery;
use windowed_search::Sought;

// The question of a line about a core that is read piece by piece.
#[derive(Clone, Copy)]
pub(crate) enum Asked<'n> {
    // A search through all of its memory.
    Sought(Sought<'n>),
    // A question that the executables of its mapped files answer, each of the build that was mapped.
    Files(AskedFiles),
}

// A question that these executables answer.
#[derive(Clone, Copy)]
pub(crate) enum AskedFiles {
    // The frames of a thread.
    Frames { thread: u64, asked: FramesAsked },
    // The builds of its mapped files.
    Builds(BuildQuery),
}

// A question about the frames of a thread.
#[derive(Clone, Copy)]
pub(crate) enum FramesAsked {
    // A line for each.
    Shown(Shown),
    // The registers of the one of that number.
    Registers(u64),
}

// The question of a line over builds, if the executables of these cases are read.
pub(crate) fn builds_asked<'c>(query: BuildQuery, cases: &'c [NumberedCase<'c>]) -> BuildsAsked<'c>
    ensures { asking_view result ≡ asking_by query (map numbered_view cases.entry.now) }
{
    match query {
        BuildQuery::Compared => BuildsAsked::Compared,
        BuildQuery::Used => BuildsAsked::Used(cases),
        BuildQuery::Wanted => BuildsAsked::Wanted,
    }
}
