// The commands.
ghost use Rattle.std.specs.Prelude.{◌≡◌, true, map};
ghost use Rattle.clap.specs.Simple.{is_simple};
ghost use Rattle.command_words.specs.Grammar.{grammar};

use crate::ask_tables::ASK;
use crate::care_tables::{CHECK, COPY, RESIZE, SALVAGE};
use crate::digest_tables::DIGEST;
use crate::groups_tables::GROUPS;
use crate::info_tables::{INFO, WANTS};
use crate::list_tables::LIST;
use crate::prune_tables::PRUNE;
use crate::report_tables::REPORT;
use crate::search_tables::SEARCH;
use crate::tables::{CommandWords, EXTRACT, FORMAT, HANDLE, LOOK, MEMORY, RUN, STORE};
use crate::unpack_tables::UNPACK;

// All of them, in the order in which help shows them. A function
// that names a table is costly to prove: only this function does.
pub(crate) fn commands() -> [&'static CommandWords; 21]
    ensures { is_simple (grammar (map (λ command. command.now) result)) ≡ true }
{
    [
        &FORMAT, &STORE, &LIST, &INFO, &GROUPS, &REPORT, &ASK, &SEARCH, &WANTS, &PRUNE, &EXTRACT,
        &DIGEST, &UNPACK, &LOOK, &RUN, &CHECK, &COPY, &RESIZE, &SALVAGE, &HANDLE, &MEMORY,
    ]
}
