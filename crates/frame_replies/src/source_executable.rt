// An executable with its line tables.
ghost use Rattle.std.specs.Prelude.{◌≡◌};
ghost use Rattle.std.specs.Option.{option_map};
ghost use Rattle.frame_replies.specs.LineSourceWords.{sections_view};
ghost use Rattle.memory_replies.specs.NamingWords.{named_file};
ghost use Rattle.frame_replies.specs.SourceTables.{tables_of};

use crate::line_sections::LineSections;
use memory_replies::NamedExecutable;

/// An executable that is used for a mapped file, with its line tables, or those of its debug file, if they can be read.
#[derive(Drop)]
pub(crate) struct SourceExecutable<'n, 'e> {
    pub(crate) named: &'n NamedExecutable<'e>,
    pub(crate) sections: Option<LineSections<'e>>,
    ghost tables: { option_map sections_view sections ≡ tables_of (named_file named.now) },
}
