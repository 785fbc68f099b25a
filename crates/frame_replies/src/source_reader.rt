// What source lines of executables are read with.
ghost use Rattle.std.specs.Option.{ForSome};
ghost use Rattle.std.specs.Prelude.{map};
ghost use Rattle.memory_replies.specs.NamingWords.{named_file};
ghost use Rattle.frame_replies.specs.LastSource.{IsFirst, source_file};

use crate::source_executable::SourceExecutable;
use memory_replies::NamedExecutable;

/// Reads source lines of executables that are used for mapped files. The line tables of the last one stay, since the next frame is often
/// in the same executable.
#[derive(Drop)]
pub(crate) struct SourceReader<'n, 'e> {
    pub(crate) images: &'n [NamedExecutable<'e>],
    pub(crate) last: Option<SourceExecutable<'n, 'e>>,
    ghost first: { ForSome last (λ s. IsFirst (map named_file images.now) (source_file s)) },
}
