// An executable with its functions.
ghost use Rattle.std.specs.Prelude.{◌≡◌};
ghost use Rattle.elf_view.specs.ViewWords.{image_of};

use crate::debug_file::DebugFile;
use crate::functions::Functions;
use address_space::Attached;

/// An executable whose headers have no fault, with its functions and those of its debug file.
#[derive(Drop)]
pub struct NamedExecutable<'a> {
    pub(crate) executable: Attached<'a>,
    pub(crate) functions: Functions<'a>,
    pub(crate) debug: Option<DebugFile<'a>>,
    ghost own: { image_of functions.elf ≡ executable.image.now },
}
