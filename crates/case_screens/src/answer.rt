// The parts of a screen: the facts of the image, and those that are found in the memory of a core.
use build_replies::BuildAnswer;
use core_checks::UnreadNotes;
use elf_view::{ElfFault, Header};
use frame_replies::FramesAnswer;
use image_replies::{CoreFault, CoreImage};

/// The known facts of a core.
#[derive(Clone, Copy)]
pub struct CoreAnswers<'s, 'a> {
    /// The core, or the first fault of its headers, its notes and its typed notes.
    pub core: Result<CoreImage<'a>, CoreFault>,
    /// The frames of the threads that are shown. `None` if it has fewer.
    pub unwound: &'s [Option<FramesAnswer<'a>>],
    /// The build IDs of its mapped files. `None` if it has no NT_FILE.
    pub builds: Option<&'s [BuildAnswer<'a>]>,
    /// How many bytes its program headers want, if they can be read.
    pub whole: Option<u64>,
    /// Why notes of it are not read as they are meant, if some are not.
    pub unread: Option<UnreadNotes>,
}

/// The known facts of a case.
#[derive(Clone, Copy)]
pub enum CaseAnswers<'s, 'a> {
    Core(CoreAnswers<'s, 'a>),
    /// The file header, or the first of its checks that fails.
    Exec(Result<Header, ElfFault>),
}
