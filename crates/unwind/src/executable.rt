// Executables with their call frame information.
ghost use Rattle.std.specs.Prelude.{◌≡◌};
ghost use Rattle.std.specs.Option.{option_map};
ghost use Rattle.elf_view.specs.ViewWords.{image_of};
ghost use Rattle.call_frames.specs.FindingWords.{debug_frame_in, eh_frame_in, is_unread_in};
ghost use Rattle.call_frames.specs.Tables.{debug_frame_of, eh_frame_of};
ghost use Rattle.call_frames.specs.Unread.{have_unread_frames};

use call_frames::CallFrames;
use elf_view::Elf;

/// An executable that is attached for the mapped file of that path.
#[derive(Clone, Copy)]
pub struct UnwoundExecutable<'e, 'a> {
    /// The path.
    pub path: &'a [u8],
    /// The executable.
    pub elf: Elf<'a>,
    /// Its debug file, if it has one.
    pub debug: Option<Elf<'a>>,
    /// Its call frame information, as [`CallFrames::read`] gives it.
    pub frames: &'e CallFrames<'a>,
    pub ghost eh_frame: { eh_frame_in frames.now ≡ eh_frame_of (image_of elf) },
    pub ghost debug_frame: { debug_frame_in frames.now ≡ debug_frame_of (image_of elf) (option_map image_of debug) },
    pub ghost unread: { is_unread_in frames.now ≡ have_unread_frames (image_of elf) (option_map image_of debug) },
}
