// An executable with its call frame information.
ghost use Rattle.std.specs.Prelude.{◌≡◌};
ghost use Rattle.std.specs.Option.{option_map};
ghost use Rattle.elf_view.specs.ViewWords.{image_of};
ghost use Rattle.call_frames.specs.FindingWords.{debug_frame_in, eh_frame_in, is_unread_in};
ghost use Rattle.call_frames.specs.Tables.{debug_frame_of, eh_frame_of};
ghost use Rattle.call_frames.specs.Unread.{have_unread_frames};

use call_frames::CallFrames;
use elf_view::Elf;

/// An executable whose headers have no fault, with its debug file, if it has one whose headers have none, and the call frame information
/// of both.
#[derive(Drop)]
pub(crate) struct Described<'a> {
    pub path: &'a [u8],
    pub elf: Elf<'a>,
    pub debug: Option<Elf<'a>>,
    pub frames: CallFrames<'a>,
    ghost eh_frame: { eh_frame_in frames ≡ eh_frame_of (image_of elf) },
    ghost debug_frame: { debug_frame_in frames ≡ debug_frame_of (image_of elf) (option_map image_of debug) },
    ghost unread: { is_unread_in frames ≡ have_unread_frames (image_of elf) (option_map image_of debug) },
}
