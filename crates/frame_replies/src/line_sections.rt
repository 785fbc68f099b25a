// The sections that line tables are in.
ghost use Rattle.std.specs.Prelude.{◌≡◌, codes};
ghost use Rattle.elf_view.specs.ViewWords.{image_of};
ghost use Rattle.inflate.specs.SectionWords.{bytes_in};
ghost use Rattle.frame_replies.specs.Source.{bytes_or_none};

use elf_view::Elf;
use inflate::SectionBytes;

/// The sections of a file that its line tables are in, each decompressed if it is compressed.
#[derive(Drop)]
pub struct LineSections<'a> {
    pub(crate) elf: Elf<'a>,
    pub(crate) lines: SectionBytes<'a>,
    pub(crate) line_texts: SectionBytes<'a>,
    pub(crate) texts: SectionBytes<'a>,
    ghost own: { bytes_in texts ≡ bytes_or_none (image_of elf) (codes ".debug_str") },
}
