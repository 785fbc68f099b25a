// An image, accepted.
ghost use Rattle.std.specs.Prelude.{◌≡◌, ◌↔◌, ◌<◌, ◌^◌, IfOk, IsOk, length, slice_get};
ghost use Rattle.std.specs.Option.{option_map};
ghost use Rattle.std.specs.Result.{result_err};
ghost use Rattle.elf_view.specs.Sound as sound;

use crate::checks::{check, segment_count};
use crate::faults::{ElfFault, SectionFault, Want};
use crate::loads::Loads;
use crate::note_lists::Notes;
use crate::numbers::{u16_at, u32_at, u64_at};
use crate::program_headers::{Segment, Segments};
use crate::section_names::{compressed_section, named_section};
use crate::sections::{Section, section_at, section_count};

/// The fields of the file header that are shown.
#[derive(Clone, Copy, Debug, PartialEq, Eq)]
pub struct Header {
    /// e_type: 2 is ET_EXEC, 3 is ET_DYN, 4 is ET_CORE.
    pub kind: u16,
    /// e_entry, an address.
    pub entry: u64,
    /// e_flags.
    pub flags: u32,
    /// The number of program headers: e_phnum, or the number that replaces it at PN_XNUM.
    pub segments: u64,
}

/// A view of an image that has passed all checks. The values that it returns may be kept as long as the image.
#[derive(Clone, Copy, Debug)]
pub struct Elf<'a> {
    image: &'a [u8],
    want: Want,
    /// The headers are there.
    pub ghost whole: { sound.IsHeaderWhole image.now },
    /// Each of its checks passes.
    pub ghost sound: { sound.IsSound want image.now },
}

impl<'a> Elf<'a> {
    ghost use Rattle.elf_view.specs.Header.{segments_of, loads_of};
    ghost use Rattle.elf_view.specs.LoadWords.{loads_left};
    ghost use Rattle.elf_view.specs.SegmentWords.{segment_view, segments_left};
    ghost use Rattle.elf_view.specs.NoteWords.{notes_left};
    ghost use Rattle.elf_view.specs.SectionTable.{section_count_of, section_of};
    ghost use Rattle.elf_view.specs.SectionNames.{compressed_section_of, named_section_of};
    ghost use Rattle.elf_view.specs.SectionWords.{section_result, section_view};
    ghost use Rattle.elf_view.specs.ViewWords.{image_of, want_of, header_of, notes_of};

    /// Views an image as a core or an executable, or names the first of its checks that fails, in the order of
    /// [`crate::ElfField`].
    pub fn read(image: &'a [u8], want: Want) -> Result<Elf<'a>, ElfFault>
        ensures fault { result_err result ≡ sound.first_fault want image.now }
        ensures sound { IsOk result ↔ sound.IsSound want image.now }
        ensures image { IfOk result (λ elf. image_of elf ≡ image.now) }
        ensures want { IfOk result (λ elf. want_of elf ≡ want) }
    {
        check(image, want)?;
        Ok(Elf { image, want })
    }

    /// The header's fields.
    pub fn header(&self) -> Header
        ensures { result ≡ header_of (image_of self.now) }
    {
        Header {
            kind: u16_at(self.image, 16),
            entry: u64_at(self.image, 24),
            flags: u32_at(self.image, 48),
            segments: segment_count(self.image),
        }
    }

    /// The image.
    pub fn image(&self) -> &'a [u8]
        ensures { result.now ≡ image_of self.now }
    {
        self.image
    }

    /// Program header `i`, or `None` if there are fewer.
    pub fn segment(&self, i: u64) -> Option<Segment<'a>>
        ensures { option_map segment_view result ≡ slice_get (segments_of (image_of self.now)) i }
    {
        Segments::new(self.image, 0, segment_count(self.image)).get(i)
    }

    /// The program headers, in table order.
    #[tactic(auto, using(crate::proofs::Tables::segments_len))]
    pub fn segments(&self) -> Segments<'a>
        ensures headers { segments_left result ≡ segments_of (image_of self.now) }
        ensures few { length (segments_left result) < 2 ^ 32 }
    {
        Segments::new(self.image, 0, segment_count(self.image))
    }

    /// The PT_LOADs, with the numbers of their program headers, in table order.
    #[tactic(auto, unfolding(crate::specs::LoadWords::loads_left))]
    pub fn loads(&self) -> Loads<'a>
        ensures { loads_left result ≡ loads_of (image_of self.now) }
    {
        Loads::new(self.segments())
    }

    /// The notes of all PT_NOTE segments of a core, in table order. An executable has no notes here.
    pub fn notes(&self) -> Notes<'a>
        ensures { notes_left result ≡ notes_of (want_of self.now) (image_of self.now) }
    {
        match self.want {
            Want::Core => Notes::new(self.segments()),
            Want::Exec => Notes::new(Segments::new(self.image, 0, 0)),
        }
    }

    /// The number of sections, which is 0 if e_shoff is 0.
    pub fn section_count(&self) -> Result<u64, SectionFault>
        ensures { result ≡ section_count_of (image_of self.now) }
    {
        section_count(self.image)
    }

    /// Section `i`, or the first that holds of: the section headers have another size, they are not all in the image,
    /// there are fewer.
    pub fn section(&self, i: u64) -> Result<Section<'a>, SectionFault>
        ensures { section_result result ≡ section_of (image_of self.now) i }
    {
        section_at(self.image, i)
    }

    /// The first section with a name whose bytes can be taken: they are in the file (it is no SHT_NOBITS), not compressed
    /// (SHF_COMPRESSED), and all of them lie in the image. `None` if the section headers have a fault, or if the section
    /// of the names, that of number e_shstrndx, is missing or not all in the image.
    pub fn named_section(&self, name: &[u8]) -> Option<Section<'a>>
        ensures { option_map section_view result ≡ named_section_of (image_of self.now) name.now }
    {
        named_section(self.image, name)
    }

    /// The first section with a name whose bytes are in the file and compressed (SHF_COMPRESSED). It is looked for as
    /// `named_section` looks for others.
    pub fn compressed_section(&self, name: &[u8]) -> Option<Section<'a>>
        ensures { option_map section_view result ≡ compressed_section_of (image_of self.now) name.now }
    {
        compressed_section(self.image, name)
    }
}
