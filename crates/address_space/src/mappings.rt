// The mappings of a process.

use crate::source::FileSpot;
use crate::space::AddressSpace;
use elf_view::Loads;

/// A mapping of a process, from the fields of its PT_LOAD.
#[derive(Clone, Copy, Debug)]
pub struct Mapping<'a> {
    /// The first address.
    pub start: u64,
    /// How many addresses it has.
    pub memsz: u64,
    /// Its flags: 1 is PF_X, 2 is PF_W, 4 is PF_R.
    pub flags: u32,
    /// How many of its bytes the core is to have.
    pub filesz: u64,
    /// Where the first address lies in the file that is mapped there.
    pub spot: Option<FileSpot<'a>>,
}

/// The mappings of a process, in the order of the program headers.
#[derive(Clone, Copy)]
pub struct Mappings<'s, 'a> {
    pub(crate) space: &'s AddressSpace<'a>,
    pub(crate) loads: Loads<'a>,
}

impl<'s, 'a> Iterator for Mappings<'s, 'a> {
    ghost use Rattle.std.specs.Iterator.{YieldsFirstBy, item_count};
    ghost use Rattle.address_space.specs.PieceWords.{mapping_view, mappings_left};

    type Item = Mapping<'a>;

    ghost next_gives = { YieldsFirstBy mapping_view mappings_left };

    ghost remaining = { item_count mappings_left };

    fn next(&mut self) -> Option<Mapping<'a>> {
        let segment = self.loads.next()?.segment;
        Some(Mapping {
            start: segment.vaddr,
            memsz: segment.memsz,
            flags: segment.flags,
            filesz: segment.filesz,
            spot: self.space.spot(segment.vaddr),
        })
    }
}
