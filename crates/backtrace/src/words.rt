// The source of the words of frames.
ghost use Rattle.std.specs.Prelude.{◌≡◌, length};
ghost use Rattle.backtrace.specs.MemoryWords.{words_by, words_in};

use address_space::AddressSpace;
use elf_view::u64_at;

/// Bytes of a stack: the values of addresses in a row.
#[derive(Clone, Copy, Debug)]
pub struct StackBytes<'a> {
    /// The first address.
    pub first: u64,
    /// The value of each, one after the other.
    pub bytes: &'a [u8],
}

impl<'a> StackBytes<'a> {
    /// The little-endian number in the values of eight addresses, or `None` if they are not all here.
    #[tactic(auto, unfolding(crate::specs::MemoryWords::words_in))]
    pub fn word(&self, address: u64) -> Option<u64>
        ensures { result ≡ words_in self.now.first self.now.bytes.now address }
    {
        if address < self.first {
            return None;
        }
        let place = address - self.first;
        let size = self.bytes.len() as u64;
        if size < 8 || size - 8 < place {
            return None;
        }
        Some(u64_at(self.bytes, place as usize))
    }
}

/// The words of a memory, or of some bytes of its stack alone.
#[derive(Clone, Copy)]
pub(crate) enum Words<'s, 'a> {
    Space(&'s AddressSpace<'a>),
    Stack(StackBytes<'s>),
}

impl<'s, 'a> Words<'s, 'a> {
    /// The word at an address, if it is there.
    pub(crate) fn word(&self, address: u64) -> Option<u64>
        ensures { result ≡ words_by self.now address }
    {
        match self {
            Words::Space(space) => space.read_u64(address),
            Words::Stack(stack) => stack.word(address),
        }
    }
}
