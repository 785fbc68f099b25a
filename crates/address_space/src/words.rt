// Numbers in memory.
ghost use Rattle.std.specs.Prelude.{◌≡◌, ◌+◌, ◌<◌, ℕ, None, Some, MatchOption, slice_index};
ghost use Rattle.address_space.specs.Source.{value_at, word_at};
ghost use Rattle.address_space.specs.SpaceWords.{space_of};

use crate::space::AddressSpace;
use elf_view::u64_at;

impl<'a> AddressSpace<'a> {
    /// The values of eight addresses, if each has one.
    fn eight_values(&self, address: u64) -> Option<[u8; 8]>
        ensures { MatchOption result
            ((k : ℕ) × (k < 8) × (value_at (space_of self.now) (address + k) ≡ None))
            (λ b. (k : ℕ) → k < 8 → value_at (space_of self.now) (address + k) ≡ Some (slice_index b k)) }
    {
        self.nothing_past_the_end();
        let mut bytes = [0; 8];
        for i in 0..8 {
            let at = address.checked_add(i as u64)?;
            bytes[i] = self.value(at)?;
        }
        Some(bytes)
    }

    /// The little-endian number in the values of eight addresses, or `None` if one of them has no value.
    pub fn read_u64(&self, address: u64) -> Option<u64>
        ensures { result ≡ word_at (space_of self.now) address 8 }
    {
        let run = self.run(address, 8);
        if run.length == 8 {
            let bytes = run.bytes?;
            return Some(u64_at(bytes, 0));
        }
        let bytes = self.eight_values(address)?;
        Some(u64_at(&bytes, 0))
    }
}
