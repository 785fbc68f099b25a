// NT_AUXV: the auxiliary vector.
ghost use Rattle.std.specs.Prelude.{◌≡◌, ◌+◌, ◌*◌, ◌%◌, ◌/◌, ◌≤◌, length};

use elf_view::u64_at;

/// A pair of the auxiliary vector.
#[derive(Clone, Copy, Debug, PartialEq, Eq)]
pub struct AuxvPair {
    /// Its type, as AT_PAGESZ (6).
    pub kind: u64,
    /// Its value.
    pub value: u64,
}

/// The auxiliary vector of a process.
#[derive(Clone, Copy, Debug)]
pub struct Auxv<'a> {
    desc: &'a [u8],
    pub ghost whole: { length desc.now % 16 ≡ 0 },
}

/// Pairs of an auxiliary vector, in order.
#[derive(Clone, Copy, Debug)]
pub struct AuxvPairs<'a> {
    desc: &'a [u8],
    index: usize,
    left: usize,
    ghost fits: { 16 * (index + left) ≤ length desc.now },
}

impl<'a> Auxv<'a> {
    ghost use Rattle.core_notes.specs.Descriptor as spec;
    ghost use Rattle.core_notes.specs.DescriptorWords.{auxv_bytes, pairs_left};

    pub(crate) fn new(desc: &'a [u8]) -> Auxv<'a>
        requires { length desc.now % 16 ≡ 0 }
        ensures { auxv_bytes result ≡ desc.now }
    {
        Auxv { desc }
    }

    /// The pairs before one of type AT_NULL, or all, in order.
    pub fn pairs(&self) -> AuxvPairs<'a>
        ensures { pairs_left result ≡ spec.pairs_of (auxv_bytes self.now) }
    {
        AuxvPairs {
            desc: self.desc,
            index: 0,
            left: self.desc.len() / 16,
        }
    }
}

impl<'a> Iterator for AuxvPairs<'a> {
    ghost use Rattle.std.specs.Iterator.{YieldsFirst, item_count};
    ghost use Rattle.core_notes.specs.DescriptorWords.{pairs_left};

    type Item = AuxvPair;

    ghost next_gives = { YieldsFirst pairs_left };

    ghost remaining = { item_count pairs_left };

    fn next(&mut self) -> Option<AuxvPair> {
        if self.left == 0 {
            return None;
        }
        let kind = u64_at(self.desc, 16 * self.index);
        if kind == 0 {
            return None;
        }
        let value = u64_at(self.desc, 16 * self.index + 8);
        self.left -= 1;
        self.index += 1;
        Some(AuxvPair { kind, value })
    }
}
