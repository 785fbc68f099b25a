// Registers by name.
ghost use Rattle.std.specs.Prelude.{◌≡◌, ◌<◌, length, map, position, slice_get, Some};
ghost use Rattle.std.specs.Str.{bytes_eq};
ghost use Rattle.std.specs.Option.{option_map};
ghost use Rattle.thread_regs.specs.Register as spec;

/// The names in the psABI of x0 to x31, then that of pc.
const ABI_NAMES: [&str; 33] = [
    "zero", "ra", "sp", "gp", "tp", "t0", "t1", "t2", "s0", "s1", "a0", "a1", "a2", "a3", "a4",
    "a5", "a6", "a7", "s2", "s3", "s4", "s5", "s6", "s7", "s8", "s9", "s10", "s11", "t3", "t4",
    "t5", "t6", "pc",
];

/// The plain names of x0 to x31.
const PLAIN_NAMES: [&str; 32] = [
    "x0", "x1", "x2", "x3", "x4", "x5", "x6", "x7", "x8", "x9", "x10", "x11", "x12", "x13", "x14",
    "x15", "x16", "x17", "x18", "x19", "x20", "x21", "x22", "x23", "x24", "x25", "x26", "x27",
    "x28", "x29", "x30", "x31",
];

/// A register that a thread's state holds: pc, or one of x0 to x31.
#[derive(Clone, Copy, Debug)]
pub struct Reg {
    number: u8,
    ghost known: { number < 33 },
}

/// The place of a name among others.
fn find_name(names: &[&str], name: &[u8]) -> Option<usize>
    ensures { result ≡ position (λ n. bytes_eq n.now name.now) names.now }
{
    names.iter().position(|n| n.as_bytes() == name)
}

/// The same, among the texts themselves.
fn place_of(names: &[&str], name: &[u8]) -> Option<usize>
    ensures { result ≡ spec.place_of name.now (map (λ n. n.now) names.now) }
{
    find_name(names, name)
}

/// The name at a place.
#[tactic(auto, using(crate::proofs::NameTables::read_at))]
pub(crate) fn name_at(names: &[&'static str], i: usize) -> &'static str
    requires { i < length names.now }
    ensures { Some result.now ≡ slice_get (map (λ n. n.now) names.now) i }
{
    names[i]
}

impl Reg {
    ghost use Rattle.thread_regs.specs.RegisterWords.{reg_number};

    /// The register of a name: `pc`, `x0` to `x31`, a name in the psABI, or `fp`, which is `s0`.
    #[tactic(auto, unfolding(crate::specs::Register::register_named))]
    pub fn from_name(name: &[u8]) -> Option<Reg>
        ensures { option_map reg_number result ≡ spec.register_named name.now }
    {
        if name == b"fp".as_slice() {
            return Some(Reg { number: 8 });
        }
        let number = match place_of(&ABI_NAMES, name) {
            Some(number) => number,
            None => place_of(&PLAIN_NAMES, name)?,
        };
        Some(Reg {
            number: number as u8,
        })
    }

    /// The register that word `word` of a thread's state holds: pc, and then x1 to x31.
    pub fn of_word(word: usize) -> Reg
        requires { word < 32 }
        ensures { reg_number result ≡ spec.number_of_word word }
    {
        Reg {
            number: if word == 0 { 32 } else { word as u8 },
        }
    }

    /// Its name in the psABI; that of x8 is `s0`.
    pub fn name(&self) -> &'static str
        ensures { Some result.now ≡ slice_get spec.abi_names (reg_number self.now) }
    {
        name_at(&ABI_NAMES, self.number as usize)
    }

    /// Which word of a thread's state holds it; x0 is not stored.
    pub(crate) fn word(self) -> Option<usize>
        ensures { result ≡ spec.word_of (reg_number self) }
    {
        match self.number {
            0 => None,
            32 => Some(0),
            number => Some(number as usize),
        }
    }
}
