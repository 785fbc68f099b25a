// Addresses by registers.
ghost use Rattle.std.specs.Prelude.{◌≡◌};
ghost use Rattle.std.specs.Option.{option_map};
ghost use Rattle.thread_regs.specs.ThreadWords.{thread_bytes};
ghost use Rattle.case_screens.specs.RegisterPlaces.{address_in, place_in, plus_in};
ghost use Rattle.case_screens.specs.RegisterPlaceWords.{place_said};

use script_words::parse_number;
use thread_regs::{Reg, Thread};

/// The address in a register, or so many bytes past it.
#[derive(Clone, Copy)]
pub struct RegisterPlace {
    /// The register.
    pub register: Reg,
    /// How many bytes past the address in it.
    pub past: u64,
}

impl RegisterPlace {
    /// The address, by the registers of a thread; past the last address it goes on with 0.
    pub fn address(&self, thread: &Thread<'_>) -> u64
        ensures is_past { result ≡ address_in (thread_bytes thread.now) (place_said self.now) }
    {
        thread.register(self.register).wrapping_add(self.past)
    }
}

// The place of the first plus sign.
fn plus_in(word: &[u8]) -> Option<usize>
    ensures { result ≡ plus_in word.now }
{
    word.iter().position(|byte| *byte == b'+')
}

/// The address that a word says by a register: `REG`, the name of pc or of one of x0 to x31 (plain, or that of the psABI); or `REG+N`, where N
/// is a number as a script has it.
pub fn register_place(word: &[u8]) -> Option<RegisterPlace>
    ensures is_said { option_map place_said result ≡ place_in word.now }
{
    let Some(at) = plus_in(word) else {
        let register = Reg::from_name(word)?;
        return Some(RegisterPlace { register, past: 0 });
    };
    let (name, rest) = word.split_at(at);
    let (_, number) = rest.split_at(1);
    let register = Reg::from_name(name)?;
    let past = parse_number(number)?;
    Some(RegisterPlace { register, past })
}
