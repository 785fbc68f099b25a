// Encoded pointers.
ghost use Rattle.std.specs.Prelude.{◌≡◌, ◌+◌, ◌*◌, ◌^◌, ◌<◌, ◌≤◌, length};
ghost use Rattle.std.specs.Option.{option_map};
ghost use Rattle.elf_view.specs.Field.{field};
ghost use Rattle.call_frames.specs.Pointers as spec;
ghost use Rattle.call_frames.specs.ReadWords.{bytes_of};

use elf_view::{u16_at, u32_at, u64_at};

/// How many bytes a pointer has.
#[derive(Clone, Copy)]
pub(crate) enum Width {
    Two,
    Four,
    Eight,
}

impl Width {
    /// The width that an encoding gives by its low four bits, if it gives one.
    #[tactic(auto, unfolding(crate::specs::Pointers::width_of))]
    pub(crate) fn of(encoding: u8) -> Option<Width>
        ensures { option_map bytes_of result ≡ spec.width_of encoding }
    {
        match encoding % 16 {
            0 | 4 | 12 => Some(Width::Eight),
            3 | 11 => Some(Width::Four),
            2 | 10 => Some(Width::Two),
            _ => None,
        }
    }

    /// The number of bytes.
    pub(crate) fn size(self) -> usize
        ensures { result ≡ bytes_of self }
    {
        match self {
            Width::Two => 2,
            Width::Four => 4,
            Width::Eight => 8,
        }
    }

    /// The number at the front of the bytes.
    fn read(self, bytes: &[u8]) -> u64
        requires { bytes_of self ≤ length bytes.now }
        ensures value { result ≡ field bytes.now 0 (bytes_of self) }
        ensures small { result < 2 ^ (8 * bytes_of self) }
    {
        match self {
            Width::Two => u64::from(u16_at(bytes, 0)),
            Width::Four => u64::from(u32_at(bytes, 0)),
            Width::Eight => u64_at(bytes, 0),
        }
    }

    /// A signed number of this width, modulo 2^64.
    #[tactic(auto, unfolding(crate::specs::Pointers::extended))]
    fn extended(self, value: u64) -> u64
        requires { value < 2 ^ (8 * bytes_of self) }
        ensures { result ≡ spec.extended (bytes_of self) value }
    {
        match self {
            Width::Two if value >= 0x8000 => value + 0xffff_ffff_ffff_0000,
            Width::Four if value >= 0x8000_0000 => value + 0xffff_ffff_0000_0000,
            _ => value,
        }
    }
}

/// The pointer at the front, whose first byte has an address, and the bytes after it.
#[tactic(auto, unfolding(crate::specs::Pointers::pointer, crate::specs::Pointers::number_of, crate::specs::Pointers::target))]
pub(crate) fn pointer(encoding: u8, address: u64, bytes: &[u8]) -> Option<(u64, &[u8])>
    ensures { option_map (λ r. (r.0, r.1.now)) result ≡ spec.pointer encoding address bytes.now }
{
    let width = Width::of(encoding)?;
    if bytes.len() < width.size() {
        return None;
    }
    let value = number(encoding, width, bytes);
    Some((target(encoding, address, value), &bytes[width.size()..]))
}

/// The number of that width at the front, signed or not as the encoding says.
#[tactic(auto, unfolding(crate::specs::Pointers::number_of))]
fn number(encoding: u8, width: Width, bytes: &[u8]) -> u64
    requires { bytes_of width ≤ length bytes.now }
    ensures { result ≡ spec.number_of encoding (bytes_of width) bytes.now }
{
    let value = width.read(bytes);
    if encoding / 8 % 2 == 1 {
        width.extended(value)
    } else {
        value
    }
}

/// The target of a pointer whose first byte has an address.
#[tactic(auto, unfolding(crate::specs::Pointers::target))]
fn target(encoding: u8, address: u64, value: u64) -> u64
    ensures { result ≡ spec.target encoding address value }
{
    if encoding / 16 == 1 {
        value.wrapping_add(address)
    } else {
        value
    }
}

/// The number at the front with the width of a pointer, and the bytes after it.
#[tactic(auto, unfolding(crate::specs::Pointers::extent))]
pub(crate) fn extent(encoding: u8, bytes: &[u8]) -> Option<(u64, &[u8])>
    ensures { option_map (λ r. (r.0, r.1.now)) result ≡ spec.extent encoding bytes.now }
{
    let width = Width::of(encoding)?;
    if bytes.len() < width.size() {
        return None;
    }
    Some((width.read(bytes), &bytes[width.size()..]))
}
