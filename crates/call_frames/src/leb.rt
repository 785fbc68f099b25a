// LEB128 numbers.
ghost use Rattle.std.specs.Prelude.{◌≡◌, ◌≤◌, ◌<◌, ◌^◌, ◌*◌, IfSome, length};
ghost use Rattle.std.specs.List.{position};
ghost use Rattle.std.specs.Option.{option_map};
ghost use Rattle.call_frames.specs.Leb as spec;

/// The most bytes that a number has.
const LIMIT: usize = 10;

/// The place of the first byte below 0x80 among the first ten.
fn last_place(bytes: &[u8]) -> Option<usize>
    ensures { result ≡ position spec.is_last bytes.now }
{
    for (i, byte) in bytes.iter().enumerate() {
        if *byte < 0x80 {
            return Some(i);
        }
    }
    None
}

/// The bytes of the number at the front, and those after it.
#[tactic(auto, unfolding(crate::specs::Leb::split_leb))]
fn split_leb(bytes: &[u8]) -> Option<(&[u8], &[u8])>
    ensures parts { option_map (λ r. (r.0.now, r.1.now)) result ≡ spec.split_leb bytes.now }
    ensures some { IfSome result (λ r. 0 < length r.0.now) }
    ensures few { IfSome result (λ r. length r.0.now ≤ 10) }
{
    let few = &bytes[..bytes.len().min(LIMIT)];
    let last = last_place(few)?;
    Some(bytes.split_at(last + 1))
}

/// The number that groups of seven bits are, the least group first.
fn groups(text: &[u8]) -> u128
    requires { length text.now ≤ 10 }
    ensures value { result ≡ spec.groups text.now }
    ensures small { result < 2 ^ (7 * length text.now) }
{
    let mut value: u128 = 0;
    let mut left = text.len();
    while left > 0 {
        left -= 1;
        value = 128 * value + u128::from(text[left] % 128);
    }
    value
}

/// The number of an ULEB128, if it is below 2^64.
#[tactic(auto, unfolding(crate::specs::Leb::unsigned))]
fn unsigned(text: &[u8]) -> Option<u64>
    requires { length text.now ≤ 10 }
    ensures { result ≡ spec.unsigned text.now }
{
    u64::try_from(groups(text)).ok()
}

/// The number of an SLEB128 modulo 2^64, if it is at least -2^63 and below 2^63.
#[tactic(auto, unfolding(crate::specs::Leb::signed))]
fn signed(text: &[u8]) -> Option<u64>
    requires some { 0 < length text.now }
    requires few { length text.now ≤ 10 }
    ensures { result ≡ spec.signed text.now }
{
    let value = groups(text);
    if text[text.len() - 1] < 0x40 {
        return u64::try_from(value).ok().filter(|value| *value < 1 << 63);
    }
    let below_zero = (1u128 << (7 * text.len())) - value;
    if below_zero > 1 << 63 {
        return None;
    }
    Some((below_zero as u64).wrapping_neg())
}

/// The ULEB128 at the front, and the bytes after it.
#[tactic(auto, unfolding(crate::specs::Leb::uleb))]
pub fn uleb(bytes: &[u8]) -> Option<(u64, &[u8])>
    ensures { option_map (λ r. (r.0, r.1.now)) result ≡ spec.uleb bytes.now }
{
    let (text, behind) = split_leb(bytes)?;
    let value = unsigned(text)?;
    Some((value, behind))
}

/// The SLEB128 at the front, modulo 2^64, and the bytes after it.
#[tactic(auto, unfolding(crate::specs::Leb::sleb))]
pub fn sleb(bytes: &[u8]) -> Option<(u64, &[u8])>
    ensures { option_map (λ r. (r.0, r.1.now)) result ≡ spec.sleb bytes.now }
{
    let (text, behind) = split_leb(bytes)?;
    let value = signed(text)?;
    Some((value, behind))
}

/// As many bytes as the ULEB128 in front of them says, and those after them.
#[tactic(auto, unfolding(crate::specs::Leb::sized))]
pub fn sized(bytes: &[u8]) -> Option<(&[u8], &[u8])>
    ensures { option_map (λ r. (r.0.now, r.1.now)) result ≡ spec.sized bytes.now }
{
    let (size, rest) = uleb(bytes)?;
    if (rest.len() as u64) < size {
        return None;
    }
    Some(rest.split_at(size as usize))
}
