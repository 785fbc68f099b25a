// The names of files by their build ID.
ghost use Rattle.std.specs.Prelude.{◌≡◌, ◌⊎◌, ◌+◌, ◌*◌, ◌≤◌, ◌<◌, ◌++◌, ℕ, List, MatchOption, All, codes, drop, length, true};
ghost use Rattle.std.specs.Char.{digit_char};
ghost use Rattle.elf_view.specs.Field.{part};
ghost use Rattle.script_words.specs.Hex.{hex_of};
ghost use Rattle.build_ids.specs.BuildName as spec;

use arrayvec::ArrayVec;
use script_words::{decode_hex, printed_bytes_are_read_again};

/// How many bytes a name of a file has at most.
const MOST: usize = 128;

/// The directory of all names by build ID, with the slash after it.
const FOLDER: &[u8] = b".build-id/";

/// The end of the name of a debug file.
const DEBUG: &[u8] = b".debug";

/// Whether a build ID is one by which a file has a name: it has 2 to 55 bytes.
pub fn has_name(id: &[u8]) -> bool
    ensures { result ≡ spec.has_name id.now }
{
    2 <= id.len() && id.len() <= 55
}

/// A digit of a byte.
fn hex_digit(value: u8) -> u8
    requires { value < 16 }
    ensures { result ≡ digit_char value }
{
    char::from_digit(u32::from(value), 16).unwrap_or('0') as u8
}

/// Appends bytes as pairs of hexadecimal digits.
fn push_digits(name: &mut ArrayVec<u8, MOST>, bytes: &[u8])
    requires { length name.old.items + 2 * length bytes.now ≤ 128 }
    ensures { name.new.items ≡ name.old.items ++ hex_of bytes.now }
{
    for byte in bytes {
        name.push(hex_digit(*byte / 16));
        name.push(hex_digit(*byte % 16));
    }
}

/// Appends bytes as they are.
fn push_all(name: &mut ArrayVec<u8, MOST>, bytes: &[u8])
    requires { length name.old.items + length bytes.now ≤ 128 }
    ensures { name.new.items ≡ name.old.items ++ bytes.now }
{
    let Ok(()) = name.try_extend_from_slice(bytes) else {
        unreachable!()
    };
}

/// The name of the executable or the library that has a build ID: `.build-id/`, the first byte as two hexadecimal digits, a slash, and
/// the digits of the others, in lower case (GDB, "Debugging Information in Separate Files").
#[tactic(auto, unfolding(crate::specs::BuildName::build_name))]
pub fn build_name(id: &[u8]) -> ArrayVec<u8, MOST>
    requires { spec.has_name id.now ≡ true }
    ensures name { result.items ≡ spec.build_name id.now }
    ensures long { length result.items ≡ 11 + 2 * length id.now }
{
    let (first, rest) = id.split_at(1);
    let mut name = ArrayVec::new();
    push_all(&mut name, FOLDER);
    push_digits(&mut name, first);
    push_all(&mut name, b"/");
    push_digits(&mut name, rest);
    name
}

/// The name of the debug file of the build that has an ID: that of the executable, and `.debug`.
#[tactic(auto, unfolding(crate::specs::BuildName::debug_name))]
pub fn debug_name(id: &[u8]) -> ArrayVec<u8, MOST>
    requires { spec.has_name id.now ≡ true }
    ensures { result.items ≡ spec.debug_name id.now }
{
    let mut name = build_name(id);
    push_all(&mut name, DEBUG);
    name
}

/// A name without the end of a debug file's, if it has it.
fn stem_of(name: &[u8]) -> &[u8]
    ensures either { (name.now ≡ result.now) ⊎ (name.now ≡ result.now ++ codes ".debug") }
    ensures without { (front : List ℕ) → name.now ≡ front ++ codes ".debug" → result.now ≡ front }
{
    match name.strip_suffix(DEBUG) {
        Some(stem) => stem,
        None => name,
    }
}

/// The digits of the ID in the name of an executable, if it has places for them: two after the directory, and those after the next slash.
fn digits_in(stem: &[u8]) -> Option<ArrayVec<u8, MOST>>
    ensures { MatchOption result (length stem.now < 15 ⊎ 121 < length stem.now) (λ digits. digits.items ≡ part stem.now 10 2 ++ drop 13 stem.now) }
{
    if stem.len() < 15 || stem.len() > 121 {
        return None;
    }
    let mut digits = ArrayVec::new();
    push_all(&mut digits, &stem[10..12]);
    push_all(&mut digits, &stem[13..]);
    Some(digits)
}

/// The build ID whose executable has that name.
fn id_of_stem(stem: &[u8]) -> Option<ArrayVec<u8, 64>>
    ensures { MatchOption result ((id : List ℕ) → All (λ c. c < 256) id → spec.has_name id ≡ true → stem.now ≡ spec.build_name id → ⊥)
        (λ id. (spec.has_name id.items ≡ true) × (stem.now ≡ spec.build_name id.items)) }
{
    printed_bytes_are_read_again();
    let Some(digits) = digits_in(stem) else {
        return None;
    };
    let Some(id) = decode_hex(&digits) else {
        return None;
    };
    if !has_name(&id) {
        return None;
    }
    if build_name(&id).as_slice() != stem {
        return None;
    }
    Some(id)
}

/// The build ID whose executable, or debug file, has that name. `None` is a name of another kind: also one with upper-case digits, or
/// with digits of fewer than 2 or more than 55 bytes.
pub fn id_of_name(name: &[u8]) -> Option<ArrayVec<u8, 64>>
    ensures { MatchOption result ((id : List ℕ) → All (λ c. c < 256) id → spec.IsNameOf id name.now → ⊥) (λ id. spec.IsNameOf id.items name.now) }
{
    id_of_stem(stem_of(name))
}
