//! Whose a core is, by its name.
ghost use Rattle.std.specs.Prelude.{◌≡◌, ◌<◌, IfSome, length, option_map};
ghost use Rattle.fair_share.specs.Owners as spec;

/// The program of a name `core.USER.HOST.PROGRAM.PID.TIME`, with all that is before it: the name without its last two parts, if each of them
/// is a dot and digits; else the whole name.
pub fn program_of(name: &[u8]) -> &[u8]
    ensures { result.now ≡ spec.program_of name.now }
{
    let Some(rest) = before_number(name) else {
        return name;
    };
    match before_number(rest) {
        Some(front) => front,
        None => name,
    }
}

/// The user of such a name: the digits between `core.` and the next dot, or the end, of the program that `program_of` gives. It is empty if
/// there are no digits, or other bytes are among them.
pub fn user_of(name: &[u8]) -> &[u8]
    ensures { result.now ≡ spec.user_of name.now }
{
    user_in(program_of(name))
}

// The digits between `core.` and the next dot, or the end.
fn user_in(front: &[u8]) -> &[u8]
    ensures { result.now ≡ spec.user_in front.now }
{
    if front.starts_with(b"core.") {
        up_to_dot(&front[5..])
    } else {
        &[]
    }
}

// The digits before the first dot, or to the end, if there is no dot; nothing, if other bytes are among them.
fn up_to_dot(text: &[u8]) -> &[u8]
    ensures { result.now ≡ spec.up_to_dot text.now (spec.dot_in text.now) }
{
    match dot_in(text) {
        Some(at) => digits_or_none(&text[..at]),
        None => digits_or_none(text),
    }
}

// Where the first dot is.
fn dot_in(text: &[u8]) -> Option<usize>
    ensures value { result ≡ spec.dot_in text.now }
    ensures within { IfSome result (λ at. at < length text.now) }
{
    text.iter().position(|byte| *byte == b'.')
}

// These bytes, if they are digits.
fn digits_or_none(text: &[u8]) -> &[u8]
    ensures { result.now ≡ spec.digits_or_none text.now }
{
    if are_digits(text) { text } else { &[] }
}

fn are_digits(text: &[u8]) -> bool
    ensures { result ≡ spec.are_digits text.now }
{
    text.iter().all(|byte| byte.is_ascii_digit())
}

// The bytes before a last part that is a dot and digits.
#[tactic(auto, using(crate::proofs::OwnerLemmas::part_here, crate::proofs::OwnerLemmas::part_later, crate::proofs::OwnerLemmas::part_first, crate::proofs::OwnerLemmas::part_never))]
fn before_number(name: &[u8]) -> Option<&[u8]>
    ensures { option_map (λ (front : _). front.now) result ≡ spec.before_number name.now }
{
    for at in 0..name.len() {
        if is_last_part(&name[at..]) {
            return Some(&name[..at]);
        }
    }
    None
}

// Whether this is a dot, and then digits, one at least.
fn is_last_part(text: &[u8]) -> bool
    ensures { result ≡ spec.is_last_part text.now }
{
    match text {
        [b'.', rest @ ..] => !rest.is_empty() && are_digits(rest),
        _ => false,
    }
}
