// The places of a needle in bytes that are at hand.
ghost use Rattle.std.specs.Prelude.{◌≡◌, ◌+◌, ◌^◌, ◌<◌, ◌≤◌, ◌++◌, ◌∷◌, [], ℕ, IfSome, MatchOption, OnOk, drop, length};
ghost use Rattle.windowed_search.specs.Places.{places};

use memchr::memmem::Finder;
use std::alloc::AllocError;

// The first place from `at` on at which the needle occurs.
fn next_place(finder: &Finder<'_>, needle: &[u8], bytes: &[u8], at: usize) -> Option<usize>
    requires finds { finder.now ≡ needle.now }
    requires some { 0 < length needle.now }
    requires within { at ≤ length bytes.now }
    ensures within { IfSome result (λ p. (at ≤ p) × (p < length bytes.now)) }
    ensures places { (a : ℕ) → MatchOption result
        (places needle.now (a + at) (drop at bytes.now) ≡ [])
        (λ p. places needle.now (a + at) (drop at bytes.now) ≡ (a + p) ∷ places needle.now (a + (p + 1)) (drop (p + 1) bytes.now)) }
{
    match finder.find(&bytes[at..]) {
        Some(place) => Some(at + place),
        None => None,
    }
}

// Appends each place at which the needle occurs in these bytes, the first of which is at place `first`. The error is that there is
// no memory.
pub(crate) fn add_places(
    finder: &Finder<'_>,
    needle: &[u8],
    first: u64,
    bytes: &[u8],
    found: &mut Vec<u64>,
) -> Result<(), AllocError>
    requires finds { finder.now ≡ needle.now }
    requires some { 0 < length needle.now }
    requires fits { first + length bytes.now < 2 ^ 64 }
    ensures { OnOk result (found.new.items ≡ found.old.items ++ places needle.now first bytes.now) }
{
    let mut at = 0;
    while let Some(place) = next_place(finder, needle, bytes, at) {
        found.push(first + place as u64)?;
        at = place + 1;
    }
    Ok(())
}
