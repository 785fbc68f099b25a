//! Deep recursions: calls that repeat with a short period.
ghost use Rattle.std.specs.Prelude.{◌≡◌, ◌≤◌, ◌<◌, ◌+◌, ◌-◌, IfSome, length, map};
ghost use Rattle.std.specs.Option.{option_map};
ghost use Rattle.crash_signatures.specs.Recursion as spec;
ghost use Rattle.crash_signatures.specs.WordViews.{said};

use crate::words::{Word, Words, add_words, are_same, compare};

// How many words must repeat.
const RUN: usize = 64;

// Among how many words the recursion begins.
const STARTS: usize = 16;

// The cycle of the deep recursion that begins first among the first words, with its least period.
#[tactic(auto, using(crate::proofs::RecursionLemmas::cycle_found, crate::proofs::RecursionLemmas::cycle_later, crate::proofs::RecursionLemmas::cycle_never))]
pub(crate) fn cycle_in(words: &[Word]) -> Option<&[Word]>
    ensures value { option_map (λ c. map said c.now) result ≡ spec.cycle_among 16 (map said words.now) }
    ensures short { IfSome result (λ c. length c.now ≤ 8) }
{
    for start in 0..words.len().min(STARTS) {
        match period_at(&words[start..]) {
            Some(period) => return Some(&words[start..start + period]),
            None => {}
        }
    }
    None
}

// The least period of the first 64 words, if they repeat.
#[tactic(auto, using(crate::proofs::RecursionLemmas::period_known))]
fn period_at(words: &[Word]) -> Option<usize>
    ensures value { result ≡ spec.period_at (map said words.now) }
    ensures within { IfSome result (λ p. (p ≤ 8) × (p ≤ length words.now)) }
{
    if words.len() < RUN {
        return None;
    }
    period_of(&words[..RUN])
}

// The least period of 64 words, from 1 to 8.
#[tactic(auto, using(crate::proofs::RecursionLemmas::period_next, crate::proofs::RecursionLemmas::period_here, crate::proofs::RecursionLemmas::period_none))]
fn period_of(run: &[Word]) -> Option<usize>
    requires { length run.now ≡ 64 }
    ensures value { result ≡ spec.period_from 8 1 (map said run.now) }
    ensures within { IfSome result (λ p. p ≤ 8) }
{
    for period in 1..9 {
        if has_period(run, period) {
            return Some(period);
        }
    }
    None
}

// Whether 64 words repeat with this period.
#[tactic(auto, using(crate::proofs::RecursionLemmas::repeats))]
fn has_period(run: &[Word], period: usize) -> bool
    requires run { length run.now ≡ 64 }
    requires period { period ≤ 64 }
    ensures { result ≡ spec.has_period period (map said run.now) }
{
    are_same(&run[period..], &run[..RUN - period])
}

// The least of the turns of a cycle.
pub(crate) fn least_turn(cycle: &[Word]) -> Words
    requires { length cycle.now ≤ 8 }
    ensures { map said result.items ≡ spec.least_turn (length cycle.now - 1) (map said cycle.now) }
{
    let mut best = turned(cycle, 0);
    for places in 1..cycle.len() {
        best = lesser(best, turned(cycle, places));
    }
    best
}

// The cycle from this place on, and then its words before that place.
fn turned(cycle: &[Word], places: usize) -> Words
    requires cycle { length cycle.now ≤ 8 }
    requires places { places ≤ length cycle.now }
    ensures { map said result.items ≡ spec.turned places (map said cycle.now) }
{
    let mut turn = Words::new();
    add_words(&mut turn, &cycle[places..]);
    add_words(&mut turn, &cycle[..places]);
    turn
}

// The lesser of two lists of words; the first, if they are the same.
fn lesser(best: Words, turn: Words) -> Words
    ensures { map said result.items ≡ spec.lesser (map said best.items) (map said turn.items) }
{
    if compare(turn.as_slice(), best.as_slice()).is_lt() {
        turn
    } else {
        best
    }
}
