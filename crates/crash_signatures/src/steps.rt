//! The words of a walk that say how a process died, without those that say how it ended itself, and without those outside
//! of `main`.
ghost use Rattle.std.specs.Prelude.{◌≡◌, ◌≤◌, ◌<◌, ◌*◌, ◌-◌, true, length, map, take, drop};
ghost use Rattle.crash_signatures.specs.Steps as spec;
ghost use Rattle.crash_signatures.specs.WordViews.{said};

use crate::tables::{is_death, is_outer};
use crate::words::{Word, Words, are_same, copied};

// Among how many words the way to die is looked for.
const DEATHS: usize = 16;

// The words behind the last of the functions by which the process ended itself, if words are there.
#[tactic(auto, using(crate::proofs::StepLemmas::death_gone))]
pub(crate) fn without_death(words: &[Word]) -> &[Word]
    ensures value { map said result.now ≡ spec.without_death (map said words.now) }
    ensures short { length result.now ≤ length words.now }
{
    let past = past_death(words);
    if past == words.len() {
        return words;
    }
    &words[past..]
}

// How many of the first 16 words come up to the last way to die.
#[tactic(auto, using(crate::proofs::StepLemmas::death_first, crate::proofs::StepLemmas::death_here, crate::proofs::StepLemmas::death_before))]
fn past_death(words: &[Word]) -> usize
    ensures value { result ≡ spec.past_death (map said words.now) }
    ensures within { result ≤ length words.now }
{
    let mut past = words.len().min(DEATHS);
    while past > 0 && !ends_process(&words[past - 1]) {
        past -= 1;
    }
    past
}

pub(crate) fn ends_process(word: &Word) -> bool
    ensures { result ≡ spec.ends_process (said word.now) }
{
    is_death(word.text.as_slice())
}

// The words up to the outermost part of the program's or the
// thread's stack. `main` stays, and the first word of all stays too.
#[tactic(auto, using(crate::proofs::StepLemmas::main_here, crate::proofs::StepLemmas::outer_here, crate::proofs::StepLemmas::inner_next, crate::proofs::StepLemmas::inner_end))]
pub(crate) fn inner_part(words: &[Word]) -> &[Word]
    ensures value { map said result.now ≡ spec.inner_part true (map said words.now) }
    ensures short { length result.now ≤ length words.now }
{
    for at in 0..words.len() {
        let word = &words[at];
        if is_main(word) {
            return &words[..at + 1];
        }
        if calls_main(word) {
            return &words[..at.max(1)];
        }
    }
    words
}

// Whether this word is of the outermost part.
pub(crate) fn is_outermost(word: &Word) -> bool
    ensures { result ≡ spec.is_outermost (said word.now) }
{
    is_main(word) || calls_main(word)
}

fn calls_main(word: &Word) -> bool
    ensures { result ≡ spec.calls_main (said word.now) }
{
    is_outer(word.text.as_slice())
}

fn is_main(word: &Word) -> bool
    ensures { result ≡ spec.is_main (said word.now) }
{
    word.text.as_slice() == b"main".as_slice()
}

// The words without repetitions.
pub(crate) fn without_repetitions(words: &[Word]) -> Words
    requires { length words.now ≤ 96 }
    ensures { map said result.items ≡ spec.without_repetitions (map said words.now) }
{
    let mut kept = Words::new();
    for word in words {
        kept.push(copied(word));
        let left = count_left(kept.as_slice());
        kept.truncate(left);
    }
    kept
}

// How many words are left if a repetition of the last one, two or three words at their end goes.
fn count_left(words: &[Word]) -> usize
    ensures value { result ≡ spec.count_left (map said words.now) }
    ensures within { result ≤ length words.now }
{
    if ends_twice(words, 1) {
        words.len() - 1
    } else if ends_twice(words, 2) {
        words.len() - 2
    } else if ends_twice(words, 3) {
        words.len() - 3
    } else {
        words.len()
    }
}

// Whether the last words, so many, are the same as those before them.
#[tactic(auto, using(crate::proofs::StepLemmas::twice))]
fn ends_twice(words: &[Word], count: usize) -> bool
    requires { count ≤ 8 }
    ensures value { result ≡ spec.ends_twice count (map said words.now) }
    ensures long { result ≡ true → 2 * count ≤ length words.now }
{
    let length = words.len();
    length >= 2 * count
        && are_same(
            &words[length - count..],
            &words[length - 2 * count..length - count],
        )
}
