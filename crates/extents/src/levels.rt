// The two levels of a free map: one bit for each block, in words of 64,
// and one bit for each of these words, which is set if the word is not 0.
ghost use Rattle.std.specs.Prelude.{◌≡◌, ◌+◌, ◌*◌, ◌<◌, ◌≤◌, ℕ, length, set};
ghost use Rattle.std.specs.Int.{bit_at};
ghost use Rattle.extents.specs.FreeSet.{is_within, one_if};
ghost use Rattle.extents.specs.FreeWords.{IsFirstNotZero, IsFreeStart, IsSecondLevel, AreWritten};

use crate::Run;

/// The place of the first word from place `from` on that is not 0, or the number of words if all of them are 0.
pub(crate) fn first_not_zero(words: &[u64], from: usize) -> usize
    requires { from ≤ length words.now }
    ensures { IsFirstNotZero words.now from result }
{
    for place in from..words.len() {
        if words[place] != 0 {
            return place;
        }
    }
    words.len()
}

/// How many blocks at the start of a run are free.
pub(crate) fn free_at_start(words: &[u64], run: Run) -> u32
    requires fits { run.start + run.count ≤ 16777216 }
    requires within { run.start + run.count ≤ 64 * length words.now }
    ensures { IsFreeStart words.now run result }
{
    for place in run.start / 64..(run.start + run.count + 63) / 64 {
        let used = !words[place as usize] & mask_of(run, place);
        if used != 0 {
            return 64 * place + used.trailing_zeros() - run.start;
        }
    }
    run.count
}

/// Clears the bits of a run.
pub(crate) fn clear_bits(words: &mut [u64], groups: &mut [u64], run: Run)
    requires fits { run.start + run.count ≤ 16777216 }
    requires within { run.start + run.count ≤ 64 * length words.old }
    requires enough { length words.old ≤ 64 * length groups.old }
    requires second { IsSecondLevel groups.old words.old }
    ensures bits { AreWritten words.old run 0 words.new }
    ensures second { IsSecondLevel groups.new words.new }
{
    for place in run.start / 64..(run.start + run.count + 63) / 64 {
        let word = words[place as usize] & !mask_of(run, place);
        write_word(words, groups, place, word);
    }
}

/// Sets the bits of a run.
pub(crate) fn set_bits(words: &mut [u64], groups: &mut [u64], run: Run)
    requires fits { run.start + run.count ≤ 16777216 }
    requires within { run.start + run.count ≤ 64 * length words.old }
    requires enough { length words.old ≤ 64 * length groups.old }
    requires second { IsSecondLevel groups.old words.old }
    ensures bits { AreWritten words.old run 1 words.new }
    ensures second { IsSecondLevel groups.new words.new }
{
    for place in run.start / 64..(run.start + run.count + 63) / 64 {
        let word = words[place as usize] | mask_of(run, place);
        write_word(words, groups, place, word);
    }
}

// The bits that a run has in the word at `place`, which is at least one.
fn mask_of(run: Run, place: u32) -> u64
    requires fits { run.start + run.count ≤ 16777216 }
    requires begun { run.start < 64 * place + 64 }
    requires not_over { 64 * place < run.start + run.count }
    ensures { (i : ℕ) → i < 64 → bit_at result i ≡ one_if (is_within run (64 * place + i)) }
{
    let first = 64 * place;
    let low = run.start.saturating_sub(first);
    let high = (run.start + run.count - first).min(64);
    u64::MAX << low & u64::MAX >> (64 - high)
}

// Writes a word, and whether it is 0 into the second level.
fn write_word(words: &mut [u64], groups: &mut [u64], place: u32, word: u64)
    requires within { place < length words.old }
    requires enough { length words.old ≤ 64 * length groups.old }
    requires second { IsSecondLevel groups.old words.old }
    ensures word { words.new ≡ set words.old place word }
    ensures second { IsSecondLevel groups.new words.new }
{
    words[place as usize] = word;
    let bit: u64 = 1 << (place % 64);
    if word == 0 {
        groups[(place / 64) as usize] &= !bit;
    } else {
        groups[(place / 64) as usize] |= bit;
    }
}
