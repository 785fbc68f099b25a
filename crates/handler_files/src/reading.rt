// Reads the line of a counter.
ghost use Rattle.std.specs.Prelude.{◌≡◌, ◌≢◌, ◌++◌, ◌∷◌, ◌<◌, ◌^◌, ℕ, List, Some, IfSome, MatchOption, codes, decimal};
ghost use Rattle.std.specs.Option.{option_map};
ghost use Rattle.handler_files.specs.Counters.{name, reason_behind};
ghost use Rattle.handler_files.specs.Counts.{HasNoNewline, IsCountRead, IsLineRead, line};

use crate::counters::Counter;
use crate::reasons::Reason;
use memchr::memchr;
use script_words::{parse_number, print_decimal, printed_numbers_are_read_again};

// The count in the line of a counter, and the text after that line.
pub(crate) fn read_line(text: &[u8], counter: Counter) -> Option<(u64, &[u8])>
    ensures back { (n : ℕ) → (rest : List ℕ) → n < 2 ^ 64 → text.now ≡ line counter n ++ rest → IsCountRead (option_map (λ p. (p.0, p.1.now)) result) n rest }
    ensures only { IfSome result (λ p. text.now ≡ line counter p.0 ++ p.1.now) }
{
    let behind = after_name(text, counter)?;
    let split = split_line(behind)?;
    let count = read_count(split.0)?;
    Some((count, split.1))
}

// The text after the name of a counter and a space.
fn after_name(text: &[u8], counter: Counter) -> Option<&[u8]>
    ensures { MatchOption result ((rest : List ℕ) → text.now ≢ name counter ++ (32 ∷ rest)) (λ x. text.now ≡ name counter ++ (32 ∷ x.now)) }
{
    let reason = after(text, counter.outcome())?;
    let space = after_reason(reason, counter.reason())?;
    after(space, b" ")
}

fn after_reason(text: &[u8], reason: Option<Reason>) -> Option<&[u8]>
    ensures { MatchOption result ((rest : List ℕ) → text.now ≢ reason_behind reason ++ rest) (λ x. text.now ≡ reason_behind reason ++ x.now) }
{
    match reason {
        None => Some(text),
        Some(reason) => after_word(text, reason.word()),
    }
}

// The text after a space and this word.
fn after_word<'a>(text: &'a [u8], word: &[u8]) -> Option<&'a [u8]>
    ensures { MatchOption result ((rest : List ℕ) → text.now ≢ (codes " " ++ word.now) ++ rest) (λ x. text.now ≡ (codes " " ++ word.now) ++ x.now) }
{
    let space = after(text, b" ")?;
    after(space, word)
}

// The text after this front.
fn after<'a>(text: &'a [u8], front: &[u8]) -> Option<&'a [u8]>
    ensures { MatchOption result ((rest : List ℕ) → text.now ≢ front.now ++ rest) (λ x. text.now ≡ front.now ++ x.now) }
{
    text.strip_prefix(front)
}

// The text before the first newline, and the text after it.
fn split_line(text: &[u8]) -> Option<(&[u8], &[u8])>
    ensures back { (line rest : List ℕ) → HasNoNewline line → text.now ≡ line ++ 10 ∷ rest → IsLineRead (option_map (λ p. (p.0.now, p.1.now)) result) line rest }
    ensures only { IfSome result (λ p. text.now ≡ p.0.now ++ 10 ∷ p.1.now) }
{
    let end = memchr(b'\n', text)?;
    let (line, rest) = text.split_at(end);
    Some((line, rest.split_at(1).1))
}

// The number of decimal digits that have no leading zero.
fn read_count(digits: &[u8]) -> Option<u64>
    ensures back { (n : ℕ) → n < 2 ^ 64 → digits.now ≡ decimal n → result ≡ Some n }
    ensures only { IfSome result (λ n. digits.now ≡ decimal n) }
{
    printed_numbers_are_read_again();
    let count = parse_number(digits)?;
    let is_plain = print_decimal(u128::from(count)).as_slice() == digits;
    if is_plain { Some(count) } else { None }
}
