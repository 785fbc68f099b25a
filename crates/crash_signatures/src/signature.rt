//! The signature of a walk.
ghost use Rattle.std.specs.Prelude.{◌≡◌, ◌+◌, ◌<◌, ◌≤◌, ◌&&◌, not, nat_le, nat_lt, IfSome, length, map, position, take};
ghost use Rattle.std.specs.List.{list_any};
ghost use Rattle.std.specs.Option.{option_map};
ghost use Rattle.arrayvec.specs.ArrayVec.{array_vec_len};
ghost use Rattle.crash_signatures.specs.Signature as spec;
ghost use Rattle.crash_signatures.specs.SignatureViews.{handled_said, signature_said};
ghost use Rattle.crash_signatures.specs.Steps.{is_outermost};
ghost use Rattle.crash_signatures.specs.WordViews.{said};

use crate::frames::mark;
use crate::recursion::{cycle_in, least_turn};
use crate::steps::{inner_part, is_outermost, without_death, without_repetitions};
use crate::words::{Word, Words, add, add_words, joined};
use arrayvec::ArrayVec;

// How many words a signature has, besides marks.
const MOST: usize = 5;

// Among how many words the frame of a signal is looked for.
const SIGNALS: usize = 16;

/// A signal that was being handled.
#[derive(Clone, Copy)]
pub struct HandledSignal<'a> {
    /// The signal's number.
    pub number: u32,
    /// Its name, as `SIGSEGV`, or another text for a signal without a name.
    pub name: &'a [u8],
}

/// The signature of a crash.
#[derive(Drop)]
pub struct Signature {
    /// Its words, the innermost first.
    pub words: ArrayVec<Word, 7>,
    /// Frames are missing behind the words.
    pub is_missing: bool,
}

/// The signature of a walk, by the words of its frames from the innermost on.
///
/// HANDLED is the signal of the first `<signal>` among the first 16 words, if there is one and its number could be read.
/// `is_whole` says that the walk ended at the outermost frame, or after as many frames as are looked at.
pub fn signature_of(words: &Words, handled: Option<HandledSignal<'_>>, is_whole: bool) -> Signature
    ensures { signature_said result ≡ spec.signature (map said words.now.items) (option_map handled_said handled.entry) is_whole }
{
    let words = words.as_slice();
    match signal_place(words) {
        Some(at) => handling(words, at, handled, is_whole),
        None => unhandled(ArrayVec::new(), words, is_whole),
    }
}

/// The signature of a core that is refused: the name of the bad field, as `<e_machine>`.
pub fn signature_of_refused(field: &[u8]) -> Signature
    ensures { signature_said result ≡ spec.refused field.now }
{
    let mut words = ArrayVec::new();
    words.push(bracketed(field));
    Signature {
        words,
        is_missing: false,
    }
}

// Where the first frame of a signal is, among the first 16.
#[tactic(auto, using(crate::proofs::SignatureLemmas::place_said))]
fn signal_place(words: &[Word]) -> Option<usize>
    ensures value { result ≡ position spec.is_signal_frame (take 16 (map said words.now)) }
    ensures within { IfSome result (λ at. at < length words.now) }
{
    signal_in(&words[..words.len().min(SIGNALS)])
}

fn signal_in(words: &[Word]) -> Option<usize>
    ensures value { result ≡ position (λ w. spec.is_signal_frame (said w)) words.now }
    ensures within { IfSome result (λ at. at < length words.now) }
{
    words.iter().position(|word| is_signal_frame(word))
}

fn is_signal_frame(word: &Word) -> bool
    ensures { result ≡ spec.is_signal_frame (said word.now) }
{
    word.is_mark && word.text.as_slice() == b"<signal>".as_slice()
}

// The signature if a signal was being handled, whose frame is at this place.
fn handling(
    words: &[Word],
    at: usize,
    handled: Option<HandledSignal<'_>>,
    is_whole: bool,
) -> Signature
    requires place { at < length words.now }
    requires words { length words.now ≤ 96 }
    ensures { signature_said result ≡ spec.handling at (map said words.now) (option_map handled_said handled.entry) is_whole }
{
    let mark = signal_mark(handled);
    if had_failed(handled, at, words.len()) {
        let mut lead = ArrayVec::new();
        lead.push(mark);
        return unhandled(lead, &words[at + 1..], is_whole);
    }
    let mut ended = Words::new();
    add_words(&mut ended, &words[..at]);
    ended.push(mark);
    unhandled(ArrayVec::new(), ended.as_slice(), true)
}

// Whether the interrupted code itself had failed, and a frame follows the signal's.
fn had_failed(handled: Option<HandledSignal<'_>>, at: usize, count: usize) -> bool
    requires { at < count }
    ensures { result ≡ (spec.is_fault (option_map handled_said handled.entry) && nat_lt (at + 1) count) }
{
    is_fault(handled) && at + 1 < count
}

// The mark of the signal that was being handled.
fn signal_mark(handled: Option<HandledSignal<'_>>) -> Word
    ensures { said result ≡ spec.signal_mark (option_map handled_said handled.entry) }
{
    match handled {
        Some(signal) => bracketed(signal.name),
        None => mark(b"<signal>"),
    }
}

// The mark of a name.
fn bracketed(name: &[u8]) -> Word
    ensures { said result ≡ spec.bracketed name.now }
{
    let mut text = joined(b"<", name);
    add(&mut text, b">");
    Word {
        text,
        is_mark: true,
    }
}

// Whether the interrupted code itself had failed: ILL, TRAP, ABRT, BUS and FPE, SEGV, SYS.
fn is_fault(handled: Option<HandledSignal<'_>>) -> bool
    ensures { result ≡ spec.is_fault (option_map handled_said handled.entry) }
{
    match handled {
        Some(signal) => (4..=8).contains(&signal.number)
            || signal.number == 11
            || signal.number == 31,
        None => false,
    }
}

// The signature of words that no signal's frame cuts, behind a mark, if there is one.
fn unhandled(lead: ArrayVec<Word, 7>, words: &[Word], is_whole: bool) -> Signature
    requires lead { array_vec_len lead ≤ 1 }
    requires words { length words.now ≤ 96 }
    ensures { signature_said result ≡ spec.behind (map said lead.items) (spec.unhandled (map said words.now) is_whole) }
{
    match cycle_in(words) {
        Some(cycle) => recursive(lead, cycle),
        None => plain(lead, words, is_whole),
    }
}

// The signature of a deep recursion.
fn recursive(lead: ArrayVec<Word, 7>, cycle: &[Word]) -> Signature
    requires lead { array_vec_len lead ≤ 1 }
    requires cycle { length cycle.now ≤ 8 }
    ensures { signature_said result ≡ spec.behind (map said lead.items) (spec.recursive (map said cycle.now)) }
{
    let turn = least_turn(cycle);
    let mut words = lead;
    words.push(mark(b"<recursion>"));
    add_words(&mut words, first_words(turn.as_slice()));
    Signature {
        words,
        is_missing: false,
    }
}

// The signature of words that are no deep recursion.
fn plain(lead: ArrayVec<Word, 7>, words: &[Word], is_whole: bool) -> Signature
    requires lead { array_vec_len lead ≤ 1 }
    requires words { length words.now ≤ 96 }
    ensures { signature_said result ≡ spec.behind (map said lead.items) (spec.plain (map said words.now) is_whole) }
{
    let alive = without_death(words);
    let kept = without_repetitions(inner_part(alive));
    let is_missing = are_missing(alive, kept.len(), is_whole);
    let mut words = lead;
    add_words(&mut words, first_words(kept.as_slice()));
    Signature { words, is_missing }
}

// Whether frames are missing behind so many words.
#[tactic(auto, using(crate::proofs::SignatureLemmas::any_said))]
fn are_missing(alive: &[Word], count: usize, is_whole: bool) -> bool
    ensures { result ≡ (not is_whole && nat_le count 5 && not (list_any is_outermost (map said alive.now))) }
{
    !is_whole && count <= MOST && !has_outermost(alive)
}

// The first five words.
fn first_words(words: &[Word]) -> &[Word]
    ensures value { map said result.now ≡ take 5 (map said words.now) }
    ensures short { length result.now ≤ 5 }
{
    &words[..words.len().min(MOST)]
}

// Whether a word is of the outermost part.
fn has_outermost(words: &[Word]) -> bool
    ensures { result ≡ list_any (λ w. is_outermost (said w)) words.now }
{
    words.iter().any(|word| is_outermost(word))
}
