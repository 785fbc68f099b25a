// Signals by their names.
ghost use Rattle.std.specs.Prelude.{◌≡◌, ◌^◌, ◌<◌, ◌≤◌, ℕ, true, false, None, Some, IfSome, length};
ghost use Rattle.std.specs.Option.{option_copied};
ghost use Rattle.script_streams.specs.Replies.{PrintsText, printing};
ghost use Rattle.thread_regs.specs.SignalNames.{numbered_name};
ghost use Rattle.case_tables.specs.Cells.{signal_text};
ghost use Rattle.case_tables.specs.Filters.{IsNoName, SaysSignal};
ghost use Rattle.script_words.specs.Number.{number_of};

use crate::columns::{known_length, print_known};
use script_streams::{Output, Reply};
use script_words::parse_number;
use thread_regs::signal_name;

// The last signal that has a name.
const LAST_NAMED: u32 = 31;

// The name of a signal, without SIG.
pub(crate) fn name_of(signal: u32) -> Option<&'static str>
    ensures { option_copied result ≡ numbered_name signal }
{
    if signal > LAST_NAMED {
        return None;
    }
    signal_name(signal as i32)
}

/// Prints a signal by its name, or by its number; or `-` for 0.
pub fn print_signal<O: Output>(reply: &mut Reply<'_, O>, signal: u32)
    ensures { PrintsText (printing O.Output reply.old reply.new) (signal_text signal) }
{
    match name_of(signal) {
        Some(name) => {
            reply.print(b"SIG");
            reply.print(name.as_bytes());
        }
        None => print_known(reply, signal),
    }
}

// How many bytes `print_signal` prints.
pub(crate) fn signal_length(signal: u32) -> usize
    ensures { result ≡ length (signal_text signal) }
{
    match name_of(signal) {
        Some(name) => 3 + name.len(),
        None => known_length(signal),
    }
}

/// The signal that a text says: by its name, with or without SIG, or by its number; none if it says none.
pub fn read_signal(text: &str) -> Option<u32>
    ensures { SaysSignal text.now result }
{
    let name = match text.strip_prefix("SIG") {
        Some(name) => name,
        None => text,
    };
    signal_named(name).or(number_in(text))
}

// The signal of this name, without SIG.
fn signal_named(name: &str) -> Option<u32>
    ensures found { IfSome result (λ n. numbered_name n ≡ Some name.now) }
    ensures none { result ≡ None → IsNoName name.now }
{
    for signal in 1..=LAST_NAMED {
        if is_named(signal, name) {
            return Some(signal);
        }
    }
    None
}

// Whether this is the name of a signal, without SIG.
fn is_named(signal: u32, name: &str) -> bool
    ensures yes { result ≡ true → numbered_name signal ≡ Some name.now }
    ensures no { result ≡ false → numbered_name signal ≡ Some name.now → ⊥ }
{
    match name_of(signal) {
        Some(named) => named == name,
        None => false,
    }
}

// The number that a text says, if it has 32 bits.
fn number_in(text: &str) -> Option<u32>
    ensures found { IfSome result (λ n. (number_of text.now ≡ Some n) × (n < 2 ^ 32)) }
    ensures none { result ≡ None → (n : ℕ) → number_of text.now ≡ Some n → 2 ^ 32 ≤ n }
{
    u32::try_from(parse_number(text.as_bytes())?).ok()
}
