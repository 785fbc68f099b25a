// The line of a script that begins the stream, as the words say it.
ghost use Rattle.std.specs.Prelude.{◌≡◌, ℕ, true, List, ◌∷◌, ◌++◌, map, codes, IfOk, IfErr};
ghost use Rattle.archive_files.specs.declared.failures.Refusal.TheVariants.{OutOfMemory};
ghost use Rattle.script_lines.specs.Said.{said};
ghost use Rattle.command_line.specs.Requesting.{IsSpelled, IsPair, IsJoined, IsUnspelled, HasTaken, begins_core, shown_text};

use crate::asked::{checked, checked_part};
use archive_files::{Refusal, WordPart};
use command_words::push_escaped;
use script_lines::{Command, Request, parse_text};
use std::alloc::Global;

// The line that begins a core, with a space before each of its pairs.
pub(crate) fn core_line(alloc: Global, pairs: &[&str], escapes: bool) -> Result<Vec<u8>, Refusal>
    ensures joined { IfOk result (λ line. IsJoined escapes (codes "begin core 0") (map (λ p. p.now) pairs.now) line.items) }
    ensures refused { IfErr result IsUnspelled }
{
    let mut line = Vec::new(alloc);
    add(&mut line, b"begin core 0")?;
    for pair in pairs {
        add_pair(alloc, &mut line, pair, escapes)?;
    }
    Ok(line)
}

// A line that ends with a text.
pub(crate) fn valued_line(
    alloc: Global,
    start: &[u8],
    value: &str,
    escapes: bool,
) -> Result<Vec<u8>, Refusal>
    ensures spelled { IfOk result (λ line. (text : List ℕ) × (line.items ≡ start.now ++ text) × IsSpelled escapes value.now text) }
    ensures refused { IfErr result IsUnspelled }
{
    let mut line = Vec::new(alloc);
    add(&mut line, start)?;
    add(&mut line, &spelled(alloc, value, escapes)?)?;
    Ok(line)
}

// Adds a space and a pair.
fn add_pair(alloc: Global, line: &mut Vec<u8>, pair: &str, escapes: bool) -> Result<(), Refusal>
    ensures added { IfOk result (λ done. (text : List ℕ) × (line.new.items ≡ line.old.items ++ 32 ∷ text) × IsPair escapes pair.now text) }
    ensures refused { IfErr result IsUnspelled }
{
    let text = pair_text(alloc, pair, escapes)?;
    add(line, b" ")?;
    add(line, &text)
}

// Adds a pair to the line that begins a core, with its VALUE escaped. If the line would begin none then, it stays as it is. Says
// whether it has the pair.
pub(crate) fn takes_pair(alloc: Global, line: &mut Vec<u8>, pair: &str) -> Result<bool, Refusal>
    ensures takes { IfOk result (λ taken. HasTaken line.old.items pair.now line.new.items taken) }
    ensures refused { IfErr result (λ why. why ≡ OutOfMemory) }
{
    let text = escaped_pair(alloc, pair)?;
    let at = line.len();
    add(line, b" ")?;
    add(line, &text)?;
    let taken = begins_core(line);
    if !taken {
        line.truncate(at);
    }
    Ok(taken)
}

fn begins_core(line: &[u8]) -> bool
    ensures { result ≡ begins_core (said line.now) }
{
    matches!(parse_text(line), Command::Plain(Request::BeginCore { .. }))
}

// A pair, whose VALUE alone may be escaped.
fn pair_text(alloc: Global, pair: &str, escapes: bool) -> Result<Vec<u8>, Refusal>
    ensures spelled { IfOk result (λ text. IsPair escapes pair.now text.items) }
    ensures refused { IfErr result IsUnspelled }
{
    check_pair(pair, escapes)?;
    if escapes {
        escaped_pair(alloc, pair)
    } else {
        as_it_is(alloc, pair)
    }
}

// Whether the parts of a pair are text, but for those that are escaped.
fn check_pair(pair: &str, escapes: bool) -> Result<(), Refusal>
    ensures refused { IfErr result IsUnspelled }
{
    match pair.split_once('=') {
        Some((key, _)) if escapes => {
            checked(key)?;
        }
        Some((key, value)) => {
            checked(key)?;
            checked_part(value, WordPart::Value)?;
        }
        None => {
            checked_part(pair, WordPart::Value)?;
        }
    }
    Ok(())
}

// A pair with its VALUE escaped.
fn escaped_pair(alloc: Global, pair: &str) -> Result<Vec<u8>, Refusal>
    ensures spelled { IfOk result (λ text. IsPair true pair.now text.items) }
    ensures refused { IfErr result (λ why. why ≡ OutOfMemory) }
{
    let Some((key, value)) = pair.split_once('=') else {
        return as_it_is(alloc, pair);
    };
    let mut text = as_it_is(alloc, key)?;
    add(&mut text, b"=")?;
    add(&mut text, &escaped(alloc, value)?)?;
    Ok(text)
}

// A text as it is, or with the bytes that the line's grammar does not take as themselves escaped.
fn spelled(alloc: Global, value: &str, escapes: bool) -> Result<Vec<u8>, Refusal>
    ensures spelled { IfOk result (λ text. IsSpelled escapes value.now text.items) }
    ensures refused { IfErr result IsUnspelled }
{
    if !escapes {
        return as_it_is(alloc, checked_part(value, WordPart::Value)?);
    }
    escaped(alloc, value)
}

// A text with the bytes that the line's grammar does not take as themselves escaped.
fn escaped(alloc: Global, value: &str) -> Result<Vec<u8>, Refusal>
    ensures shown { IfOk result (λ text. text.items ≡ shown_text value.now) }
    ensures refused { IfErr result (λ why. why ≡ OutOfMemory) }
{
    let mut text = Vec::new(alloc);
    match push_escaped(&mut text, value) {
        Ok(()) => Ok(text),
        Err(_) => Err(Refusal::OutOfMemory),
    }
}

fn as_it_is(alloc: Global, text: &str) -> Result<Vec<u8>, Refusal>
    ensures same { IfOk result (λ bytes. bytes.items ≡ text.now) }
    ensures refused { IfErr result (λ why. why ≡ OutOfMemory) }
{
    let mut bytes = Vec::new(alloc);
    add(&mut bytes, text.as_bytes())?;
    Ok(bytes)
}

// Adds bytes to a line.
fn add(line: &mut Vec<u8>, bytes: &[u8]) -> Result<(), Refusal>
    ensures added { IfOk result (λ done. line.new.items ≡ line.old.items ++ bytes.now) }
    ensures refused { IfErr result (λ why. why ≡ OutOfMemory) }
{
    match line.extend_from_slice(bytes) {
        Ok(()) => Ok(()),
        Err(_) => Err(Refusal::OutOfMemory),
    }
}
