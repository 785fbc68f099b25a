// JSON as it is printed.
ghost use Rattle.std.specs.Prelude.{◌≡◌, ◌++◌, IfOk, OnOk, string_bytes};
ghost use Rattle.serde_json.specs.View.{view};
ghost use Rattle.case_tables.specs.Hidden.{IsPrinted, is_hidden, printed_char, printed_json};

use crate::objects::push_letters;
use script_words::print_hex_row;
use serde_json::Value;
use std::alloc::{AllocError, Global};

/// The printed JSON of a value: the text that `serde_json` writes, with `\uXXXX` instead of each character that a terminal acts on or
/// does not show. Such a character occurs only in a string, so the same texts are read.
///
/// # Errors
///
/// There is no memory.
pub fn json_text(alloc: Global, value: &Value) -> Result<String, AllocError>
    ensures { IfOk result (λ text. IsPrinted (view value.now) (string_bytes text)) }
{
    let written = value.to_string(alloc)?;
    let mut text = String::new(alloc);
    push_json(&mut text, &written)?;
    Ok(text)
}

// Adds JSON as it is printed.
fn push_json(text: &mut String, json: &str) -> Result<(), AllocError>
    ensures { OnOk result (string_bytes text.new ≡ string_bytes text.old ++ printed_json json.now) }
{
    for character in json.chars() {
        push_printed(text, character)?;
    }
    Ok(())
}

// Adds a character, escaped if it is hidden.
fn push_printed(text: &mut String, character: char) -> Result<(), AllocError>
    ensures { OnOk result (string_bytes text.new ≡ string_bytes text.old ++ printed_char character) }
{
    if !is_hidden(character) {
        text.push(character)?;
        return Ok(());
    }
    let code = u32::from(character);
    text.push_str("\\u")?;
    push_letters(
        text,
        &print_hex_row(&[(code / 256) as u8, (code % 256) as u8]),
    )?;
    Ok(())
}

// Whether a terminal or an editor acts on a character or does not show it.
#[tactic(auto, unfolding(crate::specs::Hidden::is_hidden))]
fn is_hidden(character: char) -> bool
    ensures { result ≡ is_hidden character }
{
    matches!(
        character,
        '\u{7f}'..='\u{9f}'
            | '\u{61c}'
            | '\u{200b}'..='\u{200f}'
            | '\u{2028}'..='\u{202e}'
            | '\u{2060}'
            | '\u{2066}'..='\u{2069}'
            | '\u{feff}'
    )
}
