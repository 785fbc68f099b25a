// The words of a handler, which loses no core for one that it does not know.
ghost use Rattle.std.specs.Prelude.{◌≡◌, ◌≤◌, None, Ok, false, length};
ghost use Rattle.command_words.specs.Handling.{asks_to_handle};

use std::alloc::{AllocError, Global};

// The kind of word.
#[derive(Clone, Copy, PartialEq, Eq)]
enum Kind {
    // An option that is known, or the value of one.
    Known,
    // Another word: the configuration, or a pair.
    Plain,
    // An option that is not known.
    Unknown,
}

/// The words of `handle` in an order in which none is refused: its options, and then, after `--`, the others, those last that are no
/// known option. These are then reported and left out. From the first pair on all words are pairs, and stay together: a program may
/// have the name of an option. Nothing if the words are not those of `handle`.
///
/// # Errors
///
/// `AllocError` if there is no memory for them.
pub fn in_order(alloc: Global, words: &[String]) -> Result<Option<Vec<String>>, AllocError>
    ensures others { asks_to_handle words.now ≡ false → result ≡ Ok None }
{
    let Some((command, rest)) = words.split_first() else {
        return Ok(None);
    };
    if command.as_str() != "handle" {
        return Ok(None);
    }
    let (front, pairs) = rest.split_at(front_length(rest));
    let mut ordered = Vec::new(alloc);
    ordered.push(command.clone()?)?;
    push_kind(&mut ordered, front, Kind::Known)?;
    ordered.push(String::from_str(alloc, "--")?)?;
    push_kind(&mut ordered, front, Kind::Plain)?;
    push_all(&mut ordered, pairs)?;
    push_kind(&mut ordered, front, Kind::Unknown)?;
    Ok(Some(ordered))
}

// How many words stand before the first pair: a word with an `=` that is no option, and no option's value.
fn front_length(words: &[String]) -> usize
    ensures { result ≤ length words.now }
{
    let mut is_value = false;
    for (index, word) in words.iter().enumerate() {
        if !is_value && word.contains('=') && kind_of(word) == Kind::Plain {
            return index;
        }
        is_value = !is_value && kind_of_value(word).is_some();
    }
    words.len()
}

// Adds all of these words.
fn push_all(ordered: &mut Vec<String>, words: &[String]) -> Result<(), AllocError> {
    for word in words {
        ordered.push(word.clone()?)?;
    }
    Ok(())
}

// Adds the words of this kind. A value is of the kind of its option.
fn push_kind(ordered: &mut Vec<String>, words: &[String], wanted: Kind) -> Result<(), AllocError> {
    let mut of_option = None;
    for word in words {
        let kind = match of_option {
            Some(kind) => kind,
            None => kind_of(word),
        };
        if kind == wanted {
            ordered.push(word.clone()?)?;
        }
        of_option = match of_option {
            Some(_) => None,
            None => kind_of_value(word),
        };
    }
    Ok(())
}

// The kind of the word after this one, if that is this option's value. `store` has options that a handler has not.
fn kind_of_value(word: &str) -> Option<Kind> {
    match word {
        "--archive" | "--length" | "--stall" => Some(Kind::Known),
        "--keep"
        | "--bytes"
        | "--before"
        | "--label"
        | "--log"
        | "--template"
        | "--limit"
        | "--exec"
        | "--spool"
        | "--id" => { Some(Kind::Unknown) }
        _ => None,
    }
}

// The kind of a word that is no option's value.
fn kind_of(word: &str) -> Kind {
    match word {
        "--check" | "--flush" | "--help" | "-h" | "--archive" | "--length" | "--stall" => {
            Kind::Known
        }
        _ if word.starts_with("--archive=") || word.starts_with("--length=") => Kind::Known,
        _ if word.starts_with("--stall=") => Kind::Known,
        _ if word.starts_with('-') => Kind::Unknown,
        _ => Kind::Plain,
    }
}
