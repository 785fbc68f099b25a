// Words as a line of a script.
ghost use Rattle.std.specs.Prelude.{◌≡◌, ◌++◌, IfOk, OnOk, map};
ghost use Rattle.command_words.specs.Lines.{joined};

use std::alloc::{AllocError, Global};

/// Words with a space between them.
///
/// # Errors
///
/// `AllocError` if there is no memory for them.
pub fn line_of(alloc: Global, words: &[&str]) -> Result<Vec<u8>, AllocError>
    ensures { IfOk result (λ line. line.items ≡ joined (map (λ word. word.now) words.now)) }
{
    let mut line = Vec::new(alloc);
    let Some((first, others)) = words.split_first() else {
        return Ok(line);
    };
    push_text(&mut line, first)?;
    for word in others {
        push_text(&mut line, " ")?;
        push_text(&mut line, word)?;
    }
    Ok(line)
}

/// Adds a text as it is.
///
/// # Errors
///
/// `AllocError` if there is no memory for it.
pub fn push_text(line: &mut Vec<u8>, text: &str) -> Result<(), AllocError>
    ensures { OnOk result (line.new.items ≡ line.old.items ++ text.now) }
{
    line.extend_from_slice(text.as_bytes())?;
    Ok(())
}
