// The help of a line, by its first word.
ghost use Rattle.std.specs.Prelude.{◌≡◌, IfSome};

use crate::help_line::LineHelp;
use crate::help_lines::LINES;

/// The help of the line that begins with this word.
pub fn help_of(word: &str) -> Option<&'static LineHelp>
    ensures { IfSome result (λ help. help.now.name.now ≡ word.now) }
{
    LINES.iter().find(|line| line.name == word)
}
