//! Pasted text is read again.
ghost use Rattle.std.specs.Prelude.{◌≡◌, ◌<◌, ℕ, List, Some, length, All};
ghost use Rattle.script_words.specs.Printing.{shown};
ghost use Rattle.script_words.specs.Text.{text_of};
ghost use Rattle.case_screens.specs.Quotes.{between_quotes};

use script_words::printed_texts_are_read_again;

/// A shell hands over all that is between the quotes of a name that is printed in quotes, and a line of a script reads that as the name: so
/// does `store --exec`.
pub fn quoted_names_are_read_again()
    ensures whole { (word : List ℕ) → All (λ c. c ≡ 39 → ⊥) (between_quotes word) }
    ensures read { (name : List ℕ) → All (λ c. c < 256) name → 0 < length name → text_of (between_quotes (shown name)) ≡ Some name }
{
    printed_texts_are_read_again();
}
