//! Laws of all JSON that is printed.
ghost use Rattle.std.specs.Prelude.{◌≡◌, ℕ, List, false};
ghost use Rattle.std.specs.List.{list_any};
ghost use Rattle.std.specs.Str.{IsUtf8, chars};
ghost use Rattle.case_tables.specs.Hidden.{is_hidden, printed_json};

/// No character of the printed text is hidden.
pub fn nothing_printed_is_hidden()
    ensures { (text : List ℕ) → IsUtf8 text → list_any is_hidden (chars (printed_json text)) ≡ false }
{}
