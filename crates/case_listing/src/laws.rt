//! Printed texts as people read them.
ghost use Rattle.std.specs.Prelude.{◌≡◌, ◌<◌, ◌≤◌, ℕ, List, length, All};
ghost use Rattle.script_words.specs.Printing.{shown};
ghost use Rattle.case_listing.specs.PlainText.{plain_of};

/// A text of spaces and bytes that print is read as it is. (The empty text prints as `-`.)
pub fn printed_texts_are_read_by_people()
    ensures { (text : List ℕ) → All (λ c. (32 ≤ c) × (c ≤ 126)) text → 0 < length text → plain_of (shown text) ≡ text }
{}
