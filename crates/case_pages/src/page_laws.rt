//! Laws of pages, whatever their texts are. These functions do nothing.
ghost use Rattle.std.specs.Prelude.{◌≡◌, ◌<◌, ◌++◌, ℕ, true, All, List};
ghost use Rattle.std.specs.List.{list_all};
ghost use Rattle.case_pages.specs.Escaping.{escape, is_tame, plain};
ghost use Rattle.case_pages.specs.Html.{Token, chars, in_text, read, tags};

/// The escaped form of a text has only bytes of 0x20 to 0x7e, and none of `<`, `>`, `"` and `'`.
pub fn escaped_is_tame()
    ensures { (text : List ℕ) → All (λ c. c < 256) text → list_all is_tame (escape text) ≡ true }
{}

/// It reads back as the characters by which the text is shown: no tag, and no other character.
pub fn unescaped_is_shown()
    ensures { (text : List ℕ) → read in_text (escape text) ≡ (in_text, chars (plain text)) }
{}

/// Whatever a text is, the tags of a page are the same.
pub fn texts_change_no_tag()
    ensures { (before after : List Token) (text other : List ℕ) → tags (before ++ (chars (plain text) ++ after)) ≡ tags (before ++ (chars (plain other) ++ after)) }
{}
