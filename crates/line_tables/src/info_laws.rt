// What the definitions that the contracts cite say together.
ghost use Rattle.std.specs.Prelude.{◌≡◌, ℕ, List, Some};
ghost use Rattle.line_tables.specs.Abbreviations.{declared_in};
ghost use Rattle.line_tables.specs.InfoEntries.{AttributeView, EntryView, attributes};
ghost use Rattle.line_tables.specs.InfoGrammar.{IsDeclared, AreAttributes};

/// The declarations of a table follow one another, and a code has the specifications of its first one; the attributes of an entry
/// follow one another, up to the end of their specifications. It does nothing.
pub fn the_attributes_are_those_declared()
    ensures declared { (table : List ℕ) (code : ℕ) (found : List ℕ) → declared_in table code ≡ Some found
        → (n : ℕ) × IsDeclared n code table found }
    ensures first { (n : ℕ) (table : List ℕ) (code : ℕ) (found : List ℕ) → IsDeclared n code table found
        → declared_in table code ≡ Some found }
    ensures attributes { (e : EntryView) (found : List AttributeView) → attributes e ≡ Some found
        → AreAttributes e.version e.specifications e.values found }
    ensures only { (e : EntryView) (found : List AttributeView) → AreAttributes e.version e.specifications e.values found
        → attributes e ≡ Some found }
{}
