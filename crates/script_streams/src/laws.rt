//! Laws of several lines, and of several texts.
ghost use Rattle.std.specs.Prelude.{◌≡◌, ℕ, List, [], ◌∷◌, ◌++◌, Option, Some};
ghost use Rattle.std.specs.Io.KnownBytes.{Appends};
ghost use Rattle.script_streams.specs.Lines.{IsLine};
ghost use Rattle.script_streams.specs.Reading.{Gives, IsUsedUp, held_bytes};
ghost use Rattle.script_streams.specs.Printing.{Sink, Prints};
ghost use Rattle.script_streams.specs.declared.reader.ScriptBuffer.{ScriptBuffer};

/// The text before the first newline is one line and no other, and a line has no newline in it.
pub fn lines_are_cut_one_way()
    ensures first { (line other rest others : List ℕ) → IsLine line → IsLine other
        → line ++ 10 ∷ rest ≡ other ++ 10 ∷ others → (line ≡ other) × (rest ≡ others) }
    ensures last { (line front rest : List ℕ) → IsLine line → line ≡ front ++ 10 ∷ rest → ⊥ }
{}

/// The bytes that were given add up. From an empty buffer to the
/// end of an input all of it was given, if the input is known.
pub fn reading_adds_up()
    ensures nothing { (a : Option (List ℕ)) (buffer : ScriptBuffer) → Gives a a buffer buffer [] }
    ensures then { (a b c : Option (List ℕ)) (old mid new : ScriptBuffer) (x y : List ℕ)
        → Gives a b old mid x → Gives b c mid new y → Gives a c old new (x ++ y) }
    ensures all { (input given : List ℕ) (b : Option (List ℕ)) (old new : ScriptBuffer)
        → held_bytes old ≡ [] → Gives (Some input) b old new given → IsUsedUp b new → given ≡ input }
{}

/// The texts that were printed add up.
pub fn printing_adds_up()
    ensures nothing { (a : Sink) → Prints a a [] }
    ensures then { (a b c : Sink) (x y : List ℕ) → Prints a b x → Prints b c y → Prints a c (x ++ y) }
{}
