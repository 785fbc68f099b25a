// Consequences of the definitions that the contracts cite.
ghost use Rattle.std.specs.Prelude.{◌≡◌, ℕ, List, ◌∷◌, ◌++◌, codes};
ghost use Rattle.build_ids.specs.BuildName.{build_name, debug_name};
ghost use Rattle.build_ids.specs.NoteGrammar.{IsNoteRun};
ghost use Rattle.build_ids.specs.Notes.{NoteView, notes_in};
ghost use Rattle.build_ids.specs.declared.padding.Padding.{Padding};

/// The notes that are read in a segment's bytes are those that the bytes spell, one after another, up to the first place
/// that spells none, and no others. This function does nothing.
pub fn the_notes_are_the_run()
    ensures found { (p : Padding) (bytes : List ℕ) → IsNoteRun p bytes (notes_in p bytes) }
    ensures only { (p : Padding) (bytes : List ℕ) (notes : List NoteView) → IsNoteRun p bytes notes → notes_in p bytes ≡ notes }
{}

/// A name by build ID is that of one build, and either of its executable or of its debug file; and no name of an executable ends as one
/// of a debug file does. None of them begins with a slash, as the path of a mapped file does. It does nothing.
pub fn a_name_is_of_one_build()
    ensures builds { (a b : List ℕ) → build_name a ≡ build_name b → a ≡ b }
    ensures debugs { (a b : List ℕ) → debug_name a ≡ debug_name b → a ≡ b }
    ensures apart { (a b : List ℕ) → build_name a ≡ debug_name b → ⊥ }
    ensures ends { (a front : List ℕ) → build_name a ≡ front ++ codes ".debug" → ⊥ }
    ensures no_path { (a rest : List ℕ) → build_name a ≡ 47 ∷ rest → ⊥ }
    ensures no_debug_path { (a rest : List ℕ) → debug_name a ≡ 47 ∷ rest → ⊥ }
{}
