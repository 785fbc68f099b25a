// Consequences of the definitions that the contracts cite.
ghost use Rattle.std.specs.Prelude.{◌≡◌, ◌≢◌, ◌↔◌, ℕ, List, None};
ghost use Rattle.elf_view.specs.NoteList.{NoteView};
ghost use Rattle.core_notes.specs.Descriptor.{i32_field, si_code, si_errno};
ghost use Rattle.core_notes.specs.Typed.{AreTypedWhole, core_fault};

/// The typed notes of a core have a fault, which `CoreNotes::of` then answers, if and only if a NT_PRSTATUS has one or
/// the first note of another type has. This function does nothing.
pub fn the_typed_notes_are_whole()
    ensures { (notes : List NoteView) → (core_fault notes ≡ None) ↔ AreTypedWhole notes }
{}

/// The errno of a NT_SIGINFO is its word at 4 and the code that at 8: where the two words differ, the order of
/// NT_PRSTATUS, which has the code first, gives neither. This function does nothing.
pub fn the_errno_is_before_the_code()
    ensures errno { (desc : List ℕ) → i32_field desc 4 ≢ i32_field desc 8 → si_errno desc ≢ i32_field desc 8 }
    ensures code { (desc : List ℕ) → i32_field desc 4 ≢ i32_field desc 8 → si_code desc ≢ i32_field desc 4 }
{}
