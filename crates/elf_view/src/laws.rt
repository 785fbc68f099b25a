// Consequences of the definitions that the contracts cite.
ghost use Rattle.std.specs.Prelude.{◌≡◌, ◌↔◌, ◌+◌, ◌≤◌, ℕ, List, IsTrue, None, Some, length, map, slice_get, take};
ghost use Rattle.std.specs.List.{AllByRecursion, flat_map, list_all};
ghost use Rattle.std.specs.List.Sorted.{IsPermutation};
ghost use Rattle.elf_view.specs.Front.{headed};
ghost use Rattle.elf_view.specs.Header.{SegmentView, segments_of};
ghost use Rattle.elf_view.specs.NoteGrammar.{IsNoteList, segment_notes};
ghost use Rattle.elf_view.specs.NoteList.{NoteView, note_rests, notes_in};
ghost use Rattle.elf_view.specs.Sound.{AreNotesWhole, IsFirstFailing, IsHeaderWhole, IsLoadable, IsSound, Row, first_fault, header_checks, is_passed, passes, segment_checks, table_rows};
ghost use Rattle.elf_view.specs.ViewWords.{header_of, notes_of};
ghost use Rattle.elf_view.specs.declared.faults.ElfFault.{ElfFault};
ghost use Rattle.elf_view.specs.declared.faults.Want.{Want};

use crate::faults::Want;

/// The notes that a core's view gives are those of its PT_NOTE segments, one segment after another; those of a
/// segment are a note list of its bytes, and there is no other. It does nothing.
pub fn notes_are_the_grammar()
    ensures by_segment { (b : List ℕ) → notes_of Want.Core b ≡ flat_map segment_notes (segments_of b) }
    ensures found { (b : List ℕ) → IsSound Want.Core b
        → AllByRecursion (λ (s : SegmentView). s.kind ≡ 4 → IsNoteList s.bytes (notes_in s.bytes)) (segments_of b) }
    ensures only { (bytes : List ℕ) (notes : List NoteView) → IsNoteList bytes notes
        → AreNotesWhole (note_rests bytes) × (notes_in bytes ≡ notes) }
{}

/// The fault of an image is that of a row of its table, and every row before it passes; and if there is such a row, its
/// fault is the image's. This function does nothing.
pub fn the_fault_is_the_first()
    ensures row { (want : Want) (b : List ℕ) (fault : ElfFault) → first_fault want b ≡ Some fault
        → (k : ℕ) × IsFirstFailing (table_rows want b) fault k }
    ensures only { (want : Want) (b : List ℕ) (fault : ElfFault) (k : ℕ) → IsFirstFailing (table_rows want b) fault k
        → first_fault want b ≡ Some fault }
{}

/// An image is sound if and only if it has no fault, whatever the order of its table's rows. Only the choice of the fault
/// that is reported depends on the order. This function does nothing.
pub fn soundness_has_no_order()
    ensures accepted { (want : Want) (b : List ℕ) → IsSound want b ↔ (first_fault want b ≡ None) }
    ensures order { (want : Want) (b : List ℕ) (rows : List Row) → IsPermutation (table_rows want b) rows
        → IsSound want b ↔ IsTrue (list_all passes rows) }
{}

/// A core is sound if its header and its program headers pass and the
/// bytes of each PT_NOTE have a note list. This function does nothing.
pub fn note_lists_make_a_core_sound()
    ensures { (b : List ℕ) → IsTrue (list_all is_passed (header_checks Want.Core b))
        → AllByRecursion (λ (s : SegmentView). IsTrue (list_all is_passed (segment_checks Want.Core b s))) (segments_of b)
        → AllByRecursion (λ (s : SegmentView). s.kind ≡ 4 → (notes : List NoteView) × IsNoteList s.bytes notes) (segments_of b)
        → IsSound Want.Core b }
{}

/// The properties of the program headers of an accepted image. This function does nothing.
pub fn accepted_segments_fit()
    ensures loads { (want : Want) (b : List ℕ) → IsSound want b
        → AllByRecursion (λ (s : SegmentView). s.kind ≡ 1 → IsLoadable s) (segments_of b) }
    ensures notes { (b : List ℕ) → IsSound Want.Core b
        → AllByRecursion (λ (s : SegmentView). s.kind ≡ 4 → s.offset + s.filesz ≤ length b) (segments_of b) }
    ensures load_at { (want : Want) (b : List ℕ) (i : ℕ) (s : SegmentView) → IsSound want b
        → slice_get (segments_of b) i ≡ Some s → s.kind ≡ 1 → IsLoadable s }
    ensures note_at { (b : List ℕ) (i : ℕ) (s : SegmentView) → IsSound Want.Core b
        → slice_get (segments_of b) i ≡ Some s → s.kind ≡ 4 → s.offset + s.filesz ≤ length b }
{}

/// A front of an image is its first bytes. If a front is sound, the image is sound, and both have the same header, the same
/// program headers but for their bytes, and the same notes. So a reader of these needs no more of the image. It does nothing.
pub fn a_sound_front_is_enough()
    ensures header { (b : List ℕ) (n : ℕ) → IsHeaderWhole (take n b) → header_of (take n b) ≡ header_of b }
    ensures segments { (b : List ℕ) (n : ℕ) → IsHeaderWhole (take n b)
        → map headed (segments_of (take n b)) ≡ map headed (segments_of b) }
    ensures notes { (want : Want) (b : List ℕ) (n : ℕ) → IsHeaderWhole (take n b) → IsSound want (take n b)
        → notes_of want (take n b) ≡ notes_of want b }
    ensures sound { (want : Want) (b : List ℕ) (n : ℕ) → IsHeaderWhole (take n b) → IsSound want (take n b)
        → IsSound want b }
{}
