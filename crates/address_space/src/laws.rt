// Consequences of the definitions that the contracts cite.
ghost use Rattle.std.specs.Prelude.{◌≡◌, ◌+◌, ◌-◌, ◌^◌, ◌<◌, ◌≤◌, ◌↔◌, ℕ, Bool, List, length, slice_index, true};
ghost use Rattle.elf_view.specs.Header.{segment_from};
ghost use Rattle.address_space.specs.Source.{Space};
ghost use Rattle.address_space.specs.Pieces.{stretches};
ghost use Rattle.address_space.specs.Occurrence.{begins_text, text_len};
ghost use Rattle.address_space.specs.Coverage.{IsPartition, IsText};

/// The parts of a range are its addresses in rising order, each as
/// long as neighbours are the same. This function does nothing.
pub fn stretches_are_the_range()
    ensures { (same : ℕ → ℕ → Bool) (a n : ℕ) → IsPartition same a n (stretches same a n) }
{}

/// A text has the greatest length that is possible from its start. This function does nothing.
pub fn texts_are_maximal()
    ensures { (space : Space) (a : ℕ) → a < 2 ^ 64 → begins_text space a ≡ true
        → IsText space a (text_len space a (2 ^ 64 - a)) }
{}

/// The bytes that a segment has in a core are those of its file range, and they end at the image's end: an address is cut
/// if and only if p_offset and its distance from p_vaddr lead past the image. This function does nothing.
pub fn cut_is_past_the_image()
    ensures cut { (b : List ℕ) (p k : ℕ) → k < (segment_from b p).filesz
        → ((length (segment_from b p).bytes ≤ k) ↔ (length b ≤ (segment_from b p).offset + k)) }
    ensures byte { (b : List ℕ) (p k : ℕ) → k < (segment_from b p).filesz
        → slice_index (segment_from b p).bytes k ≡ slice_index b ((segment_from b p).offset + k) }
{}
