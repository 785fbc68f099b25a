// Parts of an image.
ghost use Rattle.std.specs.Prelude.{◌≡◌, ℕ, List, MatchOption, slice_index};
ghost use Rattle.seen_memory.specs.Parts.{HasParts, IsBeside, IsOutside, IsPartOf};

/// Bytes of an image in a row.
#[derive(Clone, Copy)]
pub struct Part<'p> {
    /// The place of the first.
    pub at: u64,
    /// The bytes.
    pub bytes: &'p [u8],
}

impl<'p> Part<'p> {
    /// The byte of the image at a place, if the part has it.
    pub(crate) fn byte(&self, place: u64) -> Option<u8>
        ensures { MatchOption result (IsOutside place self.now)
            (λ x. (image : List ℕ) → IsPartOf image self.now.at self.now.bytes.now → x ≡ slice_index image place) }
    {
        let skipped = place.checked_sub(self.at)?;
        self.bytes.get(skipped as usize).copied()
    }
}

/// The byte of an image at a place, if one of its parts has it.
pub(crate) fn byte_of_parts(parts: &[Part<'_>], place: u64) -> Option<u8>
    ensures { MatchOption result (IsBeside place parts.now)
        (λ x. (image : List ℕ) → HasParts image parts.now → x ≡ slice_index image place) }
{
    for part in parts {
        if let Some(byte) = part.byte(place) {
            return Some(byte);
        }
    }
    None
}
