// The bytes of an image that are at hand from a place on.
ghost use Rattle.std.specs.Prelude.{◌≤◌, ◌<◌, ℕ, List, MatchOption, length};
ghost use Rattle.seen_memory.specs.Gathering.{IsThere};
ghost use Rattle.seen_memory.specs.Parts.{HasParts, IsBeside, IsOutside, IsPartOf};
ghost use Rattle.seen_memory.specs.Seen.{IsUnread};

use crate::Part;
use elf_view::part;

/// The bytes of an image that a part has from a place on, at most `most` bytes, if it has that place.
fn part_from<'p>(piece: &Part<'p>, place: u64, most: u64) -> Option<&'p [u8]>
    requires { 0 < most }
    ensures { MatchOption result (IsOutside place piece.now) (λ x. (0 < length x.now) × (length x.now ≤ most)
        × ((image : List ℕ) → IsPartOf image piece.now.at piece.now.bytes.now → IsPartOf image place x.now)) }
{
    let skipped = place.checked_sub(piece.at)?;
    let bytes = part(piece.bytes, skipped, most);
    if bytes.is_empty() {
        return None;
    }
    Some(bytes)
}

/// The bytes of an image that one of its parts has from a place on, at most `most` bytes, if one has that place.
fn parts_from<'p>(parts: &[Part<'p>], place: u64, most: u64) -> Option<&'p [u8]>
    requires { 0 < most }
    ensures { MatchOption result (IsBeside place parts.now) (λ x. (0 < length x.now) × (length x.now ≤ most)
        × ((image : List ℕ) → HasParts image parts.now → IsPartOf image place x.now)) }
{
    for part in parts {
        if let Some(bytes) = part_from(part, place, most) {
            return Some(bytes);
        }
    }
    None
}

/// The bytes of an image that its first bytes or a part have from a place on, at most `most` bytes.
pub(crate) fn bytes_at<'p>(
    front: &'p [u8],
    parts: &[Part<'p>],
    place: u64,
    most: u64,
) -> Option<&'p [u8]>
    requires { 0 < most }
    ensures { MatchOption result (IsUnread front.now parts.now place) (IsThere front.now parts.now place most) }
{
    let first = Part {
        at: 0,
        bytes: front,
    };
    match part_from(&first, place, most) {
        Some(bytes) => Some(bytes),
        None => parts_from(parts, place, most),
    }
}
