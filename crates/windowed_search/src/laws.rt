// Consequences of the definitions that the contracts cite.
ghost use Rattle.std.specs.Prelude.{◌≡◌, ◌+◌, ◌-◌, ◌^◌, ◌<◌, ◌++◌, ℕ, List, drop, filter, length};
ghost use Rattle.std.specs.List.{range_with_len};
ghost use Rattle.address_space.specs.Occurrence.{occurrences, occurs, strings_of};
ghost use Rattle.address_space.specs.Source.{Space};
ghost use Rattle.windowed_search.specs.Held.{HeldBytesAreInTheFile, TheFirstDecides};
ghost use Rattle.windowed_search.specs.Places.{places, MatchesAcrossAreFound};
ghost use Rattle.windowed_search.specs.Rising.{IsRising};
ghost use Rattle.windowed_search.specs.Runs.{IsRunOf};
ghost use Rattle.windowed_search.specs.StepWords.{PlansTellTheValues};
ghost use Rattle.windowed_search.specs.TextWords.{texts_before, TextsAreWhole};

/// A search of bytes is the search of their windows: of the first window, and of the others after the last bytes of the
/// first, one fewer than the needle has. It does nothing.
pub fn windows_have_all_places()
    ensures { (needle xs ys : List ℕ) (a : ℕ) → 0 < length needle
        → places needle a (xs ++ ys) ≡ places needle a xs ++ places needle (a + (length xs - (length needle - 1))) (drop (length xs - (length needle - 1)) xs ++ ys) }
{}

/// A match that goes over the end of a window is found, whatever comes before it and behind it. It does nothing.
pub fn a_match_across_windows_is_found()
    ensures { MatchesAcrossAreFound }
{}

/// A plan gives the values of a memory, one after another, and no others: bytes
/// of other places of the image are left out. This function does nothing.
pub fn a_plan_tells_the_values()
    ensures { PlansTellTheValues }
{}

/// A text that is found is as long as can be: it ends neither with its window nor within a text. It does nothing.
pub fn texts_that_are_found_are_whole()
    ensures { TextsAreWhole }
{}

/// The addresses of a memory at which bytes occur are, among those in a row that have a value, the places in these values. It does
/// nothing.
pub fn places_are_occurrences()
    ensures { (space : Space) (needle xs : List ℕ) (a : ℕ) → IsRunOf space a xs
        → filter (occurs space needle) (range_with_len a (length xs)) ≡ places needle a xs }
{}

/// If the segments rise, the addresses at which bytes occur are in the order of the addresses, and the texts are too. This function does
/// nothing.
pub fn a_rising_memory_is_searched_by_address()
    ensures occurrences { (space : Space) (needle : List ℕ) → 0 < length needle → IsRising 0 space.segments
        → occurrences space needle ≡ filter (occurs space needle) (range_with_len 0 (2 ^ 64 - 1)) }
    ensures texts { (space : Space) (least : ℕ) → IsRising 0 space.segments → strings_of space least ≡ texts_before space least (2 ^ 64 - 1) }
{}

/// A byte that an address has in the core is in the file, within the segment that decides the address: an address that was not dumped, or that a cut
/// took away, has none there. The segment that decides is the first that covers the address, however the segments overlap. It does nothing.
pub fn a_held_byte_is_in_the_file()
    ensures held { HeldBytesAreInTheFile }
    ensures first { TheFirstDecides }
{}
