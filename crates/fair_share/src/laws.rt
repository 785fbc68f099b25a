//! Laws of the core that goes if users share an archive fairly. This function does nothing.
ghost use Rattle.fair_share.specs.Laws.{NoUserHasMore, NoProgramHasMore, TheFirstStays};

/// No other user has more blocks in unpinned cores than that of the core that goes, and no other program of that user's. The first core of a
/// program goes only if it is the only one that is not pinned.
pub fn the_heaviest_user_gives()
    ensures users { NoUserHasMore }
    ensures programs { NoProgramHasMore }
    ensures first { TheFirstStays }
{}
