// Consequences of the definitions of moments and looks. These functions do nothing.
ghost use Rattle.shared_disk.specs.Statements.{ADiskAtRestIsHonest, AHalfGrowsOnly, AStillLookIsTaken, EachMomentStands, TwoReadingsAreAMoment};
ghost use Rattle.shared_disk.specs.Outcome.{WhatIsSeenIsAMoment};
ghost use Rattle.shared_disk.specs.Rising.{WhatIsWrittenRisingRises};
ghost use Rattle.shared_disk.specs.Writes.{WritesAreSteps};

/// Each moment of a disk whose archive is changed by one write after the other encodes an archive.
pub fn each_moment_is_an_archive()
    ensures { EachMomentStands }
{}

/// While a half's generation stays, its records are those that it had, and maybe more after them.
pub fn a_half_grows_only()
    ensures { AHalfGrowsOnly }
{}

/// The bytes that a look takes are encoded at a moment between its start
/// and its end. Nobody needs to wait for it, and it takes no lock.
pub fn two_readings_are_a_moment()
    ensures { TwoReadingsAreAMoment }
{}

/// A disk that nobody changes is honest, and while nobody writes a look is taken at once.
pub fn looks_at_a_disk_at_rest_are_taken()
    ensures honest { ADiskAtRestIsHonest }
    ensures taken { AStillLookIsTaken }
{}

/// Each part of a write that an append, a rewriting or a settling makes, and of one into data blocks, is a step from one moment to the next.
pub fn writes_are_steps()
    ensures { WritesAreSteps }
{}

/// The result of a look encodes the archive that the disk encoded at a moment between the look's start and its end.
pub fn what_is_seen_is_a_moment()
    ensures { WhatIsSeenIsAMoment }
{}

/// Generations rise if the lowest byte of a half's generation is only written in the half that is not taken, and there as that of
/// the next generation. Nothing is said of its other bytes, which come one by one.
pub fn what_is_written_rising_rises()
    ensures { WhatIsWrittenRisingRises }
{}
