// Laws of the journal for the crates above.
ghost use Rattle.std.specs.Prelude.{ℕ, List};
ghost use Rattle.case_journal.specs.Keeping.{DataIsApart};
ghost use Rattle.case_journal.specs.Doubting.{SettlingIsEnough, AStopWhileSettlingIsOneBefore};

/// A change of the data blocks keeps the archive that a list of bytes encodes, and the superblock and both halves.
pub fn data_blocks_keep()
    ensures { DataIsApart }
{}

/// Once the gates that `settle` writes again are as reads give them, and nothing else is changed, the device encodes the archive that reads give:
/// no opening reads the other bytes that a life of an archive may have left in doubt. A stop on the way leaves only disks that one before could
/// have left, as long as a write of one byte leaves the old one or the new one.
pub fn settling_is_enough()
    ensures enough { SettlingIsEnough }
    ensures moments { AStopWhileSettlingIsOneBefore }
{}
