// Consequences of the definitions that the contracts cite. These functions do nothing.
ghost use Rattle.journal_layout.specs.Grammar.{RecordsAreReadAgain, WhatIsReadStands, RecordsAreApart, OpeningsHaveOneAnswer, WhatStandsOpens, WhatStandsIsLive, WhatStandsIsLabelled, VersionOneHasNoLabels, SnapshotsSayAll, TheOtherHalfIsApart, AnOpenedHalfStands, AnUpgradeSaysTheSame, LabelsTakeTheirRecords, DropsFit};

/// A record that is written is read back: if the spelling of a sound record is followed by room for a gate, no check of
/// an opening fails, at any place of any archive, and the fields that an opening reads are those of the record.
pub fn records_are_read_again()
    ensures { RecordsAreReadAgain }
{}

/// Bytes that are read were written as that record: if no check of an opening fails, the bytes are the spelling of the
/// record that the fields give, the record is sound, and it has the length in its length field.
pub fn what_is_read_is_a_record()
    ensures { WhatIsReadStands }
{}

/// The same bytes begin with one record at most: no record's spelling begins another's.
pub fn no_record_begins_another()
    ensures { RecordsAreApart }
{}

/// An opening has one answer: bytes encode one archive at most, are refused for one fault at most, and never both.
pub fn an_opening_has_one_answer()
    ensures one { OpeningsHaveOneAnswer }
    ensures stands { WhatStandsOpens }
{}

/// The cases of an archive go together: their numbers rise, from 1 at least, and are below the next one, no block is in two
/// of them or twice in one, all blocks are data blocks and as many as the bytes need, and no two have one name.
pub fn live_cases_are_sound()
    ensures { WhatStandsIsLive }
{}

/// Version 2 of the layout keeps labels, and no other: in an archive of version 1 no case has one.
pub fn labels_are_of_version_two()
    ensures labelled { WhatStandsIsLabelled }
    ensures none { VersionOneHasNoLabels }
{}

/// A snapshot is complete: its records are one Store record for each live case in the order of their numbers, followed by
/// its Label record if it has a label, and then one Next record. They are sound one after the other from the first of a
/// half on, and give exactly these cases and this next number.
pub fn a_snapshot_says_all()
    ensures { SnapshotsSayAll }
{}

/// The half that is not taken is independent: while its gate is not open, the disk encodes the same archive, whatever is
/// written there. Once that gate is opened over a header of the next generation and a snapshot, with a gate after it that
/// is not open, the disk encodes the content of the snapshot, with that half taken.
pub fn the_other_half_is_apart()
    ensures closed { TheOtherHalfIsApart }
    ensures opened { AnOpenedHalfStands }
{}

/// An upgrade keeps the content: an archive in version 1 is written anew in version 2 into the half that is not taken.
/// Once that half's gate is opened, the bytes encode the same cases and the same next number, and no case has a label.
pub fn an_upgrade_says_the_same()
    ensures { AnUpgradeSaysTheSame }
{}

/// A label costs a snapshot its record: once a case's label has changed, a snapshot is longer by the record of the new one,
/// and shorter by that of the old one. An empty label has no record there.
pub fn labels_take_their_records()
    ensures { LabelsTakeTheirRecords }
{}

/// The snapshot of the cases that stay after a Drop record that
/// may follow fits into a half: a drop is never short of bytes.
pub fn what_a_drop_leaves_fits()
    ensures { DropsFit }
{}
