// Laws of a salvage for the crates above. These functions do nothing.
ghost use Rattle.salvage.specs.Keeping.{WhatIsSoundIsCopied, WhatOpensIsKept, WhatStandsIsKept};
ghost use Rattle.salvage.specs.Printing.{EachReadableCaseIsTold, EachSoundCaseIsWhole, NoRecordContestsWhatIsToldWhole, NoRecordDeletesWhatIsToldWhole, WhatIsToldLostIsStored, WhatIsToldWholeIsBelow, WhatIsToldWholeIsNotDeleted};

/// The cases that stand before the first bad record of the taken half are kept in the copy: under their numbers, with the same
/// facts, and with the images that their blocks hold.
pub fn what_stands_is_kept()
    ensures { WhatStandsIsKept }
{}

/// The cases of an archive that opens are kept in the copy, too. If no gate is damaged, neither of a half nor after the records,
/// the archive itself is copied, and no fault is reported.
pub fn what_opens_is_kept()
    ensures kept { WhatOpensIsKept }
    ensures sound { WhatIsSoundIsCopied }
{}

/// Each case of a Store record of a half that reads by itself has a line in the report, copied or lost, unless
/// the record lies within another or past the end of the records. If there is no fault, each case of the archive
/// is reported as whole. If there is one, no Drop record that reads so deletes a case that is reported as whole.
/// Its number is below the first one that the fault makes doubtful, and no Store record from the fault on has its
/// number, its name or a block of it. Each case that is reported as lost is stored by a record that reads so.
pub fn each_readable_case_is_told()
    ensures told { EachReadableCaseIsTold }
    ensures whole { EachSoundCaseIsWhole }
    ensures kept { WhatIsToldWholeIsNotDeleted }
    ensures undeleted { NoRecordDeletesWhatIsToldWhole }
    ensures below { WhatIsToldWholeIsBelow }
    ensures uncontested { NoRecordContestsWhatIsToldWhole }
    ensures lost { WhatIsToldLostIsStored }
{}
