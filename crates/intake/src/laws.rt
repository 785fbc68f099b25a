// Consequences of the definitions that the contracts cite. These functions do nothing.
ghost use Rattle.std.specs.Prelude.{◌≡◌};
ghost use Rattle.intake.specs.Durable.{durable_of, durable_part};
ghost use Rattle.intake.specs.InTurn.{ACaseIsThereBetween, ACallLeadsOn, CallsLeadOn};
ghost use Rattle.intake.specs.Lasting.{WhatStandsIsOne, NumbersAreAbove, ImagesAreWhole, LabelsAreOfVersionTwo, RunsAreTheFewest};
ghost use Rattle.intake.specs.Lasts.{FinishLasts, DeleteLasts, PinLasts, LabelLasts, UpgradeLasts, RetireLasts, RefusalsLast, AnUpgradeLeavesTheCases};
ghost use Rattle.intake.specs.Lives.{AReopeningIsAStop, KeptOverAStop, KeptOverManyStops, ACaseIsFound, NumbersStayGiven, NumbersAreGivenOnce, WhatIsClosedIsFound};
ghost use Rattle.intake.specs.Making.{CallsAreMarks, AnImageIsWhatWasTaken, AnImageIsAnsweredAsItWasTaken};
ghost use Rattle.intake.specs.Marks.{FoundAfterAStop, NothingElseIsLeft, StaysLead, FinishLeads, DeleteLeads, PinLeads, LabelLeads, UpgradeLeads, RetireLeads};
ghost use Rattle.intake.specs.OneAnswer.{BeginsOneWay, AbandonsOneWay, FinishesOneWay, DeletesOneWay, PinsOneWay, LabelsOneWay, UpgradesOneWay, RetiresOneWay, FillsOneWay};
ghost use Rattle.intake.specs.Parts.{Parts, state_of, contents_of};

use disk_model::Disk;
use journal_layout::live_cases_are_sound;
use retention::a_decision_is_one;

/// Bytes encode one archive at most: they alone determine the cases that an opening finds.
pub fn what_stands_is_one()
    ensures { WhatStandsIsOne }
{}

/// If bytes encode an archive, its next number is above the number of each case, and the numbers rise.
pub fn the_next_number_is_above()
    ensures { NumbersAreAbove }
{
    live_cases_are_sound();
}

/// If bytes encode an archive, each image has its case's length, and
/// lies in as many runs of blocks as an image of that length may.
pub fn images_are_whole()
    ensures { ImagesAreWhole }
{
    live_cases_are_sound();
}

/// If bytes encode an archive, it has version 1 or 2 of the layout, and in version 1 no case has a label.
pub fn labels_are_of_version_two()
    ensures { LabelsAreOfVersionTwo }
{}

/// A case's blocks lie in as few runs as they can: the runs that are kept have these blocks, and no list of runs that has them
/// is shorter.
pub fn runs_are_the_fewest()
    ensures { RunsAreTheFewest }
{}

/// The state and its bytes determine the part that outlives a stop:
/// the cases, each with its image, the next number and the version.
pub fn a_state_tells_what_lasts<D: Disk>()
    ensures { (a : Parts D) → durable_of D.seen a ≡ durable_part (state_of a) (contents_of D.seen a) }
{}

/// The effect of each call on the durable part of the archive, on an honest disk: a finish adds the stream's case with the bytes
/// that it took, a deletion and a retirement take cases away, a pin sets one flag and a label one label, and each leaves all other
/// cases as they are; an upgrade changes only the version; a refusal changes nothing (if the disk failed, a stop may still leave
/// the cases that the call would have left).
pub fn what_calls_leave<D: Disk>()
    ensures finish { FinishLasts D.Disk }
    ensures delete { DeleteLasts D.Disk }
    ensures pin { PinLasts D.Disk }
    ensures label { LabelLasts D.Disk }
    ensures upgrade { UpgradeLasts D.Disk }
    ensures retire { RetireLasts D.Disk }
    ensures refusals { RefusalsLast D.Disk }
{}

/// An upgrade of version 1 is safe at any moment: a crash meanwhile leaves a disk that one before could have left, or the same
/// cases and next number in version 1 or 2, each label empty.
pub fn an_upgrade_leaves_the_cases<D: Disk>()
    ensures { AnUpgradeLeavesTheCases D.Disk }
{}

/// Crash safety over a run of calls, by marks, one after each call that was answered: after a crash at any time since a
/// mark, between two disk writes or within one, an opening finds the cases of that mark, or of a later one.
pub fn found_after_a_stop<D: Disk>()
    ensures { FoundAfterAStop D.Disk }
{}

/// A crash since a moment before a run leaves only disks that it could
/// have left before the run, or the cases of one of the run's marks.
pub fn nothing_else_is_left<D: Disk>()
    ensures { NothingElseIsLeft D.Disk }
{}

/// The promise of a call leads from its mark to the next. If a call answers Disk, the cases that it would have left, which
/// the state before the call determines, are in doubt from then on; any other answer leaves nothing in doubt.
pub fn calls_lead_from_mark_to_mark<D: Disk>()
    ensures stays { StaysLead D.Disk }
    ensures finish { FinishLeads D.Disk }
    ensures delete { DeleteLeads D.Disk }
    ensures pin { PinLeads D.Disk }
    ensures label { LabelLeads D.Disk }
    ensures upgrade { UpgradeLeads D.Disk }
    ensures retire { RetireLeads D.Disk }
{}

/// Calls of an open archive, one after the other, are a run of marks, one after each call.
pub fn calls_are_marks<D: Disk>()
    ensures { CallsAreMarks D.Disk }
{}

/// A case has the facts with which its own stream began, and its image has the bytes that
/// the stream's calls took from its start to its finish, whatever other calls were made in
/// between. Answers about the image give the same bytes, whatever calls were made after.
pub fn an_image_is_what_was_taken<D: Disk>()
    ensures stored { AnImageIsWhatWasTaken D.Disk }
    ensures answered { AnImageIsAnsweredAsItWasTaken D.Disk }
{
    live_cases_are_sound();
}

/// An archive that is closed, and that no disk fault has stopped, is found again by the next opening, which only the disk and the
/// memory refuse.
pub fn what_is_closed_is_found<D: Disk>()
    ensures { WhatIsClosedIsFound D.Disk }
{}

/// A process that ends without a stop of the machine, perhaps after a disk fault, leaves nothing that a stop could not have
/// left: the next process reads one of the lists that a crash then could leave, since it makes the bytes that it builds on
/// durable first (`RawFile::write_again`). So the laws about stops hold for it too.
pub fn a_reopening_is_a_stop<D: Disk>()
    ensures { AReopeningIsAStop D.Disk }
{}

/// Crash safety over many stops and reopenings: each life of an archive begins with the cases of the last acknowledged mark of the life
/// before, or of a later mark, however many openings fail in between, and however often the machine stops within one.
pub fn kept_over_many_stops<D: Disk>()
    ensures one { KeptOverAStop D.Disk }
    ensures many { KeptOverManyStops D.Disk }
{}

/// Crash safety for one case: if it is there after a call and no later
/// call drops it, it is found after a stop, with its image byte for byte.
pub fn a_case_is_found<D: Disk>()
    ensures { ACaseIsFound D.Disk }
{}

/// The next number that is found after a stop is not below one that was reached before a disk fault, so that no number is given
/// twice.
pub fn numbers_stay_given<D: Disk>()
    ensures { NumbersStayGiven D.Disk }
{}

/// A number that a finish gave, and that was acknowledged, is below the next number that is found after a stop, over however
/// many stops: no number is given twice.
pub fn numbers_are_given_once<D: Disk>()
    ensures { NumbersAreGivenOnce D.Disk }
{}

/// Each call answers one thing and leaves one state: both are functions of the state before it, unless there is no memory or
/// the disk fails. The blocks that a stream fills are the lowest free ones, of which there is one list.
pub fn an_answer_is_one()
    ensures begin { BeginsOneWay }
    ensures abandon { AbandonsOneWay }
    ensures finish { FinishesOneWay }
    ensures delete { DeletesOneWay }
    ensures pin { PinsOneWay }
    ensures label { LabelsOneWay }
    ensures upgrade { UpgradesOneWay }
    ensures retire { RetiresOneWay }
    ensures fills { FillsOneWay }
{
    a_decision_is_one();
}

/// A case that is there at two times under one number was there at each time between, and its blocks had its image then, over any
/// number of other processes, their stops and kills: no number is given twice, and no call writes a block of a case that is there.
/// So the bytes that were read from these blocks meanwhile, with no lock, are bytes of that image.
pub fn a_case_is_there_between()
    ensures { ACaseIsThereBetween }
{}

/// The cases of an archive after a call are later than its cases before the call, and so are the cases that a call would have left
/// that a disk fault or a kill cut short: these are the times of `a_case_is_there_between`.
pub fn calls_lead_on<D: Disk>()
    ensures one { ACallLeadsOn D.Disk }
    ensures many { CallsLeadOn D.Disk }
{}
