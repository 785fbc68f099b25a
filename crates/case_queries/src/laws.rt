// Laws of the definitions that the contracts cite.
ghost use Rattle.case_queries.specs.Stored.{AnswersAreOfTheCase, WhatIsStoredHasOneAnswer};

use disk_model::Disk;

/// On an honest disk a line that may ask a case is answered from the bytes that the case's image has, each at its place, and from
/// the executables as they are stored; or the reply is `no OutOfMemory` or `no Disk`. And the stored bytes have one such answer.
/// This function does nothing.
pub fn answers_are_of_the_case<D: Disk>()
    ensures answered { AnswersAreOfTheCase D.Disk }
    ensures one { WhatIsStoredHasOneAnswer D.Disk }
{}
