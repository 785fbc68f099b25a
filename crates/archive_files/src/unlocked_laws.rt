// Statements that follow from the definitions in the contracts. These functions do nothing.
ghost use Rattle.archive_files.specs.Exact.{ChecksAreExact};
ghost use Rattle.archive_files.specs.Gone.{CopiesAreOfTheCase, GoneCasesAreNoticed, NoCaseIsGoneAtWill, NoCopyIsGoneAtWill};
ghost use Rattle.archive_files.specs.Lockless.{LooksHoldAnArchive};

use disk_model::Disk;
use intake::{a_case_is_there_between, the_next_number_is_above};
use shared_disk::{SharedDisk, Unlocked, what_is_seen_is_a_moment};

/// If a case is gone at the next look, the look is not answered with `Ok`: so no question is done over it. And no question is refused
/// as `Gone` while each case is there.
pub fn gone_cases_are_noticed<S: SharedDisk + Drop>()
    ensures noticed { GoneCasesAreNoticed S.SharedDisk ⟦<Unlocked<'static, S> as Disk>⟧ }
    ensures never_at_will { NoCaseIsGoneAtWill S.SharedDisk ⟦<Unlocked<'static, S> as Disk>⟧ }
{}

/// The bytes that are copied are the image of the case of the number, and of no other, whatever others do meanwhile. And no copy is refused
/// as
/// `Gone` while the case is there.
pub fn copies_are_of_the_case<S: SharedDisk + Drop>()
    ensures copied { CopiesAreOfTheCase S.SharedDisk ⟦<Unlocked<'static, S> as Disk>⟧ }
    ensures never_at_will { NoCopyIsGoneAtWill S.SharedDisk ⟦<Unlocked<'static, S> as Disk>⟧ }
{
    the_next_number_is_above();
    a_case_is_there_between();
}

/// A check of the images that is done has one line for each case that the archive had at the first look, in their order. If the case is
/// there at the next look too, the line is the finding on its image. If it is gone, the line says so.
pub fn checks_are_exact<S: SharedDisk + Drop>()
    ensures { ChecksAreExact S.SharedDisk ⟦<Unlocked<'static, S> as Disk>⟧ }
{}

/// The bytes that the looks of `look_lockless` saw, and the writes of the disk between them, are an archive
/// all the time. So the promises of the calls above hold for the bytes that are read by such looks.
pub fn looks_hold_an_archive<S: SharedDisk>()
    ensures { LooksHoldAnArchive S.SharedDisk }
{
    what_is_seen_is_a_moment();
}
