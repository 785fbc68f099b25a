//! Laws of each prune. These functions do nothing.
ghost use Rattle.pruning.specs.PruningLaws.{CoresThatGoNeedNoFiles, PruneChangesNoAnswer, PruneIsDone, PrunesExactly, Spares};

use build_ids::a_name_is_of_one_build;
use retention::{a_decision_is_one, what_goes_and_what_stays};

/// A prune's numbers are one list, and no number is in it twice. Of the cores those go that the retention rule drops; of the executables
/// and debug files those that are not pinned and have the name of a build, of which no core that stays needs the build or has the name.
pub fn prunes_exactly()
    ensures { PrunesExactly }
{
    a_decision_is_one();
}

/// No case goes that is pinned, and none that is neither a core nor has the name of a build. Without a limit no core goes.
pub fn spares()
    ensures { Spares }
{
    a_decision_is_one();
}

/// A second prune by the same policy drops nothing.
pub fn prune_is_done()
    ensures { PruneIsDone }
{
    what_goes_and_what_stays();
}

/// For each core that stays, the names of its files and of the builds that it needs find the same executables and debug files after a
/// prune as before.
pub fn prune_changes_no_answer()
    ensures { PruneChangesNoAnswer }
{
    a_name_is_of_one_build();
}

/// The files that dropped cores map do not count: the prune is the same whatever files these cores map.
pub fn cores_that_go_need_no_files()
    ensures { CoresThatGoNeedNoFiles }
{}
