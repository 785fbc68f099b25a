//! The builds that cores want are found exactly, and each once.
ghost use Rattle.std.specs.Prelude.{ℕ, List, [], ◌∷◌, ◌++◌};
ghost use Rattle.address_space.specs.Source.{ExecutableView};
ghost use Rattle.build_replies.specs.Builds.{BuildValue, NamedBuild, NamedId, values_of, wants_of};
ghost use Rattle.case_info.specs.StoredBuilds.{IsStoredByBuild, WantsOthers};
ghost use Rattle.case_info.specs.Wants.{AddsExactly, KeepsWants, WantsIs, with_each};

use build_ids::a_name_is_of_one_build;

/// The IDs of the builds that a core wants are exactly those that it has for some file for which no executable is used, and that can be
/// stored by it; each is there once. With those of another core they are exactly the IDs of the two, and each is there once. The kept
/// files of a core want the same builds as the core.
pub fn what_is_wanted_is_told_once()
    ensures core { (values : List BuildValue) → WantsIs values (wants_of values) }
    ensures cores { (ws more : List NamedBuild) → AddsExactly ws more (with_each ws more) }
    ensures kept { KeepsWants }
{}

/// Once an executable is stored by its build, under a name that no case had, no file of a core wants that build, and each other build is
/// wanted as before.
pub fn wants_then_stored()
    ensures { (told : List NamedId) (stored : List ExecutableView) (id : List ℕ) (x : ExecutableView) → IsStoredByBuild stored id x
        → WantsOthers id (wants_of (values_of stored told)) (wants_of (values_of (stored ++ x ∷ []) told)) }
{
    a_name_is_of_one_build();
}
