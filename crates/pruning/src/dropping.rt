//! Which cases go.
ghost use Rattle.std.specs.Prelude.{◌≡◌, ◌<◌, ◌||◌, ◌++◌, ◌∷◌, [], if◌then◌else◌, IfOk, OnOk, All, map};
ghost use Rattle.std.specs.Bool.{Decides};
ghost use Rattle.std.specs.List.Sorted.{IsStrictlyIncreasing};
ghost use Rattle.pruning.specs.Cases.{number};
ghost use Rattle.pruning.specs.KeptWords.{has_id, has_name};
ghost use Rattle.pruning.specs.Pruning as spec;

use crate::cases::{LiveCase, core_briefs};
use crate::kept::Kept;
use build_ids::{a_name_is_of_one_build, id_of_name};
use retention::{Policy, decide};
use std::alloc::{AllocError, Global};

/// The cases that a prune drops.
#[derive(Drop)]
pub struct Pruning {
    /// The numbers of the cases: cores first, then executables and debug files, both rising.
    pub dropped: Vec<u32>,
    /// The policy's `keep` or `bytes` does not hold of the cores that stay, though all go that may.
    pub unmet: bool,
}

/// Decides which cases a prune drops, of all that an archive has. First cores, as the retention rule decides by this policy over the
/// cores alone: no cores, if the policy has no limit. Then each executable or debug file that is not pinned and has the name of a build,
/// if of the cores that stay none needs this build and none maps a file of that name.
///
/// # Errors
///
/// `AllocError` if there is no memory for the needs of the cores, or for the numbers.
pub fn prune(
    alloc: Global,
    cases: &[LiveCase<'_, '_>],
    policy: &Policy,
) -> Result<Pruning, AllocError>
    requires { IsStrictlyIncreasing (map number cases.now) }
    ensures { IfOk result (λ pruning. spec.IsPruning policy.now cases.now pruning.dropped.items pruning.unmet) }
{
    let briefs = core_briefs(alloc, cases)?;
    let cores = decide(alloc, &briefs, policy)?;
    let kept = Kept::of(alloc, cases, &cores.dropped)?;
    let builds = builds_that_go(alloc, &kept, cases)?;
    let mut dropped = cores.dropped;
    dropped.extend_from_slice(&builds)?;
    Ok(Pruning {
        dropped,
        unmet: cores.unmet,
    })
}

/// The numbers of the executables and debug files that go. The error is that there is no memory.
fn builds_that_go(
    alloc: Global,
    kept: &Kept<'_>,
    cases: &[LiveCase<'_, '_>],
) -> Result<Vec<u32>, AllocError>
    ensures { IfOk result (λ numbers. spec.ArePicked (spec.Goes (has_id kept.now) (has_name kept.now)) cases.now numbers.items) }
{
    let mut numbers = Vec::new(alloc);
    for case in cases {
        push_if(&mut numbers, goes(kept, case), case.brief.seq)?;
    }
    Ok(numbers)
}

/// Appends a number, if it is wanted.
fn push_if(numbers: &mut Vec<u32>, is_wanted: bool, number: u32) -> Result<(), AllocError>
    ensures { OnOk result (numbers.new.items ≡ (if is_wanted then numbers.old.items ++ number ∷ [] else numbers.old.items)) }
{
    if is_wanted {
        numbers.push(number)?;
    }
    Ok(())
}

/// Whether this is an executable or a debug file that goes.
fn goes(kept: &Kept<'_>, case: &LiveCase<'_, '_>) -> bool
    ensures { Decides result (spec.Goes (has_id kept.now) (has_name kept.now) case.now) }
{
    if case.is_core() || case.brief.pinned {
        return false;
    }
    a_name_is_of_one_build();
    match id_of_name(case.name) {
        Some(id) => !is_kept(kept, &id, case.name),
        None => false,
    }
}

/// Whether a core that stays needs that build, or maps a file of that name.
fn is_kept(kept: &Kept<'_>, id: &[u8], name: &[u8]) -> bool
    ensures kept { result ≡ (has_id kept.now id.now || has_name kept.now name.now) }
    ensures bytes { All (λ c. c < 256) id.now }
{
    kept.has_id(id) || kept.has_name(name)
}
