// The process of a core, as its frames are unwound.
ghost use Rattle.std.specs.Prelude.{◌≡◌, IfOk, map};
ghost use Rattle.core_notes.specs.DescriptorWords.{pairs_left};
ghost use Rattle.image_replies.specs.CoreWords.{core_bytes};
ghost use Rattle.build_replies.specs.Choosing.{choice_for};
ghost use Rattle.build_replies.specs.ChoosingWords.{choice_view};
ghost use Rattle.memory_replies.specs.Memory.{attached_view};
ghost use Rattle.frame_replies.specs.Processes as spec;

use crate::described::Described;
use crate::executables::all_described;
use address_space::{AddressSpace, Attached};
use build_replies::{ChosenExecutables, listed, told_ids};
use core_notes::AuxvPairs;
use image_replies::CoreImage;
use memory_replies::{NamedExecutable, named_executables, space_with};
use std::alloc::{AllocError, Global};

/// AT_ENTRY: the address where the program begins.
const AT_ENTRY: u64 = 9;

/// Where the program begins, by pairs of an auxiliary vector.
fn start_among(pairs: AuxvPairs<'_>) -> Option<u64>
    ensures { result ≡ spec.start_among (pairs_left pairs.entry) }
{
    let mut rest = pairs;
    while let Some(pair) = rest.next() {
        if pair.kind == AT_ENTRY {
            return Some(pair.value);
        }
    }
    None
}

/// Where the program of a core begins, if its auxiliary vector tells it.
fn start_of(core: &CoreImage<'_>) -> Option<u64>
    ensures { result ≡ spec.start_of (core_bytes core.now) }
{
    let vector = core.notes().auxv()?;
    start_among(vector.pairs())
}

/// Executables that are used for mapped files, with their call frame information and their symbols and those of their debug files. They
/// serve each core for whose mapped files the same ones are chosen.
#[derive(Drop)]
pub struct UnwoundExecutables<'e> {
    pub(crate) images: Vec<NamedExecutable<'e>>,
    pub(crate) described: Vec<Described<'e>>,
}

impl<'e> UnwoundExecutables<'e> {
    ghost use Rattle.frame_replies.specs.Walking.{AreExecutablesOf};

    /// Those that are chosen. The error is that there is no memory.
    pub fn of(
        alloc: Global,
        chosen: &ChosenExecutables<'e>,
    ) -> Result<UnwoundExecutables<'e>, AllocError>
        ensures { IfOk result (AreExecutablesOf (choice_view chosen.now)) }
    {
        let images = named_executables(alloc, &chosen.used, &chosen.debugs)?;
        let described = all_described(alloc, &chosen.used, &chosen.debugs)?;
        Ok(UnwoundExecutables { images, described })
    }
}

/// The process of a core: its memory, the executables that are attached, those that are not, since they are of another build, and where the
/// program begins.
#[derive(Drop)]
pub struct UnwoundProcess<'p, 'a, 'e> {
    pub(crate) space: AddressSpace<'a>,
    pub(crate) executables: &'p UnwoundExecutables<'e>,
    pub(crate) others: Vec<Attached<'a>>,
    pub(crate) start: Option<u64>,
}

impl<'p, 'a, 'e> UnwoundProcess<'p, 'a, 'e> {
    ghost use Rattle.frame_replies.specs.Walking.{AreExecutablesOf, IsProcessOf};

    /// The process of a core, for whose mapped files these executables are chosen. The core may be the first bytes alone of an image. The
    /// error is that there is no memory.
    pub fn of(
        alloc: Global,
        core: &CoreImage<'a>,
        chosen: ChosenExecutables<'a>,
        executables: &'p UnwoundExecutables<'e>,
    ) -> Result<UnwoundProcess<'p, 'a, 'e>, AllocError>
        requires { AreExecutablesOf (choice_view chosen) executables.now }
        ensures { IfOk result (IsProcessOf (core_bytes core.now) (choice_view chosen.entry)) }
    {
        let space = space_with(alloc, core, &chosen.used)?;
        Ok(UnwoundProcess {
            space,
            executables,
            others: chosen.others,
            start: start_of(core),
        })
    }
}

/// What is chosen for a core of which all bytes are at hand, for whose mapped files these executables are stored. The error is that there is
/// no memory.
pub(crate) fn chosen_for<'a>(
    alloc: Global,
    core: &CoreImage<'a>,
    stored: &[Attached<'a>],
) -> Result<ChosenExecutables<'a>, AllocError>
    ensures { IfOk result (λ chosen. choice_view chosen ≡ choice_for (core_bytes core.now) (map attached_view stored.now)) }
{
    let files = told_ids(alloc, core)?;
    Ok(ChosenExecutables::of(alloc, listed(&files), stored)?)
}
