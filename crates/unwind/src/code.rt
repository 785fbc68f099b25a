// The code of a frame.
ghost use Rattle.std.specs.Prelude.{◌≡◌, find, map};
ghost use Rattle.std.specs.Option.{option_map, option_and_then};
ghost use Rattle.address_space.specs.Source as source;
ghost use Rattle.address_space.specs.SourceWords.{spot_view};
ghost use Rattle.address_space.specs.SpaceWords.{attached_view, space_of};
ghost use Rattle.unwind.specs.Code as spec;
ghost use Rattle.unwind.specs.Words.{code_view, executable_view, process_view, viewed};

use crate::executable::UnwoundExecutable;
use crate::faults::Stop;
use crate::frame::Frame;
use address_space::{Attached, FileSpot};
use seen_memory::SeenMemory;
use symbols::vaddr_of_offset;

/// A process: its memory, the executables that are attached for mapped files, those that are not, since they have another build,
/// and the address at which the program begins, if it is known.
#[derive(Clone, Copy)]
pub(crate) struct Process<'s, 'c, 'e, 'a> {
    pub(crate) memory: SeenMemory<'s, 'c>,
    pub(crate) executables: &'s [UnwoundExecutable<'e, 'a>],
    pub(crate) others: &'s [Attached<'a>],
    pub(crate) start: Option<u64>,
}

/// An address in the numbering of an executable.
#[derive(Clone, Copy)]
pub(crate) struct Code<'e, 'a> {
    pub(crate) executable: UnwoundExecutable<'e, 'a>,
    pub(crate) address: u64,
}

/// The first executable of that path.
fn named<'e, 'a>(
    executables: &[UnwoundExecutable<'e, 'a>],
    path: &[u8],
) -> Option<UnwoundExecutable<'e, 'a>>
    ensures { option_map executable_view result ≡ find (spec.has_path path.now) (map executable_view executables.now) }
{
    for executable in executables {
        if executable.path == path {
            return Some(*executable);
        }
    }
    None
}

/// Why no executable is attached for the file of that path.
fn missing(others: &[Attached<'_>], path: &[u8]) -> Stop
    ensures { result ≡ spec.missing (map attached_view others.now) path.now }
{
    for other in others {
        if other.path == path {
            return Stop::OtherBuild;
        }
    }
    Stop::NoExecutable
}

/// The address of a place in a file.
#[tactic(auto, unfolding(crate::specs::Code::code_at))]
fn code_at<'e, 'a>(
    executables: &[UnwoundExecutable<'e, 'a>],
    others: &[Attached<'_>],
    spot: FileSpot<'_>,
) -> Result<Code<'e, 'a>, Stop>
    ensures { viewed code_view result ≡ spec.code_at (map executable_view executables.now) (map attached_view others.now) (spot_view spot.entry) }
{
    let Some(executable) = named(executables, spot.name) else {
        return Err(missing(others, spot.name));
    };
    let Some(address) = vaddr_of_offset(&executable.elf, spot.offset) else {
        return Err(Stop::NoAddress);
    };
    Ok(Code {
        executable,
        address,
    })
}

/// The address that is looked up for a frame: the pc if execution was there, else the one before it.
pub(crate) fn looked_up(frame: &Frame) -> Option<u64>
    ensures { result ≡ spec.looked_up frame.now }
{
    if frame.exact {
        Some(frame.pc)
    } else {
        frame.pc.checked_sub(1)
    }
}

/// The place of a frame's code in the file that is mapped there.
fn spot_of<'c>(memory: &SeenMemory<'_, 'c>, frame: &Frame) -> Option<FileSpot<'c>>
    ensures { option_map spot_view result
        ≡ option_and_then (λ a. source.spot_of a (source.entry_at (space_of memory.now.space.now).files a)) (spec.looked_up frame.now) }
{
    let address = looked_up(frame)?;
    memory.spot(address)
}

impl<'s, 'c, 'e, 'a> Process<'s, 'c, 'e, 'a> {
    /// The code of a frame.
    #[tactic(auto, unfolding(crate::specs::Code::code_of))]
    pub(crate) fn code_of(&self, frame: &Frame) -> Result<Code<'e, 'a>, Stop>
        ensures { viewed code_view result ≡ spec.code_of (process_view self.now) frame.now }
    {
        let Some(spot) = spot_of(&self.memory, frame) else {
            return Err(Stop::NoFile);
        };
        code_at(self.executables, self.others, spot)
    }
}
