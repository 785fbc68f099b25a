// The frames of a thread as values. The lines of a script are printed from them, and so are the screens of a case.
ghost use Rattle.std.specs.Prelude.{◌≡◌, ℕ, List, IfOk, Some, map, take};
ghost use Rattle.address_space.specs.Source.{ExecutableView};
ghost use Rattle.address_space.specs.SpaceWords.{space_of};
ghost use Rattle.unwind.specs.Code.{looked_up as looked_up_in};
ghost use Rattle.frame_replies.specs.FrameSources.{sources_of};
ghost use Rattle.frame_replies.specs.FrameValues.{frame_view, frames_of, frames_view};
ghost use Rattle.frame_replies.specs.ProcessWords.{named_in};
ghost use Rattle.frame_replies.specs.SourceWords.{lines_view};
ghost use Rattle.frame_replies.specs.Walking.{HasFound, IsWalkOf, walked_value};

use crate::process::UnwoundProcess;
use crate::source_line::SourceLine;
use crate::walk::{Walk, WalkedFrame};
use memory_replies::{Location, function_of};
use std::alloc::{AllocError, Global};
use unwind::columns::{RA, SP};
use unwind::{Frame, Stop};

/// A frame of a thread's stack.
#[derive(Clone, Copy)]
pub struct FrameAnswer<'a> {
    /// Where execution is or was, or the address to which a call returns.
    pub pc: u64,
    /// The address that is looked up for it: its pc if execution was there, else the one before it.
    pub looked_up: Option<u64>,
    /// A signal handler returns to its code.
    pub signal: bool,
    /// The function at the address that is looked up, if it is known.
    pub function: Option<Location<'a>>,
    /// What is known of the stack pointer.
    pub stack: Option<u64>,
    /// What is known of the return address register.
    pub returns: Option<u64>,
}

/// The frames of a thread, from frame 0 on, with source lines, and why no other comes.
#[derive(Drop)]
pub struct FramesAnswer<'a> {
    /// The frames.
    pub frames: Vec<FrameAnswer<'a>>,
    /// The source lines of the first frames, as many as were asked for. `None` where a line is not known.
    pub lines: Vec<Option<SourceLine>>,
    /// Why no other comes.
    pub stop: Stop,
}

/// The address that is looked up for a frame: its pc if execution was there, else the one before it.
fn looked_up(frame: &Frame) -> Option<u64>
    ensures { result ≡ looked_up_in frame.now }
{
    if frame.exact {
        Some(frame.pc)
    } else {
        frame.pc.checked_sub(1)
    }
}

impl<'p, 'a, 'e> UnwoundProcess<'p, 'a, 'e> {
    /// A frame that a walk has found.
    pub(crate) fn frame(&self, walked: &WalkedFrame) -> FrameAnswer<'e>
        ensures { frame_view result ≡ walked_value (space_of self.now.space).files (named_in self.now.executables.now.images) walked.now }
    {
        let frame = walked.frame;
        let looked_up = looked_up(&frame);
        FrameAnswer {
            pc: frame.pc,
            looked_up,
            signal: walked.signal,
            function: function_of(&self.space, &self.executables.images, frame.pc, looked_up),
            stack: frame.register(SP),
            returns: frame.register(RA),
        }
    }

    /// The frames that a walk has found. The error is that there is no memory.
    pub(crate) fn values(
        &self,
        alloc: Global,
        found: &[WalkedFrame],
    ) -> Result<Vec<FrameAnswer<'e>>, AllocError>
        ensures { IfOk result (λ all. map frame_view all.items
            ≡ map (walked_value (space_of self.now.space).files (named_in self.now.executables.now.images)) found.now) }
    {
        let mut all = Vec::with_capacity(alloc, found.len())?;
        for walked in found {
            all.push(self.frame(walked))?;
        }
        Ok(all)
    }

    /// The frames of a thread, all of which a walk has found, and why no other comes, with the source lines of the first ones: of that many
    /// frames, or of each if there are fewer. The error is that there is no memory.
    pub fn frames(
        &self,
        alloc: Global,
        walk: &Walk,
        stop: Stop,
        lines: usize,
    ) -> Result<FramesAnswer<'e>, AllocError>
        ensures frames { IfOk result (λ a. (image : List ℕ) (executables : List ExecutableView) (thread : ℕ) → IsWalkOf image executables thread self.now walk.now → HasFound walk.now stop
            → frames_of image executables thread ≡ Some (frames_view a)) }
        ensures lines { IfOk result (λ a. (image : List ℕ) (executables : List ExecutableView) (thread : ℕ) → IsWalkOf image executables thread self.now walk.now → HasFound walk.now stop
            → lines_view a ≡ take lines (sources_of image executables thread)) }
    {
        let frames = self.values(alloc, &walk.frames)?;
        let (first, _) = frames.split_at(frames.len().min(lines));
        let lines = self.sources(alloc, first)?;
        Ok(FramesAnswer {
            frames,
            lines,
            stop,
        })
    }
}
