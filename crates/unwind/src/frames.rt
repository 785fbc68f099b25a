// Frames, one after another.
ghost use Rattle.std.specs.Prelude.{◌≡◌};
ghost use Rattle.seen_memory.specs.Seen.{ForEach};
ghost use Rattle.unwind.specs.Coming.{MayCome};
ghost use Rattle.unwind.specs.Unwinding as spec;
ghost use Rattle.unwind.specs.Words.{process_with};

use crate::by_call::by_call;
use crate::by_trampoline::{by_trampoline, is_trampoline};
use crate::code::Process;
use crate::executable::UnwoundExecutable;
use crate::faults::Stop;
use crate::frame::Frame;
use address_space::Attached;
use seen_memory::{SeenMemory, Unread};
use thread_regs::Thread;

/// How many frames may come after the first.
const MOST: u64 = 1023;

/// The frames of a stack that are still to come, from the innermost on.
#[derive(Clone, Copy)]
pub struct Frames {
    /// The next frame.
    next: Result<Frame, Stop>,
    /// How many more may come after it.
    more: u64,
}

impl<'s, 'c, 'e, 'a> Process<'s, 'c, 'e, 'a> {
    /// The frame after one by the rules, or why they give no frame.
    #[tactic(auto, unfolding(crate::specs::Unwinding::by_rules))]
    fn by_rules(&self, frame: &Frame) -> Result<Result<Frame, Stop>, Unread>
        ensures { ForEach self.now.memory (λ space. spec.by_rules (process_with space self.now.executables.now self.now.others.now self.now.start) frame.now) result }
    {
        if is_trampoline(&self.memory, frame.pc)? {
            return by_trampoline(&self.memory, frame);
        }
        match by_call(&self.memory, frame) {
            Some(caller) => Ok(Ok(caller)),
            None => self.by_entry(frame),
        }
    }

    /// The frame after one, or the first reason why no frame comes. So many frames may come.
    #[tactic(auto, unfolding(crate::specs::Unwinding::next))]
    fn next(&self, more: u64, frame: &Frame) -> Result<Result<Frame, Stop>, Unread>
        ensures told { ForEach self.now.memory (λ space. spec.next (process_with space self.now.executables.now self.now.others.now self.now.start) more frame.now) result }
        ensures few { MayCome more result }
    {
        match self.by_rules(frame)? {
            Ok(_) if more == 0 => Ok(Err(Stop::Limit)),
            caller => Ok(caller),
        }
    }
}

impl Frames {
    ghost use Rattle.std.specs.Prelude.{List, ℕ};
    ghost use Rattle.thread_regs.specs.ThreadWords.{thread_bytes};
    ghost use Rattle.unwind.specs.Code.{ProcessView};
    ghost use Rattle.unwind.specs.FrameWords.{ComeFewer, NextFrame, frames_left, stop_left};

    /// The frames of a thread.
    #[tactic(auto, unfolding(crate::specs::FrameWords::frames_left, crate::specs::FrameWords::stop_left, crate::specs::Unwinding::unwound, crate::specs::Unwinding::stop_of))]
    pub fn new(thread: &Thread<'_>) -> Frames
        ensures frames { (p : ProcessView) → frames_left p result ≡ spec.unwound p (thread_bytes thread.now) }
        ensures stop { (p : ProcessView) → stop_left p result ≡ spec.stop_of p (thread_bytes thread.now) }
    {
        Frames {
            next: Ok(Frame::first(thread)),
            more: MOST,
        }
    }

    /// The next frame, or why no frame comes. The executables are attached for the mapped files of their paths, of two with one path
    /// the first. The others are not, since they have another build. The program begins at `start`, if that is known. The error is a
    /// byte of the core's image that is not at hand. Then nothing has changed, and the call can be made again once it is.
    pub fn next(
        &mut self,
        memory: SeenMemory<'_, '_>,
        executables: &[UnwoundExecutable<'_, '_>],
        others: &[Attached<'_>],
        start: Option<u64>,
    ) -> Result<Result<Frame, Stop>, Unread>
        ensures gives { NextFrame memory.entry executables.now others.now start self.old result self.new }
        ensures fewer { ComeFewer self.old result self.new }
    {
        let frame = match self.next {
            Ok(frame) => frame,
            Err(stop) => return Ok(Err(stop)),
        };
        let process = Process {
            memory,
            executables,
            others,
            start,
        };
        self.next = process.next(self.more, &frame)?;
        self.more = self.more.saturating_sub(1);
        Ok(Ok(frame))
    }
}
