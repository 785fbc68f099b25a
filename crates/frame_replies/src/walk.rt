// A walk through the frames of a thread, which stops where bytes are wanted and goes on once they are at hand.
ghost use Rattle.std.specs.Prelude.{◌≡◌};
ghost use Rattle.frame_replies.specs.declared.walk.WalkFault.TheVariants as faults;

use crate::executables::lent;
use crate::process::UnwoundProcess;
use address_space::Attached;
use image_replies::CoreImage;
use seen_memory::{Part, SeenMemory, Unread};
use std::alloc::{AllocError, Global};
use thread_regs::threads;
use unwind::{Frame, Frames, Stop, UnwoundExecutable, is_trampoline};

/// A frame that was found.
#[derive(Clone, Copy)]
pub(crate) struct WalkedFrame {
    /// The frame.
    pub(crate) frame: Frame,
    /// A signal handler returns to its code.
    pub(crate) signal: bool,
}

/// The frames of a thread, as far as they are found.
#[derive(Drop)]
pub struct Walk {
    pub(crate) frames: Vec<WalkedFrame>,
    pub(crate) left: Frames,
}

/// Why a walk stops before the last frame.
#[derive(Clone, Copy, PartialEq, Eq)]
pub enum WalkFault {
    /// A byte of the core's image is wanted and not at hand.
    Unread(Unread),
    /// There is no memory for what was found.
    OutOfMemory,
}

impl From<Unread> for WalkFault {
    ghost from_gives = { λ unread fault. fault ≡ faults.Unread unread };

    fn from(unread: Unread) -> WalkFault {
        WalkFault::Unread(unread)
    }
}

impl From<AllocError> for WalkFault {
    ghost from_gives = { λ _ fault. fault ≡ faults.OutOfMemory };

    fn from(_error: AllocError) -> WalkFault {
        WalkFault::OutOfMemory
    }
}

impl Walk {
    ghost use Rattle.std.specs.Prelude.{ℕ, List, MatchOption, None};
    ghost use Rattle.address_space.specs.SpaceWords.{core_of};
    ghost use Rattle.image_replies.specs.CoreWords.{core_bytes};
    ghost use Rattle.frame_replies.specs.Processes.{state_of};
    ghost use Rattle.frame_replies.specs.Walking.{BeginsAt, GoesOn, StepsOn, WalksOn, process_by};
    ghost use Rattle.seen_memory.specs.Seen.{IsImageBy, IsImageOf, space_by};
    ghost use Rattle.unwind.specs.Words.{process_with};

    /// The walk through the frames of a core's thread, by its number. `None` where the core has fewer threads.
    pub fn begin(alloc: Global, core: &CoreImage<'_>, thread: u64) -> Option<Walk>
        ensures { MatchOption result (state_of (core_bytes core.now) thread ≡ None) (BeginsAt (state_of (core_bytes core.now) thread)) }
    {
        let thread = threads(core.notes()).thread(thread)?;
        Some(Walk {
            frames: Vec::new(alloc),
            left: Frames::new(&thread),
        })
    }

    /// Goes on by one frame. Says why no other comes, if none does.
    fn step(
        &mut self,
        memory: SeenMemory<'_, '_>,
        executables: &[UnwoundExecutable<'_, '_>],
        others: &[Attached<'_>],
        start: Option<u64>,
    ) -> Result<Option<Stop>, WalkFault>
        ensures walks { (image : List ℕ) → IsImageOf memory.entry image → WalksOn (process_with (space_by memory.entry image) executables.now others.now start) self.old self.new }
        ensures told { StepsOn memory.entry.front.now memory.entry.size memory.entry.parts.now self.old result self.new }
    {
        let mut left = self.left;
        let frame = match left.next(memory, executables, others, start)? {
            Ok(frame) => frame,
            Err(stop) => return Ok(Some(stop)),
        };
        let signal = is_trampoline(&memory, frame.pc)?;
        let Ok(()) = self.frames.push(WalkedFrame { frame, signal }) else {
            return Err(WalkFault::OutOfMemory);
        };
        self.left = left;
        Ok(None)
    }

    /// Goes on until no other frame comes, and says why.
    fn walk(
        &mut self,
        memory: SeenMemory<'_, '_>,
        executables: &[UnwoundExecutable<'_, '_>],
        others: &[Attached<'_>],
        start: Option<u64>,
    ) -> Result<Stop, WalkFault>
        ensures walks { (image : List ℕ) → IsImageOf memory.entry image → WalksOn (process_with (space_by memory.entry image) executables.now others.now start) self.old self.new }
        ensures told { GoesOn memory.entry.front.now memory.entry.size memory.entry.parts.now result self.new }
    {
        loop {
            if let Some(stop) = self.step(memory, executables, others, start)? {
                return Ok(stop);
            }
        }
    }

    /// Goes on until no other frame comes, and says why. Of the core's image the first bytes are at hand, of which the process is, and these
    /// parts. If another byte is wanted, or there is no memory, the frames that were found stay, and the call can be made again.
    pub fn go_on(
        &mut self,
        alloc: Global,
        process: &UnwoundProcess<'_, '_, '_>,
        front: &[u8],
        size: u64,
        parts: &[Part<'_>],
    ) -> Result<Stop, WalkFault>
        requires { front.now ≡ core_of process.now.space }
        ensures walks { (image : List ℕ) → IsImageBy front.now size parts.now image → WalksOn (process_by process.now image) self.old self.new }
        ensures told { GoesOn front.now size parts.now result self.new }
    {
        let executables = lent(alloc, &process.executables.described)?;
        let memory = SeenMemory {
            space: &process.space,
            front,
            size,
            parts,
        };
        self.walk(memory, &executables, &process.others, process.start)
    }
}
