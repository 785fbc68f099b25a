// Frames, one after another.
ghost use Rattle.std.specs.Prelude.{◌≡◌, ◌≤◌, false};
ghost use Rattle.std.specs.Result.{ForOk};
ghost use Rattle.backtrace.specs.Chain as spec;
ghost use Rattle.backtrace.specs.MemoryWords.{memory_of, words_by, words_in};
ghost use Rattle.backtrace.specs.declared.frames.Frame as numbers;

use crate::words::{StackBytes, Words};
use address_space::AddressSpace;

/// The number of the last frame that is looked at.
const LAST: u64 = 1023;

/// A frame of a stack.
#[derive(Clone, Copy, Debug, PartialEq, Eq)]
pub struct Frame {
    /// Its number. Frame 0 is where execution stopped.
    pub index: u64,
    /// The pc in frame 0, else the return address into this frame.
    pub pc: u64,
    /// The frame pointer.
    pub fp: u64,
}

/// Why a chain of frames ends.
#[derive(Clone, Copy, Debug, PartialEq, Eq)]
pub enum Stop {
    /// The frame pointer is neither 0 nor above that of the frame before.
    NotRising,
    /// The frame pointer is 0.
    ZeroLink,
    /// The frame pointer is no multiple of 8.
    Misaligned,
    /// The 16 bytes below the frame pointer are not all there.
    Unreadable,
    /// The frame has number 1,023.
    Limit,
}

/// The frames of a stack, from the innermost on.
#[derive(Clone, Copy)]
pub struct Frames<'s, 'a> {
    words: Words<'s, 'a>,
    before: Option<u64>,
    next: Result<Frame, Stop>,
    ghost few: { ForOk next (λ (f : numbers.Frame). f.index ≤ 1023) },
}

/// Whether a frame pointer is neither 0 nor above that of the frame before, if there is one.
fn is_not_rising(before: Option<u64>, fp: u64) -> bool
    ensures { result ≡ spec.is_not_rising before fp }
{
    match before {
        Some(before) => fp != 0 && fp <= before,
        None => false,
    }
}

/// Whether the step after a frame, with that frame pointer before it, depends on the words below its own. If it doesn't,
/// it is the same in each memory.
#[tactic(auto, unfolding(crate::specs::Chain::link_below, crate::specs::Chain::step))]
pub fn needs_words(before: Option<u64>, frame: Frame) -> bool
    ensures { result ≡ false → (m p : spec.Memory) → spec.step m before frame ≡ spec.step p before frame }
{
    if is_not_rising(before, frame.fp) {
        return false;
    }
    frame.fp >= 16 && frame.fp % 8 == 0
}

/// The words at 8 and at 16 below a frame pointer: the return address and the caller's frame pointer.
#[tactic(auto, unfolding(crate::specs::Chain::link_below))]
fn link_below(words: &Words<'_, '_>, fp: u64) -> Option<(u64, u64)>
    ensures { result ≡ spec.link_below (words_by words.now) fp }
{
    if fp < 16 {
        return None;
    }
    let pc = words.word(fp - 8)?;
    let link = words.word(fp - 16)?;
    Some((pc, link))
}

/// The frame after one, or the first reason why there is no such frame.
#[tactic(auto, unfolding(crate::specs::Chain::step))]
fn step(words: &Words<'_, '_>, before: Option<u64>, frame: Frame) -> Result<Frame, Stop>
    requires { frame.index ≤ 1023 }
    ensures step { result ≡ spec.step (words_by words.now) before frame }
    ensures few { ForOk result (λ (f : numbers.Frame). f.index ≤ 1023) }
{
    if is_not_rising(before, frame.fp) {
        return Err(Stop::NotRising);
    }
    if frame.fp == 0 {
        return Err(Stop::ZeroLink);
    }
    if frame.fp % 8 != 0 {
        return Err(Stop::Misaligned);
    }
    let Some((pc, fp)) = link_below(words, frame.fp) else {
        return Err(Stop::Unreadable);
    };
    if frame.index == LAST {
        return Err(Stop::Limit);
    }
    Ok(Frame {
        index: frame.index + 1,
        pc,
        fp,
    })
}

impl<'s, 'a> Frames<'s, 'a> {
    ghost use Rattle.backtrace.specs.FrameWords.{frames_left, stop_left};

    /// The frames from a pc and a frame pointer on.
    pub fn new(space: &'s AddressSpace<'a>, pc: u64, fp: u64) -> Frames<'s, 'a>
        ensures frames { frames_left result ≡ spec.chain (memory_of space.now) pc fp }
        ensures stop { stop_left result ≡ spec.stop_of (memory_of space.now) pc fp }
    {
        Frames::of(Words::Space(space), pc, fp)
    }

    /// The same if these bytes of the stack are all that is known of the memory.
    pub fn in_stack(stack: StackBytes<'s>, pc: u64, fp: u64) -> Frames<'s, 'a>
        ensures frames { frames_left result ≡ spec.chain (words_in stack.entry.first stack.entry.bytes.now) pc fp }
        ensures stop { stop_left result ≡ spec.stop_of (words_in stack.entry.first stack.entry.bytes.now) pc fp }
    {
        Frames::of(Words::Stack(stack), pc, fp)
    }

    #[tactic(auto, unfolding(crate::specs::FrameWords::frames_left, crate::specs::FrameWords::stop_left, crate::specs::Chain::chain, crate::specs::Chain::stop_of))]
    fn of(words: Words<'s, 'a>, pc: u64, fp: u64) -> Frames<'s, 'a>
        ensures frames { frames_left result ≡ spec.chain (words_by words.entry) pc fp }
        ensures stop { stop_left result ≡ spec.stop_of (words_by words.entry) pc fp }
    {
        Frames {
            words,
            before: None,
            next: Ok(Frame { index: 0, pc, fp }),
        }
    }

    /// Why the frames ended, once they have. Of a frame's reasons it is the first in the order of [`Stop`].
    #[tactic(auto, using(crate::proofs::Steps::some_left), unfolding(crate::specs::FrameWords::frames_left, crate::specs::FrameWords::stop_left))]
    pub fn stop(&self) -> Option<Stop>
        ensures { result ≡ spec.told (frames_left self.now) (stop_left self.now) }
    {
        match self.next {
            Ok(_) => None,
            Err(stop) => Some(stop),
        }
    }
}

impl<'s, 'a> Iterator for Frames<'s, 'a> {
    ghost use Rattle.std.specs.Iterator.{item_count};
    ghost use Rattle.backtrace.specs.FrameWords.{GivesFrames, frames_left};

    type Item = Frame;

    ghost next_gives = { GivesFrames };

    ghost remaining = { item_count frames_left };

    fn next(&mut self) -> Option<Frame> {
        let Ok(frame) = self.next else {
            return None;
        };
        let next = step(&self.words, self.before, frame);
        self.before = Some(frame.fp);
        self.next = next;
        Some(frame)
    }
}
