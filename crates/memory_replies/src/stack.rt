// The part of a core's image that the frames of a thread need.
ghost use Rattle.std.specs.Prelude.{◌≡◌, ◌≤◌, ◌-◌, ℕ, List, None, true};
ghost use Rattle.elf_view.specs.Header.{segments_of};
ghost use Rattle.address_space.specs.Source.{Space};
ghost use Rattle.address_space.specs.Whole.{IsFrontOf};
ghost use Rattle.backtrace.specs.Agreeing.{AgreeAt};
ghost use Rattle.backtrace.specs.Chain.{chain, link_below, step};
ghost use Rattle.backtrace.specs.MemoryWords.{words_in};
ghost use Rattle.image_replies.specs.CoreWords.{core_bytes};
ghost use Rattle.memory_replies.specs.Backtrace.{words_of};
ghost use Rattle.memory_replies.specs.Stack.{AreStackOf, HasFrames};
ghost use Rattle.memory_replies.specs.Window.{IsPartOf};

use crate::window::Window;
use address_space::{ImageRange, dumped_range, has_no_value};
use backtrace::{Frame, Frames, StackBytes, needs_words};
use image_replies::CoreImage;
use thread_regs::{Reg, threads};

// How many bytes of a stack are read at most.
const MOST_READ: u64 = 1_048_576;

const NOWHERE: ImageRange = ImageRange { start: 0, past: 0 };

/// The places of an image of `size` bytes that have a thread's stack, from 16 below its frame pointer on: at most 1,048,576, and
/// no places if the thread does not exist or its stack is not in the image. The core is that image, or its first bytes.
pub fn stack_range(core: &CoreImage<'_>, size: u64, thread: u64) -> ImageRange
    ensures within { (result.start ≤ result.past) × (result.past ≤ size) }
    ensures few { result.past - result.start ≤ 1048576 }
{
    let Some(thread) = threads(core.notes()).thread(thread) else {
        return NOWHERE;
    };
    let fp = thread.register(Reg::of_word(8));
    match dumped_range(&core.elf(), size, fp.saturating_sub(16), MOST_READ) {
        Some(range) => range,
        None => NOWHERE,
    }
}

/// Whether the window has the values of addresses in a row, from `first` on, whatever executables are attached.
fn is_stack(core: &CoreImage<'_>, window: Window<'_>, first: u64) -> bool
    ensures { result ≡ true → (image : List ℕ) → IsFrontOf (core_bytes core.now) window.entry.size image → IsPartOf image window.entry.at window.entry.bytes.now
        → (space : Space) → space.segments ≡ segments_of image → AreStackOf space first window.entry.bytes.now }
{
    let count = window.bytes.len() as u64;
    if count == 0 {
        return true;
    }
    match dumped_range(&core.elf(), window.size, first, count) {
        Some(range) => range.start == window.at && range.past - range.start == count,
        None => false,
    }
}

/// Whether the words below a frame pointer are the same in the stack as in the core's memory.
fn is_link_known(core: &CoreImage<'_>, size: u64, stack: StackBytes<'_>, fp: u64) -> bool
    ensures { result ≡ true → (image : List ℕ) → IsFrontOf (core_bytes core.now) size image → (space : Space) → space.segments ≡ segments_of image
        → AreStackOf space stack.entry.first stack.entry.bytes.now
        → link_below (words_of space) fp ≡ link_below (words_in stack.entry.first stack.entry.bytes.now) fp }
{
    if fp < 16 {
        return true;
    }
    let has_pc = stack.word(fp - 8).is_some();
    let has_link = stack.word(fp - 16).is_some();
    if has_pc && has_link {
        return true;
    }
    if has_no_value(&core.elf(), size, fp - 8) {
        return true;
    }
    has_no_value(&core.elf(), size, fp - 16)
}

/// Whether the stack determines the step after a frame, with that frame pointer before it.
fn is_settled(
    core: &CoreImage<'_>,
    size: u64,
    stack: StackBytes<'_>,
    before: Option<u64>,
    frame: Frame,
) -> bool
    ensures { result ≡ true → (image : List ℕ) → IsFrontOf (core_bytes core.now) size image → (space : Space) → space.segments ≡ segments_of image
        → AreStackOf space stack.entry.first stack.entry.bytes.now
        → step (words_of space) before frame ≡ step (words_in stack.entry.first stack.entry.bytes.now) before frame }
{
    if !needs_words(before, frame) {
        return true;
    }
    is_link_known(core, size, stack, frame.fp)
}

/// Whether the stack determines the step after each frame from a pc and a frame pointer on.
fn are_settled(core: &CoreImage<'_>, size: u64, stack: StackBytes<'_>, pc: u64, fp: u64) -> bool
    ensures { result ≡ true → (image : List ℕ) → IsFrontOf (core_bytes core.now) size image → (space : Space) → space.segments ≡ segments_of image
        → AreStackOf space stack.entry.first stack.entry.bytes.now
        → AgreeAt (words_of space) (words_in stack.entry.first stack.entry.bytes.now) None (chain (words_in stack.entry.first stack.entry.bytes.now) pc fp) }
{
    let mut frames = Frames::in_stack(stack, pc, fp);
    let mut before = None;
    while let Some(frame) = frames.next() {
        if !is_settled(core, size, stack, before, frame) {
            return false;
        }
        before = Some(frame.fp);
    }
    true
}

/// Whether the frames of a thread are known by the window: by the first bytes of an image and those of its stack, from 16 below the
/// thread's frame pointer on.
pub fn has_frames(core: &CoreImage<'_>, window: Window<'_>, thread: u64) -> bool
    ensures { result ≡ true → (image : List ℕ) → IsFrontOf (core_bytes core.now) window.entry.size image → IsPartOf image window.entry.at window.entry.bytes.now
        → HasFrames (core_bytes core.now) window.entry.size window.entry.bytes.now thread image }
{
    let Some(thread) = threads(core.notes()).thread(thread) else {
        return true;
    };
    let pc = thread.register(Reg::of_word(0));
    let fp = thread.register(Reg::of_word(8));
    let stack = StackBytes {
        first: fp.saturating_sub(16),
        bytes: window.bytes,
    };
    if !is_stack(core, window, stack.first) {
        return false;
    }
    are_settled(core, window.size, stack, pc, fp)
}
