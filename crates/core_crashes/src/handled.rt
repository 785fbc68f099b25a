//! The signal that was being handled when a process crashed.
ghost use Rattle.std.specs.Prelude.{◌≡◌, IfOk, map};
ghost use Rattle.std.specs.Option.{option_copied};
ghost use Rattle.case_tables.specs.Cells.{known_number, signal_text};
ghost use Rattle.frame_replies.specs.FrameValues.{frame_view, frames_view};
ghost use Rattle.thread_regs.specs.SignalNames.{numbered_name};
ghost use Rattle.core_crashes.specs.Handled as spec;

use crate::frames::first_frames;
use arrayvec::ArrayVec;
use frame_replies::{FrameAnswer, FramesAnswer};
use script_words::print_decimal;
use std::alloc::{AllocError, Global};
use thread_regs::signal_name;

// Among how many frames that of a signal is looked for.
const SIGNALS: usize = 16;

// The last signal that has a name.
const LAST_NAMED: u32 = 31;

/// The stack pointer of the first frame of a signal, among the first 16 frames, if there is one and it is known.
pub fn signal_stack(frames: &FramesAnswer<'_>) -> Option<u64>
    ensures { result ≡ spec.signal_stack (frames_view frames.now) }
{
    stack_among(first_frames(&frames.frames, SIGNALS))
}

fn stack_among(frames: &[FrameAnswer<'_>]) -> Option<u64>
    ensures { result ≡ spec.stack_among (map frame_view frames.now) }
{
    for frame in frames {
        if frame.signal {
            return frame.stack;
        }
    }
    None
}

// The number in the first four bytes of a word, unless it is 0.
pub(crate) fn number_in(word: u64) -> Option<u32>
    ensures { result ≡ spec.number_in word }
{
    let number = (word % 4_294_967_296) as u32;
    if number == 0 { None } else { Some(number) }
}

// The name of a signal, without SIG.
fn name_of(signal: u32) -> Option<&'static str>
    ensures { option_copied result ≡ numbered_name signal }
{
    if signal > LAST_NAMED {
        return None;
    }
    signal_name(signal as i32)
}

// The number of a signal without a name.
fn number_text(signal: u32) -> ArrayVec<u8, 39>
    ensures { result.items ≡ known_number signal }
{
    if signal == 0 {
        let mut text = ArrayVec::new();
        text.push(b'-');
        return text;
    }
    print_decimal(u128::from(signal))
}

// A signal as a list shows it.
pub(crate) fn signal_text(alloc: Global, signal: u32) -> Result<Vec<u8>, AllocError>
    ensures { IfOk result (λ text. text.items ≡ signal_text signal) }
{
    let Some(name) = name_of(signal) else {
        return number_text(signal).as_slice().to_vec(alloc);
    };
    let mut text = b"SIG".to_vec(alloc)?;
    text.extend_from_slice(name.as_bytes())?;
    Ok(text)
}
