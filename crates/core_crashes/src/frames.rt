// The words of the frames of a thread.
ghost use Rattle.std.specs.Prelude.{◌≡◌, ◌≤◌, length, map, take};
ghost use Rattle.std.specs.Option.{option_map};
ghost use Rattle.crash_signatures.specs.WordViews.{frame_said, said};
ghost use Rattle.elf_view.specs.SegmentWords.{segment_view};
ghost use Rattle.frame_replies.specs.FrameValues.{frame_view, frames_view};
ghost use Rattle.image_replies.specs.CoreWords.{core_bytes};
ghost use Rattle.core_crashes.specs.Notes.{vdso_of};
ghost use Rattle.core_crashes.specs.Walks as spec;

use crate::notes::{file_at, has_files, is_in_vdso, vdso_of};
use crash_signatures::{FrameFacts, Words, word_of};
use elf_view::Segment;
use frame_replies::{FrameAnswer, FramesAnswer};
use image_replies::CoreImage;
use memory_replies::Location;
use unwind::Stop;

// How many frames have words.
const MOST: usize = 96;

// The known facts about a frame of a core whose vdso is this segment.
pub(crate) fn frame_facts<'a>(
    core: &CoreImage<'a>,
    vdso: &Option<Segment<'_>>,
    frame: &FrameAnswer<'a>,
) -> FrameFacts<'a>
    requires { option_map segment_view vdso.now ≡ vdso_of (core_bytes core.now) }
    ensures { frame_said result ≡ spec.frame_facts (core_bytes core.now) (frame_view frame.now) }
{
    FrameFacts {
        pc: frame.pc,
        is_signal: frame.signal,
        function: name_of(frame.function),
        file: file_at(core, frame.looked_up),
        is_vdso: is_in_vdso(vdso, frame.looked_up),
        has_files: has_files(core),
    }
}

fn name_of(function: Option<Location<'_>>) -> Option<&[u8]>
    ensures { option_map (λ name. name.now) result ≡ spec.name_of function.entry }
{
    match function {
        Some(place) => Some(place.name),
        None => None,
    }
}

// The words of frames, from the innermost on; at most 96.
pub(crate) fn words_of<'a>(core: &CoreImage<'a>, frames: &FramesAnswer<'a>) -> Words
    ensures { map said result.items ≡ spec.words_of (core_bytes core.now) (frames_view frames.now) }
{
    words_in(core, first_frames(&frames.frames, MOST))
}

// The first frames, so many at most.
pub(crate) fn first_frames<'s, 'a>(
    frames: &'s [FrameAnswer<'a>],
    most: usize,
) -> &'s [FrameAnswer<'a>]
    ensures value { map frame_view result.now ≡ take most (map frame_view frames.now) }
    ensures short { length result.now ≤ most }
{
    &frames[..frames.len().min(most)]
}

// The same of frames that are not more.
fn words_in<'a>(core: &CoreImage<'a>, frames: &[FrameAnswer<'a>]) -> Words
    requires { length frames.now ≤ 96 }
    ensures { map said result.items ≡ map (spec.word_in (core_bytes core.now)) (map frame_view frames.now) }
{
    let vdso = vdso_of(core);
    let mut words = Words::new();
    for frame in frames {
        words.push(word_of(&frame_facts(core, &vdso, frame)));
    }
    words
}

// Whether frames end where the thread began, or there are as many as have words.
pub(crate) fn is_whole(frames: &FramesAnswer<'_>) -> bool
    ensures { result ≡ spec.is_whole (frames_view frames.now) }
{
    frames.frames.len() >= MOST || is_end(frames.stop)
}

fn is_end(stop: Stop) -> bool
    ensures { result ≡ spec.is_end stop }
{
    match stop {
        Stop::Outermost | Stop::ZeroPc | Stop::Limit => true,
        _ => false,
    }
}
