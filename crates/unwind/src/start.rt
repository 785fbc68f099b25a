// The start of the program.
ghost use Rattle.std.specs.Prelude.{◌≡◌};
ghost use Rattle.call_frames.specs.Covering.{covers};
ghost use Rattle.call_frames.specs.EntryWords.{entry_view};
ghost use Rattle.unwind.specs.Start as spec;

use crate::code::looked_up;
use crate::frame::Frame;
use call_frames::Entry;

/// Whether an entry covers an address of its file's own.
fn covers(entry: &Entry<'_>, address: u64) -> bool
    ensures { result ≡ covers address (entry_view entry.now) }
{
    entry.begin <= address && address - entry.begin < entry.range
}

/// Whether the program begins in the code of an entry, which covers the file's own address that is looked up for a frame.
#[tactic(auto, unfolding(crate::specs::Start::holds_start))]
pub(crate) fn holds_start(
    start: Option<u64>,
    frame: &Frame,
    address: u64,
    entry: &Entry<'_>,
) -> bool
    ensures { result ≡ spec.holds_start start frame.now address (entry_view entry.now) }
{
    let Some(start) = start else {
        return false;
    };
    let Some(at) = looked_up(frame) else {
        return false;
    };
    covers(entry, address.wrapping_add(start.wrapping_sub(at)))
}
