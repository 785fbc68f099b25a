// Bytes of an image in a row, from those that are at hand.
ghost use Rattle.std.specs.Prelude.{◌≡◌, ◌+◌, ◌^◌, ◌<◌, ◌≤◌, length};
ghost use Rattle.seen_memory.specs.declared.gathered.GatherFault.TheVariants as faults;
ghost use Rattle.seen_memory.specs.Gathering.{AddsBytes, GathersBytes};

use crate::at_hand::bytes_at;
use crate::{Part, Unread};
use std::alloc::AllocError;

/// Why bytes of an image are not gathered.
#[derive(Clone, Copy, PartialEq, Eq)]
pub enum GatherFault {
    /// One of them is not at hand.
    Unread(Unread),
    /// There is no memory for them.
    OutOfMemory,
}

impl From<AllocError> for GatherFault {
    ghost from_gives = { λ _ fault. fault ≡ faults.OutOfMemory };

    fn from(_error: AllocError) -> GatherFault {
        GatherFault::OutOfMemory
    }
}

/// Puts the next of these bytes after those that are gathered.
fn add_bytes(
    front: &[u8],
    parts: &[Part<'_>],
    start: u64,
    count: u64,
    bytes: &mut Vec<u8>,
) -> Result<(), GatherFault>
    requires fits { start + count < 2 ^ 64 }
    requires more { length bytes.old.items < count }
    ensures { AddsBytes front.now parts.now start count bytes.old.items result bytes.new.items }
{
    let gathered = bytes.len() as u64;
    let place = start + gathered;
    let Some(more) = bytes_at(front, parts, place, count - gathered) else {
        return Err(GatherFault::Unread(Unread { place }));
    };
    bytes.extend_from_slice(more)?;
    Ok(())
}

/// Gathers `count` bytes of an image from place `start` on, of which these are the first. Of the image the first bytes are at hand,
/// and these parts. If another byte is wanted, the gathered bytes stay, and the call can be made again.
pub fn gather(
    front: &[u8],
    parts: &[Part<'_>],
    start: u64,
    count: u64,
    bytes: &mut Vec<u8>,
) -> Result<(), GatherFault>
    requires fits { start + count < 2 ^ 64 }
    requires few { length bytes.old.items ≤ count }
    ensures { GathersBytes front.now parts.now start count bytes.old.items result bytes.new.items }
{
    while (bytes.len() as u64) < count {
        add_bytes(front, parts, start, count, bytes)?;
    }
    Ok(())
}
