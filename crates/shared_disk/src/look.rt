// A look at a journal that others change.
ghost use Rattle.std.specs.Prelude.{◌≡◌, ◌+◌, ◌<◌, ℕ, length, IsTrue, IfOk, IfSome};
ghost use Rattle.journal_layout.specs.Layout.{data_start, disk_length, half_start, IsWithinLimits};
ghost use Rattle.shared_disk.specs.Heads.{HasHeads};
ghost use Rattle.shared_disk.specs.JournalLooks.{IsChain};
ghost use Rattle.shared_disk.specs.Outcome.{IsSeen};
ghost use Rattle.shared_disk.specs.Watching.{Runs};

use crate::chain::{Chain, WatchFault, is_chain, read_chain};
use crate::heads::{Heads, has_heads, read_heads, read_heads_again};
use crate::reads::read_front;
use crate::watched::WatchedDisk;
use journal_layout::{BLOCK, Half, Shape};
use std::alloc::Global;

/// The result of a look: the superblock and both halves, and the
/// half that it took. Of the other half it has only the header.
#[derive(Drop)]
pub struct Seen {
    pub front: Vec<u8>,
    pub half: Half,
}

// Whether all readings are the same, and the records a chain.
fn agree(
    front: &[u8],
    shape: Shape,
    half: Half,
    chain: &Chain,
    heads: &Heads,
    again: &Heads,
) -> bool
    requires limits { IsWithinLimits shape }
    requires front { length front.now ≡ data_start shape }
    requires behind { chain.now.behind < length front.now }
    ensures first { IsTrue result → HasHeads front.now shape heads.now }
    ensures second { IsTrue result → HasHeads front.now shape again.now }
    ensures chain { IsTrue result → IsChain front.now (half_start shape half + 32) chain.now.places.items chain.now.behind }
{
    has_heads(front, shape, heads)
        && has_heads(front, shape, again)
        && is_chain(front, shape.half_start(half) + 32, chain)
}

/// Looks at the journal of a disk of this shape, without a lock. `None`: others changed it meanwhile, so look again.
///
/// # Errors
///
/// `Read` if the disk failed, and `OutOfMemory`.
pub fn look_once<D: WatchedDisk>(
    alloc: Global,
    disk: &mut D,
    shape: Shape,
) -> Result<Option<Seen>, WatchFault>
    requires limits { IsWithinLimits shape }
    requires size { D.size disk.old ≡ disk_length shape }
    ensures seen { IfOk result (λ o. IfSome o (λ s. IsTrue (D.is_honest disk.old)
        → IsSeen (D.moments disk.old) (D.reached disk.old) (D.reached disk.new) shape s.half s.front.items)) }
    ensures long { IfOk result (λ o. IfSome o (λ s. length s.front.items ≡ data_start shape)) }
    ensures runs { Runs D.WatchedDisk disk.old disk.new }
{
    let Ok(heads) = read_heads(disk, shape) else {
        return Err(WatchFault::Read);
    };
    let Some(half) = heads.taken() else {
        return Ok(None);
    };
    let start = shape.half_start(half);
    let Some(chain) = read_chain(alloc, disk, start + 32, start + shape.half_length())? else {
        return Ok(None);
    };
    let size = BLOCK as usize * (1 + 2 * shape.half_blocks as usize);
    let Ok(mut front) = vec![in alloc; 0u8; size] else {
        return Err(WatchFault::OutOfMemory);
    };
    let Ok(()) = read_front(disk, shape, half, chain.behind, &mut front) else {
        return Err(WatchFault::Read);
    };
    let Ok(again) = read_heads_again(disk, shape) else {
        return Err(WatchFault::Read);
    };
    if !agree(&front, shape, half, &chain, &heads, &again) {
        return Ok(None);
    }
    Ok(Some(Seen { front, half }))
}
