// The gates of a half's records, read one after the other, and the same in the bytes that were read of the half.
ghost use Rattle.std.specs.Prelude.{◌≡◌, ◌+◌, ◌^◌, ◌<◌, ◌≤◌, ℕ, length, slice_index, IsTrue, OnOk, IfOk, IfSome};
ghost use Rattle.journal_layout.specs.Layout.{field};
ghost use Rattle.shared_disk.specs.JournalLooks.{OpensInTurn, IsChain};
ghost use Rattle.shared_disk.specs.Watching.{HasOpened, Runs};

use crate::watched::WatchedDisk;
use byteorder::{ByteOrder, LittleEndian};
use disk_model::DiskFault;
use journal_records::GATE_OPEN;
use std::alloc::Global;
use thiserror::Error;

/// Why a look failed.
#[derive(Clone, Copy, Debug, PartialEq, Eq, Error)]
pub enum WatchFault {
    /// The disk could not be read.
    #[error("the disk could not be read")]
    Read,
    /// There is no memory for the bytes that are seen of it.
    #[error("out of memory")]
    OutOfMemory,
}

/// The places of gates that were open, and of the one behind them, which was not.
#[derive(Drop)]
pub(crate) struct Chain {
    pub(crate) places: Vec<u64>,
    pub(crate) behind: u64,
}

// Reads the first bytes of a record: its gate, and how long it says it is.
fn read_head<D: WatchedDisk>(disk: &mut D, at: u64) -> Result<(bool, u64), DiskFault>
    requires { at + 8 ≤ D.size disk.old }
    ensures opened { IfOk result (λ r. IsTrue (D.is_honest disk.old) → IsTrue r.0 → HasOpened D.WatchedDisk disk.old disk.new at) }
    ensures small { IfOk result (λ r. r.1 < 2 ^ 32) }
    ensures runs { Runs D.WatchedDisk disk.old disk.new }
{
    let mut head = [0; 8];
    disk.read_at(at, &mut head)?;
    Ok((
        head[0] == GATE_OPEN,
        u64::from(LittleEndian::read_u32(&head[4..])),
    ))
}

/// Reads the gates of records from place `first` on, in their order and each by a read of its own, up to one that is not open.
/// If the lengths lead out of the half, which ends at `end`, others write there: then it is no chain.
pub(crate) fn read_chain<D: WatchedDisk>(
    alloc: Global,
    disk: &mut D,
    first: u64,
    end: u64,
) -> Result<Option<Chain>, WatchFault>
    requires within { end ≤ D.size disk.old }
    requires places { end ≤ 2 ^ 63 }
    ensures opened { IfOk result (λ o. IfSome o (λ chain. IsTrue (D.is_honest disk.old)
        → OpensInTurn (D.moments disk.old) (D.reached disk.old) (D.reached disk.new) chain.places.items)) }
    ensures from { IfOk result (λ o. IfSome o (λ chain. first ≤ chain.behind)) }
    ensures within { IfOk result (λ o. IfSome o (λ chain. chain.behind < end)) }
    ensures runs { Runs D.WatchedDisk disk.old disk.new }
{
    let mut places = Vec::new(alloc);
    let mut at = first;
    while at < end && end - at >= 17 {
        let Ok((is_open, long)) = read_head(disk, at) else {
            return Err(WatchFault::Read);
        };
        if !is_open {
            return Ok(Some(Chain { places, behind: at }));
        }
        if long < 16 {
            return Ok(None);
        }
        let Ok(()) = places.push(at) else {
            return Err(WatchFault::OutOfMemory);
        };
        at += long;
    }
    Ok(None)
}

// Whether a record is here that is followed by this place, as far as its gate and length show.
fn is_record(front: &[u8], place: u64, next: u64) -> bool
    requires { next < length front.now }
    ensures opened { IsTrue result → slice_index front.now place ≡ 165 }
    ensures long { IsTrue result → 16 ≤ field front.now (place + 4) 4 }
    ensures next { IsTrue result → place + field front.now (place + 4) 4 ≡ next }
{
    place < next
        && next - place >= 16
        && front[place as usize] == GATE_OPEN
        && u64::from(LittleEndian::read_u32(&front[place as usize + 4..])) == next - place
}

/// Whether the bytes that were read of a half are a chain of records at
/// these places, from `first` on, with a gate behind them that is not open.
pub(crate) fn is_chain(front: &[u8], first: u64, chain: &Chain) -> bool
    requires { chain.now.behind < length front.now }
    ensures { IsTrue result → IsChain front.now first chain.now.places.items chain.now.behind }
{
    if front[chain.behind as usize] == GATE_OPEN {
        return false;
    }
    let mut at = chain.behind;
    let mut left = chain.places.len();
    while left > 0 {
        let place = chain.places[left - 1];
        if !is_record(front, place, at) {
            return false;
        }
        at = place;
        left -= 1;
    }
    at == first
}
