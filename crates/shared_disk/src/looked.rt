// A look at a disk that others change.
ghost use Rattle.std.specs.Prelude.{◌≡◌, ◌≤◌, IfOk};
ghost use Rattle.shared_disk.specs.Front.{IsFront};

use crate::shared::{LookFault, SharedDisk};
use crate::unlocked::Unlocked;
use intake::ByteRange;
use std::alloc::Global;

// The bytes of a block, and the most blocks of a half of a journal.
const BLOCK: u64 = 4096;

const MOST_HALF_BLOCKS: u32 = 4096;

/// A disk that others change, and its front as the last look saw it: the superblock and the journal of an archive.
#[derive(Drop)]
pub struct Looked<S: SharedDisk> {
    shared: S,
    front: Vec<u8>,
    ghost seen: { IsFront S.SharedDisk shared front.items },
}

impl<S: SharedDisk + Drop> Looked<S> {
    ghost use Rattle.shared_disk.specs.Looks.{LooksAnew, shared_of};

    /// Looks at a disk.
    pub fn look(alloc: Global, shared: S) -> Result<Looked<S>, LookFault>
        ensures looks { IfOk result (λ l. LooksAnew S.SharedDisk shared (shared_of l)) }
    {
        let size = front_of(&shared);
        let Ok(mut front) = vec![in alloc; 0u8; size] else {
            return Err(LookFault::OutOfMemory);
        };
        let mut shared = shared;
        shared.look(alloc, &mut front)?;
        Ok(Looked { shared, front })
    }
}

impl<S: SharedDisk> Looked<S> {
    ghost use Rattle.shared_disk.specs.Looks.{ranges_of, shared_of, under};

    /// The disk, as one that nobody changes. Of the bytes after its front these ranges may be read.
    pub fn unlocked(&self, ranges: Vec<ByteRange>) -> Unlocked<'_, S>
        ensures under { under result ≡ shared_of self.now }
        ensures ranges { ranges_of result ≡ ranges.items }
    {
        Unlocked::over(&self.shared, &self.front, ranges)
    }

    /// The disk that others change, lent.
    pub fn shared(&self) -> &S
        ensures { result.now ≡ shared_of self.now }
    {
        &self.shared
    }

    /// The disk that others change.
    pub fn into_shared(self) -> S
        ensures { result ≡ shared_of self }
    {
        let Looked { shared, .. } = self;
        shared
    }
}

// How many bytes an archive's superblock and journal take, or a block if there is no archive; at most all of the disk. The bytes
// that are read here without the lock are never changed.
fn front_of<S: SharedDisk>(shared: &S) -> usize
    ensures { result ≤ S.size shared.now }
{
    let length = shared.length();
    let mut start = [0u8; 20];
    if length < BLOCK {
        return length as usize;
    }
    if shared.read_between(0, &mut start).is_err() {
        return BLOCK as usize;
    }
    let half_blocks = u32::from_le_bytes([start[16], start[17], start[18], start[19]]);
    let front = BLOCK * (1 + 2 * u64::from(half_blocks.min(MOST_HALF_BLOCKS)));
    front.min(length) as usize
}
