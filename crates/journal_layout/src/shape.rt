// The shape of an archive: how many blocks each part has.
ghost use Rattle.std.specs.Prelude.{◌≡◌, ◌↔◌, IsOk, IfOk};

use thiserror::Error;

/// The bytes of a block.
pub const BLOCK: u64 = 4096;

/// One of the two halves of the journal. At any time one of them is taken: its records count.
#[derive(Clone, Copy, Debug, PartialEq, Eq)]
pub enum Half {
    A,
    B,
}

/// How many blocks each journal half and the data have.
#[derive(Clone, Copy, Debug, PartialEq, Eq)]
pub struct Shape {
    /// Blocks in each journal half, 1 to 4,096.
    pub half_blocks: u32,
    /// Data blocks, 1 to 16,777,216.
    pub data_blocks: u32,
}

/// A shape outside its limits, or a disk of another length.
#[derive(Clone, Copy, Debug, PartialEq, Eq, Error)]
#[error("the shape is outside its limits or is not the disk's")]
pub struct BadShape;

impl Shape {
    ghost use Rattle.journal_layout.specs.Layout.{IsWithinLimits, disk_length, half_start, data_start, half_length};

    /// The bytes of an archive of this shape. `BadShape`: a number of blocks is outside its limits.
    pub fn length(&self) -> Result<u64, BadShape>
        ensures limits { IsOk result ↔ IsWithinLimits self.now }
        ensures value { IfOk result (λ n. n ≡ disk_length self.now) }
    {
        let half = u64::from(self.half_blocks);
        let data = u64::from(self.data_blocks);
        if half < 1 || half > 4096 || data < 1 || data > 16_777_216 {
            return Err(BadShape);
        }
        Ok(BLOCK * (1 + 2 * half + data))
    }

    /// The start of a half on the disk, in bytes.
    pub fn half_start(&self, half: Half) -> u64
        ensures { result ≡ half_start self.now half }
    {
        match half {
            Half::A => BLOCK,
            Half::B => BLOCK * (1 + u64::from(self.half_blocks)),
        }
    }

    /// The bytes of a half.
    pub fn half_length(&self) -> u64
        ensures { result ≡ half_length self.now }
    {
        BLOCK * u64::from(self.half_blocks)
    }

    /// The start of the data blocks on the disk, in bytes.
    pub fn data_start(&self) -> u64
        ensures { result ≡ data_start self.now }
    {
        BLOCK * (1 + 2 * u64::from(self.half_blocks))
    }
}
