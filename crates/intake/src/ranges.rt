// The ranges of the disk that have the bytes of an image.
ghost use Rattle.std.specs.Prelude.{IfOk};
ghost use Rattle.journal_layout.specs.Layout.{IsWithinLimits};
ghost use Rattle.intake.specs.Ranges.{CoversRuns, IsFrontOfRun};
ghost use Rattle.intake.specs.Reading.{LieWithin};

use extents::Run;
use journal_layout::{BLOCK, Shape};
use std::alloc::{AllocError, Global};

/// Bytes of a disk that lie one after another.
#[derive(Clone, Copy, Debug, PartialEq, Eq)]
pub struct ByteRange {
    /// The place of the first one.
    pub start: u64,
    /// How many they are.
    pub length: u64,
}

// The bytes of a run, or the first `most` of them.
fn front_of_run(shape: Shape, run: Run, most: u64) -> ByteRange
    ensures { IsFrontOfRun shape run most result }
{
    ByteRange {
        start: shape.data_start() + BLOCK * u64::from(run.start),
        length: most.min(BLOCK * u64::from(run.count)),
    }
}

/// The ranges of an image of `len` bytes that fills these runs in their order, one range for each.
pub(crate) fn ranges_of(
    alloc: Global,
    shape: Shape,
    runs: &[Run],
    len: u64,
) -> Result<Vec<ByteRange>, AllocError>
    requires limits { IsWithinLimits shape }
    requires within { LieWithin shape.data_blocks runs.now }
    ensures { IfOk result (λ ranges. CoversRuns shape runs.now len ranges.items) }
{
    let mut ranges = Vec::with_capacity(alloc, runs.len())?;
    let mut left = len;
    for run in runs {
        let range = front_of_run(shape, *run, left);
        ranges.push(range)?;
        left -= range.length;
    }
    Ok(ranges)
}
