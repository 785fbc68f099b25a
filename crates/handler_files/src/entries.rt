// The spool's entries in a directory.
ghost use Rattle.std.specs.Prelude.{◌≡◌, min, ◌^◌, ◌-◌, IsPermutation};
ghost use Rattle.std.specs.List.Sorted.{IsNonDecreasingBy};
ghost use Rattle.handler_files.specs.Entries.{bytes_sum};

use crate::spool_name::{SpoolName, Stage};

/// A core in a directory, or the words of one.
#[derive(Clone, Copy, PartialEq, Eq)]
pub struct Entry {
    /// The core's name.
    pub name: SpoolName,
    /// Whether the file is whole.
    pub stage: Stage,
    /// How many bytes it has.
    pub bytes: u64,
}

/// How many bytes the files of cores have together, or 2^64 - 1 if that are more.
pub fn taken_bytes(entries: &[Entry]) -> u64
    ensures { result ≡ min (bytes_sum entries.now) (2 ^ 64 - 1) }
{
    let mut sum = 0u64;
    for entry in entries {
        sum = sum.saturating_add(entry.bytes);
    }
    sum
}

/// Puts those that came first in front.
pub fn oldest_first(entries: &mut [Entry])
    ensures same { IsPermutation entries.old entries.new }
    ensures order { IsNonDecreasingBy (λ e. e.name.stamp) entries.new }
{
    entries.sort_unstable_by_key(|entry| entry.name.stamp);
}
