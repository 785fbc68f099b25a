// A count of failures, for the calls of a disk and of a stream.
ghost use Rattle.diagnostics.specs.Counts.{HasRisen, IsNextCount};

/// The count after one more failure. It stays at the highest number of 64 bits.
pub fn after_failure(count: u64) -> u64
    ensures risen { HasRisen count result }
    ensures next { IsNextCount count result }
{
    count.saturating_add(1)
}
