// The known facts about an open file, by the calls that were made on it.

/// How a file's advisory lock (flock(2)) is had.
#[derive(Clone, Copy, Debug, PartialEq, Eq)]
pub enum Hold {
    /// With others that only read the file.
    Shared,
    /// Alone.
    Alone,
}

/// The known facts about an open file, by the calls that were made on it.
#[derive(Clone, Copy)]
pub struct HeldFacts {
    /// How its lock is had, if it is.
    pub lock: Option<Hold>,
    /// It was seen to be a regular file, or made as one.
    pub is_regular: bool,
    /// The bytes that earlier processes wrote are durable: a sync succeeded under its lock, or it was made here.
    pub is_settled: bool,
    /// The first sync under its lock failed. Then the system reported that a write of an earlier process was lost.
    pub has_lost_writes: bool,
    /// Another sync failed. Then no later one can show whether its bytes are durable.
    pub has_failed_sync: bool,
    /// How many of the reads, writes and syncs of a disk in it failed. It stays at the highest number of 64 bits.
    pub failures: u64,
}
