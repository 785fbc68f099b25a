/// A disk in memory's record of one call that changed the bytes that a crash may leave.
#[derive(Drop)]
pub enum Note {
    /// These bytes were written from that place on.
    Wrote(u64, Vec<u8>),
    /// The bytes that were written until then were made stable.
    Synced,
}
