// The place at which a journal is written anew.

/// The place at which a journal is written anew: a half that is not the taken one.
#[derive(Clone, Copy)]
pub struct Target {
    /// The start of the half, in bytes.
    pub start: u64,
    /// The version for its header.
    pub version: u32,
    /// The generation for its header.
    pub generation: u64,
    /// The number of the next case.
    pub next: u64,
}
