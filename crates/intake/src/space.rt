// How much room an archive has for images.

/// How many data blocks of an archive are free, and how many it has.
#[derive(Clone, Copy, Debug, PartialEq, Eq)]
pub struct Space {
    /// The data blocks that no case and no stream has.
    pub free: u32,
    /// All data blocks.
    pub data_blocks: u32,
}
