// The facts of an image that the journal keeps.
use arrayvec::ArrayVec;
use extents::RunList;

/// A name of 1 to 128 bytes, none of them NUL.
pub type Name = ArrayVec<u8, 128>;

/// The label of a case: 0 to 64 bytes of any value.
pub type Label = ArrayVec<u8, 64>;

/// The kind of an image.
#[derive(Clone, Copy, Debug, PartialEq, Eq)]
pub enum Kind {
    /// A core file.
    Core,
    /// An executable.
    Exec,
}

/// A case: the facts of an image and the blocks that hold it.
#[derive(Drop)]
pub struct Entry {
    /// Its number, from 1 on, never given twice.
    pub seq: u32,
    pub kind: Kind,
    pub name: Name,
    pub pid: u32,
    pub signal: u32,
    /// Seconds since the epoch, as it was given.
    pub time: u64,
    /// Whether it is kept from deletion.
    pub pinned: bool,
    /// The image's bytes.
    pub length: u64,
    /// The blocks that hold them, in order.
    pub runs: RunList,
    /// Empty at first. Version 2 of the layout keeps it; in version 1 it stays empty.
    pub label: Label,
}
