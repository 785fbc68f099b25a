//! A session: the commands of a script and the replies to them.
use crate::burst::Burst;
use arrayvec::ArrayVec;
use journal_layout::OpenFault;
use thiserror::Error;

/// In which order cases go that make room for a stream.
#[derive(Clone, Copy, PartialEq, Eq, Debug)]
pub enum Order {
    /// The cores of the lowest numbers first.
    Oldest,
    /// A core of the user whose unpinned cores have the most blocks, and of that user's programs the one of which so it is. Of its cores the
    /// last but one goes, if there are three or more, and else the last.
    Fair,
}

/// The options of a stream that is stored.
#[derive(Drop)]
pub struct StoreOptions {
    /// The label of its case, if it is to have one.
    pub label: Option<ArrayVec<u8, 64>>,
    /// Its case is pinned: no deletion and no retirement takes it.
    pub pin: bool,
    /// If the stream finds no room, cases that are not pinned are deleted: first the cores, then the executables, those of the
    /// lowest numbers first.
    pub fit: bool,
    /// In which order the cores go then.
    pub order: Order,
    /// If the stream has more than so many bytes, or finds no room, its first ones are kept, this many at most. None: it is refused.
    pub cut: Option<u64>,
    /// How many bytes the stream has, if that is known before. One that ends earlier, and is not cut before, is refused as `Short`, and one
    /// that goes on as `TooLong`.
    pub length: Option<u64>,
    /// The SHA-256 of the stream's bytes, if that is known before. One that has another, and is not cut before, is refused as `Differs`.
    pub digest: Option<[u8; 32]>,
    /// A core is not stored if that would be one too many of its program: the reason is `Burst`.
    pub burst: Option<Burst>,
}

/// The result of a stream that was to be stored, of the retirement before it, and of the label and the pin of its case.
#[derive(Clone, Copy, PartialEq, Eq, Debug)]
pub struct StoreOutcome {
    /// False only if cases were to be retired first, and that was answered `no REASON`.
    pub retired_first: bool,
    /// The number of the case, if it is stored.
    pub stored: Option<u32>,
    /// False only if the case was to have a label, and that was answered `no REASON`.
    pub labelled: bool,
    /// False only if the case was to be pinned, and that was answered `no REASON`.
    pub pinned: bool,
}

/// Why a session ended before its script.
#[derive(Clone, Copy, PartialEq, Eq, Debug, Error)]
pub enum SessionFault {
    /// The input failed.
    #[error("the input failed")]
    ReadFailed,
    /// The output failed.
    #[error("the output failed")]
    WriteFailed,
    /// 2^40 reads were made, and each gave a byte.
    #[error("too many reads")]
    TooManyReads,
}

/// Why a session over the archive on a disk did not end with its script.
#[derive(Clone, Copy, PartialEq, Eq, Debug, Error)]
pub enum LifeFault {
    /// The archive could not be opened.
    #[error(transparent)]
    Open(OpenFault),
    /// The session ended before its script.
    #[error(transparent)]
    Session(SessionFault),
}

/// Why a session over a fresh archive in memory did not end with its script.
#[derive(Clone, Copy, Debug, Error)]
pub enum MemoryFault {
    /// The shape is outside its limits.
    #[error("the shape is outside its limits")]
    BadShape,
    /// There was no memory for the disk, for the copies that it keeps of its writes while the archive was made, or to open the archive.
    #[error("out of memory")]
    OutOfMemory,
    /// The session ended before its script.
    #[error(transparent)]
    Session(SessionFault),
}
