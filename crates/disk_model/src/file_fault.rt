// Why a file can't be a disk.
use std::alloc::AllocError;
use std::io;
use std::io::ErrorKind;
use thiserror::Error;

/// Why a disk in a file could not be made or opened.
#[derive(Clone, Copy, Debug, PartialEq, Eq, Error)]
pub enum FileFault {
    /// There is a file of that name already. Only `create` answers this.
    #[error("the file exists")]
    Exists,
    /// There is no file of that name, or no such directory.
    #[error("there is no such file")]
    Missing,
    /// The permissions forbid it.
    #[error("permission is denied")]
    Denied,
    /// It is a directory.
    #[error("it is a folder")]
    Folder,
    /// It is neither a regular file nor a directory: a pipe, a socket or a device.
    #[error("it is no regular file")]
    Special,
    /// The file system is full. Only `create` answers this.
    #[error("the file system is full")]
    Full,
    /// The file could not be made or opened for reading and writing, for another reason.
    #[error("the file could not be opened")]
    Open,
    /// Its permissions or its length could not be set or asked, or its zeros not be written.
    #[error("the file's length could not be set or asked")]
    Length,
    /// Its bytes or its name could not be made durable. Only `create` answers this.
    #[error("the file could not be synced")]
    Sync,
    /// It has no lock here.
    #[error("the file could not be locked")]
    Lock,
    /// Another has its lock.
    #[error("another process has the file")]
    Busy,
    /// The bytes that an earlier process wrote could not be made
    /// durable. Only functions that open a disk in a file answer this.
    #[error("what was written before could not be made durable")]
    Settle,
    /// There is no memory for the bytes of its writes.
    #[error("there is no memory")]
    OutOfMemory,
}

impl From<AllocError> for FileFault {
    fn from(_: AllocError) -> FileFault {
        FileFault::OutOfMemory
    }
}

impl From<io::Error> for FileFault {
    fn from(error: io::Error) -> FileFault {
        match error.kind() {
            ErrorKind::AlreadyExists => FileFault::Exists,
            ErrorKind::NotFound | ErrorKind::NotADirectory => FileFault::Missing,
            ErrorKind::PermissionDenied | ErrorKind::ReadOnlyFilesystem => FileFault::Denied,
            ErrorKind::IsADirectory => FileFault::Folder,
            ErrorKind::StorageFull | ErrorKind::QuotaExceeded => FileFault::Full,
            _ => FileFault::Open,
        }
    }
}
