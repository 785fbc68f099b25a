// Why something was not read while others change the archive.
use inspector_cli::{CopyFault, LifeFault};
use intake::ArchiveFault;
use journal_layout::OpenFault;
use shared_disk::LookFault;
use thiserror::Error;

/// Why an image was not copied, or not whole.
#[derive(Clone, Copy, Debug, Error)]
pub enum UnlockedFault {
    /// The archive could not be opened. Nothing was written.
    #[error(transparent)]
    Open(OpenFault),
    /// The archive has no such case, or there was no memory. Nothing was written.
    #[error(transparent)]
    Archive(ArchiveFault),
    /// The copy was not made, or not whole.
    #[error(transparent)]
    Copy(CopyFault),
    /// The archive could not be looked at again, so nobody knows whether the case is there.
    #[error(transparent)]
    Look(LookFault),
    /// It could be looked at again, and not opened.
    #[error(transparent)]
    Reopen(OpenFault),
    /// The case was deleted while it was read. The bytes that were written may be no front of its image.
    #[error("the case was deleted while it was read")]
    Gone,
}

/// Why a question was not answered.
#[derive(Clone, Copy, Debug, Error)]
pub enum AskFault {
    /// The archive could not be opened. Nothing was written.
    #[error(transparent)]
    Open(OpenFault),
    /// The question was not answered: the output failed.
    #[error(transparent)]
    Life(LifeFault),
    /// There was no memory for the places of the cases. Nothing was written.
    #[error(transparent)]
    Archive(ArchiveFault),
    /// The archive could not be looked at again, so nobody knows whether the cases are there.
    #[error(transparent)]
    Look(LookFault),
    /// It could be looked at again, and not opened.
    #[error(transparent)]
    Reopen(OpenFault),
    /// A case that may have been read was deleted meanwhile. The bytes that were written are to be dropped.
    #[error("a case was deleted while it was read")]
    Gone,
}

/// Why a check was not made, or not printed whole.
#[derive(Clone, Copy, Debug, Error)]
pub enum UnlockedCheckFault {
    /// The archive could not be opened. Nothing was written.
    #[error(transparent)]
    Open(OpenFault),
    /// An image could not be read, or there was no memory. Nothing was written.
    #[error(transparent)]
    Archive(ArchiveFault),
    /// The archive could not be looked at again, so nobody knows which cases are there. Nothing was written.
    #[error(transparent)]
    Look(LookFault),
    /// It could be looked at again, and not opened. Nothing was written.
    #[error(transparent)]
    Reopen(OpenFault),
    /// The text could not be written, or not whole.
    #[error("the output could not be written")]
    Output,
}
