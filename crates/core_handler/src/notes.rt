// The notes for people beside the replies.
use archive_files::Collected;
use std::alloc::Global;

/// The notes for people that a command prints though it succeeded. An empty note is not printed.
#[derive(Drop)]
pub struct Notes {
    /// On the case that is stored, on the archive that is looked at, or on the directory of the file that is made.
    pub subject: Collected,
    /// On the file system of the archive, or on the spool of the case.
    pub second: Collected,
    /// The archive that a handler's configuration or its words name, for a message about it.
    pub archive: Option<String>,
}

impl Notes {
    /// No note.
    pub fn new(alloc: Global) -> Notes {
        Notes {
            subject: Collected::new(alloc),
            second: Collected::new(alloc),
            archive: None,
        }
    }
}
